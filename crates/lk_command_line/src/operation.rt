//! The operations of `locks ask`, and what the words of each have to be.

ghost use Rattle.std.specs.Prelude.{codes};
ghost use Rattle.lk_command_line.specs.Arguments.{Names};

use crate::argument_error::ArgumentError;
use lk_locks::Name;
use std::io::Write;

// The operations: the first word, what the words have to be, and whether the second is a name.
#[rattlefmt::skip]
const FORMS: [(&str, &str, bool); 10] = [
    ("acquire", "must be acquire NAME", true),
    ("release", "must be release NAME FENCE, with FENCE from 0 to 281474976710656", true),
    ("ask", "must be ask NAME", true),
    ("check", "must be check NAME FENCE, with FENCE from 0 to 281474976710656", true),
    ("share", "must be share NAME", true),
    ("break", "must be break NAME FENCE, with FENCE from 0 to 281474976710656", true),
    ("join", "must be join NODE PORT, with NODE from 1 to 2147483648 and PORT from 1 to 65535", false),
    ("leave", "must be leave NODE, with NODE from 1 to 2147483648", false),
    ("raise", "must be raise 2", false),
    ("raw", "must be raw HEX, with HEX spelling 1 to 64 bytes", false),
];

// What a name has to be.
const NAME: &str = "a name has 1 to 32 bytes, of a-z 0-9 - . /";

// Returns what the words of an operation with that first word have to be.
fn form_of(first: &str) -> &'static str {
    for (word, form, _) in FORMS {
        if word == first {
            return form;
        }
    }
    "must be acquire, release, ask, check, share, break, join, leave, raise or raw"
}

/// The error of an invalid operation, with its first word.
pub fn invalid_operation<'a>(first: &'a str) -> ArgumentError<'a>
    ensures { Names (codes "op") first.now result }
{
    ArgumentError {
        argument: "op",
        value: first,
        wanted: form_of(first),
    }
}

// Whether the second word of an operation with that first word is a name.
fn has_name(first: &str) -> bool {
    FORMS
        .iter()
        .any(|(word, _, names)| *names && *word == first)
}

/// Warns if the name in an operation is not valid for the lock table. The operation is sent all the same, and the table
/// answers `bad`. A failed write is ignored.
pub fn warn_of_name<E: Write>(words: &[&str], err: &mut E) {
    match words {
        [first, name, ..] if has_name(first) && Name::of(name.as_bytes()).is_none() => {
            let _ = writeln!(err, "warning: '{name}' is not a name: {NAME}");
        }
        _ => {}
    }
}
