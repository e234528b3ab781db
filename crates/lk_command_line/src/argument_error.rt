//! Invalid arguments of a command line, and what they have to be.

ghost use Rattle.std.specs.Prelude.{codes};
ghost use Rattle.lk_command_line.specs.Arguments.{word_of, Names};

use clap::ArgMatches;
use lk_word_parsers::alpha::read_alpha;
use lk_word_parsers::member::{member_of, read_members};
use lk_word_parsers::number::read_number;
use lk_word_parsers::word::split_once;
use std::fmt;

/// An invalid value, its argument, and what the value has to be.
#[derive(Clone, Copy)]
pub struct ArgumentError<'a> {
    pub argument: &'a str,
    pub value: &'a str,
    pub wanted: &'a str,
}

impl<'a> fmt::Display for ArgumentError<'a> {
    fn fmt<W: fmt::Write>(&self, f: &mut fmt::Formatter<W>) -> fmt::Result {
        let ArgumentError {
            argument,
            value,
            wanted,
        } = self;
        match *argument {
            "op" => write!(f, "error: invalid value '{value}' for '<op>...': {wanted}"),
            "prometheus" => write!(f, "error: {wanted}"),
            _ => write!(
                f,
                "error: invalid value '{value}' for '--{argument} <{argument}>': {wanted}"
            ),
        }
    }
}

// What the value of each argument has to be.
#[rattlefmt::skip]
const WANTED: [(&str, &str); 16] = [
    ("number", "must be 1 to 2147483648"),
    ("port", "must be 1 to 65535"),
    ("client", "must be 1 to 256"),
    ("admin", "must be CLIENT,.., each from 1 to 256"),
    ("cluster", "must be 0 to 18446744073709551615"),
    ("request", "must be 1 to 281474976710656"),
    ("start", "must be 0 to 18446744073709551615"),
    ("events", "must be 0 to 20000"),
    ("past", "must be 0 to 281474976710655"),
    ("name", "must be NAME:FENCE, with FENCE from 1 to 281474976710655"),
    ("bind", "must be an IP address"),
    ("address", "must be an IP address"),
    ("ticks", "must be clock, or datagrams if there is no --key"),
    ("prometheus", "use --json or --prometheus, not both"),
    ("wait", "must be 0 to 60000 milliseconds"),
    ("until", "must be ready SECONDS, with SECONDS from 1 to 86400"),
];

// What the value of that argument has to be.
fn wanted_of(argument: &str) -> &'static str {
    for (name, text) in WANTED {
        if name == argument {
            return text;
        }
    }
    "not valid"
}

/// Returns the error of an argument with an invalid word, with the text of `WANTED` for that argument.
pub fn invalid_word<'a>(argument: &'a str, value: &'a str) -> ArgumentError<'a>
    ensures { Names argument.now value.now result }
{
    ArgumentError {
        argument,
        value,
        wanted: wanted_of(argument),
    }
}

/// Returns the error of an invalid argument, with its word from the command line: the first of several, or empty if
/// none was given.
pub fn invalid_argument<'a>(matches: &ArgMatches<'a>, argument: &'a str) -> ArgumentError<'a>
    ensures { Names argument.now (word_of matches.now argument.now) result }
{
    match matches.get_str(argument) {
        Some(value) => invalid_word(argument, value),
        None => invalid_word(argument, ""),
    }
}

// Returns what the members of an invalid genesis have to be. A list that reads can only be out of order, or name a node
// twice.
fn wanted_members(words: &[u8]) -> &'static str {
    match read_members(words, b',') {
        Some(_) => "list the members in ascending order of node number, each once",
        None
            if words
                .split(|byte| *byte == b',')
                .any(|word| member_of(word).is_none()) => {
            "a member must be NODE:PORT, with NODE from 1 to 2147483648 and PORT from 1 to 65535"
        }
        None => "must have 1 to 7 members",
    }
}

// Returns what an invalid alpha has to be.
fn wanted_alpha(word: &[u8]) -> &'static str {
    if word.contains(&b'w') {
        "a wide ALPHA must be 1w to 64w"
    } else {
        "ALPHA must be 1 to 16"
    }
}

// Returns what alpha or the members of an invalid genesis have to be. `words` is its text after the cluster.
fn wanted_behind(words: &[u8]) -> &'static str {
    let Some((alpha, members)) = split_once(words, b',') else {
        return "must be CLUSTER,ALPHA,NODE:PORT,..";
    };
    match read_alpha(alpha) {
        None => wanted_alpha(alpha),
        Some(_) => wanted_members(members),
    }
}

// Returns what the first invalid part of a genesis has to be.
fn wanted_genesis(text: &[u8]) -> &'static str {
    match split_once(text, b',') {
        None => "must be CLUSTER,ALPHA,NODE:PORT,..",
        Some((cluster, words)) => match read_number(cluster, u64::MAX) {
            None => "CLUSTER must be 0 to 18446744073709551615",
            Some(_) => wanted_behind(words),
        },
    }
}

/// Returns the error of an invalid genesis, which names its first invalid part.
pub fn invalid_genesis<'a>(text: &'a str) -> ArgumentError<'a>
    ensures { Names (codes "genesis") text.now result }
{
    ArgumentError {
        argument: "genesis",
        value: text,
        wanted: wanted_genesis(text.as_bytes()),
    }
}
