//! Reads the lines of an input.

ghost use Rattle.std.specs.Prelude.{◌≡◌, ◌≢◌, ◌⊎◌, ℕ, List, [], true, false, Ok, IfErr, IfSome};
ghost use Rattle.std.specs.Io.BufRead.{take_through};
ghost use Rattle.std.specs.IoError.{error_kind};
ghost use Rattle.lk_script_lines.specs.Lines.{first_line, ReadsLine, ReadsWithinLine};
ghost use Rattle.lk_script_lines.specs.declared.fault.ScriptFault.TheVariants as fault;

use crate::fault::ScriptFault;
use std::io::{BufRead, Error, ErrorKind};

// Removes the line feed at the end of the line, if it has one.
fn drop_line_feed(line: &mut Vec<u8>)
    ensures { (text : List ℕ) → line.old.items ≡ take_through 10 text → line.new.items ≡ first_line text }
{
    if let Some((last, front)) = line.split_last() {
        if *last == b'\n' {
            let length = front.len();
            line.truncate(length);
        }
    }
}

// Returns the fault of a failed read.
fn read_fault(error: &Error) -> ScriptFault
    ensures memory { error_kind error.now ≡ ErrorKind.OutOfMemory → result ≡ ScriptFault.ScriptMemory }
    ensures read { error_kind error.now ≢ ErrorKind.OutOfMemory → result ≡ ScriptFault.Read }
{
    match error.kind() {
        ErrorKind::OutOfMemory => ScriptFault::ScriptMemory,
        _ => ScriptFault::Read,
    }
}

/// Reads the next line into `line`, without its line feed. Returns false at the end of the input.
pub fn next_line<R: BufRead>(reader: &mut R, line: &mut Vec<u8>) -> Result<bool, ScriptFault>
    ensures line { result ≡ Ok true
        → IfSome (R.remaining reader.old) (λ text. ReadsLine text line.new.items (R.remaining reader.new)) }
    ensures end { result ≡ Ok false → IfSome (R.remaining reader.old) (λ text. text ≡ []) }
    ensures within { IfSome (R.remaining reader.old) (λ text. ReadsWithinLine text (R.remaining reader.new)) }
    ensures err { IfErr result (λ e. (e ≡ ScriptFault.Read) ⊎ (e ≡ ScriptFault.ScriptMemory)) }
{
    line.clear();
    match reader.read_until(b'\n', line) {
        Ok(0) => Ok(false),
        Ok(_) => {
            drop_line_feed(line);
            Ok(true)
        }
        Err(error) => Err(read_fault(&error)),
    }
}
