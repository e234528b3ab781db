//! How a run of the program ends: its last line on standard error, and the status.

ghost use Rattle.std.specs.Prelude.{◌≡◌, ◌⊎◌, Ok};
ghost use Rattle.std.specs.Io.KnownBytes.{Keeps};

use lk_script_lines::fault::ScriptFault;
use std::io::Write;

/// Writes the line of a fault. Returns status 1.
pub fn write_fault<E: Write>(fault: ScriptFault, err: &mut E) -> u8
    ensures { result ≡ 1 }
{
    let _ = writeln!(err, "{fault}");
    1
}

/// Ends a run: flushes the output, and reports the run's fault, followed by fault 24 if the flush failed. An event
/// that the world rejected is not reported, since it is in the output. Returns status 0, or 1 after a fault or a
/// rejected event.
pub fn end<W: Write, E: Write>(ran: Result<(), ScriptFault>, out: &mut W, err: &mut E) -> u8
    ensures status { (result ≡ 0) ⊎ (result ≡ 1) }
    ensures ran { result ≡ 0 → ran ≡ Ok tt }
    ensures quiet { result ≡ 0 → err.new ≡ err.old }
    ensures written { Keeps (W.contents out.old) (W.contents out.new) }
{
    match (ran, out.flush()) {
        (Ok(()), Ok(())) => 0,
        (Err(ScriptFault::Ended(_)), Ok(())) => 1,
        (Err(fault), Ok(())) => write_fault(fault, err),
        (Ok(()) | Err(ScriptFault::Write | ScriptFault::Ended(_)), Err(_)) => write_fault(
            ScriptFault::Write,
            err,
        ),
        (Err(fault), Err(_)) => {
            write_fault(fault, err);
            write_fault(ScriptFault::Write, err)
        }
    }
}
