//! `locks dump`: prints the live file of a store: its generation and format, the promised ballot, and counts.

ghost use Rattle.std.specs.Io.KnownBytes.{Appends};
ghost use Rattle.std.specs.Prelude.{◌≡◌, ◌≤◌, ◌++◌, List, ℕ, is_some, IfOk, OnOk, IsErrOf};
ghost use Rattle.lk_disk.specs.declared.device.Side.{Side};
ghost use Rattle.lk_log.specs.Images.{seen, IsDamaged};
ghost use Rattle.lk_inspect.specs.Dumps.{number_line, promised_line, format_shown, live_text, found_text, Dumps};

use lk_disk::LogDisk;
use lk_log::{LiveFile, look};
use lk_node_files::folder::look_at_device;
use lk_node_files::refusals::write_refusal;
use lk_program_fault::ProgramFault;
use lk_types::Ballot;
use std::alloc::Global;
use std::fs::Files;
use std::io;
use std::io::Write;

// Writes a line `NAME NUMBER`.
fn write_number<W: Write>(name: &str, number: u64, out: &mut W) -> io::Result<()>
    ensures { OnOk result (Appends (W.contents out.old) (W.contents out.new) (number_line name.now number)) }
{
    writeln!(out, "{name} {number}")
}

// Writes `promised ROUND NODE`, the promised ballot.
fn write_promised<W: Write>(promised: Ballot, out: &mut W) -> io::Result<()>
    ensures { OnOk result (Appends (W.contents out.old) (W.contents out.new) (promised_line promised)) }
{
    writeln!(out, "promised {} {}", promised.round(), promised.node())
}

// Writes one line each for the generation of the live file, the promised ballot (`0 0` if there is none), the
// snapshot's position, the counts of votes and decided commands above it, and the format of the file: 3 if it has sums.
fn write_live<W: Write>(live: &LiveFile, sums: bool, out: &mut W) -> io::Result<()>
    ensures { OnOk result (Appends (W.contents out.old) (W.contents out.new)
        (live_text live.now.generation (format_shown sums live.now.format) live.now.standing)) }
{
    write_number("generation", live.generation, out)?;
    write_promised(live.standing.promised, out)?;
    write_number("snapshot", live.standing.position.get(), out)?;
    write_number("votes", live.standing.votes.len() as u64, out)?;
    write_number("decided", live.standing.pairs.len() as u64, out)?;
    let format = if sums { 3 } else { live.format };
    write_number("format", u64::from(format), out)?;
    Ok(())
}

// Writes the live file, or `no store`. Returns whether there is a store.
fn write_found<W: Write>(found: Option<LiveFile>, sums: bool, out: &mut W) -> io::Result<bool>
    ensures text { IfOk result (λ _. Appends (W.contents out.old) (W.contents out.new) (found_text sums found)) }
    ensures value { IfOk result (λ is_store. is_store ≡ is_some found) }
{
    match found {
        Some(live) => {
            write_live(&live, sums, out)?;
            Ok(true)
        }
        None => {
            out.write_all(b"no store\n")?;
            Ok(false)
        }
    }
}

/// Writes a summary of the store of a device, without changing it, and flushes. `sums` is whether its files have sums.
/// Returns whether there is a store.
///
/// It fails with faults 7, 8 and 9 of the store, or 24 if the output could not be written.
pub fn dump_device<D: LogDisk, W: Write>(
    alloc: Global,
    device: &mut D,
    sums: bool,
    out: &mut W,
) -> Result<bool, ProgramFault>
    ensures unchanged { D.is_honest → (s : Side) → D.disk device.new s ≡ D.disk device.old s }
    ensures printed { D.is_honest
        → IfOk result (λ is_store. (text : List ℕ) × Dumps sums (seen (D.disk device.old)) is_store text
        × Appends (W.contents out.old) (W.contents out.new) text) }
    ensures damaged { D.is_honest → IsErrOf result ProgramFault.Damaged → IsDamaged (seen (D.disk device.old)) }
{
    let found = look(alloc, device)?;
    let Ok(is_store) = write_found(found, sums, out) else {
        return Err(ProgramFault::Write);
    };
    if out.flush().is_err() {
        return Err(ProgramFault::Write);
    }
    Ok(is_store)
}

// Writes the summary of the store in a folder, without creating a file. After an error of the store or its files, their
// message is already on `err`.
fn dump_folder<R: Files, W: Write, E: Write>(
    rt: &R,
    alloc: Global,
    folder: &str,
    out: &mut W,
    err: &mut E,
) -> Result<bool, ProgramFault> {
    let opened = look_at_device(rt, alloc, folder, err)?;
    let mut device = opened.device;
    let sums = device.has_frames();
    match dump_device(alloc, &mut device, sums, out) {
        Ok(is_store) => Ok(is_store),
        Err(fault) => Err(write_refusal(alloc, fault, &mut device, folder, err)),
    }
}

/// Prints a summary of the store of a folder, in six lines. Returns status 0, or 1 if there is no store, which it
/// prints as `no store`, or after an error message.
pub fn dump<R: Files, W: Write, E: Write>(
    rt: &R,
    alloc: Global,
    folder: &str,
    out: &mut W,
    err: &mut E,
) -> u8
    ensures { result ≤ 1 }
{
    match dump_folder(rt, alloc, folder, out, err) {
        Ok(true) => 0,
        Ok(false) => 1,
        Err(fault) => fault.write_to(err),
    }
}
