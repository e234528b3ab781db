//! `locks inspect`: prints the state that the commands of a store lead to: members, progress and names.

ghost use Rattle.std.specs.Io.KnownBytes.{Appends};
ghost use Rattle.std.specs.Option.{option_copied};
ghost use Rattle.std.specs.Prelude.{◌≡◌, ◌≤◌, is_some, codes, IfOk, OnOk, IsErrOf};
ghost use Rattle.lk_disk.specs.declared.device.Side.{Side};
ghost use Rattle.lk_log.specs.Images.{seen};
ghost use Rattle.lk_inspect.specs.Inspections.{Finds, IsSpoilt};
ghost use Rattle.lk_inspect.specs.Lines.{state_text};

use crate::inspection::{Inspection, inspected};
use crate::lines::{Listing, write_inspection};
use lk_disk::LogDisk;
use lk_log::look;
use lk_node_files::folder::look_at_device;
use lk_node_files::refusals::write_refusal;
use lk_program_fault::ProgramFault;
use std::alloc::Global;
use std::fs::Files;
use std::io;
use std::io::Write;

/// Writes the summary of a store's state, or `no store`, and flushes. Returns whether there is a store.
#[tactic(auto, using(crate::proofs::Dumping::appends_kept))]
pub fn write_found<W: Write>(
    found: Option<&Inspection>,
    listing: Listing,
    out: &mut W,
) -> io::Result<bool>
    ensures text { OnOk result (Appends (W.contents out.old) (W.contents out.new)
        (state_text listing (option_copied found.entry))) }
    ensures value { IfOk result (λ is_store. is_store ≡ is_some found.entry) }
{
    match found {
        Some(inspection) => write_inspection(inspection, listing, out)?,
        None => out.write_all(b"no store\n")?,
    }
    out.flush()?;
    Ok(found.is_some())
}

/// Returns the summary of the state of a device's store, or `None` if there is no store; it changes nothing. It fails
/// with faults 7, 8 and 9 of the store; 9 also if its snapshot packs no state at its position.
pub fn inspect_device<D: LogDisk>(
    alloc: Global,
    device: &mut D,
) -> Result<Option<Inspection>, ProgramFault>
    ensures unchanged { D.is_honest → (s : Side) → D.disk device.new s ≡ D.disk device.old s }
    ensures found { D.is_honest → IfOk result (Finds (seen (D.disk device.old))) }
    ensures damaged { D.is_honest → IsErrOf result ProgramFault.Damaged → IsSpoilt (seen (D.disk device.old)) }
{
    match look(alloc, device)? {
        Some(live) => Ok(Some(inspected(alloc, &live.standing)?)),
        None => Ok(None),
    }
}

// Returns the summary for the store in a folder, and whether it has sums, without creating a file. After an error of
// the store or its files, their message is already on `err`.
fn inspection_in<R: Files, E: Write>(
    rt: &R,
    alloc: Global,
    folder: &str,
    err: &mut E,
) -> Result<(Option<Inspection>, bool), ProgramFault> {
    let opened = look_at_device(rt, alloc, folder, err)?;
    let mut device = opened.device;
    match inspect_device(alloc, &mut device) {
        Ok(found) => Ok((found, device.has_frames())),
        Err(fault) => Err(write_refusal(alloc, fault, &mut device, folder, err)),
    }
}

// Writes the line of the format of a store with sums.
fn write_format<W: Write>(out: &mut W) -> io::Result<()>
    ensures { OnOk result (Appends (W.contents out.old) (W.contents out.new) (codes "format 3\n")) }
{
    out.write_all(b"format 3\n")?;
    Ok(())
}

// Writes the summary for the store in a folder, and its format if it has sums. Returns whether there is a store.
fn inspect_folder<R: Files, W: Write, E: Write>(
    rt: &R,
    alloc: Global,
    folder: &str,
    listing: Listing,
    out: &mut W,
    err: &mut E,
) -> Result<bool, ProgramFault> {
    let (found, sums) = inspection_in(rt, alloc, folder, err)?;
    if sums && write_format(out).is_err() {
        return Err(ProgramFault::Write);
    }
    write_found(found.as_ref(), listing, out).map_err(|_| ProgramFault::Write)
}

/// Prints the summary for the store in a folder, even while a node runs on it, with the names that the listing says.
/// Returns status 0, or 1 if there is no store, which it prints as `no store`, or after an error message.
pub fn inspect<R: Files, W: Write, E: Write>(
    rt: &R,
    alloc: Global,
    folder: &str,
    listing: Listing,
    out: &mut W,
    err: &mut E,
) -> u8
    ensures { result ≤ 1 }
{
    match inspect_folder(rt, alloc, folder, listing, out, err) {
        Ok(true) => 0,
        Ok(false) => 1,
        Err(fault) => fault.write_to(err),
    }
}
