//! `locks scrub`: checks the sums of a store, even while a node runs on it.

ghost use Rattle.std.specs.Prelude.{◌≡◌, ◌≤◌, ◌↔◌, true, IfOk, IfErr};
ghost use Rattle.lk_disk.specs.declared.device.Side.{Side as SideValue};
ghost use Rattle.lk_summed_disk.specs.Opened.{IsSoundOn};
ghost use Rattle.lk_inspect.specs.Scrubs.{AreSound};

use lk_disk::{LogDisk, Side};
use lk_node_files::causes::{FailureCause, write_failed_calls};
use lk_node_files::folder::look_at_files;
use lk_node_files::opening::write_wrong_sum;
use lk_program_fault::ProgramFault;
use lk_summed_disk::{OpenFault, check_side};
use std::alloc::Global;
use std::fs::Files;
use std::io;
use std::io::Write;

// Writes what a file is whose sums are right, or that it has none.
fn write_right<W: Write>(folder: &str, name: &str, sums: bool, out: &mut W) -> io::Result<()> {
    let text = if sums { "sums right" } else { "no sums" };
    writeln!(out, "{folder}/{name}: {text}")
}

// Checks a file of a device, and writes what was found. Returns whether it is sound.
fn scrub_side<D: LogDisk, W: Write, E: Write>(
    alloc: Global,
    device: &mut D,
    side: Side,
    path: (&str, &str),
    out: &mut W,
    err: &mut E,
) -> Result<bool, ProgramFault>
    ensures unchanged { D.is_honest → (s : SideValue) → D.disk device.new s ≡ D.disk device.old s }
    ensures found { D.is_honest → IfOk result (λ sound. sound ≡ true ↔ IsSoundOn (D.disk device.old) side) }
{
    let (folder, name) = path;
    match check_side(alloc, device, side) {
        Ok(sums) => match write_right(folder, name, sums, out) {
            Ok(()) => Ok(true),
            Err(_) => Err(ProgramFault::Write),
        },
        Err(OpenFault::Damaged(_, offset)) => {
            write_wrong_sum(side, offset, folder, err);
            Ok(false)
        }
        Err(OpenFault::Device) => Err(ProgramFault::Device),
        Err(OpenFault::NoMemory) => Err(ProgramFault::NoMemory),
    }
}

/// Checks both files of a device, changes nothing, and writes what was found: a line for each on `out` if its sums are
/// right, or on `err` with the byte from which they are not. Returns whether both are sound.
pub fn scrub_device<D: LogDisk, W: Write, E: Write>(
    alloc: Global,
    device: &mut D,
    folder: &str,
    out: &mut W,
    err: &mut E,
) -> Result<bool, ProgramFault>
    ensures unchanged { D.is_honest → (s : SideValue) → D.disk device.new s ≡ D.disk device.old s }
    ensures found { D.is_honest → IfOk result (λ sound. sound ≡ true ↔ AreSound (D.disk device.old)) }
{
    let a = scrub_side(alloc, device, Side::A, (folder, "a"), out, err)?;
    let b = scrub_side(alloc, device, Side::B, (folder, "b"), out, err)?;
    Ok(a && b)
}

// The same of the files of a folder, without locking it. If a call of a file failed, writes why.
fn scrub_folder<R: Files, W: Write, E: Write>(
    rt: &R,
    alloc: Global,
    folder: &str,
    out: &mut W,
    err: &mut E,
) -> Result<bool, ProgramFault> {
    let mut device = look_at_files(rt, alloc, folder, err)?;
    match scrub_device(alloc, &mut device, folder, out, err) {
        Ok(sound) => Ok(sound),
        Err(fault) => Err(write_failed_calls(fault, &device, folder, err)),
    }
}

// The same, and reads the files once more before it tells that something is wrong: a node that runs on them may have
// replaced one while it was read.
fn scrub_again<R: Files, W: Write, E: Write>(
    rt: &R,
    alloc: Global,
    folder: &str,
    out: &mut W,
    err: &mut E,
) -> Result<bool, ProgramFault> {
    let mut lines = Vec::new(alloc);
    let mut untold = Vec::new(alloc);
    if let Ok(true) = scrub_folder(rt, alloc, folder, &mut lines, &mut untold) {
        return match out.write_all(&lines) {
            Ok(()) => Ok(true),
            Err(_) => Err(ProgramFault::Write),
        };
    }
    scrub_folder(rt, alloc, folder, out, err)
}

/// Checks the sums of the store in a folder, even while a node runs on it, and changes nothing. Returns status 0 if
/// each is right, but for what a stop may leave at the end of a file, or if there are none; 1 after an error message,
/// which names each file with a wrong sum, and where.
pub fn scrub<R: Files, W: Write, E: Write>(
    rt: &R,
    alloc: Global,
    folder: &str,
    out: &mut W,
    err: &mut E,
) -> u8
    ensures { result ≤ 1 }
{
    match scrub_again(rt, alloc, folder, out, err) {
        Ok(true) if out.flush().is_ok() => 0,
        Ok(true) => ProgramFault::Write.write_to(err),
        Ok(false) => ProgramFault::Damaged.write_to(err),
        Err(fault) => fault.write_to(err),
    }
}
