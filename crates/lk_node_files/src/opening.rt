//! Opens the device of a folder with sums or without, and writes which sum differs.

ghost use Rattle.std.specs.Prelude.{◌≡◌, Some, None, IfOk, IfErr, OnOk, IsErrOf};
ghost use Rattle.lk_disk.specs.Disk.{Disk};
ghost use Rattle.lk_disk.specs.declared.device.Side.{Side as SideValue};
ghost use Rattle.lk_summed_disk.specs.Hiding.{shown};
ghost use Rattle.lk_summed_disk.specs.Opened.{IsDamagedOn, IsNoDamage, IsSoundOn};
ghost use Rattle.lk_summed_disk.specs.Options.{OpensAs};
ghost use Rattle.lk_node_files.specs.Older.{IsReplaced, OpensFiles};
ghost use Rattle.lk_node_files.specs.Openings.{IsUnreadable};
ghost use Rattle.lk_node_files.specs.Outdated.{OpensCut};

use crate::causes::{FailureCause, write_failed_calls};
use crate::older::is_older;
use crate::outdated::cut_outdated;
use crate::refusals::write_advice;
use lk_disk::{LogDisk, Side};
use lk_program_fault::ProgramFault;
use lk_summed_disk::{HidingDisk, OpenFault, OpenRefused, OptionalSums};
use std::alloc::Global;
use std::io::Write;

/// The opened files of a device, and which of them is hidden: a damaged one that is not needed.
#[derive(Drop)]
pub struct OpenedFiles<D: LogDisk + Drop> {
    pub device: OptionalSums<HidingDisk<D>>,
    pub hidden: Option<Side>,
}

// Returns the name of the file at a side.
fn name_of(side: Side) -> &'static str {
    match side {
        Side::A => "a",
        Side::B => "b",
    }
}

/// Writes at which byte of a file of a folder a sum differs.
pub fn write_wrong_sum<E: Write>(side: Side, offset: usize, folder: &str, err: &mut E) {
    let name = name_of(side);
    let _ = writeln!(err, "{folder}/{name}: wrong sum at byte {offset}");
}

// Writes the same of a file that is not needed, and says so.
fn write_not_needed<E: Write>(side: Side, offset: usize, folder: &str, err: &mut E) {
    write_wrong_sum(side, offset, folder, err);
    let name = name_of(side);
    let _ = writeln!(
        err,
        "warning: {folder}/{name}: older than the other file and not needed; the next snapshot of the node replaces it"
    );
}

// Writes why a device with sums is not opened, and what to do. Returns the fault.
fn write_why<D: FailureCause, E: Write>(
    fault: OpenFault,
    device: &D,
    folder: &str,
    err: &mut E,
) -> ProgramFault
    ensures fault { IsUnreadable result }
    ensures damaged { result ≡ ProgramFault.Damaged
        → (disks : SideValue → Disk) → IsDamagedOn disks fault → ((s : SideValue) → IsSoundOn disks s) → ⊥ }
    ensures no_damage { IsNoDamage fault → result ≡ ProgramFault.Damaged → ⊥ }
{
    match fault {
        OpenFault::Device => write_failed_calls(ProgramFault::Device, device, folder, err),
        OpenFault::NoMemory => ProgramFault::NoMemory,
        OpenFault::Damaged(side, offset) => {
            write_wrong_sum(side, offset, folder, err);
            write_advice(folder, err);
            ProgramFault::Damaged
        }
    }
}

// Opens a device, of which the file at a side is hidden: a sum at an offset of it differs, and it is not needed. Writes
// so, or why the other file is not read.
fn open_hiding<D: LogDisk + FailureCause + Drop, E: Write>(
    alloc: Global,
    device: HidingDisk<D>,
    sums: bool,
    side: Side,
    offset: usize,
    folder: &str,
    err: &mut E,
) -> Result<OpenedFiles<D>, ProgramFault>
    ensures opens { D.is_honest
        → IfOk result (λ o. OpensAs (λ d s. shown D.disk d s) sums (λ s. shown D.disk device s) o.device) }
    ensures hidden { IfOk result (λ o. o.hidden ≡ Some side) }
    ensures damaged { D.is_honest → IsErrOf result ProgramFault.Damaged
        → ((s : SideValue) → IsSoundOn (λ t. shown D.disk device t) s) → ⊥ }
    ensures fault { IfErr result IsUnreadable }
{
    match OptionalSums::open(alloc, device, sums) {
        Ok(device) => {
            write_not_needed(side, offset, folder, err);
            Ok(OpenedFiles {
                device,
                hidden: Some(side),
            })
        }
        Err(refused) => Err(write_why(refused.fault, &refused.device, folder, err)),
    }
}

// Opens a device with a damaged file at a side, from an offset on: without that file if it is not needed, and else not.
fn open_without<D: LogDisk + FailureCause + Drop, E: Write>(
    alloc: Global,
    device: HidingDisk<D>,
    sums: bool,
    side: Side,
    offset: usize,
    folder: &str,
    err: &mut E,
) -> Result<OpenedFiles<D>, ProgramFault>
    ensures opens { D.is_honest → (IsSoundOn (λ s. shown D.disk device s) side → ⊥)
        → IfOk result
        (λ o. OpensFiles (λ d s. shown D.disk d s) sums (λ s. shown D.disk device s) o.device o.hidden) }
    ensures needed { D.is_honest → (IsSoundOn (λ s. shown D.disk device s) side → ⊥)
        → IsErrOf result ProgramFault.Damaged
        → (s : SideValue) → IsReplaced (λ t. shown D.disk device t) s → ⊥ }
    ensures hidden { IfOk result (λ o. o.hidden ≡ None → ⊥) }
    ensures fault { IfErr result IsUnreadable }
{
    let mut device = device;
    match is_older(alloc, &mut device, side) {
        Ok(true) => {
            device.hide(side);
            open_hiding(alloc, device, sums, side, offset, folder, err)
        }
        Ok(false) => Err(write_why(OpenFault::Damaged(side, offset), &device, folder, err)),
        Err(fault) => Err(write_why(fault, &device, folder, err)),
    }
}

// Opens a device that was refused, without its damaged file if that is not needed. Otherwise writes why.
fn open_refused<D: LogDisk + FailureCause + Drop, E: Write>(
    alloc: Global,
    refused: OpenRefused<HidingDisk<D>>,
    sums: bool,
    folder: &str,
    err: &mut E,
) -> Result<OpenedFiles<D>, ProgramFault>
    ensures opens { D.is_honest → IsDamagedOn (λ s. shown D.disk refused.device s) refused.fault
        → IfOk result
        (λ o. OpensFiles (λ d s. shown D.disk d s) sums (λ s. shown D.disk refused.device s) o.device o.hidden) }
    ensures damaged { D.is_honest → IsDamagedOn (λ s. shown D.disk refused.device s) refused.fault
        → IsErrOf result ProgramFault.Damaged
        → ((s : SideValue) → IsSoundOn (λ t. shown D.disk refused.device t) s) → ⊥ }
    ensures needed { D.is_honest → IsDamagedOn (λ s. shown D.disk refused.device s) refused.fault
        → IsErrOf result ProgramFault.Damaged
        → (s : SideValue) → IsReplaced (λ t. shown D.disk refused.device t) s → ⊥ }
    ensures hidden { IfOk result (λ o. o.hidden ≡ None → ⊥) }
    ensures fault { IfErr result IsUnreadable }
{
    let OpenRefused { fault, device } = refused;
    match fault {
        OpenFault::Device => Err(write_failed_calls(ProgramFault::Device, &device, folder, err)),
        OpenFault::NoMemory => Err(ProgramFault::NoMemory),
        OpenFault::Damaged(side, offset) => {
            open_without(alloc, device, sums, side, offset, folder, err)
        }
    }
}

/// Opens a device with sums if `sums` says so, or if one of its files has begun with them, and else as it is. A damaged
/// file that is not needed is hidden, and a warning says so: it is older than the other one, which is not damaged. If a
/// sum differs in a file that is needed, it writes which, and returns `Damaged`. If a call of the device fails, it
/// writes why, and returns `Device`; without memory for the bytes of a file, `NoMemory`.
pub fn with_sums<D: LogDisk + FailureCause + Drop, E: Write>(
    alloc: Global,
    device: D,
    sums: bool,
    folder: &str,
    err: &mut E,
) -> Result<OpenedFiles<D>, ProgramFault>
    // The files are as they were. With sums it shows the decoded disks, and begins an empty file with sums. It hides no
    // file but a damaged one that is not needed.
    ensures opens { D.is_honest
        → IfOk result (λ o. OpensFiles (λ d s. shown D.disk d s) sums (D.disk device) o.device o.hidden) }
    // Damage is told only if a file is damaged, and one is needed.
    ensures damaged { D.is_honest → IsErrOf result ProgramFault.Damaged
        → ((s : SideValue) → IsSoundOn (D.disk device) s) → ⊥ }
    ensures needed { D.is_honest → IsErrOf result ProgramFault.Damaged
        → (s : SideValue) → IsReplaced (D.disk device) s → ⊥ }
    ensures fault { IfErr result IsUnreadable }
    ensures quiet { IfOk result (λ o. o.hidden ≡ None → err.new ≡ err.old) }
{
    match OptionalSums::open(alloc, HidingDisk::new(device), sums) {
        Ok(device) => Ok(OpenedFiles {
            device,
            hidden: None,
        }),
        Err(refused) => open_refused(alloc, refused, sums, folder, err),
    }
}

/// Opens a device to write, as `with_sums` does. Before that it cuts to nothing an outdated file, as `cut_outdated`
/// explains. It fails as `with_sums` does.
pub fn open_to_write<D: LogDisk + FailureCause + Drop, E: Write>(
    alloc: Global,
    device: D,
    sums: bool,
    folder: &str,
    err: &mut E,
) -> Result<OpenedFiles<D>, ProgramFault>
    // What is opened is what the cut has left.
    ensures opens { D.is_honest
        → IfOk result (λ o. OpensCut (λ d s. shown D.disk d s) sums (D.disk device) o.device o.hidden) }
    // Damage is told only if a file is damaged, and one is needed.
    ensures damaged { D.is_honest → IsErrOf result ProgramFault.Damaged
        → ((s : SideValue) → IsSoundOn (D.disk device) s) → ⊥ }
    ensures needed { D.is_honest → IsErrOf result ProgramFault.Damaged
        → (s : SideValue) → IsReplaced (D.disk device) s → ⊥ }
    ensures fault { IfErr result IsUnreadable }
    ensures quiet { IfOk result (λ o. o.hidden ≡ None → err.new ≡ err.old) }
{
    let mut device = device;
    match cut_outdated(alloc, &mut device) {
        Ok(()) => with_sums(alloc, device, sums, folder, err),
        Err(fault) => Err(write_why(fault, &device, folder, err)),
    }
}
