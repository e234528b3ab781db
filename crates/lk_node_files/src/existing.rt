//! Checks that a device has a store, for a node that begins none.

ghost use Rattle.std.specs.Prelude.{◌≡◌, ℕ, OnOk, IsErrOf};
ghost use Rattle.lk_disk.specs.declared.device.Side.{Side};
ghost use Rattle.lk_log.specs.Images.{seen};
ghost use Rattle.lk_node_files.specs.Existing.{HasStore};

use crate::causes::{FailureCause, write_cause};
use crate::refusals::write_refusal;
use lk_disk::LogDisk;
use lk_log::look;
use lk_program_fault::ProgramFault;
use std::alloc::Global;
use std::io::Write;

// Writes that the files of a folder have no store, and returns `CannotOpen`.
fn write_no_store<E: Write>(folder: &str, err: &mut E) -> ProgramFault {
    write_cause(
        folder,
        "no store in its files, and --existing begins none",
        err,
    )
}

/// Checks that the device of a folder has a store, and changes nothing. If it has none it writes so, and returns
/// `CannotOpen`. It fails with faults 7, 8 and 9 as `write_refusal` explains them.
pub fn check_store<D: LogDisk + FailureCause, E: Write>(
    alloc: Global,
    device: &mut D,
    folder: &str,
    err: &mut E,
) -> Result<(), ProgramFault>
    ensures unchanged { D.is_honest → (s : Side) → D.disk device.new s ≡ D.disk device.old s }
    ensures some { D.is_honest → OnOk result (HasStore (seen (D.disk device.old))) }
    ensures quiet { OnOk result (err.new ≡ err.old) }
{
    match look(alloc, device) {
        Ok(Some(_)) => Ok(()),
        Ok(None) => Err(write_no_store(folder, err)),
        Err(fault) => Err(write_refusal(alloc, ProgramFault::from(fault), device, folder, err)),
    }
}
