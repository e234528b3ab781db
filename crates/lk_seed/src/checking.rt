//! Checks what a new store holds.

ghost use Rattle.std.specs.Prelude.{◌≡◌, true, OnOk};
ghost use Rattle.lk_disk.specs.declared.device.Side.{Side};
ghost use Rattle.lk_seed.specs.Fences.{HasFence, HasFences};
ghost use Rattle.lk_seed.specs.Seedings.{HasWanted};

use crate::wanted::Wanted;
use lk_disk::LogDisk;
use lk_inspect::inspect::inspect_device;
use lk_locks::{LockEntry, Name};
use lk_program_fault::ProgramFault;
use std::alloc::Global;

// Whether a name is free here at a last fence that is not below the wanted one.
#[tactic(auto, using(crate::proofs::FenceLaws::has_at))]
fn has_fence(names: &[(Name, LockEntry)], one: &Wanted) -> bool
    ensures { result ≡ true → HasFence names.now one.now }
{
    for (name, lock_entry) in names {
        if *name == one.name
            && lock_entry.fence.get() >= one.fence.get()
            && !lock_entry.holders.is_held()
        {
            return true;
        }
    }
    false
}

// Whether that is so of all.
fn has_fences(names: &[(Name, LockEntry)], wanted: &[Wanted]) -> bool
    ensures { result ≡ true → HasFences wanted.now names.now }
{
    for one in wanted {
        if !has_fence(names, one) {
            return false;
        }
    }
    true
}

/// Inspects the store of a device. It fails with `Failed` if there is none, or if a name has not the last fence that is
/// wanted.
#[tactic(auto, using(crate::proofs::StoreLaws::has_wanted))]
pub fn check_fences<D: LogDisk>(
    alloc: Global,
    device: &mut D,
    wanted: &[Wanted],
) -> Result<(), ProgramFault>
    ensures unchanged { D.is_honest → (s : Side) → D.disk device.new s ≡ D.disk device.old s }
    ensures has { D.is_honest → OnOk result (HasWanted wanted.now (D.disk device.new)) }
{
    match inspect_device(alloc, device)? {
        Some(found) if has_fences(&found.names, wanted) => Ok(()),
        _ => Err(ProgramFault::Failed),
    }
}
