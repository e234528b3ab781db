// Switching from the live file to the other one.
ghost use Rattle.std.specs.Prelude.{◌≡◌, ◌<◌, ◌≤◌, ℕ, List, [], ◌∷◌, length, OnOk};
ghost use Rattle.lk_disk.specs.Disk.{contents, other, HasCause};
ghost use Rattle.lk_store_format.specs.Entries.{IsStored, spelling};
ghost use Rattle.lk_store_format.specs.Bases.{generation};
ghost use Rattle.lk_store_format.specs.Values.{BaseValue};
ghost use Rattle.lk_store_format.specs.declared.stored.Stored.{Stored};
ghost use Rattle.lk_store_format.specs.declared.stored.Stored.TheVariants.{Base as base_entry};
ghost use Rattle.lk_log.specs.Causes.{ComesBy, rebase_calls};
ghost use Rattle.lk_log.specs.Rooms.{StaysWithin};
ghost use Rattle.lk_log.specs.Stores.{HoldsOn, KeepsOrIs};

use crate::reopening::write_over;
use lk_disk::{DeviceFault, LogDisk, Side};

/// Returns the other side.
pub fn other(side: Side) -> Side
    ensures { result ≡ other side }
{
    match side {
        Side::A => Side::B,
        Side::B => Side::A,
    }
}

/// Replaces the other file with these bytes of a Base, syncs it, and only then truncates the live file to nothing.
/// After an error either file may be live.
pub fn switch_files<D: LogDisk>(device: &mut D, live: Side, bytes: &[u8]) -> Result<(), DeviceFault>
    ensures holds { D.is_honest → (b : BaseValue) → b.format ≡ 2 → IsStored (base_entry b)
        → bytes.now ≡ spelling (base_entry b)
        → OnOk result (HoldsOn (D.disk device.new (other live)) (D.disk device.new live) (base_entry b ∷ []) []) }
    ensures left { D.is_honest → OnOk result (D.disk device.new live ≡ record { synced = []; unsynced = [] }) }
    // At every exit whatever a stop leaves has what was there, or the Base alone.
    ensures every_image { D.is_honest → (b : BaseValue) (ks ls : List Stored)
        → HoldsOn (D.disk device.old live) (D.disk device.old (other live)) ks ls
        → generation ks < b.generation → b.format ≡ 2 → IsStored (base_entry b) → bytes.now ≡ spelling (base_entry b)
        → KeepsOrIs (D.disk device.new) ks ls b }
    ensures room { D.is_honest → (most : ℕ) → length bytes.now ≤ most
        → StaysWithin most (D.disk device.old) (D.disk device.new) }
    ensures short { D.is_honest → (most : ℕ) → length bytes.now ≤ most
        → OnOk result (length (contents (D.disk device.new (other live))) ≤ most) }
    ensures cause { HasCause (D.failures device.old) (D.failures device.new) result }
    ensures metered { D.is_metered → D.is_honest
        → ComesBy (D.meter device.old) (D.meter device.new) rebase_calls result }
{
    let side = other(live);
    write_over(device, side, bytes)?;
    device.cut(live, 0)?;
    Ok(())
}
