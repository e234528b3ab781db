// Adding entries to the live file of a device.
ghost use Rattle.std.specs.Prelude.{◌≡◌, ◌≤◌, ◌+◌, ◌*◌, ◌++◌, List, [], length, take, true, false, OnOk, OnErr};
ghost use Rattle.std.specs.Prelude.{IsErrOf};
ghost use Rattle.lk_disk.specs.Disk.{other, contents, appended, AppendsSome, HasCause};
ghost use Rattle.lk_store_format.specs.Formats.{format};
ghost use Rattle.lk_store_format.specs.Entries.{plain};
ghost use Rattle.lk_store_format.specs.declared.stored.Stored.{Stored};
ghost use Rattle.lk_log.specs.Causes.{IsCaused, ComesBy, IsMetered, calls_for, put_calls};
ghost use Rattle.lk_log.specs.Images.{Image, MayLeaveBoth, IsLive};
ghost use Rattle.lk_log.specs.StoreValue.{pick};
ghost use Rattle.lk_log.specs.Stores.{HoldsOn, KeepsAtLeastOn};

use crate::fault::StoreFault;
use lk_disk::{DeviceFault, LogDisk, Side};
use lk_store_format::{encode, entries_facts};
use lk_types::Entry;
use std::alloc::Global;

// Appends the bytes to a file, without a call of the device if there are none.
fn append_some<D: LogDisk>(device: &mut D, side: Side, bytes: &[u8]) -> Result<(), DeviceFault>
    ensures ok { D.is_honest → OnOk result (D.disk device.new side ≡ appended (D.disk device.old side) bytes.now) }
    ensures err { D.is_honest → OnErr result (AppendsSome bytes.now (D.disk device.old side) (D.disk device.new side)) }
    ensures beside { D.is_honest → D.disk device.new (other side) ≡ D.disk device.old (other side) }
    ensures cause { HasCause (D.failures device.old) (D.failures device.new) result }
    ensures metered { D.is_metered → ComesBy (D.meter device.old) (D.meter device.new) (calls_for bytes.now) result }
{
    if bytes.is_empty() {
        return Ok(());
    }
    device.append(side, bytes)
}

/// Adds entries after those of the live file, which has format 2, and syncs them if asked to.
pub fn add<D: LogDisk>(
    alloc: Global,
    device: &mut D,
    live: Side,
    entries: &[Entry],
    sync: bool,
) -> Result<(), StoreFault>
    ensures added { D.is_honest → sync ≡ false → (ks ls : List Stored) → format ks ≡ 2
        → HoldsOn (D.disk device.old live) (D.disk device.old (other live)) ks ls
        → OnOk result (HoldsOn (D.disk device.new live) (D.disk device.new (other live)) ks (ls ++ plain entries.now)) }
    ensures synced { D.is_honest → sync ≡ true → (ks ls : List Stored) → format ks ≡ 2
        → HoldsOn (D.disk device.old live) (D.disk device.old (other live)) ks ls
        → OnOk result (HoldsOn (D.disk device.new live) (D.disk device.new (other live))
        (ks ++ (ls ++ plain entries.now)) []) }
    ensures every_image { D.is_honest → (ks ls : List Stored) → format ks ≡ 2
        → HoldsOn (D.disk device.old live) (D.disk device.old (other live)) ks ls
        → KeepsAtLeastOn live (D.disk device.new live) (D.disk device.new (other live)) ks (ls ++ plain entries.now) }
    ensures beside { D.is_honest → D.disk device.new (other live) ≡ D.disk device.old (other live) }
    ensures no_memory { D.is_honest → IsErrOf result StoreFault.NoMemory
        → D.disk device.new live ≡ D.disk device.old live }
    // Whatever its result, it adds no more bytes than this many entries have, each at most 102.
    ensures grows { D.is_honest
        → length (contents (D.disk device.new live))
        ≤ length (contents (D.disk device.old live)) + 102 * length entries.now }
    ensures cause { IsCaused (D.failures device.old) (D.failures device.new) result }
    ensures metered { D.is_metered
        → IsMetered (D.meter device.old) (D.meter device.new) (put_calls entries.now sync) result }
{
    entries_facts(entries);
    let bytes = encode(alloc, entries)?;
    append_some(device, live, &bytes)?;
    if !sync {
        return Ok(());
    }
    device.sync(live)?;
    Ok(())
}
