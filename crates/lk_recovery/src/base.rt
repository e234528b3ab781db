// Rebasing: writing everything that a node holds as the Base of the other file, and when that is due.
ghost use Rattle.std.specs.Prelude.{◌≡◌, ◌+◌, ◌≤◌, ◌<◌, length, List, false, ◌↔◌, IsTrue, OnOk, IfOk, IfErr, IsErrOf};
ghost use Rattle.lk_types.specs.Limits.{max_count};
ghost use Rattle.lk_disk.specs.Disk.{contents};
ghost use Rattle.lk_store_format.specs.declared.stored.Stored.{Stored};
ghost use Rattle.lk_log.specs.Stores.{HoldsEntries, KeepsItsFile};
ghost use Rattle.lk_node.specs.Reaching.{HoldsNear};
ghost use Rattle.lk_recovery.specs.Compacting.{IsDue, IsSameStore};
ghost use Rattle.lk_recovery.specs.Rebased.{MatchesBase, HasSwitchedFiles, IsNotRebased, KeepsOrBegins, StaysSafe};
ghost use Rattle.lk_node_interface.specs.Faults.{fault_number, CountsFailures, SucceedsOr, WantsNoMemory};

use lk_disk::LogDisk;
use lk_log::Store;
use lk_node::Node;
use lk_node_interface::ReplicaFault;
use lk_state::Machine;
use lk_types::limits::MAX_COUNT;

/// Writes what the node holds as the Base of the other file, and switches to that file: a snapshot of everything
/// executed replaces the commands and the votes up to there. Sends nothing. At generation 2^48 it writes nothing and
/// fails with `Failed` (11), even if it is out of memory.
pub fn write_base<M: Machine, D: LogDisk + Drop>(
    node: &mut Node<M>,
    store: &mut Store<D>,
) -> Result<(), ReplicaFault>
    // At Ok it has switched: the Base alone is in the file, the node matches it, and goes on.
    ensures done { D.is_honest
        → OnOk result (HasSwitchedFiles M.meaning D.is_metered node.old store.old node.new store.new) }
    ensures becomes { OnOk result (MatchesBase node.old store.old node.new store.new) }
    // However it ends, every image that a stop may leave fits and covers what every image covered before, and neither
    // file has grown, except up to the size of a Base of its alpha.
    ensures disks { D.is_honest → StaysSafe M.meaning node.old store.old store.new }
    // However it ends, and whatever waited for a sync, every image has what it had before, or the Base alone.
    ensures every_image { D.is_honest → (ks ls : List Stored) → HoldsEntries store.old ks ls
        → KeepsOrBegins node.old store.old ks ls store.new }
    // What the node holds above what it has executed lies near.
    ensures near { HoldsNear node.old }
    ensures halted { node.new.halted ≡ node.old.halted }
    ensures format_stays { store.old.format ≡ 2 → store.new.format ≡ 2 }
    // An error leaves the node unchanged, and the same file live.
    ensures refused { IfErr result (IsNotRebased D.is_honest D.is_metered node.old store.old node.new store.new) }
    ensures last { max_count ≤ store.old.generation → (store.new ≡ store.old) × IsErrOf result ReplicaFault.Failed }
    ensures cause { CountsFailures store.old.failures store.new.failures result }
{
    // Packed before the check: its contract has the clause `near`, which this one ensures at every exit.
    let packed = node.standing();
    if store.generation() >= MAX_COUNT {
        return Err(ReplicaFault::Failed);
    }
    let standing = packed?;
    store.rebase(&standing)?;
    node.set_snapshot(standing.snapshot);
    Ok(())
}

/// Returns whether a rebase is due: the live file has 131,072 bytes, half of its maximum, or more, or so many
/// positions are executed above the snapshot: 256, or 16 times alpha if that is more.
pub fn is_rebase_due<M: Machine, D: LogDisk + Drop>(
    node: &Node<M>,
    store: &mut Store<D>,
) -> Result<bool, ReplicaFault>
    ensures value { D.is_honest → IfOk result (λ due. IsTrue due ↔ IsDue node.now store.old) }
    ensures same { D.is_honest → IsSameStore store.old store.new }
    ensures file { KeepsItsFile store.old store.new }
    ensures alive { OnOk result (store.new.failed ≡ false) }
    ensures memory { IfErr result (λ e. WantsNoMemory (fault_number e)) }
    ensures failed_before { store.old.failed ≡ false → IsErrOf result ReplicaFault.Failed → ⊥ }
    ensures cause { CountsFailures store.old.failures store.new.failures result }
    ensures metered { D.is_metered → SucceedsOr store.old.meter store.new.meter 0 result }
    ensures small { D.is_honest → IfOk result (λ due. due ≡ false → length (contents store.new.live_disk) < 131072) }
{
    let length = store.live_length()?;
    Ok(length >= 131_072 || node.is_snapshot_old())
}
