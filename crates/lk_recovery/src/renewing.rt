// Converting a store to format 2.
ghost use Rattle.std.specs.Prelude.{◌≡◌, ◌≤◌, List, OnOk, OnErr, IfErr, IsErrOf};
ghost use Rattle.lk_types.specs.Limits.{max_count};
ghost use Rattle.lk_store_format.specs.declared.stored.Stored.{Stored};
ghost use Rattle.lk_log.specs.StoreValue.{disks};
ghost use Rattle.lk_log.specs.Stores.{HoldsEntries, KeepsOrIs, next_base};
ghost use Rattle.lk_node.specs.NewBases.{standing_of};
ghost use Rattle.lk_recovery.specs.Compacting.{renew_calls};
ghost use Rattle.lk_node_interface.specs.Faults.{fault_number, CountsFailures, SucceedsOr};
ghost use Rattle.lk_recovery.specs.Rebased.{StaysSafe};
ghost use Rattle.lk_recovery.specs.Renewals.{IsRenewed, HasFormatTwo, IsNotRenewed};

use crate::base::write_base;
use lk_disk::LogDisk;
use lk_log::Store;
use lk_node::Node;
use lk_node_interface::ReplicaFault;
use lk_state::Machine;

/// Writes the node's Base if the store has format 1, and so converts it to format 2.
pub fn renew<M: Machine, D: LogDisk + Drop>(
    node: &mut Node<M>,
    store: &mut Store<D>,
) -> Result<(), ReplicaFault>
    // A store of format 1 was rebased, one of format 2 is unchanged, and the node goes on.
    ensures renewed { D.is_honest → OnOk result (IsRenewed M.meaning node.old store.old node.new store.new) }
    ensures ready { OnOk result (HasFormatTwo node.old store.old node.new store.new) }
    // However it ends, every image that a stop may leave fits and covers what every image covered before, and neither
    // file has grown, except up to the size of a Base of its alpha.
    ensures safe { D.is_honest → StaysSafe M.meaning node.old store.old store.new }
    ensures halted { node.new.halted ≡ node.old.halted }
    // After an error every image has what it had before, or the Base alone.
    ensures left { D.is_honest → (ks ls : List Stored) → HoldsEntries store.old ks ls
        → OnErr result (KeepsOrIs (disks store.new) ks ls (next_base store.old (standing_of node.old))) }
    ensures refused { IfErr result (λ e. IsNotRenewed store.old (fault_number e)) }
    // For a store of format 1 at the last generation it fails with `Failed`, even if it is out of memory.
    ensures last { store.old.format ≡ 1 → max_count ≤ store.old.generation
        → (store.new ≡ store.old) × IsErrOf result ReplicaFault.Failed }
    ensures cause { CountsFailures store.old.failures store.new.failures result }
    ensures metered { D.is_metered → D.is_honest
        → SucceedsOr store.old.meter store.new.meter (renew_calls store.old.format) result }
{
    if store.format() == 2 {
        return Ok(());
    }
    write_base(node, store)?;
    Ok(())
}
