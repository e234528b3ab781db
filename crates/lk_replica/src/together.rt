// Parts of a group: keeping the result of each step, and the sync at the end.
ghost use Rattle.std.specs.Prelude.{◌≡◌, ◌∷◌, ◌++◌, ◌||◌, [], false, IfErr, OnOk, ⊤};
ghost use Rattle.lk_log.specs.StoreValue.{disks};
ghost use Rattle.lk_node_interface.specs.Faults.{CountsFailures, fault_number};
ghost use Rattle.lk_replica.specs.Groups.{IsRefusedInGroup, IsGroupSynced, LeavesInGroup};
ghost use Rattle.lk_replica.specs.Taking.{EndsGroup};
ghost use Rattle.lk_replica.specs.Together.{IsNotKept};

use crate::grouping::sync_or_flush;
use crate::replica::Replica;
use crate::taken::Step;
use lk_disk::LogDisk;
use lk_node_interface::ReplicaFault;
use lk_state::Machine;

impl<M: Machine, D: LogDisk + Drop> Replica<M, D> {
    // Appends the result of a step. Out of memory the replica ends.
    pub(crate) fn keep(&mut self, steps: &mut Vec<Step>, step: Step) -> Result<(), ReplicaFault>
        ensures kept { OnOk result (steps.new.items ≡ steps.old.items ++ step ∷ []) }
        ensures same { OnOk result (self.new ≡ self.old) }
        ensures refused { IfErr result (λ e. IsNotKept self.old self.new (fault_number e)) }
    {
        match steps.push(step) {
            Ok(()) => Ok(()),
            Err(_) => {
                self.failed = true;
                Err(ReplicaFault::NoMemory)
            }
        }
    }

    // Syncs the live file once, if something waits for that, or else flushes it, if something waits for that. If that
    // fails, the replica ends.
    pub(crate) fn sync_group(
        &mut self,
        needs_sync: bool,
        needs_flush: bool,
    ) -> Result<(), ReplicaFault>
        ensures exact { D.is_honest → OnOk result (IsGroupSynced D.is_metered self.old needs_sync self.new) }
        // After any exit, if nothing of the group is sent, the disks fit, and neither file has grown.
        ensures disks { D.is_honest
            → LeavesInGroup M.meaning (λ h. ⊤) 0 self.old.node self.old.store needs_sync (disks self.new.store) }
        ensures refused { IfErr result
            (λ e. IsRefusedInGroup D.is_honest D.is_metered self.old self.new (fault_number e)) }
        ensures alive { OnOk result (self.new.failed ≡ false) }
        ensures ends { self.old.failed ≡ false → self.old.store.failed ≡ false
            → EndsGroup (needs_sync || needs_flush) self.old self.new result }
        ensures cause { CountsFailures self.old.store.failures self.new.store.failures result }
    {
        if self.failed {
            return Err(ReplicaFault::Failed);
        }
        let waits = needs_sync || needs_flush;
        if !waits {
            return Ok(());
        }
        self.failed = true;
        sync_or_flush(&mut self.store, needs_sync)?;
        self.failed = false;
        Ok(())
    }
}
