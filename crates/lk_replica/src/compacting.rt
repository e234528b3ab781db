// Compacting: a rebase on demand, whether it is due or not.
ghost use Rattle.std.specs.Prelude.{◌≡◌, ◌+◌, ◌≤◌, ◌<◌, false, true, OnOk, IfErr, IsErrOf, ⊤};
ghost use Rattle.lk_types.specs.Limits.{max_base_of, max_count};
ghost use Rattle.lk_log.specs.StoreValue.{disks};
ghost use Rattle.lk_learner.specs.Learners.{alpha};
ghost use Rattle.lk_replica.specs.Compacted.{IsNotCompacted};
ghost use Rattle.lk_recovery.specs.Rebased.{MatchesBase, HasSwitchedFiles, LeavesDisks};
ghost use Rattle.lk_node_interface.specs.Faults.{fault_number, CountsFailures};

use crate::replica::Replica;
use lk_disk::LogDisk;
use lk_node_interface::ReplicaFault;
use lk_recovery::write_base;
use lk_state::Machine;

impl<M: Machine, D: LogDisk + Drop> Replica<M, D> {
    /// Writes a snapshot of everything executed, which replaces the commands and the votes up to there.
    ///
    /// It fails with `Device` (7), `NoMemory` (8), or, at generation 2^48, `Failed` (11); after that every call fails
    /// with `Failed` (11).
    pub fn compact(&mut self) -> Result<(), ReplicaFault>
        // At Ok it has switched to its Base in four calls of the device: the node goes on, and every image stands for
        // a snapshot of everything executed.
        ensures done { D.is_honest
            → OnOk result (HasSwitchedFiles M.meaning D.is_metered self.old.node self.old.store
            self.new.node self.new.store) }
        ensures becomes { OnOk result (MatchesBase self.old.node self.old.store self.new.node self.new.store) }
        ensures alive { OnOk result (self.new.failed ≡ false) }
        // What is on the disks, however it ends: neither file has grown, except up to the size of a Base of its alpha.
        ensures disks { D.is_honest
            → LeavesDisks M.meaning (λ h. ⊤) (max_base_of (alpha self.old.node.learner)) self.old.node self.old.store
            (disks self.new.store) }
        ensures halted { self.new.node.halted ≡ self.old.node.halted }
        // It fails only with 7, 8 or 11, each for its cause, and each ends it; the node is unchanged, and the same
        // file is live.
        ensures refused { IfErr result
            (λ e. IsNotCompacted D.is_honest D.is_metered self.old self.new (fault_number e)) }
        ensures failed { self.old.failed ≡ true → IsErrOf result ReplicaFault.Failed }
        // At generation 2^48 it fails with `Failed`, even if it is out of memory, and leaves its store unchanged.
        ensures last { max_count ≤ self.old.store.generation
            → (self.new.store ≡ self.old.store) × IsErrOf result ReplicaFault.Failed }
        // It fails with `Device` exactly if a call of the device has failed.
        ensures cause { CountsFailures self.old.store.failures self.new.store.failures result }
    {
        if self.failed {
            return Err(ReplicaFault::Failed);
        }
        self.failed = true;
        write_base(&mut self.node, &mut self.store)?;
        self.failed = false;
        Ok(())
    }
}
