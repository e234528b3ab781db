// The calls of a node: it takes an input, compacts, or restarts.
ghost use Rattle.std.specs.Prelude.{◌≡◌, ◌⊎◌, IfOk, OnErr};
ghost use Rattle.lk_memory_disk.specs.Memory.{Memory};
ghost use Rattle.lk_agreement_laws.specs.Nodes.{PaxosState};
ghost use Rattle.lk_node.specs.Calls.{InputFits};
ghost use Rattle.lk_node.specs.Histories.{History, IsLawful};
ghost use Rattle.lk_node.specs.Leavings.{header_of};
ghost use Rattle.lk_replica.specs.Behaviours.{disks_by};
ghost use Rattle.lk_sim_nodes.specs.Ends.{Breaks, FailsToCompact, IsEndByCalls, StaysDown};
ghost use Rattle.lk_sim_nodes.specs.Outcomes.{HasEndedByFault, HasCompacted, HasRevived, HasTaken};
ghost use Rattle.lk_sim_nodes.specs.Outcomes.{HasStoppedOutOfMemory};
ghost use Rattle.lk_sim_nodes.specs.SimNodes.{SimNodeFits, SimNodeGoes};
ghost use Rattle.lk_sim_nodes.specs.declared.sim_node.RunState.TheVariants.{Up, Down};

use crate::outcome::{Outcome, count_sends, ended_at, stop_node};
use crate::sim_node::{RunState, SimNode, remove_device};
use lk_node_interface::Input;
use lk_replica::{MemoryReplica, Taken};
use lk_store_format::Header;
use lk_types::{Genesis, NoMemory};
use std::alloc::Global;

/// Gives an input to the node, which is up, and returns what it noted and sent. If its replica fails, the node goes
/// down, and the outcome says why; on `NoMemory` it has stopped, and kept none of its unsynced bytes.
pub fn step<R: MemoryReplica>(
    alloc: Global,
    sim_node: &mut SimNode<R>,
    input: Input,
) -> Result<Outcome, NoMemory>
    requires up { (r : R) × (sim_node.old.run_state ≡ Up r) }
    ensures number { sim_node.new.number ≡ sim_node.old.number }
    ensures goes { (h : History) (w : PaxosState) → IsLawful R.meaning h
        → SimNodeFits R.Shows (disks_by R.behaves) R.meaning h w sim_node.old → InputFits h input.entry
        → IfOk result (λ o. (q : R) → sim_node.new.run_state ≡ Up q
        → SimNodeGoes R.Shows (disks_by R.behaves) R.meaning h sim_node.new o.notes.items o.sent.items) }
    ensures falls { (h : History) (w : PaxosState) → IsLawful R.meaning h
        → SimNodeFits R.Shows (disks_by R.behaves) R.meaning h w sim_node.old → InputFits h input.entry
        → (d : Memory) → sim_node.new.run_state ≡ Down d → SimNodeFits R.Shows (disks_by R.behaves) R.meaning h w
        sim_node.new }
    ensures exact { (r : R) → sim_node.old.run_state ≡ Up r
        → IfOk result (λ o. HasTaken R.behaves r
        input.entry sim_node.new o.notes.items o.sent.items o.ended o.stop
        ⊎ HasEndedByFault (Breaks R.behaves r
        input.entry) sim_node.new o.notes.items o.sent.items o.ended o.stop) }
    ensures told { IfOk result (λ o. IsEndByCalls o.ended) }
    ensures wants { (r : R) → sim_node.old.run_state ≡ Up r
        → OnErr result (HasStoppedOutOfMemory (Breaks R.behaves r input.entry) sim_node.new) }
{
    let node = sim_node.number;
    let RunState::Up(replica) = &mut sim_node.run_state else {
        unreachable!()
    };
    match replica.take(input) {
        Ok(taken) => {
            let Taken { notes, mut sent } = taken;
            let stop = count_sends(replica, &mut sent);
            Ok(Outcome {
                notes,
                sent,
                ended: ended_at(stop, node),
                stop,
            })
        }
        Err(fault) => {
            let device = remove_device(alloc, sim_node);
            stop_node(alloc, sim_node, device, fault)
        }
    }
}

/// Makes the node, which is up, write a snapshot of everything executed. If that fails, it goes down as in `step`.
pub fn compact_node<R: MemoryReplica>(
    alloc: Global,
    sim_node: &mut SimNode<R>,
) -> Result<Outcome, NoMemory>
    requires up { (r : R) × (sim_node.old.run_state ≡ Up r) }
    ensures number { sim_node.new.number ≡ sim_node.old.number }
    ensures goes { (h : History) (w : PaxosState) → IsLawful R.meaning h
        → SimNodeFits R.Shows (disks_by R.behaves) R.meaning h w sim_node.old
        → IfOk result (λ o. (q : R) → sim_node.new.run_state ≡ Up q
        → SimNodeGoes R.Shows (disks_by R.behaves) R.meaning h sim_node.new o.notes.items o.sent.items) }
    ensures falls { (h : History) (w : PaxosState) → IsLawful R.meaning h
        → SimNodeFits R.Shows (disks_by R.behaves) R.meaning h w sim_node.old
        → (d : Memory) → sim_node.new.run_state ≡ Down d → SimNodeFits R.Shows (disks_by R.behaves) R.meaning h w
        sim_node.new }
    ensures exact { (r : R) → sim_node.old.run_state ≡ Up r
        → IfOk result (λ o. HasCompacted R.behaves r sim_node.new o.notes.items o.sent.items o.ended o.stop
        ⊎ HasEndedByFault (FailsToCompact R.behaves r) sim_node.new o.notes.items o.sent.items o.ended o.stop) }
    ensures told { IfOk result (λ o. IsEndByCalls o.ended) }
    ensures wants { (r : R) → sim_node.old.run_state ≡ Up r
        → OnErr result (HasStoppedOutOfMemory (FailsToCompact R.behaves r) sim_node.new) }
{
    let RunState::Up(replica) = &mut sim_node.run_state else {
        unreachable!()
    };
    match replica.compact() {
        Ok(()) => Ok(Outcome {
            notes: Vec::new(alloc),
            sent: Vec::new(alloc),
            ended: None,
            stop: None,
        }),
        Err(fault) => {
            let device = remove_device(alloc, sim_node);
            stop_node(alloc, sim_node, device, fault)
        }
    }
}

/// Restarts the node from its disks, and returns what it noted. If that fails, it stays down as in `step`.
pub fn revive<R: MemoryReplica>(
    alloc: Global,
    sim_node: &mut SimNode<R>,
    genesis: &Genesis,
) -> Result<Outcome, NoMemory>
    ensures number { sim_node.new.number ≡ sim_node.old.number }
    ensures goes { (h : History) (w : PaxosState) → h.genesis ≡ genesis.now → IsLawful R.meaning h
        → SimNodeFits R.Shows (disks_by R.behaves) R.meaning h w sim_node.old
        → IfOk result (λ o. (q : R) → sim_node.new.run_state ≡ Up q
        → SimNodeGoes R.Shows (disks_by R.behaves) R.meaning h sim_node.new o.notes.items o.sent.items) }
    ensures falls { (h : History) (w : PaxosState) → h.genesis ≡ genesis.now → IsLawful R.meaning h
        → SimNodeFits R.Shows (disks_by R.behaves) R.meaning h w sim_node.old
        → (d : Memory) → sim_node.new.run_state ≡ Down d → SimNodeFits R.Shows (disks_by R.behaves) R.meaning h w
        sim_node.new }
    ensures exact { (d : Memory) → sim_node.old.run_state ≡ Down d
        → IfOk result (λ o. HasRevived R.behaves d
        (header_of genesis.now sim_node.old.number) sim_node.new o.notes.items o.sent.items o.ended o.stop
        ⊎ HasEndedByFault (StaysDown R.behaves d (header_of genesis.now sim_node.old.number)) sim_node.new o.notes.items
        o.sent.items o.ended o.stop) }
    ensures told { (h : History) (w : PaxosState) → h.genesis ≡ genesis.now → IsLawful R.meaning h
        → SimNodeFits R.Shows (disks_by R.behaves) R.meaning h w sim_node.old
        → IfOk result (λ o. IsEndByCalls o.ended) }
    ensures wants { (d : Memory) → sim_node.old.run_state ≡ Down d
        → OnErr result (HasStoppedOutOfMemory (StaysDown R.behaves d
        (header_of genesis.now sim_node.old.number)) sim_node.new) }
{
    let device = remove_device(alloc, sim_node);
    match R::revive(alloc, device, &Header::new(sim_node.number, genesis.copy())) {
        Ok(revived) => {
            sim_node.run_state = RunState::Up(revived.replica);
            Ok(Outcome {
                notes: revived.notes,
                sent: Vec::new(alloc),
                ended: None,
                stop: None,
            })
        }
        Err(refused) => stop_node(alloc, sim_node, refused.device, refused.fault),
    }
}
