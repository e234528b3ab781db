// The result of a node's call, and how a fault or an armed stop ends the node.
ghost use Rattle.std.specs.Prelude.{◌≡◌, true, false, IfOk, OnErr};
ghost use Rattle.lk_memory_disk.specs.Memory.{disk_of};
ghost use Rattle.lk_agreement_laws.specs.Nodes.{PaxosState};
ghost use Rattle.lk_node.specs.Histories.{History};
ghost use Rattle.lk_node.specs.Leavings.{DisksFit};
ghost use Rattle.lk_node_interface.specs.Faults.{fault_number};
ghost use Rattle.lk_replica.specs.Behaviours.{disks_by};
ghost use Rattle.lk_sim_nodes.specs.Ends.{IsOtherFault, IsNoStoreMismatch, IsEndByCalls, IsOutOfMemory, end_by, end_at};
ghost use Rattle.lk_sim_nodes.specs.Outcomes.{HasEndedByFault, IsThis, StopsIfArmed};
ghost use Rattle.lk_sim_nodes.specs.Rooms.{AreShort};
ghost use Rattle.lk_sim_nodes.specs.SimNodes.{SimNodeFits, stopped_on};
ghost use Rattle.lk_sim_nodes.specs.Sends.{SentUpTo};
ghost use Rattle.lk_sim_nodes.specs.declared.sim_node.RunState.TheVariants.{Down};

use crate::end::End;
use crate::sim_node::{RunState, SimNode, stop};
use lk_disk::{Trap, Trapped};
use lk_memory_disk::MemoryDisk;
use lk_node_interface::{Note, ReplicaFault};
use lk_replica::{Datagram, MemoryReplica};
use lk_types::{NoMemory, NodeNo};
use std::alloc::Global;

/// The result of a node's call: what it noted and sent, and how it ended the node, if it did.
#[derive(Drop)]
pub struct Outcome {
    pub notes: Vec<Note>,
    pub sent: Vec<Datagram>,
    pub ended: Option<End>,
    // if the node has reached an armed stop, its number of bytes; the caller carries it out with `carry_out_stop`
    pub stop: Option<usize>,
}

/// Stops the node if `at` is the number of bytes of an armed stop; each disk keeps up to so many unsynced bytes.
pub fn carry_out_stop<R: MemoryReplica>(alloc: Global, sim_node: &mut SimNode<R>, at: Option<usize>)
    ensures number { sim_node.new.number ≡ sim_node.old.number }
    ensures fits { (h : History) (w : PaxosState) → SimNodeFits R.Shows (disks_by R.behaves) R.meaning h w sim_node.old
        → SimNodeFits R.Shows (disks_by R.behaves) R.meaning h w sim_node.new }
    ensures rests { StopsIfArmed R.behaves at sim_node.old sim_node.new }
{
    if let Some(bytes) = at {
        stop(alloc, sim_node, bytes, bytes);
    }
}

// Whether the node ran out of memory. A failed send counts: on a post in memory a send fails for no other reason.
fn is_wanting(fault: &ReplicaFault, device: &MemoryDisk) -> bool
    ensures no_want { result ≡ false → IsOtherFault (fault_number fault.now) device.now }
    ensures want { result ≡ true → IsOutOfMemory (fault_number fault.now) device.now }
{
    device.starved()
        || matches!(
            fault,
            ReplicaFault::NoMemory | ReplicaFault::Halted | ReplicaFault::Send(_)
        )
}

/// Takes the node down after a fault, with the disks as they are, or stops it and returns `NoMemory` if it ran out of
/// memory. Either way the trap is gone, and the device forgets that it was starved. If the fault is that of an armed
/// stop, the result says so, and the caller carries it out.
pub fn stop_node<R: MemoryReplica>(
    alloc: Global,
    sim_node: &mut SimNode<R>,
    mut device: MemoryDisk,
    fault: ReplicaFault,
) -> Result<Outcome, NoMemory>
    ensures number { sim_node.new.number ≡ sim_node.old.number }
    ensures fits { (h : History) (w : PaxosState) → DisksFit R.meaning h sim_node.old.number (disk_of device)
        → AreShort (disk_of device) → SimNodeFits R.Shows (disks_by R.behaves) R.meaning h w sim_node.new }
    ensures fallen { IfOk result
        (λ o. HasEndedByFault (IsThis (fault_number fault) device) sim_node.new o.notes.items o.sent.items
        o.ended o.stop) }
    ensures told { IsNoStoreMismatch (fault_number fault) → IfOk result (λ o. IsEndByCalls o.ended) }
    ensures halted { OnErr result (sim_node.new.run_state ≡ Down (stopped_on 0 0 device)) }
    ensures want { OnErr result (IsOutOfMemory (fault_number fault) device) }
{
    if is_wanting(&fault, &device) {
        device.stop(0, 0);
        device.trap(Trap::Off);
        sim_node.run_state = RunState::Down(device);
        return Err(NoMemory);
    }
    let stop = device.stopping();
    device.trap(Trap::Off);
    sim_node.run_state = RunState::Down(device);
    Ok(Outcome {
        notes: Vec::new(alloc),
        sent: Vec::new(alloc),
        ended: Some(ended_by(stop, sim_node.number, fault.number())),
        stop,
    })
}

// Returns how a node ended: by the armed stop that it has reached, or else with this fault.
fn ended_by(stop: Option<usize>, node: NodeNo, number: u8) -> End
    ensures { result ≡ end_by stop node number }
{
    match stop {
        Some(_) => End::Stopped(node),
        None => End::Fault(node, number),
    }
}

/// Returns how a node ended at a send: by the armed stop that it has reached there, if it has.
pub fn ended_at(stop: Option<usize>, node: NodeNo) -> Option<End>
    ensures { result ≡ end_at stop node }
{
    match stop {
        Some(_) => Some(End::Stopped(node)),
        None => None,
    }
}

/// Counts the sends of a call against an armed trap. If the node stops at one of them, drops that datagram and the
/// later ones from `sent`, and returns the number of bytes of the stop.
pub fn count_sends<R: MemoryReplica>(replica: &mut R, sent: &mut Vec<Datagram>) -> Option<usize>
    ensures sends { SentUpTo R.behaves result replica.old replica.new sent.old.items sent.new.items }
{
    let Trap::Arm(count, bytes) = replica.device().pending() else {
        return None;
    };
    let sends = sent.len() as u64;
    if count == 0 || count > sends {
        replica.trap(Trap::Arm(count.saturating_sub(sends), bytes));
        return None;
    }
    sent.truncate(count as usize - 1);
    Some(bytes)
}
