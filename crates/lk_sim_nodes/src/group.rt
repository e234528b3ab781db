// Gives several inputs to a node as one group: it syncs once for all of them.
ghost use Rattle.std.specs.Prelude.{◌≡◌, ◌⊎◌, [], IfOk, OnErr};
ghost use Rattle.std.specs.List.{AllByRecursion};
ghost use Rattle.lk_memory_disk.specs.Memory.{disk_of};
ghost use Rattle.lk_agreement_laws.specs.Nodes.{PaxosState};
ghost use Rattle.lk_node.specs.Calls.{InputFits};
ghost use Rattle.lk_node.specs.Histories.{History, Genesis as GenesisValue, IsLawful};
ghost use Rattle.lk_node.specs.Holdings.{Holding};
ghost use Rattle.lk_node.specs.Leavings.{DisksFit};
ghost use Rattle.lk_replica.specs.Behaviours.{disks_by};
ghost use Rattle.lk_replica.specs.Together.{EachLeavesFit, parts_of};
ghost use Rattle.lk_sim_nodes.specs.Ends.{BreaksTogether, IsEndByCalls};
ghost use Rattle.lk_sim_nodes.specs.Outcomes.{HasFallenTogether, HasTakenTogether, HasStoppedOutOfMemory};
ghost use Rattle.lk_sim_nodes.specs.Rooms.{AreShort};
ghost use Rattle.lk_sim_nodes.specs.SimNodes.{SimNodeFits, device_in};
ghost use Rattle.lk_sim_nodes.specs.declared.sim_node.RunState.TheVariants.{Up};

use crate::end::End;
use crate::outcome::{Outcome, count_sends, ended_at, stop_node};
use crate::sim_node::{RunState, SimNode, remove_device};
use lk_node_interface::Input;
use lk_replica::{Datagram, MemoryReplica, Step, TakenAll};
use lk_types::NoMemory;
use std::alloc::Global;

/// The result of a node's group: its steps, what they sent in order, and how it ended the node, if it did.
#[derive(Drop)]
pub struct GroupOutcome {
    pub steps: Vec<Step>,
    pub sent: Vec<Datagram>,
    pub ended: Option<End>,
    // if the node has reached an armed stop, its number of bytes; the caller carries it out with `carry_out_stop`
    pub stop: Option<usize>,
}

// Returns the result of a group in which a fault ended the node: it has no steps.
fn fallen(alloc: Global, outcome: Outcome) -> GroupOutcome
    ensures steps { result.steps.items ≡ [] }
    ensures sent { result.sent ≡ outcome.sent }
    ensures ended { result.ended ≡ outcome.ended }
    ensures stop { result.stop ≡ outcome.stop }
{
    GroupOutcome {
        steps: Vec::new(alloc),
        sent: outcome.sent,
        ended: outcome.ended,
        stop: outcome.stop,
    }
}

/// Gives the inputs to the node, which is up, as one group. If its replica fails, the node goes down, and nothing of
/// the group was sent.
pub fn step_all<R: MemoryReplica>(
    alloc: Global,
    sim_node: &mut SimNode<R>,
    inputs: Vec<Input<'_>>,
) -> Result<GroupOutcome, NoMemory>
    requires up { (r : R) × (sim_node.old.run_state ≡ Up r) }
    ensures number { sim_node.new.number ≡ sim_node.old.number }
    ensures goes { (r : R) → sim_node.old.run_state ≡ Up r → (genesis : GenesisValue) (held : Holding)
        → R.Shows r genesis sim_node.old.number held
        → IfOk result (λ o. (q : R) → sim_node.new.run_state ≡ Up q
        → EachLeavesFit R.Shows (disks_by R.behaves) R.meaning sim_node.old.number r inputs.entry.items q
        (parts_of o.steps.items o.sent.items)) }
    // However it ends, whatever a stop may leave of it fits if nothing of the group is sent.
    ensures leaves { (h : History) (w : PaxosState) → IsLawful R.meaning h
        → SimNodeFits R.Shows (disks_by R.behaves) R.meaning h w sim_node.old → AllByRecursion (InputFits h)
        inputs.entry.items
        → DisksFit R.meaning h sim_node.new.number (disk_of (device_in R.behaves sim_node.new.run_state))
        × AreShort (disk_of (device_in R.behaves sim_node.new.run_state)) }
    ensures exact { (r : R) → sim_node.old.run_state ≡ Up r
        → IfOk result (λ o. HasTakenTogether R.behaves r
        inputs.entry.items sim_node.new o.steps.items o.sent.items o.ended o.stop
        ⊎ HasFallenTogether (BreaksTogether R.behaves r inputs.entry.items) sim_node.new o.steps.items
        o.sent.items o.ended o.stop) }
    ensures told { IfOk result (λ o. IsEndByCalls o.ended) }
    ensures wants { (r : R) → sim_node.old.run_state ≡ Up r
        → OnErr result (HasStoppedOutOfMemory (BreaksTogether R.behaves r inputs.entry.items) sim_node.new) }
{
    let node = sim_node.number;
    let RunState::Up(replica) = &mut sim_node.run_state else {
        unreachable!()
    };
    match replica.take_all(inputs) {
        Ok(taken) => {
            let TakenAll { steps, mut sent } = taken;
            let stop = count_sends(replica, &mut sent);
            Ok(GroupOutcome {
                steps,
                sent,
                ended: ended_at(stop, node),
                stop,
            })
        }
        Err(fault) => {
            let device = remove_device(alloc, sim_node);
            let outcome = stop_node(alloc, sim_node, device, fault)?;
            Ok(fallen(alloc, outcome))
        }
    }
}
