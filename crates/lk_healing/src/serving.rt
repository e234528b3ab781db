// A leader that is ready answers a request.
ghost use Rattle.std.specs.Prelude.{◌≡◌, ℕ, IfErr, OnOk, Contains};
ghost use Rattle.lk_messages.specs.declared.message.NodeMessage.TheVariants as kinds;
ghost use Rattle.lk_sim_nodes.specs.SimNodes.{IsUp};
ghost use Rattle.lk_progress.specs.Deciding.{acceptances};
ghost use Rattle.lk_world_progress.specs.Balloting.{HasSentTo};
ghost use Rattle.lk_world_progress.specs.Delivering.{HearsInTurn};
ghost use Rattle.lk_world_progress.specs.Exchanging.{HasAnswered, HasNoted};
ghost use Rattle.lk_healing.specs.Halts.{HaltsFor};
ghost use Rattle.lk_healing.specs.Serving.{IsReadyFor, TakesRequest};

use crate::asking::Asking;
use crate::carrying_out::ask;
use crate::halt::Halt;
use crate::handing::{hand, hand_each, message_of};
use lk_memory_disk::MemoryDisk;
use lk_progress::laws::{
    a_fresh_request_is_proposed, a_near_node_accepts, an_accepted_request_is_answered,
};
use lk_replica::Replica;
use lk_sim::World;
use lk_state::Machine;
use lk_types::{Command, NodeNo, Request, Vote};
use lk_wire::{Content, Message, NodeMessage};
use lk_world_leftovers::laws::a_ready_leader_answers;
use std::alloc::Global;

/// Delivers the replies of these nodes to the leader, which have accepted the vote.
pub fn hand_replies<M: Machine>(
    alloc: Global,
    world: &mut World<Replica<M, MemoryDisk>>,
    cluster: u64,
    leader: NodeNo,
    nodes: &[NodeNo],
    vote: &Vote,
) -> Result<(), Halt>
    requires cluster { cluster ≡ world.old.genesis.cluster }
    requires up { (n : ℕ) → Contains nodes.now n → IsUp world.old.sim_nodes n }
    requires leader { IsUp world.old.sim_nodes leader }
    requires sent { (n : ℕ) → Contains nodes.now n → HasSentTo world.old n leader (kinds.Accepted vote.now) }
    ensures ok { OnOk result
        (HearsInTurn M.meaning M.IsText leader (acceptances nodes.now vote.now) world.old world.new) }
    ensures err { IfErr result (λ h. HaltsFor h world.new) }
{
    'nodes: for i in 0..nodes.len() {
        let reply = message_of(cluster, nodes[i], NodeMessage::Accepted(vote.copy()));
        hand(alloc, world, leader, &reply)?;
    }
    Ok(())
}

// A client asks the leader, which takes the request.
fn propose<M: Machine>(
    alloc: Global,
    world: &mut World<Replica<M, MemoryDisk>>,
    cluster: u64,
    leader: NodeNo,
    request: &Request,
) -> Result<(), Halt>
    requires cluster { cluster ≡ world.old.genesis.cluster }
    requires up { IsUp world.old.sim_nodes leader }
    ensures ok { OnOk result (TakesRequest M.meaning M.IsText leader request.now world.old world.new) }
    ensures err { IfErr result (λ h. HaltsFor h world.new) }
{
    ask(world, leader, request)?;
    let message = Message {
        cluster,
        content: Content::Request(request.copy()),
    };
    hand(alloc, world, leader, &message)
}

/// Lets a client ask a leader that is ready, the first of these nodes, and delivers what they then send one another,
/// until the request is answered. The leader's ballot and its next position are those that it has asked for.
pub fn serve<M: Machine>(
    alloc: Global,
    world: &mut World<Replica<M, MemoryDisk>>,
    leader: NodeNo,
    nodes: &[NodeNo],
    asking: &Asking,
    request: &Request,
) -> Result<(), Halt>
    requires { IsReadyFor M.meaning M.IsText world.old leader nodes.now asking.now request.now }
    ensures ok { (k : IsReadyFor M.meaning M.IsText world.old leader nodes.now asking.now request.now)
        → OnOk result (HasAnswered M.meaning world.new k.replica.node request.now
        × HasNoted M.meaning world.new k.replica.node request.now) }
    ensures err { IfErr result (λ h. HaltsFor h world.new) }
{
    a_fresh_request_is_proposed::<M>();
    a_near_node_accepts::<M>();
    a_ready_leader_answers::<M>();
    let vote = Vote {
        position: asking.first,
        ballot: asking.ballot,
        command: Command::Request(request.copy()),
    };
    propose(alloc, world, asking.cluster, leader, request)?;
    let accept = message_of(asking.cluster, leader, NodeMessage::Accept(vote.copy()));
    hand_each(alloc, world, nodes, &accept)?;
    hand_replies(alloc, world, asking.cluster, leader, nodes, &vote)
}
