// A candidate that has begun a ballot asks a majority, and hears it promise.
ghost use Rattle.std.specs.Prelude.{◌≡◌, ◌++◌, ◌∷◌, [], List, IfErr, IfOk, OnOk};
ghost use Rattle.lk_messages.specs.declared.message.Content.{Content as ContentValue};
ghost use Rattle.lk_sim_nodes.specs.SimNodes.{IsUp};
ghost use Rattle.lk_world_progress.specs.Delivering.{HearsInTurn};
ghost use Rattle.lk_healing.specs.Halts.{AreOnTheirWay, HaltsFor};
ghost use Rattle.lk_healing.specs.Polls.{HasBegun, HearsAt, LeadsNow, StandAt};

use crate::asking::Asking;
use crate::carrying_out::deliver;
use crate::halt::Halt;
use crate::handing::{hand, message_of};
use lk_memory_disk::MemoryDisk;
use lk_progress::laws::{
    a_due_node_asks_its_window, a_prepare_is_promised_or_rejected_for_a_cause,
};
use lk_replica::Replica;
use lk_sim::World;
use lk_state::Machine;
use lk_types::{NoMemory, NodeNo};
use lk_wire::{Message, NodeMessage};
use lk_world_leftovers::laws::a_candidate_fills_in_a_world;
use lk_world_progress::laws::a_due_tick_begins_a_ballot;
use std::alloc::Global;

/// Appends a place.
pub fn add_place(places: &mut Vec<usize>, place: usize) -> Result<(), NoMemory>
    ensures { OnOk result (places.new.items ≡ places.old.items ++ place ∷ []) }
{
    places.push(place)?;
    Ok(())
}

/// Delivers a message to each of these nodes, in order. Returns at which place stands what each has sent first for it.
pub fn poll<M: Machine>(
    alloc: Global,
    world: &mut World<Replica<M, MemoryDisk>>,
    nodes: &[NodeNo],
    message: &Message,
) -> Result<Vec<usize>, Halt>
    requires each { AreOnTheirWay world.old nodes.now message.now }
    requires cluster { message.now.cluster ≡ world.old.genesis.cluster }
    ensures ok { IfOk result (λ places.
        HearsAt M.meaning M.IsText message.now.content nodes.now places.items world.old world.new) }
    ensures err { IfErr result (λ h. HaltsFor h world.new) }
{
    let mut places = Vec::new(alloc);
    'nodes: for i in 0..nodes.len() {
        let place = world.datagrams().len() + 1;
        hand(alloc, world, nodes[i], message)?;
        add_place(&mut places, place)?;
    }
    Ok(places)
}

/// Delivers the datagrams at these places to the node, in order.
pub fn deliver_all<M: Machine>(
    world: &mut World<Replica<M, MemoryDisk>>,
    node: NodeNo,
    places: &[usize],
) -> Result<(), Halt>
    requires up { IsUp world.old.sim_nodes node }
    requires stand { (xs : List ContentValue) × StandAt world.old node places.now xs }
    ensures ok { (xs : List ContentValue) → StandAt world.old node places.now xs
        → OnOk result (HearsInTurn M.meaning M.IsText node xs world.old world.new) }
    ensures err { IfErr result (λ h. HaltsFor h world.new) }
{
    'places: for i in 0..places.len() {
        deliver(world, places[i])?;
    }
    Ok(())
}

/// Lets a candidate that has begun a ballot with the last tick, the first of these nodes, ask all of them for their
/// promises, and take these.
pub fn collect<M: Machine>(
    alloc: Global,
    world: &mut World<Replica<M, MemoryDisk>>,
    candidate: NodeNo,
    nodes: &[NodeNo],
    asking: &Asking,
) -> Result<(), Halt>
    requires { HasBegun M.meaning M.IsText candidate nodes.now asking.now world.old }
    ensures ok { (k : HasBegun M.meaning M.IsText candidate nodes.now asking.now world.old)
        → OnOk result (LeadsNow M.meaning M.IsText candidate nodes.now asking.now world.old world.new k) }
    ensures err { IfErr result (λ h. HaltsFor h world.new) }
{
    a_due_node_asks_its_window();
    a_due_tick_begins_a_ballot::<M>();
    a_prepare_is_promised_or_rejected_for_a_cause::<M>();
    a_candidate_fills_in_a_world::<M>();
    let prepare = NodeMessage::Prepare(asking.ballot, asking.first);
    let prepare = message_of(asking.cluster, candidate, prepare);
    let places = poll(alloc, world, nodes, &prepare)?;
    deliver_all(world, candidate, &places)
}
