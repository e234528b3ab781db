// Delivers messages that were sent.
ghost use Rattle.std.specs.Prelude.{◌≡◌, IfErr, IfOk, OnOk};
ghost use Rattle.lk_messages.specs.Grammar.{Spells, spelling};
ghost use Rattle.lk_messages.specs.declared.message.Content.TheVariants as content;
ghost use Rattle.lk_sim_nodes.specs.SimNodes.{IsUp};
ghost use Rattle.lk_world_progress.specs.Delivering.{Hears, HearsEach};
ghost use Rattle.lk_healing.specs.Halts.{AreOnTheirWay, HaltsFor, IsAddressed, IsOnItsWay};

use crate::carrying_out::deliver;
use crate::finding::place_of;
use crate::halt::Halt;
use bytes::BytesMut;
use lk_memory_disk::MemoryDisk;
use lk_replica::Replica;
use lk_sim::World;
use lk_state::Machine;
use lk_types::{NoMemory, NodeNo};
use lk_wire::{Content, Message, NodeMessage, write};
use std::alloc::Global;

/// Returns what a node says, as a message of the cluster of this number.
pub fn message_of(cluster: u64, from: NodeNo, said: NodeMessage) -> Message
    ensures { result ≡ record { cluster = cluster; content = content.Node from said } }
{
    Message {
        cluster,
        content: Content::Node(from, said),
    }
}

// Returns the place of a datagram to the node that spells the message.
fn find_message<M: Machine>(
    alloc: Global,
    world: &World<Replica<M, MemoryDisk>>,
    to: NodeNo,
    message: &Message,
) -> Result<usize, NoMemory>
    requires sent { IsOnItsWay world.now to message.now }
    ensures { IfOk result (λ k. IsAddressed world.now.sent k to (spelling message.now)
        × Spells message.now (spelling message.now)) }
{
    let mut bytes = BytesMut::new(alloc);
    write(message, &mut bytes)?;
    let Some(place) = place_of(world.datagrams(), to, bytes.as_slice()) else {
        unreachable!()
    };
    Ok(place)
}

/// Delivers a message of the cluster to a node that is up, and to which it was sent.
pub fn hand<M: Machine>(
    alloc: Global,
    world: &mut World<Replica<M, MemoryDisk>>,
    to: NodeNo,
    message: &Message,
) -> Result<(), Halt>
    requires up { IsUp world.old.sim_nodes to }
    requires sent { IsOnItsWay world.old to message.now }
    requires cluster { message.now.cluster ≡ world.old.genesis.cluster }
    ensures ok { OnOk result (Hears M.meaning M.IsText to message.now.content world.old world.new) }
    ensures err { IfErr result (λ h. HaltsFor h world.new) }
{
    let place = find_message(alloc, world, to, message)?;
    deliver(world, place)
}

/// Delivers a message to each of these nodes, in order.
pub fn hand_each<M: Machine>(
    alloc: Global,
    world: &mut World<Replica<M, MemoryDisk>>,
    nodes: &[NodeNo],
    message: &Message,
) -> Result<(), Halt>
    requires each { AreOnTheirWay world.old nodes.now message.now }
    requires cluster { message.now.cluster ≡ world.old.genesis.cluster }
    ensures ok { OnOk result
        (HearsEach M.meaning M.IsText message.now.content nodes.now world.old world.new) }
    ensures err { IfErr result (λ h. HaltsFor h world.new) }
{
    'nodes: for i in 0..nodes.len() {
        hand(alloc, world, nodes[i], message)?;
    }
    Ok(())
}
