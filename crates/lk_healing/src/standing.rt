// A candidate begins ballots until nobody of its majority rejects one.
ghost use Rattle.std.specs.Prelude.{◌≡◌, ℕ, None, Some, true, false, IfErr, IfOk, IfSome, Contains};
ghost use Rattle.lk_agreement_laws.specs.Datagrams.{Datagram as DatagramValue};
ghost use Rattle.lk_messages.specs.declared.message.Content.TheVariants as content;
ghost use Rattle.lk_messages.specs.declared.message.Nack.{Nack as NackValue};
ghost use Rattle.lk_messages.specs.declared.message.NodeMessage.TheVariants as kinds;
ghost use Rattle.lk_sim.specs.Refusals.{datagram_at};
ghost use Rattle.lk_wire.specs.Shown.{shown};
ghost use Rattle.lk_healing.specs.Contending.{MayStand};
ghost use Rattle.lk_healing.specs.Halts.{HaltsFor};
ghost use Rattle.lk_healing.specs.Standing.{AreThere, ComesToLead, IsRejection, IsRejectionAt, LeadsAfter};

use crate::asking::Asking;
use crate::carrying_out::deliver;
use crate::halt::Halt;
use crate::handing::message_of;
use crate::polling::{deliver_all, poll};
use crate::waiting::begin_ballot;
use lk_memory_disk::MemoryDisk;
use lk_replica::{Datagram, Replica};
use lk_sim::World;
use lk_state::Machine;
use lk_types::NodeNo;
use lk_wire::{ContentRef, Datagram as Viewed, MessageRef, Nack, NodeMessage, NodeMessageRef};
use lk_world_leftovers::laws::a_candidate_fills_in_a_world;
use std::alloc::Global;

// Returns what this message rejects, if it is a rejection.
fn nack_of(message: &MessageRef<'_>) -> Option<Nack>
    ensures some { IfSome result (λ k. (n : ℕ)
        × (shown message.now ≡ record { cluster = message.now.cluster; content = content.Node n (kinds.Nack k) })) }
    ensures only { (c n : ℕ) → (k : NackValue)
        → shown message.now ≡ record { cluster = c; content = content.Node n (kinds.Nack k) } → result ≡ Some k }
{
    match &message.content {
        ContentRef::Node(_, NodeMessageRef::Nack(nack)) => Some(*nack),
        _ => None,
    }
}

/// Returns what this datagram rejects, if it is a rejection.
pub fn rejection_in(datagram: &Datagram) -> Option<Nack>
    ensures some { IfSome result (λ k. (r : IsRejection datagram.now) × (r.nack ≡ k)) }
    ensures only { (r : IsRejection datagram.now) → result ≡ Some r.nack }
{
    let viewed = Viewed::of(&datagram.bytes);
    match viewed.message() {
        Ok(message) => nack_of(message),
        Err(_) => None,
    }
}

// Returns whether a rejection stands at this place, where some datagram stands.
fn rejects_at(sent: &[Datagram], place: usize) -> bool
    requires there { (d : DatagramValue) × (datagram_at sent.now place ≡ Some d) }
    ensures yes { result ≡ true → IsRejectionAt sent.now place }
    ensures no { result ≡ false → IsRejectionAt sent.now place → ⊥ }
{
    match rejection_in(&sent[place - 1]) {
        Some(_) => true,
        None => false,
    }
}

// Returns the first of these places at which a rejection stands.
fn rejection_among(sent: &[Datagram], places: &[usize]) -> Option<usize>
    requires there { AreThere sent.now places.now }
    ensures some { IfSome result (λ p. Contains places.now p × IsRejectionAt sent.now p) }
    ensures none { result ≡ None → (p : ℕ) → Contains places.now p → IsRejectionAt sent.now p → ⊥ }
{
    'places: for i in 0..places.len() {
        if rejects_at(sent, places[i]) {
            return Some(places[i]);
        }
    }
    None
}

// Lets the first of these nodes begin one ballot. It takes their promises and leads, or, if one of them rejects the
// ballot, that rejection.
fn stand<M: Machine>(
    alloc: Global,
    world: &mut World<Replica<M, MemoryDisk>>,
    candidate: NodeNo,
    nodes: &[NodeNo],
) -> Result<Option<Asking>, Halt>
    requires { MayStand M.meaning M.IsText world.old candidate nodes.now }
    ensures ok { IfOk result (λ o.
        ComesToLead M.meaning M.IsText candidate nodes.now world.old world.new o) }
    ensures err { IfErr result (λ h. HaltsFor h world.new) }
{
    a_candidate_fills_in_a_world::<M>();
    let asking = begin_ballot(world, candidate)?;
    let prepare = NodeMessage::Prepare(asking.ballot, asking.first);
    let prepare = message_of(asking.cluster, candidate, prepare);
    let places = poll(alloc, world, nodes, &prepare)?;
    match rejection_among(world.datagrams(), &places) {
        Some(place) => {
            deliver(world, place)?;
            Ok(None)
        }
        None => {
            deliver_all(world, candidate, &places)?;
            Ok(Some(asking))
        }
    }
}

/// Lets the first of these nodes begin ballots, until nobody of them rejects one. Then it leads.
pub fn lead<M: Machine>(
    alloc: Global,
    world: &mut World<Replica<M, MemoryDisk>>,
    candidate: NodeNo,
    nodes: &[NodeNo],
) -> Result<Asking, Halt>
    requires { MayStand M.meaning M.IsText world.old candidate nodes.now }
    ensures ok { IfOk result (λ a. LeadsAfter M.meaning M.IsText candidate nodes.now world.old world.new a) }
    ensures err { IfErr result (λ h. HaltsFor h world.new) }
{
    'ballots: for _ in 0..nodes.len() {
        let stood = stand(alloc, world, candidate, nodes)?;
        match stood {
            Some(asking) => return Ok(asking),
            None => {}
        }
    }
    unreachable!()
}
