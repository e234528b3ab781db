// A leader fills in the votes that were reported to it, one position after another.
ghost use Rattle.std.specs.Prelude.{◌≡◌, ℕ, None, IfErr, IfOk, IfSome};
ghost use Rattle.lk_types.specs.declared.vote.Vote.{Vote as VoteValue};
ghost use Rattle.lk_messages.specs.declared.message.Content.TheVariants as content;
ghost use Rattle.lk_messages.specs.declared.message.NodeMessage.TheVariants as kinds;
ghost use Rattle.lk_wire.specs.Shown.{shown};
ghost use Rattle.lk_healing.specs.Fills.{FillsOnce, HasFilled, OffersFrom, last_ran};
ghost use Rattle.lk_healing.specs.Halts.{HaltsFor};
ghost use Rattle.lk_healing.specs.Standing.{FillsFrom, IsOffer, IsOfferIn};

use crate::asking::Asking;
use crate::halt::Halt;
use crate::handing::{hand_each, message_of};
use crate::serving::hand_replies;
use lk_leftovers::laws::{a_leader_accepts_its_own, a_voter_accepts_and_stays};
use lk_memory_disk::MemoryDisk;
use lk_node_interface::Note;
use lk_replica::{Datagram, Replica};
use lk_sim::World;
use lk_state::Machine;
use lk_types::{NodeNo, Position, Vote};
use lk_wire::{ContentRef, Datagram as Viewed, MessageRef, NodeMessage, NodeMessageRef};
use lk_world_leftovers::laws::{a_filling_leader_offers, a_position_is_filled};
use std::alloc::Global;

// A position is at most 2^48, so filling ends before this.
const MOST_POSITIONS: u64 = 1 << 49;

// Returns the vote that this message proposes, if it is an Accept of the node for the position, in the ballot that the
// node has asked for.
fn offer_of(
    message: &MessageRef<'_>,
    node: NodeNo,
    asking: &Asking,
    position: Position,
) -> Option<Vote>
    ensures some { IfSome result (λ v. (v.position ≡ position) × (v.ballot ≡ asking.now.ballot)
        × (shown message.now
        ≡ record { cluster = asking.now.cluster; content = content.Node node (kinds.Accept v) })) }
    ensures only { (v : VoteValue) → v.position ≡ position → v.ballot ≡ asking.now.ballot
        → shown message.now ≡ record { cluster = asking.now.cluster; content = content.Node node (kinds.Accept v) }
        → result ≡ None → ⊥ }
{
    match &message.content {
        ContentRef::Node(from, NodeMessageRef::Accept(vote)) => {
            let vote = vote.vote();
            let of_node = message.cluster == asking.cluster && *from == node;
            if of_node && vote.position == position && vote.ballot == asking.ballot {
                Some(vote)
            } else {
                None
            }
        }
        _ => None,
    }
}

// Returns the same of this datagram.
fn offer_in(datagram: &Datagram, node: NodeNo, asking: &Asking, position: Position) -> Option<Vote>
    ensures some { IfSome result (λ v. IsOfferIn datagram.now node asking.now position v) }
    ensures none { result ≡ None → (v : VoteValue) → IsOfferIn datagram.now node asking.now position v → ⊥ }
{
    let viewed = Viewed::of(&datagram.bytes);
    match viewed.message() {
        Ok(message) => offer_of(message, node, asking, position),
        Err(_) => None,
    }
}

/// Returns the vote of the node's first Accept among these datagrams for the position, in the ballot that the node has
/// asked for.
pub fn offer_at(
    sent: &[Datagram],
    node: NodeNo,
    asking: &Asking,
    position: Position,
) -> Option<Vote>
    ensures some { IfSome result (λ v. IsOffer sent.now node asking.now position v) }
    ensures none { result ≡ None → (v : VoteValue) → IsOffer sent.now node asking.now position v → ⊥ }
{
    'datagrams: for i in 0..sent.len() {
        if let Some(vote) = offer_in(&sent[i], node, asking, position) {
            return Some(vote);
        }
    }
    None
}

// Returns the last position that these notes tell the node has executed, or what it had before if they tell of none.
fn last_ran(notes: &[Note], node: NodeNo, before: u64) -> u64
    ensures { result ≡ last_ran node before notes.now }
{
    let mut executed = before;
    for note in notes {
        if let Note::Ran(number, position, _) = note
            && *number == node
        {
            executed = position.get();
        }
    }
    executed
}

// Lets each of these nodes take the leader's Accept of the vote, and the leader their replies. Returns its next
// position then.
fn fill_next<M: Machine>(
    alloc: Global,
    world: &mut World<Replica<M, MemoryDisk>>,
    leader: NodeNo,
    nodes: &[NodeNo],
    asking: &Asking,
    vote: &Vote,
) -> Result<Position, Halt>
    requires { OffersFrom M.meaning M.IsText world.old leader nodes.now asking.now vote.now.position vote.now }
    ensures ok { IfOk result (λ next. FillsOnce M.meaning M.IsText leader nodes.now asking.now vote.now.position
        world.old world.new next) }
    ensures err { IfErr result (λ h. HaltsFor h world.new) }
{
    a_leader_accepts_its_own::<M>();
    a_voter_accepts_and_stays::<M>();
    a_position_is_filled::<M>();
    let accept = message_of(asking.cluster, leader, NodeMessage::Accept(vote.copy()));
    hand_each(alloc, world, nodes, &accept)?;
    let noted = world.trace().len();
    hand_replies(alloc, world, asking.cluster, leader, nodes, vote)?;
    let before = vote.position.get() - 1;
    let executed = last_ran(&world.trace()[noted..], leader, before);
    match Position::of(executed + 1) {
        Some(next) => Ok(next),
        None => unreachable!(),
    }
}

/// Lets a leader fill in one position after another, until no vote is reported at its next position or above it.
/// Returns that position.
pub fn fill<M: Machine>(
    alloc: Global,
    world: &mut World<Replica<M, MemoryDisk>>,
    leader: NodeNo,
    nodes: &[NodeNo],
    asking: &Asking,
) -> Result<Position, Halt>
    requires { FillsFrom M.meaning M.IsText world.old leader nodes.now asking.now asking.now.first }
    ensures ok { IfOk result (λ next.
        HasFilled M.meaning M.IsText leader nodes.now asking.now world.old world.new next) }
    ensures err { IfErr result (λ h. HaltsFor h world.new) }
{
    a_filling_leader_offers::<M>();
    let _ = asking.ballot.get();
    let mut next = asking.first;
    'positions: for _ in 0..MOST_POSITIONS {
        let _ = next.get();
        let Some(vote) = offer_at(world.datagrams(), leader, asking, next) else {
            return Ok(next);
        };
        next = fill_next(alloc, world, leader, nodes, asking, &vote)?;
    }
    unreachable!()
}
