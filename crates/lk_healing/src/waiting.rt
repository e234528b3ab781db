// Ticks, until a node begins a ballot.
ghost use Rattle.std.specs.Prelude.{◌≡◌, ℕ, Some, IfErr, IfOk};
ghost use Rattle.lk_types.specs.BallotValue.{BallotValue};
ghost use Rattle.lk_wire.specs.Shown.{shown};
ghost use Rattle.lk_messages.specs.declared.message.Content.TheVariants as content;
ghost use Rattle.lk_messages.specs.declared.message.NodeMessage.TheVariants as kinds;
ghost use Rattle.lk_healing.specs.Halts.{HaltsFor};
ghost use Rattle.lk_healing.specs.Waits.{BeginsAfter, IsPrepare, MayBeginIn};

use crate::asking::Asking;
use crate::carrying_out::tick;
use crate::halt::Halt;
use lk_memory_disk::MemoryDisk;
use lk_replica::{Datagram, Replica};
use lk_sim::World;
use lk_state::Machine;
use lk_types::NodeNo;
use lk_wire::{ContentRef, Datagram as Viewed, MessageRef, NodeMessageRef};
use lk_world_progress::laws::ticks_begin_a_ballot_in_a_world;

// A node begins a ballot after at most so many ticks: four, and four more for each other member.
const MOST_TICKS: usize = 28;

// Returns what a candidate asks by this message, if it is a Prepare.
fn asking_of(message: &MessageRef<'_>) -> Option<Asking>
    ensures { (c n : ℕ) → (b : BallotValue) → (i : ℕ)
        → shown message.now ≡ record { cluster = c; content = content.Node n (kinds.Prepare b i) }
        → result ≡ Some (record { cluster = c; ballot = b; first = i }) }
{
    match &message.content {
        ContentRef::Node(_, NodeMessageRef::Prepare(ballot, first)) => Some(Asking {
            cluster: message.cluster,
            ballot: *ballot,
            first: *first,
        }),
        _ => None,
    }
}

// Returns what a candidate asks by this datagram, which is a Prepare.
fn asking_in(datagram: &Datagram) -> Asking
    requires { IsPrepare datagram.now }
    ensures { (k : IsPrepare datagram.now)
        → result ≡ record { cluster = k.cluster; ballot = k.ballot; first = k.first } }
{
    let viewed = Viewed::of(&datagram.bytes);
    match viewed.message() {
        Ok(message) => match asking_of(message) {
            Some(asking) => asking,
            None => unreachable!(),
        },
        Err(_) => unreachable!(),
    }
}

/// Gives ticks to a member of its next position that has no term, until it begins a ballot. Returns what it then asks.
pub fn begin_ballot<M: Machine>(
    world: &mut World<Replica<M, MemoryDisk>>,
    node: NodeNo,
) -> Result<Asking, Halt>
    requires { MayBeginIn world.old node }
    ensures ok { IfOk result (λ a. BeginsAfter M.meaning M.IsText node world.old world.new a) }
    ensures err { IfErr result (λ h. HaltsFor h world.new) }
{
    world.facts();
    'ticks: for _ in 0..MOST_TICKS {
        let before = world.datagrams().len();
        tick(world, node)?;
        if let Some(first) = world.datagrams().get(before) {
            return Ok(asking_in(first));
        }
    }
    ticks_begin_a_ballot_in_a_world::<M>();
    unreachable!()
}
