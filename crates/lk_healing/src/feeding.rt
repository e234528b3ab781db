// A node that has executed less than another one asks it, and is sent commands or parts of a snapshot.
ghost use Rattle.std.specs.Prelude.{◌≡◌, ◌-◌, length, IfErr, IfOk, OnOk};
ghost use Rattle.lk_learner.specs.Learners.{executed};
ghost use Rattle.lk_healing.specs.Feeds.{HasExchanged, HasGained, MayFeed, places_from};
ghost use Rattle.lk_healing.specs.Halts.{HaltsFor};

use crate::carrying_out::deliver;
use crate::halt::Halt;
use crate::handing::{hand, message_of};
use crate::polling::{add_place, deliver_all};
use crate::progress::Progress;
use crate::telling::tell;
use lk_memory_disk::MemoryDisk;
use lk_replica::{Datagram, Replica};
use lk_sim::World;
use lk_state::Machine;
use lk_types::{NoMemory, NodeNo};
use lk_wire::NodeMessage;
use lk_world_feeding::laws::a_node_can_be_fed;
use lk_world_leftovers::laws::{
    a_lagging_candidate_is_fed, nodes_know_their_members, parts_are_taken,
};
use std::alloc::Global;

// A snapshot has at most so many parts, and each exchange sends one of them at least.
const MOST_PARTS: usize = 64;

// Returns the places of the datagrams after this many.
fn places_after(alloc: Global, sent: &[Datagram], count: usize) -> Result<Vec<usize>, NoMemory>
    ensures { IfOk result (λ ps. ps.items ≡ places_from count (length sent.now - count)) }
{
    let mut places = Vec::new(alloc);
    'places: for i in count..sent.len() {
        add_place(&mut places, i + 1)?;
    }
    Ok(places)
}

// Lets a node that has executed less than another one, which has told so, ask that one, and take what it sends.
fn exchange<M: Machine>(
    alloc: Global,
    world: &mut World<Replica<M, MemoryDisk>>,
    behind: NodeNo,
    ahead: NodeNo,
    told: Progress,
) -> Result<(), Halt>
    requires { MayFeed M.meaning M.IsText world.old behind ahead told }
    ensures ok { (k : MayFeed M.meaning M.IsText world.old behind ahead told)
        → OnOk result (HasExchanged M.meaning M.IsText behind ahead told world.old world.new k) }
    ensures err { IfErr result (λ h. HaltsFor h world.new) }
{
    a_node_can_be_fed::<M>();
    a_lagging_candidate_is_fed::<M>();
    parts_are_taken::<M>();
    let nack = message_of(told.cluster, ahead, NodeMessage::Nack(told.nack));
    let want = world.datagrams().len() + 1;
    hand(alloc, world, behind, &nack)?;
    let before = world.datagrams().len();
    deliver(world, want)?;
    let places = places_after(alloc, world.datagrams(), before)?;
    deliver_all(world, behind, &places)
}

/// Feeds a node that has executed less than another one, which has told so, until it has executed more.
pub fn feed<M: Machine>(
    alloc: Global,
    world: &mut World<Replica<M, MemoryDisk>>,
    behind: NodeNo,
    ahead: NodeNo,
    own: u64,
    told: Progress,
) -> Result<(), Halt>
    requires { (k : MayFeed M.meaning M.IsText world.old behind ahead told)
        × (executed k.behind.node.learner ≡ own) }
    ensures ok { (k : MayFeed M.meaning M.IsText world.old behind ahead told)
        → OnOk result (HasGained M.meaning M.IsText behind ahead told world.old world.new k) }
    ensures err { IfErr result (λ h. HaltsFor h world.new) }
{
    nodes_know_their_members::<M>();
    'exchanges: for _ in 0..MOST_PARTS {
        exchange(alloc, world, behind, ahead, told)?;
        if own < tell(world, behind)?.nack.executed.get() {
            return Ok(());
        }
    }
    unreachable!()
}
