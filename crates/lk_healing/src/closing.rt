// A node executes as much as another one.
ghost use Rattle.std.specs.Prelude.{IfErr, IfOk};
ghost use Rattle.lk_healing.specs.Gaps.{ClosesOrGains, HasClosed, HasToldAnew, MayClose};
ghost use Rattle.lk_healing.specs.Halts.{HaltsFor};
ghost use Rattle.lk_healing.specs.Tellings.{MayTell};

use crate::feeding::feed;
use crate::halt::Halt;
use crate::telling::tell;
use lk_memory_disk::MemoryDisk;
use lk_replica::Replica;
use lk_sim::World;
use lk_state::Machine;
use lk_types::NodeNo;
use lk_world_leftovers::laws::nodes_know_their_members;
use std::alloc::Global;

// A node executes at most 2^48 positions, so it gains at most so often.
const MOST_GAINS: u64 = 281_474_976_710_657;

// Nudges a node twice, so that it throws away what it has gathered of a snapshot. Returns how many positions it tells
// that it has executed.
fn tell_anew<M: Machine>(
    world: &mut World<Replica<M, MemoryDisk>>,
    node: NodeNo,
) -> Result<u64, Halt>
    requires { MayTell world.old node }
    ensures ok { IfOk result (λ e. HasToldAnew M.meaning M.IsText node world.old world.new e) }
    ensures err { IfErr result (λ h. HaltsFor h world.new) }
{
    tell(world, node)?;
    Ok(tell(world, node)?.nack.executed.get())
}

// Feeds a node by another one that has executed more, until it has executed more than before. If the other one has not
// executed more, returns how many positions it has executed.
fn gain<M: Machine>(
    alloc: Global,
    world: &mut World<Replica<M, MemoryDisk>>,
    behind: NodeNo,
    ahead: NodeNo,
) -> Result<Option<u64>, Halt>
    requires { MayClose M.meaning M.IsText world.old behind ahead }
    ensures ok { (k : MayClose M.meaning M.IsText world.old behind ahead)
        → IfOk result (λ o. ClosesOrGains M.meaning M.IsText behind ahead world.old world.new k o) }
    ensures err { IfErr result (λ h. HaltsFor h world.new) }
{
    nodes_know_their_members::<M>();
    let told = tell(world, ahead)?;
    let own = tell_anew(world, behind)?;
    if own < told.executed() {
        feed(alloc, world, behind, ahead, own, told)?;
        return Ok(None);
    }
    Ok(Some(own))
}

/// Feeds a node by another one until it has executed at least as much. Returns how many positions it has executed.
pub fn close_gap<M: Machine>(
    alloc: Global,
    world: &mut World<Replica<M, MemoryDisk>>,
    behind: NodeNo,
    ahead: NodeNo,
) -> Result<u64, Halt>
    requires { MayClose M.meaning M.IsText world.old behind ahead }
    ensures ok { (k : MayClose M.meaning M.IsText world.old behind ahead)
        → IfOk result (λ e. HasClosed M.meaning M.IsText behind ahead world.old world.new e k) }
    ensures err { IfErr result (λ h. HaltsFor h world.new) }
{
    'gaps: for _ in 0..MOST_GAINS {
        if let Some(own) = gain(alloc, world, behind, ahead)? {
            return Ok(own);
        }
    }
    unreachable!()
}
