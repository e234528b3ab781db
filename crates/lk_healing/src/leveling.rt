// The nodes of a majority execute as much as the one of them that has executed most.
ghost use Rattle.std.specs.Prelude.{◌≡◌, IfErr, IfOk, OnOk};
ghost use Rattle.lk_healing.specs.Halts.{HaltsFor};
ghost use Rattle.lk_healing.specs.Levels.{AreEqual, HasFed, HasRisen, MayLevel};

use crate::closing::close_gap;
use crate::halt::Halt;
use lk_memory_disk::MemoryDisk;
use lk_replica::Replica;
use lk_sim::World;
use lk_state::Machine;
use lk_types::NodeNo;
use std::alloc::Global;

// Feeds the first of these nodes by each of the others, until it has executed as much as any of them. Returns how many
// positions it has executed, if there are others.
fn rise<M: Machine>(
    alloc: Global,
    world: &mut World<Replica<M, MemoryDisk>>,
    candidate: NodeNo,
    nodes: &[NodeNo],
) -> Result<u64, Halt>
    requires { MayLevel M.meaning M.IsText world.old candidate nodes.now }
    ensures ok { (k : MayLevel M.meaning M.IsText world.old candidate nodes.now)
        → IfOk result (λ e. HasRisen M.meaning M.IsText candidate nodes.now world.old world.new e k) }
    ensures err { IfErr result (λ h. HaltsFor h world.new) }
{
    let mut reached = 0;
    'nodes: for i in 1..nodes.len() {
        reached = close_gap(alloc, world, candidate, nodes[i])?;
    }
    Ok(reached)
}

// Feeds each of the others by the first of these nodes, until it has executed as much as that one.
fn raise_each<M: Machine>(
    alloc: Global,
    world: &mut World<Replica<M, MemoryDisk>>,
    candidate: NodeNo,
    nodes: &[NodeNo],
) -> Result<(), Halt>
    requires { MayLevel M.meaning M.IsText world.old candidate nodes.now }
    ensures ok { (k : MayLevel M.meaning M.IsText world.old candidate nodes.now)
        → OnOk result (HasFed M.meaning M.IsText candidate nodes.now world.old world.new k) }
    ensures err { IfErr result (λ h. HaltsFor h world.new) }
{
    'nodes: for i in 1..nodes.len() {
        close_gap(alloc, world, nodes[i], candidate)?;
    }
    Ok(())
}

/// Lets these nodes feed one another, by nudges of the first one and each of the others, until all of them have
/// executed as much.
pub fn level<M: Machine>(
    alloc: Global,
    world: &mut World<Replica<M, MemoryDisk>>,
    candidate: NodeNo,
    nodes: &[NodeNo],
) -> Result<(), Halt>
    requires { MayLevel M.meaning M.IsText world.old candidate nodes.now }
    ensures ok { (k : MayLevel M.meaning M.IsText world.old candidate nodes.now)
        → OnOk result (AreEqual M.meaning M.IsText candidate nodes.now world.old world.new k) }
    ensures err { IfErr result (λ h. HaltsFor h world.new) }
{
    let mut reached = rise(alloc, world, candidate, nodes)?;
    'rounds: loop {
        raise_each(alloc, world, candidate, nodes)?;
        let next = rise(alloc, world, candidate, nodes)?;
        if next <= reached {
            return Ok(());
        }
        reached = next;
    }
}
