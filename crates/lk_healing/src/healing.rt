// A majority of a cluster whose members never changed is restarted, and answers.
ghost use Rattle.std.specs.Prelude.{◌≡◌, IfErr, OnOk};
ghost use Rattle.lk_healing.specs.Answers.{IsAnswered};
ghost use Rattle.lk_healing.specs.Halts.{HaltsFor};
ghost use Rattle.lk_healing.specs.Heals.{MayHeal};

use crate::contending::contend;
use crate::halt::Halt;
use crate::leveling::level;
use crate::restarting::restart_each;
use lk_memory_disk::MemoryDisk;
use lk_replica::Replica;
use lk_sim::World;
use lk_state::Machine;
use lk_types::{NodeNo, Request};
use lk_world_leftovers::laws::restarted_nodes_end;
use lk_world_progress::laws::{a_restart_is_fresh, restarts_are_fresh};
use std::alloc::Global;

// No event begins once more datagrams were sent.
const MOST_DATAGRAMS: usize = 99_000;

/// Restarts these nodes, a majority of members that never changed, lets them feed one another until all have executed
/// as much, and lets the first of them lead and answer the request of a client.
pub fn heal<M: Machine>(
    alloc: Global,
    world: &mut World<Replica<M, MemoryDisk>>,
    alpha: u8,
    candidate: NodeNo,
    nodes: &[NodeNo],
    request: &Request,
) -> Result<(), Halt>
    requires alpha { alpha ≡ world.old.genesis.alpha }
    requires heals { MayHeal world.old candidate nodes.now request.now }
    ensures ok { OnOk result (IsAnswered M.meaning world.new candidate request.now) }
    ensures err { IfErr result (λ h. HaltsFor h world.new) }
{
    world.facts();
    a_restart_is_fresh::<M>();
    restarts_are_fresh::<M>();
    restarted_nodes_end::<M>();
    if world.datagrams().len() > MOST_DATAGRAMS {
        return Err(Halt::Full);
    }
    restart_each(world, nodes)?;
    level(alloc, world, candidate, nodes)?;
    contend(alloc, world, alpha, candidate, nodes, request)
}
