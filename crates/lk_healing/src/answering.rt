// A candidate that nobody is ahead of answers a request.
ghost use Rattle.std.specs.Prelude.{IfErr, OnOk};
ghost use Rattle.lk_healing.specs.Answers.{IsAnswered, IsQuietFor};
ghost use Rattle.lk_healing.specs.Halts.{HaltsFor};

use crate::halt::Halt;
use crate::polling::collect;
use crate::serving::serve;
use crate::waiting::begin_ballot;
use lk_leftovers::laws::a_filled_leader_is_ready;
use lk_memory_disk::MemoryDisk;
use lk_replica::Replica;
use lk_sim::World;
use lk_state::Machine;
use lk_types::{NodeNo, Request};
use lk_world_leftovers::laws::{fresh_requests_are_new, nodes_know_their_members};
use std::alloc::Global;

/// Lets the first of these nodes, a majority that is quiet, begin a ballot, lead and answer the request of a client.
pub fn answer<M: Machine>(
    alloc: Global,
    world: &mut World<Replica<M, MemoryDisk>>,
    candidate: NodeNo,
    nodes: &[NodeNo],
    request: &Request,
) -> Result<(), Halt>
    requires { IsQuietFor M.meaning M.IsText world.old candidate nodes.now request.now }
    ensures ok { OnOk result (IsAnswered M.meaning world.new candidate request.now) }
    ensures err { IfErr result (λ h. HaltsFor h world.new) }
{
    fresh_requests_are_new::<M>();
    a_filled_leader_is_ready();
    nodes_know_their_members::<M>();
    let asking = begin_ballot(world, candidate)?;
    collect(alloc, world, candidate, nodes, &asking)?;
    serve(alloc, world, candidate, nodes, &asking, request)
}
