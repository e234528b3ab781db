// A candidate that nobody of its majority is ahead of answers a request, whatever they have promised and voted for.
ghost use Rattle.std.specs.Prelude.{◌≡◌, IfErr, OnOk};
ghost use Rattle.lk_healing.specs.Answers.{IsAnswered};
ghost use Rattle.lk_healing.specs.Contending.{MayContendFor};
ghost use Rattle.lk_healing.specs.Halts.{HaltsFor};

use crate::asking::Asking;
use crate::catching_up::catch_up;
use crate::filling::fill;
use crate::halt::Halt;
use crate::serving::serve;
use crate::standing::lead;
use lk_memory_disk::MemoryDisk;
use lk_replica::Replica;
use lk_sim::World;
use lk_state::Machine;
use lk_types::{NodeNo, Request};
use std::alloc::Global;

/// Lets the first of these nodes, a majority, begin ballots until nobody rejects one, fill in the votes that are left,
/// and answer the request of a client.
pub fn contend<M: Machine>(
    alloc: Global,
    world: &mut World<Replica<M, MemoryDisk>>,
    alpha: u8,
    candidate: NodeNo,
    nodes: &[NodeNo],
    request: &Request,
) -> Result<(), Halt>
    requires alpha { alpha ≡ world.old.genesis.alpha }
    requires contends { MayContendFor M.meaning M.IsText world.old candidate nodes.now request.now }
    ensures ok { OnOk result (IsAnswered M.meaning world.new candidate request.now) }
    ensures err { IfErr result (λ h. HaltsFor h world.new) }
{
    let asking = lead(alloc, world, candidate, nodes)?;
    let next = fill(alloc, world, candidate, nodes, &asking)?;
    catch_up(alloc, world, alpha, candidate, nodes, &asking, next)?;
    let asking = Asking {
        cluster: asking.cluster,
        ballot: asking.ballot,
        first: next,
    };
    serve(alloc, world, candidate, nodes, &asking, request)
}
