// Events that go well, or tell why not.
ghost use Rattle.std.specs.Prelude.{IfErr, OnOk};
ghost use Rattle.lk_node_interface.specs.declared.nudge_reason.NudgeReason.TheVariants.{TicksWithheld as withheld};
ghost use Rattle.lk_sim.specs.declared.event.Event.TheVariants as event;
ghost use Rattle.lk_sim_nodes.specs.SimNodes.{IsUp};
ghost use Rattle.lk_world_progress.specs.Stepping.{GoesWell};
ghost use Rattle.lk_healing.specs.Halts.{HaltsFor, MayBeTaken, NeedsRoomAlone};

use crate::halt::Halt;
use lk_memory_disk::MemoryDisk;
use lk_node_interface::NudgeReason;
use lk_replica::Replica;
use lk_sim::{Event, Refused, World};
use lk_state::Machine;
use lk_types::{NodeNo, Request};

/// Executes an event that nothing rejects but want of memory or room. It goes well, unless it ends a node.
pub fn carry_out<M: Machine>(
    world: &mut World<Replica<M, MemoryDisk>>,
    event: Event,
) -> Result<(), Halt>
    requires { NeedsRoomAlone world.old event }
    ensures ok { OnOk result (GoesWell M.meaning M.IsText world.old event world.new) }
    ensures err { IfErr result (λ h. HaltsFor h world.new) }
{
    world.facts();
    match world.apply(event) {
        Ok(()) => {}
        Err(Refused::WorldMemory) => return Err(Halt::NoMemory),
        Err(Refused::WorldFull) => return Err(Halt::Full),
        Err(_) => unreachable!(),
    }
    world.facts();
    match world.last_end() {
        None => Ok(()),
        Some(end) => Err(Halt::Ended(end)),
    }
}

/// Gives a tick to a node that is up.
pub fn tick<M: Machine>(world: &mut World<Replica<M, MemoryDisk>>, node: NodeNo) -> Result<(), Halt>
    requires up { IsUp world.old.sim_nodes node }
    ensures ok { OnOk result (GoesWell M.meaning M.IsText world.old (event.Tick node) world.new) }
    ensures err { IfErr result (λ h. HaltsFor h world.new) }
{
    world.facts();
    carry_out(world, Event::Tick(node))
}

/// Nudges a node that is up, as one whose ticks are withheld.
pub fn nudge<M: Machine>(
    world: &mut World<Replica<M, MemoryDisk>>,
    node: NodeNo,
) -> Result<(), Halt>
    requires up { IsUp world.old.sim_nodes node }
    ensures ok { OnOk result (GoesWell M.meaning M.IsText world.old (event.Nudge node withheld) world.new) }
    ensures err { IfErr result (λ h. HaltsFor h world.new) }
{
    world.facts();
    carry_out(world, Event::Nudge(node, NudgeReason::TicksWithheld))
}

/// Delivers the datagram at this place to its node, which is up.
pub fn deliver<M: Machine>(
    world: &mut World<Replica<M, MemoryDisk>>,
    place: usize,
) -> Result<(), Halt>
    requires { MayBeTaken world.old place }
    ensures ok { OnOk result (GoesWell M.meaning M.IsText world.old (event.Deliver place) world.new) }
    ensures err { IfErr result (λ h. HaltsFor h world.new) }
{
    world.facts();
    carry_out(world, Event::Deliver(place))
}

/// Lets a client ask a node that is up.
pub fn ask<M: Machine>(
    world: &mut World<Replica<M, MemoryDisk>>,
    node: NodeNo,
    request: &Request,
) -> Result<(), Halt>
    requires up { IsUp world.old.sim_nodes node }
    ensures ok { OnOk result (GoesWell M.meaning M.IsText world.old (event.Client node request.now) world.new) }
    ensures err { IfErr result (λ h. HaltsFor h world.new) }
{
    world.facts();
    carry_out(world, Event::Client(node, request.copy()))
}
