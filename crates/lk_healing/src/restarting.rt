// Nodes restart, one after another.
ghost use Rattle.std.specs.Prelude.{◌≡◌, IfErr, OnOk, Contains};
ghost use Rattle.lk_sim_nodes.specs.SimNodes.{IsStarted};
ghost use Rattle.lk_world_progress.specs.Restarting.{RestartInTurn, StopsAndRestarts};
ghost use Rattle.lk_healing.specs.Halts.{HaltsFor};
ghost use Rattle.lk_healing.specs.Restarts.{AreStarted, HasStopped};

use crate::carrying_out::carry_out;
use crate::halt::Halt;
use lk_memory_disk::MemoryDisk;
use lk_replica::Replica;
use lk_sim::{Event, World};
use lk_state::Machine;
use lk_types::NodeNo;
use lk_world_progress::laws::a_restart_is_fresh;

// Stops a node if it is up: it loses what is not synced.
fn stop<M: Machine>(world: &mut World<Replica<M, MemoryDisk>>, node: NodeNo)
    requires { IsStarted world.old.sim_nodes node }
    ensures { HasStopped M.meaning M.IsText node world.old world.new }
{
    world.facts();
    let stopped = world.apply(Event::Stop(node, 0, 0));
    world.facts();
    let _ = stopped;
}

/// Restarts a node that was started. If it is up, it is stopped before that, and loses what is not synced.
pub fn restart<M: Machine>(
    world: &mut World<Replica<M, MemoryDisk>>,
    node: NodeNo,
) -> Result<(), Halt>
    requires { IsStarted world.old.sim_nodes node }
    ensures ok { OnOk result (StopsAndRestarts M.meaning M.IsText node world.old world.new) }
    ensures err { IfErr result (λ h. HaltsFor h world.new) }
{
    stop(world, node);
    world.facts();
    carry_out(world, Event::Restart(node))
}

/// Restarts each of these nodes, in order.
pub fn restart_each<M: Machine>(
    world: &mut World<Replica<M, MemoryDisk>>,
    nodes: &[NodeNo],
) -> Result<(), Halt>
    requires { AreStarted world.old nodes.now }
    ensures ok { OnOk result (RestartInTurn M.meaning M.IsText nodes.now world.old world.new) }
    ensures err { IfErr result (λ h. HaltsFor h world.new) }
{
    a_restart_is_fresh::<M>();
    'nodes: for i in 0..nodes.len() {
        restart(world, nodes[i])?;
    }
    Ok(())
}
