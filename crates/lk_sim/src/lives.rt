// Events that start, restart or stop a node, or set a trap at its device.
ghost use Rattle.std.specs.Prelude.{◌≡◌, IfErr, OnOk, OnErr};
ghost use Rattle.lk_replica.specs.Behaviours.{disks_by};
ghost use Rattle.lk_sim.specs.Events.{IsExecuted, IsAdded, IsRefused, StartWants};
ghost use Rattle.lk_sim_nodes.specs.SimNodes.{HasNo};
ghost use Rattle.lk_sim.specs.Worlds.{PartsKeepInvariant, world_state_of};
ghost use Rattle.lk_sim.specs.declared.event.Event.TheVariants as event;
ghost use Rattle.lk_sim_nodes.specs.declared.refused.Refused.TheVariants.{WorldMemory};

use crate::giving::{add, come_up};
use crate::world_parts::WorldParts;
use lk_disk::Trap;
use lk_memory_disk::MemoryDisk;
use lk_replica::MemoryReplica;
use lk_sim_nodes::{
    Refused, RunState, SimNode, carry_out_stop, find, find_down, find_up, revive, set_trap, stop,
};
use lk_types::{NoMemory, NodeNo};

// The most nodes that a world ever starts.
const MAX_NODES: usize = 16;

// Starts a node of a new number with empty disks, and appends it to the world. On an error the world is unchanged.
fn start_new_node<R: MemoryReplica>(
    parts: &mut WorldParts<R>,
    number: NodeNo,
) -> Result<(), NoMemory>
    requires unused { HasNo parts.old.sim_nodes.items number }
    requires holds { PartsKeepInvariant R.Shows (disks_by R.behaves) R.meaning parts.old }
    ensures holds { PartsKeepInvariant R.Shows (disks_by R.behaves) R.meaning parts.new }
    ensures ok { OnOk result (IsAdded R.behaves (world_state_of parts.old) (world_state_of parts.new) number) }
    ensures err { OnErr result (world_state_of parts.new ≡ world_state_of parts.old) }
    // Memory ran out for the node's place, before its start, or for the result of its start.
    ensures wants { OnErr result (StartWants R.behaves parts.old.genesis number parts.old.sim_nodes) }
{
    let run_state = RunState::Down(MemoryDisk::new(parts.alloc));
    let mut sim_node = SimNode { number, run_state };
    // Room for the node comes first, so that nothing can fail once its notes are added.
    parts.sim_nodes.reserve(1)?;
    let outcome = revive(parts.alloc, &mut sim_node, &parts.genesis)?;
    let at = outcome.stop;
    add(parts, None, outcome)?;
    carry_out_stop(parts.alloc, &mut sim_node, at);
    parts.sim_nodes.push(sim_node).unwrap();
    Ok(())
}

/// Starts a new node with two empty disks. One that was ever started is rejected, and so is a 17th.
pub fn start<R: MemoryReplica>(parts: &mut WorldParts<R>, number: NodeNo) -> Result<(), Refused>
    requires { PartsKeepInvariant R.Shows (disks_by R.behaves) R.meaning parts.old }
    ensures holds { PartsKeepInvariant R.Shows (disks_by R.behaves) R.meaning parts.new }
    ensures ok { OnOk result (IsExecuted R.behaves (world_state_of parts.old) (event.Start number)
        (world_state_of parts.new)) }
    ensures err { IfErr result
        (λ e. IsRefused R.behaves (world_state_of parts.old) (event.Start number) e (world_state_of parts.new)) }
    ensures wants { IfErr result
        (λ e. e ≡ WorldMemory → StartWants R.behaves parts.old.genesis number parts.old.sim_nodes) }
{
    if let Some(_) = find(&parts.sim_nodes, number) {
        return Err(Refused::AlreadyUp);
    }
    if parts.sim_nodes.len() >= MAX_NODES {
        return Err(Refused::WorldFull);
    }
    start_new_node(parts, number)?;
    Ok(())
}

/// Restarts a node that is down from its disks.
pub fn restart<R: MemoryReplica>(parts: &mut WorldParts<R>, number: NodeNo) -> Result<(), Refused>
    requires { PartsKeepInvariant R.Shows (disks_by R.behaves) R.meaning parts.old }
    ensures holds { PartsKeepInvariant R.Shows (disks_by R.behaves) R.meaning parts.new }
    ensures ok { OnOk result (IsExecuted R.behaves (world_state_of parts.old) (event.Restart number)
        (world_state_of parts.new)) }
    ensures err { IfErr result
        (λ e. IsRefused R.behaves (world_state_of parts.old) (event.Restart number) e (world_state_of parts.new)) }
{
    let i = find_down(&parts.sim_nodes, number)?;
    come_up(parts, i)?;
    Ok(())
}

/// Stops a node that is up; its disks A and B keep up to `x` and `y` of their unsynced bytes.
pub fn halt<R: MemoryReplica>(
    parts: &mut WorldParts<R>,
    number: NodeNo,
    x: usize,
    y: usize,
) -> Result<(), Refused>
    requires { PartsKeepInvariant R.Shows (disks_by R.behaves) R.meaning parts.old }
    ensures holds { PartsKeepInvariant R.Shows (disks_by R.behaves) R.meaning parts.new }
    ensures ok { OnOk result (IsExecuted R.behaves (world_state_of parts.old) (event.Stop number x y)
        (world_state_of parts.new)) }
    ensures err { IfErr result
        (λ e. IsRefused R.behaves (world_state_of parts.old) (event.Stop number x y) e (world_state_of parts.new)) }
{
    let i = find_up(&parts.sim_nodes, number)?;
    stop(parts.alloc, &mut parts.sim_nodes[i], x, y);
    parts.ended = None;
    Ok(())
}

/// Makes the count-th append, sync or cut from now of the node's device fail once. It replaces a pending trap.
pub fn fail_at<R: MemoryReplica>(
    parts: &mut WorldParts<R>,
    number: NodeNo,
    count: u64,
) -> Result<(), Refused>
    requires { PartsKeepInvariant R.Shows (disks_by R.behaves) R.meaning parts.old }
    ensures holds { PartsKeepInvariant R.Shows (disks_by R.behaves) R.meaning parts.new }
    ensures ok { OnOk result (IsExecuted R.behaves (world_state_of parts.old) (event.FailAt number count)
        (world_state_of parts.new)) }
    ensures err { IfErr result
        (λ e. IsRefused R.behaves (world_state_of parts.old) (event.FailAt number count) e (world_state_of parts.new)) }
{
    let i = find(&parts.sim_nodes, number).ok_or(Refused::NoSuchNode)?;
    set_trap(&mut parts.sim_nodes[i], Trap::Fail(count));
    parts.ended = None;
    Ok(())
}

/// Makes the node stop at its count-th append, sync, cut or send from now. It replaces a pending trap.
pub fn arm<R: MemoryReplica>(
    parts: &mut WorldParts<R>,
    number: NodeNo,
    count: u64,
    bytes: usize,
) -> Result<(), Refused>
    requires { PartsKeepInvariant R.Shows (disks_by R.behaves) R.meaning parts.old }
    ensures holds { PartsKeepInvariant R.Shows (disks_by R.behaves) R.meaning parts.new }
    ensures ok { OnOk result (IsExecuted R.behaves (world_state_of parts.old) (event.Arm number count bytes)
        (world_state_of parts.new)) }
    ensures err { IfErr result
        (λ e. IsRefused R.behaves (world_state_of parts.old) (event.Arm number count bytes) e
        (world_state_of parts.new)) }
{
    let i = find(&parts.sim_nodes, number).ok_or(Refused::NoSuchNode)?;
    set_trap(&mut parts.sim_nodes[i], Trap::Arm(count, bytes));
    parts.ended = None;
    Ok(())
}
