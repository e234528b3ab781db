// Makes a node replace the commands that it has executed with a snapshot.
ghost use Rattle.std.specs.Prelude.{ℕ, IfErr, OnOk, OnErr};
ghost use Rattle.lk_replica.specs.Behaviours.{disks_by};
ghost use Rattle.lk_sim_nodes.specs.SimNodes.{IsUpAt};
ghost use Rattle.lk_sim.specs.Events.{IsExecuted, IsCompacted, IsHalted, IsRefused, LeftByCompacting};
ghost use Rattle.lk_sim.specs.Worlds.{PartsKeepInvariant, world_state_of};
ghost use Rattle.lk_sim.specs.declared.event.Event.TheVariants as event;

use crate::giving::finish_call;
use crate::world_parts::WorldParts;
use lk_replica::MemoryReplica;
use lk_sim_nodes::{Refused, compact_node, find_up};
use lk_types::{NoMemory, NodeNo};

// Compacts the node at place `i`, which is up.
fn compact_at<R: MemoryReplica>(parts: &mut WorldParts<R>, i: usize) -> Result<(), NoMemory>
    requires up { (n : ℕ) × IsUpAt parts.old.sim_nodes.items i n }
    requires holds { PartsKeepInvariant R.Shows (disks_by R.behaves) R.meaning parts.old }
    ensures holds { PartsKeepInvariant R.Shows (disks_by R.behaves) R.meaning parts.new }
    ensures compacted { (n : ℕ) → IsUpAt parts.old.sim_nodes.items i n
        → OnOk result (IsCompacted R.behaves (world_state_of parts.old) (world_state_of parts.new) n) }
    ensures halted { (n : ℕ) → IsUpAt parts.old.sim_nodes.items i n
        → OnErr result (IsHalted (LeftByCompacting R.behaves) (world_state_of parts.old) (world_state_of parts.new) n) }
{
    let outcome = compact_node(parts.alloc, &mut parts.sim_nodes[i])?;
    finish_call(parts, i, None, outcome)?;
    Ok(())
}

/// Makes a node that is up write a snapshot of everything that it has executed.
pub fn compact<R: MemoryReplica>(parts: &mut WorldParts<R>, number: NodeNo) -> Result<(), Refused>
    requires { PartsKeepInvariant R.Shows (disks_by R.behaves) R.meaning parts.old }
    ensures holds { PartsKeepInvariant R.Shows (disks_by R.behaves) R.meaning parts.new }
    ensures ok { OnOk result (IsExecuted R.behaves (world_state_of parts.old) (event.Compact number)
        (world_state_of parts.new)) }
    ensures err { IfErr result
        (λ e. IsRefused R.behaves (world_state_of parts.old) (event.Compact number) e (world_state_of parts.new)) }
{
    let i = find_up(&parts.sim_nodes, number)?;
    compact_at(parts, i)?;
    Ok(())
}
