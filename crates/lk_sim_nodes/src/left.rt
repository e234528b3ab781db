// The nodes as they are when their world ends.
ghost use Rattle.std.specs.Prelude.{◌≡◌, ◌≤◌, map, true, false, IfOk};
ghost use Rattle.lk_sim_nodes.specs.Left.{left_of, is_up};

use crate::sim_node::{RunState, SimNode};
use lk_memory_disk::MemoryDisk;
use lk_replica::MemoryReplica;
use lk_types::{NoMemory, NodeNo};
use std::alloc::Global;

/// A node at the end of its world, with its disks as they are, synced or not.
#[derive(Drop)]
pub struct LeftNode {
    pub number: NodeNo,
    pub is_up: bool,
    pub device: MemoryDisk,
}

// Takes the disks out of a node, up or down.
fn left<R: MemoryReplica>(sim_node: SimNode<R>) -> LeftNode
    ensures { result ≡ left_of R.behaves sim_node }
{
    let SimNode { number, run_state } = sim_node;
    match run_state {
        RunState::Up(replica) => LeftNode {
            number,
            is_up: true,
            device: replica.into_disks(),
        },
        RunState::Down(device) => LeftNode {
            number,
            is_up: false,
            device,
        },
    }
}

/// Returns the nodes with their disks, in order. Fails only when out of memory.
pub fn all_left<R: MemoryReplica>(
    alloc: Global,
    sim_nodes: Vec<SimNode<R>>,
) -> Result<Vec<LeftNode>, NoMemory>
    ensures { IfOk result (λ nodes. nodes.items ≡ map (left_of R.behaves) sim_nodes.items) }
{
    let mut nodes = Vec::new(alloc);
    'sim_nodes: for sim_node in sim_nodes {
        nodes.push(left(sim_node))?;
    }
    Ok(nodes)
}
