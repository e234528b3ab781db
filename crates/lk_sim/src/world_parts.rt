use lk_node_interface::Note;
use lk_replica::Datagram;
use lk_sim_nodes::{End, SimNode};
use lk_types::Genesis;
use std::alloc::Global;

/// The parts of a world: the nodes that were ever started, everything that was ever sent, the trace, and how the last
/// event ended a node.
#[derive(Drop)]
pub struct WorldParts<R: Drop> {
    pub alloc: Global,
    pub genesis: Genesis,
    pub sim_nodes: Vec<SimNode<R>>,
    pub sent: Vec<Datagram>,
    pub trace: Vec<Note>,
    pub ended: Option<End>,
}
