//! Instructions: what a line of world mode asks for.

use lk_sim::Event;
use lk_types::NodeNo;

/// The events that a line of world mode asks for.
#[derive(Drop)]
pub enum Instruction {
    /// So many ticks of a node, each of them an event.
    Ticks(NodeNo, u16),
    /// One other event.
    Once(Event),
}
