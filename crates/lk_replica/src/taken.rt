// The results of calls that take inputs.
use crate::datagram::Datagram;
use lk_node_interface::Note;

/// The result of a call that takes one input: its notes, and the datagrams that it sent, in order.
#[derive(Drop)]
pub struct Taken {
    pub notes: Vec<Note>,
    pub sent: Vec<Datagram>,
}

/// The notes of one step of a group, and how many of the group's datagrams are its own: they follow those of the steps
/// before it.
#[derive(Drop)]
pub struct Step {
    pub notes: Vec<Note>,
    pub sends: usize,
}

/// The result of a group: its steps, and the datagrams that it sent, in order, those of the first step first.
#[derive(Drop)]
pub struct TakenAll {
    pub steps: Vec<Step>,
    pub sent: Vec<Datagram>,
}
