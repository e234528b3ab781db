use lk_types::{ClientNo, NodeNo};

/// The sender or recipient of a datagram.
#[derive(Clone, Copy, PartialEq, Eq)]
pub enum Party {
    Node(NodeNo),
    Client(ClientNo),
}
