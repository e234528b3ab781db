use lk_types::{ClientNo, NodeNo};

/// The recipient of a datagram.
#[derive(Clone, Copy)]
pub enum To {
    /// A node and its port; port 0 if no set of the sender's window names the node.
    Node(NodeNo, u16),
    Client(ClientNo),
}
