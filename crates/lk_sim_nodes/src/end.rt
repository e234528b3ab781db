use lk_types::NodeNo;

/// How an event ended a node.
#[derive(Clone, Copy)]
pub enum End {
    /// The replica of this node, or its restart, ended with the fault of this number. The node went down, with its
    /// disks as they were.
    Fault(NodeNo, u8),
    /// An armed stop happened at this node.
    Stopped(NodeNo),
}
