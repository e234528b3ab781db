use lk_node_interface::NudgeReason;
use lk_types::{NodeNo, Request};

/// One input of a group.
#[derive(Clone, Copy)]
pub enum GroupInput {
    /// A tick.
    Tick,
    /// A nudge, for this reason.
    Nudge(NudgeReason),
    /// The datagram at this place, which is addressed to the node. Places count from 1.
    Deliver(usize),
}

/// An event of a world.
#[derive(Drop)]
pub enum Event {
    /// A new node starts with two empty disks.
    Start(NodeNo),
    /// A node that is down restarts from its disks.
    Restart(NodeNo),
    /// A node takes a tick.
    Tick(NodeNo),
    /// A node is nudged, for this reason: it asks others for what they know better, or tells them how far it has come.
    Nudge(NodeNo, NudgeReason),
    /// A node that is up writes a snapshot of everything executed, which replaces the commands up to there.
    Compact(NodeNo),
    /// A client sends a request: its datagram is added to the list, addressed to the node.
    Client(NodeNo, Request),
    /// The node to which the datagram at this place is addressed takes it. Places count from 1.
    Deliver(usize),
    /// A node takes these together: their entries are synced once, and nothing is sent before that.
    Group(NodeNo, Vec<GroupInput>),
    /// A node takes bytes that no node has sent.
    Inject(NodeNo, Vec<u8>),
    /// A node stops; its disks keep up to this many of their unsynced bytes, those of A first.
    Stop(NodeNo, usize, usize),
    /// The node's count-th append, sync or cut from now fails once.
    FailAt(NodeNo, u64),
    /// A node stops at its count-th append, sync, cut or send from now. It keeps up to this many unsynced bytes of
    /// each disk, and up to this many bytes of what that call cuts.
    Arm(NodeNo, u64, usize),
}
