use crate::nudge_reason::NudgeReason;
use lk_wire::Datagram;

/// The input of a node.
#[derive(Drop)]
pub enum Input<'a> {
    /// Some time has passed.
    Tick,
    /// The node is to go on by itself, for this reason: to ask the others for what they know better, or to tell them
    /// how far it has come.
    Nudge(NudgeReason),
    /// A datagram has arrived. It may be any bytes.
    Datagram(Datagram<'a>),
}
