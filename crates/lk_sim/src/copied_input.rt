// An input of a group, which owns the bytes of its datagram: the group appends to the list that holds them.
ghost use Rattle.std.specs.Prelude.{◌≡◌};
ghost use Rattle.lk_sim.specs.Groups.{input_of};

use lk_node_interface::{Input, NudgeReason};
use lk_wire::Datagram;

/// An input of a group, with a copy of its datagram's bytes.
#[derive(Drop)]
pub enum CopiedInput {
    /// A tick.
    Tick,
    /// A nudge, for this reason.
    Nudge(NudgeReason),
    /// The bytes of a datagram.
    Datagram(Vec<u8>),
}

impl CopiedInput {
    /// Returns it as a node takes it.
    pub fn as_input(&self) -> Input<'_>
        ensures { result ≡ input_of self.now }
    {
        match self {
            CopiedInput::Tick => Input::Tick,
            CopiedInput::Nudge(reason) => Input::Nudge(*reason),
            CopiedInput::Datagram(bytes) => Input::Datagram(Datagram::of(bytes)),
        }
    }
}
