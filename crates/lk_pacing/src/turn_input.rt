//! The kinds of input that a turn of a server finds.

ghost use Rattle.std.specs.Prelude.{◌≡◌, ◌↔◌, IsTrue};

/// The kind of input that a turn of a server found.
#[derive(Clone, Copy, Debug)]
pub enum TurnInput {
    /// Nothing came.
    Nothing,
    /// A datagram that its replica is not given: a probe, a report, or one from a node of another genesis.
    Filtered,
    /// Input that its replica was given.
    Something,
}

impl TurnInput {
    /// Whether its replica was given something.
    pub fn is_something(self) -> bool
        ensures { IsTrue result ↔ (self ≡ TurnInput.Something) }
    {
        matches!(self, TurnInput::Something)
    }
}
