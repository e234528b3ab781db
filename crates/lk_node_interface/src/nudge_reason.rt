/// Why a node is nudged.
#[derive(Clone, Copy)]
pub enum NudgeReason {
    /// Many ticks have passed since the last nudge for this reason or the next one.
    Period,
    /// As much time has passed, but ticks are withheld: the node cannot count how long it has heard of no leader.
    TicksWithheld,
    /// It was sent commands or parts of a snapshot, and may still be behind.
    Fed,
}
