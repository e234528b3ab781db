use lk_types::{Position, RealBallot};

/// What a candidate asks of the nodes of its window: a promise of its ballot, from its next position on.
#[derive(Clone, Copy)]
pub struct Asking {
    /// The number of the cluster.
    pub cluster: u64,
    pub ballot: RealBallot,
    pub first: Position,
}
