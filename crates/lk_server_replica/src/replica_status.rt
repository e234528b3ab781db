//! A summary of a replica's state, which a server compares before and after a step for its log and events, and to see
//! whether the step has fed the replica.

use lk_types::{Executed, NodeNo, RealBallot};

/// A summary of a replica's state between two steps, for a server's log and events.
#[derive(Clone, Copy)]
pub struct ReplicaStatus {
    /// The generation of its store.
    pub generation: u64,
    /// The position of its snapshot.
    pub snapshot: Executed,
    /// How many positions it has executed.
    pub executed: Executed,
    /// How many bytes of another node's snapshot it has gathered.
    pub gathered: u32,
    /// The ballot of its term, if it has one.
    pub term: Option<RealBallot>,
    /// The node that it takes for the leader.
    pub known: Option<NodeNo>,
    /// How many ticks it has taken since it heard of a leader: 28 at most, where the count stays.
    pub silence: u64,
}
