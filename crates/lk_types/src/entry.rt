use crate::ballot::RealBallot;
use crate::command::Command;
use crate::position::Position;
use crate::vote::Vote;

/// A record that a node appends to its log, and replays when it restarts.
#[derive(Drop)]
pub enum Entry {
    /// The node promised this ballot, or began it as leader: it votes in no lower one.
    Promise(RealBallot),
    /// The node accepted this command at this position in this ballot.
    Vote(Vote),
    /// The node learned that this command is chosen at this position.
    Decided(Position, Command),
}
