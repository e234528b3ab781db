ghost use Rattle.std.specs.Prelude.{◌≡◌};
ghost use Rattle.lk_types.specs.Votes.{IsVote};

use crate::ballot::RealBallot;
use crate::command::Command;
use crate::position::Position;

/// A command for a position in a ballot: what a leader proposes and an acceptor votes for.
#[derive(Debug, PartialEq, Eq, Drop)]
pub struct Vote {
    pub position: Position,
    pub ballot: RealBallot,
    pub command: Command,
}

impl Vote {
    /// The same vote. Takes no memory.
    pub fn copy(&self) -> Vote
        ensures { result ≡ self.now }
    {
        Vote {
            position: self.position,
            ballot: self.ballot,
            command: self.command.copy(),
        }
    }

    /// Shows the prover that each part is in its range. Does nothing at run time.
    pub fn facts(&self)
        ensures { IsVote self.now }
    {
        let _ = self.position.get();
        let _ = self.ballot.get();
        self.command.facts();
    }
}
