ghost use Rattle.std.specs.List.{AllByRecursion};
ghost use Rattle.lk_types.specs.Ballots.{IsBallot};
ghost use Rattle.lk_types.specs.Ranges.{IsTotal};
ghost use Rattle.lk_types.specs.Votes.{IsVote};
ghost use Rattle.lk_store_format.specs.Entries.{IsPair};

use lk_types::{Ballot, Command, Executed, Position, Vote};
use std::marker::Model;

/// What the entries of a file add up to: the state with which a node restarts.
#[derive(Drop)]
pub struct Standing {
    /// No ballot below it gets a promise or a vote any more. `Ballot::ZERO` if nothing was promised.
    pub promised: Ballot,
    /// How many positions are executed in the snapshot.
    pub position: Executed,
    /// The packed state at that position.
    pub snapshot: Vec<u8>,
    /// The votes above it, strictly rising by position.
    pub votes: Vec<Vote>,
    /// The decided commands above it, strictly rising by position.
    pub pairs: Vec<(Position, Command)>,
}

impl Model for Standing {
    ghost use Rattle.lk_store_format.specs.Values.{StandingValue};

    ghost Value = { StandingValue };

    ghost view = { λ s. record {
      promised = s.promised;
      position = s.position;
      snapshot = s.snapshot.items;
      votes = s.votes.items;
      pairs = s.pairs.items;
    } };
}

// Shows the prover that each vote is in its range. Does nothing at run time.
fn votes_facts(votes: &[Vote])
    ensures { AllByRecursion IsVote votes.now }
{
    for vote in votes {
        vote.facts();
    }
}

// Shows the prover that each pair is in its range. Does nothing at run time.
fn pairs_facts(pairs: &[(Position, Command)])
    ensures { AllByRecursion IsPair pairs.now }
{
    for each in pairs {
        let _ = each.0.get();
        each.1.facts();
    }
}

impl Standing {
    /// Shows the prover that each part is in its range. Does nothing at run time.
    pub fn facts(&self)
        ensures promised { IsBallot self.now.promised }
        ensures position { IsTotal self.now.position }
        ensures votes { AllByRecursion IsVote self.now.votes }
        ensures pairs { AllByRecursion IsPair self.now.pairs }
    {
        let _ = self.promised.round();
        let _ = self.position.get();
        votes_facts(&self.votes);
        pairs_facts(&self.pairs);
    }
}
