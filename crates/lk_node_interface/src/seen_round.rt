// The greatest round that a node has seen in ballots of messages, so that its next ballot exceeds them.
ghost use Rattle.std.specs.Prelude.{◌≡◌, ◌≤◌, max, MatchOption};
ghost use Rattle.lk_types.specs.Ballots.{IsBelow};
ghost use Rattle.lk_types.specs.Limits.{max_count};
ghost use Rattle.lk_node_interface.specs.Rounds.{greater_round, ballot_above};

use lk_types::limits::MAX_COUNT;
use lk_types::{Ballot, NodeNo, RealBallot, Round};
use std::marker::Model;

/// The greatest round of a ballot that was seen in a rejection, a proposal or a leader's notice: 0 to 2^48, 0 if there
/// was none.
#[derive(Clone, Copy)]
pub struct SeenRound {
    round: u64,
}

impl Model for SeenRound {
    ghost use Rattle.std.specs.Prelude.{ℕ};

    ghost Value = { ℕ };

    ghost view = { λ r. r.round };

    ghost inverse = { λ n. record { round = n } };
}

impl SeenRound {
    /// Creates the record of a node that has seen no round.
    pub fn new() -> SeenRound
        ensures { result ≡ 0 }
    {
        SeenRound { round: 0 }
    }

    /// Records a round; one that is not greater changes nothing.
    pub fn see(&mut self, round: u64)
        ensures { self.new ≡ max self.old round }
    {
        if self.round < round {
            self.round = round;
        }
    }

    /// Returns the greatest round recorded, 0 if there was none.
    pub fn get(&self) -> u64
        ensures { result ≡ self.now }
    {
        self.round
    }

    /// Returns the node's ballot in the round after the greater of this one and the promised ballot's; `None` if that
    /// exceeds 2^48.
    pub fn next_ballot(&self, promised: Ballot, node: NodeNo) -> Option<RealBallot>
        ensures { MatchOption result (max_count ≤ greater_round promised self.now)
            (λ b. (b ≡ ballot_above promised self.now node) × IsBelow promised b) }
    {
        let (promised, seen) = (promised.round(), self.get());
        let greatest = if promised < seen { seen } else { promised };
        if greatest >= MAX_COUNT {
            return None;
        }
        let round = Round::of(greatest + 1)?;
        Some(RealBallot::new(round, node))
    }
}
