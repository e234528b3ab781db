ghost use Rattle.std.specs.Prelude.{◌≡◌, ◌≤◌, ◌↔◌, ℕ, IsSome, IfSome, IsTrue};
ghost use Rattle.lk_types.specs.Ranges.{IsNode, IsCount};
ghost use Rattle.lk_types.specs.Ballots.{IsBelow, IsBallot, IsRealBallot, is_below};

use crate::node::NodeNo;
use crate::round::Round;
use std::marker::Model;

/// A ballot: a round and the node that leads it, ordered by round and then by node, so that no two nodes share one
/// (Lamport 2001, section 2.4). `ZERO` is below all others and belongs to nobody.
#[derive(Clone, Copy, Debug, PartialEq, Eq, PartialOrd, Ord)]
pub struct Ballot {
    round: u64,
    node: u32,
}

impl Model for Ballot {
    ghost use Rattle.lk_types.specs.BallotValue.{BallotValue};
    ghost use Rattle.lk_types.specs.Ballots.{IsBallot};

    ghost Value = { BallotValue };

    ghost view = { λ b. record { round = b.round; node = b.node } };

    ghost invariant = { λ b. IsBallot (record { round = b.round; node = b.node }) };

    ghost inverse = { λ b. record { round = b.round; node = b.node } };
}

impl Ballot {
    /// Below all real ballots: the promise of an acceptor that has promised nothing.
    pub const ZERO: Ballot = Ballot { round: 0, node: 0 };

    /// The ballot of a node (1 to 2^31) in a round (1 to 2^48), or `None` if either is out of range.
    pub fn of(round: u64, node: u32) -> Option<Ballot>
        ensures some { IsSome result ↔ IsRealBallot (record { round = round; node = node }) }
        ensures value { IfSome result (λ b. b ≡ record { round = round; node = node }) }
    {
        let round = Round::of(round)?;
        let node = NodeNo::of(node)?;
        Some(Ballot {
            round: round.get(),
            node: node.get(),
        })
    }

    /// The round, 0 for `ZERO`.
    pub fn round(self) -> u64
        ensures value { result ≡ self.round }
        ensures in_range { IsBallot self }
    {
        self.round
    }

    /// The number of the node, 0 for `ZERO`.
    pub fn node(self) -> u32
        ensures value { result ≡ self.node }
        ensures in_range { IsBallot self }
    {
        self.node
    }

    /// Whether it is below another: its round is smaller, or the rounds are equal and its node is.
    pub fn is_below(self, other: Ballot) -> bool
        ensures order { IsTrue result ↔ IsBelow self other }
        ensures test { result ≡ is_below self other }
    {
        self < other
    }
}

/// A ballot that a node can lead: any except `Ballot::ZERO`.
#[derive(Clone, Copy, Debug, PartialEq, Eq)]
pub struct RealBallot {
    ballot: Ballot,
}

impl Model for RealBallot {
    ghost use Rattle.lk_types.specs.BallotValue.{BallotValue};
    ghost use Rattle.lk_types.specs.Ballots.{IsRealBallot};

    ghost Value = { BallotValue };

    ghost view = { λ b. b.ballot };

    ghost invariant = { λ b. IsRealBallot b.ballot };

    ghost inverse = { λ b. record { ballot = b } };
}

impl RealBallot {
    /// The ballot of that node in that round.
    pub fn new(round: Round, node: NodeNo) -> RealBallot
        ensures { result ≡ record { round = round; node = node } }
    {
        let ballot = Ballot {
            round: round.get(),
            node: node.get(),
        };
        RealBallot { ballot }
    }

    /// The ballot, or `None` for `Ballot::ZERO`.
    pub fn of(ballot: Ballot) -> Option<RealBallot>
        ensures some { IsSome result ↔ IsRealBallot ballot }
        ensures value { IfSome result (λ b. b ≡ ballot) }
    {
        if ballot.round() == 0 {
            return None;
        }
        Some(RealBallot { ballot })
    }

    /// The same as a `Ballot`, to compare with `Ballot::ZERO` and with what was promised.
    pub fn get(self) -> Ballot
        ensures value { result ≡ self }
        ensures real { IsRealBallot self }
    {
        self.ballot
    }
}
