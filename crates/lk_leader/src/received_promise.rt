ghost use Rattle.std.specs.Prelude.{◌≡◌, ◌≤◌, ◌==◌, ◌++◌, ◌∷◌, ◌&&◌, [], nat_le, IfOk, IsTrue, Some, List, Option};
ghost use Rattle.std.specs.List.{list_any};
ghost use Rattle.lk_members.specs.Rosters.{is_member};
ghost use Rattle.lk_leader.specs.Values.{PromisedVote as ReportedVoteValue, IsBest, promised_by};

use crate::promised_vote::{PromisedVote, better};
use lk_messages::Votes;
use lk_types::{Members, NoMemory, NodeNo, Position, Vote};
use std::alloc::Global;
use std::marker::Model;

// A promise as the leader keeps it: its node, and the votes that it reports at positions from `first` on.
#[derive(Drop)]
pub(crate) struct ReceivedPromise {
    pub(crate) node: NodeNo,
    pub(crate) first: Position,
    pub(crate) votes: Vec<Vote>,
}

impl Model for ReceivedPromise {
    ghost use Rattle.lk_agreement_laws.specs.Soundness.{ReceivedPromise as ReceivedPromiseValue};

    ghost Value = { ReceivedPromiseValue };

    ghost view = { λ r. record { node = r.node; first = r.first; votes = r.votes.items } };
}

impl ReceivedPromise {
    // Creates a received promise with a copy of the votes.
    pub(crate) fn of(
        alloc: Global,
        node: NodeNo,
        first: Position,
        votes: &Votes<'_>,
    ) -> Result<ReceivedPromise, NoMemory>
        ensures { IfOk result (λ r. r ≡ record { node = node; first = first; votes = votes.now }) }
    {
        let votes = votes.to_vec(alloc)?;
        Ok(ReceivedPromise { node, first, votes })
    }

    // Returns the highest of `best` and the votes that this promise reports at the position.
    pub(crate) fn best_vote(
        &self,
        position: Position,
        best: Option<PromisedVote>,
    ) -> Option<PromisedVote>
        ensures { (ts : List ReportedVoteValue) → IsBest ts best → IsBest (ts ++ promised_by position self.now) result }
    {
        let mut best = best;
        for vote in &self.votes {
            if vote.position == position {
                best = better(best, self.node, vote);
            }
        }
        best
    }

    // Whether it reports a vote at the position or a later one.
    pub(crate) fn has_vote_from(&self, position: Position) -> bool
        ensures { result ≡ list_any (λ x. nat_le position x.position) self.now.votes }
    {
        self.votes.iter().any(|vote| position <= vote.position)
    }

    // Whether this node gave it, and its `first` is at most the position.
    pub(crate) fn is_from(&self, node: NodeNo, position: Position) -> bool
        ensures { result ≡ (self.now.node == node && nat_le self.now.first position) }
    {
        self.node == node && self.first <= position
    }

    // Whether its votes count at a position with these members: a member gave it, and its `first` is at most the
    // position.
    pub(crate) fn speaks_for(&self, position: Position, set: &Members) -> bool
        ensures { result ≡ (is_member self.now.node set.now && nat_le self.now.first position) }
    {
        is_one_of(set, self.node) && self.first <= position
    }
}

/// Whether the node is one of the members.
pub fn is_one_of(set: &Members, node: NodeNo) -> bool
    ensures { result ≡ is_member node set.now }
{
    set.as_slice().iter().any(|member| member.node == node)
}
