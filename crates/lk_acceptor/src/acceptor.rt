ghost use Rattle.std.specs.Prelude.{◌≡◌, ◌<◌, ◌≤◌, ◌⊎◌, ◌↔◌, Contains, Some, None, IsTrue, OnOk, OnErr, IfOk};
ghost use Rattle.std.specs.List.{AllByRecursion};
ghost use Rattle.lk_types.specs.Ballots.{IsBelow, IsAtMost};
ghost use Rattle.lk_types.specs.Ranges.{IsAlpha};
ghost use Rattle.lk_types.specs.Votes.{IsVote};
ghost use Rattle.lk_types.specs.declared.entry.Entry.TheVariants as entry;
ghost use Rattle.lk_types.specs.declared.vote.Vote.{Vote as VoteValue};
ghost use Rattle.lk_agreement_laws.specs.Changes.{with_promise};
ghost use Rattle.lk_acceptor.specs.Replies.{GrantsPrepare, GrantsAccept, Refuses, RepliesToPrepare, RepliesToAccept};
ghost use Rattle.lk_acceptor.specs.VoteLists.{HasVoteFrom};
ghost use Rattle.lk_acceptor.specs.States.{IsOrdered, IsAcceptor, with_vote, without_votes_to, with_state};

use crate::response::Response;
use crate::votes::{agree, forget_to, holds, lie_below, votes_from};
use lk_messages::{Nack, NodeMessage, Promise};
use lk_store_format::keep_vote;
use lk_types::{Ballot, Entry, Executed, NoMemory, Position, RealBallot, Vote};
use std::alloc::Global;
use std::marker::Model;

/// What a node promised and voted for: one promised ballot for all positions, and above the snapshot the vote of
/// greatest ballot at each position.
#[derive(Drop)]
pub struct Acceptor {
    alloc: Global,
    alpha: u8,
    promised: Ballot,
    votes: Vec<Vote>,
    snapshot_position: Executed,
}

impl Model for Acceptor {
    ghost use Rattle.std.specs.List.{AllByRecursion};
    ghost use Rattle.lk_types.specs.Ranges.{IsAlpha};
    ghost use Rattle.lk_types.specs.Votes.{IsVote};
    ghost use Rattle.lk_acceptor.specs.AcceptorValue.{AcceptorValue};
    ghost use Rattle.lk_acceptor.specs.States.{IsOrdered};

    ghost Value = { AcceptorValue };

    ghost view = { λ a. record {
      alpha = a.alpha;
      state = record { promised = a.promised; votes = a.votes.items; snapshot_position = a.snapshot_position };
    } };

    ghost invariant = { λ a. IsAlpha a.alpha × AllByRecursion IsVote a.votes.items
        × IsOrdered (record {
          promised = a.promised;
          votes = a.votes.items;
          snapshot_position = a.snapshot_position;
        }) };
}

// Shows the prover that each vote is in its range. Does nothing at run time.
fn votes_facts(votes: &[Vote])
    ensures { AllByRecursion IsVote votes.now }
{
    for vote in votes {
        vote.facts();
    }
}

impl Acceptor {
    /// Creates an acceptor from what its store holds. The votes are above the snapshot, strictly rising by position,
    /// and in ballots up to the promised one. The members are known `alpha` positions ahead, 1 to 64.
    pub fn new(
        alloc: Global,
        alpha: u8,
        promised: Ballot,
        votes: Vec<Vote>,
        snapshot_position: Executed,
    ) -> Acceptor
        requires alpha { IsAlpha alpha }
        requires kept { IsOrdered
            (record { promised = promised; votes = votes.items; snapshot_position = snapshot_position }) }
        ensures { result ≡ record {
          alpha = alpha;
          state = record { promised = promised; votes = votes.items; snapshot_position = snapshot_position };
        } }
    {
        votes_facts(&votes);
        Acceptor {
            alloc,
            alpha,
            promised,
            votes,
            snapshot_position,
        }
    }

    /// The promised ballot: none below it gets a promise or a vote any more.
    pub fn promised(&self) -> Ballot
        ensures { result ≡ self.now.state.promised }
    {
        self.promised
    }

    /// The kept votes, strictly rising by position, all above the snapshot.
    pub fn votes(&self) -> &[Vote]
        ensures { result.now ≡ self.now.state.votes }
    {
        &self.votes
    }

    /// How many positions the snapshot has replaced.
    pub fn snapshot_position(&self) -> Executed
        ensures { result ≡ self.now.state.snapshot_position }
    {
        self.snapshot_position
    }

    /// Shows the prover that each part is in its range, and the votes in order. Does nothing at run time.
    pub fn facts(&self)
        ensures { IsAcceptor self.now }
    {
        let _ = self.promised.round();
        let _ = self.snapshot_position.get();
    }

    // Whether a Prepare gets a Promise: its ballot is at least the promised one, `first` is above the snapshot, and
    // each vote is less than 2 alpha above `first`, so at most 2 alpha votes are reported.
    fn grants_prepare(&self, ballot: RealBallot, first: Position) -> bool
        ensures { IsTrue result ↔ GrantsPrepare self.now ballot first }
    {
        let end = first.get() + 2 * u64::from(self.alpha);
        if ballot.get().is_below(self.promised) || self.snapshot_position.get() >= first.get() {
            return false;
        }
        lie_below(&self.votes, end)
    }

    // Whether an Accept gets an Accepted: its ballot is at least the promised one, its position is above the snapshot
    // and at most 2 alpha above what is executed, and no vote of its ballot has another command there.
    fn grants_accept(&self, vote: &Vote, executed: Executed) -> bool
        ensures { IsTrue result ↔ GrantsAccept self.now executed vote.now }
    {
        let last = executed.get() + 2 * u64::from(self.alpha);
        if vote.ballot.get().is_below(self.promised)
            || self.snapshot_position.get() >= vote.position.get()
            || vote.position.get() > last
        {
            return false;
        }
        agree(&self.votes, vote)
    }

    // Returns a Nack of the ballot, with the promised ballot and how many positions are executed, and no entry.
    fn refusal(&self, ballot: RealBallot, executed: Executed) -> Response
        ensures { Refuses self.now executed ballot result self.now }
    {
        let nack = Nack {
            ballot,
            promised: self.promised,
            executed,
        };
        Response {
            reply: NodeMessage::Nack(nack),
            entry: None,
        }
    }

    // Promises a ballot that is not below the promised one. Returns the entry to write, `None` if it was promised
    // already.
    fn promise_ballot(&mut self, ballot: RealBallot) -> Option<Entry>
        requires { IsAtMost self.old.state.promised ballot }
        ensures entry { (IsBelow self.old.state.promised ballot × (result ≡ Some (entry.Promise ballot)))
            ⊎ ((self.old.state.promised ≡ ballot) × (result ≡ None)) }
        ensures state { self.new ≡ with_state self.old (with_promise self.old.state ballot) }
    {
        if !self.promised.is_below(ballot.get()) {
            return None;
        }
        Some(self.own(ballot))
    }

    // Keeps a vote that is granted, and promises its ballot. Returns the entry to write, `None` if it was kept already.
    // A failed call changes nothing.
    fn vote(&mut self, vote: &Vote) -> Result<Option<Entry>, NoMemory>
        requires ballot { IsAtMost self.old.state.promised vote.now.ballot }
        requires above { self.old.state.snapshot_position < vote.now.position }
        ensures entry { IfOk result
            (λ e. (Contains self.old.state.votes vote.now × (e ≡ None))
            ⊎ ((Contains self.old.state.votes vote.now → ⊥) × (e ≡ Some (entry.Vote vote.now)))) }
        ensures state { OnOk result (self.new ≡ with_state self.old (with_vote self.old.state vote.now)) }
        ensures err { OnErr result (self.new ≡ self.old) }
        ensures memory { OnErr result (Contains self.old.state.votes vote.now → ⊥) }
    {
        if holds(&self.votes, vote) {
            return Ok(None);
        }
        vote.facts();
        keep_vote(&mut self.votes, vote.copy())?;
        self.promised = vote.ballot.get();
        Ok(Some(Entry::Vote(vote.copy())))
    }

    /// Responds to a Prepare, given how many positions are executed: a Promise of at most twice alpha votes, or a
    /// Nack. An error changes nothing.
    pub fn prepare(
        &mut self,
        ballot: RealBallot,
        first: Position,
        executed: Executed,
    ) -> Result<Response, NoMemory>
        ensures reply { IfOk result (λ r. RepliesToPrepare self.old executed ballot first r self.new) }
        ensures err { OnErr result (self.new ≡ self.old) }
        ensures memory { OnErr result (GrantsPrepare self.old ballot first) }
        ensures some { OnErr result (HasVoteFrom first self.old.state.votes) }
    {
        if !self.grants_prepare(ballot, first) {
            return Ok(self.refusal(ballot, executed));
        }
        let votes = votes_from(self.alloc, &self.votes, first)?;
        let promise = Promise::of(ballot, first, votes).unwrap();
        let entry = self.promise_ballot(ballot);
        Ok(Response {
            reply: NodeMessage::Promise(promise),
            entry,
        })
    }

    /// Responds to an Accept of a vote, given how many positions are executed: an Accepted or a Nack. An error changes
    /// nothing.
    pub fn accept(&mut self, vote: Vote, executed: Executed) -> Result<Response, NoMemory>
        ensures reply { IfOk result (λ r. RepliesToAccept self.old executed vote r self.new) }
        ensures err { OnErr result (self.new ≡ self.old) }
        ensures memory { OnErr result (GrantsAccept self.old executed vote × (Contains self.old.state.votes vote → ⊥)) }
    {
        if !self.grants_accept(&vote, executed) {
            return Ok(self.refusal(vote.ballot, executed));
        }
        let entry = self.vote(&vote)?;
        Ok(Response {
            reply: NodeMessage::Accepted(vote),
            entry,
        })
    }

    /// Promises a ballot above the promised one, such as one that the node begins itself, and returns the entry to
    /// write. Takes no memory.
    pub fn own(&mut self, ballot: RealBallot) -> Entry
        requires { IsBelow self.old.state.promised ballot }
        ensures entry { result ≡ entry.Promise ballot }
        ensures state { self.new ≡ with_state self.old (with_promise self.old.state ballot) }
    {
        self.promised = ballot.get();
        Entry::Promise(ballot)
    }

    /// Forgets the votes up to a position, which a snapshot replaces, and records it as the snapshot's. Takes no
    /// memory.
    pub fn forget(&mut self, position: Executed)
        requires { self.old.state.snapshot_position ≤ position }
        ensures { self.new ≡ with_state self.old (without_votes_to self.old.state position) }
    {
        forget_to(&mut self.votes, position);
        self.snapshot_position = position;
    }
}
