ghost use Rattle.std.specs.Prelude.{◌≡◌, ◌≤◌, ◌-◌, ◌↔◌, length, IsSome, IfSome, IfOk, IsTrue};
ghost use Rattle.std.specs.List.{AllByRecursion};
ghost use Rattle.lk_types.specs.Votes.{IsVote, are_votes_above};
ghost use Rattle.lk_codec.specs.FieldReading.{read_vote};
ghost use Rattle.lk_codec.specs.Parser.{Finds, made, many};
ghost use Rattle.lk_messages.specs.Reading.{read_promise};
ghost use Rattle.lk_messages.specs.Values.{IsPromise, are_votes_from};
ghost use Rattle.lk_messages.specs.Views.{votes_in, AreVotes};

use lk_codec::{front_of, read_ballot, read_position, read_u8, read_vote, skip_vote};
use lk_types::limits::MAX_VOTES;
use lk_types::{NoMemory, Position, RealBallot, Vote};
use std::alloc::Global;
use std::marker::Model;

/// An acceptor's reply to a Prepare: it will take part in no smaller ballot, and these are the votes that it keeps
/// from `first` on (Lamport 2001, section 2.2, phase 1b).
#[derive(Debug, Drop)]
pub struct Promise {
    ballot: RealBallot,
    first: Position,
    votes: Vec<Vote>,
}

impl Model for Promise {
    ghost use Rattle.lk_messages.specs.Values.{PromiseValue, IsPromise};

    ghost Value = { PromiseValue };

    ghost view = { λ p. record { ballot = p.ballot; first = p.first; votes = p.votes.items } };

    ghost invariant = { λ p. IsPromise (record { ballot = p.ballot; first = p.first; votes = p.votes.items }) };
}

// Shows the prover that each vote is in its range. Does nothing at run time.
fn votes_facts(votes: &[Vote])
    ensures { AllByRecursion IsVote votes.now }
{
    for vote in votes {
        vote.facts();
    }
}

// Whether there are at most 128 votes, strictly rising by position, all at `first` or above.
fn are_from(first: Position, votes: &[Vote]) -> bool
    ensures { result ≡ are_votes_from first votes.now }
{
    if votes.len() > MAX_VOTES {
        return false;
    }
    let mut low = first.get() - 1; // so that `first` itself passes
    for vote in votes {
        let position = vote.position.get();
        if position <= low {
            return false;
        }
        low = position;
    }
    true
}

impl Promise {
    /// The promise, or `None` if there are more than 128 votes, or they do not rise strictly by position or begin below
    /// `first`.
    pub fn of(ballot: RealBallot, first: Position, votes: Vec<Vote>) -> Option<Promise>
        ensures some { IsSome result ↔ IsTrue (are_votes_from first votes.items) }
        ensures value { IfSome result (λ p. p ≡ record { ballot = ballot; first = first; votes = votes.items }) }
    {
        let _ = ballot.get();
        votes_facts(&votes);
        if !are_from(first, &votes) {
            return None;
        }
        Some(Promise {
            ballot,
            first,
            votes,
        })
    }

    /// The ballot, the first position and the votes.
    pub fn fields(&self) -> (RealBallot, Position, &[Vote])
        ensures ballot { result.0 ≡ self.now.ballot }
        ensures first { result.1 ≡ self.now.first }
        ensures votes { result.2.now ≡ self.now.votes }
    {
        (self.ballot, self.first, &self.votes)
    }

    /// Shows the prover that each part is in its range and the votes rise from `first` on. Does nothing at run time.
    pub fn facts(&self)
        ensures { IsPromise self.now }
    {
        let _first = self.first;
    }
}

/// Votes in a datagram, one after another: their count, and exactly the bytes that spell them. A contract sees the
/// list of them.
#[derive(Drop)]
pub struct Votes<'a> {
    count: u8,
    bytes: &'a [u8],
}

impl<'a> Model for Votes<'a> {
    ghost use Rattle.std.specs.Prelude.{List};
    ghost use Rattle.lk_types.specs.declared.vote.Vote.{Vote};
    ghost use Rattle.lk_messages.specs.Views.{votes_in, AreVotes};

    ghost Value = { List Vote };

    ghost view = { λ v. votes_in v.count v.bytes.now };

    ghost invariant = { λ v. AreVotes v.count v.bytes.now };
}

// Skips this many votes. Returns whether they rise strictly by position, the first above `low`, and the bytes after
// them.
fn end_of(count: u8, low: u64, bytes: &[u8]) -> Option<(bool, &[u8])>
    ensures { Finds (λ x. (x.0, x.1.now)) result (made (are_votes_above low) (many read_vote count) bytes.now) }
{
    let mut low = low;
    let mut rising = true;
    let mut rest = bytes;
    for _ in 0..count {
        let Some(found) = skip_vote(rest) else {
            return None;
        };
        let position = found.0.get();
        rising = rising && low < position;
        low = position;
        rest = found.1;
    }
    Some((rising, rest))
}

impl<'a> Votes<'a> {
    // Reads this many votes in place. Returns them, whether they rise strictly by position, the first above `low`, and
    // the bytes after them.
    fn of(count: u8, low: u64, bytes: &'a [u8]) -> Option<(Votes<'a>, bool, &'a [u8])>
        ensures found { Finds (λ x. (x.0, x.2.now)) result (many read_vote count bytes.now) }
        ensures rising { IfSome result (λ x. x.1 ≡ are_votes_above low x.0) }
        ensures count { IfSome result (λ x. length x.0 ≡ count) }
    {
        let (rising, rest) = end_of(count, low, bytes)?;
        let bytes = front_of(bytes, rest);
        Some((Votes { count, bytes }, rising, rest))
    }

    /// Copies all of them, in order, into a list.
    pub fn to_vec(&self, alloc: Global) -> Result<Vec<Vote>, NoMemory>
        ensures { IfOk result (λ vs. vs.items ≡ self.now) }
    {
        let (count, mut rest) = (self.count, self.bytes);
        let mut list = Vec::new(alloc);
        list.reserve(count as usize)?;
        for _ in 0..count {
            let Some((vote, after)) = read_vote(rest) else {
                unreachable!()
            };
            list.push(vote)?;
            rest = after;
        }
        Ok(list)
    }
}

/// A Promise in a datagram. A contract sees it as the Promise.
#[derive(Drop)]
pub struct PromiseRef<'a> {
    ballot: RealBallot,
    first: Position,
    votes: Votes<'a>,
}

impl<'a> Model for PromiseRef<'a> {
    ghost use Rattle.std.specs.Prelude.{IsTrue};
    ghost use Rattle.lk_messages.specs.Values.{PromiseValue, are_votes_from};

    ghost Value = { PromiseValue };

    ghost view = { λ p. record { ballot = p.ballot; first = p.first; votes = p.votes } };

    ghost invariant = { λ p. IsTrue (are_votes_from p.first p.votes) };
}

impl<'a> PromiseRef<'a> {
    /// Reads the Promise at the start of the bytes in place, and returns it with the bytes after it.
    #[tactic(auto, unfolding(crate::specs::Reading::read_promise, crate::specs::Reading::read_votes))]
    pub fn of(bytes: &'a [u8]) -> Option<(PromiseRef<'a>, &'a [u8])>
        ensures { Finds (λ x. (x.0, x.1.now)) result (read_promise bytes.now) }
    {
        // Starts just below `first`, so that `first` itself passes.
        if let Some((ballot, rest)) = read_ballot(bytes)
            && let Some((first, rest)) = read_position(rest)
            && let Some((count, rest)) = read_u8(rest)
            && let Some((votes, rising, rest)) = Votes::of(count, first.get() - 1, rest)
            && count as usize <= MAX_VOTES
            && rising
        {
            let promise = PromiseRef {
                ballot,
                first,
                votes,
            };
            return Some((promise, rest));
        }
        None
    }

    /// The promised ballot.
    pub fn ballot(&self) -> RealBallot
        ensures { result ≡ self.now.ballot }
    {
        self.ballot
    }

    /// The first position on which it reports.
    pub fn first(&self) -> Position
        ensures { result ≡ self.now.first }
    {
        self.first
    }

    /// The votes, rising by position.
    pub fn votes(&self) -> &Votes<'a>
        ensures { result.now ≡ self.now.votes }
    {
        &self.votes
    }

    /// Copies the Promise, with its votes, into memory of its own.
    pub fn copy(&self, alloc: Global) -> Result<Promise, NoMemory>
        ensures { IfOk result (λ p. p ≡ self.now) }
    {
        let votes = self.votes.to_vec(alloc)?;
        Ok(Promise::of(self.ballot, self.first, votes).unwrap())
    }
}
