ghost use Rattle.std.specs.Prelude.{◌≡◌, ℕ, ◌+◌, ◌<◌, ◌≤◌, ◌↔◌, ◌==◌, ◌&&◌, ◌||◌, nat_le, Option, Some, None, List};
ghost use Rattle.std.specs.Prelude.{length, IsTrue, IsSome, OnOk, OnErr, MatchOption, false, position as position_of};
ghost use Rattle.std.specs.Option.{option_copied};
ghost use Rattle.std.specs.List.{list_any};
ghost use Rattle.lk_leader.specs.Terms.{begun, with_received, with_proposals, proposal_at, ProposalValue, is_promiser};
ghost use Rattle.lk_leader.specs.Terms.{BallotValue, Command as CommandValue};
ghost use Rattle.lk_leader.specs.Values.{IsBest, promised_at, received_at, has_vote_from, is_changing_at};
ghost use Rattle.lk_leader.specs.Values.{IsLeadersValue};
ghost use Rattle.lk_leader.specs.Proposing.{promisers as those_who_promised, IsPromisedByMajority, IsElected, IsNext};
ghost use Rattle.lk_leader.specs.Proposing.{Proposes};
ghost use Rattle.lk_leader.specs.Proposing.{proposed};
ghost use Rattle.lk_leader.specs.Acceptances.{heard_at, GainsMajority};
ghost use Rattle.lk_members.specs.Majorities.{IsMajority};

use crate::promised_vote::PromisedVote;
use crate::proposal::Proposal;
use crate::received_promise::ReceivedPromise;
use crate::waiting::Waiting;
use arrayvec::ArrayVec;
use lk_members::{Roster, is_majority};
use lk_types::limits::MAX_WINDOW;
use lk_types::{Command, Executed, Members, NoMemory, NodeNo, Position, RealBallot};
use std::alloc::Global;
use std::marker::Model;

// A ballot in progress: the first promise of each node, and what was proposed at the positions of the window, of which
// there are at most 64.
#[derive(Drop)]
pub(crate) struct Term {
    ballot: RealBallot,
    received: Vec<ReceivedPromise>,
    proposals: ArrayVec<Proposal, MAX_WINDOW>,
}

impl Model for Term {
    ghost use Rattle.std.specs.Prelude.{map, nat_eq};
    ghost use Rattle.std.specs.List.{IsDistinct};
    ghost use Rattle.lk_leader.specs.Terms.{TermValue};

    ghost Value = { TermValue };

    ghost view = { λ t. record { ballot = t.ballot; received = t.received.items; proposals = t.proposals.items } };

    ghost invariant = { λ t. IsDistinct nat_eq (map (λ p. p.position) t.proposals.items) };
}

impl Term {
    // Creates a term in which nothing is promised or proposed yet. Takes no memory.
    pub(crate) fn begin(alloc: Global, ballot: RealBallot) -> Term
        ensures { result ≡ begun ballot }
    {
        Term {
            ballot,
            received: Vec::new(alloc),
            proposals: ArrayVec::new(),
        }
    }

    // Its ballot.
    pub(crate) fn ballot(&self) -> RealBallot
        ensures { result ≡ self.now.ballot }
    {
        self.ballot
    }

    // Whether it has a promise of the node.
    pub(crate) fn has_promise_of(&self, node: NodeNo) -> bool
        ensures { result ≡ is_promiser node self.now.received }
    {
        self.received.iter().any(|promise| promise.node == node)
    }

    // Appends a promise. A failed call changes nothing.
    pub(crate) fn keep(&mut self, promise: ReceivedPromise) -> Result<(), NoMemory>
        ensures ok { OnOk result (self.new ≡ with_received promise self.old) }
        ensures err { OnErr result (self.new ≡ self.old) }
    {
        self.received.push(promise)?;
        Ok(())
    }

    // Returns the proposal at the position, if there is one.
    pub(crate) fn proposal_at(&self, position: Position) -> Option<&Proposal>
        ensures { option_copied result ≡ proposal_at position self.now.proposals }
    {
        self.proposals
            .as_slice()
            .iter()
            .find(|proposal| proposal.position == position)
    }

    // Returns the first position of the window at which nothing is proposed, if there is one.
    fn next_position(&self, roster: &Roster) -> Option<Position>
        ensures { MatchOption result ((i : ℕ) → IsNext roster.now self.now.proposals i → ⊥)
            (λ i. IsNext roster.now self.now.proposals i) }
    {
        let executed = roster.executed().get();
        let taken = taken_behind(self.proposals.as_slice(), roster.executed());
        for ahead in taken..roster.alpha() as u64 {
            let position = Position::of(executed + 1 + ahead)?;
            if self.proposal_at(position).is_none() {
                return Some(position);
            }
        }
        None
    }

    // Whether a majority of these members has promised, with a `first` that is at most the position.
    fn is_promised_by_majority(&self, position: Position, set: &Members) -> bool
        ensures { IsTrue result ↔ IsMajority (those_who_promised set.now position self.now.received) set.now }
    {
        is_majority(set, promisers(&self.received, position, set).as_slice())
    }

    // Whether `is_promised_by_majority` holds for the position and its own members; false outside the window.
    fn is_promised_by_majority_at(&self, position: Position, roster: &Roster) -> bool
        ensures { IsTrue result ↔ IsPromisedByMajority self.now roster.now position }
    {
        match roster.members_at(position) {
            Some(set) => self.is_promised_by_majority(position, set),
            None => false,
        }
    }

    // Whether the node leads in this term: `is_promised_by_majority_at` holds for the next position.
    pub(crate) fn is_elected(&self, roster: &Roster) -> bool
        ensures { IsTrue result ↔ IsElected self.now roster.now }
    {
        match Position::of(roster.executed().get() + 1) {
            Some(next) => self.is_promised_by_majority_at(next, roster),
            None => false,
        }
    }

    // Returns the vote of greatest ballot that promises of these members report at the position, if any does.
    fn highest(&self, position: Position, set: &Members) -> Option<PromisedVote>
        ensures { IsBest (promised_at position (received_at set.now position self.now.received)) result }
    {
        let mut best = None;
        for promise in &self.received {
            if promise.speaks_for(position, set) {
                best = promise.best_vote(position, best);
            }
        }
        best
    }

    // Whether some promise reports a vote at the position or a later one.
    fn has_vote_from(&self, position: Position) -> bool
        ensures { result ≡ has_vote_from self.now.received position }
    {
        self.received
            .iter()
            .any(|promise| promise.has_vote_from(position))
    }

    // Whether a no-op has to fill the position: a promise reports a vote there or later, or the last change of members
    // is not in effect before it. Neither may wait until clients ask for more.
    fn is_gap(&self, position: Position, roster: &Roster) -> bool
        ensures { result ≡ (has_vote_from self.now.received position || is_changing_at roster.now position) }
    {
        self.has_vote_from(position) || is_changing(position, roster)
    }

    // Returns the command to propose at a position of these members: the highest vote reported there, else the first
    // waiting request that is not under way, else a no-op if the position has to be filled.
    fn value(
        &self,
        position: Position,
        set: &Members,
        waiting: &Waiting,
        roster: &Roster,
    ) -> Option<Command>
        ensures { MatchOption result
            ((v : CommandValue) → IsLeadersValue self.now waiting.now roster.now set.now position v → ⊥)
            (λ v. IsLeadersValue self.now waiting.now roster.now set.now position v) }
    {
        if let Some(reported) = self.highest(position, set) {
            return Some(reported.vote.command.copy());
        }
        if let Some(request) = waiting.first_new(self.proposals.as_slice(), roster.executed()) {
            return Some(Command::Request(request));
        }
        self.is_gap(position, roster).then_some(Command::Noop)
    }

    // Returns the next proposal: the first free position of the window, and its command. `None` if a majority of its
    // members has not promised, or there is nothing to propose. Changes nothing.
    pub(crate) fn next(&self, waiting: &Waiting, roster: &Roster) -> Option<(Position, Command)>
        ensures { MatchOption result ((i : ℕ) (v : CommandValue) → Proposes self.now waiting.now roster.now i v → ⊥)
            (λ p. Proposes self.now waiting.now roster.now p.0 p.1) }
    {
        let position = self.next_position(roster)?;
        let set = roster.members_at(position)?;
        if !self.is_promised_by_majority(position, set) {
            return None;
        }
        let command = self.value(position, set, waiting, roster)?;
        Some((position, command))
    }

    // Records a proposal at the next free position. Forgets those outside the window first, so that there is room.
    pub(crate) fn propose(&mut self, position: Position, command: Command, roster: &Roster)
        requires { IsNext roster.now self.old.proposals position }
        ensures { self.new ≡ proposed roster.now position command self.old }
    {
        roster.facts();
        self.proposals.retain(|proposal| proposal.is_within(roster));
        self.proposals.push(Proposal::new(position, command));
    }

    // Returns the index of the proposal at the position, if there is one.
    fn index_of(&self, position: Position) -> Option<usize>
        ensures { result ≡ position_of (λ p. p.position == position) self.now.proposals }
    {
        self.proposals
            .as_slice()
            .iter()
            .position(|proposal| proposal.position == position)
    }

    // Records that the node accepted the command at the position; nothing changes if another is proposed there, or
    // none. Returns whether a majority has accepted now, and had not before.
    pub(crate) fn record_accepted(
        &mut self,
        node: NodeNo,
        position: Position,
        command: &Command,
        set: &Members,
    ) -> bool
        ensures proposed { (p : ProposalValue) → proposal_at position self.old.proposals ≡ Some p
            → p.command ≡ command.now
            → (self.new ≡ with_proposals (heard_at set.now node position self.old.proposals) self.old)
            × (IsTrue result ↔ GainsMajority set.now node p) }
        ensures other { ((p : ProposalValue) → proposal_at position self.old.proposals ≡ Some p
            → p.command ≡ command.now → ⊥)
            → (self.new ≡ self.old) × (result ≡ false) }
    {
        let Some(index) = self.index_of(position) else {
            return false;
        };
        let proposal = &mut self.proposals[index];
        proposal.record_accepted(node, command, set)
    }
}

// Counts positions behind the executed ones, at each of which something is proposed: all before the first free one, if
// the proposals are in the order of their positions.
fn taken_behind(proposals: &[Proposal], executed: Executed) -> u64
    ensures { (j : ℕ) → executed < j → j ≤ executed + result → IsSome (proposal_at j proposals.now) }
{
    let mut taken = 0;
    for proposal in proposals {
        if proposal.position.get() == executed.get() + taken + 1 {
            taken += 1;
        }
    }
    taken
}

// Returns the members of the set that have promised with a `first` that is at most the position.
fn promisers(received: &[ReceivedPromise], position: Position, set: &Members) -> ArrayVec<NodeNo, 7>
    ensures { result.items ≡ those_who_promised set.now position received.now }
{
    let members = set.as_slice();
    let mut among = ArrayVec::new();
    for member in members {
        if is_promiser_of(received, member.node, position) {
            among.push(member.node);
        }
    }
    among
}

// Whether the node has promised with a `first` that is at most the position.
fn is_promiser_of(received: &[ReceivedPromise], node: NodeNo, position: Position) -> bool
    ensures { result ≡ list_any (λ r. r.node == node && nat_le r.first position) received.now }
{
    received
        .iter()
        .any(|promise| promise.is_from(node, position))
}

// Whether the last change of members is not in effect before the position, which is at most alpha above it. False if
// there was no change.
fn is_changing(position: Position, roster: &Roster) -> bool
    ensures { result ≡ is_changing_at roster.now position }
{
    let changed = roster.changed().get();
    0 < changed && position.get() <= changed + roster.alpha() as u64
}
