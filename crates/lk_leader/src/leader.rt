ghost use Rattle.std.specs.Prelude.{◌≡◌, ◌↔◌, ℕ, not, Option, Some, None, List, [], IsTrue, true, false, OnOk, OnErr};
ghost use Rattle.std.specs.Prelude.{Ok, length, IfSome, MatchOption, if◌then◌else◌};
ghost use Rattle.std.specs.Option.{option_copied, option_map};
ghost use Rattle.lk_types.specs.declared.member.Member.{Member as MemberValue};
ghost use Rattle.lk_leader.specs.Waits.{asked, waiting_of, number_up_to, left_by};
ghost use Rattle.lk_leader.specs.Terms.{LeaderValue, TermValue, ProposalValue, Command as CommandValue, new_leader};
ghost use Rattle.lk_leader.specs.Terms.{begun, is_term_below};
ghost use Rattle.lk_leader.specs.Terms.{with_term, with_received, with_proposals, is_promiser, IsFirstOf, has_term};
ghost use Rattle.lk_leader.specs.Terms.{has_promise_of, silent_among};
ghost use Rattle.lk_leader.specs.Proposing.{Leads, LeaderProposes, proposed};
ghost use Rattle.lk_leader.specs.Acceptances.{IsVoteFor, heard_at, GainsMajority, IsOpen};

use crate::received_promise::ReceivedPromise;
use crate::term::Term;
use crate::waiting::Waiting;
use lk_members::Roster;
use lk_messages::Votes;
use lk_types::{
    Ballot, ClientNo, Command, NoMemory, NodeNo, Op, Position, RealBallot, RequestNumber,
};
use std::alloc::Global;
use std::marker::Model;

/// A command that is proposed and not decided yet, and the members that were heard to accept it.
#[derive(Drop)]
pub struct Open<'a> {
    pub command: &'a Command,
    pub accepted: &'a [NodeNo],
}

/// The leader's part of a node: its term, which is its ballot in progress, if any, and the requests that wait to be
/// proposed.
#[derive(Drop)]
pub struct Leader {
    alloc: Global,
    term: Option<Term>,
    waiting: Waiting,
}

impl Model for Leader {
    ghost use Rattle.lk_leader.specs.Terms.{LeaderValue};

    ghost Value = { LeaderValue };

    ghost view = { λ l. record { term = l.term; waiting = l.waiting } };
}

impl Leader {
    /// Creates a leader without a term or waiting requests. Takes no memory.
    pub fn new(alloc: Global) -> Leader
        ensures { result ≡ new_leader }
    {
        Leader {
            alloc,
            term: None,
            waiting: Waiting::new(alloc),
        }
    }

    /// Queues a client's request to be proposed. If one of that client waits already, the new one takes its place if
    /// its number is greater, and is dropped otherwise. Takes memory only if none waits; a failed call changes nothing.
    pub fn ask(&mut self, client: ClientNo, number: RequestNumber, op: &Op) -> Result<(), NoMemory>
        ensures ok { OnOk result
            (self.new ≡ record {
              term = self.old.term;
              waiting = asked (record { client = client; number = number; op = op.now }) self.old.waiting;
            }) }
        ensures err { OnErr result (self.new ≡ self.old) }
        ensures memory { OnErr result (waiting_of client self.old.waiting ≡ None) }
    {
        self.waiting.add(client, number, op)?;
        Ok(())
    }

    /// Begins a term with this ballot, in place of any other. Waiting requests are kept.
    pub fn begin(&mut self, ballot: RealBallot)
        ensures { self.new ≡ with_term (begun ballot) self.old }
    {
        self.term = Some(Term::begin(self.alloc, ballot));
    }

    /// Records a promise, with its votes from `first` on. It is dropped unless it is of the term's ballot, of a node of
    /// the window, and that node's first. A failed call changes nothing.
    pub fn promise(
        &mut self,
        node: NodeNo,
        ballot: RealBallot,
        first: Position,
        votes: &Votes<'_>,
        roster: &Roster,
    ) -> Result<(), NoMemory>
        ensures kept { (t : TermValue) → IsFirstOf self.old roster.now node ballot t
            → OnOk result (self.new ≡ with_term
            (with_received (record { node = node; first = first; votes = votes.now }) t) self.old) }
        ensures other { ((t : TermValue) → IsFirstOf self.old roster.now node ballot t → ⊥)
            → (self.new ≡ self.old) × (result ≡ Ok tt) }
        ensures err { OnErr result (self.new ≡ self.old) }
    {
        if !self.is_first(node, ballot, roster) {
            return Ok(());
        }
        let promise = ReceivedPromise::of(self.alloc, node, first, votes)?;
        if let Some(term) = &mut self.term {
            term.keep(promise)?;
        }
        Ok(())
    }

    // Whether a promise of this node and ballot is to be kept: see `promise`.
    fn is_first(&self, node: NodeNo, ballot: RealBallot, roster: &Roster) -> bool
        ensures { IsTrue result ↔ ((t : TermValue) × IsFirstOf self.now roster.now node ballot t) }
    {
        match &self.term {
            Some(term) => term.ballot() == ballot
                && roster.is_in_window(node)
                && !term.has_promise_of(node),
            None => false,
        }
    }

    /// Records the term's next proposal, and returns its position and command. Returns `None`, and changes nothing, if
    /// nothing can be proposed now. Call it until then.
    pub fn propose(&mut self, roster: &Roster) -> Option<(Position, Command)>
        ensures some { IfSome result (λ p. LeaderProposes self.old roster.now p.0 p.1) }
        ensures term { IfSome result
            (λ p. (t : TermValue) → self.old.term ≡ Some t
            → self.new ≡ with_term (proposed roster.now p.0 p.1 t) self.old) }
        ensures none { result ≡ None
            → (self.new ≡ self.old) × ((i : ℕ) (v : CommandValue) → LeaderProposes self.old roster.now i v → ⊥) }
    {
        let Some(term) = &mut self.term else {
            return None;
        };
        let Some((position, command)) = term.next(&self.waiting, roster) else {
            return None;
        };
        term.propose(position, command.copy(), roster);
        Some((position, command))
    }

    /// Records that a node accepted a command. It counts if the term has proposed that command at that position, in
    /// this ballot, and the position is in the window. Returns whether a majority has accepted it now, and had not
    /// before.
    pub fn accepted(
        &mut self,
        node: NodeNo,
        ballot: RealBallot,
        position: Position,
        command: &Command,
        roster: &Roster,
    ) -> bool
        ensures heard { (t : TermValue) (set : List MemberValue) (p : ProposalValue) → self.old.term ≡ Some t
            → IsVoteFor t roster.now ballot position command.now set p
            → (self.new ≡ with_term (with_proposals (heard_at set node position t.proposals) t) self.old)
            × (IsTrue result ↔ GainsMajority set node p) }
        ensures other { ((t : TermValue) (set : List MemberValue) (p : ProposalValue) → self.old.term ≡ Some t
            → IsVoteFor t roster.now ballot position command.now set p → ⊥)
            → (self.new ≡ self.old) × (result ≡ false) }
    {
        let Some(set) = roster.members_at(position) else {
            return false;
        };
        let Some(term) = &mut self.term else {
            return false;
        };
        if term.ballot() != ballot {
            return false;
        }
        term.record_accepted(node, position, command, set)
    }

    /// Ends the term, and forgets the waiting requests, if the ballot is above the term's. Returns whether it has.
    pub fn yield_to(&mut self, ballot: Ballot) -> bool
        ensures yields { self.new ≡ if is_term_below ballot self.old.term then new_leader else self.old }
        ensures ended { result ≡ is_term_below ballot self.old.term }
    {
        let ends = self.is_below(ballot);
        if ends {
            self.leave();
        }
        ends
    }

    // Whether there is a term, and its ballot is below this one.
    fn is_below(&self, ballot: Ballot) -> bool
        ensures { result ≡ is_term_below ballot self.now.term }
    {
        match &self.term {
            Some(term) => term.ballot().get().is_below(ballot),
            None => false,
        }
    }

    /// Ends the term, if there is one, and forgets the waiting requests.
    pub fn leave(&mut self)
        ensures { self.new ≡ new_leader }
    {
        self.term = None;
        self.waiting.clear();
    }

    /// Removes the client's waiting request if its number is at most this one, the last that was executed, and returns
    /// its number. Otherwise changes nothing, and returns `None`.
    pub fn ran(&mut self, client: ClientNo, number: RequestNumber) -> Option<RequestNumber>
        ensures told { result ≡ number_up_to number (waiting_of client self.old.waiting) }
        ensures left { self.new ≡ record { term = self.old.term; waiting = left_by client number self.old.waiting } }
    {
        self.waiting.ran(client, number)
    }

    /// How many requests wait to be proposed.
    pub fn waiting(&self) -> usize
        ensures { result ≡ length self.now.waiting }
    {
        self.waiting.len()
    }

    /// Returns the term's ballot, if there is a term.
    pub fn ballot(&self) -> Option<RealBallot>
        ensures { result ≡ option_map (λ t. t.ballot) self.now.term }
    {
        let term = self.term.as_ref()?;
        Some(term.ballot())
    }

    /// Whether there is a term.
    pub fn has_term(&self) -> bool
        ensures { result ≡ has_term self.now.term }
    {
        self.term.is_some()
    }

    /// Whether it leads: it has a term, which a majority of the members of the next position has promised.
    pub fn is_elected(&self, roster: &Roster) -> bool
        ensures { IsTrue result ↔ Leads self.now roster.now }
    {
        match &self.term {
            Some(term) => term.is_elected(roster),
            None => false,
        }
    }

    // Whether the term has a promise of the node.
    fn has_promise_of(&self, node: NodeNo) -> bool
        ensures { IsTrue result ↔ ((t : TermValue) × (self.now.term ≡ Some t) × (is_promiser node t.received ≡ true)) }
    {
        match &self.term {
            Some(term) => term.has_promise_of(node),
            None => false,
        }
    }

    // Whether the term has no promise of the node.
    fn is_silent(&self, node: NodeNo) -> bool
        ensures { result ≡ not (has_promise_of self.now.term node) }
    {
        !self.has_promise_of(node)
    }

    /// Those of the nodes whose promise the term does not have, in the same order.
    pub fn silent_among(&self, nodes: Vec<NodeNo>) -> Vec<NodeNo>
        ensures { result.items ≡ silent_among self.now.term nodes.items }
    {
        let mut silent = nodes;
        silent.retain(|node| self.is_silent(*node));
        silent
    }

    /// Returns the term's proposal at the position, if no majority has accepted it yet. `None` for a position outside
    /// the window.
    pub fn open_at(&self, position: Position, roster: &Roster) -> Option<Open<'_>>
        ensures { MatchOption result ((p : ProposalValue) → IsOpen self.now roster.now position p → ⊥)
            (λ o. (p : ProposalValue) × IsOpen self.now roster.now position p × (p.command ≡ o.command.now)
            × (p.accepted ≡ o.accepted.now)) }
    {
        let set = roster.members_at(position)?;
        let term = self.term.as_ref()?;
        let proposal = term.proposal_at(position)?;
        if proposal.has_majority(set) {
            return None;
        }
        Some(Open {
            command: &proposal.command,
            accepted: proposal.accepted.as_slice(),
        })
    }
}
