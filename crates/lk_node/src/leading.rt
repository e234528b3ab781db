// How a node leads: how it handles a Promise, how it proposes, and when it ends its term.
ghost use Rattle.std.specs.Prelude.{◌≡◌, ◌⊎◌, List, IfOk, OnOk, MatchOption};
ghost use Rattle.lk_types.specs.declared.member.Member.{Member as MemberValue};
ghost use Rattle.lk_messages.specs.Grammar.{IsMessage};
ghost use Rattle.lk_messages.specs.declared.message.NodeMessage.TheVariants as kinds;
ghost use Rattle.lk_agreement_laws.specs.Datagrams.{HasSent};
ghost use Rattle.lk_leader.specs.Proposing.{AreMembersAt};
ghost use Rattle.lk_members.specs.Nodes.{nodes_of};
ghost use Rattle.lk_node_interface.specs.Outboxes.{nothing};
ghost use Rattle.lk_node_interface.specs.Saying.{saying};
ghost use Rattle.lk_node.specs.Leading.{RecordsPromise, DropsPromise, HandlesPromise, ProposesVote, having_proposed};
ghost use Rattle.lk_node.specs.Leading.{NothingToPropose, ProposesNext, ProposesOpen};
ghost use Rattle.lk_node.specs.Promised.{IsTermPromised};
ghost use Rattle.lk_node.specs.SafeSteps.{ActsSafely};
ghost use Rattle.lk_node.specs.Telling.{telling};
ghost use Rattle.lk_node.specs.Yielding.{without_term, yielded, with_round, seeing};

use crate::node::Node;
use lk_members::nodes_of;
use lk_node_interface::Outbox;
use lk_state::Machine;
use lk_types::{Ballot, NoMemory, NodeNo, Vote};
use lk_wire::{NodeMessage, PromiseRef};

impl<M: Machine> Node<M> {
    // Handles a Promise: gives it to the leader, which drops it unless it is the node's first in the term's ballot.
    // Sends nothing.
    pub(crate) fn handle_promise(
        &mut self,
        from: NodeNo,
        promise: &PromiseRef<'_>,
    ) -> Result<Outbox, NoMemory>
        ensures exact { IfOk result (λ o. HandlesPromise self.old from promise.now self.new o) }
        ensures safe { IfOk result
            (λ o. ActsSafely M.meaning (λ h. HasSent h.genesis h.sent from (kinds.Promise promise.now))
            self.old self.new nothing o) }
    {
        let (ballot, first) = (promise.ballot(), promise.first());
        self.nothing_to_propose = false;
        let roster = self.learner.whole().roster();
        self.leader
            .promise(from, ballot, first, promise.votes(), roster)?;
        Ok(Outbox::new(self.alloc))
    }

    // Shows the prover that the term's ballot is at most the promised one. Does nothing at run time.
    pub(crate) fn facts(&self)
        ensures { IsTermPromised self.now.acceptor self.now.leader }
    {
        let _ = &self.alloc;
    }

    // Records the term's next proposal, and returns it as the vote to ask for. `None`, without a change, if there is
    // none.
    fn next_vote(&mut self) -> Option<Vote>
        ensures { MatchOption result (NothingToPropose self.old × (self.new ≡ self.old))
            (λ x. (p : ProposesVote self.old x) × (self.new ≡ having_proposed self.old x p)) }
    {
        self.nothing_to_propose = false;
        let Some(ballot) = self.leader.ballot() else {
            return None;
        };
        let roster = self.learner.whole().roster();
        let Some((position, command)) = self.leader.propose(roster) else {
            return None;
        };
        Some(Vote {
            position,
            ballot,
            command,
        })
    }

    // Sends Accept to the members of the vote's position, in rising order.
    fn send_accepts(&self, vote: Vote, out: &mut Outbox) -> Result<(), NoMemory>
        ensures said { (set : List MemberValue) → AreMembersAt self.now.learner.whole.roster vote.position set
            → OnOk result (out.new ≡ telling self.now (nodes_of set) (kinds.Accept vote) out.old) }
        ensures fits { (set : List MemberValue) → AreMembersAt self.now.learner.whole.roster vote.position set
            → OnOk result (IsMessage (saying self.now.header (kinds.Accept vote))) }
    {
        let Some(set) = self.roster().members_at(vote.position) else {
            return Ok(());
        };
        let nodes = nodes_of(self.alloc, set)?;
        self.send_to_all(&nodes, NodeMessage::Accept(vote), out)?;
        Ok(())
    }

    // Records the next proposal, and sends it to the members of its position. Returns whether there was one.
    fn propose_next(&mut self, out: &mut Outbox) -> Result<bool, NoMemory>
        ensures exact { IfOk result (λ more. ProposesNext more self.old self.new out.old out.new) }
        ensures safe { OnOk result (ActsSafely M.meaning (λ h. Unit {0}) self.old self.new out.old out.new) }
    {
        self.facts();
        let Some(vote) = self.next_vote() else {
            return Ok(false);
        };
        self.send_accepts(vote, out)?;
        Ok(true)
    }

    // Proposes whatever it can, at rising positions, each to the members of its position. Returns at once if nothing
    // has changed since it did so that may bring more.
    pub(crate) fn propose(&mut self, out: &mut Outbox) -> Result<(), NoMemory>
        ensures exact { OnOk result (ProposesOpen self.old self.new out.old out.new) }
        ensures done { OnOk result (NothingToPropose self.new) }
        ensures safe { OnOk result (ActsSafely M.meaning (λ h. Unit {0}) self.old self.new out.old out.new) }
    {
        if self.nothing_to_propose {
            return Ok(());
        }
        'votes: while self.propose_next(out)? {}
        self.nothing_to_propose = true;
        Ok(())
    }

    // Proposes whatever it can, and sends nothing else.
    pub(crate) fn only_propose(&mut self) -> Result<Outbox, NoMemory>
        ensures exact { IfOk result (λ o. ProposesOpen self.old self.new nothing o) }
        ensures safe { IfOk result (λ o. ActsSafely M.meaning (λ h. Unit {0}) self.old self.new nothing o) }
    {
        let mut out = Outbox::new(self.alloc);
        self.propose(&mut out)?;
        Ok(out)
    }

    // Ends the term, forgets the waiting requests, and counts ticks from 0.
    pub(crate) fn leave_term(&mut self)
        ensures { self.new ≡ without_term self.old }
    {
        self.nothing_to_propose = false;
        self.leader.leave();
        self.ticks.reset();
    }

    // Ends the term if this ballot is above its ballot. Records nothing: see `note_ballot`.
    pub(crate) fn yield_to(&mut self, ballot: Ballot)
        ensures { self.new ≡ yielded ballot self.old }
    {
        if self.leader.yield_to(ballot) {
            self.nothing_to_propose = false;
            self.ticks.reset();
        }
    }

    // Records the round of a ballot that was seen, so that the own next ballot exceeds it.
    pub(crate) fn see_round(&mut self, ballot: Ballot)
        ensures { self.new ≡ with_round ballot self.old }
    {
        self.rounds.see(ballot.round());
    }

    // Records the round of a ballot in a Nack or a Lead, and ends a term of a smaller ballot.
    pub(crate) fn note_ballot(&mut self, ballot: Ballot)
        ensures { self.new ≡ seeing ballot self.old }
    {
        self.see_round(ballot);
        self.yield_to(ballot);
    }
}
