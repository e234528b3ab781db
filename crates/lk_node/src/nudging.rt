// How a node handles a nudge: it asks others for what they know better, or tells them how far it has come.
ghost use Rattle.std.specs.Prelude.{◌≡◌, Some, IfOk, OnOk};
ghost use Rattle.lk_node_interface.specs.Outboxes.{nothing};
ghost use Rattle.lk_node.specs.Nudging.{least_ballot, refreshed, AsksOthers, TellsProgress, AsksInTerm, TellsIfSilent};
ghost use Rattle.lk_node.specs.Nudging.{without_gathered, remembering, Seeks, SeeksAfresh, AsksLeader, AsksFurther};
ghost use Rattle.lk_node.specs.Nudging.{Nudges};
ghost use Rattle.lk_node.specs.SafeSteps.{ActsSafely};

use crate::node::Node;
use lk_node_interface::{NudgeReason, Outbox};
use lk_state::Machine;
use lk_types::{Ballot, NoMemory, RealBallot};
use lk_wire::{Nack, NodeMessage};

// Returns the least ballot, which no term's ballot is below; never `None`.
fn least_ballot() -> Option<RealBallot>
    ensures { result ≡ Some least_ballot }
{
    RealBallot::of(Ballot::of(1, 1)?)
}

impl<M: Machine> Node<M> {
    // Throws away what is gathered of a snapshot.
    fn forget_gathered(&mut self)
        ensures { self.new ≡ without_gathered self.old }
    {
        self.nothing_to_propose = false;
        self.learner.forget_gathered();
    }

    // Records how much of a snapshot is gathered.
    fn remember_gathered(&mut self)
        ensures { self.new ≡ remembering self.old }
    {
        self.gathered_before = self.learner.gathered_bytes();
    }

    // Throws away what is gathered if nothing was added to it since the last nudge, and records how much is gathered.
    fn refresh(&mut self)
        ensures { self.new ≡ refreshed self.old }
    {
        if self.learner.gathered_bytes() == self.gathered_before {
            self.forget_gathered();
        }
        self.remember_gathered();
    }

    // Sends the other nodes of the window a Want for what follows the executed positions; nothing after the last one,
    // 2^48.
    fn ask_others(&self) -> Result<Outbox, NoMemory>
        ensures exact { IfOk result (λ o. AsksOthers self.now o) }
        ensures safe { IfOk result (λ o. ActsSafely M.meaning (λ h. Unit {0}) self.now self.now nothing o) }
    {
        let mut out = Outbox::new(self.alloc);
        let Some(want) = self.learner.want() else {
            return Ok(out);
        };
        let nodes = self.others()?;
        self.send_to_all(&nodes, NodeMessage::Want(want), &mut out)?;
        Ok(out)
    }

    // Tells the other nodes of the window how many positions are executed, by a Nack that ends no term.
    fn tell_progress(&self) -> Result<Outbox, NoMemory>
        ensures exact { IfOk result (λ o. TellsProgress self.now o) }
        ensures safe { IfOk result (λ o. ActsSafely M.meaning (λ h. Unit {0}) self.now self.now nothing o) }
    {
        let mut out = Outbox::new(self.alloc);
        let Some(ballot) = least_ballot() else {
            return Ok(out);
        };
        let nack = Nack {
            ballot,
            promised: Ballot::ZERO,
            executed: self.learner.whole().executed(),
        };
        let nodes = self.others()?;
        self.send_to_all(&nodes, NodeMessage::Nack(nack), &mut out)?;
        Ok(out)
    }

    // Handles a nudge in a term: asks the others, and proposes what it can.
    fn ask_in_term(&mut self) -> Result<Outbox, NoMemory>
        ensures exact { IfOk result (λ o. AsksInTerm self.old self.new o) }
        ensures safe { IfOk result (λ o. ActsSafely M.meaning (λ h. Unit {0}) self.old self.new nothing o) }
    {
        let mut out = self.ask_others()?;
        self.propose(&mut out)?;
        Ok(out)
    }

    // Handles a nudge without a term: tells its progress if 28 ticks have passed without a leader, or if ticks are
    // withheld.
    #[tactic(auto, using(crate::proofs::SafeSteps::rests_here))]
    fn tell_if_silent(&self, are_ticks_withheld: bool) -> Result<Outbox, NoMemory>
        ensures exact { IfOk result (λ o. TellsIfSilent are_ticks_withheld self.now o) }
        ensures safe { IfOk result (λ o. ActsSafely M.meaning (λ h. Unit {0}) self.now self.now nothing o) }
    {
        if !(are_ticks_withheld || self.ticks.is_full()) {
            return Ok(Outbox::new(self.alloc));
        }
        self.tell_progress()
    }

    // Asks in a term, and tells without one.
    fn seek(&mut self, are_ticks_withheld: bool) -> Result<Outbox, NoMemory>
        ensures exact { IfOk result (λ o. Seeks are_ticks_withheld self.old self.new o) }
        ensures safe { IfOk result (λ o. ActsSafely M.meaning (λ h. Unit {0}) self.old self.new nothing o) }
    {
        match self.leader.ballot() {
            Some(_) => self.ask_in_term(),
            None => self.tell_if_silent(are_ticks_withheld),
        }
    }

    // Throws away what it gathers if that has not grown, and asks in a term, or tells without one.
    #[tactic(auto, using(crate::proofs::Nudges::refreshed_goes_on))]
    fn seek_afresh(&mut self, are_ticks_withheld: bool) -> Result<Outbox, NoMemory>
        ensures exact { IfOk result (λ o. SeeksAfresh are_ticks_withheld self.old self.new o) }
        ensures safe { IfOk result (λ o. ActsSafely M.meaning (λ h. Unit {0}) self.old self.new nothing o) }
    {
        self.refresh();
        self.seek(are_ticks_withheld)
    }

    // Sends the known leader a Want for what follows the executed positions. Sends nothing if it knows none, or is it
    // itself.
    #[tactic(auto, using(crate::proofs::SafeSteps::rests_here))]
    fn ask_leader(&self) -> Result<Outbox, NoMemory>
        ensures exact { IfOk result (λ o. AsksLeader self.now.known self.now o) }
        ensures safe { IfOk result (λ o. ActsSafely M.meaning (λ h. Unit {0}) self.now self.now nothing o) }
    {
        let Some(leader) = self.known else {
            return Ok(Outbox::new(self.alloc));
        };
        if leader == self.header.node() {
            return Ok(Outbox::new(self.alloc));
        }
        self.send_want(leader)
    }

    // Handles a nudge that it gets because it was fed: asks the known leader for more, unless it has a term.
    fn ask_further(&mut self) -> Result<Outbox, NoMemory>
        ensures exact { IfOk result (λ o. AsksFurther self.old self.new o) }
        ensures safe { IfOk result (λ o. ActsSafely M.meaning (λ h. Unit {0}) self.old self.new nothing o) }
    {
        match self.leader.ballot() {
            Some(_) => self.only_propose(),
            None => self.ask_leader(),
        }
    }

    // Handles a nudge for this reason.
    pub(crate) fn nudge(&mut self, reason: NudgeReason) -> Result<Outbox, NoMemory>
        ensures exact { IfOk result (λ o. Nudges reason self.old self.new o) }
        ensures safe { IfOk result (λ o. ActsSafely M.meaning (λ h. Unit {0}) self.old self.new nothing o) }
    {
        match reason {
            NudgeReason::Period => self.seek_afresh(false),
            NudgeReason::TicksWithheld => self.seek_afresh(true),
            NudgeReason::Fed => self.ask_further(),
        }
    }
}
