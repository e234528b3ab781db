// How a node helps one that has executed less, and asks one that has executed more.
ghost use Rattle.std.specs.Prelude.{◌≡◌, ◌<◌, ◌≤◌, Contains, IfOk, OnOk};
ghost use Rattle.lk_messages.specs.Grammar.{IsMessage};
ghost use Rattle.lk_messages.specs.Values.{PartValue};
ghost use Rattle.lk_messages.specs.declared.message.NodeMessage.TheVariants as kinds;
ghost use Rattle.lk_node_interface.specs.Outboxes.{nothing};
ghost use Rattle.lk_node_interface.specs.Saying.{saying};
ghost use Rattle.lk_node.specs.CatchingUp.{sending_parts, FeedsParts, Feeds, HandlesWant, AsksOn, ClosesGap};
ghost use Rattle.lk_node.specs.CatchingUp.{HandlesNack, following, AsksWhereMore, refusal, HandlesLead};
ghost use Rattle.lk_node.specs.Replying.{SaysAlone};
ghost use Rattle.lk_node.specs.Saying.{to_node};
ghost use Rattle.lk_node.specs.SafeSteps.{ActsSafely};

use crate::node::Node;
use lk_node_interface::Outbox;
use lk_state::Machine;
use lk_types::{Executed, NoMemory, NodeNo, Position, RealBallot};
use lk_wire::{Nack, NodeMessage, Part, Want};

impl<M: Machine> Node<M> {
    // Sends these parts to the other node, in order.
    fn send_parts(&self, other: NodeNo, parts: Vec<Part>) -> Result<Outbox, NoMemory>
        ensures said { IfOk result (λ o. o ≡ sending_parts self.now other parts.items nothing) }
        ensures fits { OnOk result
            ((p : PartValue) → Contains parts.items p → IsMessage (saying self.now.header (kinds.Part p))) }
    {
        let mut out = Outbox::new(self.alloc);
        'parts: for part in parts {
            self.send_to_node(other, NodeMessage::Part(part), &mut out)?;
        }
        Ok(out)
    }

    // Sends the snapshot from the offset on to the other node, if the snapshot has replaced the position.
    fn feed_parts(&self, other: NodeNo, first: Position, offset: u32) -> Result<Outbox, NoMemory>
        ensures some { first ≤ self.now.learner.snapshot_position
            → IfOk result (λ o. FeedsParts self.now other offset o) }
        ensures none { self.now.learner.snapshot_position < first → IfOk result (λ o. o ≡ nothing) }
    {
        let parts = self.learner.parts(first, offset)?;
        self.send_parts(other, parts)
    }

    // Sends the other node up to 16 executed commands from the position on; or, if the snapshot has replaced the
    // position, the snapshot from the offset on; or nothing, if the position is not executed.
    fn send_missing(&self, other: NodeNo, first: Position, offset: u32) -> Result<Outbox, NoMemory>
        ensures { IfOk result (λ o. Feeds self.now other first offset o) }
    {
        let Some(decided) = self.learner.serve(first)? else {
            return self.feed_parts(other, first, offset);
        };
        self.outbox_to_node(other, NodeMessage::Decided(decided))
    }

    // Sends the other node a Want for what follows the executed positions; nothing after the last one, 2^48.
    pub(crate) fn send_want(&self, other: NodeNo) -> Result<Outbox, NoMemory>
        ensures { IfOk result (λ o. AsksOn self.now other o) }
    {
        let Some(want) = self.learner.want() else {
            return Ok(Outbox::new(self.alloc));
        };
        self.outbox_to_node(other, NodeMessage::Want(want))
    }

    // Compares progress with the other node, which has executed `theirs` positions: asks it with a Want if these are
    // more, and sends it what it lacks if they are fewer.
    fn compare_progress(&self, other: NodeNo, theirs: Executed) -> Result<Outbox, NoMemory>
        ensures { IfOk result (λ o. ClosesGap self.now other theirs o) }
    {
        let executed = self.learner.whole().executed().get();
        if theirs.get() > executed {
            return self.send_want(other);
        }
        match Position::of(theirs.get() + 1) {
            Some(first) if theirs.get() < executed => self.send_missing(other, first, 0),
            _ => Ok(Outbox::new(self.alloc)),
        }
    }

    // Handles a Want: sends its sender commands or parts of the snapshot.
    pub(crate) fn handle_want(&mut self, from: NodeNo, want: &Want) -> Result<Outbox, NoMemory>
        ensures exact { IfOk result (λ o. HandlesWant self.old from want.now self.new o) }
        ensures safe { IfOk result (λ o. ActsSafely M.meaning (λ h. Unit {0}) self.old self.new nothing o) }
    {
        self.send_missing(from, want.first(), want.offset())
    }

    // Handles a Nack: catches up with its sender or helps it, and records the rejected and the promised ballot, which
    // ends a term of a ballot below either.
    pub(crate) fn handle_nack(&mut self, from: NodeNo, nack: &Nack) -> Result<Outbox, NoMemory>
        ensures exact { IfOk result (λ o. HandlesNack self.old from nack.now self.new o) }
        ensures safe { IfOk result (λ o. ActsSafely M.meaning (λ h. Unit {0}) self.old self.new nothing o) }
    {
        let out = self.compare_progress(from, nack.executed)?;
        self.note_ballot(nack.ballot.get());
        self.note_ballot(nack.promised);
        Ok(out)
    }

    // Sends the other node a Want if it has executed more.
    fn send_want_if_behind(&self, other: NodeNo, theirs: Executed) -> Result<Outbox, NoMemory>
        ensures { IfOk result (λ o. AsksWhereMore self.now other theirs o) }
    {
        if theirs.get() <= self.learner.whole().executed().get() {
            return Ok(Outbox::new(self.alloc));
        }
        self.send_want(other)
    }

    // Sends the other node a Nack of this ballot, with the promised one and how many positions are executed.
    fn send_nack(&self, other: NodeNo, ballot: RealBallot) -> Result<Outbox, NoMemory>
        ensures { IfOk result (λ o. SaysAlone self.now (to_node self.now other)
            (kinds.Nack (refusal ballot self.now)) o) }
    {
        let nack = Nack {
            ballot,
            promised: self.acceptor.promised(),
            executed: self.learner.whole().executed(),
        };
        self.outbox_to_node(other, NodeMessage::Nack(nack))
    }

    // Records the ballot's node as the known leader, and counts ticks from 0.
    fn follow(&mut self, ballot: RealBallot)
        ensures { self.new ≡ following ballot self.old }
    {
        self.known = NodeNo::of(ballot.get().node());
        self.ticks.reset();
    }

    // Handles a Lead: the node of this ballot leads, and has executed this many positions. Rejects it if its ballot is
    // below the promised one. Otherwise follows it, and asks its sender for commands if that has executed more.
    pub(crate) fn handle_lead(
        &mut self,
        from: NodeNo,
        ballot: RealBallot,
        executed: Executed,
    ) -> Result<Outbox, NoMemory>
        ensures exact { IfOk result (λ o. HandlesLead self.old from ballot executed self.new o) }
        ensures safe { IfOk result (λ o. ActsSafely M.meaning (λ h. Unit {0}) self.old self.new nothing o) }
    {
        if ballot.get().is_below(self.acceptor.promised()) {
            let out = self.send_nack(from, ballot)?;
            self.note_ballot(ballot.get());
            return Ok(out);
        }
        let out = self.send_want_if_behind(from, executed)?;
        self.note_ballot(ballot.get());
        self.follow(ballot);
        Ok(out)
    }
}
