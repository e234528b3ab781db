// How a node replies as an acceptor.
ghost use Rattle.std.specs.Prelude.{◌≡◌, IfOk, OnOk};
ghost use Rattle.lk_messages.specs.Grammar.{IsMessage};
ghost use Rattle.lk_messages.specs.declared.message.NodeMessage.TheVariants as kinds;
ghost use Rattle.lk_acceptor.specs.Replies.{RepliesToPrepare, RepliesToAccept};
ghost use Rattle.lk_agreement_laws.specs.Datagrams.{HasSent};
ghost use Rattle.lk_node_interface.specs.Outboxes.{nothing};
ghost use Rattle.lk_node_interface.specs.Saying.{saying};
ghost use Rattle.lk_node.specs.Responding.{replied, reply_to, Responds};
ghost use Rattle.lk_node.specs.SafeSteps.{ActsSafely};
ghost use Rattle.lk_node.specs.Yielding.{yielded, with_round};

use crate::node::Node;
use lk_acceptor::Response;
use lk_node_interface::{Outbox, is_granted};
use lk_state::Machine;
use lk_types::{NoMemory, NodeNo, Position, RealBallot, Vote};

impl<M: Machine> Node<M> {
    // Returns an outbox with the response's entry, and its reply to the node that asked. If the reply grants, ticks
    // count from 0: a leader was heard. Ends a term of a ballot below the promised one.
    fn respond(&mut self, from: NodeNo, response: Response) -> Result<Outbox, NoMemory>
        ensures outbox { IfOk result (λ o. o ≡ reply_to self.old from response) }
        ensures fits { OnOk result (IsMessage (saying self.old.header response.reply)) }
        ensures becomes { OnOk result (self.new ≡ replied response.reply self.old) }
    {
        let Response { reply, entry } = response;
        let granted = is_granted(&reply);
        let mut out = Outbox::new(self.alloc);
        if let Some(entry) = entry {
            out.write(entry)?;
        }
        self.send_to_node(from, reply, &mut out)?;
        if granted {
            self.ticks.reset();
        }
        let promised = self.acceptor.promised();
        self.yield_to(promised);
        Ok(out)
    }

    // Passes an Accept to the acceptor, and sends its reply.
    fn respond_to_accept(&mut self, from: NodeNo, vote: Vote) -> Result<Outbox, NoMemory>
        ensures { IfOk result (λ o. Responds self.old from
            (RepliesToAccept self.old.acceptor self.old.learner.whole.roster.executed vote) self.new o) }
    {
        let response = self.acceptor.accept(vote, self.learner.whole().executed())?;
        let out = self.respond(from, response)?;
        Ok(out)
    }

    // Handles a Prepare: gives it to the acceptor, and sends its reply.
    pub(crate) fn handle_prepare(
        &mut self,
        from: NodeNo,
        ballot: RealBallot,
        first: Position,
    ) -> Result<Outbox, NoMemory>
        ensures exact { IfOk result
            (λ o. Responds self.old from
            (RepliesToPrepare self.old.acceptor self.old.learner.whole.roster.executed ballot first) self.new o) }
        ensures safe { IfOk result (λ o. ActsSafely M.meaning (λ h. Unit {0}) self.old self.new nothing o) }
    {
        let response = self
            .acceptor
            .prepare(ballot, first, self.learner.whole().executed())?;
        let out = self.respond(from, response)?;
        Ok(out)
    }

    // Handles an Accept: records its ballot's round, even if the acceptor rejects it, and replies.
    pub(crate) fn handle_accept(&mut self, from: NodeNo, vote: Vote) -> Result<Outbox, NoMemory>
        ensures exact { IfOk result
            (λ o. Responds (with_round vote.ballot self.old) from
            (RepliesToAccept self.old.acceptor self.old.learner.whole.roster.executed vote) self.new o) }
        ensures safe { IfOk result
            (λ o. ActsSafely M.meaning (λ h. HasSent h.genesis h.sent from (kinds.Accept vote))
            self.old self.new nothing o) }
    {
        self.acceptor.facts();
        self.see_round(vote.ballot.get());
        let out = self.respond_to_accept(from, vote)?;
        Ok(out)
    }
}
