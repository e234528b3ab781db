// How a node decides a position: it counts the votes for its own proposals.
ghost use Rattle.std.specs.Prelude.{IfOk, OnOk};
ghost use Rattle.lk_messages.specs.declared.message.NodeMessage.TheVariants as kinds;
ghost use Rattle.lk_agreement_laws.specs.Chosen.{ChosenAt};
ghost use Rattle.lk_agreement_laws.specs.Datagrams.{HasSent};
ghost use Rattle.lk_leader.specs.Proposing.{AreMembersAt};
ghost use Rattle.lk_node_interface.specs.Outboxes.{nothing};
ghost use Rattle.lk_node.specs.Deciding.{HandlesVote, AreDecidedEnvelopes, Decides, HandlesAccepted};
ghost use Rattle.lk_node.specs.SafeSteps.{ActsSafely};

use crate::node::Node;
use lk_node_interface::{Envelope, Note, Outbox, decided_message, envelopes_to};
use lk_state::Machine;
use lk_types::{Command, Members, NoMemory, NodeNo, Position, Vote};

impl<M: Machine> Node<M> {
    // Counts a node's vote for a proposal of the own term. Returns the members of the position if this vote completes a
    // majority of them, and `None` otherwise.
    fn count_vote(&mut self, from: NodeNo, vote: &Vote) -> Option<Members>
        ensures { HandlesVote from vote.now self.old self.new result }
    {
        let roster = self.learner.whole().roster();
        let Some(members) = roster.members_at(vote.position) else {
            return None;
        };
        let chosen = self
            .leader
            .accepted(from, vote.ballot, vote.position, &vote.command, roster);
        if !chosen {
            return None;
        }
        Some(members.copy())
    }

    // Returns an envelope with a Decided of this command for each other node of the window.
    fn decided_envelopes(
        &self,
        position: Position,
        command: &Command,
    ) -> Result<Vec<Envelope>, NoMemory>
        ensures { IfOk result (λ ls. AreDecidedEnvelopes self.now (position, command.now) ls.items) }
    {
        let others = self.others()?;
        let message = decided_message(self.alloc, position, command)?;
        let envelopes = envelopes_to(self.alloc, &self.header, self.roster(), &others, message)?;
        Ok(envelopes)
    }

    // Decides the command at the position, which a majority of these members has accepted: notes that, keeps and writes
    // the command, executes what it can, and sends Decided to the other nodes.
    fn decide(
        &mut self,
        members: Members,
        position: Position,
        command: &Command,
        out: &mut Outbox,
    ) -> Result<(), NoMemory>
        ensures exact { OnOk result
            (Decides M.meaning members (position, command.now) self.old out.old self.new out.new) }
        ensures safe { AreMembersAt self.old.learner.whole.roster position members
            → OnOk result (ActsSafely M.meaning
            (λ h. ChosenAt h.genesis h.sent position command.now) self.old self.new out.old out.new) }
    {
        out.note(Note::Counted(self.header.node(), position, members, command.copy()))?;
        // Before execution, which may move the window: they go to the nodes of the present one.
        let envelopes = self.decided_envelopes(position, command)?;
        self.learn(position, command, out)?;
        self.execute(out)?;
        out.add_envelopes(envelopes)?;
        Ok(())
    }

    // Handles an Accepted: counts it as a vote, and decides the position if that completes a majority.
    pub(crate) fn handle_accepted(&mut self, from: NodeNo, vote: &Vote) -> Result<Outbox, NoMemory>
        ensures exact { IfOk result (λ o. HandlesAccepted M.meaning from vote.now self.old self.new o) }
        ensures safe { IfOk result
            (λ o. ActsSafely M.meaning (λ h. HasSent h.genesis h.sent from (kinds.Accepted vote.now))
            self.old self.new nothing o) }
    {
        let mut out = Outbox::new(self.alloc);
        let Some(members) = self.count_vote(from, vote) else {
            return Ok(out);
        };
        self.decide(members, vote.position, &vote.command, &mut out)?;
        Ok(out)
    }
}
