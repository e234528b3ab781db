// What a node with a term resends at a tick, as datagrams may be lost.
ghost use Rattle.std.specs.Prelude.{◌≡◌, ◌+◌, IfOk, OnOk};
ghost use Rattle.lk_node_interface.specs.Outboxes.{nothing};
ghost use Rattle.lk_node.specs.Leading.{NothingToPropose};
ghost use Rattle.lk_node.specs.Reminding.{IsTermOf, AsksAgain, OffersAgain, OffersAll, TellsLead, Reminds};
ghost use Rattle.lk_node.specs.SafeSteps.{ActsSafely};

use crate::node::Node;
use lk_leader::yet_to_accept;
use lk_node_interface::Outbox;
use lk_state::Machine;
use lk_types::{NoMemory, Position, RealBallot, Vote};
use lk_wire::NodeMessage;

impl<M: Machine> Node<M> {
    // Sends Prepare again to the nodes of the window whose promise the term, of this ballot, does not have.
    fn resend_prepares(&self, ballot: RealBallot, out: &mut Outbox) -> Result<(), NoMemory>
        requires { IsTermOf ballot self.now.leader }
        ensures exact { OnOk result (AsksAgain self.now ballot out.old out.new) }
        ensures safe { OnOk result (ActsSafely M.meaning (λ h. Unit {0}) self.now self.now out.old out.new) }
    {
        self.facts();
        let Some(first) = Position::of(self.learner.whole().executed().get() + 1) else {
            return Ok(());
        };
        let nodes = self.leader.silent_among(self.window_nodes()?);
        self.send_to_all(&nodes, NodeMessage::Prepare(ballot, first), out)?;
        Ok(())
    }

    // Sends Accept again for the undecided proposal at the position in the term of this ballot, if any, to the members
    // that have not accepted it.
    fn resend_accept(
        &self,
        ballot: RealBallot,
        position: Position,
        out: &mut Outbox,
    ) -> Result<(), NoMemory>
        requires { IsTermOf ballot self.now.leader }
        ensures exact { OnOk result (OffersAgain self.now ballot position out.old out.new) }
        ensures safe { OnOk result (ActsSafely M.meaning (λ h. Unit {0}) self.now self.now out.old out.new) }
    {
        self.facts();
        let Some(open) = self.leader.open_at(position, self.roster()) else {
            return Ok(());
        };
        let Some(set) = self.roster().members_at(position) else {
            return Ok(());
        };
        let nodes = yet_to_accept(self.alloc, set, open.accepted)?;
        let command = open.command.copy();
        let vote = Vote {
            position,
            ballot,
            command,
        };
        self.send_to_all(&nodes, NodeMessage::Accept(vote), out)?;
        Ok(())
    }

    // Sends Accept again for the undecided proposals of the window, in order of their positions.
    fn resend_accepts(&self, ballot: RealBallot, out: &mut Outbox) -> Result<(), NoMemory>
        requires { IsTermOf ballot self.now.leader }
        ensures exact { OnOk result (OffersAll self.now ballot out.old out.new) }
        ensures safe { OnOk result (ActsSafely M.meaning (λ h. Unit {0}) self.now self.now out.old out.new) }
    {
        let next = self.learner.whole().executed().get() + 1;
        'ahead: for ahead in 0..self.roster().alpha() {
            if let Some(position) = Position::of(next + u64::from(ahead)) {
                self.resend_accept(ballot, position, out)?;
            }
        }
        Ok(())
    }

    // Sends Lead to the other nodes of the window: who leads, and how many positions it has executed.
    pub(crate) fn send_lead(&self, ballot: RealBallot, out: &mut Outbox) -> Result<(), NoMemory>
        ensures exact { OnOk result (TellsLead self.now ballot out.old out.new) }
        ensures safe { OnOk result (ActsSafely M.meaning (λ h. Unit {0}) self.now self.now out.old out.new) }
    {
        let nodes = self.others()?;
        let executed = self.learner.whole().executed();
        self.send_to_all(&nodes, NodeMessage::Lead(ballot, executed), out)?;
        Ok(())
    }

    // Handles a tick in a term of this ballot: sends Prepare and Accept again, proposes what it can, and sends Lead.
    pub(crate) fn remind(&mut self, ballot: RealBallot) -> Result<Outbox, NoMemory>
        requires { IsTermOf ballot self.old.leader }
        ensures exact { IfOk result (λ o. Reminds ballot self.old self.new o) }
        ensures done { OnOk result (NothingToPropose self.new) }
        ensures safe { IfOk result (λ o. ActsSafely M.meaning (λ h. Unit {0}) self.old self.new nothing o) }
    {
        let mut out = Outbox::new(self.alloc);
        self.resend_prepares(ballot, &mut out)?;
        self.resend_accepts(ballot, &mut out)?;
        self.propose(&mut out)?;
        self.send_lead(ballot, &mut out)?;
        Ok(out)
    }
}
