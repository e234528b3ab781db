// How a node handles a part of another node's snapshot.
ghost use Rattle.std.specs.Prelude.{◌≡◌, ℕ, IfOk, OnOk};
ghost use Rattle.lk_messages.specs.declared.message.NodeMessage.TheVariants as kinds;
ghost use Rattle.lk_agreement_laws.specs.Datagrams.{HasSent};
ghost use Rattle.lk_node_interface.specs.Outboxes.{nothing};
ghost use Rattle.lk_node.specs.Installing.{GathersPart, EndsWaits, InstallsGathered, HandlesPart};
ghost use Rattle.lk_node.specs.SafeSteps.{ActsSafely};

use crate::node::Node;
use lk_node_interface::Outbox;
use lk_state::Machine;
use lk_types::NoMemory;
use lk_wire::PartRef;

impl<M: Machine> Node<M> {
    // Adds the part to the gathered text, and installs the text if it is complete and a state's. Returns whether it
    // installed one.
    fn add_part(&mut self, part: &PartRef<'_>) -> Result<bool, NoMemory>
        ensures { IfOk result (λ went. GathersPart M.IsText went part.now self.old self.new) }
    {
        self.nothing_to_propose = false;
        self.learner.add_part(part)?;
        let went = self.learner.install()?;
        Ok(went)
    }

    // Replies to the waiting requests up to the sessions of the learner's state, in rising order of clients.
    fn reply_to_all_waiting(&mut self, out: &mut Outbox) -> Result<(), NoMemory>
        ensures { OnOk result (EndsWaits self.old.learner.whole.sessions self.old out.old self.new out.new) }
    {
        let count = self.learner.whole().sessions().len();
        'sessions: for index in 0..count {
            let session = self.learner.whole().sessions()[index];
            self.reply_to_waiting(session, out)?;
        }
        Ok(())
    }

    // Finishes after the learner has installed a state: asks for a rebase of the store, replies to waiting requests
    // from the state's sessions, ends the term if the window does not name the node, and executes what it can.
    fn install_gathered(&mut self) -> Result<Outbox, NoMemory>
        ensures exact { IfOk result (λ o. InstallsGathered M.meaning self.old self.new o) }
        ensures safe { IfOk result (λ o. ActsSafely M.meaning (λ h. Unit {0}) self.old self.new nothing o) }
    {
        self.learner.whole().facts();
        let mut out = Outbox::new(self.alloc);
        out.rebase_store();
        self.reply_to_all_waiting(&mut out)?;
        self.end_term_outside();
        self.execute(&mut out)?;
        Ok(out)
    }

    // Handles a part of another node's snapshot: adopts the snapshot if it is now complete.
    pub(crate) fn handle_part(&mut self, part: &PartRef<'_>) -> Result<Outbox, NoMemory>
        ensures exact { IfOk result (λ o. HandlesPart M.meaning M.IsText self.old part.now self.new o) }
        ensures safe { (from : ℕ)
            → IfOk result (λ o. ActsSafely M.meaning
            (λ h. HasSent h.genesis h.sent from (kinds.Part part.now)) self.old self.new nothing o) }
    {
        self.header.genesis().facts();
        if !self.add_part(part)? {
            return Ok(Outbox::new(self.alloc));
        }
        let out = self.install_gathered()?;
        Ok(out)
    }
}
