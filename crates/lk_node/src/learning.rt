// How a node learns decided commands.
ghost use Rattle.std.specs.Prelude.{◌≡◌, ℕ, None, [], length, IfOk, IfSome, OnOk};
ghost use Rattle.lk_messages.specs.declared.message.NodeMessage.TheVariants as kinds;
ghost use Rattle.lk_agreement_laws.specs.Chosen.{ChosenAt};
ghost use Rattle.lk_agreement_laws.specs.Datagrams.{HasSent};
ghost use Rattle.lk_node_interface.specs.Outboxes.{nothing};
ghost use Rattle.lk_node.specs.DecidedPairs.{LearnsPair, LearnsFirst, LearnsPairs};
ghost use Rattle.lk_node.specs.Learning.{Learns};
ghost use Rattle.lk_node.specs.SafeSteps.{ActsSafely};

use crate::node::Node;
use lk_learner::position_behind;
use lk_node_interface::Outbox;
use lk_state::Machine;
use lk_types::{Command, Entry, NoMemory, Position};
use lk_wire::{Commands, DecidedRef};

impl<M: Machine> Node<M> {
    // Keeps a decided command and writes its entry, if the learner wants the position; otherwise changes nothing.
    pub(crate) fn learn(
        &mut self,
        position: Position,
        command: &Command,
        out: &mut Outbox,
    ) -> Result<(), NoMemory>
        ensures exact { OnOk result (Learns (position, command.now) self.old out.old self.new out.new) }
        ensures safe { OnOk result
            (ActsSafely M.meaning (λ h. ChosenAt h.genesis h.sent position command.now) self.old self.new out.old
            out.new) }
    {
        self.nothing_to_propose = false;
        if self.learner.decided(position, command) {
            out.write(Entry::Decided(position, command.copy()))?;
        }
        Ok(())
    }

    // Keeps and writes a command that is chosen at the position, and then executes what it can.
    pub(crate) fn learn_pair(
        &mut self,
        position: Position,
        command: &Command,
        out: &mut Outbox,
    ) -> Result<(), NoMemory>
        ensures exact { OnOk result (LearnsPair M.meaning (position, command.now) self.old out.old self.new out.new) }
        ensures safe { OnOk result
            (ActsSafely M.meaning (λ h. ChosenAt h.genesis h.sent position command.now) self.old self.new out.old
            out.new) }
    {
        self.learn(position, command, out)?;
        self.execute(out)?;
        Ok(())
    }

    // Takes the first of these commands as the one decided at the position, and executes what it can. Skips it unread
    // if the learner does not want the position. Returns the commands after it, or `None` if there is no first one.
    fn learn_first<'a>(
        &mut self,
        position: Position,
        told: &Commands<'a>,
        out: &mut Outbox,
    ) -> Result<Option<Commands<'a>>, NoMemory>
        ensures some { IfOk result
            (λ x. IfSome x (λ others. LearnsFirst M.meaning position told.now others self.old
            out.old self.new out.new)) }
        ensures none { IfOk result (λ x. x ≡ None → told.now ≡ []) }
    {
        if !self.learner.is_wanted(position) {
            self.execute(out)?;
            return Ok(told.skip());
        }
        let Some((command, others)) = told.read() else {
            return Ok(None);
        };
        self.learn_pair(position, &command, out)?;
        Ok(Some(others))
    }

    // Handles Decided: takes its commands in order, the first at position `first`.
    pub(crate) fn handle_decided(&mut self, decided: &DecidedRef<'_>) -> Result<Outbox, NoMemory>
        ensures exact { IfOk result
            (λ o. LearnsPairs M.meaning decided.now.first decided.now.commands self.old nothing
            (length decided.now.commands) self.new o) }
        ensures safe { (from : ℕ)
            → IfOk result (λ o. ActsSafely M.meaning
            (λ h. HasSent h.genesis h.sent from (kinds.Decided decided.now)) self.old self.new nothing o) }
    {
        decided.facts();
        let mut out = Outbox::new(self.alloc);
        let mut rest = decided.commands().copy();
        'pairs: for index in 0..decided.commands().len() {
            let position = position_behind(decided.first(), index);
            let Some(others) = self.learn_first(position, &rest, &mut out)? else {
                return Ok(out);
            };
            rest = others;
        }
        Ok(out)
    }
}
