// What a node executes, and which clients it answers as a result.
ghost use Rattle.std.specs.Prelude.{◌≡◌, IfOk, OnOk};
ghost use Rattle.lk_node.specs.Executing.{EndsWait, EndsWaitIfAny, RunsNext, is_outside};
ghost use Rattle.lk_node.specs.Executing.{without_term_if_outside, ExecutesOne, RunsAll};
ghost use Rattle.lk_node.specs.SafeSteps.{ActsSafely};

use crate::node::Node;
use lk_node_interface::{Note, Outbox, To, session_of, session_reply};
use lk_state::{Machine, Ran, Session};
use lk_types::{Command, NoMemory};

impl<M: Machine> Node<M> {
    // Replies to the client's waiting request, and removes it, if its number is at most that of the session, which has
    // just become the client's last.
    pub(crate) fn reply_to_waiting(
        &mut self,
        session: Session,
        out: &mut Outbox,
    ) -> Result<(), NoMemory>
        ensures { OnOk result (EndsWait session self.old out.old self.new out.new) }
    {
        self.nothing_to_propose = false;
        let Some(number) = self.leader.ran(session.client, session.number) else {
            return Ok(());
        };
        self.send(
            To::Client(session.client),
            session_reply(session, number),
            out,
        )?;
        Ok(())
    }

    // Does `reply_to_waiting` if executing a command has left a session.
    fn reply_if_answered(
        &mut self,
        session: Option<Session>,
        out: &mut Outbox,
    ) -> Result<(), NoMemory>
        ensures { OnOk result (EndsWaitIfAny session self.old out.old self.new out.new) }
    {
        let Some(session) = session else {
            return Ok(());
        };
        self.reply_to_waiting(session, out)?;
        Ok(())
    }

    // Whether there is a term, and no set of the window names the node.
    fn is_outside(&self) -> bool
        ensures { result ≡ is_outside self.now }
    {
        self.leader.has_term() && !self.roster().is_in_window(self.header.node())
    }

    // Ends the term if no set of the window names the node: such a node does not lead.
    pub(crate) fn end_term_outside(&mut self)
        ensures { self.new ≡ without_term_if_outside self.old }
    {
        if self.is_outside() {
            self.leave_term();
        }
    }

    // Executes the command of the next position, if it is kept, and returns it with its position and answer.
    fn run_next(&mut self) -> Result<Option<(Command, Ran)>, NoMemory>
        ensures { IfOk result (λ r. RunsNext M.meaning self.old self.new r) }
    {
        self.learner.facts();
        self.nothing_to_propose = false;
        let Some(ran) = self.learner.execute_next()? else {
            return Ok(None);
        };
        let Some(command) = self.learner.executed_at(ran.position) else {
            return Ok(None);
        };
        Ok(Some((command.copy(), ran)))
    }

    // Executes the command of the next position, if it is kept: notes it, replies to its client's waiting request, and
    // ends the term of a node that the window names no longer. Returns whether it was kept.
    fn execute_one(&mut self, out: &mut Outbox) -> Result<bool, NoMemory>
        ensures exact { IfOk result (λ went. ExecutesOne M.meaning went self.old out.old self.new out.new) }
        ensures safe { OnOk result (ActsSafely M.meaning (λ h. Unit {0}) self.old self.new out.old out.new) }
    {
        self.learner.facts();
        let Some((command, ran)) = self.run_next()? else {
            return Ok(false);
        };
        let session = session_of(&command, ran.answer);
        out.note(Note::Ran(self.header.node(), ran.position, command))?;
        self.reply_if_answered(session, out)?;
        self.end_term_outside();
        Ok(true)
    }

    // Executes positions in order, as long as the command of the next one is kept.
    pub(crate) fn execute(&mut self, out: &mut Outbox) -> Result<(), NoMemory>
        ensures exact { OnOk result (RunsAll M.meaning self.old out.old self.new out.new) }
        ensures safe { OnOk result (ActsSafely M.meaning (λ h. Unit {0}) self.old self.new out.old out.new) }
    {
        'positions: loop {
            if !self.execute_one(out)? {
                return Ok(());
            }
        }
    }
}
