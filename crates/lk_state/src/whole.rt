ghost use Rattle.std.specs.Prelude.{◌≡◌};
ghost use Rattle.lk_types.specs.Limits.{max_count};
ghost use Rattle.lk_state.specs.Runs.{seen_as};

use crate::machine::Machine;
use crate::session::{Session, Sessions};
use lk_members::Roster;
use lk_types::{
    Answer, ClientNo, Command, Executed, Genesis, NoMemory, Op, Position, Request, RequestNumber,
};
use std::alloc::Global;
use std::marker::Model;

/// How a request's number compares with that of its client's last request that took effect.
#[derive(Clone, Copy)]
pub enum Seen {
    /// Its number is above the client's last one, or the client has none: it would take effect.
    New,
    /// It has the number of the client's last one, which got this answer.
    Same(Answer),
    /// Its number is below the client's last one, which is this.
    Passed(RequestNumber),
}

impl Seen {
    /// Compares a number with that of its client's last request that took effect, `None` if there is none.
    pub fn of(last: Option<Session>, number: RequestNumber) -> Seen
        ensures { result ≡ seen_as last number }
    {
        let Some(last) = last else {
            return Seen::New;
        };
        if number == last.number {
            return Seen::Same(last.answer);
        }
        if number < last.number {
            return Seen::Passed(last.number);
        }
        Seen::New
    }
}

/// The result of executing a command.
#[derive(Clone, Copy)]
pub struct Ran {
    /// The position of the command.
    pub position: Position,
    /// The answer to its request; `None` for a no-op, and for a request that did not take effect.
    pub answer: Option<Answer>,
}

/// The state after the list of commands: the roster, each client's last request that took effect, and the machine.
#[derive(Drop)]
pub struct Whole<M: Machine> {
    pub(crate) alloc: Global,
    pub(crate) roster: Roster,
    pub(crate) sessions: Sessions,
    pub(crate) machine: M,
}

impl<M: Machine> Model for Whole<M> {
    ghost use Rattle.lk_state.specs.States.{WholeValue};

    ghost Value = { WholeValue };

    ghost use Rattle.lk_state.specs.Packed.{IsWhole};

    ghost view = { λ w. record { roster = w.roster; sessions = w.sessions; text = M.text w.machine } };

    ghost invariant = { λ w. IsWhole M.IsText
        (record { roster = w.roster; sessions = w.sessions; text = M.text w.machine }) };
}

impl<M: Machine> Whole<M> {
    ghost use Rattle.std.specs.Prelude.{◌≡◌, ◌+◌, ◌<◌, ◌++◌, None, false, List, [], ◌∷◌, OnOk, OnErr, IfOk, IsOk};
    ghost use Rattle.lk_types.specs.Ranges.{IsCount};
    ghost use Rattle.lk_members.specs.Effects.{Command, in_effect};
    ghost use Rattle.lk_members.specs.Rosters.{Genesis};
    ghost use Rattle.lk_members.specs.Windows.{newest_roster, changed_by};
    ghost use Rattle.lk_state.specs.Sessions.{session_of, is_new, with_session};
    ghost use Rattle.lk_state.specs.States.{SumsUp, next_text, op_answer, reply_of, last_session};
    ghost use Rattle.lk_state.specs.Runs.{in_effect_now, after_request, ran, run_answer, is_table, is_body, seen_as};

    /// The state before any command. Takes no memory.
    pub fn begin(alloc: Global, genesis: &Genesis) -> Whole<M>
        ensures { SumsUp M.meaning genesis.now [] result }
    {
        let roster = Roster::begin(genesis);
        roster.facts();
        Whole {
            alloc,
            roster,
            sessions: Sessions::new(),
            machine: M::begin(alloc),
        }
    }

    /// The roster.
    pub fn roster(&self) -> &Roster
        ensures { result.now ≡ self.now.roster }
    {
        &self.roster
    }

    /// How many positions are executed.
    pub fn executed(&self) -> Executed
        ensures { result ≡ self.now.roster.executed }
    {
        self.roster.executed()
    }

    /// Each client's last request that took effect, with its answer, rising by client.
    pub fn sessions(&self) -> &[Session]
        ensures { result.now ≡ self.now.sessions }
    {
        self.sessions.as_slice()
    }

    /// The state machine: of `locks`, the lock table.
    pub fn machine(&self) -> &M
        ensures { M.text result.now ≡ self.now.text }
    {
        &self.machine
    }

    /// Compares a request's number with that of its client's last one that took effect.
    pub fn seen(&self, client: ClientNo, number: RequestNumber) -> Seen
        ensures value { result ≡ seen_as (session_of client self.now.sessions) number }
        ensures last { (genesis : Genesis) (L : List Command) → SumsUp M.meaning genesis L self.now
            → result ≡ seen_as (last_session M.meaning genesis L client) number }
    {
        Seen::of(self.sessions.get(client), number)
    }

    // Returns whether the client's request of this number would take effect now.
    fn is_new(&self, client: ClientNo, number: RequestNumber) -> bool
        ensures { result ≡ is_new (session_of client self.now.sessions) number }
    {
        match self.sessions.get(client) {
            Some(last) => last.number < number,
            None => true,
        }
    }

    /// Executes the next command of the list. Only a body that the machine executes may need memory; a failed call
    /// changes nothing.
    pub fn run(&mut self, command: &Command) -> Result<Ran, NoMemory>
        requires { self.old.roster.executed < max_count }
        ensures ok { OnOk result (self.new ≡ ran M.meaning command.now self.old) }
        ensures position { IfOk result (λ r. r.position ≡ self.old.roster.executed + 1) }
        ensures answer { IfOk result (λ r. r.answer ≡ run_answer M.meaning command.now self.old) }
        ensures err { OnErr result (self.new ≡ self.old) }
        ensures free { is_body (in_effect_now self.old.sessions command.now) ≡ false → IsOk result }

        // If it sums up a list, it then sums up the list with the command at its end, and returns the reply.
        ensures sums { (genesis : Genesis) (L : List Command) → SumsUp M.meaning genesis L self.old
            → OnOk result (SumsUp M.meaning genesis (L ++ command.now ∷ []) self.new) }
        ensures reply { (genesis : Genesis) (L : List Command) → SumsUp M.meaning genesis L self.old
            → IfOk result (λ r. r.answer
            ≡ reply_of M.meaning genesis (L ++ command.now ∷ []) (in_effect L command.now)) }
    {
        let position = self.next_position();
        let answer = self.run_command(command)?;
        Ok(Ran { position, answer })
    }

    // Returns the next position to execute.
    fn next_position(&self) -> Position
        requires { self.now.roster.executed < max_count }
        ensures { result ≡ self.now.roster.executed + 1 }
    {
        Position::of(self.executed().get() + 1).unwrap()
    }

    // Advances by one position with a command, and returns its answer if it takes effect.
    fn run_command(&mut self, command: &Command) -> Result<Option<Answer>, NoMemory>
        requires { self.old.roster.executed < max_count }
        ensures ok { OnOk result (self.new ≡ ran M.meaning command.now self.old) }
        ensures answer { IfOk result (λ a. a ≡ run_answer M.meaning command.now self.old) }
        ensures err { OnErr result (self.new ≡ self.old) }
        ensures free { is_body (in_effect_now self.old.sessions command.now) ≡ false → IsOk result }
    {
        match command {
            Command::Noop => {
                self.advance();
                Ok(None)
            }
            Command::Request(request) => self.run_request(request),
        }
    }

    // Executes an op that takes effect, advancing by one position, and returns its answer. Leaves the sessions alone.
    fn run_op(&mut self, client: ClientNo, op: &Op) -> Result<Answer, NoMemory>
        requires { self.old.roster.executed < max_count }
        ensures ok { OnOk result
            (self.new ≡ record {
              roster = changed_by op.now self.old.roster;
              sessions = self.old.sessions;
              text = next_text M.meaning self.old.text client op.now;
            }) }
        ensures answer { IfOk result
            (λ a. a ≡ op_answer M.meaning (newest_roster self.old.roster) self.old.text client op.now) }
        ensures err { OnErr result (self.new ≡ self.old) }
        ensures free { is_table op.now ≡ false → IsOk result }
    {
        let _ = client.get();
        match op {
            Op::Table(body) => {
                let answer = self.machine.apply(client, body.as_slice())?;
                self.roster.pass();
                self.roster.facts();
                Ok(answer)
            }
            Op::Raise => {
                let answer = self.machine.raise();
                self.roster.pass();
                self.roster.facts();
                Ok(answer)
            }
            Op::Join(..) | Op::Leave(_) => {
                let answer = self.roster.change(op);
                self.roster.facts();
                Ok(answer)
            }
        }
    }

    // Advances by one position with a request, and returns its answer, or `None` if its number is not new.
    fn run_request(&mut self, request: &Request) -> Result<Option<Answer>, NoMemory>
        requires { self.old.roster.executed < max_count }
        ensures ok { OnOk result (self.new ≡ ran M.meaning (Command.Request request.now) self.old) }
        ensures answer { IfOk result (λ a. a ≡ run_answer M.meaning (Command.Request request.now) self.old) }
        ensures err { OnErr result (self.new ≡ self.old) }
        ensures free { is_body (in_effect_now self.old.sessions (Command.Request request.now)) ≡ false → IsOk result }
    {
        if !self.is_new(request.client, request.number) {
            self.advance();
            return Ok(None);
        }
        let answer = self.run_op(request.client, &request.op)?;
        let session = Session::of(request, answer);
        self.keep(&session);
        Ok(Some(session.answer))
    }

    // Advances by one position for a command that does not take effect.
    fn advance(&mut self)
        requires { self.old.roster.executed < max_count }
        ensures { self.new ≡ after_request M.meaning self.old None }
    {
        self.roster.pass();
        self.roster.facts();
    }

    // Keeps a client's last request and its answer, in place of an earlier one.
    fn keep(&mut self, session: &Session)
        ensures { self.new ≡ record self.old { sessions = with_session session.now self.old.sessions } }
    {
        self.sessions.put(session);
        let _ = self.sessions.as_slice();
    }
}
