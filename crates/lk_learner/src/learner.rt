ghost use Rattle.std.specs.Prelude.{◌≡◌, IfOk};
ghost use Rattle.lk_types.specs.Limits.{max_base, max_count};

use crate::gathered::Gathered;
use crate::pair::{Pair, index_of, is_kept};
use arrayvec::ArrayVec;
use bytes::BytesMut;
use lk_messages::{Decided, Want};
use lk_state::{Machine, Ran, Whole};
use lk_types::limits::{MAX_COMMANDS, MAX_VOTES};
use lk_types::{Command, Executed, NoMemory, Position};
use std::alloc::Global;
use std::marker::Model;

/// What a node has learned of the list of commands: the state after those that it has executed (`whole`), the position
/// and packed text of its snapshot, the commands executed since then (`retained`), decided commands of later positions
/// (`pairs`), and what it has gathered of another node's snapshot.
#[derive(Drop)]
pub struct Learner<M: Machine> {
    pub(crate) alloc: Global,
    pub(crate) whole: Whole<M>,
    pub(crate) snapshot_position: Executed,
    pub(crate) snapshot: Vec<u8>,
    pub(crate) retained: Vec<Command>,
    pub(crate) pairs: ArrayVec<Pair, MAX_VOTES>,
    pub(crate) gathered: Option<Gathered>,
}

impl<M: Machine> Model for Learner<M> {
    ghost use Rattle.lk_learner.specs.Learners.{LearnerValue, IsLearner};

    ghost Value = { LearnerValue };

    ghost view = { λ l. record {
      whole = l.whole;
      snapshot_position = l.snapshot_position;
      snapshot = l.snapshot.items;
      retained = l.retained.items;
      pairs = l.pairs.items;
      gathered = l.gathered;
    } };

    ghost invariant = { λ l. IsLearner
        (record {
          whole = l.whole;
          snapshot_position = l.snapshot_position;
          snapshot = l.snapshot.items;
          retained = l.retained.items;
          pairs = l.pairs.items;
          gathered = l.gathered;
        }) };
}

impl<M: Machine> Learner<M> {
    ghost use Rattle.std.specs.Prelude.{◌≡◌, ◌↔◌, ◌+◌, ◌-◌, ◌*◌, ◌<◌, ◌≤◌, ◌++◌, Some, None, false, List, [], ◌∷◌};
    ghost use Rattle.std.specs.Prelude.{IsTrue, OnOk, OnErr, IfOk, MatchOption, Ok, slice_get, length, take, drop};
    ghost use Rattle.lk_state.specs.Packed.{packed};
    ghost use Rattle.std.specs.Option.{option_copied};
    ghost use Rattle.lk_members.specs.Effects.{Command, in_effect};
    ghost use Rattle.lk_members.specs.Rosters.{Genesis};
    ghost use Rattle.lk_state.specs.States.{SumsUp, reply_of};
    ghost use Rattle.lk_state.specs.Runs.{run_answer};
    ghost use Rattle.lk_learner.specs.Learners.{IsLearner, executed, alpha, begun, IsWanted, keeping, IsNext, advanced};
    ghost use Rattle.lk_learner.specs.Learners.{with_snapshot, IsRetained, decided_from, gathered_bytes, wanted};

    /// Creates a learner from a state and its packed text, which becomes its snapshot. Takes no memory.
    pub fn new(alloc: Global, whole: Whole<M>, snapshot: Vec<u8>) -> Learner<M>
        requires text { snapshot.items ≡ packed whole }
        ensures { result ≡ begun whole }
    {
        let snapshot_position = whole.executed();
        let _ = whole.roster().alpha();
        whole.facts();
        Learner {
            alloc,
            whole,
            snapshot_position,
            snapshot,
            retained: Vec::new(alloc),
            pairs: ArrayVec::new(),
            gathered: None,
        }
    }

    /// The state after the executed commands.
    pub fn whole(&self) -> &Whole<M>
        ensures { result.now ≡ self.now.whole }
    {
        &self.whole
    }

    /// The decided commands that are kept until they are executed, strictly rising by position.
    pub fn pairs(&self) -> &[Pair]
        ensures { result.now ≡ self.now.pairs }
    {
        self.pairs.as_slice()
    }

    /// Shows the prover that the kept pairs are of the next positions, one each, and that no command since the snapshot
    /// is missing. Does nothing at run time.
    pub fn facts(&self)
        ensures { IsLearner self.now }
    {
        let _ = self.pairs.as_slice();
    }

    // Whether the position is one of the next 2 alpha ones.
    fn is_near(&self, position: Position) -> bool
        ensures { IsTrue result ↔ ((executed self.now < position)
            × (position ≤ executed self.now + 2 * alpha self.now)) }
    {
        let executed = self.whole.executed().get();
        let farthest = executed + 2 * u64::from(self.whole.roster().alpha());
        executed < position.get() && position.get() <= farthest
    }

    /// Whether `decided` would keep a command of the position: it is one of the next 2 alpha ones, and no command of it
    /// is kept yet.
    pub fn is_wanted(&self, position: Position) -> bool
        ensures { IsTrue result ↔ IsWanted self.now position }
    {
        self.is_near(position) && !is_kept(self.pairs.as_slice(), position)
    }

    /// Keeps a decided command until it is executed, if its position `is_wanted`, and drops it otherwise. Returns
    /// whether it was kept. Takes no memory.
    pub fn decided(&mut self, position: Position, command: &Command) -> bool
        ensures wanted { IsTrue result ↔ IsWanted self.old position }
        ensures kept { IsTrue result → self.new ≡ keeping (position, command.now) self.old }
        ensures unchanged { result ≡ false → self.new ≡ self.old }
    {
        if !self.is_wanted(position) {
            return false;
        }
        let executed = self.whole.executed().get();
        let index = index_of(self.pairs.as_slice(), position, executed);
        self.pairs
            .insert(index, Pair::new(position, command.copy()));
        true
    }

    // Whether the command of the next position is kept.
    fn is_next_kept(&self) -> bool
        ensures next { IsTrue result ↔ ((v : Command) × IsNext self.now v) }
        ensures room { IsTrue result → executed self.now < max_count }
    {
        let next = self.whole.executed().get() + 1;
        match self.pairs.as_slice().first() {
            Some(pair) => pair.position.get() == next,
            None => false,
        }
    }

    /// Executes the command of the next position, if it is kept, and moves it from the kept pairs to the commands since
    /// the snapshot. Returns its position and answer; `None` if it is not kept. It needs memory for the list of these
    /// commands and for a body that the machine executes; a failed call changes nothing.
    pub fn execute_next(&mut self) -> Result<Option<Ran>, NoMemory>
        ensures next { (v : Command) → IsNext self.old v → OnOk result (self.new ≡ advanced M.meaning v self.old) }
        ensures ran { (v : Command) → IsNext self.old v
            → IfOk result (λ r. r ≡ Some
            (record { position = executed self.old + 1; answer = run_answer M.meaning v self.old.whole })) }
        ensures none { ((v : Command) → IsNext self.old v → ⊥) → (self.new ≡ self.old) × (result ≡ Ok None) }
        ensures err { OnErr result (self.new ≡ self.old) }
        ensures memory { OnErr result ((v : Command) × IsNext self.old v) }
        ensures reply { (genesis : Genesis) (L : List Command) (v : Command)
            → SumsUp M.meaning genesis L self.old.whole → IsNext self.old v
            → IfOk result (λ r. r ≡ Some
            (record {
              position = executed self.old + 1;
              answer = reply_of M.meaning genesis (L ++ v ∷ []) (in_effect L v);
            })) }
    {
        if !self.is_next_kept() {
            return Ok(None);
        }
        // Room is reserved first: once the command is executed nothing may fail.
        self.retained.reserve(1)?;
        let ran = self.whole.run(self.pairs[0].command())?;
        let pair = self.pairs.remove(0);
        self.retained.push(pair.command).unwrap();
        Ok(Some(ran))
    }

    /// Packs the state after the executed commands. It needs memory for the text, at most 38,782 bytes,
    /// or 36,030 and 43 for each set of members.
    pub fn pack_now(&self) -> Result<BytesMut, NoMemory>
        ensures text { IfOk result (λ t. t.items ≡ packed self.now.whole) }
        ensures some { IfOk result (λ t. 1 ≤ length t.items) }
        ensures room { IfOk result (λ t. length t.items ≤ 38782) }
        ensures by_alpha { IfOk result (λ t. length t.items ≤ 36030 + 43 * alpha self.now) }
    {
        self.whole.facts();
        let mut text = BytesMut::new(self.alloc);
        self.whole.pack(&mut text)?;
        Ok(text)
    }

    /// Replaces the commands executed since the last snapshot by a snapshot of the state, of this packed text. Takes no
    /// memory.
    pub fn set_snapshot(&mut self, snapshot: Vec<u8>)
        requires text { snapshot.items ≡ packed self.old.whole }
        ensures { self.new ≡ with_snapshot self.old }
    {
        self.whole.facts();
        self.snapshot_position = self.whole.executed();
        self.snapshot = snapshot;
        self.retained = Vec::new(self.alloc);
    }

    /// Returns what to ask another node for: the commands from the next position on, or the rest of the snapshot being
    /// gathered. `None` if 2^48 positions are executed, after which there is none. Takes no memory.
    pub fn want(&self) -> Option<Want>
        ensures { MatchOption result (executed self.now ≡ max_count) (λ w. w ≡ wanted self.now) }
    {
        let first = Position::of(self.whole.executed().get() + 1)?;
        Want::of(first, self.gathered_bytes())
    }

    /// How many bytes of a snapshot are gathered, at most 65,536.
    pub fn gathered_bytes(&self) -> u32
        ensures value { result ≡ gathered_bytes self.now.gathered }
        ensures room { result ≤ max_base }
    {
        match &self.gathered {
            Some(gathered) => gathered.length(),
            None => 0,
        }
    }

    // Returns the index that the position has in `retained`; at or past its end if the position is not executed. `None`
    // if the snapshot has replaced it.
    fn retained_index(&self, position: Position) -> Option<usize>
        ensures { MatchOption result (position ≤ self.now.snapshot_position)
            (λ k. (self.now.snapshot_position < position) × (k ≡ position - (self.now.snapshot_position + 1))) }
    {
        let behind = position
            .get()
            .checked_sub(self.snapshot_position.get() + 1)?;
        Some(behind as usize)
    }

    /// Returns the command that was executed at the position. `None` if it is not executed, or the snapshot has
    /// replaced it.
    pub fn executed_at(&self, position: Position) -> Option<&Command>
        ensures some { MatchOption result (IsRetained self.now position → ⊥)
            (λ v. IsRetained self.now position
            × (slice_get self.now.retained (position - (self.now.snapshot_position + 1)) ≡ Some v.now)) }
    {
        self.retained.get(self.retained_index(position)?)
    }

    // Returns the executed commands from the position on, up to 16. `None` if the position is not executed, or the
    // snapshot has replaced it.
    fn commands_from(&self, first: Position) -> Option<&[Command]>
        ensures { MatchOption result (IsRetained self.now first → ⊥)
            (λ vs. IsRetained self.now first × (vs.now ≡ (decided_from first self.now).commands)) }
    {
        let start = self.retained_index(first)?;
        let count = self.retained.len();
        if start >= count {
            return None;
        }
        let end = count.min(start + MAX_COMMANDS);
        self.retained.get(start..end)
    }

    /// Returns the reply to a node that asks for the commands from `first` on: up to 16 of them, up to the last
    /// executed one. `None` if `first` is not executed, or the snapshot has replaced it: then `parts` is the reply.
    pub fn serve(&self, first: Position) -> Result<Option<Decided>, NoMemory>
        ensures some { IsRetained self.now first → IfOk result (λ d. d ≡ Some (decided_from first self.now)) }
        ensures none { (IsRetained self.now first → ⊥) → result ≡ Ok None }
        ensures memory { OnErr result (IsRetained self.now first) }
    {
        let _ = self.whole.executed().get();
        let Some(commands) = self.commands_from(first) else {
            return Ok(None);
        };
        let commands = copied(self.alloc, commands)?;
        Ok(Decided::of(first, commands))
    }
}

// Copies the commands.
fn copied(alloc: Global, commands: &[Command]) -> Result<Vec<Command>, NoMemory>
    ensures { IfOk result (λ vs. vs.items ≡ commands.now) }
{
    let mut copies = Vec::new(alloc);
    for command in commands {
        copies.push(command.copy())?;
    }
    Ok(copies)
}
