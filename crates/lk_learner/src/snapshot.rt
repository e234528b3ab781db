// How a learner handles snapshots: its own, which it serves in parts, and those of others, which it gathers and
// installs.
ghost use Rattle.std.specs.Prelude.{◌≡◌, ◌<◌, ◌≤◌, ◌↔◌, length, Ok, Some, None, [], IsTrue, IfSome, IfOk, OnOk, OnErr};
ghost use Rattle.lk_state.specs.Packed.{packed};
ghost use Rattle.lk_learner.specs.Learners.{WholeValue, GatheredValue, executed, alpha};
ghost use Rattle.lk_learner.specs.Parts.{start_of, AreParts};
ghost use Rattle.lk_learner.specs.Gathering.{is_usable};
ghost use Rattle.lk_learner.specs.Installing.{hearing, HasWhole, MayInstall, pairs_above, installed, Installs};
ghost use Rattle.lk_learner.specs.Installing.{with_gathered};

use crate::gathering::add_part;
use crate::learner::Learner;
use crate::pair::Pair;
use crate::parts::parts_from;
use arrayvec::ArrayVec;
use lk_messages::{Part, PartRef};
use lk_state::{Machine, Whole};
use lk_types::limits::MAX_VOTES;
use lk_types::{Executed, NoMemory, Position};

// Removes the pairs up to a position.
fn forget_to(pairs: &mut ArrayVec<Pair, MAX_VOTES>, position: Executed)
    ensures { pairs.new.items ≡ pairs_above position pairs.old.items }
{
    pairs.retain(|pair| pair.position.get() > position.get());
}

impl<M: Machine> Learner<M> {
    /// Returns the reply to a node that asks for commands from the position on, if the snapshot has replaced it: the
    /// snapshot's text from the offset on, or from its start if the offset is not below its length, in up to 8 parts
    /// of 1,024 bytes each, except for the last part of the text. Nothing if the position is above the snapshot. It
    /// needs memory for the bytes.
    pub fn parts(&self, first: Position, offset: u32) -> Result<Vec<Part>, NoMemory>
        ensures some { first ≤ self.now.snapshot_position
            → IfOk result (λ parts. AreParts self.now.snapshot_position self.now.snapshot
            (start_of offset self.now.snapshot) parts.items) }
        ensures none { self.now.snapshot_position < first → IfOk result (λ parts. parts.items ≡ []) }
        ensures memory { OnErr result (first ≤ self.now.snapshot_position) }
    {
        match Position::of(self.snapshot_position.get()) {
            Some(position) if first <= position => {
                parts_from(self.alloc, position, &self.snapshot, offset)
            }
            _ => Ok(Vec::new(self.alloc)),
        }
    }

    /// Handles a part of another node's snapshot. A part at an executed position is dropped. One at a greater position
    /// than that of the gathered text starts gathering afresh; any other part is appended if it is of the same
    /// snapshot and continues the text, and dropped otherwise. It needs memory for appended bytes; a failed call
    /// changes nothing.
    pub fn add_part(&mut self, part: &PartRef<'_>) -> Result<(), NoMemory>
        ensures ok { OnOk result (self.new ≡ hearing part.now self.old) }
        ensures err { OnErr result (self.new ≡ self.old) }
        ensures memory { OnErr result (IsTrue (is_usable (executed self.old) self.old.gathered part.now)) }
    {
        let executed = self.whole.executed();
        add_part(self.alloc, executed, &mut self.gathered, part)?;
        Ok(())
    }

    /// Throws away what it has gathered of another node's snapshot.
    pub fn forget_gathered(&mut self)
        ensures { self.new ≡ with_gathered None self.old }
    {
        self.gathered = None;
    }

    // Whether all bytes of another node's snapshot are gathered.
    fn has_whole(&self) -> bool
        ensures { IsTrue result ↔ ((g : GatheredValue) × HasWhole self.now g) }
    {
        match &self.gathered {
            Some(gathered) => gathered.is_whole(),
            None => false,
        }
    }

    // Unpacks the gathered text. Returns `None` if its position is executed already, or it is no state's text.
    fn gathered_state(&self) -> Result<Option<Whole<M>>, NoMemory>
        ensures some { (g : GatheredValue) → HasWhole self.now g
            → IfOk result (λ found. IfSome found (λ w. MayInstall M.IsText self.now w)) }
        ensures none { result ≡ Ok None → (w : WholeValue) → MayInstall M.IsText self.now w → ⊥ }
        ensures memory { OnErr result
            ((g : GatheredValue) × (self.now.gathered ≡ Some g) × (executed self.now < g.position)) }
    {
        let Some(gathered) = &self.gathered else {
            return Ok(None);
        };
        if gathered.position().get() <= self.whole.executed().get() {
            return Ok(None);
        }
        gathered.state(self.alloc, self.whole.roster().alpha())
    }

    // Adopts a state, with its packed text as the snapshot. Drops what it replaces: the executed commands, the pairs up
    // to its position, and what was gathered.
    fn adopt_snapshot(&mut self, whole: Whole<M>, snapshot: Vec<u8>)
        requires text { snapshot.items ≡ packed whole }
        requires above { executed self.old ≤ whole.roster.executed }
        requires sets { length whole.roster.sets ≡ alpha self.old }
        ensures { self.new ≡ installed whole self.old }
    {
        whole.facts();
        forget_to(&mut self.pairs, whole.executed());
        self.snapshot_position = whole.executed();
        self.whole = whole;
        self.snapshot = snapshot;
        self.retained = Vec::new(self.alloc);
        self.gathered = None;
    }

    /// Installs the state of a gathered text, once that is complete: it replaces what was executed, and pairs up to its
    /// position are forgotten. A complete text is thrown away unless it is that of a state at its position, above what
    /// is executed, with the same alpha. Returns whether a state was installed. It needs memory for the state; a failed
    /// call changes nothing.
    pub fn install(&mut self) -> Result<bool, NoMemory>
        ensures exact { IfOk result (λ went. Installs M.IsText went self.old self.new) }
        ensures err { OnErr result (self.new ≡ self.old) }
        ensures memory { OnErr result ((g : GatheredValue) × HasWhole self.old g × (executed self.old < g.position)) }
    {
        if !self.has_whole() {
            return Ok(false);
        }
        let state = self.gathered_state()?;
        let Some(gathered) = self.gathered.take() else {
            return Ok(false);
        };
        let Some(whole) = state else {
            return Ok(false);
        };
        self.adopt_snapshot(whole, gathered.into_bytes());
        Ok(true)
    }
}
