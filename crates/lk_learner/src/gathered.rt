ghost use Rattle.std.specs.Prelude.{◌≡◌, ◌≤◌, ◌↔◌, IsTrue, IfSome, IfOk, OnOk, OnErr, Ok, None, length};
ghost use Rattle.lk_types.specs.Limits.{max_base};
ghost use Rattle.lk_state.specs.States.{WholeValue};
ghost use Rattle.lk_learner.specs.Unpacking.{Unpacks};
ghost use Rattle.lk_learner.specs.Gathering.{first_bytes, first_gathered, goes_on, with_next};

use lk_messages::PartRef;
use lk_state::{Machine, UnpackFault, Whole};
use lk_types::{NoMemory, Position};
use std::alloc::Global;
use std::marker::Model;

/// The prefix of another node's snapshot text that has arrived so far, part by part and in order.
#[derive(Drop)]
pub struct Gathered {
    position: Position,
    total: u32,
    bytes: Vec<u8>,
}

impl Model for Gathered {
    ghost use Rattle.lk_learner.specs.Learners.{GatheredValue};
    ghost use Rattle.lk_learner.specs.Gathering.{IsGathered};

    ghost Value = { GatheredValue };

    ghost view = { λ g. record { position = g.position; total = g.total; bytes = g.bytes.items } };

    ghost invariant = { λ g. IsGathered (record { position = g.position; total = g.total; bytes = g.bytes.items }) };
}

// Copies the bytes of the part if it is the first one, with offset 0; otherwise returns no bytes.
fn first_bytes(alloc: Global, part: &PartRef<'_>) -> Result<Vec<u8>, NoMemory>
    ensures value { IfOk result (λ bytes. bytes.items ≡ first_bytes part.now) }
    ensures memory { OnErr result (part.now.offset ≡ 0) }
{
    if part.offset() != 0 {
        return Ok(Vec::new(alloc));
    }
    Ok(part.bytes().to_vec(alloc)?)
}

impl Gathered {
    // Starts gathering the part's snapshot: with the part's bytes if it is the first one, otherwise with none.
    pub(crate) fn first_gathered(alloc: Global, part: &PartRef<'_>) -> Result<Gathered, NoMemory>
        ensures value { IfOk result (λ g. g ≡ first_gathered part.now) }
        ensures memory { OnErr result (part.now.offset ≡ 0) }
    {
        part.facts();
        let bytes = first_bytes(alloc, part)?;
        Ok(Gathered {
            position: part.position(),
            total: part.total(),
            bytes,
        })
    }

    /// The position of the snapshot.
    pub fn position(&self) -> Position
        ensures { result ≡ self.now.position }
    {
        self.position
    }

    /// The bytes so far.
    pub fn bytes(&self) -> &[u8]
        ensures { result.now ≡ self.now.bytes }
    {
        &self.bytes
    }

    /// Returns how many bytes are gathered, at most 65,536.
    pub fn length(&self) -> u32
        ensures value { result ≡ length self.now.bytes }
        ensures room { result ≤ max_base }
    {
        self.bytes.len() as u32
    }

    /// Whether all bytes of the snapshot are gathered.
    pub fn is_whole(&self) -> bool
        ensures { IsTrue result ↔ (length self.now.bytes ≡ self.now.total) }
    {
        self.length() == self.total
    }

    // Whether the part is of the same snapshot (position and total agree) and begins where these bytes end.
    fn goes_on(&self, part: &PartRef<'_>) -> bool
        ensures { result ≡ goes_on self.now part.now }
    {
        part.position() == self.position
            && part.total() == self.total
            && part.offset() == self.length()
    }

    // Appends the part if it continues these bytes. It needs memory for its bytes; a failed call changes nothing.
    pub(crate) fn append(&mut self, part: &PartRef<'_>) -> Result<(), NoMemory>
        ensures ok { OnOk result (self.new ≡ with_next self.old part.now) }
        ensures err { OnErr result (self.new ≡ self.old) }
        ensures memory { OnErr result (IsTrue (goes_on self.old part.now)) }
    {
        part.facts();
        if !self.goes_on(part) {
            return Ok(());
        }
        self.bytes.extend_from_slice(part.bytes())?;
        Ok(())
    }

    /// Unpacks the gathered text. Returns `None` if it is no packed state, or that of a state at another position or
    /// with another alpha. It needs memory for the state.
    pub fn state<M: Machine>(&self, alloc: Global, alpha: u8) -> Result<Option<Whole<M>>, NoMemory>
        ensures some { IfOk result
            (λ found. IfSome found (λ w. Unpacks M.IsText alpha self.now.position self.now.bytes w)) }
        ensures none { result ≡ Ok None → (w : WholeValue)
            → Unpacks M.IsText alpha self.now.position self.now.bytes w → ⊥ }
    {
        let whole: Whole<M> = match Whole::unpack(alloc, &self.bytes) {
            Ok(whole) => whole,
            Err(UnpackFault::NotPacked) => return Ok(None),
            Err(UnpackFault::NoMemory) => return Err(NoMemory),
        };
        if whole.executed().get() != self.position.get() || whole.roster().alpha() != alpha {
            return Ok(None);
        }
        Ok(Some(whole))
    }

    /// Returns the bytes without copying them.
    pub fn into_bytes(self) -> Vec<u8>
        ensures { result.items ≡ self.bytes }
    {
        self.bytes
    }
}
