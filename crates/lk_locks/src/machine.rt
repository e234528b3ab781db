//! The lock table as a `Machine`: executes requests, and packs and unpacks the table.
ghost use Rattle.std.specs.Prelude.{◌≡◌, ◌≤◌, ◌++◌, ℕ, List, length, Some, None, OnOk, OnErr, IfOk, IsErrOf};
ghost use Rattle.std.specs.FinMap as map;
ghost use Rattle.lk_types.specs.Limits.{max_names};
ghost use Rattle.lk_codec.specs.Parser.{many, whole};
ghost use Rattle.lk_locks.specs.Packed.{read_entry, read_entries, read_table, DoNotRise};
ghost use Rattle.lk_locks.specs.PackedLaws.{parts_of};

use crate::entry::read_entry;
use crate::table::{LockTable, RAISED_MARK};
use bytes::BytesMut;
use lk_codec::read_u16;
use lk_state::{Machine, UnpackFault};
use lk_types::limits::MAX_NAMES;
use lk_types::{Answer, ClientNo, NoMemory};
use std::alloc::Global;

// Reads this many names with their lock entries into a new table. `NotPacked`: one is invalid, or the names do not
// rise.
fn read_entries(
    alloc: Global,
    raised: bool,
    count: u16,
    bytes: &[u8],
) -> Result<(LockTable, &[u8]), UnpackFault>
    requires { count ≤ max_names }
    ensures ok { IfOk result (λ x. many (read_entry raised) count bytes.now ≡ Some (map.entries x.0.names, x.1.now)) }
    ensures version { IfOk result (λ x. x.0.raised ≡ raised) }
    ensures not_packed { IsErrOf result UnpackFault.NotPacked → DoNotRise (many (read_entry raised) count bytes.now) }
{
    let mut table = LockTable::new(alloc, raised);
    let mut rest = bytes;
    for _ in 0..count {
        let Some((name, lock_entry, after)) = read_entry(raised, rest) else {
            return Err(UnpackFault::NotPacked);
        };
        table.push(name, lock_entry)?;
        rest = after;
    }
    Ok((table, rest))
}

// Reads a table, `raised` to its second version or not: the number of its names, then each name with its lock entry, up
// to the last byte.
#[tactic(auto, using(crate::proofs::TableLaws::read_is), unfolding(crate::specs::Packed::read_entries, crate::specs::Packed::read_size))]
fn read_names(alloc: Global, raised: bool, bytes: &[u8]) -> Result<LockTable, UnpackFault>
    ensures ok { IfOk result (λ t. whole (read_entries raised) bytes.now ≡ Some (map.entries t.names)) }
    ensures version { IfOk result (λ t. t.raised ≡ raised) }
    ensures not_packed { IsErrOf result UnpackFault.NotPacked → whole (read_entries raised) bytes.now ≡ None }
{
    let Some((count, rest)) = read_u16(bytes) else {
        return Err(UnpackFault::NotPacked);
    };
    if usize::from(count) > MAX_NAMES {
        return Err(UnpackFault::NotPacked);
    }
    let (table, rest) = read_entries(alloc, raised, count, rest)?;
    if !rest.is_empty() {
        return Err(UnpackFault::NotPacked);
    }
    Ok(table)
}

// Reads a table up to the last byte: with the mark at the start if it was raised.
#[tactic(auto, unfolding(crate::specs::Packed::read_table))]
fn read_table(alloc: Global, bytes: &[u8]) -> Result<LockTable, UnpackFault>
    ensures ok { IfOk result (λ t. whole read_table bytes.now ≡ Some (parts_of t)) }
    ensures not_packed { IsErrOf result UnpackFault.NotPacked → whole read_table bytes.now ≡ None }
{
    let Some((mark, rest)) = read_u16(bytes) else {
        return Err(UnpackFault::NotPacked);
    };
    if mark == RAISED_MARK {
        return read_names(alloc, true, rest);
    }
    read_names(alloc, false, bytes)
}

impl Machine for LockTable {
    ghost use Rattle.std.specs.Prelude.{ℕ};
    ghost use Rattle.lk_locks.specs.Bodies.{body_of, known};
    ghost use Rattle.lk_locks.specs.Plain.{IsNewName};
    ghost use Rattle.lk_locks.specs.Packed.{table_text, IsTableText};
    ghost use Rattle.lk_locks.specs.Meaning.{table_meaning};
    ghost use Rattle.lk_state.specs.Meanings.{Running};
    ghost use Rattle.lk_locks.specs.PackedLaws.{empty_is_text, at_most_30631};
    ghost use Rattle.lk_locks.specs.NextLaws.{next_is_text, answer_is_answer};

    ghost text = { table_text };

    ghost IsText = { IsTableText };

    ghost meaning = { table_meaning };

    /// Returns the table without names, not raised.
    fn begin(alloc: Global) -> Self {
        LockTable::new(alloc, false)
    }

    /// Executes a client's operation and returns the answer. Its contract is that of `run` in terms of packed texts.
    fn apply(&mut self, client: ClientNo, body: &[u8]) -> Result<Answer, NoMemory>
        ensures ok { OnOk result
            (table_text self.new ≡ table_meaning.next client (Running body.now) (table_text self.old)) }
        ensures answer { IfOk result (λ a. a ≡ table_meaning.answer client (Running body.now) (table_text self.old)) }
        ensures err { OnErr result (table_text self.new ≡ table_text self.old) }
        ensures memory { OnErr result (IsNewName (known self.old.raised (body_of body.now)) self.old.names) }
    {
        self.facts();
        self.run(client, body)
    }

    /// Raises the table.
    fn raise(&mut self) -> Answer {
        self.facts();
        self.raise_version()
    }

    /// Appends how many names there are, and then in rising order each name with its last fence and its holders; after
    /// a mark if the table was raised.
    fn pack(&self, out: &mut BytesMut) -> Result<(), NoMemory> {
        let stood = out.len();
        if self.put(out).is_err() {
            out.truncate(stood);
            return Err(NoMemory);
        }
        Ok(())
    }

    /// Returns the table of this packed text.
    fn unpack(alloc: Global, bytes: &[u8]) -> Result<Self, UnpackFault> {
        read_table(alloc, bytes)
    }

    ghost first_is_text = { empty_is_text };

    ghost next_is_text = { next_is_text };

    ghost answer_is_answer = { answer_is_answer };

    ghost short = { at_most_30631 };
}
