ghost use Rattle.std.specs.Prelude.{◌≡◌, ◌<◌, ◌≤◌, OnOk, OnErr, IfOk, IsErrOf, List, [], ◌∷◌, ◌++◌, ℕ, Some, None};
ghost use Rattle.std.specs.Prelude.{true, false};
ghost use Rattle.std.specs.Ordering.{nat_cmp};
ghost use Rattle.std.specs.Cmp.Lexicographic.{slice_cmp};
ghost use Rattle.std.specs.FinMap as map;
ghost use Rattle.lk_types.specs.Limits.{max_names};
ghost use Rattle.lk_locks.specs.Bodies.{body_of, is_known, known};
ghost use Rattle.lk_locks.specs.Holders.{is_kept};
ghost use Rattle.lk_locks.specs.Packed.{IsTable, rise, entries, table_text};
ghost use Rattle.lk_locks.specs.declared.lock_entry.LockEntry.{LockEntry};
ghost use Rattle.lk_codec.specs.Fronts.{KeepsFront};
ghost use Rattle.lk_locks.specs.Plain.{transition_in, next_by, answer, next, raise_answer, raised, IsNewName};

use crate::body::Body;
use crate::entry::put_entry;
use crate::lock_entry::LockEntry;
use crate::name::Name;
use crate::transition::Transition;
use crate::transitions::transition;
use bytes::BytesMut;
use lk_codec::put_u16;
use lk_state::UnpackFault;
use lk_types::{Answer, ClientNo, NoMemory};
use std::alloc::{AllocError, Global};
use std::collections::BTreeMap;
use std::marker::Model;

// The first two bytes of a packed table that was raised. Others begin with the number of names, which is at most 512.
pub(crate) const RAISED_MARK: u16 = 0xff02;

/// Up to 512 names, each with its last fence and its holders. A name is never removed. A raised table, of the second
/// version, knows shared names and Break, and has another packed format.
#[derive(Drop)]
pub struct LockTable {
    raised: bool,
    lock_entries: BTreeMap<Name, LockEntry>,
}

impl Model for LockTable {
    ghost use Rattle.std.specs.Prelude.{ℕ, List};
    ghost use Rattle.std.specs.Ordering.{nat_cmp};
    ghost use Rattle.std.specs.Cmp.Lexicographic.{slice_cmp};
    ghost use Rattle.std.specs.FinMap as map;
    ghost use Rattle.lk_locks.specs.Plain.{Table, table_code};
    ghost use Rattle.std.specs.BTreeMap.{IsOrdered};
    ghost use Rattle.lk_locks.specs.Packed.{IsTable};

    ghost Value = { Table };

    ghost coded = { table_code };

    ghost view = { λ t. record { raised = t.raised; names = map.from_entries t.lock_entries.entries } };

    ghost invariant = { λ t. IsOrdered (slice_cmp nat_cmp) t.lock_entries
        × IsTable (record { raised = t.raised; names = map.from_entries t.lock_entries.entries }) };
}

impl LockTable {
    /// Returns the table without names, of the second version if `raised`, else of the first. Takes no memory yet.
    pub fn new(alloc: Global, raised: bool) -> LockTable
        ensures { result ≡ record { raised = raised; names = map.empty } }
    {
        LockTable {
            raised,
            lock_entries: BTreeMap::new(alloc),
        }
    }

    /// How many names there are.
    pub fn len(&self) -> usize
        ensures len { result ≡ map.len self.now.names }
        ensures short { result ≤ max_names }
    {
        self.lock_entries.len()
    }

    /// Shows the prover that there are at most 512 names, and each part is in its range. Does nothing at run time.
    pub fn facts(&self)
        ensures { IsTable self.now }
    {
        let _ = &self.lock_entries;
    }

    /// Returns a copy of the lock entry of a name, or `None` if the table does not have the name.
    pub fn lock_entry(&self, name: &Name) -> Option<LockEntry>
        ensures { result ≡ map.get self.now.names name.now }
    {
        match self.lock_entries.get(name) {
            Some(lock_entry) => Some(lock_entry.copy()),
            None => None,
        }
    }

    // Inserts or replaces the lock entry of a name. Only a new name takes memory. An `Err` changes nothing.
    fn set(&mut self, name: Name, lock_entry: LockEntry) -> Result<(), NoMemory>
        requires kept { is_kept self.old.raised lock_entry.holders ≡ true }
        requires room { map.get self.old.names name ≡ None → map.len self.old.names < max_names }
        ensures ok { OnOk result
            (self.new ≡ record { raised = self.old.raised; names = map.insert self.old.names name lock_entry }) }
        ensures err { OnErr result (self.new ≡ self.old) }
        ensures absent { OnErr result (map.get self.old.names name ≡ None) }
    {
        name.facts();
        lock_entry.facts();
        self.lock_entries.insert(name, lock_entry)?;
        Ok(())
    }

    // Returns whether all of the table's names are below this one, in the order of their bytes.
    fn is_below(&self, name: &Name) -> bool
        ensures { (s : LockEntry) → result ≡ rise (map.entries self.now.names ++ (name.now, s) ∷ []) }
    {
        match self.lock_entries.iter().next_back() {
            Some((last, _)) => last.cmp(name).is_lt(),
            None => true,
        }
    }

    // Adds a name that was unpacked. `NotPacked`: it is not above all of the table's names.
    pub(crate) fn push(&mut self, name: Name, lock_entry: LockEntry) -> Result<(), UnpackFault>
        requires room { map.len self.old.names < max_names }
        requires kept { is_kept self.old.raised lock_entry.holders ≡ true }
        ensures ok { OnOk result (map.entries self.new.names ≡ map.entries self.old.names ++ (name, lock_entry) ∷ []) }
        ensures version { OnOk result (self.new.raised ≡ self.old.raised) }
        ensures not_packed { IsErrOf result UnpackFault.NotPacked
            → rise (map.entries self.old.names ++ (name, lock_entry) ∷ []) ≡ false }
    {
        if !self.is_below(&name) {
            return Err(UnpackFault::NotPacked);
        }
        self.set(name, lock_entry)?;
        Ok(())
    }

    // Appends how many names there are, and then each with its lock entry. Out of memory it may leave a prefix of that.
    #[tactic(auto, using(lk_codec::proofs::Spellings::keeps_same, lk_codec::proofs::Spellings::keeps_behind))]
    fn put_names(&self, out: &mut BytesMut) -> Result<(), AllocError>
        ensures ok { OnOk result
            (out.new.items ≡ out.old.items ++ entries self.now.raised (map.entries self.now.names)) }
        ensures err { OnErr result (KeepsFront out.old.items out.new.items) }
    {
        put_u16(out, self.len() as u16)?;
        for (name, lock_entry) in self.lock_entries.iter() {
            put_entry(out, self.raised, name, lock_entry)?;
        }
        Ok(())
    }

    // Appends the packed text. Out of memory it may leave a prefix of it.
    #[tactic(auto, using(lk_codec::proofs::Spellings::keeps_same, lk_codec::proofs::Spellings::keeps_behind))]
    pub(crate) fn put(&self, out: &mut BytesMut) -> Result<(), AllocError>
        ensures ok { OnOk result (out.new.items ≡ out.old.items ++ table_text self.now) }
        ensures err { OnErr result (KeepsFront out.old.items out.new.items) }
    {
        if self.raised {
            put_u16(out, RAISED_MARK)?;
            self.put_names(out)?;
            return Ok(());
        }
        self.put_names(out)
    }

    /// Returns all names, rising, each with its lock entry.
    pub fn names(&self, alloc: Global) -> Result<Vec<(Name, LockEntry)>, NoMemory>
        ensures { IfOk result (λ names. names.items ≡ map.entries self.now.names) }
    {
        let mut names = Vec::new(alloc);
        for (name, lock_entry) in self.lock_entries.iter() {
            names.push((name.copy(), lock_entry.copy()))?;
        }
        Ok(names)
    }

    // Executes a body that the table knows, and returns the answer. Only a new name takes memory. An `Err` changes
    // nothing.
    fn execute_known(&mut self, client: ClientNo, body: Body) -> Result<Answer, NoMemory>
        requires { is_known self.old.raised body ≡ true }
        ensures answer { IfOk result (λ a. a ≡ (transition_in client body self.old.names).answer) }
        ensures ok { OnOk result
            (self.new ≡ record { raised = self.old.raised; names = next_by client (Some body) self.old.names }) }
        ensures err { OnErr result (self.new ≡ self.old) }
        ensures memory { OnErr result (IsNewName (Some body) self.old.names) }
    {
        let _ = client.get();
        self.facts();
        let name = body.name();
        let Transition { answer, change } = transition(
            client,
            &body,
            self.lock_entry(name),
            self.len(),
        );
        if let Some(lock_entry) = change {
            self.set(name.copy(), lock_entry)?;
        }
        Ok(answer)
    }

    /// Executes a client's operation, and returns the answer: `Bad` for bytes that are not a body that the table knows.
    /// Only a new name takes memory. An `Err` changes nothing.
    pub fn run(&mut self, client: ClientNo, body: &[u8]) -> Result<Answer, NoMemory>
        ensures answer { IfOk result (λ a. a ≡ answer client body.now self.old) }
        ensures ok { OnOk result (self.new ≡ next client body.now self.old) }
        ensures err { OnErr result (self.new ≡ self.old) }
        ensures memory { OnErr result (IsNewName (known self.old.raised (body_of body.now)) self.old.names) }
    {
        match Body::read(body) {
            Some(body) if body.is_known(self.raised) => self.execute_known(client, body),
            _ => Ok(Answer::Bad),
        }
    }

    /// Raises the table, and returns `Raised`, or `AlreadyRaised` if it was: from then on it knows shared names and
    /// Break. Takes no memory.
    pub fn raise_version(&mut self) -> Answer
        ensures answer { result ≡ raise_answer self.old }
        ensures next { self.new ≡ raised self.old }
    {
        if self.raised {
            return Answer::AlreadyRaised;
        }
        self.raised = true;
        Answer::Raised
    }
}
