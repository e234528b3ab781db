//! What a lock table says of some names, for a queue in a turn in which no other name can have changed.

ghost use Rattle.std.specs.Prelude.{◌≡◌, ◌≤◌, ◌++◌, ◌∷◌, [], length, IfOk, OnOk};
ghost use Rattle.std.specs.List.{position_or_len};
ghost use Rattle.lk_watch.specs.Seen.{is_seen, seen_of, seen_in, standing_seen, holds_seen, holds_some, some_open};

use crate::same_name::is_same;
use crate::standing::{NameTable, Standing};
use crate::table::{is_holder_of, standing_of};
use crate::ticket::Mode;
use lk_locks::{LockEntry, LockTable, Name};
use lk_types::{ClientNo, NoMemory};
use std::alloc::Global;
use std::marker::Model;

/// What a lock table says of a name: its lock entry, if it has the name.
#[derive(Drop)]
pub struct SeenName {
    pub name: Name,
    pub lock_entry: Option<LockEntry>,
}

/// What a lock table says of some names. Any other counts as held, by nobody who waits for it.
#[derive(Drop)]
pub struct SeenNames {
    names: Vec<SeenName>,
}

impl Model for SeenNames {
    ghost use Rattle.std.specs.Prelude.{List};
    ghost use Rattle.lk_watch.specs.declared.seen.SeenName.{SeenName};

    ghost Value = { List SeenName };

    ghost view = { λ s. s.names.items };
}

// Returns the index of the first of these that is of that name, or else how many there are.
fn position_of(name: &Name, names: &[SeenName]) -> usize
    ensures is { result ≡ position_or_len (is_seen name.now) names.now }
    ensures within { result ≤ length names.now }
{
    let mut at = 0;
    for seen in names {
        if is_same(&seen.name, name) {
            return at;
        }
        at += 1;
    }
    at
}

// Returns what these say of a name: if it is none of them, that it is held.
fn standing_among(names: &[SeenName], name: &Name) -> Standing
    ensures { result ≡ standing_seen names.now name.now }
{
    match names.get(position_of(name, names)) {
        Some(seen) => standing_of(&seen.lock_entry),
        None => Standing::ExclusiveHold(0),
    }
}

// Whether a client holds one of these names.
fn holds_some(names: &[SeenName], client: ClientNo) -> bool
    ensures { result ≡ holds_some client names.now }
{
    names
        .iter()
        .any(|seen| is_holder_of(client, &seen.lock_entry))
}

// Whether one of these names has a place.
fn some_open(names: &[SeenName]) -> bool
    ensures { result ≡ some_open names.now }
{
    names.iter().any(|seen| standing_of(&seen.lock_entry).places(Mode::Share) > 0)
}

// Whether a client holds a name, by what these say: not if it is none of them.
fn is_holder_among(names: &[SeenName], client: ClientNo, name: &Name) -> bool
    ensures { result ≡ holds_seen names.now client name.now }
{
    match names.get(position_of(name, names)) {
        Some(seen) => is_holder_of(client, &seen.lock_entry),
        None => false,
    }
}

impl SeenNames {
    /// Looks at one more name.
    pub fn look(&mut self, table: &LockTable, name: &Name) -> Result<(), NoMemory>
        ensures { OnOk result (self.new ≡ self.old ++ seen_of table.now name.now ∷ []) }
    {
        self.names.push(SeenName {
            name: name.copy(),
            lock_entry: table.lock_entry(name),
        })?;
        Ok(())
    }

    /// Looks at these names.
    pub fn of(alloc: Global, table: &LockTable, names: &[Name]) -> Result<SeenNames, NoMemory>
        ensures { IfOk result (λ seen. seen ≡ seen_in table.now names.now) }
    {
        let mut seen = SeenNames {
            names: Vec::new(alloc),
        };
        for name in names {
            seen.look(table, name)?;
        }
        Ok(seen)
    }
}

impl NameTable for SeenNames {
    ghost use Rattle.lk_watch.specs.Seen.{standing_seen, holds_seen};

    ghost standing = { standing_seen };

    ghost holds = { holds_seen };

    fn standing(&self, name: &Name) -> Standing {
        standing_among(&self.names, name)
    }

    fn holds(&self, client: ClientNo, name: &Name) -> bool {
        if !holds_some(&self.names, client) {
            return false;
        }
        is_holder_among(&self.names, client, name)
    }

    fn has_place(&self) -> bool {
        some_open(&self.names)
    }
}
