// The lock table, as a queue of watches asks it.
ghost use Rattle.std.specs.Prelude.{◌≡◌};
ghost use Rattle.lk_watch.specs.Tables.{standing_at, standing_of, is_holder, is_holder_of};

use crate::standing::{NameTable, Standing};
use lk_locks::{Holders, LockEntry, LockTable, Name};
use lk_types::{ClientNo, Fence};

// Returns what a lock entry with that last fence and these holders says.
fn standing_at(fence: Fence, holders: &Holders) -> Standing
    ensures { result ≡ standing_at fence holders.now }
{
    match holders {
        Holders::Nobody => Standing::Free(fence.get()),
        Holders::ExclusiveHold(_) => Standing::ExclusiveHold(fence.get()),
        Holders::SharedHold(clients) => Standing::SharedHold(fence.get(), clients.count().get()),
    }
}

// Whether the client is one of the holders.
fn is_holder(client: ClientNo, holders: &Holders) -> bool
    ensures { result ≡ is_holder client holders.now }
{
    match holders {
        Holders::Nobody => false,
        Holders::ExclusiveHold(holder) => *holder == client,
        Holders::SharedHold(clients) => clients.has(client),
    }
}

// Returns what a lock entry says, if there is one.
pub(crate) fn standing_of(lock_entry: &Option<LockEntry>) -> Standing
    ensures { result ≡ standing_of lock_entry.now }
{
    match lock_entry {
        Some(lock_entry) => standing_at(lock_entry.fence, &lock_entry.holders),
        None => Standing::Free(0),
    }
}

// Whether the client is one of the holders of a lock entry, if there is one.
pub(crate) fn is_holder_of(client: ClientNo, lock_entry: &Option<LockEntry>) -> bool
    ensures { result ≡ is_holder_of client lock_entry.now }
{
    match lock_entry {
        Some(lock_entry) => is_holder(client, &lock_entry.holders),
        None => false,
    }
}

impl NameTable for LockTable {
    ghost use Rattle.lk_watch.specs.Tables.{standing_in, holds_in};

    ghost standing = { standing_in };

    ghost holds = { holds_in };

    fn standing(&self, name: &Name) -> Standing {
        standing_of(&self.lock_entry(name))
    }

    fn holds(&self, client: ClientNo, name: &Name) -> bool {
        is_holder_of(client, &self.lock_entry(name))
    }

    fn has_place(&self) -> bool {
        true
    }
}
