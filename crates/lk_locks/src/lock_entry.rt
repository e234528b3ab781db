ghost use Rattle.std.specs.Prelude.{◌≡◌};
ghost use Rattle.lk_locks.specs.Holders.{is_held, held_by, left_by, IsHolders};
ghost use Rattle.lk_locks.specs.Sharers.{without};
ghost use Rattle.lk_locks.specs.Packed.{IsLockEntry};

use crate::sharers::Sharers;
use lk_types::{ClientNo, Fence};

/// Who holds a name.
#[derive(PartialEq, Eq, Drop)]
pub enum Holders {
    Nobody,
    /// That client, exclusively.
    ExclusiveHold(ClientNo),
    /// These clients share it, and others may join them, up to eight.
    SharedHold(Sharers),
}

/// The entry of a name in the table: its last fence, at which it is held if anybody holds it, and who does.
#[derive(PartialEq, Eq, Drop)]
pub struct LockEntry {
    pub fence: Fence,
    pub holders: Holders,
}

// Returns who holds a shared name after the client has left: nobody, if it was the last sharer.
fn held_without(clients: &Sharers, client: ClientNo) -> Holders
    ensures { result ≡ held_by (without client clients.now) }
{
    match clients.without(client) {
        Some(left) => Holders::SharedHold(left),
        None => Holders::Nobody,
    }
}

impl Holders {
    // Shows the prover that each part is in its range. Does nothing at run time.
    pub(crate) fn facts(&self)
        ensures { IsHolders self.now }
    {
        match self {
            Holders::Nobody => {}
            Holders::ExclusiveHold(client) => {
                let _ = client.get();
            }
            Holders::SharedHold(clients) => {
                let _ = clients.as_slice();
            }
        }
    }

    /// The same holders.
    pub fn copy(&self) -> Holders
        ensures { result ≡ self.now }
    {
        match self {
            Holders::Nobody => Holders::Nobody,
            Holders::ExclusiveHold(client) => Holders::ExclusiveHold(*client),
            Holders::SharedHold(clients) => Holders::SharedHold(clients.copy()),
        }
    }

    /// Whether anyone holds the name.
    pub fn is_held(&self) -> bool
        ensures { result ≡ is_held self.now }
    {
        match self {
            Holders::Nobody => false,
            Holders::ExclusiveHold(_) | Holders::SharedHold(_) => true,
        }
    }

    /// Returns who holds the name after the client has released it, or `None` if the client does not hold it.
    pub fn left_by(&self, client: ClientNo) -> Option<Holders>
        ensures { result ≡ left_by client self.now }
    {
        match self {
            Holders::Nobody => None,
            Holders::ExclusiveHold(holder) => {
                if *holder != client {
                    return None;
                }
                Some(Holders::Nobody)
            }
            Holders::SharedHold(clients) => {
                if !clients.has(client) {
                    return None;
                }
                Some(held_without(clients, client))
            }
        }
    }
}

impl LockEntry {
    // Shows the prover that each part is in its range. Does nothing at run time.
    pub(crate) fn facts(&self)
        ensures { IsLockEntry self.now }
    {
        let _ = self.fence.get();
        self.holders.facts();
    }

    /// The same lock entry.
    pub fn copy(&self) -> LockEntry
        ensures { result ≡ self.now }
    {
        LockEntry {
            fence: self.fence,
            holders: self.holders.copy(),
        }
    }
}
