// What a lock table says of a name, and what that means for a client that waits for it.
ghost use Rattle.std.specs.Prelude.{◌≡◌, false};
ghost use Rattle.lk_watch.specs.Standings.{fence_in, places, opening, serves, news};

use crate::notice::News;
use crate::ticket::{Mode, Ticket};
use lk_locks::Name;
use lk_types::ClientNo;
use lk_types::limits::MAX_SHARERS;

/// What a lock table says of a name: its last fence, 0 if it was never granted, and who holds it.
#[derive(Clone, Copy)]
pub enum Standing {
    /// Nobody.
    Free(u64),
    /// One client, exclusively.
    ExclusiveHold(u64),
    /// That many clients share it.
    SharedHold(u64, u8),
}

/// A lock table, as a queue of watches asks it.
pub trait NameTable {
    ghost use Rattle.std.specs.Prelude.{ℕ, Bool, List};
    ghost use Rattle.lk_watch.specs.Standings.{HasNoPlace};
    ghost use Rattle.lk_watch.specs.declared.standing.Standing.{Standing};

    ghost standing: { Self → List ℕ → Standing };

    ghost holds: { Self → ℕ → List ℕ → Bool };

    /// Returns what it says of a name.
    fn standing(&self, name: &Name) -> Standing
        ensures { result ≡ standing self.now name.now };

    /// Whether a client holds a name, alone or together with others.
    fn holds(&self, client: ClientNo, name: &Name) -> bool
        ensures { result ≡ holds self.now client name.now };

    /// Whether some name may have a place for somebody.
    fn has_place(&self) -> bool
        ensures { result ≡ false → HasNoPlace (standing self.now) };
}

impl Standing {
    // Returns the last fence.
    fn fence(self) -> u64
        ensures { result ≡ fence_in self }
    {
        match self {
            Standing::Free(fence)
            | Standing::ExclusiveHold(fence)
            | Standing::SharedHold(fence, _) => fence,
        }
    }

    /// Returns how many more clients may take the name in that mode, each by itself.
    pub fn places(self, mode: Mode) -> usize
        ensures { result ≡ places mode self }
    {
        match (mode, self) {
            (Mode::Exclusive, Standing::Free(_)) => 1,
            (Mode::Share, Standing::Free(_)) => usize::from(MAX_SHARERS),
            (Mode::Share, Standing::SharedHold(_, count)) => {
                usize::from(MAX_SHARERS.saturating_sub(count))
            }
            _ => 0,
        }
    }

    /// Returns the fence at which the name was free last.
    pub fn opening(self) -> u64
        ensures { result ≡ opening self }
    {
        match self {
            Standing::Free(fence) => fence,
            Standing::ExclusiveHold(fence) | Standing::SharedHold(fence, _) => fence.saturating_sub(
                1,
            ),
        }
    }

    /// Whether the table is not older than the watch, and the name is free for it.
    pub fn serves(self, ticket: &Ticket) -> bool
        ensures { result ≡ serves self ticket.now }
    {
        ticket.fence.get() <= self.fence() && self.places(ticket.mode) > 0
    }

    /// Returns what a node says of the name to that watch. It says nothing if it does not speak for the cluster, or if
    /// its table is older than the watch.
    pub fn news(self, speaks: bool, ticket: &Ticket) -> News
        ensures { result ≡ news speaks self ticket.now }
    {
        if !speaks || ticket.fence.get() > self.fence() {
            return News::NotHere;
        }
        if self.places(ticket.mode) > 0 {
            News::Free
        } else {
            News::Held
        }
    }
}
