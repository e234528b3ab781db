//! Decides how long a server waits for more datagrams before it syncs a group: what arrives in such a pause shares the
//! group's sync instead of waiting for the next one.

ghost use Rattle.std.specs.Prelude.{◌≡◌, ◌≤◌, ◌<◌, ◌⊎◌, ◌+◌, ◌-◌, ◌*◌, ◌/◌, min, max, IfSome, IsNone};
ghost use Rattle.std.specs.Duration.{as_nanos};

use std::time::Duration;

// A pause lasts 1/16 of the longest recent sync, and a group has at most 16: together no longer than that sync.
const PART: u8 = 16;

// No pause is shorter than this many microseconds, since the system may take as long to end it.
const SHORTEST: u64 = 50;

// A longer sync counts as this many microseconds: no pause is longer than 2 ms.
const LONGEST: u64 = 32_000;

/// The recent syncs of a server, from which it chooses the pauses of a group.
#[derive(Clone, Copy)]
pub struct SyncPause {
    /// The longest sync in microseconds, which decays by an eighth at each later sync.
    pub longest: u64,
    /// The most envelopes that waited for one sync, which decays by one at each later sync.
    pub fullest: usize,
    /// How many more pauses the current group may have.
    pub left: u8,
}

// Converts to whole microseconds, at most `LONGEST`.
fn micros_of(took: Duration) -> u64
    ensures { result ≡ min (as_nanos took / 1000) 32000 }
{
    match u64::try_from(took.as_micros()) {
        Ok(micros) if micros < LONGEST => micros,
        _ => LONGEST,
    }
}

impl SyncPause {
    /// The state before the first sync, in which no pause is due.
    pub const NONE: SyncPause = SyncPause {
        longest: 0,
        fullest: 0,
        left: PART,
    };

    /// Records the sync that ended a group, and the number of envelopes that waited for it; the next group may have 16
    /// pauses.
    pub fn note(&mut self, took: Duration, envelopes: usize)
        ensures longest { self.new.longest
            ≡ max (min (as_nanos took / 1000) 32000) (self.old.longest - self.old.longest / 8) }
        ensures fullest { self.new.fullest ≡ max envelopes (self.old.fullest - 1) }
        ensures left { self.new.left ≡ 16 }
    {
        let faded = self.longest - self.longest / 8;
        self.longest = micros_of(took).max(faded);
        self.fullest = envelopes.max(self.fullest.saturating_sub(1));
        self.left = PART;
    }

    /// Returns the next pause of a group with this many envelopes. `None` if no recent sync had more envelopes, the
    /// pause would be under 50 microseconds, or the group has had 16.
    pub fn next_pause(&mut self, envelopes: usize) -> Option<Duration>
        ensures some { IfSome result
            (λ d. (as_nanos d ≡ self.old.longest / 16 * 1000) × (50 ≤ self.old.longest / 16)
            × (envelopes < self.old.fullest) × (self.new.left + 1 ≡ self.old.left)) }
        ensures none { IsNone result
            → (self.new ≡ self.old) × ((self.old.longest / 16 < 50)
            ⊎ (self.old.fullest ≤ envelopes) ⊎ (self.old.left ≡ 0)) }
        ensures others { self.new ≡ record self.old { left = self.new.left } }
    {
        let micros = self.longest / u64::from(PART);
        if micros < SHORTEST || envelopes >= self.fullest || self.left == 0 {
            return None;
        }
        self.left -= 1;
        Some(Duration::from_micros(micros))
    }
}
