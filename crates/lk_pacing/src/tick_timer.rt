//! Measures the 100 ms between two ticks of a server by a monotonic clock.

ghost use Rattle.std.specs.Duration.{as_nanos};
ghost use Rattle.std.specs.Prelude.{◌≡◌, ◌↔◌, ◌≤◌, ◌-◌, Some, None, true, false};
ghost use Rattle.lk_pacing.specs.TickTimers.{Leaves, Elapses, period_start, spent};

use std::time::{Clock, Duration, Instant};
use std::{io, thread};

// The time from one tick to the next, in milliseconds.
const PERIOD: u64 = 100;

/// A clock that never advances, for a turn without a clock.
#[derive(Clone, Copy)]
pub struct FrozenClock;

impl Clock for FrozenClock {
    fn monotonic(&self) -> io::Result<Duration> {
        Ok(Duration::ZERO)
    }

    fn since_1970(&self) -> io::Result<Duration> {
        Ok(Duration::ZERO)
    }
}

/// Measures periods of 100 ms by a monotonic clock. A period begins at the first `left` or `has_elapsed` after `new` or
/// `reset`, and at the `has_elapsed` that ends the one before.
#[derive(Drop)]
pub struct TickTimer<C: Clock> {
    clock: C,
    // when the current period began; `None` if none has begun
    period_from: Option<Instant>,
}

impl<C: Clock> TickTimer<C> {
    /// Makes a tick timer whose first period begins at the first `left` or `has_elapsed`.
    pub fn new(clock: C) -> TickTimer<C>
        ensures { result ≡ record { clock = clock; period_from = None } }
    {
        TickTimer {
            clock,
            period_from: None,
        }
    }

    // Returns the rest of the period at `now`, where one begins if none has.
    fn left_at(&mut self, now: Instant) -> Duration
        ensures left { as_nanos result ≡ 100000000 - spent now self.old.period_from }
        ensures period { self.new.period_from ≡ Some (period_start now self.old.period_from) }
        ensures others { self.new ≡ record self.old { period_from = self.new.period_from } }
    {
        let period_from = self.period_from.unwrap_or(now);
        self.period_from = Some(period_from);
        Duration::from_millis(PERIOD).saturating_sub(now.duration_since(period_from))
    }

    // Returns whether the period has ended at `now`; if so, the next one begins there.
    fn elapses_at(&mut self, now: Instant) -> bool
        ensures elapsed { result ≡ true ↔ (100000000 ≤ spent now self.old.period_from) }
        ensures again { result ≡ true → self.new.period_from ≡ Some now }
        ensures goes_on { result ≡ false → self.new.period_from ≡ Some (period_start now self.old.period_from) }
        ensures others { self.new ≡ record self.old { period_from = self.new.period_from } }
    {
        if !self.left_at(now).is_zero() {
            return false;
        }
        self.period_from = Some(now);
        true
    }

    /// Returns the rest of the period: 100 ms if one begins now, or if the clock fails.
    pub fn left(&mut self) -> Duration
        // This holds for some reading of the clock: no contract states which.
        ensures { Leaves self.old.period_from self.new.period_from (as_nanos result) }
    {
        match Instant::now(&self.clock) {
            Ok(now) => self.left_at(now),
            Err(_) => Duration::from_millis(PERIOD),
        }
    }

    /// Returns whether the period has ended; if so, the next one begins now. If the clock fails it returns true, so
    /// that ticks go on, and changes nothing.
    pub fn has_elapsed(&mut self) -> bool
        // This holds for some reading of the clock: no contract states which.
        ensures { Elapses self.old.period_from self.new.period_from result }
    {
        match Instant::now(&self.clock) {
            Ok(now) => self.elapses_at(now),
            Err(_) => true,
        }
    }

    /// Drops the current period; the next one begins at the next `left` or `has_elapsed`.
    pub fn reset(&mut self)
        ensures { self.new ≡ record self.old { period_from = None } }
    {
        self.period_from = None;
    }

    /// Returns the clock's reading, or `None` if it fails.
    pub fn now(&self) -> Option<Instant> {
        Instant::now(&self.clock).ok()
    }

    /// Returns a reading of the clock in nanoseconds, or zero if it fails. It serves to draw numbers that are hard to
    /// guess.
    pub fn reading(&self) -> u128 {
        match self.clock.monotonic() {
            Ok(time) => time.as_nanos(),
            Err(_) => 0,
        }
    }

    /// Returns the time since `then`, or zero if the clock failed then or fails now.
    pub fn since(&self, then: Option<Instant>) -> Duration {
        match (then, self.now()) {
            (Some(then), Some(now)) => now.duration_since(then),
            _ => Duration::ZERO,
        }
    }

    /// Sleeps for this time.
    pub fn sleep(&self, time: Duration) {
        thread::sleep(&self.clock, time);
    }
}
