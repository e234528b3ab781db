//! The rate limit of one kind of events, which limits its lines in the log to one a second.

ghost use Rattle.std.specs.Prelude.{◌≡◌, Some, None, IfSome, IsSome, IsNone};
ghost use Rattle.lk_node_events.specs.RateLimits.{having_put, having_logged, is_due, IsLineOf, Waits};

use crate::event::Event;

// The milliseconds between two lines of one kind.
const APART: u64 = 1000;

/// An event to be logged, when it happened, and how many others of its kind have happened since the last line.
#[derive(Drop)]
pub struct Line {
    pub time: u64,
    pub event: Event,
    pub others: u64,
}

/// What waits to be logged of one kind. Times are milliseconds since 1970.
#[derive(Drop)]
pub struct RateLimit {
    /// The newest event, and when it happened.
    pub newest: Option<(u64, Event)>,
    /// How many events of the kind it has replaced since the last line.
    pub others: u64,
    /// When the last line was logged.
    pub logged: Option<u64>,
}

impl RateLimit {
    /// The rate limit of a kind of which nothing has happened.
    pub const EMPTY: RateLimit = RateLimit {
        newest: None,
        others: 0,
        logged: None,
    };

    /// Keeps the event as the newest. One that waits is dropped, and only counted.
    pub fn put(&mut self, now: u64, event: Event)
        ensures { self.new ≡ having_put now event self.old }
    {
        if self.newest.is_some() {
            self.others = self.others.saturating_add(1);
        }
        self.newest = Some((now, event));
    }

    // Whether a line is due: none was logged, a second has passed since the last, or the clock was set back.
    fn is_due(&self, now: u64) -> bool
        ensures { result ≡ is_due self.now.logged now }
    {
        match self.logged {
            None => true,
            Some(logged) => now < logged || now - logged >= APART,
        }
    }

    /// Removes and returns the waiting line, if one is due.
    pub fn pop_due(&mut self, now: u64) -> Option<Line>
        ensures line { IfSome result (λ line. IsLineOf self.old now line) }
        ensures logged { IsSome result → self.new ≡ having_logged now }
        ensures none { IsNone result → (self.new ≡ self.old) × (Waits self.old now) }
    {
        if !self.is_due(now) {
            return None;
        }
        let Some((time, event)) = self.newest.take() else {
            return None;
        };
        let others = self.others;
        self.others = 0;
        self.logged = Some(now);
        Some(Line {
            time,
            event,
            others,
        })
    }
}
