//! The rate limits of a node's events, one for each kind.

ghost use Rattle.std.specs.Prelude.{◌≡◌, replicate, slice_get, Some, None, IfSome};
ghost use Rattle.lk_node_events.specs.Kinds.{kinds};
ghost use Rattle.lk_node_events.specs.RateLimits.{empty, Waits};
ghost use Rattle.lk_node_events.specs.declared.rate_limit.RateLimit.{RateLimit as RateLimitValue};
ghost use Rattle.lk_node_events.specs.Watches.{Puts, PutsSome, PopsDue};

use crate::event::{Event, KINDS};
use crate::rate_limit::{Line, RateLimit};

/// A rate limit for each kind of events, by the index of the kind. Times are milliseconds since 1970.
#[derive(Drop)]
pub struct RateLimits {
    pub all: [RateLimit; KINDS],
}

impl RateLimits {
    /// Returns empty rate limits.
    pub fn new() -> RateLimits
        ensures { result.all ≡ replicate kinds empty }
    {
        RateLimits {
            all: [
                RateLimit::EMPTY,
                RateLimit::EMPTY,
                RateLimit::EMPTY,
                RateLimit::EMPTY,
                RateLimit::EMPTY,
                RateLimit::EMPTY,
                RateLimit::EMPTY,
                RateLimit::EMPTY,
                RateLimit::EMPTY,
                RateLimit::EMPTY,
                RateLimit::EMPTY,
                RateLimit::EMPTY,
                RateLimit::EMPTY,
                RateLimit::EMPTY,
                RateLimit::EMPTY,
                RateLimit::EMPTY,
                RateLimit::EMPTY,
                RateLimit::EMPTY,
                RateLimit::EMPTY,
                RateLimit::EMPTY,
                RateLimit::EMPTY,
                RateLimit::EMPTY,
                RateLimit::EMPTY,
                RateLimit::EMPTY,
            ],
        }
    }

    /// Puts an event into the rate limit of its kind.
    pub fn put(&mut self, now: u64, event: Event)
        ensures { Puts now event self.old.all self.new.all }
    {
        let kind = event.kind();
        self.all[kind].put(now, event);
    }

    /// Puts an event, if there is one, into the rate limit of its kind.
    pub fn put_some(&mut self, now: u64, event: Option<Event>)
        ensures { PutsSome now event self.old.all self.new.all }
    {
        if let Some(event) = event {
            self.put(now, event);
        }
    }

    /// Removes and returns the waiting line of that kind, if one is due. `None` too for a kind that does not exist.
    pub fn pop_due(&mut self, kind: usize, now: u64) -> Option<Line>
        ensures line { IfSome result (λ line. PopsDue kind now line self.old.all self.new.all) }
        ensures none { result ≡ None → self.new ≡ self.old }
        ensures waits { result ≡ None → (rate_limit : RateLimitValue) → slice_get self.old.all kind ≡ Some rate_limit
            → Waits rate_limit now }
    {
        if kind >= KINDS {
            return None;
        }
        let Some(line) = self.all[kind].pop_due(now) else {
            return None;
        };
        Some(line)
    }
}
