//! The watch over a node: finds its events, turn by turn, and keeps them until they may be logged.

ghost use Rattle.std.specs.Prelude.{◌≡◌, replicate, slice_get, Some, None, IfSome, not};
ghost use Rattle.lk_node_events.specs.Kinds.{kinds};
ghost use Rattle.lk_node_events.specs.News.{story_of};
ghost use Rattle.lk_node_events.specs.Timers.{no_lag};
ghost use Rattle.lk_node_events.specs.RateLimits.{empty, Waits};
ghost use Rattle.lk_node_events.specs.declared.rate_limit.RateLimit.{RateLimit as RateLimitValue};
ghost use Rattle.lk_node_events.specs.Watches.{Puts, PopsDue, TurnsTimes, Turns};

use crate::event::Event;
use crate::observation::Observation;
use crate::rate_limit::Line;
use crate::rate_limits::RateLimits;
use crate::story::Story;
use crate::timers::{BehindTimer, DeafTimer, LeaderlessTimer};

/// What was reported of a node, and what waits to be logged. Times are milliseconds since 1970.
#[derive(Drop)]
pub struct Watch {
    pub story: Story,
    pub quiet: LeaderlessTimer,
    pub lag: BehindTimer,
    pub deaf: DeafTimer,
    pub rate_limits: RateLimits,
}

impl Watch {
    /// Returns a watch that begins with this observation: nothing waits to be logged.
    pub fn new(seen: Observation) -> Watch
        ensures story { result.story ≡ story_of seen }
        ensures quiet { result.quiet ≡ record { since = None; logged = 0 } }
        ensures lag { result.lag ≡ no_lag }
        ensures deaf { result.deaf ≡ record { since = None; is_over = not seen.deaf } }
        ensures rate_limits { result.rate_limits.all ≡ replicate kinds empty }
    {
        let deaf = DeafTimer::of(&seen);
        Watch {
            story: Story::of(seen),
            quiet: LeaderlessTimer::NONE,
            lag: BehindTimer::NONE,
            deaf,
            rate_limits: RateLimits::new(),
        }
    }

    /// Puts an event into the rate limit of its kind.
    pub fn put(&mut self, now: u64, event: Event)
        ensures puts { Puts now event self.old.rate_limits.all self.new.rate_limits.all }
        ensures others { self.new ≡ record self.old { rate_limits = self.new.rate_limits } }
    {
        self.rate_limits.put(now, event);
    }

    // Puts the events that depend on time: no leader, behind, caught up, no majority heard since the start.
    fn put_times(&mut self, now: u64, seen: &Observation)
        ensures { TurnsTimes now seen.now self.old self.new }
    {
        let leaderless = self.quiet.observe(now, seen.has_leader(), seen.is_member);
        self.story.forget(&leaderless);
        self.rate_limits.put_some(now, leaderless);
        let lag = self.lag.observe(now, seen.wanted, seen.executed);
        self.rate_limits.put_some(now, lag);
        let deaf = self.deaf.observe(now, seen);
        self.rate_limits.put_some(now, deaf);
    }

    /// Updates the watch after a turn, and puts the events that this shows into the rate limits.
    pub fn observe(&mut self, now: u64, seen: Observation)
        ensures { Turns now seen self.old self.new }
    {
        self.put_times(now, &seen);
        self.story.observe(now, seen, &mut self.rate_limits);
    }

    /// Removes and returns the waiting line of that kind, if one is due.
    pub fn pop_due(&mut self, kind: usize, now: u64) -> Option<Line>
        ensures line { IfSome result (λ line. PopsDue kind now line self.old.rate_limits.all self.new.rate_limits.all) }
        ensures others { self.new ≡ record self.old { rate_limits = self.new.rate_limits } }
        ensures none { result ≡ None → self.new ≡ self.old }
        ensures waits { result ≡ None → (rate_limit : RateLimitValue)
            → slice_get self.old.rate_limits.all kind ≡ Some rate_limit → Waits rate_limit now }
    {
        self.rate_limits.pop_due(kind, now)
    }
}
