//! Events that depend on how long something lasts: no leader, being behind, and hearing no majority from the start on.
//! Times are milliseconds since 1970.

ghost use Rattle.std.specs.Prelude.{◌≡◌, ◌⊎◌, Some, None, true, false, IfSome, IsSome, IsNone, is_some, not};
ghost use Rattle.lk_node_events.specs.Timers.{first_time, first_asked, no_lag, quiet_event, IsQuietNews, IsBehind};
ghost use Rattle.lk_node_events.specs.Timers.{IsOver, HasRested};
ghost use Rattle.lk_node_events.specs.Timers.{IsLagNews, BecomesLag, IsDeafNews, BecomesDeaf};
ghost use Rattle.lk_node_events.specs.declared.event.Event.{Event as EventValue};
ghost use Rattle.lk_node_events.specs.declared.event.Event.TheVariants.{Behind, CaughtUp};

use crate::event::Event;
use crate::observation::Observation;
use lk_types::{Executed, NodeNo};

// The milliseconds of a second.
const SECOND: u64 = 1000;

// The seconds after which it is first reported that there is no leader, or that no majority was ever heard: an election
// takes less.
const FIRST: u64 = 2;

/// How long a node has had no leader, and what was reported of that.
#[derive(Clone, Copy)]
pub struct LeaderlessTimer {
    /// Since when, `None` while it has a leader.
    pub since: Option<u64>,
    /// How many seconds were last reported, 0 if none were.
    pub logged: u64,
}

/// How long a node has been asking for commands that it missed.
#[derive(Clone, Copy)]
pub struct BehindTimer {
    /// When it first asked, and when it asked last. `None` if it has asked nobody for a second.
    pub asked: Option<(u64, u64)>,
    /// Whether `Behind` was reported, so that `CaughtUp` has to follow.
    pub logged: bool,
}

/// How long a node has heard no majority since its start.
#[derive(Clone, Copy)]
pub struct DeafTimer {
    /// The time of the first turn, `None` before it.
    pub since: Option<u64>,
    /// Whether it has heard a majority, or was reported to have heard none.
    pub is_over: bool,
}

// Returns the event of a node that has had no leader for so many seconds: `Leaderless` of a member, and `Outside` of
// another node.
fn quiet_event(is_member: bool, seconds: u64) -> Event
    ensures { result ≡ quiet_event is_member seconds }
{
    if is_member {
        Event::Leaderless(seconds)
    } else {
        Event::Outside(seconds)
    }
}

impl LeaderlessTimer {
    /// It has a leader.
    pub const NONE: LeaderlessTimer = LeaderlessTimer {
        since: None,
        logged: 0,
    };

    // Notes the start of a time without a leader, or returns the event if that has lasted two seconds, and again each
    // time that it has lasted twice the seconds reported last.
    fn leaderless_event(&mut self, now: u64, is_member: bool) -> Option<Event>
        ensures some { IfSome result (IsQuietNews self.old now is_member) }
        ensures none { IsNone result → (e : EventValue) → IsQuietNews self.old now is_member e → ⊥ }
        ensures logged { IfSome result (λ e. e ≡ quiet_event is_member self.new.logged) }
        ensures kept { IsNone result → self.new.logged ≡ self.old.logged }
        ensures since { self.new.since ≡ Some (first_time self.old.since now) }
    {
        let Some(since) = self.since else {
            self.since = Some(now);
            return None;
        };
        let seconds = now.saturating_sub(since) / SECOND;
        if seconds < FIRST || seconds / 2 < self.logged {
            return None;
        }
        self.logged = seconds;
        Some(quiet_event(is_member, seconds))
    }

    /// Updates it after a turn, and returns `Leaderless` of a member, or `Outside` of another node, if that is due. A
    /// leader resets it.
    pub fn observe(&mut self, now: u64, has_leader: bool, is_member: bool) -> Option<Event>
        ensures some { IfSome result (λ e. (has_leader ≡ false) × IsQuietNews self.old now is_member e) }
        // An event that is due is returned.
        ensures none { IsNone result
            → (has_leader ≡ true) ⊎ ((e : EventValue) → IsQuietNews self.old now is_member e → ⊥) }
        ensures leader { has_leader ≡ true → self.new ≡ record { since = None; logged = 0 } }
        ensures since { has_leader ≡ false → self.new.since ≡ Some (first_time self.old.since now) }
        ensures logged { IfSome result (λ e. e ≡ quiet_event is_member self.new.logged) }
        ensures kept { has_leader ≡ false → IsNone result → self.new.logged ≡ self.old.logged }
    {
        if has_leader {
            *self = LeaderlessTimer::NONE;
            return None;
        }
        self.leaderless_event(now, is_member)
    }
}

impl BehindTimer {
    /// It has asked for nothing.
    pub const NONE: BehindTimer = BehindTimer {
        asked: None,
        logged: false,
    };

    // Notes that the node asks for what it missed. Returns `Behind` once, if it has been asking for a second.
    fn behind_event(&mut self, now: u64, node: NodeNo) -> Option<Event>
        ensures some { IfSome result (λ e. (e ≡ Behind node) × IsBehind self.old now) }
        ensures none { IsNone result → IsBehind self.old now → ⊥ }
        ensures logged { IsSome result → self.new.logged ≡ true }
        ensures kept { IsNone result → self.new.logged ≡ self.old.logged }
        ensures asked { self.new.asked ≡ Some (first_asked self.old.asked now, now) }
    {
        let Some((first, _)) = self.asked else {
            self.asked = Some((now, now));
            return None;
        };
        self.asked = Some((first, now));
        if self.logged || now.saturating_sub(first) < SECOND {
            return None;
        }
        self.logged = true;
        Some(Event::Behind(node))
    }

    // Forgets that the node was behind if it has asked nobody for a second, or the clock was set back. Then returns
    // `CaughtUp` if `Behind` was reported.
    fn caught_up_event(&mut self, now: u64, executed: Executed) -> Option<Event>
        ensures some { IfSome result (λ e. (e ≡ CaughtUp executed) × HasRested self.old now) }
        ensures none { IsNone result → HasRested self.old now → ⊥ }
        ensures over { IsOver self.old now → self.new ≡ no_lag }
        ensures kept { (IsOver self.old now → ⊥) → self.new ≡ self.old }
    {
        let Some((_, last)) = self.asked else {
            return None;
        };
        if now >= last && now - last < SECOND {
            return None;
        }
        let was_logged = self.logged;
        *self = BehindTimer::NONE;
        if !was_logged {
            return None;
        }
        Some(Event::CaughtUp(executed))
    }

    /// Updates it after a turn in which the node asked `wanted` for what it missed, or nobody. Returns `Behind` or
    /// `CaughtUp` if that is due.
    pub fn observe(&mut self, now: u64, wanted: Option<NodeNo>, executed: Executed) -> Option<Event>
        ensures some { IfSome result (IsLagNews self.old now wanted executed) }
        // An event that is due is returned.
        ensures none { IsNone result → (e : EventValue) → IsLagNews self.old now wanted executed e → ⊥ }
        ensures becomes { BecomesLag self.old now wanted result self.new }
    {
        match wanted {
            Some(node) => self.behind_event(now, node),
            None => self.caught_up_event(now, executed),
        }
    }
}

impl DeafTimer {
    /// Returns the timer of a node that was first seen like this.
    pub fn of(seen: &Observation) -> DeafTimer
        ensures { result ≡ record { since = None; is_over = not seen.now.deaf } }
    {
        DeafTimer {
            since: None,
            is_over: !seen.deaf,
        }
    }

    // Notes the time of the first turn, or returns `Deaf` if two seconds have passed since then.
    fn deaf_event(&mut self, now: u64, seen: &Observation) -> Option<Event>
        requires { (self.old.is_over ≡ false) × (seen.now.deaf ≡ true) }
        ensures some { IfSome result (IsDeafNews self.old now seen.now) }
        ensures none { IsNone result → (e : EventValue) → IsDeafNews self.old now seen.now e → ⊥ }
        ensures over { self.new.is_over ≡ is_some result }
        ensures since { self.new.since ≡ Some (first_time self.old.since now) }
    {
        let Some(since) = self.since else {
            self.since = Some(now);
            return None;
        };
        if now.saturating_sub(since) < FIRST * SECOND {
            return None;
        }
        self.is_over = true;
        Some(Event::Deaf(seen.heard, seen.members.copy()))
    }

    /// Updates it after a turn. Returns `Deaf` once, if the node has heard no majority since its start, two seconds ago
    /// or more.
    pub fn observe(&mut self, now: u64, seen: &Observation) -> Option<Event>
        ensures some { IfSome result (IsDeafNews self.old now seen.now) }
        // An event that is due is returned.
        ensures none { IsNone result → (e : EventValue) → IsDeafNews self.old now seen.now e → ⊥ }
        ensures becomes { BecomesDeaf self.old now seen.now.deaf result self.new }
    {
        self.is_over |= !seen.deaf;
        if self.is_over {
            return None;
        }
        self.deaf_event(now, seen)
    }
}
