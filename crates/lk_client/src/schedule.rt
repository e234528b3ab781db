// When a client that waits for a lock asks again, and when it sends its next watch. All times are microseconds of one
// clock.

ghost use Rattle.std.specs.Prelude.{◌≡◌, ◌≤◌, ◌*◌, ◌↔◌, ◌⊎◌, IsTrue, nat_lt, true};
ghost use Rattle.lk_client.specs.Schedules.{FollowsBusy, after, counted, due, interval, is_kept, kept_by, next_event};
ghost use Rattle.lk_client.specs.Schedules.{told};

use lk_types::{Fence, NodeNo};
use lk_watch::News;

// The time from one watch to the next.
const RENEWAL: u64 = 800_000;

// How long it is believed that a node keeps a place: until two watches had no answer.
const BELIEF: u64 = 1_700_000;

// The longest time between two requests while no node keeps a place, in milliseconds.
const LONGEST: u64 = 3200;

// The time between two requests while a node keeps a place, in milliseconds: it says when the lock is free.
const WITH_PLACE: u64 = 60_000;

// After so many notices in turn that wrongly said that the lock is free, none is followed at that fence.
const MISLED: u32 = 2;

// Returns the time between two requests in milliseconds, after the lock was found held so often at one fence: it stays
// at 800 for half a minute.
fn millis_after(count: u32) -> u64
    ensures value { result ≡ interval count }
    ensures most { result ≤ 3200 }
{
    match count {
        0..=1 => 50,
        2 => 100,
        3 => 200,
        4 => 400,
        5..=34 => 800,
        35 => 1600,
        _ => LONGEST,
    }
}

// Returns so many milliseconds in microseconds, times 0.75 to 1.25 by the last digits of the clock, so that clients do
// not ask in step.
fn scattered(millis: u64, now: u64) -> u64
    requires { millis ≤ 60000 }
    ensures least { millis * 750 ≤ result }
    ensures most { result ≤ millis * 1250 }
{
    millis * (750 + now % 501)
}

/// The schedule of a client that waits for a lock.
#[derive(Clone, Copy)]
pub(crate) struct Schedule {
    // the fence at which the lock was found held last, and how often in turn
    fence: Option<Fence>,
    count: u32,
    // when the client asks again: if no node keeps a place for it, and if one does
    without_place: u64,
    with_place: u64,
    // the node that keeps a place for it, and until when that is believed
    keeper: Option<NodeNo>,
    kept_until: u64,
    // whether a node has said that the lock is free, and how often in turn that was wrong at that fence
    is_told: bool,
    misled: u32,
    // when the next watch is due
    watch_at: u64,
}

impl Schedule {
    /// The schedule of a client that has not asked yet.
    pub(crate) fn new() -> Schedule {
        Schedule {
            fence: None,
            count: 0,
            without_place: 0,
            with_place: 0,
            keeper: None,
            kept_until: 0,
            is_told: false,
            misled: 0,
            watch_at: u64::MAX,
        }
    }

    // Counts how often in turn the lock was found held at a fence, and how often a node has said that it was free.
    fn count_fence(&mut self, fence: Fence)
        ensures { self.new ≡ counted fence self.old }
    {
        if self.fence != Some(fence) {
            self.count = 0;
            self.misled = 0;
        } else if self.is_told {
            self.misled = self.misled.saturating_add(1);
        }
        self.fence = Some(fence);
        self.count = self.count.saturating_add(1);
        self.is_told = false;
    }

    /// The lock was found held at this fence: a watch is due at once.
    pub(crate) fn note_busy(&mut self, fence: Fence, now: u64)
        ensures { FollowsBusy fence now self.old self.new }
    {
        self.count_fence(fence);
        self.without_place = now.saturating_add(scattered(millis_after(self.count), now));
        self.with_place = now.saturating_add(scattered(WITH_PLACE, now));
        self.watch_at = now;
    }

    /// A watch was sent.
    pub(crate) fn note_watch(&mut self, now: u64)
        ensures { self.new ≡ record self.old { watch_at = after now 800000 } }
    {
        self.watch_at = now.saturating_add(RENEWAL);
    }

    // Notes whether a node keeps a place for the client.
    fn note_keeper(&mut self, node: NodeNo, is_kept: bool, now: u64)
        ensures { self.new ≡ kept_by node is_kept now self.old }
    {
        if is_kept {
            self.keeper = Some(node);
            self.kept_until = now.saturating_add(BELIEF);
        } else if self.keeper == Some(node) {
            self.kept_until = 0;
        }
    }

    /// A node has told this of the name, and the client's place in its queue.
    pub(crate) fn note_news(&mut self, node: NodeNo, news: News, place: u16, now: u64)
        ensures { self.new ≡ told node news place now self.old }
    {
        self.note_keeper(node, news == News::Held && place > 0, now);
        self.is_told = news == News::Free && self.follows();
    }

    // Whether it does what notices say: not where they have misled.
    fn follows(&self) -> bool
        ensures { result ≡ nat_lt self.now.misled 2 }
    {
        self.misled < MISLED
    }

    /// Whether the next watch is due.
    pub(crate) fn is_watch_due(&self, now: u64) -> bool
        ensures { IsTrue result ↔ (self.now.watch_at ≤ now) }
    {
        now >= self.watch_at
    }

    // Whether a node keeps a place for the client, as far as that is believed.
    fn is_kept(&self, now: u64) -> bool
        ensures { result ≡ is_kept now self.now }
    {
        now < self.kept_until && self.follows()
    }

    // When the client asks again, unless a node says something.
    fn due(&self, now: u64) -> u64
        ensures { result ≡ due now self.now }
    {
        if self.is_kept(now) {
            self.with_place
        } else {
            self.without_place
        }
    }

    /// Whether the client asks now.
    pub(crate) fn is_due(&self, now: u64) -> bool
        ensures { IsTrue result ↔ ((self.now.is_told ≡ true) ⊎ (due now self.now ≤ now)) }
    {
        self.is_told || now >= self.due(now)
    }

    /// Until when the client listens, if it does not ask now.
    pub(crate) fn next_event(&self, now: u64) -> u64
        ensures { result ≡ next_event now self.now }
    {
        let next = self.due(now).min(self.watch_at);
        if self.is_kept(now) {
            next.min(self.kept_until)
        } else {
            next
        }
    }

    /// When the next watch is due.
    pub(crate) fn watch_at(&self) -> u64
        ensures { result ≡ self.now.watch_at }
    {
        self.watch_at
    }
}
