// How many ticks have passed since a leader was heard.
ghost use Rattle.std.specs.Prelude.{◌≡◌, ◌+◌, ◌≤◌, min};
ghost use Rattle.lk_node_interface.specs.Ticks.{max_ticks, is_enough, is_full};

use std::marker::Model;

// How many ticks the first member waits for a leader before it begins a ballot, and how many more each member waits
// than the one before it, so that two seldom begin a ballot at once.
const TICKS_A_MEMBER: u8 = 4;

// How many ticks the last of seven members waits. There are at most seven, so no more ticks are counted.
const MAX_TICKS: u8 = 28;

/// How many ticks have passed since a leader was heard: 0 to 28, where the count stays.
#[derive(Clone, Copy)]
pub struct TickCount {
    count: u8,
}

impl Model for TickCount {
    ghost use Rattle.std.specs.Prelude.{ℕ, ◌≤◌};

    ghost Value = { ℕ };

    ghost view = { λ t. t.count };

    ghost inverse = { λ n. record { count = n } };

    ghost invariant = { λ t. t.count ≤ 28 };
}

impl TickCount {
    /// Creates a count of 0.
    pub fn new() -> TickCount
        ensures { result ≡ 0 }
    {
        TickCount { count: 0 }
    }

    /// Counts one more tick, up to 28.
    pub fn count_tick(&mut self)
        ensures { self.new ≡ min (self.old + 1) max_ticks }
    {
        if self.count < MAX_TICKS {
            self.count += 1;
        }
    }

    /// Sets the count to 0: a leader was heard.
    pub fn reset(&mut self)
        ensures { self.new ≡ 0 }
    {
        self.count = 0;
    }

    /// Returns the count, 0 to 28.
    pub fn get(&self) -> u8
        ensures value { result ≡ self.now }
        ensures most { self.now ≤ max_ticks }
    {
        self.count
    }

    /// Whether 28 ticks are counted: no member waits longer for a leader.
    pub fn is_full(&self) -> bool
        ensures { result ≡ is_full self.now }
    {
        self.count >= MAX_TICKS
    }

    /// Whether a node at this index, from 0, among the members of the next position has waited long enough for a
    /// leader: 4 ticks, and 4 more for each index. A node that is no member (`None`) never has.
    pub fn is_enough(&self, index: Option<usize>) -> bool
        ensures { result ≡ is_enough self.now index }
    {
        let ticks = self.get();
        // The same as 4 + 4 * index <= ticks, without a sum that could overflow.
        match index {
            Some(index) => ticks >= TICKS_A_MEMBER && index < usize::from(ticks / TICKS_A_MEMBER),
            None => false,
        }
    }
}
