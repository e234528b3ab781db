ghost use Rattle.std.specs.Prelude.{◌≡◌, ◌≤◌, ◌↔◌, ℕ, IsSome, IfSome};
ghost use Rattle.lk_types.specs.Ranges.{IsSharerCount};

use crate::limits::MAX_SHARERS;
use std::marker::Model;

/// How many clients share a name, from 1 to 8.
#[derive(Clone, Copy, Debug)]
pub struct SharerCount {
    value: u8,
}

impl Model for SharerCount {
    ghost Value = { ℕ };

    ghost view = { λ n. n.value };

    ghost invariant = { λ n. IsSharerCount n.value };

    ghost inverse = { λ n. record { value = n } };
}

impl SharerCount {
    /// The number, or `None` if it is out of range.
    pub fn of(value: u8) -> Option<SharerCount>
        ensures some { IsSome result ↔ IsSharerCount value }
        ensures value { IfSome result (λ n. n ≡ value) }
    {
        if value < 1 || value > MAX_SHARERS {
            return None;
        }
        Some(SharerCount { value })
    }

    /// The number itself.
    pub fn get(self) -> u8
        ensures value { result ≡ self }
        ensures in_range { IsSharerCount self }
    {
        self.value
    }
}

impl Default for SharerCount {
    ghost is_default = { λ n. n ≡ 1 };

    /// The least number.
    fn default() -> Self {
        SharerCount { value: 1 }
    }
}
