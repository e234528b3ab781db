ghost use Rattle.std.specs.Prelude.{◌≡◌, ◌≤◌, ◌↔◌, ℕ, IsSome, IfSome};
ghost use Rattle.lk_types.specs.Ranges.{IsCount};

use crate::limits::MAX_COUNT;
use std::marker::Model;

/// A fencing token: the number of a name's grant, one higher each time the free name is granted, from 1 to 2^48.
#[derive(Clone, Copy, Debug, PartialEq, Eq)]
pub struct Fence {
    value: u64,
}

impl Model for Fence {
    ghost Value = { ℕ };

    ghost view = { λ n. n.value };

    ghost invariant = { λ n. IsCount n.value };

    ghost inverse = { λ n. record { value = n } };
}

impl Fence {
    /// The number, or `None` if it is out of range.
    pub fn of(value: u64) -> Option<Fence>
        ensures some { IsSome result ↔ IsCount value }
        ensures value { IfSome result (λ n. n ≡ value) }
    {
        if value < 1 || value > MAX_COUNT {
            return None;
        }
        Some(Fence { value })
    }

    /// The number itself.
    pub fn get(self) -> u64
        ensures value { result ≡ self }
        ensures in_range { IsCount self }
    {
        self.value
    }
}

impl Default for Fence {
    ghost is_default = { λ n. n ≡ 1 };

    /// The least number.
    fn default() -> Self {
        Fence { value: 1 }
    }
}
