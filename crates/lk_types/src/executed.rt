ghost use Rattle.std.specs.Prelude.{◌≡◌, ◌≤◌, ◌↔◌, ℕ, IsSome, IfSome};
ghost use Rattle.lk_types.specs.Ranges.{IsTotal};

use crate::limits::MAX_COUNT;
use std::marker::Model;

/// How many positions are executed, or a position with 0 for none: from 0 to 2^48.
#[derive(Clone, Copy, Debug, PartialEq, Eq)]
pub struct Executed {
    value: u64,
}

impl Model for Executed {
    ghost Value = { ℕ };

    ghost view = { λ n. n.value };

    ghost invariant = { λ n. IsTotal n.value };

    ghost inverse = { λ n. record { value = n } };
}

impl Executed {
    /// The number, or `None` if it is out of range.
    pub fn of(value: u64) -> Option<Executed>
        ensures some { IsSome result ↔ IsTotal value }
        ensures value { IfSome result (λ n. n ≡ value) }
    {
        if value > MAX_COUNT {
            return None;
        }
        Some(Executed { value })
    }

    /// The number itself.
    pub fn get(self) -> u64
        ensures value { result ≡ self }
        ensures in_range { IsTotal self }
    {
        self.value
    }
}

impl Default for Executed {
    ghost is_default = { λ n. n ≡ 0 };

    /// The least number.
    fn default() -> Self {
        Executed { value: 0 }
    }
}
