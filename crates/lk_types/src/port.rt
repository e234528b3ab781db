ghost use Rattle.std.specs.Prelude.{◌≡◌, ◌≤◌, ◌↔◌, ℕ, IsSome, IfSome};
ghost use Rattle.lk_types.specs.Ranges.{IsPort};

use crate::limits::MAX_PORT;
use std::marker::Model;

/// A UDP port, from 1 to 65,535.
#[derive(Clone, Copy, Debug, PartialEq, Eq)]
pub struct Port {
    value: u16,
}

impl Model for Port {
    ghost Value = { ℕ };

    ghost view = { λ n. n.value };

    ghost invariant = { λ n. IsPort n.value };

    ghost inverse = { λ n. record { value = n } };
}

impl Port {
    /// The number, or `None` if it is out of range.
    pub fn of(value: u16) -> Option<Port>
        ensures some { IsSome result ↔ IsPort value }
        ensures value { IfSome result (λ n. n ≡ value) }
    {
        if value < 1 || value > MAX_PORT {
            return None;
        }
        Some(Port { value })
    }

    /// The number itself.
    pub fn get(self) -> u16
        ensures value { result ≡ self }
        ensures in_range { IsPort self }
    {
        self.value
    }
}

impl Default for Port {
    ghost is_default = { λ n. n ≡ 1 };

    /// The least number.
    fn default() -> Self {
        Port { value: 1 }
    }
}
