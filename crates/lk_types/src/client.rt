ghost use Rattle.std.specs.Prelude.{◌≡◌, ◌≤◌, ◌↔◌, ℕ, IsSome, IfSome};
ghost use Rattle.lk_types.specs.Ranges.{IsClient};

use crate::limits::MAX_CLIENT;
use std::marker::Model;

/// A client's number, from 1 to 256.
#[derive(Clone, Copy, Debug, PartialEq, Eq, PartialOrd, Hash)]
pub struct ClientNo {
    value: u16,
}

impl Model for ClientNo {
    ghost Value = { ℕ };

    ghost view = { λ n. n.value };

    ghost invariant = { λ n. IsClient n.value };

    ghost inverse = { λ n. record { value = n } };
}

impl ClientNo {
    /// The number, or `None` if it is out of range.
    pub fn of(value: u16) -> Option<ClientNo>
        ensures some { IsSome result ↔ IsClient value }
        ensures value { IfSome result (λ n. n ≡ value) }
    {
        if value < 1 || value > MAX_CLIENT {
            return None;
        }
        Some(ClientNo { value })
    }

    /// The number itself.
    pub fn get(self) -> u16
        ensures value { result ≡ self }
        ensures in_range { IsClient self }
    {
        self.value
    }
}

impl Default for ClientNo {
    ghost is_default = { λ n. n ≡ 1 };

    /// The least number.
    fn default() -> Self {
        ClientNo { value: 1 }
    }
}
