ghost use Rattle.std.specs.Prelude.{◌≡◌, ◌≤◌, ◌↔◌, ℕ, IsSome, IfSome};
ghost use Rattle.lk_types.specs.Ranges.{IsNode};

use crate::limits::MAX_NODE;
use std::marker::Model;

/// A node's number, from 1 to 2^31.
#[derive(Clone, Copy, Debug, PartialEq, Eq, PartialOrd)]
pub struct NodeNo {
    value: u32,
}

impl Model for NodeNo {
    ghost Value = { ℕ };

    ghost view = { λ n. n.value };

    ghost invariant = { λ n. IsNode n.value };

    ghost inverse = { λ n. record { value = n } };
}

impl NodeNo {
    /// The number, or `None` if it is out of range.
    pub fn of(value: u32) -> Option<NodeNo>
        ensures some { IsSome result ↔ IsNode value }
        ensures value { IfSome result (λ n. n ≡ value) }
    {
        if value < 1 || value > MAX_NODE {
            return None;
        }
        Some(NodeNo { value })
    }

    /// The number itself.
    pub fn get(self) -> u32
        ensures value { result ≡ self }
        ensures in_range { IsNode self }
    {
        self.value
    }
}

impl Default for NodeNo {
    ghost is_default = { λ n. n ≡ 1 };

    /// The least number.
    fn default() -> Self {
        NodeNo { value: 1 }
    }
}
