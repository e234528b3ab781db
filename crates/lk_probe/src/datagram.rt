// The bytes of a probe or of a report.
ghost use Rattle.std.specs.Prelude.{◌≡◌, ◌≤◌, ◌++◌, length};
ghost use Rattle.lk_probe.specs.Grammar.{form, reach_length};

use crate::status::{LENGTH, REACH};
use arrayvec::ArrayVec;
use std::marker::Model;

// The length of a probe's datagram in form 2, and of a report's.
const LONGEST: usize = LENGTH + REACH;

// Returns the number of the form: 2 with a reach, or if one is asked for.
pub fn form_number(has_reach: bool) -> u8
    ensures { result ≡ form has_reach }
{
    if has_reach { 2 } else { 1 }
}

/// The datagram of a probe or of a report. Its size is fixed.
#[derive(Drop)]
pub struct ProbeDatagram {
    bytes: ArrayVec<u8, LONGEST>,
}

impl Model for ProbeDatagram {
    ghost use Rattle.std.specs.Prelude.{List, ℕ};

    ghost Value = { List ℕ };

    ghost view = { λ d. d.bytes.items };
}

impl ProbeDatagram {
    /// Returns the datagram of these bytes: what both forms have, and what form 2 has after that.
    pub(crate) fn of(front: &[u8; LENGTH], tail: &[u8]) -> ProbeDatagram
        requires { length tail.now ≤ reach_length }
        ensures { result ≡ front.now ++ tail.now }
    {
        let mut bytes = ArrayVec::new();
        bytes.try_extend_from_slice(front).unwrap();
        bytes.try_extend_from_slice(tail).unwrap();
        ProbeDatagram { bytes }
    }

    /// Returns its bytes.
    pub fn as_slice(&self) -> &[u8]
        ensures { result.now ≡ self.now }
    {
        self.bytes.as_slice()
    }
}
