ghost use Rattle.std.specs.Prelude.{◌≡◌, ◌≤◌, ◌↔◌, length, IsSome, IfSome};
ghost use Rattle.std.specs.List.{list_all};
ghost use Rattle.lk_types.specs.Limits.{max_name};
ghost use Rattle.lk_locks.specs.Names.{IsName, is_name_byte};

use arrayvec::ArrayVec;
use lk_types::limits::MAX_NAME;
use std::marker::Model;

/// The name of a lock: 1 to 32 bytes of `a` to `z`, `0` to `9`, `-`, `.` and `/`.
#[derive(Clone, PartialEq, Eq, PartialOrd, Ord, Drop)]
pub struct Name {
    bytes: ArrayVec<u8, MAX_NAME>,
}

impl Model for Name {
    ghost use Rattle.std.specs.Prelude.{ℕ, List};
    ghost use Rattle.lk_locks.specs.Names.{IsName};

    ghost Value = { List ℕ };

    ghost view = { λ n. n.bytes.items };

    ghost invariant = { λ n. IsName n.bytes.items };

    ghost inverse = { λ xs. record { bytes = record { items = xs } } };
}

// Whether a name may contain this byte.
fn is_name_byte(byte: u8) -> bool
    ensures { result ≡ is_name_byte byte }
{
    matches!(byte, b'a'..=b'z' | b'0'..=b'9' | b'-' | b'.' | b'/')
}

// Whether a name may contain each of these bytes.
fn are_name_bytes(bytes: &[u8]) -> bool
    ensures { result ≡ list_all is_name_byte bytes.now }
{
    bytes.iter().all(|byte| is_name_byte(*byte))
}

impl Name {
    /// Returns the name of these bytes, or `None` if they are not a valid name.
    pub fn of(bytes: &[u8]) -> Option<Name>
        ensures some { IsSome result ↔ IsName bytes.now }
        ensures value { IfSome result (λ n. n ≡ bytes.now) }
    {
        if bytes.is_empty() || bytes.len() > MAX_NAME || !are_name_bytes(bytes) {
            return None;
        }
        let bytes = ArrayVec::try_from(bytes).ok()?;
        Some(Name { bytes })
    }

    /// The bytes.
    pub fn as_slice(&self) -> &[u8]
        ensures value { result.now ≡ self.now }
        ensures fits { IsName self.now }
        ensures short { length self.now ≤ max_name }
    {
        self.bytes.as_slice()
    }

    /// The same name. Takes no memory.
    pub fn copy(&self) -> Name
        ensures { result ≡ self.now }
    {
        let bytes = self.bytes.clone().unwrap();
        Name { bytes }
    }

    // Shows the prover that the bytes are a valid name. Does nothing at run time.
    pub(crate) fn facts(&self)
        ensures { IsName self.now }
    {
        let _ = self.as_slice();
    }
}
