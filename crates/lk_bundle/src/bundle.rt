//! A bundle that grows until it is sent.

ghost use Rattle.std.specs.Prelude.{◌≡◌, ◌↔◌, ◌≤◌, ◌<◌, ◌^◌, ◌++◌, ◌∷◌, [], length, IsTrue, IfOk, OnOk, OnErr};
ghost use Rattle.lk_bundle.specs.Bundles.{piece, bundle, payload, IsPiece};

use std::alloc::{AllocError, Global};
use std::marker::Model;

// The first bytes of a bundle: two letters, the version, and a zero.
pub(crate) const HEAD: [u8; 4] = [0x4c, 0x42, 1, 0];

// The length of a datagram stands before it in this many bytes.
const MARK: usize = 2;

// Where the first datagram begins.
const FIRST: usize = 6;

// No datagram of the protocol is shorter than its header, and no bundle has a shorter one: so a bundle of 8,192 bytes
// has at most 454.
pub(crate) const SHORTEST: usize = 16;

/// Whether a bundle can have this datagram: it has at least 16 bytes, and at most 65,535.
pub fn is_piece(datagram: &[u8]) -> bool
    ensures { IsTrue result ↔ IsPiece datagram.now }
{
    datagram.len() >= SHORTEST && datagram.len() <= usize::from(u16::MAX)
}

/// Datagrams to one address that are sent together.
#[derive(Drop)]
pub struct Bundle {
    count: usize,
    bytes: Vec<u8>,
}

impl Model for Bundle {
    ghost use Rattle.std.specs.Prelude.{ℕ, List, drop};
    ghost use Rattle.lk_bundle.specs.Bundles.{datagrams_in, IsBundleOf};

    ghost Value = { List (List ℕ) };

    ghost view = { λ b. datagrams_in b.count (drop 4 b.bytes.items) };

    ghost invariant = { λ b. IsBundleOf b.count b.bytes.items };
}

// Appends a piece. Out of memory it appends nothing.
#[tactic(auto, unfolding(lk_codec::specs::Fields::two))]
fn put_piece(out: &mut Vec<u8>, datagram: &[u8]) -> Result<(), AllocError>
    requires { length datagram.now < 2 ^ 16 }
    ensures ok { OnOk result (out.new.items ≡ out.old.items ++ piece datagram.now) }
    ensures err { OnErr result (out.new.items ≡ out.old.items) }
{
    let length = datagram.len() as u16;
    out.reserve(MARK + datagram.len())?;
    out.extend_from_slice(&length.to_be_bytes())?;
    out.extend_from_slice(datagram)?;
    Ok(())
}

impl Bundle {
    /// A bundle of no datagrams.
    pub fn new(alloc: Global) -> Result<Bundle, AllocError>
        ensures { IfOk result (λ b. b ≡ []) }
    {
        let mut bytes = Vec::new(alloc);
        bytes.extend_from_slice(&HEAD)?;
        Ok(Bundle { count: 0, bytes })
    }

    /// How many datagrams it has.
    pub fn len(&self) -> usize
        ensures { result ≡ length self.now }
    {
        self.count
    }

    /// Whether it would have at most that many bytes with this datagram.
    pub fn has_room(&self, datagram: &[u8], limit: usize) -> bool
        ensures { IsTrue result ↔ (length (bundle (self.now ++ datagram.now ∷ [])) ≤ limit) }
    {
        match limit.checked_sub(self.bytes.len()) {
            Some(left) => left >= MARK && left - MARK >= datagram.len(),
            None => false,
        }
    }

    /// Appends a datagram.
    pub fn push(&mut self, datagram: &[u8]) -> Result<(), AllocError>
        requires { IsPiece datagram.now }
        ensures ok { OnOk result (self.new ≡ self.old ++ datagram.now ∷ []) }
        ensures err { OnErr result (self.new ≡ self.old) }
    {
        let Some(count) = self.count.checked_add(1) else {
            return Err(AllocError);
        };
        put_piece(&mut self.bytes, datagram)?;
        self.count = count;
        Ok(())
    }

    /// What is to be sent: the bundle, or a single datagram alone.
    pub fn payload(&self) -> &[u8]
        ensures { result.now ≡ payload self.now }
    {
        if self.count == 1 {
            return self.bytes.as_slice().split_at(FIRST).1;
        }
        &self.bytes
    }

    /// Removes all datagrams.
    pub fn clear(&mut self)
        ensures { self.new ≡ [] }
    {
        self.bytes.truncate(HEAD.len());
        self.count = 0;
    }
}
