//! The datagrams of a bundle that has come, one after another.

ghost use Rattle.std.specs.Prelude.{◌≡◌, ◌≤◌, ◌+◌, ◌++◌, ℕ, List, [], length, take, drop, true, false, IfOk, IfSome};
ghost use Rattle.std.specs.Prelude.{IsNone, OnErr};
ghost use Rattle.std.specs.List.{flat_map, AllByRecursion};
ghost use Rattle.lk_codec.specs.Parser.{Finds};
ghost use Rattle.lk_bundle.specs.Bundles.{piece, IsPiece, Bundles, read_piece, datagrams_in, ArePieces, TakesFirst};

use crate::bundle::{HEAD, SHORTEST};
use lk_codec::read_u16;
use std::alloc::{AllocError, Global};
use std::marker::Model;

// Reads the first piece, and returns its datagram with the bytes behind it; `None` if no whole one begins the bytes.
fn read_piece(bytes: &[u8]) -> Option<(&[u8], &[u8])>
    ensures parsed { Finds (λ x. (x.0.now, x.1.now)) result (read_piece bytes.now) }
    ensures found { IfSome result (λ x. IsPiece x.0.now × (bytes.now ≡ piece x.0.now ++ x.1.now)) }
    ensures length { IfSome result (λ x. length x.0.now + length x.1.now + 2 ≡ length bytes.now) }
{
    let (length, rest) = read_u16(bytes)?;
    let length = length as usize;
    if rest.len() < length {
        return None;
    }
    let (datagram, behind) = rest.split_at(length);
    if datagram.len() < SHORTEST {
        return None;
    }
    Some((datagram, behind))
}

// Returns how many pieces the bytes are; `None` if they are anything else.
fn count_pieces(bytes: &[u8]) -> Option<usize>
    ensures some { IfSome result (λ n. (datagrams : List (List ℕ)) × (length datagrams ≡ n)
        × AllByRecursion IsPiece datagrams × (bytes.now ≡ flat_map piece datagrams)) }
    ensures none { IsNone result → (datagrams : List (List ℕ)) → AllByRecursion IsPiece datagrams
        → bytes.now ≡ flat_map piece datagrams → ⊥ }
{
    let mut rest = bytes;
    let mut count = 0;
    'pieces: while !rest.is_empty() {
        let (_, behind) = read_piece(rest)?;
        rest = behind;
        count += 1;
    }
    Some(count)
}

// Returns how many datagrams a payload bundles; `None` if it is no bundle.
fn count_in(payload: &[u8]) -> Option<usize>
    ensures pieces { IfSome result (λ n. ArePieces n (drop 4 payload.now)) }
    ensures some { IfSome result (λ n. Bundles (datagrams_in n (drop 4 payload.now)) payload.now) }
    ensures none { IsNone result → (datagrams : List (List ℕ)) → Bundles datagrams payload.now → ⊥ }
{
    if payload.len() < HEAD.len() {
        return None;
    }
    let (head, rest) = payload.split_at(HEAD.len());
    if head != HEAD.as_slice() {
        return None;
    }
    let count = count_pieces(rest)?;
    if count < 2 {
        return None;
    }
    Some(count)
}

/// The datagrams of the last bundle that have not been taken.
#[derive(Drop)]
pub struct Pieces {
    bytes: Vec<u8>,
    // where the next piece begins, and how many there are from there
    next: usize,
    count: usize,
}

impl Model for Pieces {
    ghost use Rattle.std.specs.Prelude.{◌≤◌, ℕ, List, drop, vec_len};
    ghost use Rattle.lk_bundle.specs.Bundles.{datagrams_in, ArePieces};

    ghost Value = { List (List ℕ) };

    ghost view = { λ p. datagrams_in p.count (drop p.next p.bytes.items) };

    ghost invariant = { λ p. (p.next ≤ vec_len p.bytes) × ArePieces p.count (drop p.next p.bytes.items) };
}

impl Pieces {
    /// No datagrams. It takes memory at the first bundle.
    pub fn new(alloc: Global) -> Pieces
        ensures { result ≡ [] }
    {
        Pieces {
            bytes: Vec::new(alloc),
            next: 0,
            count: 0,
        }
    }

    /// Forgets what was not taken, and takes up the datagrams of a payload, if it is a bundle. Returns whether it is.
    pub fn fill(&mut self, payload: &[u8]) -> Result<bool, AllocError>
        ensures bundle { IfOk result (λ is. is ≡ true → Bundles self.new payload.now) }
        ensures other { IfOk result
            (λ is. is ≡ false → (datagrams : List (List ℕ)) → Bundles datagrams payload.now → ⊥) }
        ensures none { IfOk result (λ is. is ≡ false → self.new ≡ []) }
        ensures err { OnErr result (self.new ≡ []) }
    {
        self.count = 0;
        self.next = 0;
        self.bytes.clear();
        let Some(count) = count_in(payload) else {
            return Ok(false);
        };
        self.bytes.extend_from_slice(payload)?;
        self.next = HEAD.len();
        self.count = count;
        Ok(true)
    }

    /// Removes the first datagram, puts it into the buffer, and returns its length. What does not fit is lost.
    pub fn take_next(&mut self, buffer: &mut [u8]) -> Option<usize>
        ensures some { IfSome result (λ n. TakesFirst (length buffer.old) self.old (take n buffer.new) self.new) }
        ensures within { IfSome result (λ n. n ≤ length buffer.new) }
        ensures none { IsNone result → self.old ≡ [] }
        ensures unchanged { IsNone result → self.new ≡ self.old }
    {
        if self.count == 0 {
            return None;
        }
        let Some((datagram, _)) = read_piece(&self.bytes[self.next..]) else {
            return None;
        };
        let behind = self.next + 2 + datagram.len();
        let length = datagram.len().min(buffer.len());
        buffer[..length].copy_from_slice(&datagram[..length]);
        self.next = behind;
        self.count -= 1;
        Some(length)
    }
}
