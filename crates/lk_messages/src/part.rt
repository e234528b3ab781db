ghost use Rattle.std.specs.Prelude.{◌≡◌, ◌↔◌, IsSome, IfSome, IfOk, IsTrue};
ghost use Rattle.lk_codec.specs.FieldReading.{read_two};
ghost use Rattle.lk_codec.specs.Parser.{Finds, sized};
ghost use Rattle.lk_messages.specs.Reading.{read_part};
ghost use Rattle.lk_messages.specs.Values.{IsPart, IsWithin, LieWithin};

use lk_codec::{read_position, read_u16, read_u32};
use lk_types::limits::{MAX_BASE, MAX_PART};
use lk_types::{NoMemory, Position};
use std::alloc::Global;
use std::marker::Model;

/// A piece of a packed snapshot: the snapshot's position and length, the offset of the piece, and its bytes.
#[derive(Debug, Drop)]
pub struct Part {
    position: Position,
    total: u32,
    offset: u32,
    bytes: Vec<u8>,
}

impl Model for Part {
    ghost use Rattle.lk_messages.specs.Values.{PartValue, IsPart};

    ghost Value = { PartValue };

    ghost view = { λ p. record { position = p.position; total = p.total; offset = p.offset; bytes = p.bytes.items } };

    ghost invariant = { λ p. IsPart
        (record { position = p.position; total = p.total; offset = p.offset; bytes = p.bytes.items }) };
}

// Whether the total is 1 to 65,536 bytes, the piece has 1 to 1,024, and it ends within the total.
fn is_within(total: u32, offset: u32, length: usize) -> bool
    ensures { IsTrue result ↔ LieWithin total offset length }
{
    total as usize <= MAX_BASE
        && offset <= total
        && length >= 1
        && length <= MAX_PART
        && length <= (total - offset) as usize
}

impl Part {
    /// The piece, or `None` if the total is not 1 to 65,536, there are not 1 to 1,024 bytes, or they end past the
    /// total.
    pub fn of(position: Position, total: u32, offset: u32, bytes: Vec<u8>) -> Option<Part>
        ensures some { IsSome result
            ↔ IsWithin (record { position = position; total = total; offset = offset; bytes = bytes.items }) }
        ensures value { IfSome result
            (λ p. p ≡ record { position = position; total = total; offset = offset; bytes = bytes.items }) }
    {
        let _ = position.get();
        if !is_within(total, offset, bytes.len()) {
            return None;
        }
        Some(Part {
            position,
            total,
            offset,
            bytes,
        })
    }

    /// The snapshot's position and length, the offset of the piece, and its bytes.
    pub fn fields(&self) -> (Position, u32, u32, &[u8])
        ensures position { result.0 ≡ self.now.position }
        ensures total { result.1 ≡ self.now.total }
        ensures offset { result.2 ≡ self.now.offset }
        ensures bytes { result.3.now ≡ self.now.bytes }
    {
        (self.position, self.total, self.offset, &self.bytes)
    }

    /// Shows the prover that each part is in its range and the piece within its total. Does nothing at run time.
    pub fn facts(&self)
        ensures { IsPart self.now }
    {
        let _position = self.position;
    }
}

// Reads a two-byte length and that many bytes, and returns them with the bytes after them.
fn read_slice(bytes: &[u8]) -> Option<(&[u8], &[u8])>
    ensures { Finds (λ x. (x.0.now, x.1.now)) result (sized read_two bytes.now) }
{
    let (length, rest) = read_u16(bytes)?;
    let length = length as usize;
    if rest.len() < length {
        return None;
    }
    Some(rest.split_at(length))
}

/// A Part in a datagram. A contract sees it as the Part.
#[derive(Drop)]
pub struct PartRef<'a> {
    position: Position,
    total: u32,
    offset: u32,
    bytes: &'a [u8],
}

impl<'a> Model for PartRef<'a> {
    ghost use Rattle.lk_messages.specs.Values.{PartValue, IsWithin};

    ghost Value = { PartValue };

    ghost view = { λ p. record { position = p.position; total = p.total; offset = p.offset; bytes = p.bytes.now } };

    ghost invariant = { λ p. IsWithin
        (record { position = p.position; total = p.total; offset = p.offset; bytes = p.bytes.now }) };
}

impl<'a> PartRef<'a> {
    /// Reads the Part at the start of the bytes in place, and returns it with the bytes after it.
    #[tactic(auto, unfolding(crate::specs::Reading::read_part))]
    pub fn of(bytes: &'a [u8]) -> Option<(PartRef<'a>, &'a [u8])>
        ensures { Finds (λ x. (x.0, x.1.now)) result (read_part bytes.now) }
    {
        let Some((position, rest)) = read_position(bytes) else {
            return None;
        };
        let (total, rest) = read_u32(rest)?;
        let (offset, rest) = read_u32(rest)?;
        let (bytes, rest) = read_slice(rest)?;
        if !is_within(total, offset, bytes.len()) {
            return None;
        }
        let part = PartRef {
            position,
            total,
            offset,
            bytes,
        };
        Some((part, rest))
    }

    /// The position up to which the snapshot has executed.
    pub fn position(&self) -> Position
        ensures { result ≡ self.now.position }
    {
        self.position
    }

    /// How many bytes the snapshot has.
    pub fn total(&self) -> u32
        ensures { result ≡ self.now.total }
    {
        self.total
    }

    /// How many of them precede this piece.
    pub fn offset(&self) -> u32
        ensures { result ≡ self.now.offset }
    {
        self.offset
    }

    /// The bytes of this piece, in the datagram.
    pub fn bytes(&self) -> &'a [u8]
        ensures { result.now ≡ self.now.bytes }
    {
        self.bytes
    }

    /// Shows the prover that each part is in its range and the piece within its total. Does nothing at run time.
    pub fn facts(&self)
        ensures { IsPart self.now }
    {
        let _ = self.position.get();
    }

    /// Copies the Part, with its bytes, into memory of its own.
    pub fn copy(&self, alloc: Global) -> Result<Part, NoMemory>
        ensures { IfOk result (λ p. p ≡ self.now) }
    {
        let bytes = self.bytes.to_vec(alloc)?;
        Ok(Part::of(self.position, self.total, self.offset, bytes).unwrap())
    }
}
