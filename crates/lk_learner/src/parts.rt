ghost use Rattle.std.specs.Prelude.{◌≡◌, ◌<◌, ◌≤◌, ◌+◌, length, take, drop, IfOk};
ghost use Rattle.lk_types.specs.Limits.{max_base, max_part};
ghost use Rattle.lk_learner.specs.Parts.{start_of, part_of, AreParts};

use lk_messages::Part;
use lk_types::limits::MAX_PART;
use lk_types::{NoMemory, Position};
use std::alloc::Global;

// The most parts in reply to one request for a snapshot.
const MAX_PARTS: usize = 8;

// Returns the next 1,024 bytes of the text from this offset on, or what is left of it.
fn piece_of(text: &[u8], offset: usize) -> &[u8]
    requires within { offset < length text.now }
    requires room { length text.now ≤ max_base }
    ensures bytes { result.now ≡ take max_part (drop offset text.now) }
    ensures some { 1 ≤ length result.now }
    ensures few { length result.now ≤ max_part }
    ensures inside { offset + length result.now ≤ length text.now }
{
    let end = text.len().min(offset + MAX_PART);
    &text[offset..end]
}

// Creates the part of the text at this offset: 1,024 bytes, or what is left of it.
fn part_of(alloc: Global, position: Position, text: &[u8], offset: usize) -> Result<Part, NoMemory>
    requires within { offset < length text.now }
    requires room { length text.now ≤ max_base }
    ensures { IfOk result (λ part. part ≡ part_of position text.now offset) }
{
    let bytes = piece_of(text, offset).to_vec(alloc)?;
    let part = Part::of(position, text.len() as u32, offset as u32, bytes);
    Ok(part.unwrap())
}

// Returns the offset to serve from: the requested one, or 0 if that is not below the length of the text.
fn start_of(offset: u32, text: &[u8]) -> usize
    requires { 1 ≤ length text.now }
    ensures value { result ≡ start_of offset text.now }
    ensures within { result < length text.now }
{
    let offset = offset as usize;
    if offset < text.len() { offset } else { 0 }
}

// Returns the parts of the text from `start` on, up to 8.
fn parts_behind(
    alloc: Global,
    position: Position,
    text: &[u8],
    start: usize,
) -> Result<Vec<Part>, NoMemory>
    requires within { start < length text.now }
    requires room { length text.now ≤ max_base }
    ensures { IfOk result (λ parts. AreParts position text.now start parts.items) }
{
    let mut parts = Vec::new(alloc);
    'parts: for index in 0..MAX_PARTS {
        let offset = start + index * MAX_PART;
        if offset >= text.len() {
            return Ok(parts);
        }
        parts.push(part_of(alloc, position, text, offset)?)?;
    }
    Ok(parts)
}

/// Returns the reply to a node that asks for the packed text of the snapshot at `position`: the text from the offset
/// on, or from its start if the offset is not below its length, in up to 8 parts of 1,024 bytes each, except for the
/// last part of the text. It needs memory for the bytes.
pub fn parts_from(
    alloc: Global,
    position: Position,
    text: &[u8],
    offset: u32,
) -> Result<Vec<Part>, NoMemory>
    requires some { 1 ≤ length text.now }
    requires room { length text.now ≤ max_base }
    ensures { IfOk result (λ parts. AreParts position text.now (start_of offset text.now) parts.items) }
{
    parts_behind(alloc, position, text, start_of(offset, text))
}
