// What the bytes of a file are: its text, where its frames end, and whether it is damaged.
ghost use Rattle.std.specs.Prelude.{◌≡◌, ◌∷◌, ◌↔◌, ℕ, List, [], length, take, true, IfOk, IfErr};
ghost use Rattle.lk_disk.specs.Disk.{contents};
ghost use Rattle.lk_disk.specs.declared.device.Side.{Side};
ghost use Rattle.lk_summed_disk.specs.Frames.{magic, HasSums};
ghost use Rattle.lk_summed_disk.specs.Places.{is_summed};
ghost use Rattle.lk_summed_disk.specs.Parsed.{IsParsed, IsTrueDamage};

use crate::fault::OpenFault;
use crate::frame::{MAGIC_LENGTH, Next, begins_plain, magic, next_frame, seed};
use crate::place::{Form, Place};
use lk_disk::{LogDisk, Side};
use std::alloc::Global;

/// The text of a file, and how the file goes on.
#[derive(Drop)]
pub struct Parsed {
    pub text: Vec<u8>,
    pub place: Place,
}

// Parses the frames behind the magic.
fn parse_frames(alloc: Global, side: Side, bytes: &[u8]) -> Result<Parsed, OpenFault>
    requires { take 8 bytes.now ≡ magic side }
    ensures parsed { IfOk result (λ p. IsParsed side bytes.now p) }
    ensures damaged { IfErr result (λ e. IsTrueDamage side bytes.now e) }
    ensures sums { IfOk result (λ p. is_summed p.place.form ≡ true ↔ HasSums side bytes.now) }
{
    let mut text = Vec::new(alloc);
    let mut chain = seed(side);
    let mut rest = &bytes[MAGIC_LENGTH..];
    'frames: loop {
        match next_frame(&chain, rest) {
            Next::Frame(piece, after, more) => {
                text.extend_from_slice(piece)?;
                chain = after;
                rest = more;
            }
            Next::Torn => break,
            Next::Damaged => return Err(OpenFault::Damaged(side, bytes.len() - rest.len())),
        }
    }
    let place = Place {
        form: Form::Summed(chain),
        end: bytes.len() - rest.len(),
        size: text.len(),
        is_whole: rest.is_empty(),
    };
    Ok(Parsed { text, place })
}

// Parses the bytes of a file that does not begin with a zero: it has sums, or a stop has left a front of the magic.
fn parse_marked(alloc: Global, side: Side, bytes: &[u8]) -> Result<Parsed, OpenFault>
    requires some { bytes.now ≡ [] → ⊥ }
    requires marked { (rest : List ℕ) → bytes.now ≡ 0 ∷ rest → ⊥ }
    ensures parsed { IfOk result (λ p. IsParsed side bytes.now p) }
    ensures damaged { IfErr result (λ e. IsTrueDamage side bytes.now e) }
    ensures sums { IfOk result (λ p. is_summed p.place.form ≡ true ↔ HasSums side bytes.now) }
{
    let magic = magic(side);
    let count = bytes.len().min(MAGIC_LENGTH);
    if &bytes[..count] != &magic[..count] {
        return Err(OpenFault::Damaged(side, 0));
    }
    if count == MAGIC_LENGTH {
        return parse_frames(alloc, side, bytes);
    }
    let place = Place {
        form: Form::Empty,
        end: 0,
        size: 0,
        is_whole: false,
    };
    Ok(Parsed {
        text: Vec::new(alloc),
        place,
    })
}

// Parses the bytes of a file without sums.
fn parse_plain(alloc: Global, bytes: &[u8]) -> Result<Parsed, OpenFault>
    requires { (rest : List ℕ) × (bytes.now ≡ 0 ∷ rest) }
    ensures parsed { (side : Side) → IfOk result (λ p. IsParsed side bytes.now p) }
    ensures damaged { (side : Side) → IfErr result (λ e. IsTrueDamage side bytes.now e) }
    ensures sums { (side : Side) → IfOk result (λ p. is_summed p.place.form ≡ true ↔ HasSums side bytes.now) }
{
    let text = bytes.to_vec(alloc)?;
    let place = Place {
        form: Form::Plain,
        end: bytes.len(),
        size: bytes.len(),
        is_whole: true,
    };
    Ok(Parsed { text, place })
}

// Parses the bytes of a file.
fn parse(alloc: Global, side: Side, bytes: &[u8]) -> Result<Parsed, OpenFault>
    ensures parsed { IfOk result (λ p. IsParsed side bytes.now p) }
    ensures damaged { IfErr result (λ e. IsTrueDamage side bytes.now e) }
    ensures sums { IfOk result (λ p. is_summed p.place.form ≡ true ↔ HasSums side bytes.now) }
{
    if bytes.is_empty() {
        return Ok(Parsed {
            text: Vec::new(alloc),
            place: Place::EMPTY,
        });
    }
    if begins_plain(bytes) {
        return parse_plain(alloc, bytes);
    }
    parse_marked(alloc, side, bytes)
}

/// Reads and parses the file at a side.
pub fn read_side<D: LogDisk>(alloc: Global, device: &mut D, side: Side) -> Result<Parsed, OpenFault>
    ensures unchanged { D.is_honest → (s : Side) → D.disk device.new s ≡ D.disk device.old s }
    ensures parsed { D.is_honest → IfOk result (λ p. IsParsed side (contents (D.disk device.old side)) p) }
    ensures damaged { D.is_honest → IfErr result (λ e. IsTrueDamage side (contents (D.disk device.old side)) e) }
    ensures sums { D.is_honest
        → IfOk result (λ p. is_summed p.place.form ≡ true ↔ HasSums side (contents (D.disk device.old side))) }
{
    let count = device.length(side)?;
    let mut bytes = vec![in alloc; 0; count]?;
    device.read_into(side, 0, &mut bytes)?;
    parse(alloc, side, &bytes)
}
