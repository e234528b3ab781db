// What can be read of a file with sums: its text up to the first wrong sum.
ghost use Rattle.std.specs.Prelude.{◌≡◌, ◌↔◌, true, length, take, Ok, None, IfOk, IfErr, IfSome};
ghost use Rattle.lk_disk.specs.Disk.{contents};
ghost use Rattle.lk_disk.specs.declared.device.Side.{Side};
ghost use Rattle.lk_summed_disk.specs.Frames.{magic, HasSums};
ghost use Rattle.lk_summed_disk.specs.Texts.{IsLegible};
ghost use Rattle.lk_summed_disk.specs.Opened.{IsNoDamage};
ghost use Rattle.lk_summed_disk.specs.Readers.{fresh, text};

use crate::fault::OpenFault;
use crate::frame::{MAGIC_LENGTH, Next, magic, next_frame, seed};
use lk_disk::{LogDisk, Side};
use std::alloc::Global;

// Whether a file of these bytes has sums.
fn has_sums(side: Side, bytes: &[u8]) -> bool
    ensures value { result ≡ true ↔ HasSums side bytes.now }
    ensures begins { result ≡ true → take 8 bytes.now ≡ magic side }
{
    if bytes.len() < MAGIC_LENGTH {
        return false;
    }
    let magic = magic(side);
    &bytes[..MAGIC_LENGTH] == &magic[..MAGIC_LENGTH]
}

// Returns the text of the frames behind the magic, up to the first one that is not whole or whose sum is wrong.
fn frames_text(alloc: Global, side: Side, bytes: &[u8]) -> Result<Vec<u8>, OpenFault>
    requires { take 8 bytes.now ≡ magic side }
    ensures text { IfOk result (λ t. t.items ≡ text (fresh side) bytes.now) }
    ensures fault { IfErr result IsNoDamage }
{
    let mut text = Vec::new(alloc);
    let mut chain = seed(side);
    let mut rest = &bytes[MAGIC_LENGTH..];
    'frames: loop {
        match next_frame(&chain, rest) {
            Next::Frame(piece, after, more) => {
                text.extend_from_slice(piece)?;
                chain = after;
                rest = more;
            }
            Next::Torn => return Ok(text),
            Next::Damaged => return Ok(text),
        }
    }
}

// Returns the text of a file of these bytes, or `None` if it has no sums.
fn legible(alloc: Global, side: Side, bytes: &[u8]) -> Result<Option<Vec<u8>>, OpenFault>
    ensures some { IfOk result (λ r. IfSome r (λ t. IsLegible side bytes.now t.items)) }
    ensures none { result ≡ Ok None → HasSums side bytes.now → ⊥ }
    ensures fault { IfErr result IsNoDamage }
{
    if !has_sums(side, bytes) {
        return Ok(None);
    }
    let text = frames_text(alloc, side, bytes)?;
    Ok(Some(text))
}

/// Reads the file at a side, and returns its text up to the first frame that is not whole or whose sum is wrong; `None`
/// if it has no sums. Changes nothing.
pub fn legible_text<D: LogDisk>(
    alloc: Global,
    device: &mut D,
    side: Side,
) -> Result<Option<Vec<u8>>, OpenFault>
    ensures unchanged { D.is_honest → (s : Side) → D.disk device.new s ≡ D.disk device.old s }
    ensures some { D.is_honest
        → IfOk result (λ r. IfSome r (λ t. IsLegible side (contents (D.disk device.old side)) t.items)) }
    ensures none { D.is_honest → result ≡ Ok None → HasSums side (contents (D.disk device.old side)) → ⊥ }
    ensures fault { IfErr result IsNoDamage }
{
    let count = device.length(side)?;
    let mut bytes = vec![in alloc; 0; count]?;
    device.read_into(side, 0, &mut bytes)?;
    legible(alloc, side, &bytes)
}
