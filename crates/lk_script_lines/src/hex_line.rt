//! Reads the lines of table mode: bytes in hex.

ghost use Rattle.std.specs.Prelude.{◌≡◌, ◌≢◌, ℕ, List, ◌∷◌, ◌++◌, replicate, slice_index, IfSome, IsNone, OnOk};
ghost use Rattle.std.specs.Prelude.{IsErrOf};
ghost use Rattle.lk_script_lines.specs.HexLines.{SpellsByte, SpellsBytes};

use crate::fault::LineFault;

// Returns the byte of two hex digits in either case, or `None` if one of them is none.
fn pair(high: u8, low: u8) -> Option<u8>
    ensures value { IfSome result (SpellsByte high low) }
    ensures none { IsNone result → (byte : ℕ) → SpellsByte high low byte → ⊥ }
{
    let upper = char::from(high).to_digit(16)?;
    let lower = char::from(low).to_digit(16)?;
    Some((upper * 16 + lower) as u8)
}

// Reads the byte of the first two digits, and returns it with the rest of the text.
fn first_byte(text: &[u8]) -> Option<(u8, &[u8])>
    ensures some { IfSome result
        (λ x. (high : ℕ) × (low : ℕ) × (text.now ≡ high ∷ low ∷ x.1.now) × SpellsByte high low x.0) }
    ensures none { IsNone result → (bytes : List ℕ) → SpellsBytes text.now bytes → ⊥ }
{
    let (high, rest) = text.split_first()?;
    let (low, rest) = rest.split_first()?;
    let byte = pair(*high, *low)?;
    Some((byte, rest))
}

// Returns the text without the spaces at its front.
fn behind_spaces(text: &[u8]) -> &[u8]
    ensures spaces { (n : ℕ) × (text.now ≡ replicate n 32 ++ result.now) }
    ensures next { slice_index result.now 0 ≢ 32 }
{
    let mut rest = text;
    while let Some((b' ', behind)) = rest.split_first() {
        rest = behind;
    }
    rest
}

/// Replaces `bytes` with those of a line: one or more, of two hex digits each, with spaces only between bytes. After an
/// error `bytes` has some of them.
pub fn read_bytes(line: &[u8], bytes: &mut Vec<u8>) -> Result<(), LineFault>
    ensures ok { OnOk result (SpellsBytes line.now bytes.new.items) }
    ensures not_understood { IsErrOf result LineFault.NotUnderstood → (all : List ℕ) → SpellsBytes line.now all → ⊥ }
{
    bytes.clear();
    let mut rest = line;
    while let Some((byte, behind)) = first_byte(rest) {
        bytes.push(byte)?;
        if behind.is_empty() {
            return Ok(());
        }
        rest = behind_spaces(behind);
    }
    Err(LineFault::NotUnderstood)
}
