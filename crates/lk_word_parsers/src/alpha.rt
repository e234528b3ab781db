//! Reads the alpha of a genesis, which ends in a `w` if the genesis is wide.

ghost use Rattle.std.specs.Prelude.{◌≡◌, ◌≤◌, ℕ, IfSome, IsNone};
ghost use Rattle.std.specs.Fmt.{decimal};
ghost use Rattle.lk_word_parsers.specs.Geneses.{IsAlphaWord};

use crate::number::read_number;
use crate::word::split_once;
use lk_types::limits::{MAX_ALPHA, MAX_WIDE_ALPHA};

// Reads an alpha of 1 to `most` in digits.
fn read_digits(word: &[u8], most: u8) -> Option<u8>
    ensures some { IfSome result (λ n. (1 ≤ n) × (n ≤ most) × (word.now ≡ decimal n)) }
    ensures none { IsNone result → (n : ℕ) → 1 ≤ n → n ≤ most → word.now ≡ decimal n → ⊥ }
{
    let alpha = read_number(word, u64::from(most))?;
    if alpha < 1 {
        return None;
    }
    Some(alpha as u8)
}

/// Reads an alpha: 1 to 16, or 1 to 64 with a `w` behind it. `None` if the word spells none.
pub fn read_alpha(word: &[u8]) -> Option<u8>
    ensures some { IfSome result (λ n. IsAlphaWord n word.now) }
    ensures none { IsNone result → (n : ℕ) → IsAlphaWord n word.now → ⊥ }
{
    match split_once(word, b'w') {
        None => read_digits(word, MAX_ALPHA),
        Some((digits, [])) => read_digits(digits, MAX_WIDE_ALPHA),
        Some(_) => None,
    }
}
