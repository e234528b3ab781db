//! Reads numbers in decimal digits.

ghost use Rattle.std.specs.Prelude.{◌≡◌, ◌≤◌, ◌↔◌, ℕ, ◌<◌, IfSome, IsNone, IsTrue, length, slice_index};
ghost use Rattle.std.specs.Fmt.{decimal};
ghost use Rattle.lk_word_parsers.specs.Words.{is_plain};

// Whether the text of a number without a minus has no plus either, and no leading zero unless it is the only digit.
fn is_plain(digits: &[u8]) -> bool
    ensures { result ≡ is_plain digits.now }
{
    match digits {
        [] => false,
        [first] => *first != b'+',
        [first, ..] => *first != b'+' && *first != b'0',
    }
}

/// Reads decimal digits without a sign or leading zeros. `None` if the word is anything else, or the number exceeds
/// `most`.
pub fn read_number(word: &[u8], most: u64) -> Option<u64>
    ensures some { IfSome result (λ n. (n ≤ most) × (word.now ≡ decimal n)) }
    ensures none { IsNone result → (n : ℕ) → n ≤ most → word.now ≡ decimal n → ⊥ }
{
    let digits = str::from_utf8(word).ok()?;
    let number = digits.parse().ok()?;
    if number > most || !is_plain(word) {
        return None;
    }
    Some(number)
}
