// Reads the numbers in a line of world mode.
ghost use Rattle.std.specs.Prelude.{ℕ, List, IfSome, IsNone};
ghost use Rattle.lk_script_lines.specs.WorldLines.{IsWord, StartsWithNumber};

use lk_word_parsers::number::read_number;
use lk_word_parsers::word::split_word;

/// Returns the number from `least` to `most` that a word spells.
pub fn number_of(word: &[u8], least: u64, most: u64) -> Option<u64>
    ensures some { IfSome result (λ n. IsWord least most n word.now) }
    ensures none { IsNone result → (n : ℕ) → IsWord least most n word.now → ⊥ }
{
    let number = read_number(word, most)?;
    if number < least {
        return None;
    }
    Some(number)
}

/// Returns the number from `least` to `most` that the first word spells, and the words after the space behind it.
pub fn first_number(words: &[u8], least: u64, most: u64) -> Option<(u64, &[u8])>
    ensures some { IfSome result (λ p. StartsWithNumber least most p.0 p.1.now words.now) }
    ensures none { IsNone result → (n : ℕ) (rest : List ℕ) → StartsWithNumber least most n rest words.now → ⊥ }
{
    let (word, rest) = split_word(words)?;
    let number = number_of(word, least, most)?;
    Some((number, rest))
}
