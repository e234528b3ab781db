//! Splits texts into words.

ghost use Rattle.std.specs.Prelude.{◌≡◌, ◌∷◌, ◌++◌, IfSome, IsNone};
ghost use Rattle.lk_word_parsers.specs.Words.{HasNo, HasNoSpace};

/// Splits a text at the first byte `sign`, and drops that byte. `None` if there is none.
pub fn split_once(text: &[u8], sign: u8) -> Option<(&[u8], &[u8])>
    ensures some { IfSome result (λ p. HasNo sign p.0.now × (text.now ≡ p.0.now ++ sign ∷ p.1.now)) }
    ensures none { IsNone result → HasNo sign text.now }
{
    for (at, byte) in text.iter().enumerate() {
        if *byte == sign {
            return Some((&text[..at], &text[at + 1..]));
        }
    }
    None
}

/// Splits a text into its first word and what follows the space after it. `None` if there is no space.
pub fn split_word(text: &[u8]) -> Option<(&[u8], &[u8])>
    ensures some { IfSome result (λ p. HasNoSpace p.0.now × (text.now ≡ p.0.now ++ 32 ∷ p.1.now)) }
    ensures none { IsNone result → HasNoSpace text.now }
{
    split_once(text, b' ')
}
