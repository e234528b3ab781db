//! Key files: a key in each line, in hex digits.

ghost use Rattle.std.specs.Prelude.{◌≡◌, ◌∷◌, ◌++◌, [], List, ℕ, Some, None, IfSome, IsNone, OnOk};
ghost use Rattle.std.specs.Io.KnownBytes.{Appends};
ghost use Rattle.hex.specs.Hex.{encode_lower};
ghost use Rattle.lk_auth.specs.KeyFiles.{IsLine, is_blank_or_comment, key_in, keys_in, one_or_two, with_others};
ghost use Rattle.lk_auth.specs.KeyFiles.{key_file};
ghost use Rattle.lk_auth.specs.KeyFiles.{key_lines};
ghost use Rattle.lk_auth.specs.Seals.{key_list};

use crate::key::{KEY, Key};
use crate::keys::Keys;
use std::io;
use std::io::Write;

// Whether a line is empty or a comment, which begins with `#`.
fn is_blank_or_comment(line: &[u8]) -> bool
    ensures { result ≡ is_blank_or_comment line.now }
{
    line.first().copied().unwrap_or(b'#') == b'#'
}

// Parses a line of 64 hex digits as a key.
fn key_in(line: &[u8]) -> Option<Key>
    ensures some { IfSome result (λ key. key_in line.now ≡ Some key) }
    ensures none { IsNone result → key_in line.now ≡ None }
{
    let mut bytes = [0; KEY];
    match hex::decode_to_slice(line, &mut bytes) {
        Ok(()) => Some(Key::of(bytes)),
        Err(_) => None,
    }
}

// Splits a text at its first line feed, which it drops. `None` if there is none.
fn first_line(text: &[u8]) -> Option<(&[u8], &[u8])>
    ensures some { IfSome result (λ p. IsLine p.0.now × (text.now ≡ p.0.now ++ 10 ∷ p.1.now)) }
    ensures none { IsNone result → IsLine text.now }
{
    for (at, byte) in text.iter().enumerate() {
        if *byte == b'\n' {
            return Some((&text[..at], &text[at + 1..]));
        }
    }
    None
}

// The hex digits of a key.
fn digits_of(key: &Key) -> [u8; 2 * KEY]
    ensures { result ≡ encode_lower key.now }
{
    let mut digits = [0; 2 * KEY];
    hex::encode_to_slice(key.bytes(), &mut digits).unwrap();
    digits
}

// Writes a key in hex digits, and a line feed.
#[tactic(auto, using(crate::proofs::KeyFileLaws::appends_more))]
fn write_line<W: Write>(key: &Key, out: &mut W) -> io::Result<()>
    ensures { OnOk result (Appends (W.contents out.old) (W.contents out.new) (encode_lower key.now ++ 10 ∷ [])) }
{
    out.write_all(&digits_of(key))?;
    out.write_all(b"\n")?;
    Ok(())
}

impl Keys {
    // Adds the key of a line, unless that is empty or a comment. `None` if the line is no key, or would be the third
    // one.
    fn with_line(self, line: &[u8]) -> Option<Keys>
        ensures some { IfSome result
            (λ keys. (after : List (List ℕ))
            → with_others (key_list self) (keys_in (line.now ∷ after)) ≡ with_others (key_list keys) (keys_in after)) }
        ensures none { IsNone result → (after : List (List ℕ))
            → one_or_two (with_others (key_list self) (keys_in (line.now ∷ after))) ≡ None }
    {
        if is_blank_or_comment(line) {
            return Some(self);
        }
        let Some(key) = key_in(line) else {
            return None;
        };
        match self {
            Keys::NoKey => Some(Keys::One(key)),
            Keys::One(first) => Some(Keys::Two(first, key)),
            Keys::Two(_, _) => None,
        }
    }

    /// Parses a key file. `None` if its lines are not one key or two, besides empty lines and comments.
    pub fn read(text: &[u8]) -> Option<Keys>
        ensures some { IfSome result (λ keys. key_file text.now ≡ Some (key_list keys)) }
        ensures none { IsNone result → key_file text.now ≡ None }
    {
        let mut keys = Keys::NoKey;
        let mut rest = text;
        'lines: while let Some((line, behind)) = first_line(rest) {
            let Some(more) = keys.with_line(line) else {
                return None;
            };
            keys = more;
            rest = behind;
        }
        let Some(keys) = keys.with_line(rest) else {
            return None;
        };
        if keys.is_none() {
            return None;
        }
        Some(keys)
    }

    /// Writes a key file of these keys, and flushes the output. Without keys it writes nothing, which is no valid key
    /// file.
    #[tactic(auto, using(crate::proofs::KeyFileLaws::appends_more, crate::proofs::KeyFileLaws::appends_nothing, crate::proofs::KeyFileLaws::appends_kept))]
    pub fn write<W: Write>(&self, out: &mut W) -> io::Result<()>
        ensures { OnOk result (Appends (W.contents out.old) (W.contents out.new) (key_lines (key_list self.now))) }
    {
        match self {
            Keys::NoKey => {}
            Keys::One(key) => write_line(key, out)?,
            Keys::Two(first, second) => {
                write_line(first, out)?;
                write_line(second, out)?;
            }
        }
        out.flush()?;
        Ok(())
    }
}
