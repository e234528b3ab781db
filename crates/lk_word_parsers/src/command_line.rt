//! The words of an operation on a command line.

use crate::operation::read_operation;
use lk_types::Op;
use std::alloc::{AllocError, Global};

// Appends a word, separated by a space. Returns whether it is a single word, without a space in it.
fn add_word(text: &mut Vec<u8>, is_first: bool, word: &str) -> Result<bool, AllocError> {
    if !is_first {
        text.extend_from_slice(b" ")?;
    }
    text.extend_from_slice(word.as_bytes())?;
    Ok(!word.as_bytes().contains(&b' '))
}

/// Joins the words of a command line by spaces, and reads them as an operation. `None` if they are none, or a word has
/// a space in it. Fails if it is out of memory.
pub fn operation_of<'a>(alloc: Global, words: &'a [&'a str]) -> Result<Option<Op>, AllocError> {
    let mut text = Vec::new(alloc);
    for (at, word) in words.iter().enumerate() {
        if !add_word(&mut text, at == 0, word)? {
            return Ok(None);
        }
    }
    Ok(read_operation(&text))
}
