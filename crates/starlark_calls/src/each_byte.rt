//! Texts of which each byte is edited.

use crate::joined_texts::{both_texts, with_byte};
use crate::lexed_text_rows::{Wanted, lex, relex, relex_joined};
use crate::rows::Answer;
use std::alloc::{AllocError, Global};

/// A text lexed again after an edit. It was lexed as one text, or joined of two.
fn lexed_again(alloc: Global, first: &str, second: &str, at: u32, edited: &str) -> Answer {
    if second.is_empty() {
        return relex(alloc, first, at, edited, Wanted::Lexemes);
    }
    relex_joined(alloc, first, second, at, edited, Wanted::Lexemes)
}

/// How many of the 128 characters of one byte, each in the place of a byte, give something else where the text is lexed
/// again after the edit than where the edited text is lexed.
fn count_others(alloc: Global, first: &str, second: &str, at: u32) -> Result<u32, AllocError> {
    let text = both_texts(alloc, first, second)?;
    let mut others = 0u32;
    for byte in 0..128 {
        let edited = with_byte(alloc, text.as_str(), at as usize, byte)?;
        let again = lexed_again(alloc, first, second, at, edited.as_str())?;
        if again != lex(alloc, edited.as_str())? {
            others = others.saturating_add(1);
        }
    }
    Ok(others)
}

/// How many edits of one byte there are of a text that may be joined of two, and how many of them are lexed otherwise.
pub fn each_byte(alloc: Global, first: &str, second: &str) -> Answer {
    let mut edits = 0u32;
    let mut others = 0u32;
    for (at, _) in both_texts(alloc, first, second)?.char_indices() {
        let at = u32::try_from(at).unwrap_or(u32::MAX);
        edits = edits.saturating_add(128);
        others = others.saturating_add(count_others(alloc, first, second, at)?);
    }
    format!(in alloc; "{edits} edits, {others} differ")
}
