//! Texts that are joined, compared and edited.

ghost use Rattle.std.specs.Prelude.{◌≡◌, ◌++◌, IfOk, string_bytes, take, true};
ghost use Rattle.std.specs.Str.{IsCharBoundary};

use std::alloc::{AllocError, Global};

/// One text after another.
pub fn both_texts(alloc: Global, first: &str, second: &str) -> Result<String, AllocError>
    ensures { IfOk result (λ text. string_bytes text ≡ first.now ++ second.now) }
{
    let mut text = String::from_str(alloc, first)?;
    text.push_str(second)?;
    Ok(text)
}

/// Whether two texts have the same bytes up to a place between characters of both.
pub fn agree(first: &str, second: &str, from: usize) -> bool
    ensures { result ≡ true → IsCharBoundary first.now from × IsCharBoundary second.now from × (take from first.now ≡ take from second.now) }
{
    first.is_char_boundary(from) && second.is_char_boundary(from) && first[..from] == second[..from]
}

/// What stands at a place of an edited text: the byte that was put there, or the character that stood there.
fn put(is_edited: bool, byte: u8, character: char) -> char {
    if is_edited {
        char::from(byte)
    } else {
        character
    }
}

/// A text in which another character stands at a place.
pub fn with_byte(alloc: Global, text: &str, at: usize, byte: u8) -> Result<String, AllocError> {
    let mut edited = String::new(alloc);
    for (place, character) in text.char_indices() {
        edited.push(put(place == at, byte, character))?;
    }
    Ok(edited)
}
