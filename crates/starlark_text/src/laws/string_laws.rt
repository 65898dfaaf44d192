//! Plain walks over a text, one character at a time, and the law that the SIMD walks agree.

ghost use Rattle.std.specs.Prelude.{◌≡◌, ◌<◌, MatchOption, true, slice_get};
ghost use Rattle.std.specs.Option.{option_map};
ghost use Rattle.std.specs.Str.{chars, IsCharBoundary};
ghost use Rattle.starlark_text.specs.Parts.{cut_view};
ghost use Rattle.starlark_text.specs.Strings as spec;
ghost use Rattle.starlark_text.specs.Characters.{char_count};

use crate::fast_string::{CharIndex, at, len, split_at};

/// Number of characters of a text, counted one by one.
pub fn walked_len(text: &str) -> CharIndex
    ensures { result.0 ≡ char_count text.now }
{
    CharIndex(text.chars().count())
}

/// The character at an index, found one by one; `None` where the text has no such character.
pub fn walked_at(text: &str, index: CharIndex) -> Option<char>
    ensures { result ≡ slice_get (chars text.now) index.0 }
{
    text.chars().nth(index.0)
}

/// The text without its first `index` characters; `None` where it has fewer.
fn from_char(text: &str, index: usize) -> Option<&str>
    ensures { MatchOption result (char_count text.now < index) (λ rest. spec.IsFrom text.now index rest.now) }
{
    if index == 0 {
        return Some(text);
    }
    let mut rest = text.chars();
    rest.nth(index - 1)?;
    Some(rest.as_str())
}

/// The first `index` characters of a text, found one by one, and the rest; `None` if it has fewer.
pub fn walked_split_at(text: &str, index: CharIndex) -> Option<(&str, &str)>
    ensures { option_map cut_view result ≡ spec.cut text.now index.0 }
{
    let rest = from_char(text, index.0)?;
    Some(text.split_at(text.len() - rest.len()))
}

/// Whether the SIMD walks and the plain walks agree on the text from `start` on. They always do.
///
/// `start` counts bytes, and must be a character boundary.
pub fn walks_agree(text: &str, start: usize, index: CharIndex) -> bool
    requires { IsCharBoundary text.now start }
    ensures { result ≡ true }
{
    let text = &text[start..];
    len(text) == walked_len(text)
        && at(text, index) == walked_at(text, index)
        && split_at(text, index) == walked_split_at(text, index)
}
