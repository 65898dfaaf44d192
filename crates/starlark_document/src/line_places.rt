//! Places of a text in segments: lines and columns.

ghost use Rattle.std.specs.Prelude.{◌≡◌, ◌<◌, ◌^◌, ◌↔◌, IfSome, IsNone, None, ℕ, count_by, length, true};
ghost use Rattle.std.specs.Str.{IsCharBoundary};
ghost use Rattle.starlark_base.specs.Places.{is_lf};
ghost use Rattle.starlark_document.specs.Inner.Segments.{AreLaid, HaveLines, text_of};
ghost use Rattle.starlark_document.specs.Utf16Places.{StandsAt, place_of};

use crate::segments::{Segment, segment_at};
use starlark_base::position::Position;

/// A place of a text: a line, and columns in it. All count from 0.
#[derive(Clone, Copy)]
pub struct Place {
    /// The line: how many LF are before it.
    pub line: usize,
    /// How many characters are before it on its line.
    pub column: usize,
    /// How many units of UTF-16 the characters before it on its line take.
    pub utf16_column: usize,
}

/// Number of LF in the texts of segments.
pub fn newlines_in(segments: &[Segment]) -> usize
    requires lines { HaveLines segments.now }
    requires fits { length (text_of segments.now) < 2 ^ 32 }
    ensures { result ≡ count_by is_lf (text_of segments.now) }
{
    let mut count = 0;
    for segment in segments {
        count += segment.lines;
    }
    count
}

/// The place of an offset of the text of segments; `None` where it is no character boundary.
pub fn place_in(segments: &[Segment], at: usize) -> Option<Place>
    requires laid { AreLaid true segments.now }
    requires fits { length (text_of segments.now) < 2 ^ 32 }
    ensures place { IfSome result (λ place. place ≡ place_of (text_of segments.now) at) }
    ensures none { IsNone result ↔ (IsCharBoundary (text_of segments.now) at → ⊥) }
{
    let first = segment_at(segments, at);
    let text = segments[first.index].content.text.as_str();
    let inner = at - first.begin;
    if !text.is_char_boundary(inner) {
        return None;
    }
    let position = Position::START.moved(text, inner);
    Some(Place {
        line: newlines_in(&segments[..first.index]) + position.place.line,
        column: position.place.column,
        utf16_column: position.place.column + position.pairs,
    })
}

/// The offset of a text that stands on a line at a column in units of UTF-16; `None` where none does.
fn offset_in(text: &str, line: usize, column: usize) -> Option<usize>
    requires { length text.now < 2 ^ 32 }
    ensures some { IfSome result (StandsAt text.now line column) }
    ensures none { result ≡ None → (at : ℕ) → StandsAt text.now line column at → ⊥ }
{
    let mut position = Position::START;
    for at in 0..text.len() + 1 {
        if text.is_char_boundary(at) {
            position = position.moved(text, at);
            let utf16_column = position.place.column + position.pairs;
            if position.place.line == line && utf16_column == column {
                return Some(at);
            }
        }
    }
    None
}

/// The offset of the text of segments that stands on a line at a column in units of UTF-16; `None`
/// where none does.
pub fn offset_in_segments(segments: &[Segment], line: usize, column: usize) -> Option<usize>
    requires laid { AreLaid true segments.now }
    requires fits { length (text_of segments.now) < 2 ^ 32 }
    ensures some { IfSome result (StandsAt (text_of segments.now) line column) }
    ensures none { result ≡ None → (at : ℕ) → StandsAt (text_of segments.now) line column at → ⊥ }
{
    let mut begin = 0;
    let mut lines = 0;
    for segment in segments {
        if lines <= line && line <= lines + segment.lines {
            let text = segment.content.text.as_str();
            if let Some(at) = offset_in(text, line - lines, column) {
                return Some(begin + at);
            }
        }
        begin += segment.len;
        lines += segment.lines;
    }
    None
}
