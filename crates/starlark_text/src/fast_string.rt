//! Strings by characters: an index counts characters, not bytes.
//!
//! Returned strings borrow from the argument. Each call takes at most linear time.

ghost use Rattle.std.specs.Prelude.{◌≡◌, ◌↔◌, ◌+◌, ◌-◌, ◌≤◌, ◌<◌, ◌^◌, ◌==◌, ℕ, List, IsTrue, IfSome, length, slice_get, count_by};
ghost use Rattle.std.specs.Option.{option_map};
ghost use Rattle.std.specs.Str.{chars, IsAscii, IsCharBoundary};
ghost use Rattle.starlark_text.specs.Parts.{cut_view, indices_view};
ghost use Rattle.starlark_text.specs.Strings as spec;
ghost use Rattle.starlark_text.specs.Strings.{Contains, match_count};
ghost use Rattle.starlark_text.specs.Characters.{char_count};

use crate::character_search::begin_of;
use crate::character_starts::count_characters;
use crate::convert_indices::{end_place, start_place};
use crate::cursors::char_from;
use memchr::{memchr_iter, memmem};
use std::ops::{Add, Sub};

/// An index into a text, in characters from 0.
///
/// `+` needs a sum below 2^64. `-` needs a right side that is no greater than the left one.
#[derive(Clone, Copy, Debug, PartialEq, Eq, PartialOrd, Ord)]
pub struct CharIndex(pub usize);

/// Adds the numbers of characters. The sum must be below 2^64.
impl Add for CharIndex {
    type Output = CharIndex;

    ghost can_add = { λ index more. index.0 + more.0 < 2 ^ 64 };

    ghost add_gives = { λ index more sum. sum.0 ≡ index.0 + more.0 };

    fn add(self, rhs: CharIndex) -> CharIndex {
        CharIndex(self.0 + rhs.0)
    }
}

/// Subtracts the numbers of characters. The right side must not be greater than the left one.
impl Sub for CharIndex {
    type Output = CharIndex;

    ghost can_sub = { λ index less. less.0 ≤ index.0 };

    ghost sub_gives = { λ index less difference. difference.0 ≡ index.0 - less.0 };

    fn sub(self, rhs: CharIndex) -> CharIndex {
        CharIndex(self.0 - rhs.0)
    }
}

/// A part of a text, with the index at which it begins.
#[derive(Debug, PartialEq, Drop)]
pub struct StrIndices<'a> {
    /// Index in the text of the part's first character.
    pub start: CharIndex,
    /// The part itself.
    pub haystack: &'a str,
}

/// The character at an index; `None` where the text has no more than `i` characters.
pub fn at(x: &str, i: CharIndex) -> Option<char>
    ensures { result ≡ slice_get (chars x.now) i.0 }
{
    let place = character_place(x, i.0)?;
    char_from(x, place)
}

/// Number of characters of a text. It equals the number of bytes exactly where all are ASCII.
pub fn len(x: &str) -> CharIndex
    ensures count { result.0 ≡ char_count x.now }
    ensures ascii { (result.0 ≡ length x.now) ↔ IsAscii x.now }
{
    CharIndex(count_characters(x))
}

/// Number of bytes of a text that equal `needle`.
pub fn count_matches_byte(x: &str, needle: u8) -> usize
    ensures { result ≡ count_by (λ byte. byte == needle) x.now }
{
    memchr_iter(needle, x.as_bytes()).count()
}

/// Number of matches of a needle in a text, from the left, without overlaps.
///
/// An empty needle matches before each character and at the end.
pub fn count_matches(x: &str, needle: &str) -> usize
    ensures { result ≡ match_count x.now needle.now }
{
    if needle.is_empty() {
        len(x).0 + 1
    } else {
        memmem::find_iter(x.as_bytes(), needle.as_bytes()).count()
    }
}

/// Byte offset at which character `i` begins; `None` where the text has fewer than `i` characters.
///
/// Where it has exactly `i` characters, the offset is the length of the text.
fn character_place(x: &str, i: usize) -> Option<usize>
    ensures value { result ≡ spec.character_place x.now i }
    ensures boundary { IfSome result (IsCharBoundary x.now) }
{
    begin_of(x.as_bytes(), i)
}

/// The first `i` characters of a text, and the rest; `None` where it has fewer than `i`.
pub fn split_at(x: &str, i: CharIndex) -> Option<(&str, &str)>
    ensures { option_map cut_view result ≡ spec.cut x.now i.0 }
{
    let place = character_place(x, i.0)?;
    Some(x.split_at(place))
}

/// Whether both indices are given, count from the same side, and the start is the greater.
fn are_reversed(start: Option<i32>, end: Option<i32>) -> bool
    ensures { result ≡ spec.are_reversed start end }
{
    match (start, end) {
        (Some(start), Some(end)) => (start < 0) == (end < 0) && end < start,
        _ => false,
    }
}

/// Whether the start counts from the front, is over `count`, and no end counts from the end.
fn begins_past(count: usize, start: Option<i32>, end: Option<i32>) -> bool
    ensures { result ≡ spec.begins_past count start end }
{
    match (start, end) {
        (Some(start), None) => 0 <= start && count < start as usize,
        (Some(start), Some(end)) => 0 <= start && 0 <= end && count < start as usize,
        _ => false,
    }
}

/// The part of a text that the start and end arguments of a string method mean.
///
/// Both count characters. A negative one counts from the end; one out of range is clamped. Returns
/// `None` in three cases:
///
/// - both count from the same side, and the start is the greater;
/// - the start counts from the front and is out of range, and no end counts from the end;
/// - the part would end before it begins.
pub fn convert_str_indices(s: &str, start: Option<i32>, end: Option<i32>) -> Option<StrIndices<'_>>
    ensures { option_map indices_view result ≡ spec.str_indices s.now start end }
{
    let count = len(s).0;
    if are_reversed(start, end) || begins_past(count, start, end) {
        return None;
    }
    let start = start_place(count, start);
    let end = end_place(count, end);
    if end < start {
        return None;
    }
    let (_, rest) = split_at(s, CharIndex(start))?;
    let (haystack, _) = split_at(rest, CharIndex(end - start))?;
    Some(StrIndices {
        start: CharIndex(start),
        haystack,
    })
}

/// Whether a text contains a needle. Every text contains the empty one.
pub fn contains(haystack: &str, needle: &str) -> bool
    ensures { IsTrue result ↔ Contains haystack.now needle.now }
{
    memmem::find(haystack.as_bytes(), needle.as_bytes()).is_some()
}
