//! A position in a text, which counts lines, columns and units of UTF-16 as it moves on; numbers of
//! LF and of pairs in a text.

ghost use Rattle.std.specs.Prelude.{◌≡◌, ◌+◌, ◌<◌, ◌≤◌, ◌^◌, ◌++◌, ℕ, List, count_by, length};
ghost use Rattle.std.specs.Str.{IsCharBoundary, IsUtf8};
ghost use Rattle.starlark_base.specs.Places as spec;
ghost use Rattle.starlark_base.specs.Places.{is_lf};
ghost use Rattle.starlark_base.specs.Positions.{IsPosition, pairs_in_line, position_at, starts_pair};

use crate::codemap::ResolvedPos;
use starlark_text::character_starts::count_characters;

/// A position in a text: its byte, line and column, and the characters of two UTF-16 units.
#[derive(Clone, Copy)]
pub struct Position {
    /// The offset, in bytes.
    pub at: usize,
    /// The line and the column, both from 0. Columns count characters.
    pub place: ResolvedPos,
    /// How many of the characters before it on its line take two units of UTF-16.
    pub pairs: usize,
}

impl Position {
    /// The start of a text.
    pub const START: Position = Position {
        at: 0,
        place: ResolvedPos { line: 0, column: 0 },
        pairs: 0,
    };

    /// The position at byte `to`, which must not be before this one. Reads only the bytes between.
    pub fn moved(self, text: &str, to: usize) -> Position
        requires here { IsPosition text.now self }
        requires onward { self.at ≤ to }
        requires boundary { IsCharBoundary text.now to }
        ensures { result ≡ position_at text.now to }
    {
        let passed = &text[self.at..to];
        Position {
            at: to,
            place: place_after(self.place, passed),
            pairs: pairs_after(self.pairs, passed),
        }
    }

    /// The position at byte `to`, read from the first of two positions that isn't after it, or else
    /// from the start of the text.
    pub fn nearest(here: Position, earlier: Position, text: &str, to: usize) -> Position
        requires here { IsPosition text.now here }
        requires earlier { IsPosition text.now earlier }
        requires boundary { IsCharBoundary text.now to }
        ensures { result ≡ position_at text.now to }
    {
        if here.at <= to {
            here.moved(text, to)
        } else if earlier.at <= to {
            earlier.moved(text, to)
        } else {
            Position::START.moved(text, to)
        }
    }
}

/// The line and column after a text that begins at a line and column.
fn place_after(begin: ResolvedPos, passed: &str) -> ResolvedPos
    requires line { begin.line + length passed.now < 2 ^ 64 }
    requires column { begin.column + length passed.now < 2 ^ 64 }
    ensures { (front : List ℕ) → IsUtf8 front → spec.place_after front ≡ begin → spec.place_after (front ++ passed.now) ≡ result }
{
    match passed.rfind('\n') {
        None => ResolvedPos {
            line: begin.line,
            column: begin.column + count_characters(passed),
        },
        Some(last) => ResolvedPos {
            line: begin.line + newline_count(passed),
            column: count_characters(&passed[last + 1..]),
        },
    }
}

/// How many characters of two UTF-16 units are on the line before the end of a text that begins
/// after `begin` of them.
fn pairs_after(begin: usize, passed: &str) -> usize
    requires { begin + length passed.now < 2 ^ 64 }
    ensures { (front : List ℕ) → pairs_in_line front ≡ begin → pairs_in_line (front ++ passed.now) ≡ result }
{
    match passed.rfind('\n') {
        None => begin + pair_count(passed),
        Some(last) => pair_count(&passed[last + 1..]),
    }
}

/// Number of bytes whose LFs are counted in a `u8`, which lets the compiler take 16 at a time.
const COUNTED_AT_ONCE: usize = 128;

/// Number of LF among fewer than 256 bytes.
fn short_newline_count(bytes: &[u8]) -> u8
    requires { length bytes.now < 2 ^ 8 }
    ensures { result ≡ count_by is_lf bytes.now }
{
    let mut count = 0;
    for byte in bytes {
        if *byte == b'\n' {
            count += 1;
        }
    }
    count
}

/// Number of LF in a text.
pub fn newline_count(text: &str) -> usize
    ensures { result ≡ count_by is_lf text.now }
{
    let bytes = text.as_bytes();
    let mut count = 0;
    let mut at = 0;
    while at + COUNTED_AT_ONCE <= bytes.len() {
        count += short_newline_count(&bytes[at..at + COUNTED_AT_ONCE]) as usize;
        at += COUNTED_AT_ONCE;
    }
    count + short_newline_count(&bytes[at..]) as usize
}

/// Number of characters of a text that take two units of UTF-16.
pub fn pair_count(text: &str) -> usize
    ensures value { result ≡ count_by starts_pair text.now }
    ensures within { result ≤ length text.now }
{
    text.as_bytes().iter().filter(|byte| 240 <= **byte).count()
}
