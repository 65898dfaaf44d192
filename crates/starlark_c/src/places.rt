//! The line and columns of an offset in a text.

ghost use Rattle.std.specs.Prelude.{◌≡◌, ◌<◌, ◌≤◌, ◌+◌, ◌^◌, ◌++◌, IfNone, IfSome, count_by, length};
ghost use Rattle.std.specs.List.{slice_range};
ghost use Rattle.std.specs.Str.{IsUtf8};
ghost use Rattle.starlark_base.specs.Places.{is_lf};
ghost use Rattle.starlark_base.specs.Positions.{starts_pair};
ghost use Rattle.starlark_c.specs.PlaceRecords.{AreCharacters, MovesPlace, TellsPlace, place_record};
ghost use Rattle.starlark_c.specs.Inner.OneLinePlaces.{place_on_line};
ghost use Rattle.starlark_grammar.specs.Words.{Text};

use starlark_base::position::{newline_count, pair_count};
use starlark_text::character_starts::count_characters;

/// The line and columns of an offset in a text. Each counts from 0.
// A type of its own, and not `Position`: the order and size of its numbers are part of the calls from C.
#[repr(C)]
#[derive(Clone, Copy)]
pub struct PlaceRecord {
    /// Number of LF before the offset.
    pub line: usize,
    /// Number of characters on the line before the offset.
    pub column: usize,
    /// Number of UTF-16 units on the line before the offset.
    pub utf16_column: usize,
}

impl PlaceRecord {
    /// The start of a line.
    const fn line_start(line: usize) -> PlaceRecord
        ensures { result ≡ record { line = line; column = 0; utf16_column = 0 } }
    {
        PlaceRecord {
            line,
            column: 0,
            utf16_column: 0,
        }
    }
}

/// The place after a text that begins at a place, and that is of one line.
fn place_after_line(begin: PlaceRecord, line: &str) -> PlaceRecord
    ensures { result ≡ place_on_line begin line.now }
{
    let column = count_characters(line);
    PlaceRecord {
        line: begin.line,
        column: begin.column.saturating_add(column),
        utf16_column: begin.utf16_column.saturating_add(column + pair_count(line)),
    }
}

/// The place after a text that begins at a place.
fn place_after(begin: PlaceRecord, passed: &str) -> PlaceRecord
    ensures { (front : Text) → IsUtf8 front → length front + length passed.now < 2 ^ 63 → begin ≡ place_record front → result ≡ place_record (front ++ passed.now) }
{
    match passed.rfind('\n') {
        None => place_after_line(begin, passed),
        Some(last) => {
            let line = begin.line.saturating_add(newline_count(passed));
            place_after_line(PlaceRecord::line_start(line), &passed[last + 1..])
        }
    }
}

/// The bytes from one offset to another, if a text has both in order, and they are characters.
fn characters_between(text: &[u8], from: usize, to: usize) -> Option<&str>
    ensures some { IfSome result (λ passed. (passed.now ≡ slice_range text.now from to) × AreCharacters text.now from to) }
    ensures none { IfNone result (¬ AreCharacters text.now from to) }
{
    if to < from || text.len() < to {
        return None;
    }
    str::from_utf8(&text[from..to]).ok()
}

/// Tells the line and columns of an offset, if the text has it and is UTF-8 up to there.
pub fn tell_place(text: &[u8], at: usize, place: &mut PlaceRecord) -> bool
    ensures { TellsPlace text.now at place.old place.new result }
{
    let mut told = PlaceRecord::line_start(0);
    let is_told = move_place(text, 0, at, &mut told);
    if is_told {
        *place = told;
    }
    is_told
}

/// Moves the place of an offset to a later one, if the bytes between are characters of the text.
pub fn move_place(text: &[u8], from: usize, to: usize, place: &mut PlaceRecord) -> bool
    ensures { MovesPlace text.now from to place.old place.new result }
{
    match characters_between(text, from, to) {
        Some(passed) => {
            *place = place_after(*place, passed);
            true
        }
        None => false,
    }
}
