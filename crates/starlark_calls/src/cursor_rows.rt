//! Cursors, indices and braces.

use crate::rows::{Answer, Row, shown, unknown};
use starlark_syntax::cursors::{CursorBytes, CursorChars};
use starlark_syntax::dot_format_parser::EscapeCurlyBrace;
use starlark_syntax::fast_string::CharIndex;
use std::alloc::Global;

/// The first byte of a text, then the others as characters, and the position after them.
fn bytes(alloc: Global, text: &str) -> Answer {
    let mut cursor = CursorBytes::new(text);
    let steps = (cursor.next(), cursor.next_char(), cursor.next_char());
    format!(in alloc; "{steps:?} {}", cursor.pos())
}

/// Three bytes of a text as characters, and the offset after them.
fn bytes_as_characters(alloc: Global, text: &str) -> Answer {
    let mut cursor = CursorBytes::new(text);
    let steps = (cursor.next_char(), cursor.next_char(), cursor.next_char());
    format!(in alloc; "{steps:?} {}", cursor.pos())
}

/// The character after an offset, and the positions before it, after it, and before it again.
fn characters(alloc: Global, text: &str, offset: usize) -> Answer {
    if !text.is_char_boundary(offset) {
        return String::from_str(alloc, "no boundary");
    }
    let mut cursor = CursorChars::new_offset(text, offset);
    let (ahead, begin) = (cursor.peek(), cursor.pos());
    let Some(character) = cursor.next() else {
        return format!(in alloc; "{ahead:?} {begin}");
    };
    let end = cursor.pos();
    cursor.unnext(character);
    format!(in alloc; "{ahead:?} {character:?} {begin} {end} {}", cursor.pos())
}

/// The answer to a call of a cursor, an index or a brace.
pub fn answer(alloc: Global, row: &Row) -> Answer {
    let (open, close) = (EscapeCurlyBrace::Open, EscapeCurlyBrace::Close);
    match row.text(1) {
        "bytes" => bytes(alloc, row.text(2)),
        "bytes_as_characters" => bytes_as_characters(alloc, row.text(2)),
        "characters" => characters(alloc, row.text(2), row.count(3) as usize),
        "sum" => shown(alloc, &(CharIndex(2) + CharIndex(3)).0),
        "difference" => shown(alloc, &(CharIndex(3) - CharIndex(2)).0),
        "as_str" => shown(alloc, &(open.as_str(), close.as_str())),
        "back_to_escape" => shown(alloc, &(open.back_to_escape(), close.back_to_escape())),
        _ => unknown(alloc, row),
    }
}
