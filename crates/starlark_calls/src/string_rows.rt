//! Indices, and texts by their characters.

use crate::rows::{Answer, Row, shown, unknown};
use starlark_syntax::convert_indices::{convert_index, convert_indices};
use starlark_syntax::fast_string::{
    CharIndex, at, contains, convert_str_indices, count_matches, count_matches_byte, len, split_at,
};
use std::alloc::Global;

/// The answer to a call with a text.
fn of_text(alloc: Global, row: &Row) -> Answer {
    let text = row.text(2);
    let index = CharIndex(row.count(3) as usize);
    match row.text(1) {
        "len" => shown(alloc, &len(text).0),
        "at" => shown(alloc, &at(text, index)),
        "split_at" => shown(alloc, &split_at(text, index)),
        "count_matches" => shown(alloc, &count_matches(text, row.text(3))),
        "count_matches_byte" => shown(alloc, &count_matches_byte(text, row.byte(3))),
        "contains" => shown(alloc, &contains(text, row.text(3))),
        _ => unknown(alloc, row),
    }
}

/// The answer to a call with indices that may be negative or missing.
pub fn answer(alloc: Global, row: &Row) -> Answer {
    let len = row.number(2).unwrap_or(0).max(0);
    let (start, end) = (row.number(3), row.number(4));
    match row.text(1) {
        "convert_index" => shown(alloc, &convert_index(len, start.unwrap_or(0))),
        "convert_indices" => shown(alloc, &convert_indices(len, start, end)),
        "convert_str_indices" => {
            let part = convert_str_indices(row.text(2), start, end);
            shown(alloc, &part.map(|part| (part.start.0, part.haystack)))
        }
        _ => of_text(alloc, row),
    }
}
