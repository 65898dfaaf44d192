//! Parts of a text between two indices, each of which may be negative or missing.

use crate::rows::{Answer, Row};
use starlark_syntax::fast_string::convert_str_indices;
use std::alloc::{AllocError, Global};
use std::fmt::Write;

/// Adds the part of a text between two indices, after the index that it begins with, or `-` where there is none.
fn add_part(
    list: &mut String,
    text: &str,
    start: Option<i32>,
    end: Option<i32>,
) -> Result<(), AllocError> {
    match convert_str_indices(text, start, end) {
        Some(part) => write!(list, "{}:{} ", part.start.0, part.haystack),
        None => list.push_str("- "),
    }
}

/// The parts of a text from one index to the end of the text, and to each index from -30 to 29.
pub fn answer(alloc: Global, row: &Row) -> Answer {
    let (text, start) = (row.text(1), row.number(2));
    let mut list = String::new(alloc);
    add_part(&mut list, text, start, None)?;
    for end in -30..30 {
        add_part(&mut list, text, start, Some(end))?;
    }
    Ok(list)
}
