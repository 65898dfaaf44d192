//! Format strings.

use crate::rows::{Answer, Row};
use starlark_syntax::dot_format_parser::FormatParser;
use std::alloc::{AllocError, Global};
use std::fmt::{Debug, Write};

/// Adds a token as `{:?}` shows it.
fn add<T: Debug>(list: &mut String, token: &T) -> Result<(), AllocError> {
    write!(list, "{token:?}; ")
}

/// The tokens of a format string.
fn tokens(alloc: Global, parser: &mut FormatParser<'_>) -> Answer {
    let mut list = String::new(alloc);
    for _ in 0..u64::MAX {
        let Ok(Some(token)) = parser.next() else {
            break;
        };
        add(&mut list, &token)?;
    }
    Ok(list)
}

/// The end of a format string, or its fault.
fn end(alloc: Global, parser: &mut FormatParser<'_>) -> Answer {
    match parser.next() {
        Err(error) => format!(in alloc; "{:?} {error}; ", error.kind),
        Ok(token) => format!(in alloc; "{token:?}; "),
    }
}

/// The tokens of a format string, and then three times its end or its fault.
pub fn answer(alloc: Global, row: &Row) -> Answer {
    let mut parser = FormatParser::new(row.text(1));
    let mut list = tokens(alloc, &mut parser)?;
    for _ in 0..3 {
        list.push_str(end(alloc, &mut parser)?.as_str())?;
    }
    Ok(list)
}
