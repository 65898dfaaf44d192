//! Lexes stored texts on after their faults, and prints all that is found.
//!
//! The texts are a list of records: the length of a text in bytes, an LF, the text, and an LF. For
//! each text a line `text NUMBER` is printed, from 1, and then a line for each lexeme and each
//! fault, in order.

use crate::printed_items::{add_fault, add_lexeme, file_of};
use crate::stored_parts::{first_line, first_text, invalid_data};
use starlark_syntax::codemap::{CodeMap, OrMemory};
use starlark_syntax::dialect::Dialect;
use starlark_syntax::lexer::RecoveringLexer;
use std::alloc::{AllocError, Global};
use std::io;
use std::io::Write;

/// The first text of the records, and the rest after it; `None` if no record begins there.
fn first_record(stored: &[u8]) -> Option<(&str, &[u8])> {
    let (line, after) = first_line(stored)?;
    first_text(after, line.parse().ok()?)
}

/// Appends the line of the next item. Returns whether there was one.
fn add_next(
    lines: &mut String,
    file: &CodeMap,
    lexer: &mut RecoveringLexer<'_>,
) -> Result<bool, AllocError> {
    match lexer.next() {
        None => return Ok(false),
        Some(Ok((begin, token, end))) => add_lexeme(lines, file, begin, &token, end)?,
        Some(Err(OrMemory::Error(fault))) => add_fault(lines, &fault)?,
        Some(Err(OrMemory::Memory)) => return Err(AllocError),
    }
    Ok(true)
}

/// Appends the lines of all items of a lexer.
///
/// After the last one it must yield `None` again; a line says where it doesn't.
fn add_all(
    lines: &mut String,
    file: &CodeMap,
    lexer: &mut RecoveringLexer<'_>,
) -> Result<(), AllocError> {
    for _ in 0..u64::MAX {
        if !add_next(lines, file, lexer)? {
            break;
        }
    }
    match lexer.next() {
        None => Ok(()),
        Some(_) => lines.push_str("more after the end\n"),
    }
}

/// A lexer of a text that goes on after faults, which it places in a code map.
fn lexer_in<'a>(
    alloc: Global,
    text: &'a str,
    file: &CodeMap,
) -> Result<RecoveringLexer<'a>, AllocError> {
    RecoveringLexer::new(alloc, text, &Dialect::Standard, file.dupe()?).map_err(|_| AllocError)
}

/// Appends the lines of all lexemes and all faults of a text.
fn add_found(
    alloc: Global,
    lines: &mut String,
    text: &str,
    file: &CodeMap,
) -> Result<(), AllocError> {
    let mut lexer = lexer_in(alloc, text, file)?;
    add_all(lines, file, &mut lexer)
}

/// The lines of all lexemes and all faults of a text.
fn lines_in(alloc: Global, text: &str, file: &CodeMap) -> Result<String, AllocError> {
    let mut lines = String::new(alloc);
    add_found(alloc, &mut lines, text, file)?;
    Ok(lines)
}

/// The lines of all lexemes and all faults of a text, with the places that its code map gives.
fn lines_of(alloc: Global, text: &str) -> Result<String, AllocError> {
    lines_in(alloc, text, &file_of(alloc, text)?)
}

/// Lexes the texts of all records, and prints all that is found in each.
pub fn print_all<W: Write>(alloc: Global, out: &mut W, stored: &[u8]) -> io::Result<()> {
    let mut rest = stored;
    for number in 1..u64::MAX {
        if rest.is_empty() {
            break;
        }
        let (text, after) = first_record(rest).ok_or_else(invalid_data)?;
        let lines = lines_of(alloc, text)?;
        write!(out, "text {number}\n{lines}")?;
        rest = after;
    }
    Ok(())
}
