//! Runs lists of commands on documents, and prints what they return.
//!
//! A command is a line, and for `new`, `edit` and `twice` a text of LEN bytes and an LF after it:
//!
//! - `new LEAST LEN`: a document of the text, whose segments have at least LEAST bytes;
//! - `edit FROM TO LEN`: replaces the bytes from FROM to TO by the text, and prints what changed, the
//!   bytes that were lexed and the reads, or the error;
//! - `twice FROM TO LEN`: does that two times by one call;
//! - `show`: prints all lexemes, and then all faults;
//! - `from AT`: prints the lexemes from the first one on that ends after byte AT;
//! - `lines`: prints the number of lines;
//! - `place AT`: prints the line, the column and the column in units of UTF-16 of byte AT;
//! - `offset LINE COLUMN`: prints the offset of a line and a column in units of UTF-16;
//! - `slice FROM TO`: prints the bytes from FROM to TO.
//!
//! After `new` and `edit` the document is compared with what lexing its whole text finds, and the text
//! that it writes with the one that it returns. Before what a command returns its number is printed.

mod commands;
mod found_lines;

use crate::document_commands::commands::{Command, read_command};
use crate::document_commands::found_lines::{add_faults, add_lexemes, found_in};
use crate::stored_parts::invalid_data;
use starlark_document::{Change, Document, Edit, Place};
use std::alloc::{AllocError, Global};
use std::fmt::Write as FmtWrite;
use std::io;
use std::io::Write;

/// The lines of all lexemes and faults of a document.
fn lines_of(alloc: Global, document: &Document) -> Result<String, AllocError> {
    let mut lines = String::new(alloc);
    add_lexemes(&mut lines, document.lexemes())?;
    add_faults(&mut lines, document.faults())?;
    Ok(lines)
}

/// Whether a document writes a text.
fn is_written(alloc: Global, document: &Document, text: &str) -> io::Result<bool> {
    let mut written = Vec::new(alloc);
    document.write_to(&mut written)?;
    Ok(written.as_slice() == text.as_bytes())
}

/// Whether lexing a text finds what a document has.
fn is_found(alloc: Global, document: &Document, text: &str) -> Result<bool, AllocError> {
    let found = found_in(alloc, text)?;
    Ok(found == lines_of(alloc, document)?)
}

/// The word that says whether a document writes its whole text, and has what lexing it finds.
fn compared(alloc: Global, document: &Document) -> io::Result<&'static str> {
    let Some(text) = document.slice(0, document.len())? else {
        return Ok("no text");
    };
    if !is_written(alloc, document, text.as_str())? {
        return Ok("another text");
    }
    let same = is_found(alloc, document, text.as_str())?;
    Ok(if same { "same" } else { "different" })
}

/// The numbers of a change.
fn shown_change(alloc: Global, change: &Change) -> Result<String, AllocError> {
    let mut numbers = String::new(alloc);
    write!(numbers, "{} {} ", change.begin, change.old_end)?;
    write!(numbers, "{} {} ", change.new_end, change.lexed)?;
    write!(numbers, "{}", change.reads)?;
    Ok(numbers)
}

/// What a call returned, and the word for the document after it.
fn with_comparison(alloc: Global, returned: &str, document: &Document) -> io::Result<String> {
    let word = compared(alloc, document)?;
    Ok(format!(in alloc; "{returned}, {word}")?)
}

/// Runs an edit, and returns the line that says what it returned.
fn edit_line(
    alloc: Global,
    document: &mut Document,
    from: usize,
    to: usize,
    text: &str,
) -> io::Result<String> {
    let edited = match document.edit(from, to, text) {
        Ok(change) => shown_change(alloc, &change)?,
        Err(error) => error.to_string(alloc)?,
    };
    with_comparison(alloc, edited.as_str(), document)
}

/// Makes an edit twice, and returns the line that says how many were made or which one was refused.
fn twice_line(alloc: Global, document: &mut Document, edit: Edit<'_>) -> io::Result<String> {
    let edited = match document.edit_all(&[edit, edit]) {
        Ok(count) => count.to_string(alloc)?,
        Err((index, error)) => format!(in alloc; "{index} {error}")?,
    };
    with_comparison(alloc, edited.as_str(), document)
}

/// Replaces the document by one of a text, and returns the word for it.
fn new_line(
    alloc: Global,
    document: &mut Document,
    least: usize,
    text: &str,
) -> io::Result<String> {
    *document = Document::with_segment_len(alloc, text, least).map_err(|_| AllocError)?;
    Ok(compared(alloc, document)?.to_string(alloc)?)
}

/// The lines of the lexemes from an offset on.
fn lines_from(alloc: Global, document: &Document, at: usize) -> Result<String, AllocError> {
    let mut lines = String::new(alloc);
    add_lexemes(&mut lines, document.lexemes_from(at))?;
    Ok(lines)
}

/// The numbers of a place, or `none`.
fn place_line(alloc: Global, place: Option<Place>) -> Result<String, AllocError> {
    let Some(place) = place else {
        return "none".to_string(alloc);
    };
    let mut line = String::new(alloc);
    write!(line, "{} {} ", place.line, place.column)?;
    write!(line, "{}", place.utf16_column)?;
    Ok(line)
}

/// An offset, or `none`.
fn offset_line(alloc: Global, offset: Option<usize>) -> Result<String, AllocError> {
    match offset {
        Some(at) => at.to_string(alloc),
        None => "none".to_string(alloc),
    }
}

/// A text, or `none`.
fn text_line(alloc: Global, text: Option<String>) -> Result<String, AllocError> {
    match text {
        Some(text) => Ok(text),
        None => "none".to_string(alloc),
    }
}

/// Runs a command, and returns its lines.
fn run(alloc: Global, document: &mut Document, command: Command<'_>) -> io::Result<String> {
    let lines = match command {
        Command::New(least, text) => return new_line(alloc, document, least, text),
        Command::Edit(from, to, text) => return edit_line(alloc, document, from, to, text),
        Command::Twice(from, to, text) => {
            return twice_line(alloc, document, Edit { from, to, text });
        }
        Command::Show => lines_of(alloc, document),
        Command::From(at) => lines_from(alloc, document, at),
        Command::Lines => document.line_count().to_string(alloc),
        Command::Place(at) => place_line(alloc, document.place(at)),
        Command::Offset(line, column) => {
            offset_line(alloc, document.offset_at_utf16(line, column))
        }
        Command::Slice(from, to) => text_line(alloc, document.slice(from, to)?),
    };
    Ok(lines?)
}

/// Runs all commands on a document, and prints what they return.
fn print_runs<W: Write>(
    alloc: Global,
    out: &mut W,
    document: &mut Document,
    stored: &[u8],
) -> io::Result<()> {
    let mut rest = stored;
    for number in 1..u64::MAX {
        if rest.is_empty() {
            break;
        }
        let (command, after) = read_command(rest).ok_or_else(invalid_data)?;
        let lines = run(alloc, document, command)?;
        writeln!(out, "{number} {lines}")?;
        rest = after;
    }
    Ok(())
}

/// Runs all commands, and prints what they return.
pub fn print_all<W: Write>(alloc: Global, out: &mut W, stored: &[u8]) -> io::Result<()> {
    let mut document = Document::new(alloc, "").map_err(|_| AllocError)?;
    print_runs(alloc, out, &mut document, stored)
}
