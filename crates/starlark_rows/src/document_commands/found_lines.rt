//! The lines of lexemes and faults.

use crate::printed_items::add_value;
use starlark_document::{Faults, Lexemes};
use starlark_syntax::codemap::{CodeMap, CodeMapId, OrMemory};
use starlark_syntax::dialect::Dialect;
use starlark_syntax::error::ErrorKind;
use starlark_syntax::eval_exception::EvalException;
use starlark_syntax::lexer::{RecoveringLexer, Token};
use std::alloc::{AllocError, Global};
use std::fmt::Write;

/// Appends the line of a lexeme.
fn add_lexeme(
    lines: &mut String,
    begin: usize,
    token: &Token,
    end: usize,
) -> Result<(), AllocError> {
    write!(lines, "\n{begin}-{end} {}", token.kind())?;
    add_value(lines, token)
}

/// Appends the line of a fault.
fn add_fault(
    lines: &mut String,
    begin: usize,
    kind: &ErrorKind,
    end: usize,
) -> Result<(), AllocError> {
    write!(lines, "\nfault {begin}-{end} {kind}")
}

/// Appends the lines of lexemes.
pub fn add_lexemes(lines: &mut String, mut lexemes: Lexemes<'_>) -> Result<(), AllocError> {
    for _ in 0..u64::MAX {
        let Some((begin, token, end)) = lexemes.next() else {
            break;
        };
        add_lexeme(lines, begin, token, end)?;
    }
    Ok(())
}

/// Appends the lines of faults.
pub fn add_faults(lines: &mut String, mut faults: Faults<'_>) -> Result<(), AllocError> {
    for _ in 0..u64::MAX {
        let Some((begin, kind, end)) = faults.next() else {
            break;
        };
        add_fault(lines, begin, kind, end)?;
    }
    Ok(())
}

/// Appends the line of an exception of a lexer.
fn add_exception(lines: &mut String, exception: &EvalException) -> Result<(), AllocError> {
    let Some(place) = exception.error().span() else {
        return lines.push_str("\nfault without a place");
    };
    let (begin, end) = (place.span.begin().get(), place.span.end().get());
    let kind = exception.error().kind();
    add_fault(lines, begin as usize, kind, end as usize)
}

/// A lexer that goes on after faults. Its code map has no source.
fn lexer_of(alloc: Global, text: &str) -> Result<RecoveringLexer<'_>, AllocError> {
    let name = String::new(alloc);
    let file = CodeMap::new(alloc, CodeMapId::EMPTY, name, String::new(alloc));
    let file = file.map_err(|_| AllocError)?;
    RecoveringLexer::new(alloc, text, &Dialect::Standard, file).map_err(|_| AllocError)
}

/// Appends the line of the next item to those of lexemes or of faults. Returns whether there was one.
fn add_next(
    lines: &mut String,
    faults: &mut String,
    lexer: &mut RecoveringLexer<'_>,
) -> Result<bool, AllocError> {
    match lexer.next() {
        None => return Ok(false),
        Some(Ok((begin, token, end))) => add_lexeme(lines, begin, &token, end)?,
        Some(Err(OrMemory::Error(fault))) => add_exception(faults, &fault)?,
        Some(Err(OrMemory::Memory)) => return Err(AllocError),
    }
    Ok(true)
}

/// Appends the lines of all items of a lexer: first those of lexemes, and then those of faults.
fn add_all(
    lines: &mut String,
    faults: &mut String,
    lexer: &mut RecoveringLexer<'_>,
) -> Result<(), AllocError> {
    for _ in 0..u64::MAX {
        if !add_next(lines, faults, lexer)? {
            break;
        }
    }
    lines.push_str(faults.as_str())
}

/// Appends the lines of all lexemes of a text that is lexed on after its faults, and then of all
/// faults.
fn add_found(alloc: Global, lines: &mut String, text: &str) -> Result<(), AllocError> {
    let mut lexer = lexer_of(alloc, text)?;
    add_all(lines, &mut String::new(alloc), &mut lexer)
}

/// The lines of all lexemes of a text that is lexed on after its faults, and then of all faults.
pub fn found_in(alloc: Global, text: &str) -> Result<String, AllocError> {
    let mut lines = String::new(alloc);
    add_found(alloc, &mut lines, text)?;
    Ok(lines)
}
