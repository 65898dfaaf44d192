//! Integers, identifiers, and the lexemes of a text as they print.

use crate::row_files::code_map;
use crate::rows::{Answer, Row, both, given, shown, unknown};
use starlark_syntax::codemap::OrMemory;
use starlark_syntax::dialect::Dialect;
use starlark_syntax::lexer::{
    Lexer, Passed, RecoveringLexer, Step, Token, TokenInt, lex_exactly_one_identifier,
};
use std::alloc::{AllocError, Global};
use std::fmt::{Display, Write};

/// A large integer's sign, digits and base.
fn shown_large(alloc: Global, is_negative: bool, digits: &str, radix: u32) -> Answer {
    format!(in alloc; "BigInt {is_negative} {digits} {radix}")
}

/// An integer's value, or its sign, digits and base where it is a large one.
fn parts(alloc: Global, number: &TokenInt) -> Answer {
    match number {
        TokenInt::I32(value) => format!(in alloc; "I32 {value}"),
        TokenInt::BigInt(big) => shown_large(alloc, big.is_negative(), big.digits(), big.radix()),
    }
}

/// An integer's parts, and how it prints.
fn shown_integer(alloc: Global, number: &TokenInt) -> Answer {
    let parts = parts(alloc, number)?;
    both(alloc, &parts, number)
}

/// The integer that a text writes in a base, or why there is none.
fn integer(alloc: Global, text: &str, base: u32) -> Answer {
    if base < 2 || base > 36 {
        return String::from_str(alloc, "no such base");
    }
    match TokenInt::from_str_radix(alloc, text, base) {
        Ok(number) => shown_integer(alloc, &number),
        Err(OrMemory::Error(fault)) => fault.to_string(alloc),
        Err(OrMemory::Memory) => Err(AllocError),
    }
}

/// Adds a token as it prints, after its kind.
fn add_token<T: Display>(list: &mut String, kind: &str, token: &T) -> Result<(), AllocError> {
    write!(list, "{kind} {token}; ")
}

/// Adds the places of a token and a copy of it as it prints.
pub fn add_placed(
    alloc: Global,
    list: &mut String,
    begin: usize,
    token: &Token,
    end: usize,
) -> Result<(), AllocError> {
    write!(list, "{begin}-{end} ")?;
    let copy = token.clone(alloc)?;
    add_token(list, copy.kind(), &copy)
}

/// What is said of an allocation failure: after it a lexer has to yield nothing.
fn after_memory(lexer: &mut Lexer<'_>) -> &'static str {
    match lexer.next() {
        None => "out of memory",
        Some(_) => "more after out of memory",
    }
}

/// Adds the next lexeme, a fault as it prints, or an allocation failure. Returns whether the lexer may have more.
fn add_next(alloc: Global, list: &mut String, lexer: &mut Lexer<'_>) -> Result<bool, AllocError> {
    match lexer.next() {
        None => return Ok(false),
        Some(Ok((begin, token, end))) => add_placed(alloc, list, begin, &token, end)?,
        Some(Err(OrMemory::Error(exception))) => write!(list, "{exception}; ")?,
        Some(Err(OrMemory::Memory)) => {
            list.push_str(after_memory(lexer))?;
            return Ok(false);
        }
    }
    Ok(true)
}

/// A lexer of a text, over a code map of this name and source.
fn lexer<'a>(
    alloc: Global,
    text: &'a str,
    name: &str,
    source: &str,
) -> Result<Lexer<'a>, AllocError> {
    let map = code_map(alloc, name, source)?;
    given(Lexer::new(alloc, text, &Dialect::Standard, map))
}

/// Adds all items of a lexer, or those before an allocation failure.
fn add_all(alloc: Global, list: &mut String, lexer: &mut Lexer<'_>) -> Result<(), AllocError> {
    for _ in 0..u64::MAX {
        if !add_next(alloc, list, lexer)? {
            break;
        }
    }
    Ok(())
}

/// The lexemes of a text, or those before an allocation failure, over a code map of this name and source.
fn lexemes_in(alloc: Global, text: &str, name: &str, source: &str) -> Answer {
    let mut lexer = lexer(alloc, text, name, source)?;
    let mut list = String::new(alloc);
    add_all(alloc, &mut list, &mut lexer)?;
    Ok(list)
}

/// The lexemes of a text, or those before an allocation failure, over a code map named `f` that has this source.
pub fn lexemes(alloc: Global, text: &str, source: &str) -> Answer {
    lexemes_in(alloc, text, "f", source)
}

/// Adds the places of a plain lexeme of a text, and its value.
fn add_plain(list: &mut String, text: &str, plain: Passed) -> Result<(), AllocError> {
    let value = text
        .get(plain.value_begin..plain.value_end)
        .unwrap_or("no text");
    write!(list, "{}-{} [{value}]; ", plain.begin, plain.end)
}

/// Adds the plain lexemes of a lexer, and `other` for each item that isn't one.
fn add_all_plain(list: &mut String, lexer: &mut Lexer<'_>, text: &str) -> Result<(), AllocError> {
    for _ in 0..u64::MAX {
        match lexer.step() {
            Step::Plain(plain) => add_plain(list, text, plain)?,
            Step::Other(None) => break,
            Step::Other(Some(Err(OrMemory::Memory))) => return Err(AllocError),
            Step::Other(Some(_)) => list.push_str("other; ")?,
        }
    }
    Ok(())
}

/// The plain lexemes of a text, and `other` for each item that isn't one.
fn plain_lexemes(alloc: Global, text: &str) -> Answer {
    let mut lexer = lexer(alloc, text, "f", text)?;
    let mut list = String::new(alloc);
    add_all_plain(&mut list, &mut lexer, text)?;
    Ok(list)
}

/// Passes the next item, and returns whether there was one.
fn pass_item(lexer: &mut Lexer<'_>) -> Result<bool, AllocError> {
    match lexer.next() {
        None => Ok(false),
        Some(Err(OrMemory::Memory)) => Err(AllocError),
        Some(_) => Ok(true),
    }
}

/// Adds the offset where the text may be cut, before each item of a lexer and after the last one.
fn add_cuts(list: &mut String, lexer: &mut Lexer<'_>) -> Result<(), AllocError> {
    for _ in 0..u64::MAX {
        match lexer.cut() {
            Some(at) => write!(list, "{at}; ")?,
            None => list.push_str("-; ")?,
        }
        if !pass_item(lexer)? {
            break;
        }
    }
    Ok(())
}

/// Where a text may be cut before each of its items, and after the last one.
fn cuts(alloc: Global, text: &str) -> Answer {
    let mut lexer = lexer(alloc, text, "f", text)?;
    let mut list = String::new(alloc);
    add_cuts(&mut list, &mut lexer)?;
    Ok(list)
}

/// Passes all items of a lexer that goes on after faults.
fn pass_all(lexer: &mut RecoveringLexer<'_>) -> Result<(), AllocError> {
    for _ in 0..u64::MAX {
        match lexer.next() {
            None => break,
            Some(Err(OrMemory::Memory)) => return Err(AllocError),
            Some(_) => {}
        }
    }
    Ok(())
}

/// How many faults a text has, and how often bytes are read to find all of them.
fn recovered_counts(alloc: Global, text: &str) -> Answer {
    let map = code_map(alloc, "f", text)?;
    let mut lexer = given(RecoveringLexer::new(alloc, text, &Dialect::Standard, map))?;
    pass_all(&mut lexer)?;
    both(alloc, &lexer.fault_count(), &lexer.reads())
}

/// The answer to a call with a text.
pub fn answer(alloc: Global, row: &Row) -> Answer {
    let text = row.text(2);
    match row.text(1) {
        "from_str_radix" => integer(alloc, text, row.count(3)),
        "lex_exactly_one_identifier" => shown(alloc, &lex_exactly_one_identifier(alloc, text)?),
        "lexemes" => lexemes(alloc, text, text),
        "lexemes_of_other_source" => lexemes(alloc, text, row.text(3)),
        "cuts" => cuts(alloc, text),
        "plain_lexemes" => plain_lexemes(alloc, text),
        "recovered_counts" => recovered_counts(alloc, text),
        "lexemes_in_file" => lexemes_in(alloc, text, row.text(3), row.text(4)),
        _ => unknown(alloc, row),
    }
}
