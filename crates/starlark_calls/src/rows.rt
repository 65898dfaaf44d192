//! Rows of a call and what it is given.

ghost use Rattle.std.specs.Prelude.{◌≡◌, IfOk, Ok};

use starlark_syntax::codemap::Span;
use std::alloc::{AllocError, Global};
use std::fmt::{Debug, Display};

/// What is printed of an answer.
pub type Answer = Result<String, AllocError>;

/// The fields of a row.
#[derive(Drop)]
pub struct Row {
    fields: Vec<String>,
}

/// What a character stands for, after a backslash or without one.
fn meant(is_escaped: bool, character: char) -> char {
    if !is_escaped {
        return character;
    }
    match character {
        'n' => '\n',
        'r' => '\r',
        't' => '\t',
        _ => character,
    }
}

/// A field as it is meant: `\n`, `\r`, `\t` and `\\` stand for these characters.
fn unescaped(alloc: Global, field: &str) -> Result<String, AllocError> {
    let mut text = String::new(alloc);
    let mut is_escaped = false;
    for character in field.chars() {
        if character == '\\' && !is_escaped {
            is_escaped = true;
        } else {
            text.push(meant(is_escaped, character))?;
            is_escaped = false;
        }
    }
    Ok(text)
}

impl Row {
    /// The row that a line has.
    pub fn new(alloc: Global, line: &str) -> Result<Row, AllocError> {
        let mut fields = Vec::new(alloc);
        for field in line.split('\t') {
            fields.push(unescaped(alloc, field)?)?;
        }
        Ok(Row { fields })
    }

    /// A field, or the empty text where there is none.
    pub fn text(&self, index: usize) -> &str {
        match self.fields.get(index) {
            Some(field) => field.as_str(),
            None => "",
        }
    }

    /// The fields from one on.
    pub fn texts_from(&self, index: usize) -> &[String] {
        self.fields.get(index..).unwrap_or(&[])
    }

    /// A field that is a number with a sign, if there is one.
    pub fn number(&self, index: usize) -> Option<i32> {
        self.text(index).parse().ok()
    }

    /// A field that is a count or a place; 0 where there is none.
    pub fn count(&self, index: usize) -> u32 {
        self.text(index).parse().unwrap_or(0)
    }

    /// A field that is a byte; 0 where there is none.
    pub fn byte(&self, index: usize) -> u8 {
        self.text(index).parse().unwrap_or(0)
    }
}

/// The result of a call that only an allocation failure can refuse: no row has a text that is too long.
pub fn given<T, E: Drop>(answer: Result<T, E>) -> Result<T, AllocError>
    ensures { IfOk result (λ value. answer ≡ Ok value) }
{
    answer.map_err(|_| AllocError)
}

/// A value as `{:?}` shows it.
pub fn shown<T: Debug>(alloc: Global, value: &T) -> Answer {
    format!(in alloc; "{value:?}")
}

/// Two values as they print.
pub fn both<A: Display, B: Display>(alloc: Global, first: &A, second: &B) -> Answer {
    format!(in alloc; "{first} {second}")
}

/// What is said where a row asks for a call that its group doesn't have.
pub fn unknown(alloc: Global, row: &Row) -> Answer {
    format!(in alloc; "no call {}", row.text(1))
}

/// The offsets at which a span begins and ends.
pub fn bounds(span: Span) -> (u32, u32) {
    (span.begin().get(), span.end().get())
}
