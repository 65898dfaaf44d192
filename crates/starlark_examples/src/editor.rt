//! An editor: a file that stays lexed at each keystroke, the part of it on the screen, and its faults.

use starlark_document::{Change, Document, EditError};
use starlark_syntax::lexer::Token;
use std::alloc::{AllocError, Global};
use std::fmt;

/// How a span is shown.
#[derive(Clone, Copy, PartialEq)]
pub enum Style {
    /// A name.
    Name,
    /// A string, bytes, or a part of an f-string.
    Text,
    /// A number.
    Number,
    /// A comment.
    Comment,
    /// A keyword, an operator or a bracket.
    Plain,
}

/// A span of the file, in bytes, and how it is shown.
#[derive(Clone, Copy)]
pub struct StyledSpan {
    /// Offset of its first byte.
    pub begin: usize,
    /// Offset after its last byte.
    pub end: usize,
    /// How it is shown.
    pub style: Style,
}

/// Prints a span as one letter for its style, and its offsets.
impl fmt::Display for StyledSpan {
    fn fmt<W: fmt::Write>(&self, f: &mut fmt::Formatter<W>) -> fmt::Result {
        let letter = match self.style {
            Style::Name => 'n',
            Style::Text => 't',
            Style::Number => '1',
            Style::Comment => '#',
            Style::Plain => '.',
        };
        write!(f, "{letter}{}-{}", self.begin, self.end)
    }
}

/// How a token is shown.
fn style_of(token: &Token) -> Style {
    match token {
        Token::Identifier(_) => Style::Name,
        Token::String(_) | Token::Bytes(_) | Token::FStringText(_) => Style::Text,
        Token::Int(_) | Token::Float(_) => Style::Number,
        Token::Comment(_) => Style::Comment,
        _ => Style::Plain,
    }
}

/// Types a text at an offset of the file. Returns what is to be painted again.
pub fn typed(document: &mut Document, at: usize, text: &str) -> Result<Change, EditError> {
    document.edit(at, at, text)
}

/// The spans between two offsets, for the lines on the screen. Spans without bytes are left out.
pub fn painted(
    alloc: Global,
    document: &Document,
    from: usize,
    to: usize,
) -> Result<Vec<StyledSpan>, AllocError> {
    let mut spans = Vec::new(alloc);
    for (begin, token, end) in document.lexemes_from(from) {
        if begin >= to {
            break;
        }
        let style = style_of(token);
        if begin < end {
            spans.push(StyledSpan { begin, end, style })?;
        }
    }
    Ok(spans)
}
