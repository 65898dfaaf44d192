//! The lines of lexemes and faults, as `starlark_lex` prints them.

use starlark_syntax::codemap::{CodeMap, CodeMapId, Pos, Span};
use starlark_syntax::eval_exception::EvalException;
use starlark_syntax::lexer::Token;
use std::alloc::{AllocError, Global};
use std::fmt::Write;

/// The code map of a source, with the file name `<stdin>`. All stored texts are short enough.
pub fn file_of(alloc: Global, source: &str) -> Result<CodeMap, AllocError> {
    let name = String::from_str(alloc, "<stdin>")?;
    let source = String::from_str(alloc, source)?;
    CodeMap::new(alloc, CodeMapId::new(1), name, source).map_err(|_| AllocError)
}

/// Appends a space and the bytes of a literal's value, as hexadecimal digits.
fn add_bytes(lines: &mut String, value: &[u8]) -> Result<(), AllocError> {
    lines.push(' ')?;
    for byte in value {
        write!(lines, "{byte:02x}")?;
    }
    Ok(())
}

/// Appends a space and the value of a token, if it has one.
pub fn add_value(lines: &mut String, token: &Token) -> Result<(), AllocError> {
    match token {
        Token::String(text) | Token::FStringText(text) => add_bytes(lines, text.as_bytes()),
        Token::Bytes(bytes) => add_bytes(lines, bytes.as_slice()),
        Token::FStringStart(quote) => write!(lines, " {quote:?}"),
        Token::Int(number) => write!(lines, " {number}"),
        Token::Comment(text) | Token::Identifier(text) | Token::Float(text) => {
            write!(lines, " {text}")
        }
        _ => Ok(()),
    }
}

/// The span between two offsets; `None` if they are out of order or don't fit in 32 bits.
fn span_of(begin: usize, end: usize) -> Option<Span> {
    if begin > end || end > u32::MAX as usize {
        return None;
    }
    Some(Span::new(Pos::new(begin as u32), Pos::new(end as u32)))
}

/// Appends the lines and columns of a span, or a word where its file doesn't hold it.
fn add_place(lines: &mut String, file: &CodeMap, span: Span) -> Result<(), AllocError> {
    if !file.holds(span) {
        return lines.push_str("outside");
    }
    write!(lines, "{}", file.resolve_span(span))
}

/// Appends the line of a lexeme of a file.
pub fn add_lexeme(
    lines: &mut String,
    file: &CodeMap,
    begin: usize,
    token: &Token,
    end: usize,
) -> Result<(), AllocError> {
    write!(lines, "{begin}-{end} ")?;
    if let Some(span) = span_of(begin, end) {
        add_place(lines, file, span)?;
    }
    write!(lines, " {}", token.kind())?;
    add_value(lines, token)?;
    lines.push('\n')
}

/// Appends the line of a fault.
pub fn add_fault(lines: &mut String, fault: &EvalException) -> Result<(), AllocError> {
    let Some(place) = fault.error().span() else {
        return lines.push_str("fault without a place\n");
    };
    let (begin, end) = (place.span.begin().get(), place.span.end().get());
    write!(lines, "fault {begin}-{end} {place} ")?;
    writeln!(lines, "{}", fault.error().kind())
}
