//! An evaluator: format strings, as `str.format` takes them.

use starlark_syntax::dot_format_parser::{FormatConv, FormatError, FormatParser, FormatToken};
use std::alloc::{AllocError, Global};
use std::fmt;
use std::fmt::Write;

/// Why formatting failed.
#[derive(Drop)]
pub enum FormatFault<'a> {
    /// The format string has an error.
    Refused(FormatError<'a>),
    /// No value has the name of this capture.
    NoValue(&'a str),
    /// An allocation failed.
    Memory,
}

impl<'a> From<FormatError<'a>> for FormatFault<'a> {
    fn from(error: FormatError<'a>) -> FormatFault<'a> {
        FormatFault::Refused(error)
    }
}

impl<'a> From<AllocError> for FormatFault<'a> {
    fn from(_error: AllocError) -> FormatFault<'a> {
        FormatFault::Memory
    }
}

/// Prints the format string's error, the missing name, or `out of memory`.
impl fmt::Display for FormatFault<'_> {
    fn fmt<W: fmt::Write>(&self, f: &mut fmt::Formatter<W>) -> fmt::Result {
        match self {
            FormatFault::Refused(error) => write!(f, "{error}"),
            FormatFault::NoValue(name) => write!(f, "no value `{name}`"),
            FormatFault::Memory => write!(f, "out of memory"),
        }
    }
}

/// The value of a name, if there is one.
fn value_of<'v>(values: &[(&str, &'v str)], name: &str) -> Option<&'v str> {
    for (known, text) in values {
        if *known == name {
            return Some(*text);
        }
    }
    None
}

/// Appends the text of a token of a format string.
fn add<'a>(
    out: &mut String,
    part: FormatToken<'a>,
    values: &[(&str, &str)],
) -> Result<(), FormatFault<'a>> {
    match part {
        FormatToken::Text(text) => out.push_str(text)?,
        FormatToken::Escape(brace) => out.push_str(brace.as_str())?,
        FormatToken::Capture { capture, conv, .. } => {
            let Some(text) = value_of(values, capture) else {
                return Err(FormatFault::NoValue(capture));
            };
            match conv {
                FormatConv::Str => out.push_str(text)?,
                FormatConv::Repr => write!(out, "{text:?}")?,
            }
        }
    }
    Ok(())
}

/// Formats values by a format string.
pub fn formatted<'a>(
    alloc: Global,
    template: &'a str,
    values: &[(&str, &str)],
) -> Result<String, FormatFault<'a>> {
    let mut out = String::new(alloc);
    let mut parser = FormatParser::new(template);
    for _ in 0..u64::MAX {
        let Some(part) = parser.next()? else {
            break;
        };
        add(&mut out, part, values)?;
    }
    Ok(out)
}
