//! A parser of format strings, as `str.format` takes them.
//!
//! A format string has text, captures `{name}`, `{name!s}` and `{name!r}`, and escapes `{{` and
//! `}}`.

ghost use Rattle.std.specs.Prelude.{◌≡◌, ◌+◌, ◌<◌, ◌≤◌, ◌^◌, ℕ, length};
ghost use Rattle.starlark_text.specs.Formats as spec;
ghost use Rattle.starlark_text.specs.Formats.{BeginsWith};
ghost use Rattle.starlark_text.specs.Parsing.{Answers};
ghost use Rattle.starlark_text.specs.Scanning as scan;
ghost use Rattle.starlark_text.specs.Scanning.{plain_width, name_width, ending_view, token_found, found_view};

use std::fmt;
use std::marker::Model;

/// The conversion of a capture: how its value becomes text.
#[derive(Clone, Copy, Debug, PartialEq)]
pub enum FormatConv {
    /// By `str`: no conversion, or `!s`.
    Str,
    /// By `repr`: `!r`.
    Repr,
}

/// An escaped brace, which stands for itself.
#[derive(Debug, PartialEq, Drop)]
pub enum EscapeCurlyBrace {
    /// `{`, written `{{`.
    Open,
    /// `}`, written `}}`.
    Close,
}

impl EscapeCurlyBrace {
    /// The brace that the escape stands for: `{` or `}`.
    pub fn as_str(&self) -> &'static str
        ensures { result.now ≡ spec.brace_text self.now }
    {
        match self {
            EscapeCurlyBrace::Open => "{",
            EscapeCurlyBrace::Close => "}",
        }
    }

    /// The escape as a format string has it: `{{` or `}}`.
    pub fn back_to_escape(&self) -> &'static str
        ensures { result.now ≡ spec.escape_text self.now }
    {
        match self {
            EscapeCurlyBrace::Open => "{{",
            EscapeCurlyBrace::Close => "}}",
        }
    }
}

/// A token of a format string.
#[derive(Debug, PartialEq, Drop)]
pub enum FormatToken<'a> {
    /// Text to copy unchanged: not empty, and without braces.
    Text(&'a str),
    /// A capture: a value to insert.
    Capture {
        /// The text between the opening brace and the conversion or closing brace. It may be empty.
        capture: &'a str,
        /// Offset in bytes of `capture` in the format string.
        pos: usize,
        /// How the value becomes text.
        ///
        /// `{name}` and `{name!s}` give the same.
        conv: FormatConv,
    },
    /// An escaped brace.
    Escape(EscapeCurlyBrace),
}

/// The kinds of errors in format strings.
#[derive(Clone, Copy, Debug, PartialEq)]
pub enum FormatErrorKind {
    /// A single `}` outside of a capture.
    StandaloneClose,
    /// A `{` that begins neither a capture nor an escape.
    UnmatchedOpen,
    /// No conversion after `!`, as in `{name!}`.
    MissingConversion,
    /// Another conversion than `s` or `r` after `!`, as in `{name!x}`.
    InvalidConversion,
}

/// An error in a format string.
#[derive(Debug, PartialEq, Drop)]
pub struct FormatError<'a> {
    /// What is wrong with the format string.
    pub kind: FormatErrorKind,
    /// The whole format string.
    pub original: &'a str,
}

/// Prints what is wrong and the whole format string.
///
/// An example is ``Standalone '}' in format string `a}` ``.
impl<'a> fmt::Display for FormatError<'a> {
    ghost use Rattle.std.specs.Prelude.{◌++◌, Some, codes};
    ghost use Rattle.starlark_text.specs.Formats.{fault_text};

    ghost output = { λ error. Some (fault_text error.kind ++ error.original.now ++ codes "`") };

    fn fmt<W: fmt::Write>(&self, f: &mut fmt::Formatter<W>) -> fmt::Result {
        write!(f, "{}{}`", self.kind.message(), self.original)
    }
}

impl FormatErrorKind {
    /// The printed text of an error of this kind, up to the format string.
    fn message(self) -> &'static str
        ensures { result.now ≡ spec.fault_text self }
    {
        match self {
            FormatErrorKind::StandaloneClose => "Standalone '}' in format string `",
            FormatErrorKind::UnmatchedOpen => "Unmatched '{' in format string `",
            FormatErrorKind::MissingConversion => "Missing conversion character in format string `",
            FormatErrorKind::InvalidConversion => "Invalid conversion in format string `",
        }
    }
}

/// A parser that yields the tokens of a format string one by one.
#[derive(Drop)]
pub struct FormatParser<'a> {
    text: &'a str,
    at: usize,
    fault: Option<FormatErrorKind>,
}

impl<'a> Model for FormatParser<'a> {
    ghost use Rattle.std.specs.Str.{IsCharBoundary};
    ghost use Rattle.starlark_text.specs.Parsing.{Parser};

    ghost Value = { Parser };

    ghost view = { λ parser. record { text = parser.text.now; at = parser.at; fault = parser.fault } };

    ghost invariant = { λ parser. IsCharBoundary parser.text.now parser.at };
}

impl<'a> FormatParser<'a> {
    ghost use Rattle.std.specs.Prelude.{None};

    /// A parser at the start of a format string.
    pub fn new(s: &'a str) -> FormatParser<'a>
        ensures { result ≡ record { text = s.now; at = 0; fault = None } }
    {
        FormatParser {
            text: s,
            at: 0,
            fault: None,
        }
    }

    /// Returns the next token; `None` at the end of the format string.
    ///
    /// Fails where no token begins. After an error each later call fails with the same error.
    pub fn next(&mut self) -> Result<Option<FormatToken<'a>>, FormatError<'a>>
        ensures { Answers self.old result self.new }
    {
        if let Some(kind) = self.fault {
            return Err(FormatError {
                kind,
                original: self.text,
            });
        }
        let rest = &self.text[self.at..];
        if rest.is_empty() {
            return Ok(None);
        }
        match token_at(rest, self.at) {
            Ok((token, len)) => {
                self.at += len;
                Ok(Some(token))
            }
            Err(kind) => {
                self.fault = Some(kind);
                Err(FormatError {
                    kind,
                    original: self.text,
                })
            }
        }
    }
}

/// Number of bytes before the first brace, or all of them.
fn plain_len(text: &[u8]) -> usize
    ensures value { result ≡ plain_width text.now }
    ensures within { result ≤ length text.now }
{
    text.iter()
        .take_while(|byte| **byte != b'{' && **byte != b'}')
        .count()
}

/// Number of bytes before the first brace or `!`, or all of them.
fn name_len(text: &[u8]) -> usize
    ensures value { result ≡ name_width text.now }
    ensures within { result ≤ length text.now }
{
    text.iter()
        .take_while(|byte| **byte != b'{' && **byte != b'}' && **byte != b'!')
        .count()
}

/// Whether the first two bytes of a text are equal.
fn is_doubled(text: &[u8]) -> bool
    ensures { result ≡ scan.is_doubled text.now }
{
    matches!(text, [first, second, ..] if first == second)
}

/// Parses the rest of a capture after its name: the conversion, and its length in bytes with the
/// brace.
fn ending(tail: &[u8]) -> Result<(FormatConv, usize), FormatErrorKind>
    ensures { result ≡ ending_view (scan.ending tail.now) }
{
    match tail {
        [b'}', ..] => Ok((FormatConv::Str, 1)),
        [b'!', b's', b'}', ..] => Ok((FormatConv::Str, 3)),
        [b'!', b'r', b'}', ..] => Ok((FormatConv::Repr, 3)),
        [b'!', b's' | b'r', ..] => Err(FormatErrorKind::UnmatchedOpen),
        [b'!', b'}', ..] => Err(FormatErrorKind::MissingConversion),
        [b'!', ..] => Err(FormatErrorKind::InvalidConversion),
        _ => Err(FormatErrorKind::UnmatchedOpen),
    }
}

/// The token that begins with `{` at byte `at` of the format string, and its length in bytes.
fn open_token(text: &str, at: usize) -> Result<(FormatToken<'_>, usize), FormatErrorKind>
    requires brace { BeginsWith spec.is_open text.now }
    requires fits { at + length text.now < 2 ^ 64 }
    ensures { found_view result ≡ token_found at (scan.open_piece text.now) }
{
    let bytes = text.as_bytes();
    if is_doubled(bytes) {
        return Ok((FormatToken::Escape(EscapeCurlyBrace::Open), 2));
    }
    let end = 1 + name_len(&bytes[1..]);
    let (conv, more) = ending(&bytes[end..])?;
    let capture = FormatToken::Capture {
        capture: &text[1..end],
        pos: at + 1,
        conv,
    };
    Ok((capture, end + more))
}

/// The token that begins with `}`, and its length in bytes.
fn close_token(text: &str) -> Result<(FormatToken<'_>, usize), FormatErrorKind>
    ensures { (at : ℕ) → found_view result ≡ token_found at (scan.close_piece text.now) }
{
    if is_doubled(text.as_bytes()) {
        Ok((FormatToken::Escape(EscapeCurlyBrace::Close), 2))
    } else {
        Err(FormatErrorKind::StandaloneClose)
    }
}

/// The first token of `text`, and its length in bytes.
///
/// `at` is the offset in bytes of `text` in the format string.
fn token_at(text: &str, at: usize) -> Result<(FormatToken<'_>, usize), FormatErrorKind>
    requires some { 0 < length text.now }
    requires fits { at + length text.now < 2 ^ 64 }
    ensures { found_view result ≡ token_found at (scan.piece_at text.now) }
{
    let first = text.as_bytes()[0];
    if first == b'{' {
        return open_token(text, at);
    }
    if first == b'}' {
        return close_token(text);
    }
    let len = plain_len(text.as_bytes());
    Ok((FormatToken::Text(&text[..len]), len))
}
