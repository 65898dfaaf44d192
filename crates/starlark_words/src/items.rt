//! Items of a literal's body, and the reasons why a body stops.

ghost use Rattle.std.specs.Prelude.{◌≡◌, ◌<◌, ◌≤◌, ◌+◌, ◌-◌, ◌==◌, ◌&&◌, ◌∷◌, not, drop, false, get_or, length, nat_eq, take, true};
ghost use Rattle.std.specs.List.{starts_with};
ghost use Rattle.starlark_grammar.specs.Items as grammar;
ghost use Rattle.starlark_words.specs.Inner.LiteralViews.{IsText, found_len, found_view, least_reads, literal_view, single_literal};
ghost use Rattle.starlark_grammar.specs.Inner.Openings.{opening_view};
ghost use Rattle.starlark_words.specs.Inner.Reads.{AreReads, more_reads};
ghost use Rattle.starlark_grammar.specs.declared.class.LiteralKind.TheVariants.{FString as OfFString};

use super::escapes::escape;
use crate::reads::ReadCounter;
use starlark_grammar::class::{LiteralKind, Opening, Quote};

/// The kind and the opening of a literal, by which its body is read.
#[derive(Clone, Copy)]
pub struct Literal {
    /// Whether it is a string, a bytes literal or an f-string.
    pub kind: LiteralKind,
    /// Its quotes, and whether it is raw.
    pub opening: Opening,
}

/// A literal that one quote closes.
#[inline(always)]
pub(crate) fn single_quoted(kind: LiteralKind, is_raw: bool, quote: Quote) -> Literal
    ensures { literal_view result ≡ single_literal kind is_raw quote }
{
    let opening = Opening {
        is_raw,
        quote,
        is_triple: false,
    };
    Literal { kind, opening }
}

/// The decoded value of an item.
#[derive(Clone, Copy)]
pub(crate) enum Value<'a> {
    /// A part of the text, unchanged. It is empty where the item has no value, such as a CR.
    Part(&'a str),
    /// The character of an escape.
    Character(char),
    /// The byte of an escape in a bytes literal.
    Byte(u8),
}

/// Why a body stops.
#[derive(Clone, Copy)]
pub enum Stop {
    /// The closing quotes are there.
    Closing,
    /// An LF, in a literal that isn't triple-quoted.
    Line,
    /// The text ends.
    Ended,
    /// The `{` of an expression, in an f-string.
    OpeningBrace,
    /// A single `}`, in an f-string.
    ClosingBrace,
    /// A bad escape, of which `len` bytes were read. Its last character read has `last` bytes.
    BadEscape { len: usize, last: usize },
}

/// An item of `len` bytes whose value is a part of the text.
pub(crate) fn part(len: usize, value: &str) -> Result<(usize, Value<'_>), Stop>
    ensures value { found_view result ≡ grammar.goes len value.now }
    ensures text { IsText result }
    ensures len { found_len result ≡ len }
    ensures least { least_reads result ≡ len }
{
    Ok((len, Value::Part(value)))
}

/// Number of quotes that close a literal: 1 or 3.
pub fn closing_len(opening: Opening) -> usize
    ensures { result ≡ length (grammar.closing_quotes (opening_view opening)) }
{
    if opening.is_triple { 3 } else { 1 }
}

/// The byte of a quote.
pub(crate) fn quote_byte(quote: Quote) -> u8
    ensures { result ≡ grammar.quote_byte quote }
{
    match quote {
        Quote::Single => b'\'',
        Quote::Double => b'"',
    }
}

/// Whether a text begins with the quotes that close a literal.
#[inline(always)]
pub(crate) fn closes(opening: Opening, text: &[u8]) -> bool
    ensures { result ≡ starts_with nat_eq text.now (grammar.closing_quotes (opening_view opening)) }
{
    let quote = quote_byte(opening.quote);
    match text {
        [first, second, third, ..] if opening.is_triple => {
            *first == quote && *second == quote && *third == quote
        }
        [first, ..] => !opening.is_triple && *first == quote,
        [] => false,
    }
}

/// Whether a raw literal drops a backslash before the given byte.
pub(crate) fn drops_backslash(kind: LiteralKind, quote: Quote, byte: u8) -> bool
    ensures { result ≡ grammar.drops_backslash kind quote byte }
{
    match kind {
        LiteralKind::FString => byte == quote_byte(quote),
        _ => byte == b'\'' || byte == b'"',
    }
}

/// The text after its first byte, which must be ASCII.
pub(crate) fn after_first(text: &str) -> &str
    requires some { 0 < length text.now }
    requires ascii { get_or text.now 0 0 < 128 }
    ensures { result.now ≡ drop 1 text.now }
{
    &text[1..]
}

/// The item of a backslash in a raw literal, with the character after it; `Ended` if there is none.
fn raw_pair<'a>(
    reads: &mut ReadCounter,
    literal: Literal,
    text: &'a str,
) -> Result<(usize, Value<'a>), Stop>
    requires { text.now ≡ 92 ∷ drop 1 text.now }
    ensures value { found_view result ≡ grammar.raw_pair literal.kind literal.opening.quote (drop 1 text.now) }
    ensures text { IsText result }
    ensures reads { AreReads (found_len result) (found_len result + 1) reads.old reads.new }
{
    let remainder = after_first(text);
    let Some(first) = reads.at(remainder.as_bytes(), 0) else {
        return Err(Stop::Ended);
    };
    let character = reads.character_len(remainder);
    let len = 1 + character;
    if drops_backslash(literal.kind, literal.opening.quote, first) {
        part(len, &remainder[..character])
    } else {
        part(len, &text[..len])
    }
}

/// The item of a doubled brace in an f-string, or the stop at a single one.
fn brace<'a>(reads: &mut ReadCounter, first: u8, text: &'a str) -> Result<(usize, Value<'a>), Stop>
    requires brace { grammar.is_brace OfFString first ≡ true }
    requires begins { text.now ≡ first ∷ drop 1 text.now }
    ensures value { found_view result ≡ grammar.brace first (drop 1 text.now) }
    ensures text { IsText result }
    ensures reads { reads.new ≡ more_reads reads.old 1 }
    ensures len { found_len result ≤ 2 }
{
    match reads.at(after_first(text).as_bytes(), 0) {
        Some(second) if second == first => part(2, &text[..1]),
        _ if first == b'{' => Err(Stop::OpeningBrace),
        _ => Err(Stop::ClosingBrace),
    }
}

/// Whether a byte is a brace in an f-string.
pub(crate) fn is_brace(kind: LiteralKind, byte: u8) -> bool
    ensures { result ≡ grammar.is_brace kind byte }
{
    kind == LiteralKind::FString && (byte == b'{' || byte == b'}')
}

/// Whether a byte is an LF in a literal that can't have one.
pub(crate) fn ends_line(opening: Opening, byte: u8) -> bool
    ensures { result ≡ (byte == 10 && not opening.is_triple) }
{
    byte == b'\n' && !opening.is_triple
}

/// The item or stop at the start of the rest of a body. `front` is its first three bytes, read
/// already.
#[inline(always)]
pub(crate) fn found_at<'a>(
    reads: &mut ReadCounter,
    literal: Literal,
    front: &[u8],
    text: &'a str,
) -> Result<(usize, Value<'a>), Stop>
    requires { front.now ≡ take 3 text.now }
    ensures value { found_view result ≡ grammar.found_at (literal_view literal) text.now }
    ensures text { grammar.is_of_bytes literal.kind ≡ false → IsText result }
    ensures reads { AreReads (least_reads result - 3) (found_len result + 2) reads.old reads.new }
{
    let Some(first) = front.first() else {
        return Err(Stop::Ended);
    };
    let byte = *first;
    if byte == b'\\' {
        return if literal.opening.is_raw {
            raw_pair(reads, literal, text)
        } else {
            escape(reads, literal.kind, front, text)
        };
    }
    if closes(literal.opening, front) {
        return Err(Stop::Closing);
    }
    if ends_line(literal.opening, byte) {
        return Err(Stop::Line);
    }
    if byte == b'\r' {
        return part(1, "");
    }
    if is_brace(literal.kind, byte) {
        return brace(reads, byte, text);
    }
    let len = reads.character_len(text);
    part(len, &text[..len])
}
