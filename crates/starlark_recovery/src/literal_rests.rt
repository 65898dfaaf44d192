//! Literals with a bad escape: where they end, if from there on each backslash only takes the byte
//! after it.

ghost use Rattle.std.specs.Prelude.{ℕ, ◌≡◌, ◌≤◌, ◌+◌, ◌==◌, ◌&&◌, codes, false, length, not, true};
ghost use Rattle.std.specs.Str.{bytes_eq};
ghost use Rattle.starlark_grammar.specs.Inner.Openings.{opening_view};
ghost use Rattle.starlark_grammar.specs.Items.{closing_quotes, quote_byte};
ghost use Rattle.starlark_grammar.specs.KeptLines as spec;
ghost use Rattle.starlark_grammar.specs.Pieces.{opening_of};
ghost use Rattle.starlark_recovery.specs.Inner.Passed.{is_bad_escape_error, rest_view};

use starlark_grammar::class::{Opening, Quote};
use starlark_token::lexeme_error::LexemeError;

/// What is left of a literal from its bad escape on.
#[derive(Clone, Copy)]
pub struct LiteralRest {
    /// Its length in bytes, with the quotes that close it.
    pub len: usize,
    /// Whether quotes close it. Else a line end stops it, or the end of the text.
    pub is_closed: bool,
}

/// Number of bytes that the longest opening of a literal has: two letters and three quotes.
pub(crate) const OPENING_LEN: usize = 5;

/// Whether a text is a backslash.
fn is_backslash(text: &str) -> bool
    ensures { result ≡ bytes_eq text.now (codes "\\") }
{
    text == "\\"
}

/// Whether a fault is a bad escape in a literal of text or bytes.
pub(crate) fn is_bad_escape(fault: &LexemeError) -> bool
    ensures { result ≡ is_bad_escape_error fault.now }
{
    match fault {
        LexemeError::InvalidEscapeSequence(text) => !is_backslash(text),
        _ => false,
    }
}

/// The quotes that close a literal.
pub(crate) fn closing_quotes(opening: Opening) -> &'static [u8]
    ensures { result.now ≡ closing_quotes (opening_view opening) }
{
    match (opening.quote, opening.is_triple) {
        (Quote::Single, false) => b"'",
        (Quote::Single, true) => b"'''",
        (Quote::Double, false) => b"\"",
        (Quote::Double, true) => b"\"\"\"",
    }
}

/// The opening of a raw literal by its quote, whose byte is `byte`, and the bytes after that.
fn opening_by(quote: Quote, byte: u8, after: &[u8]) -> Opening
    requires { byte ≡ quote_byte quote }
    ensures { opening_view result ≡ opening_of true quote after.now }
{
    Opening {
        is_raw: true,
        quote,
        is_triple: matches!(after, [first, second, ..] if *first == byte && *second == byte),
    }
}

/// The opening of a literal, as that of a raw one. `front` is its first bytes.
fn raw_opening(front: &[u8]) -> Opening
    ensures { opening_view result ≡ spec.raw_opening front.now }
{
    let mut at = 0;
    while at < front.len() {
        match front[at] {
            b'\'' => return opening_by(Quote::Single, b'\'', &front[at + 1..]),
            b'"' => return opening_by(Quote::Double, b'"', &front[at + 1..]),
            _ => at += 1,
        }
    }
    opening_by(Quote::Double, b'"', &[])
}

/// Whether a byte is a line end that a literal may not have.
fn ends_line(opening: Opening, byte: u8) -> bool
    ensures { result ≡ (byte == 10 && not opening.is_triple) }
{
    byte == b'\n' && !opening.is_triple
}

/// What is left of a literal at the start of some bytes. The caller has to count the reads: at most
/// two for each byte of it, and one more.
fn rest_of(opening: Opening, bytes: &[u8]) -> LiteralRest
    ensures value { rest_view result ≡ spec.rest_from (opening_view opening) false bytes.now }
    ensures within { result.len ≤ length bytes.now }
{
    let quotes = closing_quotes(opening);
    let mut at = 0;
    let mut is_taken = false;
    while at < bytes.len() {
        if is_taken {
            is_taken = false;
            at += 1;
            continue;
        }
        if bytes[at..].starts_with(quotes) {
            return LiteralRest {
                len: at + quotes.len(),
                is_closed: true,
            };
        }
        if ends_line(opening, bytes[at]) {
            break;
        }
        is_taken = bytes[at] == b'\\';
        at += 1;
    }
    LiteralRest {
        len: at,
        is_closed: false,
    }
}

/// The opening of the literal that begins at byte `at` of a text, and has a bad escape at byte `begin`.
/// The caller has to count the reads: at most `OPENING_LEN`.
pub(crate) fn literal_opening(text: &str, at: usize, begin: usize) -> Opening
    requires order { at ≤ begin }
    requires within { begin ≤ length text.now }
    ensures { opening_view result ≡ spec.literal_opening at text.now begin }
{
    let front = &text.as_bytes()[at..begin];
    raw_opening(&front[..front.len().min(OPENING_LEN)])
}

/// What is left of a literal from its bad escape at byte `begin` of a text on, by its opening. The
/// caller has to count the reads: at most two for each byte that is left.
pub(crate) fn literal_rest(text: &str, opening: Opening, begin: usize) -> LiteralRest
    requires { begin ≤ length text.now }
    ensures value { (at : ℕ) → opening_view opening ≡ spec.literal_opening at text.now begin → rest_view result ≡ spec.literal_rest at text.now begin }
    ensures within { begin + result.len ≤ length text.now }
{
    rest_of(opening, &text.as_bytes()[begin..])
}
