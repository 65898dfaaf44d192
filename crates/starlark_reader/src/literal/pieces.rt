//! String and bytes literals as lexemes.

ghost use Rattle.std.specs.Prelude.{◌≡◌, ◌+◌, ◌*◌, ◌<◌, ◌≤◌, ◌^◌, ℕ, Some, false, length, not, IfOk};
ghost use Rattle.starlark_reader.specs.Inner.StepViews.{IsStep, fault_step, literal_step};
ghost use Rattle.starlark_reader.specs.Inner.Nesting.{mode_view};
ghost use Rattle.starlark_reader.specs.Inner.ReadBounds.{AreEscapeReads, AreWordReads, IsFaultAt, is_tab_error};
ghost use Rattle.starlark_words.specs.Inner.Reads.{AreReads, more_reads};
ghost use Rattle.starlark_token.specs.Lexemes.{fault_view};
ghost use Rattle.starlark_words.specs.Inner.LiteralViews.{literal_view};
ghost use Rattle.starlark_words.specs.Inner.PlainRuns.{IsRun};
ghost use Rattle.starlark_grammar.specs.Inner.Openings.{opening_view};
ghost use Rattle.starlark_grammar.specs.Pieces as grammar;
ghost use Rattle.starlark_token.specs.TokenViews.{fstring_quote_view};

use crate::nesting::LexerMode;
use starlark_grammar::class::Opening;
use starlark_token::fstring_style::FStringQuote;
use starlark_token::lexeme_error::LexemeError;
use starlark_token::tokens::Token;
use starlark_words::reads::ReadCounter;
use starlark_words::scanner::{LiteralKind, Quote};
use starlark_words::{Literal, LiteralValue, Stop, closing_len, read_body};
use std::alloc::{AllocError, Global};

/// Whether a text has no backslash and no CR, and no LF where the literal may not have one.
fn is_plain(opening: Opening, text: &[u8]) -> bool
    ensures { result ≡ grammar.is_plain (opening_view opening) text.now }
{
    text.iter().all(|byte| {
        !(*byte == b'\\' || *byte == b'\r' || (*byte == b'\n' && !opening.is_triple))
    })
}

/// The fault of a literal that goes on to the end of the text. `remainder` is the text after its
/// opening.
fn unfinished(
    reads: &mut ReadCounter,
    mode: LexerMode,
    literal: Literal,
    remainder: &str,
) -> LexemeError
    ensures fault { fault_view result ≡ Some (grammar.unfinished (mode_view mode) literal.kind (opening_view literal.opening) remainder.now) }
    ensures reads { AreReads 0 (length remainder.now) reads.old reads.new }
    ensures again { result ≡ LexemeError.UnfinishedFStringExpression → more_reads reads.old (length remainder.now) ≤ reads.new }
    ensures untabbed { is_tab_error result ≡ false }
{
    if !matches!(mode, LexerMode::Outside)
        && literal.kind == LiteralKind::Text
        && is_plain(
            literal.opening,
            reads.front(remainder.as_bytes(), remainder.len()),
        )
    {
        LexemeError::UnfinishedFStringExpression
    } else {
        LexemeError::UnfinishedStringLiteral
    }
}

/// The fault of a bad escape at byte `begin`. `read` is the text of the escape after its backslash.
fn escape_fault(
    alloc: Global,
    begin: usize,
    read: &str,
) -> Result<(usize, LexemeError, usize), AllocError>
    requires { begin + 1 + length read.now < 2 ^ 64 }
    ensures step { IfOk result (λ fault. IsStep (grammar.escape_fault begin read.now) (fault_step fault)) }
    ensures fault { IfOk result (IsFaultAt begin (begin + 1 + length read.now)) }
{
    if read.is_empty() {
        return Ok((begin, LexemeError::EmptyEscapeSequence, begin + 1));
    }
    let fault = LexemeError::InvalidEscapeSequence(String::from_str(alloc, read)?);
    Ok((begin, fault, begin + 1 + read.len()))
}

/// The token of a string or bytes literal and its length in bytes, or its fault between two
/// offsets. Its opening has `len` bytes, and `remainder` is the text after it, of which `run` bytes
/// are known.
// Inlined: as a call, its result is copied from memory (2 % of escapes).
#[inline(always)]
pub(crate) fn literal_piece(
    reads: &mut ReadCounter,
    alloc: Global,
    mode: LexerMode,
    literal: Literal,
    len: usize,
    run: usize,
    remainder: &str,
) -> Result<Result<(Token, usize), (usize, LexemeError, usize)>, AllocError>
    requires fits { len + length remainder.now < 2 ^ 64 }
    requires run { IsRun (literal_view literal) remainder.now run }
    ensures step { IfOk result (λ found. IsStep (grammar.literal (mode_view mode) literal.kind (opening_view literal.opening) len remainder.now) (literal_step found)) }
    ensures reads { IfOk result (λ found. (before : ℕ) → AreReads run (8 * run) before reads.old → AreWordReads len 9 0 0 6 (literal_step found) before reads.new) }
    ensures escape { IfOk result (λ found. (before : ℕ) → AreReads run (8 * run) before reads.old → AreEscapeReads len (literal_step found) before reads.new) }
{
    let body = read_body(reads, alloc, literal, run, remainder)?;
    match body.stop {
        Stop::Closing => {
            let len = len + body.len + closing_len(literal.opening);
            match body.value {
                LiteralValue::Text(text) => Ok(Ok((Token::String(text), len))),
                LiteralValue::Bytes(bytes) => Ok(Ok((Token::Bytes(bytes), len))),
            }
        }
        Stop::BadEscape { len: read, .. } => {
            let escape = &remainder[body.len + 1..body.len + read];
            Ok(Err(escape_fault(alloc, len + body.len, escape)?))
        }
        Stop::Line => Ok(Err((0, LexemeError::UnfinishedStringLiteral, len + body.len))),
        _ => {
            let fault = unfinished(reads, mode, literal, remainder);
            Ok(Err((0, fault, len + remainder.len())))
        }
    }
}

/// The quotes of an opening, as the token of an f-string's start has them.
pub(crate) fn quotes_of(opening: Opening) -> FStringQuote
    ensures { fstring_quote_view result ≡ record { is_raw = false; quote = opening.quote; is_triple = opening.is_triple } }
{
    match (opening.quote, opening.is_triple) {
        (Quote::Single, false) => FStringQuote::Single,
        (Quote::Single, true) => FStringQuote::TripleSingle,
        (Quote::Double, false) => FStringQuote::Double,
        (Quote::Double, true) => FStringQuote::TripleDouble,
    }
}

/// The opening of a literal, from its opener and the text after that.
pub(crate) fn opening_of(
    reads: &mut ReadCounter,
    is_raw: bool,
    quote: Quote,
    remainder: &str,
) -> Opening
    ensures reads { reads.new ≡ more_reads reads.old 2 }
    ensures opening { opening_view result ≡ grammar.opening_of is_raw quote remainder.now }
{
    let quotes = match quote {
        Quote::Single => "''",
        Quote::Double => "\"\"",
    };
    let is_triple = reads
        .front(remainder.as_bytes(), 2)
        .starts_with(quotes.as_bytes());
    Opening {
        is_raw,
        quote,
        is_triple,
    }
}
