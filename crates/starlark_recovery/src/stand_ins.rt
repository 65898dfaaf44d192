//! Lexemes that stand for faults, so that a parser can go on with them.

ghost use Rattle.std.specs.Prelude.{◌≡◌, ◌≤◌, ◌<◌, ◌+◌, ◌-◌, ◌^◌, ◌||◌, IfOk, codes, drop, if◌then◌else◌, length, nat_eq, not, take};
ghost use Rattle.std.specs.List.{ends_with, prefix_len, starts_with};
ghost use Rattle.std.specs.Option.{option_map};
ghost use Rattle.starlark_grammar.specs.Inner.Openings.{opening_view};
ghost use Rattle.starlark_grammar.specs.Items as items;
ghost use Rattle.starlark_grammar.specs.StandIns as spec;
ghost use Rattle.starlark_recovery.specs.Inner.Passed.{IsNumber, word_stand_in, word_token};
ghost use Rattle.starlark_token.specs.Lexemes.{lexeme_view};
ghost use Rattle.starlark_token.specs.TokenViews.{Whole, token_view};

use crate::literal_rests::closing_quotes;
use starlark_grammar::class::Opening;
use starlark_token::lexeme_error::LexemeError;
use starlark_token::number_text::number_of;
use starlark_token::tokens::Token;
use std::alloc::{AllocError, Global};

/// Number of bytes that `written_literal` looks at, at most: one, and six quotes.
pub(crate) const LITERAL_PEEKS: usize = 7;

/// Whether a literal is one of bytes.
fn is_of_bytes(literal: &str) -> bool
    ensures { result ≡ starts_with nat_eq literal.now (codes "b") }
{
    matches!(literal.as_bytes(), [b'b', ..])
}

/// A text without the quotes of an opening at its front, if it has them.
fn after_quotes<'t>(opening: Opening, text: &'t str) -> &'t str
    ensures { result.now ≡ (if starts_with nat_eq text.now (items.closing_quotes (opening_view opening)) then drop (length (items.closing_quotes (opening_view opening))) text.now else text.now) }
{
    let quotes = closing_quotes(opening);
    if !text.as_bytes().starts_with(quotes) {
        return text;
    }
    &text[quotes.len()..]
}

/// A text without the quotes that close a literal at its end, if it has them.
fn before_quotes<'t>(opening: Opening, text: &'t str) -> &'t str
    ensures { result.now ≡ (if ends_with nat_eq text.now (items.closing_quotes (opening_view opening)) then take (length text.now - length (items.closing_quotes (opening_view opening))) text.now else text.now) }
{
    let quotes = closing_quotes(opening);
    if !text.as_bytes().ends_with(quotes) {
        return text;
    }
    &text[..text.len() - quotes.len()]
}

/// The body of a literal, as it is written. No letter is before the literal's quotes.
fn written_body<'t>(opening: Opening, literal: &'t str) -> &'t str
    ensures { result.now ≡ spec.without_quotes (items.closing_quotes (opening_view opening)) literal.now }
{
    before_quotes(opening, after_quotes(opening, literal))
}

/// The token that stands for a literal of text or bytes, by its opening. `AllocError` where memory runs
/// out. The caller has to count the reads: at most `LITERAL_PEEKS`.
pub(crate) fn written_literal(
    alloc: Global,
    opening: Opening,
    literal: &str,
) -> Result<Token, AllocError>
    ensures { IfOk result (λ token. token_view token ≡ Whole (spec.written_literal (opening_view opening) literal.now)) }
{
    if is_of_bytes(literal) {
        let body = written_body(opening, &literal[1..]);
        return Ok(Token::Bytes(Vec::from_slice(alloc, body.as_bytes())?));
    }
    let body = written_body(opening, literal);
    Ok(Token::String(String::from_str(alloc, body)?))
}

/// Number of bytes that `written_quote` looks at, at most: two, and an opening of two letters and a
/// quote.
pub(crate) const QUOTE_PEEKS: usize = 5;

/// Whether an open quote is one of bytes.
fn is_of_raw_bytes(literal: &str) -> bool
    ensures { result ≡ (starts_with nat_eq literal.now (codes "b") || starts_with nat_eq literal.now (codes "rb")) }
{
    matches!(literal.as_bytes(), [b'b', ..] | [b'r', b'b', ..])
}

/// Number of bytes before the first quote of a literal.
fn letters_len(literal: &[u8]) -> usize
    ensures value { result ≡ prefix_len (λ b. not (spec.is_quote b)) literal.now }
    ensures within { result ≤ length literal.now }
{
    literal
        .iter()
        .take_while(|byte| !(**byte == b'\'' || **byte == b'"'))
        .count()
}

/// What is written after the first quote of a literal.
fn after_first_quote(literal: &str) -> &str
    ensures { result.now ≡ spec.after_first_quote literal.now }
{
    let len = letters_len(literal.as_bytes());
    if len == literal.len() {
        return "";
    }
    &literal[len + 1..]
}

/// The token that stands for an open quote. `AllocError` where memory runs out. The caller has to
/// count the reads: at most `QUOTE_PEEKS`.
pub(crate) fn written_quote(alloc: Global, literal: &str) -> Result<Token, AllocError>
    ensures { IfOk result (λ token. token_view token ≡ Whole (spec.written_quote literal.now)) }
{
    let body = after_first_quote(literal);
    if is_of_raw_bytes(literal) {
        return Ok(Token::Bytes(Vec::from_slice(alloc, body.as_bytes())?));
    }
    Ok(Token::String(String::from_str(alloc, body)?))
}

/// The token that stands for a word with a fault; `None` for any other fault. `AllocError` where memory
/// runs out.
fn word_token(alloc: Global, fault: &LexemeError) -> Result<Option<Token>, AllocError>
    requires { IsNumber fault.now }
    ensures { IfOk result (λ token. option_map token_view token ≡ option_map (λ token. Whole token) (word_token fault.now)) }
{
    match fault {
        LexemeError::ReservedKeyword(word) => {
            Ok(Some(Token::Identifier(String::from_str(alloc, word)?)))
        }
        LexemeError::StartsZero(digits) => Ok(Some(Token::Int(number_of(alloc, digits, 10)?))),
        _ => Ok(None),
    }
}

/// The lexeme that stands for a word with a fault, with its place in the text; `None` for any other
/// fault. The offsets of the fault count from byte `begin`. `AllocError` where memory runs out.
pub(crate) fn word_stand_in(
    alloc: Global,
    begin: usize,
    fault: &(usize, LexemeError, usize),
) -> Result<Option<(usize, Token, usize)>, AllocError>
    requires number { IsNumber fault.now.1 }
    requires order { fault.now.0 ≤ fault.now.2 }
    requires fits { begin + fault.now.2 < 2 ^ 64 }
    ensures { IfOk result (λ stand_in. option_map lexeme_view stand_in ≡ word_stand_in begin fault.now) }
{
    let Some(token) = word_token(alloc, &fault.1)? else {
        return Ok(None);
    };
    Ok(Some((begin + fault.0, token, begin + fault.2)))
}
