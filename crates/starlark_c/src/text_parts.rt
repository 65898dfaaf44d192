//! Values that are parts of their text.

ghost use Rattle.std.specs.Prelude.{◌≡◌, ◌≤◌, if◌then◌else◌, Some, None, length};
ghost use Rattle.starlark_c.specs.Records.{stored_bytes};
ghost use Rattle.starlark_c.specs.TextParts.{home, part_before, part_in, quoted_part, value_part};
ghost use Rattle.starlark_lexemes.specs.PlainLexemes.{IsPlainIn, plain_view};
ghost use Rattle.starlark_token.specs.Lexemes.{lexeme_view};
ghost use Rattle.starlark_token.specs.TokenViews.{token_view};

use crate::records::bytes_of_plain;
use starlark_syntax::lexer::{Kind, Passed, Token};

/// Offset of some bytes in a text, if it has them right before an offset.
#[inline(never)]
fn part_before(text: &str, end: usize, bytes: &[u8]) -> Option<usize>
    requires { end ≤ length text.now }
    ensures { result ≡ part_before text.now end bytes.now }
{
    if text.as_bytes()[..end].ends_with(bytes) {
        Some(end - bytes.len())
    } else {
        None
    }
}

/// Offset of some bytes in a text, if it has them right before one or three quotes that end at an
/// offset.
fn quoted_part(text: &str, end: usize, bytes: &[u8]) -> Option<usize>
    requires { end ≤ length text.now }
    ensures { result ≡ quoted_part text.now end bytes.now }
{
    match part_before(text, end.saturating_sub(1), bytes) {
        Some(begin) => Some(begin),
        None => part_before(text, end.saturating_sub(3), bytes),
    }
}

/// Offset of a token's value in a text, in which the token ends at an offset, if it is a part of it.
#[tactic(auto, unfolding(starlark_token::specs::TokenViews::token_view, crate::specs::TextParts::value_part))]
fn value_part(text: &str, end: usize, token: &Token) -> Option<usize>
    requires { end ≤ length text.now }
    ensures { result ≡ value_part text.now end (token_view token.now) }
{
    match token {
        Token::Comment(value) => part_before(text, end, value.as_bytes()),
        Token::Identifier(name) => part_before(text, end, name.as_bytes()),
        Token::Float(value) => part_before(text, end, value.as_bytes()),
        Token::FStringText(value) => part_before(text, end, value.as_bytes()),
        Token::String(value) => quoted_part(text, end, value.as_bytes()),
        Token::Bytes(value) => quoted_part(text, end, value.as_slice()),
        _ => None,
    }
}

/// Offset of a lexeme's value in its text, if it stays there.
#[inline(always)]
pub fn part_of(text: &str, stays: bool, lexeme: &(usize, Token, usize)) -> Option<usize>
    requires { lexeme.now.2 ≤ length text.now }
    ensures { result ≡ part_in (home stays text.now) (lexeme_view lexeme.now) }
{
    if !stays {
        return None;
    }
    value_part(text, lexeme.2, &lexeme.1)
}

/// Where a value begins that may stay in its text.
#[inline(always)]
fn kept_at(stays: bool, begin: usize) -> Option<usize>
    ensures { result ≡ (if stays then Some begin else None) }
{
    if stays { Some(begin) } else { None }
}

/// Offset of a plain lexeme's value in its text, if it stays there. No byte is compared.
#[inline(always)]
pub fn part_of_plain(text: &str, stays: bool, plain: Passed) -> Option<usize>
    requires { IsPlainIn text.now plain }
    ensures { result ≡ part_in (home stays text.now) (plain_view text.now plain) }
{
    match plain.kind {
        Kind::Comment | Kind::Identifier | Kind::FStringText | Kind::String => {
            kept_at(stays, plain.value_begin)
        }
        _ => None,
    }
}

/// What is put among the values for a plain lexeme of a text: nothing if its value stays there.
// By `stays` alone: so a loop whose values stay asks for no kind here.
#[inline(always)]
pub fn stored_plain(text: &str, stays: bool, plain: Passed) -> &[u8]
    requires { IsPlainIn text.now plain }
    ensures { result.now ≡ stored_bytes (home stays text.now) (plain_view text.now plain) }
{
    if stays {
        return &[];
    }
    bytes_of_plain(text, plain)
}
