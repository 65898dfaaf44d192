//! Lexemes and faults as plain records of numbers, and the values that these point to.

ghost use Rattle.std.specs.Prelude.{◌≡◌, ◌<◌, ◌^◌, Option, IfSome, length};
ghost use Rattle.starlark_c.specs.Kinds.{token_number};
ghost use Rattle.starlark_c.specs.Records.{detail, fault_bytes, fault_number, integer, quotes_number, record_of, value_bytes};
ghost use Rattle.starlark_c.specs.TextParts.{record_with, stored};
ghost use Rattle.starlark_grammar.specs.Words.{Text};
ghost use Rattle.starlark_lexemes.specs.PlainLexemes.{IsPlainIn, plain_view, token_of};
ghost use Rattle.starlark_token.specs.Lexemes.{fault_view, lexeme_view};
ghost use Rattle.starlark_token.specs.TokenViews.{fstring_quote_view, token_view};

use crate::lexeme_kinds::number_of_kind;
use starlark_syntax::lexer::{FStringQuote, Kind, LexemeError, Passed, Token, TokenInt};

/// What a record has for `detail` where the text has its value.
const IN_TEXT: u16 = 0x8000;

/// A lexeme: its place in the text, its kind, and where its value is among the values or in the text.
#[repr(C)]
#[derive(Clone, Copy)]
pub struct LexemeRecord {
    /// Offset of its first byte in the text.
    pub begin: u32,
    /// Offset in the text after its last byte.
    pub end: u32,
    /// The number of its kind.
    pub kind: u16,
    /// For an integer that doesn't fit in 32 bits the base of its digits, for the opening of an
    /// f-string the number of its quotes, for a value in the text 32768, else 0.
    pub detail: u16,
    /// The value of an integer that fits in 32 bits, else 0.
    pub integer: i32,
    /// Offset of its value among the values, or in the text, in bytes.
    pub value_begin: usize,
    /// Length of its value in bytes. It is 0 for a kind without a value.
    pub value_len: usize,
}

/// A fault: its kind, its place in the text, and where the text that it names is among the values.
#[derive(Clone, Copy)]
pub struct FaultRecord {
    /// The number of its kind.
    pub kind: u32,
    /// Offset of its first byte in the text.
    pub begin: u32,
    /// Offset in the text after its last byte.
    pub end: u32,
    /// Offset of the text that it names among the values, in bytes.
    pub value_begin: usize,
    /// Length of the text that it names, in bytes.
    pub value_len: usize,
}

/// The bytes of a token's value. An integer has some only if it doesn't fit in 32 bits: its digits.
#[tactic(auto, unfolding(starlark_token::specs::TokenViews::token_view, crate::specs::Records::value_bytes))]
#[inline(always)]
pub fn bytes_of(token: &Token) -> &[u8]
    ensures { result.now ≡ value_bytes (token_view token.now) }
{
    match token {
        Token::Comment(text) => text.as_bytes(),
        Token::Identifier(name) => name.as_bytes(),
        Token::Int(TokenInt::BigInt(number)) => number.digits().as_bytes(),
        Token::Float(text) => text.as_bytes(),
        Token::String(text) => text.as_bytes(),
        Token::Bytes(bytes) => bytes.as_slice(),
        Token::FStringText(text) => text.as_bytes(),
        _ => &[],
    }
}

/// The bytes of a plain lexeme's value, which are in its text.
#[tactic(auto, unfolding(crate::specs::Records::value_bytes))]
#[inline(always)]
pub fn bytes_of_plain(text: &str, plain: Passed) -> &[u8]
    requires { IsPlainIn text.now plain }
    ensures { result.now ≡ value_bytes (plain_view text.now plain).node }
{
    match plain.kind {
        Kind::Comment | Kind::Identifier | Kind::String | Kind::FStringText =>
            &text.as_bytes()[plain.value_begin..plain.value_end],
        _ => &[],
    }
}

/// The value of an integer that fits in 32 bits, and 0 for all other tokens.
#[tactic(auto, unfolding(starlark_token::specs::TokenViews::token_view, crate::specs::Records::integer))]
#[inline(always)]
fn integer_of(token: &Token) -> i32
    ensures { result ≡ integer (token_view token.now) }
{
    match token {
        Token::Int(TokenInt::I32(value)) => *value,
        _ => 0,
    }
}

/// The number of an f-string's quotes.
fn number_of_quotes(quote: FStringQuote) -> u16
    ensures { result ≡ quotes_number (fstring_quote_view quote).quote (fstring_quote_view quote).is_triple }
{
    match quote {
        FStringQuote::Single => 1,
        FStringQuote::Double => 2,
        FStringQuote::TripleSingle => 3,
        FStringQuote::TripleDouble => 4,
    }
}

/// The base of an integer that doesn't fit in 32 bits, or the number of an f-string's quotes, else 0.
#[tactic(auto, unfolding(starlark_token::specs::TokenViews::token_view, crate::specs::Records::detail))]
#[inline(always)]
fn detail_of(token: &Token) -> u16
    ensures { result ≡ detail (token_view token.now) }
{
    match token {
        Token::Int(TokenInt::BigInt(number)) => number.radix() as u16,
        Token::FStringStart(quote) => number_of_quotes(*quote),
        _ => 0,
    }
}

/// The record of a token, with its begin and end, whose value begins at byte `at` of the values.
#[inline(always)]
pub fn token_record_at(at: usize, begin: usize, token: &Token, end: usize) -> LexemeRecord
    requires begin { begin < 2 ^ 32 }
    requires end { end < 2 ^ 32 }
    ensures { result ≡ record_of at (record { begin = begin; node = token_view token.now; end = end }) }
{
    LexemeRecord {
        begin: begin as u32,
        end: end as u32,
        kind: number_of_kind(token),
        detail: detail_of(token),
        integer: integer_of(token),
        value_begin: at,
        value_len: bytes_of(token).len(),
    }
}

/// What is put among the values for a value that may be a part of the text: nothing if it is.
#[inline(always)]
pub fn stored_bytes(part: Option<usize>, bytes: &[u8]) -> &[u8]
    ensures { result.now ≡ stored part bytes.now }
{
    match part {
        Some(_) => &[],
        None => bytes,
    }
}

/// A record whose value may be a part of the text, and then begins there at this offset.
#[inline(always)]
fn record_with(part: Option<usize>, told: LexemeRecord) -> LexemeRecord
    ensures { result ≡ record_with part told }
{
    match part {
        Some(begin) => LexemeRecord {
            begin: told.begin,
            end: told.end,
            kind: told.kind,
            detail: IN_TEXT,
            integer: told.integer,
            value_begin: begin,
            value_len: told.value_len,
        },
        None => told,
    }
}

/// The record of a lexeme whose value begins at byte `at` of the values, or is a part of the text.
#[inline(always)]
pub fn record_at(at: usize, part: Option<usize>, lexeme: &(usize, Token, usize)) -> LexemeRecord
    requires begin { lexeme.now.0 < 2 ^ 32 }
    requires end { lexeme.now.2 < 2 ^ 32 }
    ensures { result ≡ record_with part (record_of at (lexeme_view lexeme.now)) }
{
    let (begin, token, end) = lexeme;
    record_with(part, token_record_at(at, *begin, token, *end))
}

/// The record of a plain lexeme of a kind with a number, whose value of `len` bytes begins at byte
/// `at` of the values, or is a part of the text.
#[tactic(auto, unfolding(crate::specs::Kinds::kind_number, crate::specs::Records::integer, crate::specs::Records::detail))]
#[inline(always)]
pub fn plain_record_at(
    at: usize,
    part: Option<usize>,
    len: usize,
    number: u16,
    plain: Passed,
) -> LexemeRecord
    requires number { (value : Text) → number ≡ token_number (token_of plain.kind value) }
    requires begin { plain.begin < 2 ^ 32 }
    requires end { plain.end < 2 ^ 32 }
    ensures { (text : Text) → len ≡ length (value_bytes (plain_view text plain).node) → result ≡ record_with part (record_of at (plain_view text plain)) }
{
    let record = LexemeRecord {
        begin: plain.begin as u32,
        end: plain.end as u32,
        kind: number,
        detail: 0,
        integer: 0,
        value_begin: at,
        value_len: len,
    };
    record_with(part, record)
}

/// The number of a fault's kind, and 0 for an error that isn't a fault of a text.
#[tactic(auto, unfolding(crate::specs::Records::fault_number))]
pub fn number_of_fault(error: &LexemeError) -> u32
    ensures { IfSome (fault_view error.now) (λ fault. result ≡ fault_number fault) }
{
    match error {
        LexemeError::Indentation => 1,
        LexemeError::InvalidInput(_) => 2,
        LexemeError::InvalidTab => 3,
        LexemeError::UnfinishedStringLiteral => 4,
        LexemeError::InvalidEscapeSequence(_) => 5,
        LexemeError::EmptyEscapeSequence => 6,
        LexemeError::ReservedKeyword(_) => 7,
        LexemeError::StartsZero(_) => 8,
        LexemeError::UnfinishedFStringExpression => 9,
        LexemeError::IntParse(_) => 0,
        LexemeError::CommentSpanComputedIncorrectly => 0,
        LexemeError::CannotParse(..) => 0,
    }
}

/// The text that a fault names.
#[tactic(auto, unfolding(crate::specs::Records::fault_bytes))]
pub fn bytes_of_fault(error: &LexemeError) -> &[u8]
    ensures { IfSome (fault_view error.now) (λ fault. result.now ≡ fault_bytes fault) }
{
    match error {
        LexemeError::InvalidInput(text) => text.as_bytes(),
        LexemeError::InvalidEscapeSequence(text) => text.as_bytes(),
        LexemeError::ReservedKeyword(word) => word.as_bytes(),
        LexemeError::StartsZero(word) => word.as_bytes(),
        _ => &[],
    }
}
