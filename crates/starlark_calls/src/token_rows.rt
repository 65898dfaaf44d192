//! Tokens that no text has, and faults that none has.

use crate::rows::{Answer, Row, both, unknown};
use starlark_syntax::lexer::{LexemeError, Token};
use std::alloc::Global;

/// A token that no text has, by its name.
fn token(name: &str) -> Option<Token> {
    Some(match name {
        "Tabs" => Token::Tabs,
        "RawSingleQuote" => Token::RawSingleQuote,
        "RawDoubleQuote" => Token::RawDoubleQuote,
        "RawFStringSingleQuote" => Token::RawFStringSingleQuote,
        "RawFStringDoubleQuote" => Token::RawFStringDoubleQuote,
        "RawByteSingleQuote" => Token::RawByteSingleQuote,
        "RawByteDoubleQuote" => Token::RawByteDoubleQuote,
        "Reserved" => Token::Reserved,
        "RawDecInt" => Token::RawDecInt,
        "RawHexInt" => Token::RawHexInt,
        "RawBinInt" => Token::RawBinInt,
        "RawOctInt" => Token::RawOctInt,
        _ => return None,
    })
}

/// What is printed of a fault that no text has.
fn fault(alloc: Global, row: &Row) -> Answer {
    let text = String::from_str(alloc, row.text(3))?;
    let fault = match row.text(2) {
        "IntParse" => LexemeError::IntParse(text),
        _ => LexemeError::CommentSpanComputedIncorrectly,
    };
    fault.to_string(alloc)
}

/// The answer to a call of tokens or faults.
pub fn answer(alloc: Global, row: &Row) -> Answer {
    match row.text(1) {
        "fault" => fault(alloc, row),
        name => match token(name) {
            Some(token) => both(alloc, &token.kind(), &token),
            None => unknown(alloc, row),
        },
    }
}
