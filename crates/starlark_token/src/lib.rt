//! Tokens, values of integer tokens, and errors of lexing.
#![tactic(auto)]

pub mod big_int;
pub mod fstring_style;
pub mod lexeme_error;
pub mod number_text;
pub mod token_int;
pub mod tokens;
