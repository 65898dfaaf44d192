//! The lexer, one that goes on after faults, lexed texts, tokens, and errors of lexing.

pub use starlark_lexed_text::lexed_text::LexedText;
pub use starlark_lexemes::lexemes::{Lexeme, Lexer, Step};
pub use starlark_lexemes::passed::{Kind, Passed};
pub use starlark_lexemes::source_error::SourceError;
pub use starlark_recovery::recovering_lexer::RecoveringLexer;
pub use starlark_token::big_int::BigInt;
pub use starlark_token::fstring_style::{FStringConv, FStringQuote};
pub use starlark_token::lexeme_error::LexemeError;
pub use starlark_token::token_int::TokenInt;
pub use starlark_token::tokens::Token;
pub use starlark_words::one_identifier::lex_exactly_one_identifier;
pub use starlark_words::scanner::Terminal;
