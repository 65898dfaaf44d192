//! Kinds of errors, with their messages.

ghost use Rattle.std.specs.Prelude.{Some};
ghost use Rattle.starlark_errors.specs.Errors.{message_text, kind_text};

use starlark_token::lexeme_error::LexemeError;
use std::fmt;

/// The message of a lexer or parser.
#[derive(Debug, Drop)]
pub enum ParserMessage {
    /// An error of the lexer.
    Lexeme(LexemeError),
    /// Another message.
    Text(String),
}

/// A kind of error, with its message.
#[derive(Debug, Drop)]
pub enum ErrorKind {
    /// An error of the lexer or a parser.
    Parser(ParserMessage),
    /// Another error.
    Other(String),
    /// An internal error: a bug of the code that reports it.
    Internal(String),
}

/// Prints the message.
#[tactic(auto, unfolding(crate::specs::Errors::message_text))]
impl fmt::Display for ParserMessage {
    ghost output = { λ message. Some (message_text message) };

    fn fmt<W: fmt::Write>(&self, f: &mut fmt::Formatter<W>) -> fmt::Result {
        match self {
            ParserMessage::Lexeme(fault) => write!(f, "{fault}"),
            ParserMessage::Text(text) => write!(f, "{text}"),
        }
    }
}

/// Prints the message alone, whichever kind it is.
#[tactic(auto, unfolding(crate::specs::Errors::kind_text))]
impl fmt::Display for ErrorKind {
    ghost output = { λ kind. Some (kind_text kind) };

    fn fmt<W: fmt::Write>(&self, f: &mut fmt::Formatter<W>) -> fmt::Result {
        match self {
            ErrorKind::Parser(message) => write!(f, "{message}"),
            ErrorKind::Other(text) => write!(f, "{text}"),
            ErrorKind::Internal(text) => write!(f, "{text}"),
        }
    }
}
