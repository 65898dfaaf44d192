//! Formats the lines of the output: one for each lexeme, and one for a fault.

ghost use Rattle.std.specs.Prelude.{◌≡◌, ◌++◌, OnOk, codes, string_bytes};
ghost use Rattle.starlark_base.specs.Places.{span_text};
ghost use Rattle.starlark_errors.specs.Errors.{kind_text};
ghost use Rattle.starlark_run.specs.Output.{fault_text, hex, lexeme_text, value_text};
ghost use Rattle.starlark_token.specs.TokenViews.{token_view};

use crate::printed_values::{push_hex, quotes_of};
use starlark_base::codemap::ResolvedSpan;
use starlark_base::position::Position;
use starlark_syntax::error::ErrorKind;
use starlark_token::tokens::Token;
use std::alloc::AllocError;

/// Appends a space and the bytes of a literal's value in hexadecimal digits.
fn push_literal(line: &mut String, bytes: &[u8]) -> Result<(), AllocError>
    ensures { OnOk result (string_bytes line.new ≡ string_bytes line.old ++ (codes " " ++ hex bytes.now)) }
{
    line.push(' ')?;
    push_hex(line, bytes)
}

/// Appends a space and the value of a token, if it has one.
#[tactic(auto, unfolding(crate::specs::Output::value_text, starlark_token::specs::TokenViews::token_view))]
fn push_value(line: &mut String, token: &Token) -> Result<(), AllocError>
    ensures { OnOk result (string_bytes line.new ≡ string_bytes line.old ++ value_text (token_view token.now)) }
{
    match token {
        Token::Comment(text) => write!(line, " {text}"),
        Token::Identifier(name) => write!(line, " {name}"),
        Token::Float(text) => write!(line, " {text}"),
        Token::Int(number) => write!(line, " {number}"),
        Token::FStringStart(quote) => write!(line, " {}", quotes_of(*quote)),
        Token::String(text) => push_literal(line, text.as_bytes()),
        Token::FStringText(text) => push_literal(line, text.as_bytes()),
        Token::Bytes(bytes) => push_literal(line, bytes.as_slice()),
        _ => Ok(()),
    }
}

/// Replaces `line` by the line of a token between two places, with its LF.
#[tactic(auto, unfolding(crate::specs::Output::lexeme_text))]
pub fn lexeme_line(
    line: &mut String,
    begin: Position,
    token: &Token,
    end: Position,
) -> Result<(), AllocError>
    ensures { OnOk result (string_bytes line.new ≡ lexeme_text begin.at end.at (span_text begin.place end.place) (token_view token.now)) }
{
    let place = ResolvedSpan {
        begin: begin.place,
        end: end.place,
    };
    let kind = token.kind();
    line.clear();
    write!(line, "{}-{} {place} {kind}", begin.at, end.at)?;
    push_value(line, token)?;
    line.push('\n')
}

/// Replaces `line` by the line of a fault between two places of the text `name`, with its LF.
#[tactic(auto, unfolding(crate::specs::Output::fault_text))]
pub fn fault_line(
    line: &mut String,
    name: &str,
    begin: Position,
    end: Position,
    kind: &ErrorKind,
) -> Result<(), AllocError>
    ensures { OnOk result (string_bytes line.new ≡ fault_text begin.at end.at name.now (span_text begin.place end.place) (kind_text kind.now)) }
{
    let place = ResolvedSpan {
        begin: begin.place,
        end: end.place,
    };
    line.clear();
    write!(line, "fault {}-{} {name}:", begin.at, end.at)?;
    writeln!(line, "{place} {kind}")
}
