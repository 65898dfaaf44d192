//! Values of tokens, for people and as JSON.

ghost use Rattle.std.specs.Prelude.{◌≡◌, ◌++◌, ◌∷◌, OnOk, codes, string_bytes};
ghost use Rattle.starlark_tokens.specs.OutputFormats.PythonLiterals.{quoted, quoted_bytes};
ghost use Rattle.starlark_tokens.specs.OutputFormats.Values as spec;
ghost use Rattle.starlark_run.specs.Output.{hex};
ghost use Rattle.starlark_token.specs.TokenInts.{integer_view};
ghost use Rattle.starlark_token.specs.TokenViews.{token_view};

use crate::output_formats::json_strings::push_json_string;
use crate::output_formats::python_literals::{push_ascii, push_quoted, push_quoted_bytes};
use starlark_run::printed_values::{push_hex, quotes_of};
use starlark_token::big_int::BigInt;
use starlark_token::token_int::TokenInt;
use starlark_token::tokens::Token;
use std::alloc::AllocError;

/// The least number that 53 bits don't hold.
const INEXACT: u64 = 9_007_199_254_740_992;

/// A value, if it fits in 53 bits.
fn if_exact(value: u64) -> Option<u64>
    ensures { result ≡ spec.if_exact value }
{
    if value < INEXACT { Some(value) } else { None }
}

/// The value of a number's digits, if it fits in 53 bits.
fn exact_value(number: &BigInt) -> Option<u64>
    ensures { result ≡ spec.exact_value number.now.radix number.now.digits }
{
    match u64::from_str_radix(number.digits(), number.radix()) {
        Ok(value) => if_exact(value),
        Err(_) => None,
    }
}

/// What is before the digits of a base.
fn base_prefix(base: u32) -> &'static str
    ensures { result.now ≡ spec.base_prefix base }
{
    match base {
        16 => "0x",
        8 => "0o",
        2 => "0b",
        _ => "",
    }
}

/// Appends what is before the digits of a base, and the digits.
fn push_digits(line: &mut String, number: &BigInt) -> Result<(), AllocError>
    ensures { OnOk result (string_bytes line.new ≡ string_bytes line.old ++ (spec.base_prefix number.now.radix ++ number.now.digits)) }
{
    line.push_str(base_prefix(number.radix()))?;
    line.push_str(number.digits())
}

/// Appends an integer that doesn't fit in 32 bits: decimal if it fits in 53 bits, or else its
/// digits in their base.
fn push_big(line: &mut String, number: &BigInt) -> Result<(), AllocError>
    ensures { OnOk result (string_bytes line.new ≡ string_bytes line.old ++ spec.shown_big number.now.is_negative number.now.radix number.now.digits) }
{
    line.push_str(if number.is_negative() { "-" } else { "" })?;
    match exact_value(number) {
        Some(value) => write!(line, "{value}"),
        None => push_digits(line, number),
    }
}

/// Appends an integer.
#[tactic(auto, unfolding(crate::specs::OutputFormats::Values::shown_integer))]
fn push_integer(line: &mut String, number: &TokenInt) -> Result<(), AllocError>
    ensures { OnOk result (string_bytes line.new ≡ string_bytes line.old ++ spec.shown_integer (integer_view number.now)) }
{
    match number {
        TokenInt::I32(value) => write!(line, "{value}"),
        TokenInt::BigInt(number) => push_big(line, number),
    }
}

/// Whether an integer fits in 53 bits.
#[tactic(auto, unfolding(crate::specs::OutputFormats::Values::is_exact))]
fn is_exact(number: &TokenInt) -> bool
    ensures { result ≡ spec.is_exact (integer_view number.now) }
{
    match number {
        TokenInt::I32(_) => true,
        TokenInt::BigInt(number) => exact_value(number).is_some(),
    }
}

/// Appends an integer as JSON: a number if it fits in 53 bits, or else a string.
fn push_json_integer(line: &mut String, number: &TokenInt) -> Result<(), AllocError>
    ensures { OnOk result (string_bytes line.new ≡ string_bytes line.old ++ spec.json_integer (integer_view number.now)) }
{
    if is_exact(number) {
        return push_integer(line, number);
    }
    push_ascii(line, '"')?;
    push_integer(line, number)?;
    push_ascii(line, '"')
}

/// Appends bytes as a string of JSON with two hexadecimal digits for each.
fn push_json_bytes(line: &mut String, bytes: &[u8]) -> Result<(), AllocError>
    ensures { OnOk result (string_bytes line.new ≡ string_bytes line.old ++ spec.in_quotes (hex bytes.now)) }
{
    push_ascii(line, '"')?;
    push_hex(line, bytes)?;
    push_ascii(line, '"')
}

/// Appends a space and a text in quotes.
fn push_text(line: &mut String, text: &str) -> Result<(), AllocError>
    ensures { OnOk result (string_bytes line.new ≡ string_bytes line.old ++ 32 ∷ quoted text.now) }
{
    push_ascii(line, ' ')?;
    push_quoted(line, text)
}

/// Appends a space and bytes in quotes.
fn push_bytes(line: &mut String, bytes: &[u8]) -> Result<(), AllocError>
    ensures { OnOk result (string_bytes line.new ≡ string_bytes line.old ++ 32 ∷ quoted_bytes bytes.now) }
{
    push_ascii(line, ' ')?;
    push_quoted_bytes(line, bytes)
}

/// Appends a space and an integer.
fn push_number(line: &mut String, number: &TokenInt) -> Result<(), AllocError>
    ensures { OnOk result (string_bytes line.new ≡ string_bytes line.old ++ 32 ∷ spec.shown_integer (integer_view number.now)) }
{
    push_ascii(line, ' ')?;
    push_integer(line, number)
}

/// Appends a space and the value of a token for people, if it has one.
#[tactic(auto, unfolding(crate::specs::OutputFormats::Values::readable, starlark_token::specs::TokenViews::token_view))]
pub fn push_readable(line: &mut String, token: &Token) -> Result<(), AllocError>
    ensures { OnOk result (string_bytes line.new ≡ string_bytes line.old ++ spec.readable (token_view token.now)) }
{
    match token {
        Token::Comment(text) => push_text(line, text.as_str()),
        Token::Identifier(name) => push_text(line, name.as_str()),
        Token::Float(text) => write!(line, " {text}"),
        Token::Int(number) => push_number(line, number),
        Token::FStringStart(quote) => write!(line, " {}", quotes_of(*quote)),
        Token::String(text) => push_text(line, text.as_str()),
        Token::FStringText(text) => push_text(line, text.as_str()),
        Token::Bytes(bytes) => push_bytes(line, bytes.as_slice()),
        _ => Ok(()),
    }
}

/// Appends `null`.
fn push_null(line: &mut String) -> Result<(), AllocError>
    ensures { OnOk result (string_bytes line.new ≡ string_bytes line.old ++ codes "null") }
{
    line.push_str("null")
}

/// Appends the value of a token as JSON: `null` if it has none.
#[tactic(auto, unfolding(crate::specs::OutputFormats::Values::json_of, starlark_token::specs::TokenViews::token_view))]
pub fn push_json_value(line: &mut String, token: &Token) -> Result<(), AllocError>
    ensures { OnOk result (string_bytes line.new ≡ string_bytes line.old ++ spec.json_of (token_view token.now)) }
{
    match token {
        Token::Comment(text) => push_json_string(line, text.as_str()),
        Token::Identifier(name) => push_json_string(line, name.as_str()),
        Token::Float(text) => push_json_string(line, text.as_str()),
        Token::Int(number) => push_json_integer(line, number),
        Token::FStringStart(quote) => write!(line, "\"{}\"", quotes_of(*quote)),
        Token::String(text) => push_json_string(line, text.as_str()),
        Token::FStringText(text) => push_json_string(line, text.as_str()),
        Token::Bytes(bytes) => push_json_bytes(line, bytes.as_slice()),
        _ => push_null(line),
    }
}
