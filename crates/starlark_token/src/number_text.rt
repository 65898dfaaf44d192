//! Parses integers in a base.

ghost use Rattle.std.specs.Prelude.{◌≡◌, ◌≤◌, nat_eq, slice_index, string_bytes, true, OnErr, Some, IfOk, IsSomeAnd};
ghost use Rattle.std.specs.Char.{is_digit};
ghost use Rattle.std.specs.List.{list_all, prefix_len};
ghost use Rattle.std.specs.Option.{option_map};
ghost use Rattle.starlark_grammar.specs.Numbers as grammar;
ghost use Rattle.starlark_grammar.specs.Numbers.{integer_in, is_number};
ghost use Rattle.starlark_token.specs.TokenInts.{IsBig, integer_view};
ghost use Rattle.starlark_grammar.specs.Words.{is_run, is_sign, unsigned};

use crate::big_int::BigInt;
use crate::token_int::TokenInt;
use std::alloc::{AllocError, Global};

/// Whether a byte is `+` or `-`.
fn is_sign(byte: u8) -> bool
    ensures { result ≡ is_sign byte }
{
    byte == b'+' || byte == b'-'
}

/// Whether a text begins with a sign.
fn begins_with_sign(text: &[u8]) -> bool
    ensures { result ≡ is_sign (slice_index text.now 0) }
{
    match text.first() {
        Some(byte) => is_sign(*byte),
        None => false,
    }
}

/// The text without its sign, if it has one.
fn unsigned(text: &str) -> &str
    ensures { result.now ≡ unsigned text.now }
{
    if begins_with_sign(text.as_bytes()) {
        &text[1..]
    } else {
        text
    }
}

/// Whether all bytes are digits of the base.
fn all_digits(digits: &[u8], base: u32) -> bool
    requires least { 2 ≤ base }
    requires most { base ≤ 36 }
    ensures { result ≡ list_all (λ b. is_digit b base) digits.now }
{
    digits.iter().all(|digit| char::from(*digit).is_digit(base))
}

/// Whether the bytes are one or more digits of the base, and nothing else.
fn is_numeral(digits: &[u8], base: u32) -> bool
    requires least { 2 ≤ base }
    requires most { base ≤ 36 }
    ensures { result ≡ is_run (λ b. is_digit b base) digits.now }
{
    !digits.is_empty() && all_digits(digits, base)
}

/// Number of leading zeros.
fn zeros_len(digits: &[u8]) -> usize
    ensures { result ≡ prefix_len (nat_eq 48) digits.now }
{
    digits.iter().take_while(|digit| **digit == b'0').count()
}

/// The digits without leading zeros, and with letters in lower case.
fn plain_digits(alloc: Global, digits: &str) -> Result<String, AllocError>
    ensures { IfOk result (λ plain. string_bytes plain ≡ grammar.plain_digits digits.now) }
{
    let zeros = zeros_len(digits.as_bytes());
    let mut plain = String::from_str(alloc, &digits[zeros..])?;
    plain.make_ascii_lowercase();
    Ok(plain)
}

/// Whether a text begins with `-`.
fn is_negative(text: &[u8]) -> bool
    ensures { result ≡ grammar.is_negative text.now }
{
    matches!(text, [b'-', ..])
}

/// The value of a text that is an integer in a base from 2 to 36.
///
/// It allocates only for a number out of the range of `i32`. `AllocError` where memory runs out.
pub fn number_of(alloc: Global, text: &str, base: u32) -> Result<TokenInt, AllocError>
    requires least { 2 ≤ base }
    requires most { base ≤ 36 }
    requires number { is_number base text.now ≡ true }
    ensures value { IfOk result (λ number. Some (integer_view number) ≡ integer_in base text.now) }
    ensures memory { OnErr result (IsSomeAnd (integer_in base text.now) IsBig) }
{
    if let Ok(value) = i32::from_str_radix(text, base) {
        return Ok(TokenInt::I32(value));
    }
    let plain = plain_digits(alloc, unsigned(text))?;
    let number = BigInt::from_parts(alloc, is_negative(text.as_bytes()), plain, base)?;
    Ok(TokenInt::BigInt(number))
}

/// Parses an integer in a base from 2 to 36; `None` where the text is no integer.
///
/// It allocates only for a number out of the range of `i32`. `AllocError` where memory runs out.
pub fn number_in(alloc: Global, text: &str, base: u32) -> Result<Option<TokenInt>, AllocError>
    requires least { 2 ≤ base }
    requires most { base ≤ 36 }
    ensures value { IfOk result (λ number. option_map integer_view number ≡ integer_in base text.now) }
    ensures memory { OnErr result (IsSomeAnd (integer_in base text.now) IsBig) }
{
    if !is_numeral(unsigned(text).as_bytes(), base) {
        return Ok(None);
    }
    Ok(Some(number_of(alloc, text, base)?))
}
