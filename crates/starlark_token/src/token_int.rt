//! Values of integer literals.

ghost use Rattle.std.specs.Prelude.{◌≡◌, ◌≤◌, IfOk, IfErr, OnErr, Some};
ghost use Rattle.starlark_token.specs.NumberRefusals.{RefusesNumber};
ghost use Rattle.starlark_grammar.specs.Numbers.{integer_in};
ghost use Rattle.starlark_token.specs.TokenInts.{IsBig, integer_view};

use crate::big_int::BigInt;
use crate::lexeme_error::LexemeError;
use crate::number_text::number_in;
use starlark_text::or_memory::OrMemory;
use std::alloc::{AllocError, Global};
use std::fmt;

/// The value of an integer literal.
#[derive(Debug, Drop, PartialEq, Eq)]
pub enum TokenInt {
    /// A value from -2147483648 to 2147483647.
    I32(i32),
    /// A value out of the range of `i32`.
    BigInt(BigInt),
}

impl TokenInt {
    /// Parses an integer in a base from 2 to 36.
    ///
    /// The text must be at most one sign and then one or more digits, with letters in either case.
    /// Fails with `CannotParse` where it isn't, and with `Memory` where memory runs out. An `I32`
    /// doesn't allocate.
    pub fn from_str_radix(
        alloc: Global,
        s: &str,
        base: u32,
    ) -> Result<TokenInt, OrMemory<LexemeError>>
        requires least { 2 ≤ base }
        requires most { base ≤ 36 }
        ensures value { IfOk result (λ number. integer_in base s.now ≡ Some (integer_view number)) }
        ensures refusal { IfErr result (λ refusal. RefusesNumber base s.now refusal) }
    {
        match number_in(alloc, s, base)? {
            Some(number) => Ok(number),
            None => {
                let text = String::from_str(alloc, s)?;
                Err(OrMemory::Error(LexemeError::CannotParse(text, base)))
            }
        }
    }

    /// An equal value. `AllocError` where memory for a `BigInt` runs out; an `I32` doesn't
    /// allocate.
    pub fn clone(&self, alloc: Global) -> Result<TokenInt, AllocError>
        ensures value { IfOk result (λ copy. copy ≡ self.now) }
        ensures memory { OnErr result (IsBig (integer_view self.now)) }
    {
        match self {
            TokenInt::I32(value) => Ok(TokenInt::I32(*value)),
            TokenInt::BigInt(number) => Ok(TokenInt::BigInt(number.clone(alloc)?)),
        }
    }
}

/// Prints an `I32` in decimal, and a `BigInt` by its digits and its base.
impl fmt::Display for TokenInt {
    ghost use Rattle.std.specs.Prelude.{Some};
    ghost use Rattle.starlark_token.specs.TokenInts.{integer_text, integer_view};

    ghost output = { λ number. Some (integer_text (integer_view number)) };

    fn fmt<W: fmt::Write>(&self, f: &mut fmt::Formatter<W>) -> fmt::Result {
        match self {
            TokenInt::I32(value) => write!(f, "{value}"),
            TokenInt::BigInt(number) => write!(f, "{number}"),
        }
    }
}
