//! Integers that don't fit in 32 bits, as digits in their base.

ghost use Rattle.std.specs.Prelude.{◌≡◌, IfOk};

use std::alloc::{AllocError, Global};
use std::fmt;
use std::marker::Model;

/// The boxed fields of a `BigInt`.
#[derive(Debug, Drop)]
struct Parts {
    negative: bool,
    digits: String,
    radix: u32,
}

/// An integer out of the range of `i32`: its sign, its digits, and their base.
///
/// Two are equal if sign, digits and base are, so one number in two bases is two values.
// Boxed, since each `Token` has room for one and few are so large.
#[derive(Debug, Drop)]
pub struct BigInt {
    parts: Box<Parts>,
}

impl Model for BigInt {
    ghost use Rattle.std.specs.Prelude.{string_bytes};
    ghost use Rattle.starlark_token.specs.BigIntegers.{BigInteger, IsCanonical};

    ghost Value = { BigInteger };

    ghost view = { λ n. record { is_negative = n.parts.value.negative; digits = string_bytes n.parts.value.digits; radix = n.parts.value.radix } };

    ghost invariant = { λ n. IsCanonical (record { is_negative = n.parts.value.negative; digits = string_bytes n.parts.value.digits; radix = n.parts.value.radix }) };
}

impl BigInt {
    ghost use Rattle.std.specs.Prelude.{string_bytes};
    ghost use Rattle.starlark_token.specs.BigIntegers.{IsCanonical};

    /// A number of a sign, digits and a base. `AllocError` drops the digits.
    pub(crate) fn from_parts(
        alloc: Global,
        negative: bool,
        digits: String,
        radix: u32,
    ) -> Result<BigInt, AllocError>
        requires { IsCanonical (record { is_negative = negative; digits = string_bytes digits; radix = radix }) }
        ensures { IfOk result (λ number. number ≡ record { is_negative = negative; digits = string_bytes digits; radix = radix }) }
    {
        let parts = Parts {
            negative,
            digits,
            radix,
        };
        Ok(BigInt {
            parts: Box::new(alloc, parts)?,
        })
    }

    /// Whether the number is below 0.
    pub fn is_negative(&self) -> bool
        ensures { result ≡ self.now.is_negative }
    {
        self.parts.negative
    }

    /// The digits: without leading zeros, and with letters in lower case.
    pub fn digits(&self) -> &str
        ensures value { result.now ≡ self.now.digits }
        ensures kept { IsCanonical self.now }
    {
        self.parts.digits.as_str()
    }

    /// The base of the digits, from 2 to 36.
    pub fn radix(&self) -> u32
        ensures value { result ≡ self.now.radix }
        ensures kept { IsCanonical self.now }
    {
        self.parts.radix
    }

    /// An equal number with a copy of the digits. `AllocError` where memory runs out.
    pub fn clone(&self, alloc: Global) -> Result<BigInt, AllocError>
        ensures { IfOk result (λ copy. copy ≡ self.now) }
    {
        let digits = String::from_str(alloc, self.parts.digits.as_str())?;
        BigInt::from_parts(alloc, self.parts.negative, digits, self.parts.radix)
    }
}

impl PartialEq for BigInt {
    ghost use Rattle.std.specs.Prelude.{nat_eq};
    ghost use Rattle.std.proofs.Common.{rules};
    ghost use Rattle.std.specs.Cmp.Lexicographic.{pointwise};
    ghost use Rattle.std.specs.Cmp.Rules.{comparing};
    ghost use Rattle.std.specs.Ordering.{on, eq_of_both};
    ghost use Rattle.std.specs.Bool.{beq};

    ghost eq = { eq_of_both (on (λ n. n.digits) (pointwise nat_eq)) (eq_of_both (on (λ n. n.is_negative) beq) (on (λ n. n.radix) nat_eq)) };

    ghost laws = { Prim.search (comparing, rules) };

    fn eq(&self, other: &BigInt) -> bool {
        self.parts.digits == other.parts.digits
            && self.parts.negative == other.parts.negative
            && self.parts.radix == other.parts.radix
    }
}

impl Eq for BigInt {
    ghost use Rattle.std.proofs.Common.{rules};
    ghost use Rattle.std.specs.Cmp.Rules.{comparing};

    ghost laws = { Prim.search (comparing, rules) };
}

/// Prints a `-` if it is negative, the digits, and then the base unless it is 10.
///
/// An example is `ffffffffff (base 16)`.
#[tactic(auto, unfolding(crate::specs::BigIntegers::big_text))]
impl fmt::Display for BigInt {
    ghost use Rattle.std.specs.Prelude.{Some};
    ghost use Rattle.starlark_token.specs.BigIntegers.{big_text};

    ghost output = { λ n. Some (big_text n.is_negative n.digits n.radix) };

    fn fmt<W: fmt::Write>(&self, f: &mut fmt::Formatter<W>) -> fmt::Result {
        let sign = if self.parts.negative { "-" } else { "" };
        if self.parts.radix == 10 {
            return write!(f, "{sign}{}", self.parts.digits);
        }
        write!(f, "{sign}{} (base {})", self.parts.digits, self.parts.radix)
    }
}
