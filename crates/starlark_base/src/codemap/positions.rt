//! Positions in source texts, in bytes.

ghost use Rattle.std.specs.Prelude.{◌≡◌, ◌+◌, ◌-◌, ◌<◌, ◌≤◌, ◌^◌};

use std::marker::Model;
use std::ops::{Add, AddAssign, Sub};

/// A position in a source text, in bytes from 0. In a contract it is that number.
///
/// `+` and `+=` need a sum below 2^32. `-` needs a count that is no greater than the position.
#[derive(Clone, Copy, Debug, Default, PartialEq, Eq, PartialOrd, Ord, Hash)]
pub struct Pos(u32);

impl Model for Pos {
    ghost use Rattle.std.specs.Prelude.{ℕ};

    ghost Value = { ℕ };

    ghost view = { λ p. p.0 };

    ghost inverse = { λ n. record { 0 = n } };
}

impl Pos {
    /// The position after `x` bytes.
    pub fn new(x: u32) -> Self
        ensures { result ≡ x }
    {
        Pos(x)
    }

    /// The position as a number of bytes.
    pub fn get(self) -> u32
        ensures { result ≡ self }
    {
        self.0
    }
}

/// Moves a position on by a number of bytes. The sum must be below 2^32.
impl Add<u32> for Pos {
    type Output = Pos;

    ghost can_add = { λ pos count. pos + count < 2 ^ 32 };

    ghost add_gives = { λ pos count sum. sum ≡ pos + count };

    fn add(self, other: u32) -> Pos {
        Pos(self.0 + other)
    }
}

/// Moves a position back by a number of bytes, which must not be greater than the position.
impl Sub<u32> for Pos {
    type Output = Pos;

    ghost can_sub = { λ pos count. count ≤ pos };

    ghost sub_gives = { λ pos count rest. rest ≡ pos - count };

    fn sub(self, other: u32) -> Pos {
        Pos(self.0 - other)
    }
}

/// Moves a position on by a number of bytes. The sum must be below 2^32.
impl AddAssign<u32> for Pos {
    ghost can_add_assign = { λ pos count. pos + count < 2 ^ 32 };

    ghost add_assign_gives = { λ pos count sum. sum ≡ pos + count };

    fn add_assign(&mut self, other: u32) {
        self.0 += other;
    }
}
