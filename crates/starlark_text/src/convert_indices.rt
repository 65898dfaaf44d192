//! Indices of Starlark sequences: a negative index counts from the end, and an index out of range
//! is clamped.

ghost use Rattle.std.specs.Prelude.{◌≡◌, pos, ◌≤ℤ◌, unsigned_abs};
ghost use Rattle.starlark_text.specs.Indices as spec;

/// Position from 0 that an index means in a sequence of `count` elements, clamped to `0..=count`.
pub(crate) fn place_of(count: usize, index: i32) -> usize
    ensures { result ≡ spec.place count index }
{
    if index < 0 {
        count.saturating_sub(index.unsigned_abs() as usize)
    } else {
        count.min(index as usize)
    }
}

/// Position from 0 at which a slice of `count` elements begins: 0 where no start is given.
pub(crate) fn start_place(count: usize, start: Option<i32>) -> usize
    ensures { result ≡ spec.start_place count start }
{
    match start {
        None => 0,
        Some(index) => place_of(count, index),
    }
}

/// Position from 0 at which a slice of `count` elements ends: `count` where no end is given.
pub(crate) fn end_place(count: usize, end: Option<i32>) -> usize
    ensures { result ≡ spec.end_place count end }
{
    match end {
        None => count,
        Some(index) => place_of(count, index),
    }
}

/// Positions from 0 at which a slice of a sequence of `len` elements begins and ends.
///
/// `len` must not be negative. An absent start is 0, an absent end is `len`. A negative index
/// counts from the end; an index out of range is clamped. The first position may be greater than
/// the second.
pub fn convert_indices(len: i32, start: Option<i32>, end: Option<i32>) -> (usize, usize)
    requires { pos 0 ≤ℤ len }
    ensures start { result.0 ≡ spec.start_place (unsigned_abs len) start }
    ensures end { result.1 ≡ spec.end_place (unsigned_abs len) end }
{
    let count = len.unsigned_abs() as usize;
    (start_place(count, start), end_place(count, end))
}

/// Position from 0 that an index means in a sequence of `len` elements, at most `len`.
///
/// `len` must not be negative. A negative index counts from the end; an index out of range is
/// clamped.
pub fn convert_index(len: i32, start: i32) -> usize
    requires { pos 0 ≤ℤ len }
    ensures { result ≡ spec.place (unsigned_abs len) start }
{
    place_of(len.unsigned_abs() as usize, start)
}
