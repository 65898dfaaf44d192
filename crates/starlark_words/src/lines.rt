//! Finds the first LF, or the first of another byte.

ghost use Rattle.std.specs.Prelude.{◌≡◌, ◌+◌, ◌-◌, ◌≤◌, ◌<◌, ◌^◌, drop, length, take};
ghost use Rattle.std.specs.List.{prefix_len};
ghost use Rattle.starlark_words.specs.Inner.LaneMasks.{MarksEnd};
ghost use Rattle.starlark_words.specs.Inner.Reads.{AreReads, CountsSteps};
ghost use Rattle.starlark_words.specs.Inner.LineFronts.{is_in_front, most_front_reads};

use crate::lanes::LANES;
use crate::reads::ReadCounter;
use std::simd::prelude::*;

/// Bytes of a line that are read one by one before the first SIMD step.
// After fewer a step would read more than `most_front_reads` has room for.
const ALONE: usize = 5;

/// Number of bytes before the first LF or `other` byte, or all of them, one byte at a time. The
/// caller has to count the reads.
#[inline(always)]
fn short_front_len(text: &[u8], other: u8) -> usize
    ensures value { result ≡ prefix_len (is_in_front other) text.now }
    ensures within { result ≤ length text.now }
{
    let mut len = 0;
    while len < text.len() && text[len] != other && text[len] != b'\n' {
        len += 1;
    }
    len
}

/// The LFs and `other` bytes among the 16 bytes from `at` on, as a mask: the lowest bit is the
/// first byte's. The caller has to count the reads.
// A mask, since a test for 0 takes fewer instructions than a length that is compared with 16.
#[inline(always)]
fn front_ends(text: &[u8], at: usize, other: u8) -> u64
    requires { at + 16 ≤ length text.now }
    ensures { MarksEnd (is_in_front other) (take 16 (drop at text.now)) result }
{
    let lanes = u8x16::from_slice(&text[at..]);
    let ends = lanes.simd_eq(u8x16::splat(other)) | lanes.simd_eq(u8x16::splat(b'\n'));
    ends.to_bitmask()
}

/// Number of bytes before the first LF or `other` byte of a text of 16 bytes or more, or all of
/// them, if the first `from` bytes have none.
///
/// It reads 16 bytes at a time. Where fewer are left it reads the last 16 of the text. Counts
/// `passed` reads besides.
#[inline(always)]
fn long_front_len(
    reads: &mut ReadCounter,
    passed: usize,
    text: &[u8],
    other: u8,
    from: usize,
) -> usize
    requires fits { passed + length text.now < 2 ^ 64 - 16 }
    requires long { 16 ≤ length text.now }
    requires none { prefix_len (is_in_front other) text.now ≡ from + prefix_len (is_in_front other) (drop from text.now) }
    requires inside { from ≤ length text.now }
    ensures value { result ≡ prefix_len (is_in_front other) text.now }
    ensures within { result ≤ length text.now }
    ensures reads { AreReads (passed + (result + 1)) (passed + (result + 16)) reads.old reads.new }
    ensures steps { CountsSteps from result passed reads.old reads.new }
{
    let mut at = from;
    while at + LANES <= text.len() {
        let ends = front_ends(text, at, other);
        if ends != 0 {
            reads.add(passed + at + LANES);
            return at + ends.trailing_zeros() as usize;
        }
        at += LANES;
    }
    reads.add(passed + at + LANES);
    let last = text.len() - LANES;
    let ends = front_ends(text, last, other);
    if ends == 0 {
        text.len()
    } else {
        last + ends.trailing_zeros() as usize
    }
}

/// Number of bytes before the first LF or `other` byte of a text, or all of them.
///
/// It reads five bytes one by one, and then 16 at a time. Counts `passed` reads besides.
#[inline(always)]
pub fn front_len(reads: &mut ReadCounter, passed: usize, text: &[u8], other: u8) -> usize
    requires { passed + length text.now < 2 ^ 64 - 16 }
    ensures value { result ≡ prefix_len (is_in_front other) text.now }
    ensures within { result ≤ length text.now }
    ensures reads { AreReads (passed + (result + 1)) (passed + most_front_reads result text.now) reads.old reads.new }
    ensures steps { 16 ≤ length text.now → CountsSteps 5 result passed reads.old reads.new }
{
    if text.len() < LANES {
        let len = short_front_len(text, other);
        reads.count_run(passed + len);
        return len;
    }
    let len = short_front_len(&text[..ALONE], other);
    if len < ALONE {
        reads.count_run(passed + len);
        return len;
    }
    long_front_len(reads, passed, text, other, ALONE)
}
