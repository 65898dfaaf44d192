//! Finds the end of a name.

ghost use Rattle.std.specs.Prelude.{◌≡◌, ◌<◌, ◌≤◌, ◌+◌, ◌*◌, ◌^◌, length, take};
ghost use Rattle.std.specs.List.{prefix_len};
ghost use Rattle.starlark_grammar.specs.Words as grammar;
ghost use Rattle.starlark_words.specs.Inner.LaneMasks.{MarksEnd};
ghost use Rattle.starlark_words.specs.Inner.Reads.{AreReads, more_reads};

use crate::lanes::LANES;
use crate::reads::ReadCounter;
use std::simd::prelude::*;

// `n` marks each byte that begins names, `d` each other byte that a name can have.
static IN_NAME: [u8; 256] = *b"\
    --------------------------------\
    ----------------dddddddddd------\
    -nnnnnnnnnnnnnnnnnnnnnnnnnn----n\
    -nnnnnnnnnnnnnnnnnnnnnnnnnn-----\
    --------------------------------\
    --------------------------------\
    --------------------------------\
    --------------------------------";

/// Whether a byte is a letter or `_`.
#[inline(always)]
pub(crate) fn is_name_start(byte: u8) -> bool
    ensures { result ≡ grammar.is_name_start byte }
{
    IN_NAME[byte as usize] == b'n'
}

/// Whether a byte is a letter, `_` or a digit.
#[inline(always)]
pub(crate) fn is_in_name(byte: u8) -> bool
    ensures { result ≡ grammar.is_in_name byte }
{
    IN_NAME[byte as usize] != b'-'
}

/// Bytes of a name that are read one by one before the SIMD step.
const ALONE: usize = 4;

/// Number of letters, digits and `_` at the start of a text, by one byte at a time.
#[inline(always)]
fn short_name_len(text: &[u8]) -> usize
    ensures value { result ≡ prefix_len grammar.is_in_name text.now }
    ensures within { result ≤ length text.now }
{
    text.iter().take_while(|byte| is_in_name(**byte)).count()
}

/// Scalar tail of `name_len`: the bytes after its SIMD step, or a text too short for one.
#[inline(never)]
fn last_name_len(text: &[u8]) -> usize
    ensures value { result ≡ prefix_len grammar.is_in_name text.now }
    ensures within { result ≤ length text.now }
{
    short_name_len(text)
}

/// The bytes among the first 16 that no name has, as a mask: the lowest bit is the first byte's.
#[inline(always)]
fn name_ends(text: &[u8]) -> u64
    requires { 16 ≤ length text.now }
    ensures { MarksEnd grammar.is_in_name (take 16 text.now) result }
{
    let lanes = u8x16::from_slice(text);
    let capitals = lanes.simd_ge(u8x16::splat(b'A')) & lanes.simd_le(u8x16::splat(b'Z'));
    let letters = lanes.simd_ge(u8x16::splat(b'a')) & lanes.simd_le(u8x16::splat(b'z'));
    let digits = lanes.simd_ge(u8x16::splat(b'0')) & lanes.simd_le(u8x16::splat(b'9'));
    let in_name = capitals | letters | lanes.simd_eq(u8x16::splat(b'_')) | digits;
    (!in_name).to_bitmask()
}

/// Number of letters, digits and `_` at the start of a text.
///
/// It reads four bytes one by one, and then 16 by SIMD: the processor can't predict the length of a
/// longer name. Counts `passed` reads besides.
#[inline(always)]
pub(crate) fn name_len(reads: &mut ReadCounter, passed: usize, text: &[u8]) -> usize
    requires { passed < 2 ^ 33 }
    ensures value { result ≡ prefix_len grammar.is_in_name text.now }
    ensures within { result ≤ length text.now }
    ensures reads { AreReads (passed + (result + 1)) (passed + (5 * result + 1)) reads.old reads.new }
    ensures step { 20 ≤ length text.now → 4 ≤ result → more_reads reads.old (passed + 20) ≤ reads.new }
{
    if text.len() < ALONE + LANES {
        let len = last_name_len(text);
        reads.count_run(passed + len);
        return len;
    }
    let len = short_name_len(&text[..ALONE]);
    if len < ALONE {
        reads.count_run(passed + len);
        return len;
    }
    let ends = name_ends(&text[ALONE..]);
    if ends != 0 {
        reads.add(passed + ALONE + LANES);
        return ALONE + ends.trailing_zeros() as usize;
    }
    let whole = ALONE + LANES + last_name_len(&text[ALONE + LANES..]);
    reads.count_run(passed + whole);
    whole
}
