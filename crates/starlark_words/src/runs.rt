//! Runs of a literal's body: characters without escapes, which are copied unchanged.

ghost use Rattle.std.specs.Prelude.{◌≡◌, ◌<◌, ◌≤◌, ◌+◌, ◌*◌, ◌^◌, ◌-◌, drop, length, min, take, true, false};
ghost use Rattle.std.specs.List.{prefix_len};
ghost use Rattle.std.specs.Str.{IsCharBoundary};
ghost use Rattle.starlark_grammar.specs.Items as grammar;
ghost use Rattle.starlark_words.specs.Inner.LaneMasks.{MarksEnd};
ghost use Rattle.starlark_words.specs.Inner.LiteralViews.{literal_view};
ghost use Rattle.starlark_words.specs.Inner.Reads.{AreReads, CountsSteps, more_reads};
ghost use Rattle.starlark_words.specs.Inner.PlainRuns.{is_in_run, is_special};

use super::items::{Literal, ends_line, is_brace, quote_byte};
use crate::lanes::LANES;
use crate::reads::ReadCounter;
use starlark_grammar::class::LiteralKind;
use std::simd::prelude::*;

// `.` marks each byte that is in a run of every literal.
static ORDINARY: [u8; 256] = *b"\
    ..........\n..\r..................\
    ..\"....'........................\
    ............................\\...\
    ...........................{.}..\
    ................................\
    ................................\
    ................................\
    ................................";

/// Whether a byte ends a run of the literal: quote, backslash, CR, and perhaps LF or a brace.
fn is_special(literal: Literal, byte: u8) -> bool
    ensures { result ≡ is_special (literal_view literal) byte }
{
    byte == quote_byte(literal.opening.quote)
        || byte == b'\\'
        || byte == b'\r'
        || ends_line(literal.opening, byte)
        || is_brace(literal.kind, byte)
}

/// Whether a byte is in a run of the literal. The table answers for most bytes.
#[inline(always)]
fn is_in_run(literal: Literal, byte: u8) -> bool
    ensures { result ≡ is_in_run (literal_view literal) byte }
{
    ORDINARY[byte as usize] == b'.' || !is_special(literal, byte)
}

/// Bytes of a run that are read one by one before its first SIMD step.
// Of a run of two bytes, which is often followed by an escape, a step would read more than nine a
// byte: the bound has no room for that.
const ALONE: usize = 3;

/// Length of the run at the start of some bytes, one byte at a time. The caller has to count the
/// reads.
#[inline(always)]
fn short_run_len(literal: Literal, bytes: &[u8]) -> usize
    ensures value { result ≡ prefix_len (is_in_run (literal_view literal)) bytes.now }
    ensures within { result ≤ length bytes.now }
{
    let mut len = 0;
    while len < bytes.len() && is_in_run(literal, bytes[len]) {
        len += 1;
    }
    len
}

/// The bytes that end a run among the 16 from `at` on, as a mask: the lowest bit is the first byte's.
/// The caller has to count the reads.
#[inline(always)]
fn run_ends(literal: Literal, bytes: &[u8], at: usize) -> u64
    requires { at + 16 ≤ length bytes.now }
    ensures { MarksEnd (is_in_run (literal_view literal)) (take 16 (drop at bytes.now)) result }
{
    let lanes = u8x16::from_slice(&bytes[at..]);
    let mut ends = lanes.simd_eq(u8x16::splat(quote_byte(literal.opening.quote)))
        | lanes.simd_eq(u8x16::splat(b'\\'))
        | lanes.simd_eq(u8x16::splat(b'\r'));
    if !literal.opening.is_triple {
        ends = ends | lanes.simd_eq(u8x16::splat(b'\n'));
    }
    if literal.kind == LiteralKind::FString {
        ends = ends | (lanes.simd_eq(u8x16::splat(b'{')) | lanes.simd_eq(u8x16::splat(b'}')));
    }
    ends.to_bitmask()
}

/// Length of the run at the start of some bytes, by SIMD with a scalar tail.
// It advances by 16 and not by what a step found: so no step waits for the one before.
#[inline(never)]
fn long_run_len(reads: &mut ReadCounter, literal: Literal, bytes: &[u8]) -> usize
    ensures value { result ≡ prefix_len (is_in_run (literal_view literal)) bytes.now }
    ensures within { result ≤ length bytes.now }
    ensures reads { AreReads (result + 1) (result + 16) reads.old reads.new }
    ensures few { length bytes.now < 16 → reads.new ≡ more_reads reads.old (result + 1) }
    ensures steps { 16 ≤ length bytes.now → CountsSteps 0 (min result (length bytes.now - 16)) 0 reads.old reads.new }
{
    let mut at = 0;
    while at + LANES <= bytes.len() {
        let ends = run_ends(literal, bytes, at);
        if ends != 0 {
            reads.add(at + LANES);
            return at + ends.trailing_zeros() as usize;
        }
        at += LANES;
    }
    let len = at + short_run_len(literal, &bytes[at..]);
    reads.count_run(len);
    len
}

/// Length of the run at the start of some bytes. It reads three bytes one by one, and then 16 at a
/// time: the processor can't predict the length of a longer run. Counts `passed` reads besides.
#[inline(always)]
fn run_len(reads: &mut ReadCounter, passed: usize, literal: Literal, bytes: &[u8]) -> usize
    requires { passed < 2 ^ 33 }
    ensures value { result ≡ prefix_len (is_in_run (literal_view literal)) bytes.now }
    ensures reads { AreReads (passed + (result + 1)) (passed + (6 * result + 1)) reads.old reads.new }
    ensures steps { 16 ≤ length bytes.now → 3 ≤ result → CountsSteps 0 (min result (length bytes.now - 16)) (passed + 3) reads.old reads.new }
{
    if bytes.len() < LANES {
        reads.add(passed);
        return long_run_len(reads, literal, bytes);
    }
    let front = short_run_len(literal, &bytes[..ALONE]);
    if front < ALONE {
        reads.count_run(passed + front);
        return front;
    }
    let ends = run_ends(literal, bytes, 0);
    reads.add(passed + ALONE + LANES);
    if ends != 0 {
        return ends.trailing_zeros() as usize;
    }
    LANES + long_run_len(reads, literal, &bytes[LANES..])
}

/// The run at the start of the rest of a body. It may be empty. Counts `passed` reads besides.
#[inline(always)]
pub(crate) fn first_run<'a>(
    reads: &mut ReadCounter,
    passed: usize,
    literal: Literal,
    text: &'a str,
) -> &'a str
    requires { passed < 2 ^ 33 }
    ensures value { result.now ≡ take (prefix_len (is_in_run (literal_view literal)) text.now) text.now }
    ensures boundary { IsCharBoundary text.now (length result.now) }
    ensures reads { AreReads (passed + (length result.now + 1)) (passed + (6 * length result.now + 1)) reads.old reads.new }
{
    &text[..run_len(reads, passed, literal, text.as_bytes())]
}
