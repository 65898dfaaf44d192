//! Counts characters by their first bytes, with SIMD: 32 bytes at a time.

ghost use Rattle.std.specs.Prelude.{◌≡◌, ◌+◌, ◌≤◌, count_by, drop, length, take};
ghost use Rattle.starlark_text.specs.Characters as spec;
ghost use Rattle.starlark_text.specs.Characters.{char_count};

use std::simd::prelude::*;

/// Bytes in one SIMD step.
pub const LANES: usize = 32;

/// Whether a byte of a UTF-8 text is the first byte of a character.
#[inline(always)]
pub fn starts_character(byte: u8) -> bool
    ensures { result ≡ spec.starts_character byte }
{
    byte < 128 || 192 <= byte
}

/// Number of characters that begin in the `LANES` bytes from `at` on.
#[inline(always)]
pub fn lane_starts(bytes: &[u8], at: usize) -> usize
    requires { at + LANES ≤ length bytes.now }
    ensures { result ≡ count_by spec.starts_character (take LANES (drop at bytes.now)) }
{
    let lanes = u8x32::from_slice(&bytes[at..]);
    let begins = lanes.simd_lt(u8x32::splat(128)) | lanes.simd_ge(u8x32::splat(192));
    begins.to_bitmask().count_ones() as usize
}

/// Number of characters that begin in some bytes, by one byte at a time: the scalar tail.
fn count_starts_scalar(bytes: &[u8]) -> usize
    ensures { result ≡ count_by spec.starts_character bytes.now }
{
    bytes.iter().filter(|byte| starts_character(**byte)).count()
}

/// Number of characters that begin in some bytes, by SIMD with a scalar tail.
///
/// The bytes may start or end inside a character.
pub fn count_starts(bytes: &[u8]) -> usize
    ensures { result ≡ count_by spec.starts_character bytes.now }
{
    let mut count = 0;
    let mut at = 0;
    while at + LANES <= bytes.len() {
        count += lane_starts(bytes, at);
        at += LANES;
    }
    count + count_starts_scalar(&bytes[at..])
}

/// Number of characters of a text.
pub fn count_characters(text: &str) -> usize
    ensures { result ≡ char_count text.now }
{
    count_starts(text.as_bytes())
}
