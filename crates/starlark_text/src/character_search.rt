//! Finds the byte offset of a character by its index, with SIMD: 32 bytes at a time.

ghost use Rattle.std.specs.Prelude.{◌≡◌, ◌<◌, MatchOption, count_by};
ghost use Rattle.starlark_text.specs.Inner.Begins.{IsBegin};
ghost use Rattle.starlark_text.specs.Characters as spec;

use crate::character_starts::{LANES, lane_starts, starts_character};

/// Offset in bytes at which character `index` begins, by one byte at a time: the scalar tail.
///
/// The end of the bytes where exactly `index` characters begin in them; `None` where fewer do.
fn short_begin_of(bytes: &[u8], index: usize) -> Option<usize>
    ensures { MatchOption result (count_by spec.starts_character bytes.now < index) (IsBegin bytes.now index) }
{
    let mut left = index;
    let mut at = 0;
    while at < bytes.len() {
        if starts_character(bytes[at]) {
            if left == 0 {
                return Some(at);
            }
            left -= 1;
        }
        at += 1;
    }
    if left == 0 { Some(at) } else { None }
}

/// Offset in bytes at which character `index` begins, by SIMD with a scalar tail.
///
/// The end of the bytes where exactly `index` characters begin in them; `None` where fewer do.
pub(crate) fn begin_of(bytes: &[u8], index: usize) -> Option<usize>
    ensures { MatchOption result (count_by spec.starts_character bytes.now < index) (IsBegin bytes.now index) }
{
    let mut left = index;
    let mut at = 0;
    while at + LANES <= bytes.len() {
        let begun = lane_starts(bytes, at);
        if left < begun {
            break;
        }
        left -= begun;
        at += LANES;
    }
    Some(at + short_begin_of(&bytes[at..], left)?)
}
