//! Numbers of characters before each step of a text, so that a column costs a few bytes to count.

ghost use Rattle.std.specs.Prelude.{◌≡◌, ◌<◌, ◌≤◌, ◌^◌, [], IfOk, length, slice_range};
ghost use Rattle.std.specs.Str.{IsAscii, IsCharBoundary};
ghost use Rattle.starlark_base.specs.Inner.CharacterCounts.{AreCounts, starts_before};
ghost use Rattle.starlark_text.specs.Characters.{char_count};

use starlark_text::character_starts::{count_characters, count_starts};
use std::alloc::{AllocError, Global};

/// Bytes in a step.
pub(crate) const STEP: usize = 256;

/// Number of characters that begin before each step of some bytes, up to their end.
fn counts_of_steps(alloc: Global, bytes: &[u8]) -> Result<Vec<u32>, AllocError>
    requires { length bytes.now < 2 ^ 32 }
    ensures { IfOk result (λ counts. AreCounts STEP bytes.now counts.items) }
{
    let mut counts = Vec::with_capacity(alloc, bytes.len() / STEP + 1)?;
    let mut count = 0;
    counts.push(count)?;
    for step in bytes.chunks_exact(STEP) {
        count += count_starts(step) as u32;
        counts.push(count)?;
    }
    Ok(counts)
}

/// Number of characters that begin before each step of a text, up to its end.
///
/// Empty, and without an allocation, where the text is all ASCII.
pub(crate) fn counts_of(alloc: Global, text: &str) -> Result<Vec<u32>, AllocError>
    requires { length text.now < 2 ^ 32 }
    ensures counted { IfOk result (λ counts. AreCounts STEP text.now counts.items) }
    ensures ascii { IfOk result (λ counts. IsAscii text.now → counts.items ≡ []) }
{
    if text.is_ascii() {
        Ok(Vec::new(alloc))
    } else {
        counts_of_steps(alloc, text.as_bytes())
    }
}

/// Number of characters that begin before byte `at` of a text. Reads less than a step of the text.
fn characters_before(text: &str, counts: &[u32], at: usize) -> usize
    requires counted { AreCounts STEP text.now counts.now }
    requires within { at ≤ length text.now }
    ensures { result ≡ starts_before text.now at }
{
    if counts.is_empty() {
        return at;
    }
    let step = at / STEP;
    counts[step] as usize + count_starts(&text.as_bytes()[step * STEP..at])
}

/// Number of characters between bytes `begin` and `end` of a text. Reads at most two steps of it.
pub(crate) fn characters_between(text: &str, counts: &[u32], begin: usize, end: usize) -> usize
    requires counted { AreCounts STEP text.now counts.now }
    requires order { begin ≤ end }
    requires begin { IsCharBoundary text.now begin }
    requires end { IsCharBoundary text.now end }
    ensures { result ≡ char_count (slice_range text.now begin end) }
{
    if end - begin <= STEP {
        count_characters(&text[begin..end])
    } else {
        characters_before(text, counts, end) - characters_before(text, counts, begin)
    }
}
