//! Reads bytes of a text, and counts the reads.

ghost use Rattle.std.specs.Prelude.{◌≡◌, get_or, ◌≤◌, ◌<◌, ◌+◌, ◌-◌, ◌^◌, ℕ, length, take, nat_eq};
ghost use Rattle.std.specs.Char.{is_digit};
ghost use Rattle.std.specs.List.{prefix_len, slice_get};
ghost use Rattle.std.specs.Str.{IsCharBoundary};
ghost use Rattle.starlark_grammar.specs.FrontCharacter.{first_character};
ghost use Rattle.starlark_words.specs.Inner.Reads.{more_reads};

use std::marker::Model;

/// Bytes that an unrolled loop reads.
const UNROLLED: usize = 16;

/// Number of spaces at the start of a text, by one loop.
#[inline(always)]
fn short_spaces_len(text: &[u8]) -> usize
    ensures value { result ≡ prefix_len (nat_eq 32) text.now }
    ensures within { result ≤ length text.now }
{
    text.iter().take_while(|byte| **byte == b' ').count()
}

/// Number of spaces at the start of a text, without a count.
// Up to 16 by a loop over a constant number of bytes, which is unrolled (2 % of deep indentation).
#[inline(always)]
fn uncounted_spaces_len(text: &[u8]) -> usize
    ensures value { result ≡ prefix_len (nat_eq 32) text.now }
    ensures within { result ≤ length text.now }
{
    let mut len = 0;
    if text.len() >= UNROLLED {
        len = short_spaces_len(&text[..UNROLLED]);
        if len < UNROLLED {
            return len;
        }
    }
    while len < text.len() && text[len] == b' ' {
        len += 1;
    }
    len
}

/// The first `most` bytes of a text, or all if it has fewer. The caller has to count the reads.
#[inline(always)]
pub(crate) fn uncounted_front(text: &[u8], most: usize) -> &[u8]
    ensures { result.now ≡ take most text.now }
{
    &text[..most.min(text.len())]
}

/// The byte at an offset of a text; 0 after its end. The caller has to count the read.
#[inline(always)]
pub(crate) fn byte_at(text: &[u8], at: usize) -> u8
    ensures { result ≡ get_or text.now at 0 }
{
    text.get(at).copied().unwrap_or(0)
}

/// A counter of reads of bytes, which saturates.
///
/// Code that decides by bytes of a text reads them by a call of this type, or adds to the count what
/// it has read, so that contracts can bound the reads. A `_len` call returns the length of the longest
/// run at the start of a text; the byte that ends the run is read too. In a contract it is the count.
#[derive(Drop)]
pub struct ReadCounter {
    count: u64,
}

impl Model for ReadCounter {
    ghost Value = { ℕ };

    ghost view = { λ reads. reads.count };
}

impl ReadCounter {
    /// A counter at 0.
    pub fn new() -> Self
        ensures { result ≡ 0 }
    {
        ReadCounter { count: 0 }
    }

    /// Number of reads so far. A byte that was read twice counts twice.
    pub fn count(&self) -> u64
        ensures { result ≡ self.now }
    {
        self.count
    }

    /// Adds to the count.
    #[inline(always)]
    pub(crate) fn add(&mut self, more: usize)
        ensures { self.new ≡ more_reads self.old more }
    {
        self.count = self.count.saturating_add(more as u64);
    }

    /// Counts a run of `len` bytes that was read one by one, and the byte that ended it.
    #[inline(always)]
    pub fn count_run(&mut self, len: usize)
        requires { len < 2 ^ 64 - 1 }
        ensures { self.new ≡ more_reads self.old (len + 1) }
    {
        self.add(len + 1);
    }

    /// The byte at an offset of a text; `None` if the text is no longer than that.
    #[inline(always)]
    pub fn at(&mut self, text: &[u8], place: usize) -> Option<u8>
        ensures byte { result ≡ slice_get text.now place }
        ensures reads { self.new ≡ more_reads self.old 1 }
    {
        self.add(1);
        text.get(place).copied()
    }

    /// Length in bytes of the first character of a text; 0 if the text is empty.
    pub fn character_len(&mut self, text: &str) -> usize
        ensures character { take result text.now ≡ first_character text.now }
        ensures whole { result ≡ length (first_character text.now) }
        ensures boundary { IsCharBoundary text.now result }
        ensures reads { self.new ≡ more_reads self.old result }
    {
        let len = match text.chars().next() {
            Some(character) => character.len_utf8(),
            None => 0,
        };
        self.add(len);
        len
    }

    /// The first `most` bytes of a text, or all if it has fewer. `most` reads are counted.
    #[inline(always)]
    pub fn front<'a>(&mut self, text: &'a [u8], most: usize) -> &'a [u8]
        ensures bytes { result.now ≡ take most text.now }
        ensures reads { self.new ≡ more_reads self.old most }
    {
        self.add(most);
        &text[..most.min(text.len())]
    }

    /// Number of spaces at the start of a text.
    #[inline(always)]
    pub fn spaces_len(&mut self, text: &[u8]) -> usize
        ensures value { result ≡ prefix_len (nat_eq 32) text.now }
        ensures within { result ≤ length text.now }
        ensures reads { self.new ≡ more_reads self.old (result + 1) }
    {
        let len = uncounted_spaces_len(text);
        self.count_run(len);
        len
    }

    /// Number of digits of a base at the start of a text.
    #[inline(always)]
    pub(crate) fn digits_len(&mut self, text: &[u8], base: u32) -> usize
        requires least { 2 ≤ base }
        requires most { base ≤ 36 }
        ensures value { result ≡ prefix_len (λ b. is_digit b base) text.now }
        ensures within { result ≤ length text.now }
        ensures reads { self.new ≡ more_reads self.old (result + 1) }
    {
        let len = text
            .iter()
            .take_while(|byte| char::from(**byte).is_digit(base))
            .count();
        self.add(len + 1);
        len
    }

    /// Number of times that a byte is repeated at the start of a text.
    #[inline(always)]
    pub(crate) fn repeats_len(&mut self, text: &[u8], repeated: u8) -> usize
        ensures value { result ≡ prefix_len (nat_eq repeated) text.now }
        ensures within { result ≤ length text.now }
        ensures reads { self.new ≡ more_reads self.old (result + 1) }
    {
        let len = text.iter().take_while(|byte| **byte == repeated).count();
        self.add(len + 1);
        len
    }
}
