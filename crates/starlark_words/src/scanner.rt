//! Finds the longest word at the front of a text.

ghost use Rattle.std.specs.Prelude.{◌≡◌, ◌≢◌, false, ◌<◌, ◌≤◌, ◌+◌, ◌-◌, ◌*◌, ◌^◌, IfSome, None, Some, get_or, length, nat_eq, true};
ghost use Rattle.std.specs.Option.{option_map};
ghost use Rattle.std.specs.List.{prefix_len};
ghost use Rattle.starlark_grammar.specs.Front.{language_front};
ghost use Rattle.starlark_words.specs.Inner.Reads.{AreReads, more_reads};
ghost use Rattle.starlark_words.specs.Inner.ScannedWords.{begins_mark, begins_number, is_common, looked_len, peeked_len, word_len, word_view};
ghost use Rattle.starlark_grammar.specs.Pieces.{is_bang};
ghost use Rattle.starlark_grammar.specs.Words as grammar;
ghost use Rattle.starlark_grammar.specs.declared.class.Class.TheVariants as class;

mod marks;
mod names;
mod numbers;
mod word;

use crate::lines::front_len;
use crate::names::is_name_start;
use crate::reads::{ReadCounter, byte_at};
pub use starlark_grammar::class::{Class, LiteralKind, Quote, Terminal};
pub use word::Word;

/// Whether a number begins at the front of a text: with a digit, or with a point and a digit.
fn begins_number(text: &[u8]) -> bool
    ensures { result ≡ begins_number text.now }
{
    match text {
        [b'.', second, ..] => second.is_ascii_digit(),
        [first, ..] => first.is_ascii_digit(),
        [] => false,
    }
}

/// Length of the run of spaces at the front of a text, and the byte after it; 0 after its end.
///
/// Each byte is read once, and `word_after` counts the reads.
// The first two bytes before the loop, since most gaps are one space (0.9 %).
#[inline(always)]
pub fn gap_and_next(text: &str) -> (usize, u8)
    ensures value { result.0 ≡ prefix_len (nat_eq 32) text.now }
    ensures next { result.1 ≡ get_or text.now result.0 0 }
    ensures word { 0 < result.0 → language_front text.now ≡ Some (class.Skipped, result.0) }
    ensures bang { 0 < result.0 → is_bang text.now ≡ false }
    ensures within { result.0 ≤ length text.now }
{
    let bytes = text.as_bytes();
    let first = byte_at(bytes, 0);
    if first != b' ' {
        return (0, first);
    }
    let mut len = 1;
    let mut next = byte_at(bytes, 1);
    while next == b' ' {
        len += 1;
        next = byte_at(bytes, len);
    }
    (len, next)
}

/// The longest word after `gap` spaces if its first two bytes tell its kind: a name, a keyword, a
/// reserved word, the opener of a literal, a symbol, a line end, or a backslash before an LF. `None`
/// for any other word.
///
/// Of a mark whose first two bytes are the same, the third one is read, too: a symbol of three bytes
/// begins so. `first` is the first byte, or 0. Its read and those of the spaces are counted with these.
// The reads are added up before the mark is found: after it a count costs each lexeme 15 instructions.
// The third one is counted by itself: in one sum it costs 1 %. A line end is found before all else (8 % of
// blank lines).
#[inline(always)]
pub fn word_after(reads: &mut ReadCounter, gap: usize, first: u8, text: &str) -> Option<Word>
    requires few { gap < 2 ^ 32 }
    requires first { first ≡ get_or text.now 0 0 }
    ensures word { IfSome result (λ word. Some (word_view word) ≡ language_front text.now) }
    ensures bang { IfSome result (λ word. is_bang text.now ≡ false) }
    ensures comment { IfSome result (λ word. word.class ≢ class.Comment) }
    ensures none { result ≡ None → grammar.begins grammar.is_name_start text.now ≡ false }
    ensures rest { result ≡ None → begins_mark text.now ≡ false }
    ensures reads { IfSome result (λ word. AreReads (gap + word.len) (gap + (5 * word.len - 4) + 2) reads.old reads.new) }
    ensures name { grammar.begins grammar.is_name_start text.now ≡ true → more_reads reads.old (gap + 1 + word_len result) ≤ reads.new }
    ensures other { grammar.begins grammar.is_name_start text.now ≡ false → reads.new ≡ more_reads reads.old (gap + looked_len text.now) }
    ensures peeked { result ≡ None → reads.new ≡ more_reads reads.old (gap + peeked_len text.now) }
{
    let passed = gap + 1;
    if first == b'\n' {
        reads.add(passed);
        return Some(Word {
            class: Class::LineEnd,
            len: 1,
        });
    }
    if is_name_start(first) {
        // One more: the byte after a name of one or two letters is read twice, since it may be a quote.
        return Some(names::name_from(reads, passed + 1, text));
    }
    let bytes = text.as_bytes();
    let second = byte_at(bytes, 1);
    reads.add(passed + 1);
    let mut third = 0;
    if second == first {
        reads.add(1);
        third = byte_at(bytes, 2);
    }
    marks::mark(first, second, third)
}

/// Whether a text begins with `!`, and not with `!=`.
#[inline(always)]
pub fn is_bang(text: &[u8]) -> bool
    ensures { result ≡ is_bang text.now }
{
    match text {
        [b'!', second, ..] => *second != b'=',
        [b'!'] => true,
        _ => false,
    }
}

/// The longest word at the front of a text that doesn't begin with a letter or `_`; `None` if there
/// is none. The caller has counted the reads of the first bytes, as `word_after` does.
#[inline(always)]
pub fn unnamed_word(reads: &mut ReadCounter, text: &str) -> Option<Word>
    requires { grammar.begins grammar.is_name_start text.now ≡ false }
    ensures word { option_map word_view result ≡ language_front text.now }
    ensures bang { IfSome result (λ word. is_bang text.now ≡ false) }
    ensures class { begins_mark text.now ≡ false → IfSome result (λ word. is_common word.class ≡ false) }
    ensures reads { AreReads (word_len result - peeked_len text.now) (5 * word_len result + 3 - peeked_len text.now) reads.old reads.new }
{
    let bytes = text.as_bytes();
    let first = byte_at(bytes, 0);
    let second = byte_at(bytes, 1);
    reads.add((second != first) as usize);
    if numbers::is_digit_alone(bytes) {
        return Some(Word {
            class: Class::Decimal,
            len: 1,
        });
    }
    if begins_number(bytes) {
        return Some(numbers::number_from(reads, bytes));
    }
    let (class, len) = match first {
        b' ' => (Class::Skipped, reads.repeats_len(bytes, b' ')),
        b'\t' => (Class::Tabs, reads.repeats_len(bytes, b'\t')),
        b'#' => (Class::Comment, 1 + front_len(reads, 0, &bytes[1..], b'\r')),
        _ => return marks::mark(first, second, byte_at(bytes, 2)),
    };
    Some(Word { class, len })
}

/// The longest word at the front of a text; `None` if there is none.
pub fn first_word(reads: &mut ReadCounter, text: &str) -> Option<Word>
    ensures word { option_map word_view result ≡ language_front text.now }
    ensures bang { IfSome result (λ word. is_bang text.now ≡ false) }
    ensures reads { AreReads (word_len result) (5 * word_len result + 3) reads.old reads.new }
{
    match word_after(reads, 0, byte_at(text.as_bytes(), 0), text) {
        Some(word) => Some(word),
        None => unnamed_word(reads, text),
    }
}
