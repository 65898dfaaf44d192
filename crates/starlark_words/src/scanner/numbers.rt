//! Numbers: the class and the length of the one at the front of a text.

ghost use Rattle.std.specs.Prelude.{◌≡◌, ◌≤◌, ◌<◌, ◌+◌, ◌-◌, ◌*◌, IfSome, Some, length, true};
ghost use Rattle.std.specs.Option.{option_map};
ghost use Rattle.starlark_grammar.specs.Front.{language_front, longest_front};
ghost use Rattle.starlark_grammar.specs.Lengths.{longest_len};
ghost use Rattle.starlark_words.specs.Inner.Reads.{AreReads, more_reads};
ghost use Rattle.starlark_words.specs.Inner.ScannedWords.{begins_number, is_digit_alone, is_number, word_len, word_view};
ghost use Rattle.starlark_grammar.specs.Words as grammar;

use super::{Class, Word};
use crate::names::is_in_name;
use crate::reads::{ReadCounter, byte_at};

/// Length of the exponent at the start of a text; 0 if there is none.
fn exponent_len(reads: &mut ReadCounter, text: &[u8]) -> usize
    ensures value { result ≡ longest_len grammar.is_exponent text.now }
    ensures within { result ≤ length text.now }
    ensures reads { AreReads result (result + 3) reads.old reads.new }
{
    reads.add(1);
    let [b'e' | b'E', power @ ..] = text else {
        return 0;
    };
    reads.add(1);
    let sign = match power {
        [b'+' | b'-', ..] => 1,
        _ => 0,
    };
    let digits = reads.digits_len(&power[sign..], 10);
    if digits == 0 { 0 } else { 1 + sign + digits }
}

/// Length of what makes the digits before it a float, a fraction or an exponent; 0 if nothing does.
fn float_end_len(reads: &mut ReadCounter, text: &[u8]) -> usize
    ensures value { result ≡ longest_len grammar.makes_float text.now }
    ensures within { result ≤ length text.now }
    ensures reads { AreReads result (5 * result + 3) reads.old reads.new }
    ensures few { reads.new ≤ reads.old + (result + 4) }
{
    let [b'.', fraction @ ..] = text else {
        return exponent_len(reads, text);
    };
    reads.add(1);
    let digits = reads.digits_len(fraction, 10);
    1 + digits + exponent_len(reads, &fraction[digits..])
}

/// The longest integer with a base at the front of a text. The caller has counted the reads of the
/// first three bytes.
fn based_front(reads: &mut ReadCounter, text: &[u8]) -> Option<Word>
    ensures value { option_map word_view result ≡ longest_front (grammar.class_in grammar.based) text.now }
    ensures class { IfSome result (λ word. is_number word.class ≡ true) }
    ensures reads { AreReads (word_len result - 2) (word_len result) reads.old reads.new }
{
    match (byte_at(text, 0), byte_at(text, 1), byte_at(text, 2)) {
        (b'0', b'x' | b'X', digit) if digit.is_ascii_hexdigit() => Some(Word {
            class: Class::Hexadecimal,
            len: 2 + reads.digits_len(&text[2..], 16),
        }),
        (b'0', b'o' | b'O', b'0'..=b'7') => Some(Word {
            class: Class::Octal,
            len: 2 + reads.digits_len(&text[2..], 8),
        }),
        (b'0', b'b' | b'B', b'0' | b'1') => Some(Word {
            class: Class::Binary,
            len: 2 + reads.digits_len(&text[2..], 2),
        }),
        _ => None,
    }
}

/// Whether a text begins with a digit, and the next byte can't be part of a number.
#[inline(always)]
pub(crate) fn is_digit_alone(text: &[u8]) -> bool
    ensures { result ≡ is_digit_alone text.now }
{
    match text {
        [] => false,
        [first] => first.is_ascii_digit(),
        [first, next, ..] => first.is_ascii_digit() && !is_in_name(*next) && *next != b'.',
    }
}

/// The longest number at the front of a text that begins with one. The caller has counted the reads
/// of the first three bytes.
pub(crate) fn number_from(reads: &mut ReadCounter, text: &[u8]) -> Word
    requires { begins_number text.now ≡ true }
    ensures word { Some (word_view result) ≡ language_front text.now }
    ensures class { is_number result.class ≡ true }
    ensures reads { AreReads (result.len - 2) (5 * result.len) reads.old reads.new }
{
    if let Some(word) = based_front(reads, text) {
        return word;
    }
    let digits = reads.digits_len(text, 10);
    let more = float_end_len(reads, &text[digits..]);
    let class = if more == 0 {
        Class::Decimal
    } else {
        Class::Float
    };
    let len = digits + more;
    Word { class, len }
}
