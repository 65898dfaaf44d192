//! Decodes escapes: a backslash and the characters that belong to it.

ghost use Rattle.std.specs.Prelude.{◌≡◌, ◌≤◌, ◌<◌, ◌+◌, ◌-◌, ◌∷◌, [], false, true, drop, encode_utf8, get_or, length, nat_eq, take, IfSome};
ghost use Rattle.std.specs.Char.{is_ascii_hexdigit, is_digit};
ghost use Rattle.std.specs.List.{prefix_len};
ghost use Rattle.std.specs.Map.{lookup};
ghost use Rattle.std.specs.Str.Parse.{digits_value};
ghost use Rattle.starlark_grammar.specs.FrontCharacter as characters;
ghost use Rattle.starlark_grammar.specs.Items as grammar;
ghost use Rattle.starlark_words.specs.Inner.LiteralViews.{IsCharacters, IsText, found_len, found_view, literal_view, value_view};
ghost use Rattle.starlark_words.specs.Inner.Reads.{AreReads, more_reads};
ghost use Rattle.starlark_grammar.specs.Words.{Text, is_octal_digit};

use super::items::{Literal, Stop, Value, after_first, drops_backslash, part};
use crate::reads::{ReadCounter, uncounted_front};
use starlark_grammar::class::LiteralKind;

/// A bad escape that is broken off after `good` bytes: the character after them is the last one
/// read.
#[inline(always)]
fn broken<'a>(
    reads: &mut ReadCounter,
    good: usize,
    remainder: &str,
) -> Result<(usize, Value<'a>), Stop>
    requires { good ≤ 10 }
    ensures value { found_view result ≡ grammar.broken good remainder.now }
    ensures text { IsText result }
    ensures reads { AreReads (found_len result - good) (found_len result - good) reads.old reads.new }
    ensures len { good ≤ found_len result }
{
    let last = reads.character_len(remainder);
    Err(Stop::BadEscape {
        len: good + last,
        last: last.max(1),
    })
}

/// The escape of `len` bytes for the byte or the character of a number; a bad one if there is none.
#[inline(always)]
fn numbered<'a>(len: usize, is_byte: bool, number: u32) -> Result<(usize, Value<'a>), Stop>
    requires { len ≤ 10 }
    ensures value { found_view result ≡ grammar.numbered len is_byte number }
    ensures text { is_byte ≡ false → IsText result }
    ensures len { found_len result ≡ len }
{
    if is_byte {
        if let Ok(byte) = u8::try_from(number) {
            return Ok((len, Value::Byte(byte)));
        }
    } else if let Some(character) = char::from_u32(number) {
        return Ok((len, Value::Character(character)));
    }
    Err(Stop::BadEscape { len, last: 1 })
}

/// Number of digits of a radix at the start of at most 8 bytes, and their value.
#[inline(always)]
fn digits(bytes: &[u8], radix: u32) -> (usize, u32)
    requires low { 2 ≤ radix }
    requires high { radix ≤ 16 }
    requires few { length bytes.now ≤ 8 }
    ensures len { result.0 ≡ prefix_len (λ b. is_digit b radix) bytes.now }
    ensures number { result.1 ≡ digits_value radix (take result.0 bytes.now) }
{
    let mut len = 0;
    let mut number = 0u32;
    while len < bytes.len() {
        let Some(digit) = char::from(bytes[len]).to_digit(radix) else {
            return (len, number);
        };
        number = number * radix + digit;
        len += 1;
    }
    (len, number)
}

/// The escape of exactly `wanted` hexadecimal digits. `text` begins after its letter `x`, `u` or
/// `U`.
#[inline(always)]
fn hexadecimal<'a>(
    reads: &mut ReadCounter,
    wanted: usize,
    is_byte: bool,
    text: &str,
) -> Result<(usize, Value<'a>), Stop>
    requires least { 1 ≤ wanted }
    requires most { wanted ≤ 8 }
    ensures value { found_view result ≡ grammar.hexadecimal wanted is_byte text.now }
    ensures text { is_byte ≡ false → IsText result }
    ensures reads { AreReads (found_len result - 2) (found_len result) reads.old reads.new }
{
    let (len, number) = digits(uncounted_front(text.as_bytes(), wanted), 16);
    reads.count_run(len);
    if len != wanted {
        return broken(reads, 2 + len, &text[len..]);
    }
    numbered(2 + len, is_byte, number)
}

/// The escape of one to three octal digits. `text` begins with them.
#[inline(always)]
fn octal<'a>(reads: &mut ReadCounter, is_byte: bool, text: &str) -> Result<(usize, Value<'a>), Stop>
    requires { is_octal_digit (get_or text.now 0 0) ≡ true }
    ensures value { found_view result ≡ grammar.octal is_byte text.now }
    ensures text { is_byte ≡ false → IsText result }
    ensures reads { AreReads (found_len result - 2) (found_len result) reads.old reads.new }
{
    let (len, number) = digits(uncounted_front(text.as_bytes(), 3), 8);
    reads.count_run(len);
    numbered(1 + len, is_byte, number)
}

/// The escape of a CR LF, which is empty; a bad one if no LF follows. `remainder` begins after the CR.
#[inline(always)]
fn escaped_newline<'a>(reads: &mut ReadCounter, remainder: &str) -> Result<(usize, Value<'a>), Stop>
    ensures value { found_view result ≡ grammar.escaped_newline remainder.now }
    ensures text { IsText result }
    ensures reads { AreReads (found_len result - 2) (found_len result) reads.old reads.new }
{
    match reads.at(remainder.as_bytes(), 0) {
        Some(b'\n') => part(3, ""),
        _ => broken(reads, 2, remainder),
    }
}

// For each byte the character that a backslash before it stands for. Before `-` a backslash stays, and
// `.` is any other byte.
static SIMPLE: [u8; 256] = *b"\
    ----------.--.------------------\
    --\"----'--------........--------\
    ---------------------.------\\---\
    -\x07\x08---\x0c-------\n---\r-\t.\x0b-.-------\
    ................................\
    ................................\
    ................................\
    ................................";

/// The character of an escape of two bytes, such as `\n`, by its second byte, if it is one.
// By a table, without a jump by the byte, which the processor can't foresee (5 % of the time of
// escapes).
#[inline(always)]
fn simple_value(byte: u8) -> Option<char>
    ensures value { result ≡ lookup (nat_eq byte) grammar.simple_escapes }
    ensures ascii { IfSome result (λ value. value < 128) }
{
    match SIMPLE[byte as usize] {
        b'.' => None,
        b'-' => None,
        value => Some(char::from(value)),
    }
}

/// The character of the escape of two bytes at the start of the rest of a body, if it is one.
///
/// `front` is the first three bytes of the rest, read already.
#[inline(always)]
pub(crate) fn simple_escape(literal: Literal, front: &[u8]) -> Option<char>
    ensures { IfSome result (λ value. (text : Text) → front.now ≡ take 3 text → grammar.found_at (literal_view literal) text ≡ grammar.goes 2 (encode_utf8 value)) }
{
    let [first, second, ..] = front else {
        return None;
    };
    if *first != b'\\' || literal.opening.is_raw {
        return None;
    }
    simple_value(*second)
}

/// Whether the item at the start of the rest of a body has two bytes and stays as it is, such as `\w`.
///
/// `front` is the first three bytes of the rest, read already.
#[inline(always)]
pub(crate) fn is_kept_pair(literal: Literal, front: &[u8]) -> bool
    ensures { result ≡ true → (text : Text) → front.now ≡ take 3 text → grammar.found_at (literal_view literal) text ≡ grammar.goes 2 (take 2 text) }
{
    let [first, second, ..] = front else {
        return false;
    };
    if *first != b'\\' {
        return false;
    }
    if literal.opening.is_raw {
        return second.is_ascii() && !drops_backslash(literal.kind, literal.opening.quote, *second);
    }
    SIMPLE[*second as usize] == b'-'
}

/// The escape at the start of a text, which begins with its backslash: an item, or a bad escape.
/// `front` is the text's first three bytes, read already.
// Always, as `found_at`: as calls these cost 6 % of escapes.
#[inline(always)]
pub(crate) fn escape<'a>(
    reads: &mut ReadCounter,
    kind: LiteralKind,
    front: &[u8],
    text: &'a str,
) -> Result<(usize, Value<'a>), Stop>
    requires begins { text.now ≡ 92 ∷ drop 1 text.now }
    requires front { front.now ≡ take 3 text.now }
    ensures value { found_view result ≡ grammar.escape kind (drop 1 text.now) }
    ensures text { grammar.is_of_bytes kind ≡ false → IsText result }
    ensures reads { AreReads (found_len result - 2) (found_len result + 2) reads.old reads.new }
{
    let remainder = after_first(text);
    let Some(first) = front.get(1) else {
        return broken(reads, 1, remainder);
    };
    let is_byte = kind == LiteralKind::Bytes;
    match *first {
        b'0'..=b'7' => octal(reads, is_byte, remainder),
        b'\n' => part(2, ""),
        b'\r' => escaped_newline(reads, after_first(remainder)),
        b'x' => hexadecimal(reads, 2, is_byte, after_first(remainder)),
        b'u' => hexadecimal(reads, 4, false, after_first(remainder)),
        b'U' => hexadecimal(reads, 8, false, after_first(remainder)),
        _ => match simple_value(*first) {
            Some(value) => Ok((2, Value::Character(value))),
            // The backslash and the character after it stay.
            None => {
                let len = 1 + reads.character_len(remainder);
                part(len, &text[..len])
            }
        },
    }
}
