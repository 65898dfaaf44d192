//! Words that begin with a letter or `_`: keywords, reserved words, identifiers, and openers with a
//! prefix.

ghost use Rattle.std.specs.Prelude.{◌≡◌, ◌<◌, ◌≤◌, ◌+◌, ◌-◌, ◌*◌, ◌^◌, ◌++◌, ◌∷◌, [], IfSome, Some, length, nat_eq, take, true};
ghost use Rattle.std.specs.List.{prefix_len};
ghost use Rattle.std.specs.Map.{lookup};
ghost use Rattle.std.specs.Str.{bytes_eq};
ghost use Rattle.starlark_grammar.specs.Front.{language_front};
ghost use Rattle.starlark_words.specs.Inner.Reads.{AreReads};
ghost use Rattle.starlark_words.specs.Inner.ScannedWords.{class_of_name, keyword_kinds, word_number, word_view};
ghost use Rattle.starlark_grammar.specs.Items.{quote_byte};
ghost use Rattle.starlark_grammar.specs.Words as grammar;
ghost use Rattle.starlark_grammar.specs.declared.class.Class.TheVariants as class;

use super::{Class, LiteralKind, Quote, Terminal, Word};
use crate::names::name_len;
use crate::reads::{ReadCounter, byte_at};
use starlark_grammar::terminals;

/// The greatest length of a literal's prefix.
const PREFIX_LEN: usize = 2;

/// The factor that gives each word a slot of its own among the eight of its length.
const FACTOR: u64 = 0x3c1be0e2a8533663;

/// The number of a word of a known length: its bytes, the first one lowest.
macro_rules! number {
    ($word:literal $len:literal) => { number!($word, $len 0 1 2 3 4 5 6 7) };
    ($word:literal, $len:literal $($at:literal)*) => {
        (0 $(| ($word[$at % $len] as u64 * ($at < $len) as u64) << (8 * $at))*)
    };
}

/// The value of the word of a length in each slot, 0 where there is none.
macro_rules! slots {
    (in $($words:tt { $($slot:literal)* })*) => { [$($(slots!(at $slot $words)),*),*] };
    (at $slot:literal [$(($word:expr, $value:expr))*]) => {
        0 $(| ((u64::wrapping_mul($word, FACTOR) >> 61 == $slot) as u64) * $value)*
    };
    ($($words:tt)*) => { slots!(in $($words { 0 1 2 3 4 5 6 7 })*) };
}

/// The numbers of the listed words, by length and slot; the numbers of the keywords' kinds, 0 for
/// reserved words.
macro_rules! listed {
    (() symbols $symbols:tt names { $($len:tt {
        $($bytes:literal $text:literal $keyword:ident = $kind:literal,)*;
        $($reserved:literal $word:literal),*
    })* }) => {
        (
            slots!([] [] $([
                $((number!($bytes $len), number!($bytes $len)))*
                $((number!($reserved $len), number!($reserved $len)))*
            ])*),
            slots!([] [] $([$((number!($bytes $len), $kind))*])*),
        )
    };
}

static LISTED: ([u64; 72], [u64; 72]) = terminals!(listed!());

/// The bits of the first bytes of a number, by how many bytes they are.
macro_rules! masks {
    ($($len:literal)*) => { [0, $(!0 >> (64 - 8 * $len)),*] };
}

static MASKS: [u64; 9] = masks!(1 2 3 4 5 6 7 8);

/// A `match` of a kind's number, with its keyword.
macro_rules! keyword_by_kind {
    (($kind:ident) symbols $symbols:tt names { $($len:tt {
        $($bytes:literal $text:literal $keyword:ident = $number:literal,)*; $($reserved:tt)*
    })* }) => {
        match $kind { $($($number => Some(Terminal::$keyword),)*)* _ => None }
    };
}

/// The keyword of a kind's number; `None` if that is no keyword's.
// As a call: inlined, the caller compares all kinds (0.7 % of a mix).
#[tactic(auto, unfolding(starlark_grammar::specs::Words::symbols))]
#[inline(never)]
fn keyword(kind: u64) -> Option<Terminal>
    ensures { result ≡ lookup (nat_eq kind) keyword_kinds }
{
    terminals!(keyword_by_kind!(kind))
}

/// The number of a text of fewer than eight bytes.
// Not the array: the caller would keep it in memory, and class by class with it (4 % of a mix).
#[inline(never)]
fn short_number(text: &[u8]) -> u64
    requires { length text.now < 8 }
    ensures { result ≡ word_number text.now }
{
    let mut front = [0; 8];
    front[..text.len()].copy_from_slice(text);
    u64::from_le_bytes(front)
}

/// The number of the name of `len` bytes at the front of a text.
#[inline(always)]
fn name_number(text: &[u8], len: usize) -> u64
    requires within { len ≤ length text.now }
    requires short { len ≤ 8 }
    ensures { result ≡ word_number (take len text.now) }
{
    let front = match text.first_chunk::<8>() {
        Some(front) => u64::from_le_bytes(*front),
        None => short_number(text),
    };
    front & MASKS[len]
}

/// The class of the name of `len` bytes at the front of a text.
#[inline(always)]
fn name_class(text: &[u8], len: usize) -> Class
    requires some { 0 < len }
    requires len { len ≡ prefix_len grammar.is_in_name text.now }
    ensures { result ≡ class_of_name (take len text.now) }
{
    if len >= MASKS.len() {
        return Class::Identifier;
    }
    let number = name_number(text, len);
    let slot = 8 * len + (number.wrapping_mul(FACTOR) >> 61) as usize;
    if LISTED.0[slot] != number {
        return Class::Identifier;
    }
    match keyword(LISTED.1[slot]) {
        Some(terminal) => Class::Fixed(terminal),
        None => Class::Reserved,
    }
}

/// The opener of a literal with a prefix; `None` if the name is no prefix.
#[tactic(auto, unfolding(starlark_grammar::specs::Words::openers))]
#[inline(never)]
fn opener_class(prefix: &[u8], quote: Quote) -> Option<Class>
    requires { 0 < length prefix.now }
    ensures { result ≡ lookup (bytes_eq (prefix.now ++ quote_byte quote ∷ [])) grammar.openers }
{
    let (kind, is_raw) = match prefix {
        [b'r'] => (LiteralKind::Text, true),
        [b'f'] => (LiteralKind::FString, false),
        [b'b'] => (LiteralKind::Bytes, false),
        [b'f', b'r'] | [b'r', b'f'] => (LiteralKind::FString, true),
        [b'b', b'r'] | [b'r', b'b'] => (LiteralKind::Bytes, true),
        _ => return None,
    };
    Some(Class::Opener {
        kind,
        is_raw,
        quote,
    })
}

/// Opener at the front of a text that begins with a name of `len` bytes: that name as a prefix, and
/// the next byte as its quote.
#[inline(always)]
fn prefixed_opener(text: &[u8], len: usize) -> Option<Class>
    requires begins { grammar.begins grammar.is_name_start text.now ≡ true }
    requires len { len ≡ prefix_len grammar.is_in_name text.now }
    ensures opener { result ≡ lookup (bytes_eq (take (len + 1) text.now)) grammar.openers }
    ensures within { IfSome result (λ class. len < length text.now) }
{
    if len > PREFIX_LEN {
        return None;
    }
    let quote = match byte_at(text, len) {
        b'\'' => Quote::Single,
        b'"' => Quote::Double,
        _ => return None,
    };
    opener_class(&text[..len], quote)
}

/// The longest word at the front of a text that begins with a letter or `_`. Counts `passed` reads
/// besides, with that of this byte.
#[inline(always)]
pub(crate) fn name_from(reads: &mut ReadCounter, passed: usize, text: &str) -> Word
    requires begins { grammar.begins grammar.is_name_start text.now ≡ true }
    requires few { passed < 2 ^ 33 }
    ensures word { Some (word_view result) ≡ language_front text.now }
    ensures reads { AreReads (passed + (result.len - 1)) (passed + (5 * result.len - 4)) reads.old reads.new }
{
    let bytes = text.as_bytes();
    let len = 1 + name_len(reads, passed, &bytes[1..]);
    let (class, len) = match prefixed_opener(bytes, len) {
        Some(class) => (class, len + 1),
        None => (name_class(bytes, len), len),
    };
    Word { class, len }
}
