//! Marks: quotes, symbols, and line ends, escaped or not, which are words of one to three bytes.

ghost use Rattle.std.specs.Prelude.{◌≡◌, ◌≤◌, ◌∷◌, [], IfSome, false};
ghost use Rattle.std.specs.Option.{option_map};
ghost use Rattle.starlark_words.specs.Inner.ScannedWords.{mark_front, word_len, word_view};
ghost use Rattle.starlark_grammar.specs.declared.class.Class.TheVariants as class;
ghost use Rattle.starlark_grammar.specs.declared.class.LiteralKind.TheVariants as kind;

use super::{Class, LiteralKind, Quote, Terminal, Word};
use starlark_grammar::terminals;

/// A `match` of three bytes on the marks, longer ones first.
macro_rules! longest_mark {
    (($first:ident, $second:ident, $third:ident) symbols {
        1 { $([$lone:literal] $lone_text:literal $symbol:ident = $lone_number:literal $lone_class:ident,)* }
        2 { $([$a:literal, $b:literal] $double_text:literal $double:ident = $double_number:literal $double_class:ident,)* }
        3 { $([$x:literal, $y:literal, $z:literal] $triple_text:literal $triple:ident = $triple_number:literal $triple_class:ident,)* }
    } names $names:tt) => {
        match ($first, $second, $third) {
            $(($x, $y, $z) => (Class::Fixed(Terminal::$triple), 3),)*
            (b'\\', b'\r', b'\n') => (Class::Skipped, 3),
            $(($a, $b, _) => (Class::Fixed(Terminal::$double), 2),)*
            (b'\r', b'\n', _) => (Class::LineEnd, 2),
            (b'\\', b'\n', _) => (Class::Skipped, 2),
            (b'.', b'0'..=b'9', _) => return None,
            $(($lone, _, _) => (Class::Fixed(Terminal::$symbol), 1),)*
            (b'\n', _, _) => (Class::LineEnd, 1),
            (b'\'', _, _) => (quote(Quote::Single), 1),
            (b'"', _, _) => (quote(Quote::Double), 1),
            _ => return None,
        }
    };
}

/// A quote that opens a text literal.
#[inline(always)]
fn quote(quote: Quote) -> Class
    ensures { result ≡ class.Opener kind.Text false quote }
{
    Class::Opener {
        kind: LiteralKind::Text,
        is_raw: false,
        quote,
    }
}

/// The longest mark at the front of three bytes, of which those after the text's end are 0. `None`
/// if there is none, as where a point begins a number.
#[tactic(auto, unfolding(starlark_grammar::specs::Front::longest_front, starlark_grammar::specs::Words::line_ends, starlark_grammar::specs::Words::symbols, crate::specs::Inner::ScannedWords::marks))]
#[inline(always)]
pub(crate) fn mark(first: u8, second: u8, third: u8) -> Option<Word>
    ensures word { option_map word_view result ≡ mark_front (first ∷ second ∷ third ∷ []) }
    ensures some { IfSome result (λ word. 1 ≤ word.len) }
    ensures len { word_len result ≤ 3 }
    ensures two { third ≡ 0 → word_len result ≤ 2 }
{
    let (class, len) = terminals!(longest_mark!(first, second, third));
    Some(Word { class, len })
}
