//! How far a text is lexed into buffers, and where it may be cut.

ghost use Rattle.std.specs.Prelude.{◌≡◌, ◌≤◌, true, length};
ghost use Rattle.starlark_c.specs.Inner.Filling.{ends_line, wanted_with};
ghost use Rattle.starlark_c.specs.Records.{stored_bytes, value_bytes};
ghost use Rattle.starlark_c.specs.TextParts.{home, stored};
ghost use Rattle.starlark_grammar.specs.Words.{Text};
ghost use Rattle.starlark_lexemes.specs.PlainLexemes.{IsPlainIn, is_plain, plain_view};
ghost use Rattle.starlark_token.specs.Lexemes.{lexeme_view};
ghost use Rattle.starlark_token.specs.TokenViews.{token_view};

use crate::endings::Filled;
use crate::records::{bytes_of, stored_bytes};
use crate::text_parts::{part_of, stored_plain};
use starlark_syntax::lexer::{Kind, Passed, Token};

/// An offset where the text may be cut, and what fills the buffers before it.
#[derive(Clone, Copy)]
pub struct CutPoint {
    /// Offset in bytes.
    pub at: usize,
    /// What fills the buffers before it. No lexemes: there is no such offset yet.
    pub filled: Filled,
    /// Whether the text is the front of a longer one, which may be cut there whatever follows.
    pub is_front: bool,
}

/// What fills the buffers, and the last offset where the text may be cut.
#[derive(Clone, Copy)]
pub struct FillState {
    /// What fills the buffers.
    pub filled: Filled,
    /// The last offset where the text may be cut.
    pub stop: CutPoint,
}

/// What is wanted with one more token, whose value may be a part of the text.
pub fn want(filled: Filled, part: Option<usize>, token: &Token) -> Filled
    ensures { result ≡ wanted_with filled (stored part (value_bytes (token_view token.now))) }
{
    filled.with(1, stored_bytes(part, bytes_of(token)).len())
}

/// What is wanted with one more plain lexeme of a text.
pub fn want_plain(filled: Filled, text: &str, stays: bool, plain: Passed) -> Filled
    requires { IsPlainIn text.now plain }
    ensures { result ≡ wanted_with filled (stored_bytes (home stays text.now) (plain_view text.now plain)) }
{
    filled.with(1, stored_plain(text, stays, plain).len())
}

/// What is wanted with one more lexeme of a text, which it drops.
pub fn want_lexeme(filled: Filled, text: &str, stays: bool, lexeme: (usize, Token, usize)) -> Filled
    requires { lexeme.2 ≤ length text.now }
    ensures { result ≡ wanted_with filled (stored_bytes (home stays text.now) (lexeme_view lexeme)) }
{
    want(filled, part_of(text, stays, &lexeme), &lexeme.1)
}

/// Whether a plain lexeme can be the last of its line, and so the last before a cut: a `Newline`, or a
/// comment.
#[inline(always)]
pub fn is_last_of_line(plain: Passed) -> bool
    requires { is_plain plain.kind ≡ true }
    ensures { (text : Text) → result ≡ ends_line (plain_view text plain).node }
{
    matches!(plain.kind, Kind::Newline | Kind::Comment)
}

impl CutPoint {
    /// There is no offset yet, in a text or the front of one.
    pub const fn none(is_front: bool) -> CutPoint
        ensures { result ≡ record { at = 0; filled = record { lexemes = 0; values = 0 }; is_front = is_front } }
    {
        CutPoint {
            at: 0,
            filled: Filled::NOTHING,
            is_front,
        }
    }
}

impl FillState {
    /// Nothing is lexed yet of a text or the front of one.
    pub const fn new(is_front: bool) -> FillState
        ensures { result ≡ record { filled = record { lexemes = 0; values = 0 }; stop = record { at = 0; filled = record { lexemes = 0; values = 0 }; is_front = is_front } } }
    {
        FillState {
            filled: Filled::NOTHING,
            stop: CutPoint::none(is_front),
        }
    }

    /// Makes an offset, up to which the buffers are filled, the last one where the text may be cut.
    // Not inlined: else each lexeme, and not each last one of a line, chooses between two stops.
    #[inline(never)]
    pub fn set_stop(&mut self, at: usize)
        ensures { self.new ≡ record self.old { stop = record { at = at; filled = self.old.filled; is_front = self.old.stop.is_front } } }
    {
        self.stop = CutPoint {
            at,
            filled: self.filled,
            is_front: self.stop.is_front,
        };
    }
}
