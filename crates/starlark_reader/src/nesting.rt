//! The nesting of brackets and f-strings at an offset of a text.

ghost use Rattle.std.specs.Prelude.{◌≡◌, ◌+◌, ◌<◌, ◌≤◌, ◌^◌, ◌∷◌, [], List, false, length, true, OnErr, OnOk};
ghost use Rattle.starlark_grammar.specs.Depths.{Curly, is_balanced, is_opening, mode_after};
ghost use Rattle.starlark_reader.specs.Inner.Nesting.{HasRoom, IsUnchanged, Represents, bracket_count, fstring_after, fstring_view, is_fstring_start, keeps_nesting, mode_view};
ghost use Rattle.starlark_reader.specs.Inner.PieceViews.{is_code};
ghost use Rattle.starlark_grammar.specs.Inner.Openings.{opening_view};
ghost use Rattle.starlark_grammar.specs.KeptLines.{is_closing_byte, is_opening_byte, with_bracket, with_brackets};
ghost use Rattle.starlark_token.specs.TokenViews.{Whole, token_view};
ghost use Rattle.starlark_grammar.specs.Pieces.{counts};
ghost use Rattle.starlark_grammar.specs.Tokens as grammar;

use starlark_grammar::class::Opening;
use starlark_token::tokens::Token;
use std::alloc::{AllocError, Global};

/// Whether a byte is an opening bracket.
fn opens_bracket(byte: u8) -> bool
    ensures { result ≡ is_opening_byte byte }
{
    matches!(byte, b'(' | b'[' | b'{')
}

/// Whether a byte is a closing bracket.
fn closes_bracket(byte: u8) -> bool
    ensures { result ≡ is_closing_byte byte }
{
    matches!(byte, b')' | b']' | b'}')
}

/// The lexer mode: code, f-string text, or f-string expression.
#[derive(Clone, Copy)]
pub enum LexerMode {
    /// Code outside of all f-strings.
    Outside,
    /// The text of an f-string.
    InText(Opening),
    /// An expression of an f-string, outside of the brackets in it: a `}` ends it.
    AtTop,
    /// An expression of an f-string, inside of brackets in it.
    Deeper,
}

/// An open f-string.
///
/// `braces` counts the `{` of its open expression and those open in it; it is 0 in the text.
/// `rounds` and `squares` are depths in the whole f-string.
#[derive(Clone, Copy)]
pub struct OpenFString {
    opening: Opening,
    braces: usize,
    rounds: usize,
    squares: usize,
}

impl OpenFString {
    /// Advances past one more of its tokens.
    #[tactic(auto, unfolding(starlark_token::specs::TokenViews::token_view))]
    #[inline(always)]
    fn pass(&mut self, token: &Token)
        ensures { HasRoom self.old → fstring_view self.new ≡ fstring_after (token_view token.now) (fstring_view self.old) }
    {
        match token {
            Token::OpeningRound => self.rounds = self.rounds.saturating_add(1),
            Token::ClosingRound => self.rounds = self.rounds.saturating_sub(1),
            Token::OpeningSquare => self.squares = self.squares.saturating_add(1),
            Token::ClosingSquare => self.squares = self.squares.saturating_sub(1),
            Token::OpeningCurly => self.braces = self.braces.saturating_add(1),
            Token::ClosingCurly => self.braces = self.braces.saturating_sub(1),
            Token::FStringExprStart => self.braces = 1,
            Token::FStringExprEnd => self.braces = 0,
            _ => {}
        }
    }
}

/// The open f-strings, the innermost last, and how many brackets were opened and closed so far.
#[derive(Drop)]
pub struct Nesting {
    fstrings: Vec<OpenFString>,
    opened: usize,
    closed: usize,
}

impl Nesting {
    /// The nesting at the start of a text. It doesn't allocate.
    pub(crate) fn new(alloc: Global) -> Self
        ensures begins { Represents [] result }
        ensures count { bracket_count result ≡ 0 }
    {
        Nesting {
            fstrings: Vec::new(alloc),
            opened: 0,
            closed: 0,
        }
    }

    /// The lexer mode.
    #[inline(always)]
    pub fn mode(&self) -> LexerMode
        ensures { (tokens : List grammar.Token) → Represents tokens self.now → mode_view result ≡ mode_after tokens }
    {
        let Some(innermost) = self.fstrings.last() else {
            return LexerMode::Outside;
        };
        if innermost.braces == 0 {
            LexerMode::InText(innermost.opening)
        } else if innermost.braces == 1 && innermost.rounds == 0 && innermost.squares == 0 {
            LexerMode::AtTop
        } else {
            LexerMode::Deeper
        }
    }

    /// Whether newlines count: no f-string is open, and as many brackets were opened as closed,
    /// whatever their shapes.
    #[inline(always)]
    pub(crate) fn counts_line_ends(&self) -> bool
        ensures { (tokens : List grammar.Token) → Represents tokens self.now → result ≡ counts (mode_after tokens) (is_balanced tokens) }
    {
        matches!(self.mode(), LexerMode::Outside) && self.opened == self.closed
    }

    /// Advances past a token that begins no f-string.
    #[inline(always)]
    pub(crate) fn pass(&mut self, token: &Token)
        requires room { bracket_count self.old + 2 < 2 ^ 64 }
        ensures passes { (tokens : List grammar.Token) (node : grammar.Token) → token_view token.now ≡ Whole node → is_fstring_start node ≡ false → (is_opening Curly node ≡ true → is_code (mode_after tokens) ≡ true) →
            Represents tokens self.old → Represents (node ∷ tokens) self.new }
        ensures count { bracket_count self.new ≤ bracket_count self.old + 1 }
        ensures stays { keeps_nesting (token_view token.now) ≡ true → self.new ≡ self.old }
    {
        match token {
            Token::OpeningRound | Token::OpeningSquare | Token::OpeningCurly => self.opened += 1,
            Token::ClosingRound | Token::ClosingSquare | Token::ClosingCurly => self.closed += 1,
            Token::FStringEnd => {
                self.fstrings.pop();
                return;
            }
            Token::FStringExprStart | Token::FStringExprEnd => {}
            _ => return,
        }
        if let Some(innermost) = self.fstrings.last_mut() {
            innermost.pass(token);
        }
    }

    /// Advances past a byte of an open quote, which is outside of f-strings: a closing bracket counts if
    /// more were opened than closed.
    fn pass_byte(&mut self, byte: u8)
        requires room { bracket_count self.old + 2 < 2 ^ 64 }
        ensures passes { (tokens : List grammar.Token) → Represents tokens self.old → Represents (with_bracket byte tokens) self.new }
        ensures count { bracket_count self.new ≤ bracket_count self.old + 1 }
    {
        if opens_bracket(byte) {
            self.pass(&Token::OpeningRound);
        } else if closes_bracket(byte) && self.closed < self.opened {
            self.pass(&Token::ClosingRound);
        }
    }

    /// Advances past the bytes of an open quote. Of these only brackets count.
    pub(crate) fn pass_quote(&mut self, bytes: &[u8])
        requires room { bracket_count self.old + length bytes.now + 2 < 2 ^ 64 }
        ensures passes { (tokens : List grammar.Token) → Represents tokens self.old → Represents (with_brackets tokens bytes.now) self.new }
        ensures count { bracket_count self.new ≤ bracket_count self.old + length bytes.now }
    {
        let mut at = 0;
        while at < bytes.len() {
            self.pass_byte(bytes[at]);
            at += 1;
        }
    }

    /// Advances past the start of an f-string. Nothing changes on `AllocError`.
    pub(crate) fn begin_fstring(&mut self, opening: Opening) -> Result<(), AllocError>
        ensures begins { OnOk result ((tokens : List grammar.Token) → Represents tokens self.old → Represents (grammar.FStringStart (opening_view opening) ∷ tokens) self.new) }
        ensures stays { OnErr result (IsUnchanged self.old self.new) }
        ensures count { bracket_count self.new ≡ bracket_count self.old }
    {
        self.fstrings.push(OpenFString {
            opening,
            braces: 0,
            rounds: 0,
            squares: 0,
        })?;
        Ok(())
    }
}
