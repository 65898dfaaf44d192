//! Lexes a text up to the first offset where it can be cut, or to its end.

ghost use Rattle.starlark_grammar.specs.Joining as spec;
ghost use Rattle.std.specs.Prelude.{◌≡◌, ◌≤◌, ◌<◌, ◌++◌, ◌||◌, ◌==◌, ◌∷◌, [], IfOk, List, IsSome, OnOk, Some, drop, length, false, not, true};
ghost use Rattle.std.specs.Str.{IsCharBoundary, byte};
ghost use Rattle.starlark_base.specs.Sources.{SourceFile};
ghost use Rattle.starlark_document.specs.Documents.{is_line_end, may_end};
ghost use Rattle.starlark_document.specs.Inner.LexedFronts.{IsLexedFront, is_dedent_item, is_dedent_view};
ghost use Rattle.starlark_document.specs.Inner.Segments.{IsPlaced};
ghost use Rattle.starlark_grammar.specs.Margins.{is_blank, is_lf};
ghost use Rattle.starlark_grammar.specs.Tokens.{Fault, Spanned};
ghost use Rattle.starlark_grammar.specs.Words.{Text};
ghost use Rattle.starlark_recovery.specs.RecoveringLexer.{is_memory, left_after};
ghost use Rattle.starlark_errors.specs.Exceptions.{IsException};
ghost use Rattle.starlark_lexemes.specs.Lexer.{Answers, AnswersBetween, AnswersWithin};
ghost use Rattle.starlark_token.specs.Lexemes.{lexeme_view};
ghost use Rattle.starlark_token.specs.TextItems.{Given, LexerItem};
ghost use Rattle.starlark_token.specs.TokenViews.{token_view};

use crate::segments::{PlacedFault, PlacedToken};
use starlark_syntax::codemap::OrMemory;
use starlark_syntax::eval_exception::EvalException;
use starlark_syntax::lexer::Lexeme;
use starlark_token::tokens::Token;
use std::alloc::{AllocError, Global};

/// Whether a byte is content, and not a blank, an LF or the start of a comment.
fn is_plain(b: u8) -> bool
    ensures { result ≡ not (is_blank b || is_lf b || b == byte "#") }
{
    !matches!(b, b' ' | b'\t' | b'\r' | b'\n' | b'#')
}

/// Whether a text begins with content, and not with a blank, a comment or a newline.
#[tactic(auto, unfolding(starlark_grammar::specs::Joining::begins_plainly))]
pub fn begins_plainly(text: &[u8]) -> bool
    ensures { result ≡ spec.begins_plainly text.now }
{
    match text {
        [byte, ..] => is_plain(*byte),
        [] => false,
    }
}

/// Whether a segment may end at byte `at` of a text, after a `Newline`. It and what is left get at
/// least `least_len` bytes.
fn can_end(text: &str, at: usize, least_len: usize) -> bool
    requires { at ≤ length text.now }
    ensures { result ≡ may_end least_len text.now at }
{
    at >= least_len && text.len() - at >= least_len && begins_plainly(&text.as_bytes()[at..])
}

/// Whether a token is `Dedent`.
#[tactic(auto, unfolding(starlark_token::specs::TokenViews::token_view))]
fn is_dedent_token(token: &Token) -> bool
    ensures { result ≡ is_dedent_view (token_view token.now) }
{
    matches!(token, Token::Dedent)
}

/// Whether an item of a lexer is a `Dedent`. Fails where the lexer ran out of memory.
fn is_dedent(item: &Lexeme) -> Result<bool, AllocError>
    ensures dedent { IfOk result (λ is. (file : SourceFile) (next : LexerItem) → Answers file next item.now → is ≡ is_dedent_item next) }
    ensures going { OnOk result (is_memory (Some item.now) ≡ false) }
{
    match item {
        Ok((_, token, _)) => Ok(is_dedent_token(token)),
        Err(OrMemory::Error(_)) => Ok(false),
        Err(OrMemory::Memory) => Err(AllocError),
    }
}

/// The fault of an exception that has a span.
fn placed_fault(exception: EvalException) -> PlacedFault
    requires { IsSome exception.span }
    ensures { (file : SourceFile) (fault : Spanned Fault) → IsException file fault exception → IsPlaced fault result }
{
    let span = exception.error().span().unwrap().span;
    PlacedFault {
        begin: span.begin().get() as usize,
        end: span.end().get() as usize,
        exception,
    }
}

/// Number of lexemes that a list has room for, at most, after those that it has.
pub const SPARE_LEXEMES: usize = 4;

/// Whether a lexeme is a `Newline` of some bytes.
fn ends_line(lexeme: &PlacedToken) -> bool
    ensures { result ≡ is_line_end (lexeme_view lexeme.now) }
{
    lexeme.1.is_newline() && lexeme.0 < lexeme.2
}

/// What is found in the front of a text.
#[derive(Drop)]
pub struct LexedFront {
    /// The lexemes so far.
    pub lexemes: Vec<PlacedToken>,
    /// The faults so far.
    pub faults: Vec<PlacedFault>,
    /// The end of the last `Newline` of some bytes, or 0.
    pub line_end: usize,
    /// Whether the text can be cut there. Then only `Dedent`s came after it.
    pub is_cut: bool,
    /// The least length of a segment in bytes.
    pub least_len: usize,
}

impl LexedFront {
    /// The front before the first item, with room for `likely_count` lexemes and some more.
    pub fn new(
        alloc: Global,
        least_len: usize,
        likely_count: usize,
    ) -> Result<LexedFront, AllocError>
        ensures front { IfOk result (λ front. (text : Text) → IsLexedFront text [] front) }
        ensures least { IfOk result (λ front. front.least_len ≡ least_len) }
    {
        Ok(LexedFront {
            lexemes: Vec::with_capacity(alloc, likely_count.saturating_add(SPARE_LEXEMES))?,
            faults: Vec::new(alloc),
            line_end: 0,
            is_cut: false,
            least_len,
        })
    }

    /// Takes the next lexeme.
    fn take_lexeme(&mut self, text: &str, lexeme: PlacedToken) -> Result<(), AllocError>
        requires within { lexeme.2 ≤ length text.now }
        requires boundary { IsCharBoundary text.now lexeme.2 }
        requires front { (items : List LexerItem) × IsLexedFront text.now items self.old }
        requires cut { self.old.is_cut ≡ true → is_dedent_item (Given (lexeme_view lexeme)) ≡ true }
        ensures front { OnOk result ((items : List LexerItem) → IsLexedFront text.now items self.old → IsLexedFront text.now (items ++ (Given (lexeme_view lexeme) ∷ [])) self.new) }
        ensures least { self.new.least_len ≡ self.old.least_len }
    {
        if ends_line(&lexeme) {
            self.line_end = lexeme.2;
            self.is_cut = can_end(text, lexeme.2, self.least_len);
        }
        Ok(self.lexemes.push(lexeme)?)
    }

    /// Whether the text is to be cut before the next item of a lexer. Fails where the lexer ran out
    /// of memory.
    pub fn ends_before(&self, item: &Lexeme) -> Result<bool, AllocError>
        ensures cut { IfOk result (λ ends. ends ≡ true → self.now.is_cut ≡ true) }
        ensures going { IfOk result (λ ends. ends ≡ true → is_memory (Some item.now) ≡ false) }
        ensures ends { IfOk result (λ ends. ends ≡ true → (file : SourceFile) (next : LexerItem) → Answers file next item.now → is_dedent_item next ≡ false) }
        ensures goes { IfOk result (λ ends. ends ≡ false → self.now.is_cut ≡ true → (file : SourceFile) (next : LexerItem) → Answers file next item.now → is_dedent_item next ≡ true) }
    {
        if !self.is_cut {
            return Ok(false);
        }
        Ok(!is_dedent(item)?)
    }

    /// Takes the next item of a lexer of the text.
    pub fn take(&mut self, text: &str, item: Lexeme) -> Result<(), AllocError>
        requires answered { (file : SourceFile) × (next : LexerItem) × Answers file next item }
        requires within { AnswersWithin text.now (Some item) }
        requires between { AnswersBetween text.now (Some item) }
        requires front { (items : List LexerItem) × IsLexedFront text.now items self.old }
        requires cut { self.old.is_cut ≡ true → (file : SourceFile) (next : LexerItem) → Answers file next item → is_dedent_item next ≡ true }
        ensures front { OnOk result ((file : SourceFile) (next : LexerItem) (items : List LexerItem) → Answers file next item → IsLexedFront text.now items self.old → IsLexedFront text.now (items ++ (next ∷ [])) self.new) }
        ensures going { OnOk result ((left : List LexerItem) → left_after (Some item) left ≡ drop 1 left) }
        ensures memory { OnOk result (is_memory (Some item) ≡ false) }
        ensures least { self.new.least_len ≡ self.old.least_len }
    {
        match item {
            Ok(lexeme) => self.take_lexeme(text, lexeme),
            Err(OrMemory::Error(exception)) => Ok(self.faults.push(placed_fault(exception))?),
            Err(OrMemory::Memory) => Err(AllocError),
        }
    }
}
