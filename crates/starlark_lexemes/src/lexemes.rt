//! The lexer, which yields the lexemes of a text one by one.

ghost use Rattle.std.specs.Prelude.{◌≡◌, ◌≤◌, ◌+◌, ◌*◌, ◌^◌, ◌<◌, ◌↔◌, ◌||◌, ℕ, None, Some, length, true, false, IfOk, IfSome, IsErr, OnOk};
ghost use Rattle.std.specs.List.{slice_get};
ghost use Rattle.starlark_lexemes.specs.Lexer.{AnswersBetween, AnswersNext, AnswersWithin, HasReadFor, is_ended_by, yielded_by};
ghost use Rattle.starlark_lexemes.specs.CutAfter.{IsCutAfter, KnowsCut};
ghost use Rattle.starlark_lexemes.specs.LexerSteps.{HasReadForStep, IsStepIn, KnowsCutAfter, StepsTo, is_ended_by_step, stepped_by};
ghost use Rattle.starlark_token.specs.TextItems.{items};

use crate::lexer_state::LexerState;
use crate::passed::Passed;
use starlark_base::codemap::{CodeMap, OrMemory, SourceTooLong};
use starlark_base::dialect::Dialect;
use starlark_errors::eval_exception::EvalException;
use starlark_token::tokens::Token;
use std::alloc::Global;
use std::marker::Model;

/// An item of a lexer: begin in bytes, token, end in bytes; or the fault, or out of memory.
pub type Lexeme = Result<(usize, Token, usize), OrMemory<EvalException>>;

/// What a step of a lexer yields: a plain lexeme, or what `Lexer::next` returns for anything else.
pub enum Step {
    Plain(Passed),
    Other(Option<Lexeme>),
}

/// A lexer: an iterator over the lexemes of a text, up to its first fault if it has one.
///
/// Any error ends it. In a contract it is its text, its code map, how many items it has yielded,
/// whether an error has ended it, and how often it has read bytes. It is also where its text may be
/// cut, if it knows that.
#[derive(Drop)]
pub struct Lexer<'a> {
    state: LexerState<'a>,
    code_map: CodeMap,
    alloc: Global,
}

impl<'a> Model for Lexer<'a> {
    ghost use Rattle.starlark_lexemes.specs.Inner.LexerStates.{IsLexing, lexer_view, whole};
    ghost use Rattle.starlark_lexemes.specs.Lexer.{LexerView};

    ghost Value = { LexerView };

    ghost view = { λ lexer. lexer_view lexer.state lexer.code_map };

    ghost invariant = { λ lexer. IsLexing (whole lexer.state.reader.text.now) lexer.state };
}

impl<'a> Lexer<'a> {
    /// A lexer of a text, whose fault gets a span of the code map. It doesn't allocate.
    ///
    /// Fails where the text has more than 4294967295 bytes, and drops the code map then. The
    /// dialect has no effect. A text of `n` bytes yields at most `2 * n + 1` items.
    pub fn new(
        alloc: Global,
        input: &'a str,
        _dialect: &Dialect,
        code_map: CodeMap,
    ) -> Result<Lexer<'a>, SourceTooLong>
        ensures ok { IfOk result (λ lexer. lexer ≡ record { text = input.now; code_map = code_map; yielded_count = 0; has_ended = false; reads = 0; cut = None }) }
        ensures few { IfOk result (λ lexer. length (items lexer.text) ≤ 2 * length input.now + 1) }
        ensures too_long { IsErr result ↔ (2 ^ 32 ≤ length input.now) }
    {
        if input.len() > u32::MAX as usize {
            return Err(SourceTooLong);
        }
        Ok(Lexer {
            state: LexerState::new(alloc, input),
            code_map,
            alloc,
        })
    }

    /// Returns the next lexeme or the fault; `None` after the last lexeme, and after any error.
    ///
    /// The first error ends the lexer, out of memory too. A lexeme or fault lies in the text, and
    /// begins and ends at character boundaries.
    // Inlined at each call: an item that a call returns is zeroed and copied (20 % of a mix).
    #[inline(always)]
    pub fn next(&mut self) -> Option<Lexeme>
        ensures ended { self.old.has_ended ≡ true → AnswersNext self.old.code_map None result }
        ensures item { self.old.has_ended ≡ false → AnswersNext self.old.code_map (slice_get (items self.old.text) self.old.yielded_count) result }
        ensures within { AnswersWithin self.old.text result }
        ensures between { AnswersBetween self.old.text result }
        ensures after { self.new ≡ record self.old { yielded_count = self.old.yielded_count + yielded_by result; has_ended = self.old.has_ended || is_ended_by result; reads = self.new.reads; cut = self.new.cut } }
        ensures cut { IfSome result (λ item. OnOk item (KnowsCut self.new.text self.new.yielded_count self.new.cut)) }
        ensures reads { self.old.has_ended ≡ false → HasReadFor self.old.text result self.new.reads }
    {
        let item = self.state.next();
        if item.is_some() {
            return item;
        }
        // Not `None`: then the item would be dropped, which is inlined, too.
        if !self.state.has_fault() {
            return item;
        }
        Some(Err(self.state.take_exception(&self.code_map)))
    }

    /// Yields the next item as `next` does, but a plain lexeme without its token, so that no value is
    /// allocated.
    ///
    /// Plain are names, keywords, symbols, `Newline`, `Indent`, `Dedent`, comments, string literals
    /// without escapes that one quote closes, and of f-strings a text without escapes, and what ends it.
    /// Some of them, as the last `Newline` of a text, are yielded with their tokens.
    #[inline(always)]
    pub fn step(&mut self) -> Step
        ensures ended { self.old.has_ended ≡ true → StepsTo self.old.code_map self.old.text None result }
        ensures item { self.old.has_ended ≡ false → StepsTo self.old.code_map self.old.text (slice_get (items self.old.text) self.old.yielded_count) result }
        ensures within { IsStepIn self.old.text result }
        ensures after { self.new ≡ record self.old { yielded_count = self.old.yielded_count + stepped_by result; has_ended = self.old.has_ended || is_ended_by_step result; reads = self.new.reads; cut = self.new.cut } }
        ensures cut { KnowsCutAfter self.new.text self.new.yielded_count self.new.cut result }
        ensures reads { self.old.has_ended ≡ false → HasReadForStep self.old.text result self.new.reads }
    {
        let passed = self.state.advance();
        if passed.kind.is_plain() {
            return Step::Plain(passed);
        }
        let item = self.state.made_item(passed);
        if item.is_some() {
            return Step::Other(item);
        }
        if !self.state.has_fault() {
            return Step::Other(item);
        }
        Step::Other(Some(Err(self.state.take_exception(&self.code_map))))
    }

    /// Offset in bytes where the text may be cut, if the lexemes yielded so far are those before it.
    ///
    /// The text up to the offset is a clean cut. Its lexemes but the closing `Newline` are those
    /// yielded so far; the text's other lexemes are those of the rest, moved. The offset is before the
    /// end of the text. `None` where there is no such offset, and after any error. Right after a lexeme
    /// each is found. No byte is read.
    #[inline(always)]
    pub fn cut(&self) -> Option<usize>
        ensures kept { IfSome result (IsCutAfter self.now.text self.now.yielded_count) }
        ensures known { (at : ℕ) → self.now.cut ≡ Some at → result ≡ Some at }
        ensures going { IfSome result (λ at. self.now.has_ended ≡ false) }
    {
        if self.state.has_ended {
            return None;
        }
        self.state.reader.cut()
    }

    /// Number of reads of bytes so far.
    ///
    /// A byte that is read twice counts twice, lookahead counts, and so does each byte of a SIMD step.
    /// For a text of `n` bytes it is at most `16 * (n + 1)`, and at least `n` after the last lexeme of a
    /// text without fault. At a fault the upper bound is that for the bytes up to where lexing begins
    /// again, and the lower one that for the bytes before the fault. After out of memory nothing is
    /// promised.
    pub fn reads(&self) -> u64
        ensures { result ≡ self.now.reads }
    {
        self.state.reader.reads.count()
    }
}

impl<'a> Iterator for Lexer<'a> {
    ghost use Rattle.starlark_lexemes.specs.LexerIterator.{IsNextOf, items_left};

    type Item = Lexeme;

    ghost next_gives = { IsNextOf };

    ghost remaining = { items_left };

    fn next(&mut self) -> Option<Lexeme> {
        Lexer::next(self)
    }
}
