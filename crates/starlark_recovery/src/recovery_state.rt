//! The state of a lexer that goes on after faults.

ghost use Rattle.std.specs.Prelude.{◌≡◌, ◌≤◌, ◌<◌, ◌+◌, ◌^◌, IsSome, None, Some, false, length, true};
ghost use Rattle.starlark_grammar.specs.Depths.{is_outside};
ghost use Rattle.starlark_grammar.specs.KeptLines.{is_bad_escape, passed_end};
ghost use Rattle.starlark_grammar.specs.Tokens.{Fault, Spanned};
ghost use Rattle.starlark_reader.specs.Inner.Nesting.{mode_view};
ghost use Rattle.starlark_reader.specs.Inner.Reader.{IsRaw};
ghost use Rattle.starlark_lexemes.specs.Inner.LexerStates.{AreReadsTo};
ghost use Rattle.starlark_recovery.specs.Inner.RecoveryStates.{HasPassedOn, IsAdvanced, IsPaidTo, IsRecovering, IsStopped, StandsFor, is_end, is_open_here, last_comment, part_of, stays_open_here, view_of, with_literal_here};
ghost use Rattle.starlark_recovery.specs.RecoveringLexer.{IsNextOf, all_items};
ghost use Rattle.starlark_token.specs.Lexemes.{fault_view};
ghost use Rattle.starlark_token.specs.TokenViews.{token_view};

use crate::kept_lines::{is_unfinished, keeps_line, passed_end};
use crate::literal_rests::{OPENING_LEN, is_bad_escape, literal_opening, literal_rest};
use crate::passed_faults::{is_tab, pass};
use crate::stand_ins::{LITERAL_PEEKS, QUOTE_PEEKS, word_stand_in, written_literal, written_quote};
use starlark_base::codemap::{CodeMap, OrMemory};
use starlark_errors::eval_exception::EvalException;
use starlark_errors::fault_exception::exception;
use starlark_lexemes::lexemes::Lexeme;
use starlark_lexemes::lexer_state::LexerState;
use starlark_reader::nesting::LexerMode;
use starlark_token::lexeme_error::LexemeError;
use starlark_token::tokens::Token;
use std::alloc::Global;

/// The state of a lexer that goes on after faults.
///
/// It lexes a part of the text: from its start, from the line after the last fault that ended its
/// line, or from the line end after an open quote. After a fault that keeps its line lexing goes on in
/// the part, with all that was open.
#[derive(Drop)]
pub struct RecoveryState<'a> {
    alloc: Global,
    text: &'a str,
    /// Where the part begins, in bytes.
    begin: usize,
    state: LexerState<'a>,
    code_map: CodeMap,
    fault_count: usize,
    /// The number of lexemes since the last fault up to the last comment, and where that ends in the
    /// part.
    comment: Option<(usize, usize)>,
    /// The lexeme that stands for the last fault, with its place in the text, until it is yielded.
    stand_in: Option<(usize, Token, usize)>,
    /// Number of lexemes that stand for the last fault and were yielded.
    stand_in_count: usize,
    /// Number of reads that found the part, and that looked at the faults which keep their lines.
    earlier_reads: u64,
}

/// Whether the last of some lexemes is a comment that ends at an offset.
fn is_end(comment: Option<(usize, usize)>, lexemes: usize, at: usize) -> bool
    ensures { result ≡ is_end comment lexemes at }
{
    match comment {
        Some((count, end)) => count == lexemes && end == at,
        None => false,
    }
}

/// Whether a mode is that of code outside of f-strings.
fn is_outside(mode: LexerMode) -> bool
    ensures { result ≡ is_outside (mode_view mode) }
{
    matches!(mode, LexerMode::Outside)
}

impl<'a> RecoveryState<'a> {
    /// The state at the start of a text. It doesn't allocate.
    pub(crate) fn new(alloc: Global, text: &'a str, code_map: CodeMap) -> RecoveryState<'a>
        requires { length text.now < 2 ^ 32 }
        ensures recovering { IsRecovering result }
        ensures view { view_of result ≡ record { text = text.now; code_map = code_map; left = all_items text.now; fault_count = 0; has_ended = false; reads = 0 } }
    {
        RecoveryState {
            alloc,
            text,
            begin: 0,
            state: LexerState::new(alloc, text),
            code_map,
            fault_count: 0,
            comment: None,
            stand_in: None,
            stand_in_count: 0,
            earlier_reads: 0,
        }
    }

    /// Passes a fault with all that is open: lexing goes on at a byte of the part. `looked` reads found
    /// that byte, and `peeked` others what the fault is and what stands for it.
    fn keep(
        &mut self,
        fault: (usize, LexemeError, usize),
        end: usize,
        looked: usize,
        peeked: u64,
        stand_in: Option<(usize, Token, usize)>,
    ) -> OrMemory<EvalException>
        requires fault { (found : Spanned Fault) × (stopped : IsStopped self.old found) × IsRaw found fault × (stays_open_here self.old stopped.origin found ≡ true) × (end ≡ passed_end (part_of self.old) (with_literal_here self.old found)) × IsPaidTo self.old found end looked }
        requires stand_in { (found : Spanned Fault) → IsStopped self.old found → IsRaw found fault → StandsFor self.old found stand_in }
        requires some { 1 ≤ peeked }
        requires few { peeked ≤ 16 }
        ensures { (found : Spanned Fault) (stopped : IsStopped self.old found) → IsRaw found fault → stays_open_here self.old stopped.origin found ≡ true → HasPassedOn self.old found result self.new }
    {
        let begin = self.begin;
        let (from, error, to) = fault;
        let Ok(given) = exception(self.alloc, begin + from, error, begin + to, &self.code_map)
        else {
            return OrMemory::Memory;
        };
        self.state.go_on(end, looked);
        self.stand_in = stand_in;
        self.stand_in_count = 0;
        self.comment = None;
        self.fault_count += 1;
        self.earlier_reads = self.earlier_reads.saturating_add(peeked);
        OrMemory::Error(given)
    }

    /// Passes a fault that ends its line: lexing begins again at the next one after byte `end` of the
    /// part, which `looked` reads found.
    fn restart(
        &mut self,
        fault: (usize, LexemeError, usize),
        end: usize,
        looked: u64,
    ) -> OrMemory<EvalException>
        requires { (found : Spanned Fault) × (stopped : IsStopped self.old found) × IsRaw found fault × (stays_open_here self.old stopped.origin found ≡ false) × (is_open_here self.old stopped.origin found ≡ false) × (end ≡ (with_literal_here self.old found).end) × AreReadsTo (part_of self.old) (with_literal_here self.old found) (self.old.state.reader.reads + looked) }
        ensures { (found : Spanned Fault) (stopped : IsStopped self.old found) → IsRaw found fault → stays_open_here self.old stopped.origin found ≡ false → is_open_here self.old stopped.origin found ≡ false → HasPassedOn self.old found result self.new }
    {
        let Ok(passed) = pass(
            self.alloc,
            self.text,
            self.begin,
            fault,
            end,
            &self.code_map,
        ) else {
            return OrMemory::Memory;
        };
        let searched = passed.reads.saturating_add(looked);
        let reads = self.state.reader.reads.count().saturating_add(searched);
        self.earlier_reads = self.earlier_reads.saturating_add(reads);
        self.fault_count += 1;
        self.begin = passed.begin;
        self.state.begin_line(&self.text[passed.begin..]);
        self.comment = None;
        self.stand_in_count = 0;
        OrMemory::Error(passed.fault)
    }

    /// Passes a bad escape with all of its literal. Where that isn't closed, lexing begins again at the
    /// line after it.
    fn pass_literal(&mut self, fault: (usize, LexemeError, usize)) -> OrMemory<EvalException>
        requires { (found : Spanned Fault) × (stopped : IsStopped self.old found) × IsRaw found fault × (is_bad_escape found.node ≡ true) }
        ensures { (found : Spanned Fault) → IsStopped self.old found → IsRaw found fault → is_bad_escape found.node ≡ true → HasPassedOn self.old found result self.new }
    {
        let part = &self.text[self.begin..];
        let at = self.state.reader.at;
        let opening = literal_opening(part, at, fault.0);
        let rest = literal_rest(part, opening, fault.0);
        let end = fault.2.max(fault.0 + rest.len);
        let looked = end - fault.0 + rest.len;
        if !rest.is_closed {
            return self.restart(fault, end, (looked + 1 + OPENING_LEN) as u64);
        }
        let Ok(token) = written_literal(self.alloc, opening, &part[at..end]) else {
            return OrMemory::Memory;
        };
        let stand_in = Some((self.begin + at, token, self.begin + end));
        let peeked = (OPENING_LEN + LITERAL_PEEKS) as u64;
        self.keep(fault, end, looked, peeked, stand_in)
    }

    /// Whether the fault of the part that was taken is an open quote.
    fn is_open_quote(&self, fault: &LexemeError, end: usize) -> bool
        requires { self.now.begin + end ≤ length self.now.text.now }
        ensures { (found : Spanned Fault) (stopped : IsStopped self.now found) → fault_view fault.now ≡ Some found.node → end ≡ found.end → result ≡ is_open_here self.now stopped.origin found }
    {
        if !is_unfinished(fault) {
            return false;
        }
        if !is_outside(self.state.reader.nesting.mode()) {
            return false;
        }
        self.begin + end < self.text.len()
    }

    /// Goes on at the line end of an open quote, where a part begins. Of the quote's bytes only brackets
    /// count.
    fn go_on_after_quote(
        &mut self,
        fault: (usize, LexemeError, usize),
        stand_in: (usize, Token, usize),
    ) -> OrMemory<EvalException>
        requires fault { (found : Spanned Fault) × (stopped : IsStopped self.old found) × IsRaw found fault × (is_open_here self.old stopped.origin found ≡ true) }
        requires stand_in { (found : Spanned Fault) → IsStopped self.old found → IsRaw found fault → StandsFor self.old found (Some stand_in) }
        ensures { (found : Spanned Fault) (stopped : IsStopped self.old found) → IsRaw found fault → is_open_here self.old stopped.origin found ≡ true → HasPassedOn self.old found result self.new }
    {
        let begin = self.begin;
        let (from, error, to) = fault;
        let Ok(given) = exception(self.alloc, begin + from, error, begin + to, &self.code_map)
        else {
            return OrMemory::Memory;
        };
        let part = &self.text[begin..];
        let quote = &part.as_bytes()[from..to];
        // Each of its bytes is looked at once more.
        let looked = (to - from + QUOTE_PEEKS) as u64;
        let spent = self.state.reader.reads.count().saturating_add(looked);
        self.earlier_reads = self.earlier_reads.saturating_add(spent);
        self.fault_count += 1;
        self.begin = begin + to;
        self.state.go_on_after_quote(quote, &part[to..]);
        self.comment = None;
        self.stand_in = Some(stand_in);
        self.stand_in_count = 0;
        OrMemory::Error(given)
    }

    /// Passes an open quote.
    fn pass_quote(&mut self, fault: (usize, LexemeError, usize)) -> OrMemory<EvalException>
        requires { (found : Spanned Fault) × (stopped : IsStopped self.old found) × IsRaw found fault × (is_open_here self.old stopped.origin found ≡ true) }
        ensures { (found : Spanned Fault) (stopped : IsStopped self.old found) → IsRaw found fault → is_open_here self.old stopped.origin found ≡ true → HasPassedOn self.old found result self.new }
    {
        let part = &self.text[self.begin..];
        let Ok(token) = written_quote(self.alloc, &part[fault.0..fault.2]) else {
            return OrMemory::Memory;
        };
        let stand_in = (self.begin + fault.0, token, self.begin + fault.2);
        self.go_on_after_quote(fault, stand_in)
    }

    /// Passes the fault of the part that was taken.
    // A call: a lexeme needs nothing of it.
    #[inline(never)]
    fn pass(&mut self, fault: (usize, LexemeError, usize)) -> OrMemory<EvalException>
        requires { (found : Spanned Fault) × IsStopped self.old found × IsRaw found fault }
        ensures { (found : Spanned Fault) → IsStopped self.old found → IsRaw found fault → HasPassedOn self.old found result self.new }
    {
        let part = &self.text[self.begin..];
        let lexemes = self.state.yielded_count - 1;
        let follows_comment = is_end(self.comment, lexemes, fault.0);
        if is_bad_escape(&fault.1) {
            return self.pass_literal(fault);
        }
        let end = fault.2;
        if self.is_open_quote(&fault.1, end) {
            return self.pass_quote(fault);
        }
        if !keeps_line(part, fault.0, &fault.1, follows_comment) {
            return self.restart(fault, end, 0);
        }
        let end = passed_end(part, fault.0, end, is_tab(&fault.1));
        let looked = end - fault.0;
        let Ok(stand_in) = word_stand_in(self.alloc, self.begin, &fault) else {
            return OrMemory::Memory;
        };
        // The first two bytes of the fault were looked at.
        self.keep(fault, end, looked, 2, stand_in)
    }

    /// Records a lexeme that was yielded, if it is a comment.
    #[tactic(auto, unfolding(starlark_token::specs::TokenViews::token_view))]
    #[inline(always)]
    fn record_comment(&mut self, token: &Token, end: usize)
        ensures { self.new ≡ record self.old { comment = last_comment (token_view token.now) self.old.state.yielded_count end self.old.comment } }
    {
        match token {
            Token::Comment(_) => self.comment = Some((self.state.yielded_count, end)),
            _ => {}
        }
    }

    /// What an item of the part, which is the next one, is in the text.
    #[inline(always)]
    fn answer(
        &mut self,
        item: Result<(usize, Token, usize), OrMemory<(usize, LexemeError, usize)>>,
    ) -> Lexeme
        requires { (before : RecoveryState) × IsAdvanced before (Some item) self.old }
        ensures recovering { IsRecovering self.new }
        ensures next { (before : RecoveryState) → IsAdvanced before (Some item) self.old → IsNextOf (view_of before) (Some result) (view_of self.new) }
    {
        match item {
            Ok((from, token, to)) => {
                self.record_comment(&token, to);
                Ok((self.begin + from, token, self.begin + to))
            }
            Err(OrMemory::Memory) => Err(OrMemory::Memory),
            Err(OrMemory::Error(fault)) => Err(self.pass(fault)),
        }
    }

    /// The lexeme that stands for the last fault, which is taken once.
    // A call: it is rare.
    #[inline(never)]
    fn take_stand_in(&mut self) -> Option<Lexeme>
        requires recovering { IsRecovering self.old }
        requires some { IsSome self.old.stand_in }
        ensures recovering { IsRecovering self.new }
        ensures next { IsNextOf (view_of self.old) result (view_of self.new) }
    {
        self.stand_in_count = 1;
        Some(Ok(self.stand_in.take()?))
    }

    /// The next lexeme or fault of the text; `None` after the last lexeme, and after out of memory.
    #[inline(always)]
    pub(crate) fn next(&mut self) -> Option<Lexeme>
        requires { IsRecovering self.old }
        ensures recovering { IsRecovering self.new }
        ensures next { IsNextOf (view_of self.old) result (view_of self.new) }
    {
        if self.stand_in.is_some() {
            return self.take_stand_in();
        }
        let item = self.state.next_item()?;
        Some(self.answer(item))
    }

    /// Number of faults that were yielded so far.
    pub(crate) fn fault_count(&self) -> usize
        ensures { result ≡ self.now.fault_count }
    {
        self.fault_count
    }

    /// Number of reads of bytes so far.
    pub(crate) fn reads(&self) -> u64
        ensures { result ≡ (view_of self.now).reads }
    {
        self.earlier_reads
            .saturating_add(self.state.reader.reads.count())
    }
}
