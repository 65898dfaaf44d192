//! The reader: reads a text piece by piece, and stores what later pieces depend on.

ghost use Rattle.std.specs.Prelude.{◌&&◌, ◌≡◌, ◌≢◌, true, false, ◌<◌, ◌≤◌, ◌+◌, ◌-◌, ◌*◌, ◌^◌, [], ℕ, None, Some, List, Option, codes, drop, length, map, nat_eq, take, OnErr, OnOk, IfErr, IfOk, IfSome};
ghost use Rattle.std.specs.List.{ends_with, prefix_len};
ghost use Rattle.std.specs.Str.{IsCharBoundary};
ghost use Rattle.starlark_words.specs.Inner.Reads.{AreReads, more_reads};
ghost use Rattle.starlark_reader.specs.Inner.StepViews as steps;
ghost use Rattle.starlark_reader.specs.Inner.StepViews.{IsDigitAt, IsFaultWord, IsStep, text_step};
ghost use Rattle.starlark_token.specs.Lexemes.{shown_lexeme};
ghost use Rattle.starlark_words.specs.Inner.LiteralViews.{IsPlainBody, single_literal};
ghost use Rattle.starlark_words.specs.Inner.PlainRuns.{IsRun};
ghost use Rattle.starlark_words.specs.Inner.ScannedWords.{begins_mark, is_common, is_number, peeked_len, word_len};
ghost use Rattle.starlark_grammar.specs.Margins.{margin_of, open_widths};
ghost use Rattle.starlark_reader.specs.Inner.MarginViews.{IsMargin, spaces_margin};
ghost use Rattle.starlark_grammar.specs.Pieces as grammar;
ghost use Rattle.starlark_grammar.specs.declared.class.Class.TheVariants as class;
ghost use Rattle.starlark_grammar.specs.declared.class.LiteralKind.TheVariants as kind;
ghost use Rattle.starlark_reader.specs.Inner.Pending.{IsIdle, IsPendingToken, owed, pending_lexemes};
ghost use Rattle.starlark_reader.specs.Inner.MarginCuts.{IsCutBefore};
ghost use Rattle.starlark_reader.specs.Inner.ReadBounds.{HasStarted, HasScanned, HasScannedHere, HasRead, HasReadAt, HasReadLast, IsMarginRead, IsPassedBy, IsTaken};
ghost use Rattle.starlark_reader.specs.Inner.Reader.{From, HasSomething, IsAhead, IsAtCode, IsAtEnd, IsAtLineEnd, IsAtStep, IsBangHere, IsInCode, IsLast, IsLineEndStep, IsPlainTextHere, IsReached, IsRead, IsReadPast, IsSound, IsStateAfter, IsTokenOf, IsWordHere, KeepsAhead, Line, Origin, Start, Takes, TakesNext, chunk_lexemes, has_read_none, kept_history, left_here, left_to_read, newline_of, quoted_history, remaining_outcome, step_here, symbol_view};
ghost use Rattle.starlark_reader.specs.Inner.PieceViews.{IsLineEnd};
ghost use Rattle.starlark_reader.specs.Inner.Lookaheads.{HasPeeked, IsLiteralHere, IsTextRun};
ghost use Rattle.starlark_grammar.specs.Cuts.{is_settled};
ghost use Rattle.starlark_grammar.specs.Found.{at_line};
ghost use Rattle.starlark_grammar.specs.Reading.{History, outcome, outcome_after};
ghost use Rattle.starlark_token.specs.TokenViews.{TokenView, token_view};
ghost use Rattle.starlark_grammar.specs.Tokens.{FStringStart, Fault, Spanned};
ghost use Rattle.starlark_grammar.specs.Depths.{InText, mode_after};
ghost use Rattle.starlark_grammar.specs.Front.{language_front};
ghost use Rattle.starlark_reader.specs.Inner.Nesting.{Represents, bracket_count, keeps_code};
ghost use Rattle.starlark_grammar.specs.Words.{Text, begins, is_name_start};

use crate::indent_stack::IndentStack;
use crate::literal::{
    Chunk, Opening, chunk_from, literal_piece, opening_of, plain_text, quotes_of,
};
use crate::margins::{Margin, margin_from, margin_of, plain_margin};
use crate::nesting::{LexerMode, Nesting};
use crate::pending::{AfterComments, Pending, text_end};
use crate::reading::terminals::own_token;
use crate::reading::words::number_token;
use crate::widths::{keeps_widths, take_margin};
use starlark_token::lexeme_error::LexemeError;
use starlark_token::token_int::TokenInt;
use starlark_token::tokens::Token;
use starlark_words::reads::ReadCounter;
use starlark_words::scanner::{
    Class, LiteralKind, Quote, Terminal, Word, gap_and_next, is_bang, unnamed_word, word_after,
};
use starlark_words::{Literal, plain_body_len};
use std::alloc::{AllocError, Global};
use std::mem;

/// How far a text is read: not at all, up to an offset, up to its fault, or to its end.
#[derive(Drop)]
pub enum Stage {
    Begin,
    Onward,
    Fault {
        begin: usize,
        fault: LexemeError,
        end: usize,
    },
    Closed,
}

/// The kind of the piece right before an offset: a margin, a skipped piece, or another.
#[derive(Clone, Copy)]
pub enum Before {
    Layout,
    Gap,
    Other,
}

/// A text, and the state of reading it up to byte `at`. It stores the open brackets, f-strings and
/// indents, the kind of the piece before, and the pending lexemes.
// What each lexeme changes comes first: an offset of less than 128 bytes takes one byte of an
// instruction, not four (time -5 % of dense tokens).
#[derive(Drop)]
pub struct Reader<'a> {
    pub text: &'a str,
    pub at: usize,
    pub reads: ReadCounter,
    before: Before,
    pub nesting: Nesting,
    levels: IndentStack,
    pub pending: Pending,
    pub stage: Stage,
    alloc: Global,
}

/// What `take_line_end` has taken.
// Order matters: the last variant is the one after which a loop of the lexer goes on, and `Newline`
// spares it a look at what is pending (6 % of blank lines).
#[derive(Clone, Copy)]
pub enum TakenLineEnd {
    /// A fault in the margin after it.
    Fault,
    /// A `Newline` token. Comments, an `Indent` or `Dedent`s may be pending after it.
    Pending,
    /// A `Newline` token. No lexeme is pending after it.
    Newline,
    /// Nothing: the newline doesn't count.
    Passed,
}

impl<'a> Reader<'a> {
    /// A reader at the start of a text. It doesn't allocate.
    pub fn new(alloc: Global, text: &'a str) -> Self
        ensures text { result.text.now ≡ text.now }
        ensures ahead { (any : Text) → IsAhead Start any result result.stage (map shown_lexeme (outcome any).lexemes) (outcome any).fault }
        ensures reads { (any : Text) → HasRead any result }
        ensures unread { result.reads ≡ 0 }
    {
        Reader {
            alloc,
            text,
            at: 0,
            nesting: Nesting::new(alloc),
            levels: IndentStack::new(alloc),
            before: Before::Other,
            pending: Pending::nothing(),
            stage: Stage::Begin,
            reads: ReadCounter::new(),
        }
    }

    /// Begins anew at the start of another text, which is a line's. Blocks stay open, and brackets and
    /// f-strings are forgotten.
    pub fn begin_line(&mut self, text: &'a str)
        ensures text { self.new.text.now ≡ text.now }
        ensures ahead { (widths : List ℕ) → self.old.levels ≡ open_widths widths → (any : Text) → IsAhead (Line widths) any self.new self.new.stage (map shown_lexeme (outcome_after (at_line widths) any).lexemes) (outcome_after (at_line widths) any).fault }
        ensures reads { (any : Text) → HasRead any self.new }
        ensures unread { self.new.reads ≡ 0 }
    {
        self.text = text;
        self.at = 0;
        self.nesting = Nesting::new(self.alloc);
        self.before = Before::Other;
        self.pending = Pending::nothing();
        self.stage = Stage::Begin;
        self.reads = ReadCounter::new();
    }

    /// Stops at a fault. `begin` and `end` are in bytes from the reader's offset on.
    fn refuse(&mut self, begin: usize, fault: LexemeError, end: usize)
        requires begin { self.old.at + begin < 2 ^ 64 }
        requires end { self.old.at + end < 2 ^ 64 }
        ensures { self.new ≡ record self.old { stage = Stage.Fault (self.old.at + begin) fault (self.old.at + end) } }
    {
        self.stage = Stage::Fault {
            begin: self.at + begin,
            fault,
            end: self.at + end,
        };
    }

    /// Advances past a piece of `len` bytes, and records its kind.
    #[inline(always)]
    pub fn step_over(&mut self, len: usize, before: Before)
        requires fits { self.old.at + len < 2 ^ 64 }
        requires stage { self.old.stage ≡ Stage.Onward }
        ensures { self.new ≡ record self.old { at = self.old.at + len; before = before; stage = Stage.Onward } }
    {
        self.at += len;
        self.before = before;
    }

    /// Advances to byte `at`, past a piece of a kind.
    // Not by a length: so a line end takes one register fewer, and saves it.
    #[inline(always)]
    fn step_to(&mut self, at: usize, before: Before)
        requires stage { self.old.stage ≡ Stage.Onward }
        ensures { self.new ≡ record self.old { at = at; before = before; stage = Stage.Onward } }
    {
        self.at = at;
        self.before = before;
    }

    /// Reads the margin at the start of the text, or stops at its fault. Don't use the reader after an
    /// `AllocError`.
    // A call: else each call of `next` saves what the loops over the margin's lines need.
    #[inline(never)]
    pub fn read_first_margin(&mut self) -> Result<(), AllocError>
        requires sound { IsSound self.old }
        requires stage { self.old.stage ≡ Stage.Begin }
        requires idle { IsIdle self.old.text.now self.old.pending }
        ensures text { self.new.text ≡ self.old.text }
        ensures ahead { OnOk result (KeepsAhead self.old self.new) }
        ensures memory { OnErr result (HasSomething self.old) }
        ensures less { OnOk result (left_to_read self.old.text.now self.new self.new.stage < left_to_read self.old.text.now self.old self.old.stage) }
        ensures reads { OnOk result (HasRead self.old.text.now self.old → HasRead self.old.text.now self.new) }
    {
        let margin = margin_of(&mut self.reads, self.text);
        match take_margin(&mut self.levels, &mut self.pending, 0, 0, margin)? {
            Some((fault, end)) => self.refuse(0, fault, end),
            None => {
                self.stage = Stage::Onward;
                self.step_over(margin.at + margin.blanks, Before::Layout);
            }
        }
        Ok(())
    }

    /// Takes the margin found after a newline of `len` bytes that counts. Returns the outcome, and stops
    /// at the fault, where the margin has one. Its reads are counted before.
    #[inline(always)]
    fn put_margin(&mut self, len: usize, margin: Margin) -> Result<TakenLineEnd, AllocError>
        requires line_end { IsAtLineEnd self.old len }
        requires margin { IsMargin (margin_of (drop (self.old.at + len) self.old.text.now)) margin }
        requires within { self.old.at + len + (margin.at + margin.blanks) ≤ length self.old.text.now }
        ensures text { self.new.text ≡ self.old.text }
        ensures read { IfOk result (λ line_end. Takes self.old (IsLineEndStep self.old len) (newline_of line_end self.old.at len) self.new) }
        ensures end { IfOk result (λ line_end. line_end ≡ TakenLineEnd.Fault → IsAtEnd self.old.text.now self.new) }
        ensures reads { OnOk result ((before : ℕ) → AreReads (margin.at + margin.blanks) (5 * margin.at + margin.blanks + 5) before self.old.reads → IsLineEnd len (drop self.old.at self.old.text.now) →
            IsMarginRead self.old.text.now len (record self.old { reads = before }) self.new self.new.stage) }
        ensures counts { IfOk result (λ line_end. (line_end ≢ TakenLineEnd.Passed) × (line_end ≢ TakenLineEnd.Newline)) }
    {
        let fault = take_margin(&mut self.levels, &mut self.pending, self.at, len, margin)?;
        if let Some((fault, end)) = fault {
            self.pending = Pending::nothing();
            self.refuse(0, fault, end);
            return Ok(TakenLineEnd::Fault);
        }
        self.step_over(len + margin.at + margin.blanks, Before::Layout);
        Ok(TakenLineEnd::Pending)
    }

    /// Reads a newline of `len` bytes that counts, and any margin after it, whose first `spaces` spaces
    /// were read. Returns the outcome, and stops at the fault, where the margin has one.
    // A call: so a newline before a plain margin saves no registers (8 % of blank lines).
    #[inline(never)]
    fn put_long_margin(&mut self, len: usize, spaces: usize) -> Result<TakenLineEnd, AllocError>
        requires line_end { IsAtLineEnd self.old len }
        requires spaces { spaces ≡ prefix_len (nat_eq 32) (drop (self.old.at + len) self.old.text.now) }
        ensures text { self.new.text ≡ self.old.text }
        ensures read { IfOk result (λ line_end. Takes self.old (IsLineEndStep self.old len) (newline_of line_end self.old.at len) self.new) }
        ensures end { IfOk result (λ line_end. line_end ≡ TakenLineEnd.Fault → IsAtEnd self.old.text.now self.new) }
        ensures reads { OnOk result ((before : ℕ) → AreReads (spaces + 1) (spaces + 3) before self.old.reads → IsLineEnd len (drop self.old.at self.old.text.now) →
            IsMarginRead self.old.text.now len (record self.old { reads = before }) self.new self.new.stage) }
        ensures counts { IfOk result (λ line_end. (line_end ≢ TakenLineEnd.Passed) × (line_end ≢ TakenLineEnd.Newline)) }
    {
        let begin = self.at + len;
        let margin = margin_from(&mut self.reads, spaces, &self.text[begin..]);
        self.put_margin(len, margin)
    }

    /// Takes a newline of `len` bytes that counts, and the margin of `width` spaces alone after it,
    /// which content follows. Returns the outcome, and stops at the fault, where the margin has one. The
    /// margin was read.
    // Not `put_long_margin`: the known width is 2 % of deep indentation.
    #[inline(never)]
    fn change_width(&mut self, len: usize, width: usize) -> Result<TakenLineEnd, AllocError>
        requires line_end { IsAtLineEnd self.old len }
        requires margin { IsMargin (margin_of (drop (self.old.at + len) self.old.text.now)) (spaces_margin width) }
        requires within { self.old.at + len + width ≤ length self.old.text.now }
        ensures text { self.new.text ≡ self.old.text }
        ensures read { IfOk result (λ line_end. Takes self.old (IsLineEndStep self.old len) (newline_of line_end self.old.at len) self.new) }
        ensures end { IfOk result (λ line_end. line_end ≡ TakenLineEnd.Fault → IsAtEnd self.old.text.now self.new) }
        ensures reads { OnOk result ((before : ℕ) → AreReads width (width + 1) before self.old.reads → IsLineEnd len (drop self.old.at self.old.text.now) →
            IsMarginRead self.old.text.now len (record self.old { reads = before }) self.new self.new.stage) }
        ensures counts { IfOk result (λ line_end. (line_end ≢ TakenLineEnd.Passed) × (line_end ≢ TakenLineEnd.Newline)) }
    {
        self.put_margin(len, Margin::of_spaces(width))
    }

    /// Reads a newline of `len` bytes that counts, and the margin after it. Returns the outcome, and
    /// stops at the fault, where the margin has one.
    #[inline(always)]
    fn put_line_end(&mut self, len: usize) -> Result<TakenLineEnd, AllocError>
        requires { IsAtLineEnd self.old len }
        ensures text { self.new.text ≡ self.old.text }
        ensures read { IfOk result (λ line_end. Takes self.old (IsLineEndStep self.old len) (newline_of line_end self.old.at len) self.new) }
        ensures end { IfOk result (λ line_end. line_end ≡ TakenLineEnd.Fault → IsAtEnd self.old.text.now self.new) }
        ensures reads { OnOk result (IsLineEnd len (drop self.old.at self.old.text.now) → IsMarginRead self.old.text.now len self.old self.new self.new.stage) }
        ensures counts { IfOk result (λ line_end. line_end ≢ TakenLineEnd.Passed) }
        ensures onward { IfOk result (λ line_end. line_end ≡ TakenLineEnd.Newline → (self.new.stage ≡ Stage.Onward) × (self.new.nesting ≡ self.old.nesting) × ((text : Text) → pending_lexemes text self.new.pending ≡ [])) }
    {
        let begin = self.at + len;
        let margin = match plain_margin(&mut self.reads, &self.text[begin..]) {
            Ok(margin) => margin,
            Err(spaces) => return self.put_long_margin(len, spaces),
        };
        if !keeps_widths(&self.levels, margin) {
            return self.change_width(len, margin.width);
        }
        let is_flat = self.levels.len() == 0;
        self.pending.wait_for_comments(begin, begin, is_flat);
        self.step_to(begin + margin.blanks, Before::Layout);
        Ok(TakenLineEnd::Newline)
    }

    /// Takes a token of `len` bytes that begins no f-string, and returns it with its span.
    #[inline(always)]
    fn take_token(&mut self, token: Token, len: usize) -> (usize, Token, usize)
        requires { IsAtStep self.old (λ history found. IsStep found (steps.Token token len)) }
        ensures text { self.new.text ≡ self.old.text }
        ensures token { result.1 ≡ token }
        ensures read { Takes self.old (λ history found. IsStep found (steps.Token token len)) (Some result) self.new }
        ensures taken { IsTaken len self.old self.new }
        ensures onward { IsInCode self.new → IsAtCode self.old.text.now self.new }
        ensures stays { keeps_code (token_view token) ≡ true → IsInCode self.old → IsInCode self.new }
    {
        let begin = self.at;
        self.nesting.pass(&token);
        self.step_over(len, Before::Other);
        (begin, token, begin + len)
    }

    /// Advances past an f-string text and what ends it, which becomes pending.
    #[inline(always)]
    pub fn pass_chunk(&mut self, chunk: Chunk)
        requires { (value : Text) × IsAtStep self.old (λ history step. step ≡ text_step value chunk) }
        ensures text { self.new.text ≡ self.old.text }
        ensures read { (value : Text) (origin : Origin) (history : History) → IsStateAfter origin self.old.text.now history self.old → step_here self.old.text.now history self.old ≡ text_step value chunk →
            IsReadPast origin self.old.text.now (left_here self.old.text.now history self.old) (chunk_lexemes self.old.at chunk.len value) self.new }
        ensures passed { IsPassedBy (self.old.at + (chunk.len + chunk.stop_len)) self.old self.new × (self.new.stage ≡ Stage.Onward) }
    {
        let begin = self.at + chunk.len;
        let end = begin + chunk.stop_len;
        self.nesting.pass(&text_end(chunk.before_expression));
        self.step_to(end, Before::Other);
        self.pending = Pending::only(AfterComments::ChunkEnd {
            begin,
            before_expression: chunk.before_expression,
            end,
        });
    }

    /// Takes what ends an f-string text without a value.
    #[inline(always)]
    pub fn take_chunk_end(&mut self, chunk: Chunk) -> (usize, Token, usize)
        requires { IsAtStep self.old (λ history step. step ≡ text_step [] chunk) }
        ensures text { self.new.text ≡ self.old.text }
        ensures read { Takes self.old (λ history step. step ≡ text_step [] chunk) (Some result) self.new }
        ensures kind { IsPendingToken (token_view result.1) }
        ensures passed { IsPassedBy (self.old.at + (chunk.len + chunk.stop_len)) self.old self.new × (self.new.stage ≡ Stage.Onward) }
    {
        let begin = self.at + chunk.len;
        let end = begin + chunk.stop_len;
        let token = text_end(chunk.before_expression);
        self.nesting.pass(&token);
        self.step_to(end, Before::Other);
        (begin, token, end)
    }

    /// Whether the text, which was read to its end, is a clean cut. A read of its last byte is counted.
    #[tactic(auto, unfolding(starlark_grammar::specs::Cuts::is_settled))]
    pub fn is_clean_cut(&mut self) -> bool
        ensures value { (origin : Origin) (history : History) → IsStateAfter origin self.old.text.now history self.old → result ≡ (is_settled history && ends_with nat_eq self.old.text.now (codes "\n")) }
        ensures last { (origin : Origin) (history : History) → IsStateAfter origin self.old.text.now history self.old → is_settled history ≡ true → more_reads self.old.reads 1 ≤ self.new.reads }
        ensures least { self.old.reads < 2 ^ 64 - 1 → self.old.reads ≤ self.new.reads }
        ensures most { self.new.reads ≤ self.old.reads + 1 }
        ensures same { self.new ≡ record self.old { reads = self.new.reads } }
    {
        let is_settled = matches!(self.before, Before::Layout)
            && self.nesting.counts_line_ends()
            && self.levels.len() == 0;
        if !is_settled {
            return false;
        }
        self.reads.count_run(0);
        self.text.as_bytes().ends_with(b"\n")
    }

    /// Counts `len + 1` reads of other bytes if those so far leave room for them. Returns whether they
    /// do.
    pub fn count_others(&mut self, len: usize) -> bool
        requires { len < 2 ^ 32 }
        ensures ahead { (origin : Origin) (text : Text) (lexemes : List (Spanned TokenView)) (fault : Option (Spanned Fault)) → IsAhead origin text self.old self.old.stage lexemes fault → IsAhead origin text self.new self.new.stage lexemes fault }
        ensures reads { (text : Text) → HasRead text self.old → HasRead text self.new }
        ensures none { result ≡ false → self.new ≡ self.old }
        ensures onward { result ≡ true → self.new.stage ≡ Stage.Onward }
        ensures few { result ≡ true → self.new.reads + 5 * owed self.new.pending < 10 * self.new.at }
        ensures counted { result ≡ true → self.old.reads + len < self.new.reads }
        ensures same { self.new ≡ record self.old { reads = self.new.reads } }
    {
        let owed = self.pending.to.saturating_sub(self.pending.from) as u64;
        let others = owed.saturating_mul(5).saturating_add(len as u64 + 1);
        let all = self.reads.count().saturating_add(others);
        if !matches!(self.stage, Stage::Onward) || all >= (self.at as u64).saturating_mul(10) {
            return false;
        }
        self.reads.count_run(len);
        true
    }

    /// Whether no piece of the text was read. At a fault this means a tab in the first margin.
    pub fn has_read_none(&self) -> bool
        ensures { result ≡ has_read_none self.now }
    {
        self.at == 0 && !matches!(self.before, Before::Layout)
    }

    /// The offset where the text may be cut, if the lexemes yielded so far are those before it. It
    /// is after a newline or a comment-only line, in a margin with no indent open before it. Each
    /// such offset before the end of the text is found right after the last lexeme before it.
    pub fn cut(&self) -> Option<usize>
        ensures kept { IfSome result (λ at. (lexemes : List (Spanned TokenView)) (fault : Option (Spanned Fault)) → IsAhead Start self.now.text.now self.now self.now.stage lexemes fault → IsCutBefore self.now.text.now at (length lexemes)) }
        ensures reached { (at : ℕ) → IsReached self.now at → 0 < at → at < length self.now.text.now → result ≡ Some at }
    {
        let is_flat = matches!(self.stage, Stage::Onward)
            && matches!(self.before, Before::Layout)
            && self.pending.is_flat;
        let at = self.pending.from;
        (is_flat && 0 < at && at < self.text.len()).then_some(at)
    }

    /// Closes a text without fault at its end. Returns a `Newline` of no bytes. A `Dedent` for each
    /// open indent becomes pending.
    pub fn close(&mut self) -> (usize, Token, usize)
        ensures text { self.new.text ≡ self.old.text }
        ensures read { (origin : Origin) (history : History) → IsStateAfter origin self.old.text.now history self.old → step_here self.old.text.now history self.old ≡ grammar.Ends → IsRead origin self.old.text.now (left_here self.old.text.now history self.old) (Some result) self.new }
        ensures passed { IsPassedBy self.old.at self.old self.new × (self.new.stage ≡ Stage.Closed) }
    {
        self.pending = Pending::only(AfterComments::Dedents {
            at: self.at,
            count: self.levels.len(),
        });
        self.stage = Stage::Closed;
        (self.at, Token::Newline, self.at)
    }

    /// Stops at the word here, which is a fault: tabs, a reserved word, or a 0 before more digits.
    pub fn refuse_word(&mut self, word: Word) -> Result<Option<(usize, Token, usize)>, AllocError>
        requires sound { IsSound self.old }
        requires stands { IsWordHere self.old.text.now self.old word }
        requires fault { IsFaultWord word.class (take word.len (drop self.old.at self.old.text.now)) }
        ensures text { self.new.text ≡ self.old.text }
        ensures ahead { IfOk result (λ given. TakesNext self.old given self.new) }
        ensures end { IfOk result (λ given. given ≡ None → IsAtEnd self.old.text.now self.new) }
        ensures memory { OnErr result (HasSomething self.old) }
        ensures reads { OnOk result ((before : ℕ) → HasReadAt self.old.text.now (record self.old { reads = before }) Stage.Onward → AreReads word.len (5 * word.len + 3) before self.old.reads → HasRead self.old.text.now self.new) }
    {
        let rest = &self.text[self.at..];
        let text = &rest[..word.len];
        let (fault, end) = match word.class {
            Class::Tabs => (LexemeError::InvalidTab, 0),
            Class::Decimal => {
                let text = String::from_str(self.alloc, text)?;
                (LexemeError::StartsZero(text), word.len)
            }
            _ => {
                let text = String::from_str(self.alloc, text)?;
                (LexemeError::ReservedKeyword(text), word.len)
            }
        };
        self.refuse(0, fault, end);
        Ok(None)
    }

    /// Reads what is here, where no word begins: a bang, or a fault.
    pub fn read_wordless(&mut self) -> Result<Option<(usize, Token, usize)>, AllocError>
        requires sound { IsSound self.old }
        requires code { IsAtCode self.old.text.now self.old }
        requires some { self.old.at < length self.old.text.now }
        requires none { language_front (drop self.old.at self.old.text.now) ≡ None }
        ensures text { self.new.text ≡ self.old.text }
        ensures ahead { IfOk result (λ given. TakesNext self.old given self.new) }
        ensures end { IfOk result (λ given. given ≡ None → IsAtEnd self.old.text.now self.new) }
        ensures memory { OnErr result (HasSomething self.old) }
        ensures reads { OnOk result ((before : ℕ) → HasReadAt self.old.text.now (record self.old { reads = before }) Stage.Onward → AreReads 0 (5 * 0 + 3) before self.old.reads → HasRead self.old.text.now self.new) }
    {
        if self.bang_stands() {
            return Ok(Some(self.take_token(Token::FStringBang, 1)));
        }
        let rest = &self.text[self.at..];
        let end = self.reads.character_len(rest);
        let fault = LexemeError::InvalidInput(String::from_str(self.alloc, &rest[..end])?);
        self.refuse(0, fault, end);
        Ok(None)
    }

    /// The fault after the last lexeme, between two offsets, if the text has one. It is returned only
    /// once.
    ///
    /// Reads up to a fault, with those of the search for the offset where lexing begins again, are at
    /// most sixteen for each byte before that offset, and sixteen more.
    pub fn take_fault(&mut self) -> Option<(usize, LexemeError, usize)>
        ensures text { self.new.text ≡ self.old.text }
        ensures last { (origin : Origin) (text : Text) (lexemes : List (Spanned TokenView)) (fault : Option (Spanned Fault)) → IsAtEnd text self.old → IsAhead origin text self.old self.old.stage lexemes fault → IsLast origin text lexemes fault result self.new }
        ensures reads { (text : Text) → IsAtEnd text self.old → HasRead text self.old → HasReadLast text result self.new }
    {
        match mem::replace(&mut self.stage, Stage::Closed) {
            Stage::Fault { begin, fault, end } => Some((begin, fault, end)),
            _ => None,
        }
    }

    /// Goes on at byte `end` after the fault that was taken: brackets, f-strings and indents stay open.
    /// `looked` reads, and one more, found that byte.
    pub fn go_on(&mut self, end: usize, looked: usize)
        requires fits { looked < 2 ^ 64 - 1 }
        ensures text { self.new.text ≡ self.old.text }
        ensures ahead { (origin : Origin) (text : Text) (history : History) → IsStateAfter origin text history self.old → self.old.at ≤ end → IsCharBoundary text end →
            IsAhead (From (kept_history history) end) text self.new self.new.stage (map shown_lexeme (remaining_outcome (kept_history history) end (drop end text)).lexemes) (remaining_outcome (kept_history history) end (drop end text)).fault }
        ensures reads { (text : Text) → more_reads 0 end ≤ self.old.reads + looked + 1 → self.old.reads + looked + 1 ≤ 10 * end + 2 → HasRead text self.new }
    {
        self.reads.count_run(looked);
        self.at = end;
        self.before = Before::Other;
        self.pending = Pending::nothing();
        self.stage = Stage::Onward;
    }

    /// Goes on after the open quote that was taken, by its bytes, at the start of another text: the one
    /// from its line end on. Its brackets count, and all else stays open.
    pub fn go_on_after_quote(&mut self, quote: &[u8], text: &'a str)
        requires room { bracket_count self.old.nesting + length quote.now + length text.now < 2 ^ 33 }
        ensures text { self.new.text.now ≡ text.now }
        ensures ahead { (history : History) → Represents history.tokens self.old.nesting → self.old.levels ≡ open_widths history.widths → bracket_count self.old.nesting + length quote.now + length text.now < 2 ^ 32 →
            IsAhead (From (quoted_history history quote.now) 0) text.now self.new self.new.stage (map shown_lexeme (remaining_outcome (quoted_history history quote.now) 0 text.now).lexemes) (remaining_outcome (quoted_history history quote.now) 0 text.now).fault }
        ensures reads { (any : Text) → HasRead any self.new }
        ensures unread { self.new.reads ≡ 0 }
    {
        self.nesting.pass_quote(quote);
        self.text = text;
        self.at = 0;
        self.before = Before::Other;
        self.pending = Pending::nothing();
        self.stage = Stage::Onward;
        self.reads = ReadCounter::new();
    }

    /// The next word if its first two bytes tell its kind, as of `word_after`; `None` if something else
    /// comes. The spaces before it are passed. For offsets in code.
    #[inline(always)]
    pub fn common_word(&mut self) -> Option<Word>
        requires sound { IsSound self.old }
        requires code { IsAtCode self.old.text.now self.old }
        ensures text { self.new.text ≡ self.old.text }
        ensures sound { IsSound self.new }
        ensures ahead { KeepsAhead self.old self.new }
        ensures onward { left_to_read self.old.text.now self.new self.new.stage ≤ left_to_read self.old.text.now self.old self.old.stage }
        ensures code { IsAtCode self.new.text.now self.new }
        ensures stands { IfSome result (λ word. IsWordHere self.new.text.now self.new word) }
        ensures comment { IfSome result (λ word. word.class ≢ class.Comment) }
        ensures none { result ≡ None → begins is_name_start (drop self.new.at self.new.text.now) ≡ false }
        ensures rest { result ≡ None → begins_mark (drop self.new.at self.new.text.now) ≡ false }
        ensures lookahead { IfSome result (λ word. HasScanned word.len ((5 * word.len - 4) + 2) self.old self.new) }
        ensures peeked { result ≡ None → HasScanned (peeked_len (drop self.new.at self.new.text.now)) (peeked_len (drop self.new.at self.new.text.now)) self.old self.new }
    {
        let (gap, first) = gap_and_next(&self.text[self.at..]);
        if gap > 0 {
            self.step_over(gap, Before::Gap);
        }
        word_after(&mut self.reads, gap, first, &self.text[self.at..])
    }

    /// The word at the offset, where `common_word` has found none; `None` if no word begins there.
    #[tactic(auto, using(crate::proofs::TakenPieces::ReaderReads::reads_ahead, crate::proofs::TakenPieces::SameTexts::scanned_sound))]
    #[inline(always)]
    pub fn unnamed_word(&mut self) -> Option<Word>
        requires sound { IsSound self.old }
        requires code { IsAtCode self.old.text.now self.old }
        requires unnamed { begins is_name_start (drop self.old.at self.old.text.now) ≡ false }
        ensures text { self.new.text ≡ self.old.text }
        ensures sound { IsSound self.new }
        ensures ahead { KeepsAhead self.old self.new }
        ensures code { IsAtCode self.new.text.now self.new }
        ensures stands { IfSome result (IsWordHere self.new.text.now self.new) }
        ensures none { result ≡ None → language_front (drop self.new.at self.new.text.now) ≡ None }
        ensures class { begins_mark (drop self.old.at self.old.text.now) ≡ false → IfSome result (λ word. is_common word.class ≡ false) }
        ensures lookahead { HasScannedHere (word_len result - peeked_len (drop self.old.at self.old.text.now)) (5 * word_len result + 3 - peeked_len (drop self.old.at self.old.text.now)) self.old self.new }
    {
        unnamed_word(&mut self.reads, &self.text[self.at..])
    }

    /// Whether the bang of an f-string expression comes next. For offsets in code.
    #[inline(always)]
    pub fn bang_stands(&mut self) -> bool
        requires sound { IsSound self.old }
        requires code { IsAtCode self.old.text.now self.old }
        ensures text { self.new.text ≡ self.old.text }
        ensures sound { IsSound self.new }
        ensures ahead { KeepsAhead self.old self.new }
        ensures code { IsAtCode self.new.text.now self.new }
        ensures stands { result ≡ true → IsBangHere self.new.text.now self.new }
        ensures lookahead { HasScannedHere 2 2 self.old self.new }
        ensures other { result ≡ false → (origin : Origin) (history : History) → IsStateAfter origin self.new.text.now history self.new → (grammar.takes_bang (mode_after history.tokens) history.before && grammar.is_bang (drop self.new.at self.new.text.now)) ≡ false }
    {
        let front = self.reads.front(self.text[self.at..].as_bytes(), 2);
        match (self.nesting.mode(), self.before) {
            (_, Before::Gap) => false,
            (LexerMode::AtTop, _) => is_bang(front),
            _ => false,
        }
    }

    /// Takes the newline of `len` bytes here, and the margin after it if it counts. Returns the
    /// outcome. Don't use the reader after an `AllocError`.
    #[inline(never)]
    pub fn take_line_end(&mut self, len: usize) -> Result<TakenLineEnd, AllocError>
        requires sound { IsSound self.old }
        requires stands { IsWordHere self.old.text.now self.old (record { class = class.LineEnd; len = len }) }
        ensures text { self.new.text ≡ self.old.text }
        ensures ahead { IfOk result (λ line_end. TakesNext self.old (newline_of line_end self.old.at len) self.new) }
        ensures memory { OnErr result (HasSomething self.old) }
        ensures cut { IsCharBoundary self.old.text.now (self.old.at + len) }
        ensures code { IfOk result (λ line_end. line_end ≡ TakenLineEnd.Passed → IsAtCode self.old.text.now self.new) }
        ensures taken { IfOk result (λ line_end. line_end ≡ TakenLineEnd.Passed → IsTaken len self.old self.new) }
        ensures end { IfOk result (λ line_end. line_end ≡ TakenLineEnd.Fault → IsAtEnd self.old.text.now self.new) }
        ensures reads { IfOk result (λ line_end. line_end ≢ TakenLineEnd.Passed → IsMarginRead self.old.text.now len self.old self.new self.new.stage) }
        ensures onward { IfOk result (λ line_end. line_end ≡ TakenLineEnd.Newline → (self.new.stage ≡ Stage.Onward) × IsInCode self.new × ((text : Text) → pending_lexemes text self.new.pending ≡ [])) }
    {
        if self.nesting.counts_line_ends() {
            return self.put_line_end(len);
        }
        self.step_over(len, Before::Other);
        Ok(TakenLineEnd::Passed)
    }

    /// Length in bytes of the next literal's body, if it has no escapes and one quote closes it.
    /// Its opener has `len` bytes. For any other literal, the error is the length of the run
    /// without escapes at its start.
    #[tactic(auto, using(crate::proofs::TakenPieces::ReaderReads::reads_ahead, crate::proofs::TakenPieces::SameTexts::scanned_sound))]
    #[inline(always)]
    pub fn plain_body_len(
        &mut self,
        kind: LiteralKind,
        is_raw: bool,
        quote: Quote,
        len: usize,
    ) -> Result<usize, usize>
        requires sound { IsSound self.old }
        requires stands { IsWordHere self.old.text.now self.old (record { class = class.Opener kind is_raw quote; len = len }) }
        ensures text { self.new.text ≡ self.old.text }
        ensures sound { IsSound self.new }
        ensures ahead { KeepsAhead self.old self.new }
        ensures stands { IsWordHere self.new.text.now self.new (record { class = class.Opener kind is_raw quote; len = len }) }
        ensures plain { IfOk result (λ body. IsPlainBody kind is_raw quote (drop len (drop self.new.at self.new.text.now)) body) }
        ensures lookahead { IfOk result (λ body. HasScannedHere (body + 1) (6 * body + 3) self.old self.new) }
        ensures other { IfErr result (λ run. IsRun (single_literal kind is_raw quote) (drop len (drop self.new.at self.new.text.now)) run × HasScannedHere run (6 * run + 3) self.old self.new) }
    {
        let rest = &self.text[self.at..];
        plain_body_len(&mut self.reads, kind, is_raw, quote, &rest[len..])
    }

    /// Takes the bytes literal here, whose opener has `len` bytes and whose body has `body` bytes. One
    /// quote closes it, and it has no escapes. Don't use the reader after an `AllocError`.
    #[inline(always)]
    pub fn take_plain_bytes(
        &mut self,
        is_raw: bool,
        quote: Quote,
        len: usize,
        body: usize,
    ) -> Result<(usize, Token, usize), AllocError>
        requires sound { IsSound self.old }
        requires stands { IsWordHere self.old.text.now self.old (record { class = class.Opener kind.Bytes is_raw quote; len = len }) }
        requires plain { IsPlainBody kind.Bytes is_raw quote (drop len (drop self.old.at self.old.text.now)) body }
        ensures text { self.new.text ≡ self.old.text }
        ensures ahead { IfOk result (λ given. TakesNext self.old (Some given) self.new) }
        ensures memory { OnErr result (HasSomething self.old) }
        ensures code { OnOk result (IsAtCode self.new.text.now self.new) }
        ensures taken { OnOk result (IsTaken (len + body + 1) self.old self.new) }
    {
        let rest = &self.text[self.at..];
        let remainder = &rest[len..];
        let mut value = Vec::new(self.alloc);
        value.extend_from_slice(remainder[..body].as_bytes())?;
        Ok(self.take_token(Token::Bytes(value), len + body + 1))
    }

    /// Takes the start of the f-string here, whose opener has `len` bytes. Don't use the reader after
    /// an `AllocError`.
    #[inline(always)]
    pub fn take_fstring(
        &mut self,
        is_raw: bool,
        quote: Quote,
        len: usize,
    ) -> Result<(usize, Token, usize), AllocError>
        requires sound { IsSound self.old }
        requires stands { IsWordHere self.old.text.now self.old (record { class = class.Opener kind.FString is_raw quote; len = len }) }
        ensures text { self.new.text ≡ self.old.text }
        ensures ahead { IfOk result (λ given. TakesNext self.old (Some given) self.new) }
        ensures memory { OnErr result (HasSomething self.old) }
        ensures begun { OnOk result (HasStarted len self.old self.new) }
    {
        let begin = self.at;
        let rest = &self.text[begin..];
        let opening = opening_of(&mut self.reads, is_raw, quote, &rest[len..]);
        let len = if opening.is_triple { len + 2 } else { len };
        self.nesting.begin_fstring(opening)?;
        self.step_over(len, Before::Other);
        Ok((begin, Token::FStringStart(quotes_of(opening)), begin + len))
    }

    /// The f-string text that comes next, if it has no escapes. Else the error is the
    /// length in bytes of the run without these at its start. `None` outside of f-string text.
    #[tactic(auto, using(crate::proofs::TakenPieces::ReaderReads::reads_ahead, crate::proofs::TakenPieces::SameTexts::scanned_sound))]
    #[inline(always)]
    pub fn plain_text(&mut self) -> Option<Result<Chunk, usize>>
        requires sound { IsSound self.old }
        requires stage { self.old.stage ≡ Stage.Onward }
        requires idle { IsIdle self.old.text.now self.old.pending }
        ensures text { self.new.text ≡ self.old.text }
        ensures sound { IsSound self.new }
        ensures ahead { KeepsAhead self.old self.new }
        ensures none { result ≡ None → (self.new ≡ self.old) × IsInCode self.old }
        ensures stands { IfSome result (λ found. IfOk found (λ plain. IsPlainTextHere self.new.text.now self.new plain)) }
        ensures some { IfSome result (λ found. IfOk found (λ plain. (0 < plain.stop_len) × (plain.stop_len ≤ 3))) }
        ensures lookahead { IfSome result (λ found. IfOk found (λ plain. HasScannedHere (plain.len + 3) (6 * plain.len + 4) self.old self.new)) }
        ensures other { IfSome result (λ found. IfErr found (λ run. IsTextRun self.new.text.now run self.new × HasScannedHere run (6 * run + 4) self.old self.new)) }
    {
        let LexerMode::InText(opening) = self.nesting.mode() else {
            return None;
        };
        Some(plain_text(&mut self.reads, opening, &self.text[self.at..]))
    }

    /// Takes the keyword or symbol of `len` bytes here.
    #[inline(always)]
    pub fn take_terminal(&mut self, terminal: Terminal, len: usize) -> (usize, Token, usize)
        requires sound { IsSound self.old }
        requires stands { IsWordHere self.old.text.now self.old (record { class = class.Fixed terminal; len = len }) }
        ensures text { self.new.text ≡ self.old.text }
        ensures ahead { TakesNext self.old (Some result) self.new }
        ensures token { IsTokenOf terminal (token_view result.1) }
        ensures code { IsInCode self.new → IsAtCode self.old.text.now self.new }
        ensures other { terminal ≢ Terminal.ClosingCurly → (token_view result.1 ≡ symbol_view false terminal) × IsInCode self.new }
        ensures taken { IsTaken len self.old self.new }
    {
        let token = match terminal {
            Terminal::ClosingCurly => match self.nesting.mode() {
                LexerMode::AtTop => Token::FStringExprEnd,
                _ => Token::ClosingCurly,
            },
            _ => own_token(terminal),
        };
        self.take_token(token, len)
    }

    /// The value of the integer here if it has one digit; `None` for any other word.
    #[inline(always)]
    pub fn single_digit(&self, word: Word) -> Option<u8>
        requires sound { IsSound self.now }
        requires stands { IsWordHere self.now.text.now self.now word }
        ensures stands { IfSome result (λ digit. word ≡ record { class = class.Decimal; len = 1 }) }
        ensures digit { IfSome result (λ digit. IsDigitAt digit (drop self.now.at self.now.text.now)) }
    {
        let (Class::Decimal, 1) = (word.class, word.len) else {
            return None;
        };
        let first = self.text[self.at..].as_bytes().first()?;
        Some(*first - b'0')
    }

    /// Takes the integer of one digit here, whose value is `digit`.
    #[inline(always)]
    pub fn take_digit(&mut self, digit: u8) -> (usize, Token, usize)
        requires sound { IsSound self.old }
        requires stands { IsWordHere self.old.text.now self.old (record { class = class.Decimal; len = 1 }) }
        requires digit { IsDigitAt digit (drop self.old.at self.old.text.now) }
        ensures text { self.new.text ≡ self.old.text }
        ensures ahead { TakesNext self.old (Some result) self.new }
        ensures code { IsAtCode self.new.text.now self.new }
        ensures taken { IsTaken 1 self.old self.new }
    {
        self.take_token(Token::Int(TokenInt::I32(i32::from(digit))), 1)
    }

    /// Whether the word here is a number, and not a 0 before more digits.
    #[inline(always)]
    pub fn is_plain_number(&self, word: Word) -> bool
        requires sound { IsSound self.now }
        requires stands { IsWordHere self.now.text.now self.now word }
        ensures number { result ≡ true → is_number word.class ≡ true }
        ensures plain { result ≡ true → word.class ≡ class.Decimal → grammar.starts_zero (take word.len (drop self.now.at self.now.text.now)) ≡ false }
        ensures other { result ≡ false → is_number word.class ≡ true → IsFaultWord word.class (take word.len (drop self.now.at self.now.text.now)) }
    {
        match word.class {
            Class::Decimal => {
                let rest = &self.text.as_bytes()[self.at..];
                !matches!(&rest[..word.len], [b'0', _, ..])
            }
            Class::Hexadecimal | Class::Octal | Class::Binary | Class::Float => true,
            _ => false,
        }
    }

    /// Takes the number here, which isn't a 0 before more digits. Don't use the reader after an
    /// `AllocError`.
    #[inline(always)]
    pub fn take_number(&mut self, word: Word) -> Result<(usize, Token, usize), AllocError>
        requires sound { IsSound self.old }
        requires stands { IsWordHere self.old.text.now self.old word }
        requires class { is_number word.class ≡ true }
        requires plain { word.class ≡ class.Decimal → grammar.starts_zero (take word.len (drop self.old.at self.old.text.now)) ≡ false }
        ensures text { self.new.text ≡ self.old.text }
        ensures ahead { IfOk result (λ given. TakesNext self.old (Some given) self.new) }
        ensures memory { OnErr result (HasSomething self.old) }
        ensures code { OnOk result (IsAtCode self.new.text.now self.new) }
        ensures taken { OnOk result (IsTaken word.len self.old self.new) }
    {
        let rest = &self.text[self.at..];
        let token = number_token(self.alloc, word.class, &rest[..word.len])?;
        Ok(self.take_token(token, word.len))
    }

    /// Takes the string or bytes literal whose opener of `len` bytes is here, or stops at its fault. The
    /// `run` bytes after the opener are known.
    pub fn read_literal(
        &mut self,
        kind: LiteralKind,
        is_raw: bool,
        quote: Quote,
        len: usize,
        run: usize,
    ) -> Result<Option<(usize, Token, usize)>, AllocError>
        requires sound { IsSound self.old }
        requires found { IsLiteralHere self.old.text.now self.old (record { class = class.Opener kind is_raw quote; len = len }) run }
        ensures text { self.new.text ≡ self.old.text }
        ensures ahead { IfOk result (λ given. TakesNext self.old given self.new) }
        ensures end { IfOk result (λ given. given ≡ None → IsAtEnd self.old.text.now self.new) }
        ensures memory { OnErr result (HasSomething self.old) }
        ensures reads { OnOk result (HasRead self.old.text.now self.new) }
    {
        let mode = self.nesting.mode();
        let rest = &self.text[self.at..];
        let remainder = &rest[len..];
        let opening = opening_of(&mut self.reads, is_raw, quote, remainder);
        let quotes = if opening.is_triple { 2 } else { 0 };
        let found = literal_piece(
            &mut self.reads,
            self.alloc,
            mode,
            Literal { kind, opening },
            len + quotes,
            run,
            &remainder[quotes..],
        )?;
        match found {
            Ok((token, len)) => Ok(Some(self.take_token(token, len))),
            Err((begin, fault, end)) => {
                self.refuse(begin, fault, end);
                Ok(None)
            }
        }
    }

    /// Takes the f-string text here up to its first stop, or stops at its fault. Its first `run` bytes are
    /// known.
    pub fn read_text(&mut self, run: usize) -> Result<Option<(usize, Token, usize)>, AllocError>
        requires sound { IsSound self.old }
        requires here { IsTextRun self.old.text.now run self.old }
        requires peeked { HasPeeked self.old.text.now run (8 * run + 4) self.old }
        ensures text { self.new.text ≡ self.old.text }
        ensures ahead { IfOk result (λ given. TakesNext self.old given self.new) }
        ensures end { IfOk result (λ given. given ≡ None → IsAtEnd self.old.text.now self.new) }
        ensures memory { OnErr result (HasSomething self.old) }
        ensures reads { OnOk result (HasRead self.old.text.now self.new) }
    {
        let LexerMode::InText(opening) = self.nesting.mode() else {
            unreachable!()
        };
        let rest = &self.text[self.at..];
        let found = chunk_from(&mut self.reads, self.alloc, opening, run, rest)?;
        match found {
            Ok((value, chunk)) if value.is_empty() => Ok(Some(self.take_chunk_end(chunk))),
            Ok((value, chunk)) => {
                let begin = self.at;
                self.pass_chunk(chunk);
                Ok(Some((begin, Token::FStringText(value), begin + chunk.len)))
            }
            Err((begin, fault, end)) => {
                self.refuse(begin, fault, end);
                Ok(None)
            }
        }
    }
}
