//! Texts with all their lexemes: lexed, joined, and lexed again after an edit.

ghost use Rattle.std.specs.Prelude.{◌≡◌, ◌<◌, ◌≤◌, ◌+◌, ◌*◌, ◌-◌, ◌++◌, ◌==◌, ◌||◌, ◌^◌, ◌↔◌, ℕ, List, None, length, map, true, IfOk, IfErr, OnErr, OnOk, option_copied, take};
ghost use Rattle.std.specs.List.{All};
ghost use Rattle.std.specs.Str.{IsCharBoundary};
ghost use Rattle.starlark_base.specs.Refusals.{IsRefused};
ghost use Rattle.starlark_base.specs.Sources.{SourceFile};
ghost use Rattle.starlark_grammar.specs.Cuts.{is_clean_cut};
ghost use Rattle.starlark_grammar.specs.Reading.{outcome};
ghost use Rattle.starlark_grammar.specs.Words.{Text};
ghost use Rattle.starlark_lexemes.specs.Inner.LexerStates.{IsBegun, IsLexing, whole};
ghost use Rattle.starlark_lexemes.specs.Lexer.{most_reads};
ghost use Rattle.starlark_lexed_text.specs.LexedTexts.{IsLexed, IsReadFrom};
ghost use Rattle.starlark_lexed_text.specs.LexedTexts as texts;
ghost use Rattle.starlark_token.specs.Lexemes.{lexeme_view, shown_lexeme};
ghost use Rattle.starlark_token.specs.Lexemes.{IsWithin};

use crate::cuts::{Cut, append_cuts, begin_of, is_cut_after};
use crate::meetings::{cuts_to_meet, put_part};
use crate::read_parts::{exception_of, read_part};
use crate::tails::{append_later, make_room, put_rest};
use starlark_base::codemap::{CodeMap, OrMemory, SourceTooLong};
use starlark_base::dialect::Dialect;
use starlark_errors::eval_exception::EvalException;
use starlark_lexemes::lexer_state::LexerState;
use starlark_token::tokens::Token;
use std::alloc::{AllocError, Global};
use std::marker::Model;

/// A text with all its lexemes, and with its fault if it has one.
///
/// It stores the offsets where the text can be cut, so that after an edit only the text from the
/// last of them on is lexed again. In a contract it is its text, lexemes, fault, and number of
/// reads.
#[derive(Drop)]
pub struct LexedText<'a> {
    text: &'a str,
    lexemes: Vec<(usize, Token, usize)>,
    fault: Option<EvalException>,
    cuts: Vec<Cut>,
    is_cut: bool,
    reads: u64,
}

impl<'a> Model for LexedText<'a> {
    ghost use Rattle.std.specs.Prelude.{◌≡◌, ◌<◌, ◌^◌, length, map};
    ghost use Rattle.starlark_base.specs.Sources.{SourceFile};
    ghost use Rattle.starlark_grammar.specs.Cuts.{is_clean_cut};
    ghost use Rattle.starlark_lexed_text.specs.Inner.LexedTexts.{AreCuts};
    ghost use Rattle.starlark_lexed_text.specs.LexedTexts.{IsLexed, LexedView};
    ghost use Rattle.starlark_token.specs.Lexemes.{lexeme_view};

    ghost Value = { LexedView };

    ghost view = { λ lexed. record { text = lexed.text.now; lexemes = map lexeme_view lexed.lexemes.items; fault = lexed.fault; reads = lexed.reads } };

    ghost invariant = { λ lexed. (length lexed.text.now < 2 ^ 32)
        × (lexed.is_cut ≡ is_clean_cut lexed.text.now)
        × AreCuts lexed.text.now lexed.cuts.items
        × ((file : SourceFile) × IsLexed file (record { text = lexed.text.now; lexemes = map lexeme_view lexed.lexemes.items; fault = lexed.fault; reads = lexed.reads })) };
}

impl<'a> LexedText<'a> {
    /// Lexes a text up to its end or its first fault, which gets a span of the code map.
    ///
    /// Fails where the text has more than 4294967295 bytes, and else where memory runs out. Either
    /// error drops the code map. The dialect has no effect.
    pub fn lex(
        alloc: Global,
        input: &'a str,
        _dialect: &Dialect,
        code_map: CodeMap,
    ) -> Result<LexedText<'a>, OrMemory<SourceTooLong>>
        ensures text { IfOk result (λ lexed. lexed.text ≡ input.now) }
        ensures lexed { IfOk result (λ lexed. IsLexed code_map lexed) }
        ensures most_reads { IfOk result (λ lexed. lexed.reads ≤ 16 * (length input.now + 1)) }
        ensures least_reads { IfOk result (λ lexed. lexed.fault ≡ None → length input.now ≤ lexed.reads) }
        ensures too_long { IsRefused result ↔ (2 ^ 32 ≤ length input.now) }
    {
        if input.len() > u32::MAX as usize {
            return Err(OrMemory::Error(SourceTooLong));
        }
        let mut state = LexerState::new(alloc, input);
        Ok(LexedText::lex_with(alloc, &mut state, &code_map)?)
    }

    /// Lexes a text from a state that has just begun, whose count of reads is that of the lexed text.
    fn lex_with(
        alloc: Global,
        state: &mut LexerState<'a>,
        code_map: &CodeMap,
    ) -> Result<LexedText<'a>, AllocError>
        requires lexing { IsLexing (whole state.old.reader.text.now) state.old }
        requires begun { IsBegun state.old.reader.text.now state.old }
        ensures text { IfOk result (λ lexed. lexed.text ≡ state.old.reader.text.now) }
        ensures lexed { IfOk result (λ lexed. IsLexed code_map.now lexed) }
        ensures counted { IfOk result (λ lexed. lexed.reads ≡ state.new.reader.reads) }
        ensures most_reads { IfOk result (λ lexed. lexed.reads ≤ most_reads state.old.reader.text.now) }
        ensures least_reads { IfOk result (λ lexed. lexed.fault ≡ None → length state.old.reader.text.now ≤ lexed.reads) }
    {
        let text = state.reader.text;
        let part = read_part(alloc, state, &[], &[])?;
        Ok(LexedText {
            text,
            lexemes: part.lexemes,
            fault: exception_of(alloc, part.fault, 0, code_map)?,
            cuts: part.cuts,
            is_cut: part.is_cut,
            reads: part.reads,
        })
    }

    /// The text that was lexed.
    pub fn text(&self) -> &'a str
        ensures { result.now ≡ self.now.text }
    {
        self.text
    }

    /// The lexemes in order, up to the fault if there is one: begin in bytes, token, end in bytes.
    ///
    /// Each lies in the text, and begins and ends at character boundaries.
    pub fn lexemes(&self) -> &[(usize, Token, usize)]
        ensures lexemes { map lexeme_view result.now ≡ self.now.lexemes }
        ensures within { All (λ lexeme. IsWithin self.now.text lexeme.0 lexeme.2) result.now }
        ensures boundaries { All (λ lexeme. IsCharBoundary self.now.text lexeme.0 × IsCharBoundary self.now.text lexeme.2) result.now }
    {
        // The proof of `boundaries` needs that the text is UTF-8, which the read of a `&str` says.
        let _text = self.text();
        &self.lexemes
    }

    /// The fault after the lexemes, if the text has one.
    pub fn fault(&self) -> Option<&EvalException>
        ensures { option_copied result ≡ self.now.fault }
    {
        self.fault.as_ref()
    }

    /// Number of reads of bytes by the call that made the lexed text.
    ///
    /// A byte that is read twice counts twice, lookahead counts, and so does each byte of a SIMD
    /// step. After `lex` of `n` bytes it is at most `16 * (n + 1)`, and at least `n` if there is no
    /// fault. After `relex` these bounds hold with the number of bytes after the cut that it began
    /// at. After `join` it is 0.
    pub fn reads(&self) -> u64
        ensures { result ≡ self.now.reads }
    {
        self.reads
    }

    /// Whether the text is a clean cut, so that another text can be joined to it.
    ///
    /// It is if it has no fault, its last byte is an LF that ends a logical or blank line or a
    /// comment, and no bracket, f-string or block is open after that. It is stored: no byte is
    /// read.
    pub fn is_clean_cut(&self) -> bool
        ensures { result ≡ is_clean_cut self.now.text }
    {
        self.is_cut
    }

    /// Whether a clean cut joined with this text is a clean cut: this one is a clean cut, or empty.
    fn leaves_cut(&self) -> bool
        ensures { result ≡ (is_clean_cut self.now.text || length self.now.text == 0) }
    {
        self.is_cut || self.text.is_empty()
    }

    /// Joins two lexed texts to one: no byte is read, and the second one's lexemes are moved.
    ///
    /// Four conditions must hold:
    ///
    /// - this text is a clean cut: `is_clean_cut` is the test;
    /// - the second text has no fault: `fault` is `None`;
    /// - `joined` is this text followed by the second one;
    /// - `joined` is shorter than 4294967296 bytes.
    ///
    /// The error is both lexed texts, unchanged, where memory runs out.
    pub fn join(
        self,
        second: LexedText<'a>,
        joined: &'a str,
    ) -> Result<LexedText<'a>, (LexedText<'a>, LexedText<'a>)>
        requires clean { is_clean_cut self.text ≡ true }
        requires faultless { second.fault ≡ None }
        requires whole { joined.now ≡ self.text ++ second.text }
        requires fits { length joined.now < 2 ^ 32 }
        ensures joined { IfOk result (λ lexed. lexed ≡ texts.joined self.entry second.entry) }
        ensures lexed { IfOk result (λ lexed. (file : SourceFile) → IsLexed file lexed) }
        ensures refused { IfErr result (λ both. both ≡ (self.entry, second.entry)) }
    {
        let mut first = self;
        let kept = first.lexemes.len().saturating_sub(1);
        let cuts = first.cuts.len();
        if make_room(&mut first.lexemes, kept, second.lexemes.len()).is_err()
            || make_room(&mut first.cuts, cuts, second.cuts.len()).is_err()
        {
            return Err((first, second));
        }
        let is_cut = second.leaves_cut();
        let begin = first.text.len();
        append_later(&mut first.lexemes, kept, second.lexemes, begin);
        append_cuts(&mut first.cuts, cuts, second.cuts, begin, kept);
        Ok(LexedText {
            text: joined,
            lexemes: first.lexemes,
            fault: None,
            cuts: first.cuts,
            is_cut,
            reads: 0,
        })
    }

    /// Lexes the text again after an edit that changes nothing before byte `from`.
    ///
    /// Four conditions must hold:
    ///
    /// - `from` is a character boundary of this text;
    /// - `from` is a character boundary of `edited`;
    /// - both texts have the same first `from` bytes;
    /// - `edited` is shorter than 4294967296 bytes.
    ///
    /// The result is what `lex` returns for `edited`, with its fault in this code map. Only the
    /// bytes after the last cut at or before `from` are read, and no lexeme before it is made
    /// again. If this text has no fault, lexing stops where `edited` meets it again: the bytes after
    /// that are compared, and their lexemes moved. The error is the lexed text, unchanged, where
    /// memory runs out.
    pub fn relex(
        self,
        from: usize,
        edited: &'a str,
        code_map: &CodeMap,
    ) -> Result<LexedText<'a>, LexedText<'a>>
        requires old { IsCharBoundary self.text from }
        requires new { IsCharBoundary edited.now from }
        requires same { take from self.text ≡ take from edited.now }
        requires fits { length edited.now < 2 ^ 32 }
        ensures text { IfOk result (λ lexed. lexed.text ≡ edited.now) }
        ensures lexed { IfOk result (λ lexed. IsLexed code_map.now lexed) }
        ensures reads { IfOk result (IsReadFrom self.entry edited.now from) }
        ensures refused { IfErr result (λ lexed. lexed ≡ self.entry) }
    {
        let mut lexed = self;
        let mut state = LexerState::new(*lexed.lexemes.allocator(), edited);
        match lexed.relex_with(&mut state, from, edited, code_map) {
            Ok(()) => Ok(lexed),
            Err(_) => Err(lexed),
        }
    }

    /// Lexes the text again after an edit, as `relex` says. On `AllocError` the lexed text doesn't
    /// change.
    ///
    /// It puts the state that lexes the rest in the place of `state`, whose count of reads is that of
    /// the lexed text.
    fn relex_with(
        &mut self,
        state: &mut LexerState<'a>,
        from: usize,
        edited: &'a str,
        code_map: &CodeMap,
    ) -> Result<(), AllocError>
        requires old { IsCharBoundary self.old.text from }
        requires new { IsCharBoundary edited.now from }
        requires same { take from self.old.text ≡ take from edited.now }
        requires fits { length edited.now < 2 ^ 32 }
        ensures text { OnOk result (self.new.text ≡ edited.now) }
        ensures lexed { OnOk result (IsLexed code_map.now self.new) }
        ensures counted { OnOk result (self.new.reads ≡ state.new.reader.reads) }
        ensures reads { OnOk result (IsReadFrom self.old edited.now from self.new) }
        ensures refused { OnErr result (self.new ≡ self.old) }
    {
        let alloc = *self.lexemes.allocator();
        let begin = begin_of(&self.cuts, from);
        let rest = &edited[begin.at..];
        *state = LexerState::new(alloc, rest);
        let cuts = cuts_to_meet(&self.cuts, begin.cuts, self.fault.is_some());
        let part = read_part(alloc, state, self.text.as_bytes(), cuts)?;
        let reads = part.reads;
        if let Some(meeting) = part.met {
            // With a fault no cut is met, so `fault` is `None` already.
            put_part(&mut self.lexemes, &mut self.cuts, begin, part, meeting)?;
            self.text = edited;
            self.reads = reads;
            return Ok(());
        }
        let is_cut = is_cut_after(part.is_cut, rest, begin.at);
        self.fault = put_rest(
            alloc,
            &mut self.lexemes,
            &mut self.cuts,
            begin,
            part,
            code_map,
        )?;
        self.text = edited;
        self.is_cut = is_cut;
        self.reads = reads;
        Ok(())
    }
}
