//! Fills the caller's buffers with the lexemes of a text, as the lexer yields them.

ghost use Rattle.std.specs.Prelude.{◌≡◌, ◌<◌, ◌≤◌, ◌+◌, ◌-◌, ◌^◌, ℕ, None, Some, IfSome, IfNone, false, length, take};
ghost use Rattle.starlark_base.specs.Sources.{SourceFile};
ghost use Rattle.starlark_c.specs.Endings.{IsText, lexemes_of};
ghost use Rattle.starlark_c.specs.Inner.Filling.{EndsAtFault, EndsByFault, EndsWithCutPoint, IsCutPoint, IsLastStop, IsOverflow, IsStopped, IsWanted, MayStop, Puts, PutsNext, put, wanted_by};
ghost use Rattle.starlark_c.specs.LastCuts.{IsCutIn, HasNoCut, is_without_margin};
ghost use Rattle.starlark_c.specs.Kinds.{token_number};
ghost use Rattle.starlark_c.specs.Records.{fault_bytes, values};
ghost use Rattle.starlark_c.specs.TextParts.{home, part_in};
ghost use Rattle.starlark_grammar.specs.Reading.{outcome};
ghost use Rattle.starlark_grammar.specs.Tokens.{Fault as GrammarFault, Spanned};
ghost use Rattle.starlark_lexemes.specs.CutAfter.{IsCutAfter, KnowsCut};
ghost use Rattle.starlark_errors.specs.Exceptions.{IsException, IsFaultIn};
ghost use Rattle.starlark_grammar.specs.Words.{Text};
ghost use Rattle.starlark_lexemes.specs.PlainLexemes.{IsPlainIn, plain_view, token_of};
ghost use Rattle.starlark_token.specs.Lexemes.{fault_view, lexeme_view};

use crate::endings::{Ending, Filled};
use crate::fill_state::{CutPoint, FillState, is_last_of_line, want, want_lexeme, want_plain};
use crate::lexeme_kinds::number_of_plain;
use crate::records::{
    FaultRecord, LexemeRecord, bytes_of, bytes_of_fault, bytes_of_plain, number_of_fault,
    plain_record_at, record_at, stored_bytes,
};
use crate::text_parts::{part_of, part_of_plain, stored_plain};
use starlark_syntax::codemap::{OrMemory, Span};
use starlark_syntax::error::{ErrorKind, ParserMessage};
use starlark_syntax::eval_exception::EvalException;
use starlark_syntax::lexer::{LexemeError, Lexer, Passed, Step, Token};
use std::alloc::Global;

/// Writes bytes at an offset, and returns the offset after them. `None`, and nothing changes, where
/// they don't fit.
#[inline(always)]
pub fn put_bytes(values: &mut [u8], at: usize, bytes: &[u8]) -> Option<usize>
    requires { at ≤ length values.old }
    ensures some { IfSome result (λ end. (end ≡ at + length bytes.now) × (end ≤ length values.old) × (values.new ≡ put at bytes.now values.old)) }
    ensures none { IfNone result ((length values.old < at + length bytes.now) × (values.new ≡ values.old)) }
{
    if values.len() - at < bytes.len() {
        return None;
    }
    let end = at + bytes.len();
    values[at..end].copy_from_slice(bytes);
    Some(end)
}

/// Puts a lexeme, whose value may be a part of the text, after what fills the buffers, and returns
/// what fills them then.
///
/// `None`, and nothing changes, where there is no room.
// Always, as what it calls: as calls these cost 18 % of a mix.
#[inline(always)]
pub fn put_lexeme(
    lexemes: &mut [LexemeRecord],
    values: &mut [u8],
    filled: Filled,
    part: Option<usize>,
    lexeme: &(usize, Token, usize),
) -> Option<Filled>
    requires values_within { filled.values ≤ length values.old }
    requires begin { lexeme.now.0 < 2 ^ 32 }
    requires end { lexeme.now.2 < 2 ^ 32 }
    ensures { Puts part (lexeme_view lexeme.now) filled (record { lexemes = lexemes.old; values = values.old }) (record { lexemes = lexemes.new; values = values.new }) result }
{
    if filled.lexemes >= lexemes.len() {
        return None;
    }
    let bytes = stored_bytes(part, bytes_of(&lexeme.1));
    let end = put_bytes(values, filled.values, bytes)?;
    lexemes[filled.lexemes] = record_at(filled.values, part, lexeme);
    Some(Filled {
        lexemes: filled.lexemes + 1,
        values: end,
    })
}

/// Writes bytes of a plain lexeme at an offset of the values, and returns the offset after them.
/// `None`, and nothing changes, where they don't fit.
// A kind without a value calls nothing: a copy of no bytes costs 12 instructions a lexeme.
#[inline(always)]
fn put_some_bytes(values: &mut [u8], at: usize, bytes: &[u8]) -> Option<usize>
    requires { at ≤ length values.old }
    ensures some { IfSome result (λ end. (end ≡ at + length bytes.now) × (end ≤ length values.old) × (values.new ≡ put at bytes.now values.old)) }
    ensures none { IfNone result ((length values.old < at + length bytes.now) × (values.new ≡ values.old)) }
{
    if bytes.is_empty() {
        return Some(at);
    }
    put_bytes(values, at, bytes)
}

/// Puts a plain lexeme of a text, whose kind has a number, and whose value may stay there, after what
/// fills the buffers, and returns what fills them then.
///
/// `None`, and nothing changes, where there is no room.
#[inline(always)]
fn put_plain(
    lexemes: &mut [LexemeRecord],
    values: &mut [u8],
    filled: Filled,
    number: u16,
    text: &str,
    stays: bool,
    plain: Passed,
) -> Option<Filled>
    requires number { (value : Text) → number ≡ token_number (token_of plain.kind value) }
    requires values_within { filled.values ≤ length values.old }
    requires plain { IsPlainIn text.now plain }
    ensures { Puts (part_in (home stays text.now) (plain_view text.now plain)) (plain_view text.now plain) filled (record { lexemes = lexemes.old; values = values.old }) (record { lexemes = lexemes.new; values = values.new }) result }
{
    if lexemes.len() <= filled.lexemes {
        return None;
    }
    let end = put_some_bytes(values, filled.values, stored_plain(text, stays, plain))?;
    let part = part_of_plain(text, stays, plain);
    let bytes = bytes_of_plain(text, plain);
    lexemes[filled.lexemes] = plain_record_at(filled.values, part, bytes.len(), number, plain);
    Some(Filled {
        lexemes: filled.lexemes + 1,
        values: end,
    })
}

/// The error of the lexer that an exception of a fault is of.
pub fn error_of(exception: &EvalException) -> &LexemeError
    requires { (file : SourceFile) × ((fault : Spanned GrammarFault) × IsException file fault exception.now) }
    ensures { (file : SourceFile) (fault : Spanned GrammarFault) → IsException file fault exception.now → fault_view result.now ≡ Some fault.node }
{
    match exception.error().kind() {
        ErrorKind::Parser(ParserMessage::Lexeme(error)) => error,
        _ => unreachable!(),
    }
}

/// The span of an exception of a fault.
pub fn span_of(exception: &EvalException) -> Span
    requires { (file : SourceFile) × ((fault : Spanned GrammarFault) × IsException file fault exception.now) }
    ensures { (file : SourceFile) (fault : Spanned GrammarFault) → IsException file fault exception.now → result ≡ record { begin = fault.begin; end = fault.end } }
{
    let Some(place) = exception.error().span() else {
        unreachable!()
    };
    place.span
}

/// Puts the text that a text's fault names after the values, where it fits, and says how lexing
/// ended. The exception is of that fault.
fn put_fault(_text: &str, values: &mut [u8], filled: Filled, exception: &EvalException) -> Ending
    requires within { filled.values ≤ length values.old }
    requires thrown { (file : SourceFile) × IsFaultIn file (outcome _text.now).fault (Some exception.now) }
    ensures { (fault : Spanned GrammarFault) → (outcome _text.now).fault ≡ Some fault → EndsByFault fault filled values.old values.new result }
{
    let error = error_of(exception);
    let span = span_of(exception);
    let bytes = bytes_of_fault(error);
    let Some(end) = put_bytes(values, filled.values, bytes) else {
        return Ending::Full {
            wanted: filled.with(0, bytes.len()),
        };
    };
    Ending::Fault {
        filled: Filled {
            lexemes: filled.lexemes,
            values: end,
        },
        fault: FaultRecord {
            kind: number_of_fault(error),
            begin: span.begin().get(),
            end: span.end().get(),
            value_begin: filled.values,
            value_len: bytes.len(),
        },
    }
}

/// Puts a lexeme of a text after what fills the buffers, and goes on after it.
///
/// Where there is no room, nothing changes, and the error is what is wanted with the lexeme.
#[inline(always)]
fn put_next(
    lexemes: &mut [LexemeRecord],
    values: &mut [u8],
    progress: &mut FillState,
    text: &str,
    stays: bool,
    lexeme: &(usize, Token, usize),
) -> Result<(), Filled>
    requires values_within { progress.old.filled.values ≤ length values.old }
    requires begin { lexeme.now.0 < 2 ^ 32 }
    requires end { lexeme.now.2 < 2 ^ 32 }
    requires within { lexeme.now.2 ≤ length text.now }
    ensures { PutsNext (home stays text.now) (lexeme_view lexeme.now) progress.old progress.new (record { lexemes = lexemes.old; values = values.old }) (record { lexemes = lexemes.new; values = values.new }) result }
{
    let part = part_of(text, stays, lexeme);
    match put_lexeme(lexemes, values, progress.filled, part, lexeme) {
        Some(filled) => {
            progress.filled = filled;
            Ok(())
        }
        None => Err(want(progress.filled, part, &lexeme.1)),
    }
}

/// Puts a lexeme of a text after what fills the buffers, as `put_next` does, and drops it.
#[inline(always)]
fn take_next(
    lexemes: &mut [LexemeRecord],
    values: &mut [u8],
    progress: &mut FillState,
    text: &str,
    stays: bool,
    lexeme: (usize, Token, usize),
) -> Result<(), Filled>
    requires values_within { progress.old.filled.values ≤ length values.old }
    requires begin { lexeme.0 < 2 ^ 32 }
    requires end { lexeme.2 < 2 ^ 32 }
    requires within { lexeme.2 ≤ length text.now }
    ensures { PutsNext (home stays text.now) (lexeme_view lexeme) progress.old progress.new (record { lexemes = lexemes.old; values = values.old }) (record { lexemes = lexemes.new; values = values.new }) result }
{
    put_next(lexemes, values, progress, text, stays, &lexeme)
}

/// Puts a plain lexeme of a text after what fills the buffers, and goes on after it.
///
/// Where there is no room, nothing changes, and the error is what is wanted with the lexeme.
#[inline(always)]
fn take_plain(
    lexemes: &mut [LexemeRecord],
    values: &mut [u8],
    progress: &mut FillState,
    text: &str,
    stays: bool,
    plain: Passed,
) -> Result<(), Filled>
    requires values_within { progress.old.filled.values ≤ length values.old }
    requires plain { IsPlainIn text.now plain }
    ensures { PutsNext (home stays text.now) (plain_view text.now plain) progress.old progress.new (record { lexemes = lexemes.old; values = values.old }) (record { lexemes = lexemes.new; values = values.new }) result }
{
    // First: so each kind of plain lexeme has its number without a table (5 % of a mix).
    let number = number_of_plain(plain.kind);
    match put_plain(lexemes, values, progress.filled, number, text, stays, plain) {
        Some(filled) => {
            progress.filled = filled;
            Ok(())
        }
        None => Err(want_plain(progress.filled, text, stays, plain)),
    }
}

/// Length of the text that the fault of an exception names, in bytes. It drops the exception.
fn named_len(exception: EvalException) -> usize
    requires { (file : SourceFile) × ((fault : Spanned GrammarFault) × IsException file fault exception) }
    ensures { (file : SourceFile) (fault : Spanned GrammarFault) → IsException file fault exception → result ≡ length (fault_bytes fault.node) }
{
    bytes_of_fault(error_of(&exception)).len()
}

/// Whether a line begins with neither a blank nor a comment.
#[tactic(auto, unfolding(crate::specs::LastCuts::is_without_margin))]
fn has_no_margin(line: &[u8]) -> bool
    ensures { result ≡ is_without_margin line.now }
{
    match line {
        [b' ' | b'\t' | b'\r' | b'#', ..] => false,
        [_, ..] => true,
        [] => false,
    }
}

/// Where a text may be cut after the lexemes that its lexer has yielded, if it may.
///
/// The front of a longer text may be cut only before a line that begins with neither a blank nor a
/// comment. Else what follows the front could put a tab before content there, which takes the `Newline`
/// before the cut back.
#[inline(always)]
fn cut_of(text: &str, is_front: bool, lexer: &Lexer<'_>) -> Option<usize>
    requires { lexer.now.text ≡ text.now }
    ensures cut { IfSome result (IsCutIn text.now is_front lexer.now.yielded_count) }
    ensures found { KnowsCut lexer.now.text lexer.now.yielded_count lexer.now.cut → (at : ℕ) → IsCutIn text.now is_front lexer.now.yielded_count at → result ≡ Some at }
{
    let at = lexer.cut()?;
    if is_front && !has_no_margin(&text.as_bytes()[at..]) {
        return None;
    }
    Some(at)
}

/// How much the lexemes of a text want up to where it may be cut, or all of them and its fault.
///
/// What was passed is counted: the lexemes that the lexer has yielded. `None` where memory runs out.
fn count_piece(
    text: &str,
    stays: bool,
    is_front: bool,
    lexer: &mut Lexer<'_>,
    passed: Filled,
) -> Option<Filled>
    requires same { lexer.old.text ≡ text.now }
    requires going { lexer.old.has_ended ≡ false }
    requires few { lexer.old.yielded_count ≤ length (lexemes_of lexer.old.text) }
    requires uncut { HasNoCut is_front lexer.old.text lexer.old.yielded_count }
    requires counted { passed ≡ wanted_by lexer.old.yielded_count (length (values (home stays text.now) (take lexer.old.yielded_count (lexemes_of lexer.old.text)))) }
    ensures { IfSome result (IsWanted (home stays text.now) lexer.old.text is_front lexer.old.yielded_count) }
{
    let mut passed = passed;
    while let Some(item) = lexer.next() {
        match item {
            Ok(lexeme) => {
                passed = want_lexeme(passed, text, stays, lexeme);
                if cut_of(text, is_front, lexer).is_some() {
                    return Some(passed);
                }
            }
            Err(OrMemory::Error(exception)) => {
                return Some(passed.with(0, named_len(exception)));
            }
            Err(OrMemory::Memory) => return None,
        }
    }
    Some(passed)
}

/// How much the first piece of a text wants, where a lexeme, which a lexer has just yielded, has no
/// room. `None` where memory runs out.
fn count_first_piece(
    text: &str,
    stays: bool,
    is_front: bool,
    lexer: &mut Lexer<'_>,
    passed: Filled,
) -> Option<Filled>
    requires same { lexer.old.text ≡ text.now }
    requires going { lexer.old.has_ended ≡ false }
    requires few { lexer.old.yielded_count ≤ length (lexemes_of lexer.old.text) }
    requires known { KnowsCut lexer.old.text lexer.old.yielded_count lexer.old.cut }
    requires uncut { HasNoCut is_front lexer.old.text (lexer.old.yielded_count - 1) }
    requires counted { passed ≡ wanted_by lexer.old.yielded_count (length (values (home stays text.now) (take lexer.old.yielded_count (lexemes_of lexer.old.text)))) }
    ensures { IfSome result (IsWanted (home stays text.now) lexer.old.text is_front lexer.old.yielded_count) }
{
    if cut_of(text, is_front, lexer).is_some() {
        return Some(passed);
    }
    count_piece(text, stays, is_front, lexer, passed)
}

/// How lexing ends where there is no room for more and the text can be cut at a stop. `None` where
/// there is no stop.
fn end_at_stop(_text: &str, _stays: bool, progress: FillState) -> Option<Ending>
    requires stop { (yielded : ℕ) × IsCutPoint (home _stays _text.now) _text.now yielded progress.stop }
    ensures stop { IfSome result (IsStopped _text.now progress) }
    ensures none { IfNone result (progress.stop.filled.lexemes ≡ 0) }
{
    if progress.stop.filled.lexemes == 0 {
        return None;
    }
    Some(Ending::Piece {
        filled: progress.stop.filled,
        next: progress.stop.at,
    })
}

/// How lexing ends where a lexeme, which a lexer has just yielded, has no room.
fn overflow(
    text: &str,
    stays: bool,
    lexer: &mut Lexer<'_>,
    progress: FillState,
    passed: Filled,
) -> Ending
    requires same { lexer.old.text ≡ text.now }
    requires going { lexer.old.has_ended ≡ false }
    requires few { lexer.old.yielded_count ≤ length (lexemes_of text.now) }
    requires known { KnowsCut lexer.old.text lexer.old.yielded_count lexer.old.cut }
    requires counted { passed ≡ wanted_by lexer.old.yielded_count (length (values (home stays text.now) (take lexer.old.yielded_count (lexemes_of text.now)))) }
    requires stop { (yielded : ℕ) × IsCutPoint (home stays text.now) text.now yielded progress.stop }
    requires last { IsLastStop text.now (lexer.old.yielded_count - 1) progress.stop }
    ensures { IsOverflow (home stays text.now) text.now lexer.old.yielded_count progress result }
{
    if let Some(ending) = end_at_stop(text, stays, progress) {
        return ending;
    }
    match count_first_piece(text, stays, progress.stop.is_front, lexer, passed) {
        Some(wanted) => Ending::Full { wanted },
        None => Ending::Memory {
            filled: progress.filled,
        },
    }
}

/// How lexing ends after all lexemes before a text's fault. The exception is of that fault.
fn end_at_fault(
    text: &str,
    stays: bool,
    values: &mut [u8],
    progress: FillState,
    exception: &EvalException,
) -> Ending
    requires within { progress.filled.values ≤ length values.old }
    requires stop { (yielded : ℕ) × IsCutPoint (home stays text.now) text.now yielded progress.stop }
    requires thrown { (file : SourceFile) × IsFaultIn file (outcome text.now).fault (Some exception.now) }
    ensures { (fault : Spanned GrammarFault) → (outcome text.now).fault ≡ Some fault → EndsAtFault text.now fault progress values.old values.new result }
{
    let ending = put_fault(text, values, progress.filled, exception);
    if !matches!(ending, Ending::Full { .. }) {
        return ending;
    }
    end_at_stop(text, stays, progress).unwrap_or(ending)
}

/// Makes the offset where the text may be cut after the lexemes that its lexer has yielded the last
/// stop, if there is one.
#[inline(always)]
fn stop_after(progress: &mut FillState, may_stop: bool, text: &str, _stays: bool, lexer: &Lexer<'_>)
    requires same { lexer.now.text ≡ text.now }
    requires may { MayStop (home _stays text.now) text.now lexer.now.yielded_count progress.old }
    requires known { KnowsCut lexer.now.text lexer.now.yielded_count lexer.now.cut }
    requires none { may_stop ≡ false → (at : ℕ) → IsCutAfter text.now lexer.now.yielded_count at → ⊥ }
    ensures filled { progress.new.filled ≡ progress.old.filled }
    ensures stop { IsCutPoint (home _stays text.now) text.now lexer.now.yielded_count progress.new.stop }
    ensures kind { progress.new.stop.is_front ≡ progress.old.stop.is_front }
    ensures last { IsLastStop text.now lexer.now.yielded_count progress.new.stop }
{
    if !may_stop {
        return;
    }
    if let Some(at) = cut_of(text, progress.stop.is_front, lexer) {
        progress.set_stop(at);
    }
}

/// Fills the buffers with the lexemes that a new lexer of a text yields, in order.
///
/// It goes up to the end of the text or its fault, or up to a stop where they have no room for more.
/// The text may be the front of a longer one. Values that are parts of it stay there if `STAYS` is
/// true. Returns how that ended, and the last stop.
pub fn fill<const STAYS: bool>(
    text: &str,
    is_front: bool,
    lexer: &mut Lexer<'_>,
    lexemes: &mut [LexemeRecord],
    values: &mut [u8],
) -> (Ending, CutPoint)
    requires fresh { lexer.old ≡ record { text = text.now; code_map = lexer.old.code_map; yielded_count = 0; has_ended = false; reads = 0; cut = None } }
    requires text { IsText text.now }
    ensures { EndsWithCutPoint (home STAYS text.now) text.now is_front (record { lexemes = lexemes.old; values = values.old }) (record { lexemes = lexemes.new; values = values.new }) result }
{
    let mut progress = FillState::new(is_front);
    loop {
        match lexer.step() {
            Step::Plain(plain) => {
                if let Err(passed) = take_plain(
                    lexemes,
                    values,
                    &mut progress,
                    text,
                    STAYS,
                    plain,
                ) {
                    return (
                        overflow(text, STAYS, lexer, progress, passed),
                        progress.stop,
                    );
                }
                stop_after(&mut progress, is_last_of_line(plain), text, STAYS, lexer);
            }
            Step::Other(Some(Ok(lexeme))) => {
                if let Err(passed) = take_next(
                    lexemes,
                    values,
                    &mut progress,
                    text,
                    STAYS,
                    lexeme,
                ) {
                    return (
                        overflow(text, STAYS, lexer, progress, passed),
                        progress.stop,
                    );
                }
                stop_after(&mut progress, true, text, STAYS, lexer);
            }
            Step::Other(Some(Err(OrMemory::Error(exception)))) => {
                let ending = end_at_fault(text, STAYS, values, progress, &exception);
                return (ending, progress.stop);
            }
            Step::Other(Some(Err(OrMemory::Memory))) => {
                let filled = progress.filled;
                return (Ending::Memory { filled }, progress.stop);
            }
            Step::Other(None) => {
                let filled = progress.filled;
                return (Ending::Whole { filled }, progress.stop);
            }
        }
    }
}
