//! Fills the caller's buffers with the lexemes or the faults of a document that touch a range.

ghost use Rattle.std.specs.Prelude.{◌≡◌, ◌<◌, ◌≤◌, ◌^◌, ℕ, [], List, Some, filter, length, map};
ghost use Rattle.starlark_c.specs.DocumentItems.{FillsWith, Fills, faults_touching, lexemes_touching, touches};
ghost use Rattle.starlark_c.specs.Inner.DocumentItems.{Adds, AreWithin};
ghost use Rattle.starlark_c.specs.Inner.Recovering.{wanted_on};
ghost use Rattle.starlark_c.specs.RecoveredTexts.{added, counts_of, found_fault};
ghost use Rattle.starlark_c.specs.declared.records.LexemeRecord.{LexemeRecord};
ghost use Rattle.starlark_c.specs.declared.recovered_endings.Counts.{Counts};
ghost use Rattle.starlark_c.specs.declared.recovered_outcomes.FoundFault.{FoundFault};
ghost use Rattle.starlark_document.specs.Documents.{IsKindOf, faults_of, lexemes_of};
ghost use Rattle.starlark_grammar.specs.Tokens.{Fault as GrammarFault, Spanned};
ghost use Rattle.starlark_token.specs.Lexemes.{fault_view};
ghost use Rattle.starlark_token.specs.TextItems.{Given, Refused};
ghost use Rattle.starlark_token.specs.TokenViews.{token_view};

use crate::document_endings::FillEnding;
use crate::document_slots::DocumentSlot;
use crate::filling::put_bytes;
use crate::records::{LexemeRecord, bytes_of, bytes_of_fault, number_of_fault, token_record_at};
use crate::recovered_endings::Counts;
use crate::recovered_outcomes::FoundFault;
use starlark_document::{Document, Faults, Lexemes};
use starlark_syntax::error::{ErrorKind, ParserMessage};
use starlark_syntax::lexer::{LexemeError, Token};
use std::alloc::Global;

/// One lexeme, with the bytes of its value.
fn token_counts(token: &Token) -> Counts
    ensures { (begin end : ℕ) (before : Counts) → result ≡ counts_of (added before (Given (record { begin = begin; node = token_view token.now; end = end }))) }
{
    Counts {
        lexemes: 1,
        values: bytes_of(token).len(),
        faults: 0,
    }
}

/// Puts a token, with its begin and end, after what fills the buffers, and returns what fills them
/// then. Where there is no room it changes nothing, and the error is what is wanted with the token.
fn add_token(
    lexemes: &mut [LexemeRecord],
    values: &mut [u8],
    filled: Counts,
    begin: usize,
    token: &Token,
    end: usize,
) -> Result<Counts, Counts>
    requires values_within { filled.values ≤ length values.old }
    requires begin { begin < 2 ^ 32 }
    requires end { end < 2 ^ 32 }
    ensures { Adds (Given (record { begin = begin; node = token_view token.now; end = end })) filled (record { lexemes = lexemes.old; values = values.old; faults = [] }) (record { lexemes = lexemes.new; values = values.new; faults = [] }) result }
{
    let no_room = Err(filled.plus(token_counts(token)));
    if filled.lexemes >= lexemes.len() {
        return no_room;
    }
    let Some(values_end) = put_bytes(values, filled.values, bytes_of(token)) else {
        return no_room;
    };
    lexemes[filled.lexemes] = token_record_at(filled.values, begin, token, end);
    Ok(Counts {
        lexemes: filled.lexemes + 1,
        values: values_end,
        faults: filled.faults,
    })
}

/// What is wanted with all that is left of some lexemes and touches a range.
fn want_lexemes(left: &mut Lexemes<'_>, from: usize, to: usize, wanted: Counts) -> Counts
    requires { AreWithin left.old }
    ensures { result ≡ wanted_on wanted (map Given (filter (touches from to) left.old)) }
{
    let mut wanted = wanted;
    while let Some((begin, token, end)) = left.next() {
        if to < begin {
            return wanted;
        }
        if from <= end {
            wanted = wanted.plus(token_counts(token));
        }
    }
    wanted
}

/// Fills the buffers with those of some lexemes that touch a range.
fn fill_lexemes(
    left: &mut Lexemes<'_>,
    from: usize,
    to: usize,
    lexemes: &mut [LexemeRecord],
    values: &mut [u8],
) -> FillEnding
    requires { AreWithin left.old }
    ensures { Fills (map Given (filter (touches from to) left.old)) (record { lexemes = lexemes.old; values = values.old; faults = [] }) (record { lexemes = lexemes.new; values = values.new; faults = [] }) result }
{
    let mut filled = Counts::NOTHING;
    while let Some((begin, token, end)) = left.next() {
        if to < begin {
            return FillEnding::Whole { filled };
        }
        if from <= end {
            match add_token(lexemes, values, filled, begin, token, end) {
                Ok(more) => filled = more,
                Err(wanted) => {
                    let wanted = want_lexemes(left, from, to, wanted);
                    return FillEnding::Full { wanted };
                }
            }
        }
    }
    FillEnding::Whole { filled }
}

/// The lexemes of a document, without some of those that end before an offset.
fn lexemes_near(document: &Document, from: usize) -> Lexemes<'_>
    requires { length document.now.text < 2 ^ 32 }
    ensures touching { (to : ℕ) → filter (touches from to) result ≡ filter (touches from to) (lexemes_of document.now.text) }
    ensures within { AreWithin result }
{
    if from == 0 {
        document.lexemes()
    } else {
        document.lexemes_from(from - 1)
    }
}

/// Fills the buffers with the lexemes of a handle's document that touch a range.
pub fn fill_lexemes_of(
    alloc: Global,
    slot: &mut DocumentSlot,
    from: usize,
    to: usize,
    lexemes: &mut [LexemeRecord],
    values: &mut [u8],
) -> FillEnding
    ensures { FillsWith (lexemes_touching from to) slot.old.handle.held slot.new.handle.held (record { lexemes = lexemes.old; values = values.old; faults = [] }) (record { lexemes = lexemes.new; values = values.new; faults = [] }) result }
{
    if !slot.has_document() {
        return FillEnding::Closed;
    }
    let document = slot.take(alloc);
    let ending = fill_lexemes(
        &mut lexemes_near(&document, from),
        from,
        to,
        lexemes,
        values,
    );
    slot.put(document);
    ending
}

/// The error of the lexer that is a fault of a document.
fn error_of_kind(kind: &ErrorKind) -> &LexemeError
    requires { (fault : GrammarFault) × IsKindOf fault kind.now }
    ensures { (fault : GrammarFault) → IsKindOf fault kind.now → fault_view result.now ≡ Some fault }
{
    match kind {
        ErrorKind::Parser(ParserMessage::Lexeme(error)) => error,
        _ => unreachable!(),
    }
}

/// One fault, with the bytes of the text that it names.
fn error_counts(error: &LexemeError) -> Counts
    requires { (fault : GrammarFault) × (fault_view error.now ≡ Some fault) }
    ensures { (fault : GrammarFault) (begin end : ℕ) (before : Counts) → fault_view error.now ≡ Some fault → result ≡ counts_of (added before (Refused (record { begin = begin; node = fault; end = end }))) }
{
    Counts {
        lexemes: 0,
        values: bytes_of_fault(error).len(),
        faults: 1,
    }
}

/// The record of a fault, with its begin and end, after what fills the buffers.
fn error_record(filled: Counts, begin: usize, error: &LexemeError, end: usize) -> FoundFault
    requires begin { begin < 2 ^ 32 }
    requires end { end < 2 ^ 32 }
    requires fault { (fault : GrammarFault) × (fault_view error.now ≡ Some fault) }
    ensures { (fault : GrammarFault) → fault_view error.now ≡ Some fault → result ≡ found_fault filled (record { begin = begin; node = fault; end = end }) }
{
    FoundFault {
        kind: number_of_fault(error),
        begin: begin as u32,
        end: end as u32,
        reserved: 0,
        lexemes_before: filled.lexemes,
        value_begin: filled.values,
        value_len: bytes_of_fault(error).len(),
    }
}

/// Puts a fault, with its begin and end, after what fills the buffers, and returns what fills them
/// then. Where there is no room it changes nothing, and the error is what is wanted with the fault.
fn add_error(
    values: &mut [u8],
    faults: &mut [FoundFault],
    filled: Counts,
    begin: usize,
    error: &LexemeError,
    end: usize,
) -> Result<Counts, Counts>
    requires values_within { filled.values ≤ length values.old }
    requires begin { begin < 2 ^ 32 }
    requires end { end < 2 ^ 32 }
    requires fault { (fault : GrammarFault) × (fault_view error.now ≡ Some fault) }
    ensures { (fault : GrammarFault) → fault_view error.now ≡ Some fault → Adds (Refused (record { begin = begin; node = fault; end = end })) filled (record { lexemes = []; values = values.old; faults = faults.old }) (record { lexemes = []; values = values.new; faults = faults.new }) result }
{
    let no_room = Err(filled.plus(error_counts(error)));
    if filled.faults >= faults.len() {
        return no_room;
    }
    let named = bytes_of_fault(error);
    let Some(values_end) = put_bytes(values, filled.values, named) else {
        return no_room;
    };
    faults[filled.faults] = error_record(filled, begin, error, end);
    Ok(Counts {
        lexemes: filled.lexemes,
        values: values_end,
        faults: filled.faults + 1,
    })
}

/// What is wanted with all that is left of some faults and touches a range.
fn want_faults(left: &mut Faults<'_>, from: usize, to: usize, wanted: Counts) -> Counts
    requires { AreWithin left.old }
    ensures { result ≡ wanted_on wanted (map Refused (filter (touches from to) left.old)) }
{
    let mut wanted = wanted;
    while let Some((begin, kind, end)) = left.next() {
        if to < begin {
            return wanted;
        }
        if from <= end {
            wanted = wanted.plus(error_counts(error_of_kind(kind)));
        }
    }
    wanted
}

/// Fills the buffers with those of some faults that touch a range.
fn fill_faults(
    left: &mut Faults<'_>,
    from: usize,
    to: usize,
    values: &mut [u8],
    faults: &mut [FoundFault],
) -> FillEnding
    requires { AreWithin left.old }
    ensures { Fills (map Refused (filter (touches from to) left.old)) (record { lexemes = []; values = values.old; faults = faults.old }) (record { lexemes = []; values = values.new; faults = faults.new }) result }
{
    let mut filled = Counts::NOTHING;
    while let Some((begin, kind, end)) = left.next() {
        if to < begin {
            return FillEnding::Whole { filled };
        }
        if from <= end {
            match add_error(values, faults, filled, begin, error_of_kind(kind), end) {
                Ok(more) => filled = more,
                Err(wanted) => {
                    let wanted = want_faults(left, from, to, wanted);
                    return FillEnding::Full { wanted };
                }
            }
        }
    }
    FillEnding::Whole { filled }
}

/// All faults of a document.
fn faults_within(document: &Document) -> Faults<'_>
    requires { length document.now.text < 2 ^ 32 }
    ensures all { result ≡ faults_of document.now.text }
    ensures within { AreWithin result }
{
    document.faults()
}

/// Fills the buffers with the faults of a handle's document that touch a range.
pub fn fill_faults_of(
    alloc: Global,
    slot: &mut DocumentSlot,
    from: usize,
    to: usize,
    values: &mut [u8],
    faults: &mut [FoundFault],
) -> FillEnding
    ensures { FillsWith (faults_touching from to) slot.old.handle.held slot.new.handle.held (record { lexemes = []; values = values.old; faults = faults.old }) (record { lexemes = []; values = values.new; faults = faults.new }) result }
{
    if !slot.has_document() {
        return FillEnding::Closed;
    }
    let document = slot.take(alloc);
    let ending = fill_faults(&mut faults_within(&document), from, to, values, faults);
    slot.put(document);
    ending
}
