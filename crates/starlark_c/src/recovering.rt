//! Fills the caller's buffers with all lexemes and all faults of a text, as the lexer yields them.

ghost use Rattle.std.specs.Prelude.{◌≡◌, ◌<◌, ◌≤◌, ◌+◌, ◌^◌, [], List, Some, IfSome, IfNone, Err, drop, length};
ghost use Rattle.starlark_base.specs.Sources.{SourceFile};
ghost use Rattle.starlark_c.specs.Endings.{IsText};
ghost use Rattle.starlark_c.specs.Inner.Recovering.{EndsFull, GoesOn, Takes, counts_with, wanted_on};
ghost use Rattle.starlark_c.specs.RecoveredTexts.{Recovers, added, capped_counts, counts_of, found_fault};
ghost use Rattle.starlark_c.specs.declared.recovered_endings.Counts.{Counts};
ghost use Rattle.starlark_c.specs.declared.recovered_outcomes.FoundFault.{FoundFault};
ghost use Rattle.starlark_c.specs.declared.records.LexemeRecord.{LexemeRecord};
ghost use Rattle.starlark_grammar.specs.Tokens.{Fault as GrammarFault, Spanned};
ghost use Rattle.starlark_grammar.specs.Words.{Text};
ghost use Rattle.starlark_errors.specs.Exceptions.{IsException};
ghost use Rattle.starlark_lexemes.specs.Lexer.{Answers, AnswersWithin};
ghost use Rattle.starlark_recovery.specs.RecoveringLexer.{all_items, left_after};
ghost use Rattle.starlark_text.specs.declared.or_memory.OrMemory.TheVariants as refusal;
ghost use Rattle.starlark_token.specs.Lexemes.{lexeme_view};
ghost use Rattle.starlark_token.specs.TextItems.{Given, LexerItem, Refused};

use crate::endings::Filled;
use crate::filling::{error_of, put_bytes, put_lexeme, span_of};
use crate::lexing::empty_file;
use crate::records::{LexemeRecord, bytes_of, bytes_of_fault, number_of_fault};
use crate::recovered_endings::{Counts, RecoveredEnding};
use crate::recovered_outcomes::FoundFault;
use starlark_syntax::codemap::OrMemory;
use starlark_syntax::dialect::Dialect;
use starlark_syntax::eval_exception::EvalException;
use starlark_syntax::lexer::{Lexeme, RecoveringLexer, Token};
use std::alloc::Global;

/// What became of an item that the lexer yielded.
#[derive(Clone, Copy)]
pub enum Taken {
    /// The buffers have it after what filled them, and this fills them now.
    Put { filled: Counts },
    /// The buffers have no room for it, and are as they were. This is wanted with it.
    NoRoom { wanted: Counts },
    /// The lexer ran out of memory in its place.
    Memory,
}

/// One lexeme, with the bytes of its value.
fn lexeme_counts(lexeme: &(usize, Token, usize)) -> Counts
    ensures { (before : Counts) → result ≡ counts_of (added before (Given (lexeme_view lexeme.now))) }
{
    Counts {
        lexemes: 1,
        values: bytes_of(&lexeme.1).len(),
        faults: 0,
    }
}

/// One fault, with the bytes of the text that it names. The exception is of that fault.
fn fault_counts(exception: &EvalException) -> Counts
    requires { (file : SourceFile) × ((fault : Spanned GrammarFault) × IsException file fault exception.now) }
    ensures { (file : SourceFile) (fault : Spanned GrammarFault) (before : Counts) → IsException file fault exception.now → result ≡ counts_of (added before (Refused fault)) }
{
    Counts {
        lexemes: 0,
        values: bytes_of_fault(error_of(exception)).len(),
        faults: 1,
    }
}

/// The record of the fault of an exception, after what fills the buffers.
fn fault_after(filled: Counts, exception: &EvalException) -> FoundFault
    requires { (file : SourceFile) × ((fault : Spanned GrammarFault) × IsException file fault exception.now) }
    ensures { (file : SourceFile) (fault : Spanned GrammarFault) → IsException file fault exception.now → result ≡ found_fault filled fault }
{
    let error = error_of(exception);
    let span = span_of(exception);
    FoundFault {
        kind: number_of_fault(error),
        begin: span.begin().get(),
        end: span.end().get(),
        reserved: 0,
        lexemes_before: filled.lexemes,
        value_begin: filled.values,
        value_len: bytes_of_fault(error).len(),
    }
}

/// Puts a lexeme after what fills the buffers.
fn add_lexeme(
    lexemes: &mut [LexemeRecord],
    values: &mut [u8],
    filled: Counts,
    lexeme: &(usize, Token, usize),
) -> Taken
    requires values_within { filled.values ≤ length values.old }
    requires begin { lexeme.now.0 < 2 ^ 32 }
    requires end { lexeme.now.2 < 2 ^ 32 }
    ensures takes { (faults : List FoundFault) → Takes (Given (lexeme_view lexeme.now)) filled (record { lexemes = lexemes.old; values = values.old; faults = faults }) (record { lexemes = lexemes.new; values = values.new; faults = faults }) result }
    ensures decides { ¬ (result ≡ Taken.Memory) }
{
    let before = Filled {
        lexemes: filled.lexemes,
        values: filled.values,
    };
    match put_lexeme(lexemes, values, before, None, lexeme) {
        Some(after) => Taken::Put {
            filled: Counts {
                lexemes: after.lexemes,
                values: after.values,
                faults: filled.faults,
            },
        },
        None => Taken::NoRoom {
            wanted: filled.plus(lexeme_counts(lexeme)),
        },
    }
}

/// Puts the fault of an exception after what fills the buffers: its record, and the text that it
/// names.
fn add_fault(
    values: &mut [u8],
    faults: &mut [FoundFault],
    filled: Counts,
    exception: &EvalException,
) -> Taken
    requires values_within { filled.values ≤ length values.old }
    requires thrown { (file : SourceFile) × ((fault : Spanned GrammarFault) × IsException file fault exception.now) }
    ensures takes { (file : SourceFile) (fault : Spanned GrammarFault) (lexemes : List LexemeRecord) → IsException file fault exception.now → Takes (Refused fault) filled (record { lexemes = lexemes; values = values.old; faults = faults.old }) (record { lexemes = lexemes; values = values.new; faults = faults.new }) result }
    ensures decides { ¬ (result ≡ Taken.Memory) }
{
    let no_room = Taken::NoRoom {
        wanted: filled.plus(fault_counts(exception)),
    };
    if filled.faults >= faults.len() {
        return no_room;
    }
    let named = bytes_of_fault(error_of(exception));
    let Some(end) = put_bytes(values, filled.values, named) else {
        return no_room;
    };
    faults[filled.faults] = fault_after(filled, exception);
    Taken::Put {
        filled: Counts {
            lexemes: filled.lexemes,
            values: end,
            faults: filled.faults + 1,
        },
    }
}

/// Puts an item of a lexer after what fills the buffers, and drops it.
fn take_item(
    lexemes: &mut [LexemeRecord],
    values: &mut [u8],
    faults: &mut [FoundFault],
    filled: Counts,
    item: Lexeme,
) -> Taken
    requires values_within { filled.values ≤ length values.old }
    requires answered { (file : SourceFile) × ((found : LexerItem) × Answers file found item) }
    requires within { (text : Text) × AnswersWithin text (Some item) }
    ensures takes { (file : SourceFile) (found : LexerItem) → Answers file found item → Takes found filled (record { lexemes = lexemes.old; values = values.old; faults = faults.old }) (record { lexemes = lexemes.new; values = values.new; faults = faults.new }) result }
    ensures going { GoesOn item result }
{
    match item {
        Ok(lexeme) => add_lexeme(lexemes, values, filled, &lexeme),
        Err(OrMemory::Error(exception)) => add_fault(values, faults, filled, &exception),
        Err(OrMemory::Memory) => Taken::Memory,
    }
}

/// Counts one item more to what is wanted, and drops it. `None` where the lexer ran out of memory.
fn count_item(wanted: Counts, item: Lexeme) -> Option<Counts>
    requires answered { (file : SourceFile) × ((found : LexerItem) × Answers file found item) }
    ensures counts { (file : SourceFile) (found : LexerItem) → Answers file found item → IfSome result (λ more. more ≡ capped_counts (counts_with wanted found)) }
    ensures going { IfSome result (λ more. (left : List LexerItem) → left_after (Some item) left ≡ drop 1 left) }
    ensures memory { IfNone result (item ≡ Err refusal.Memory) }
{
    match item {
        Ok(lexeme) => Some(wanted.plus(lexeme_counts(&lexeme))),
        Err(OrMemory::Error(exception)) => Some(wanted.plus(fault_counts(&exception))),
        Err(OrMemory::Memory) => None,
    }
}

/// What is wanted with all items that are left. `None` where memory runs out.
fn count_rest(lexer: &mut RecoveringLexer<'_>, wanted: Counts) -> Option<Counts>
    ensures { IfSome result (λ all. all ≡ wanted_on wanted lexer.old.left) }
{
    let mut wanted = wanted;
    while let Some(item) = lexer.next() {
        match count_item(wanted, item) {
            Some(more) => wanted = more,
            None => return None,
        }
    }
    Some(wanted)
}

/// How lexing ends where an item has no room, and so much is wanted with it.
fn end_full(lexer: &mut RecoveringLexer<'_>, filled: Counts, wanted: Counts) -> RecoveredEnding
    ensures { EndsFull (wanted_on wanted lexer.old.left) filled result }
{
    match count_rest(lexer, wanted) {
        Some(wanted) => RecoveredEnding::Full { wanted },
        None => RecoveredEnding::Memory { filled },
    }
}

/// Fills the buffers with all items that a new lexer yields, in order. After the first item that
/// has no room it only counts.
fn fill_recovered(
    lexer: &mut RecoveringLexer<'_>,
    lexemes: &mut [LexemeRecord],
    values: &mut [u8],
    faults: &mut [FoundFault],
) -> RecoveredEnding
    requires fresh { lexer.old.left ≡ all_items lexer.old.text }
    requires text { IsText lexer.old.text }
    ensures { Recovers lexer.old.text (record { lexemes = lexemes.old; values = values.old; faults = faults.old }) (record { lexemes = lexemes.new; values = values.new; faults = faults.new }) result }
{
    let mut filled = Counts::NOTHING;
    while let Some(item) = lexer.next() {
        match take_item(lexemes, values, faults, filled, item) {
            Taken::Put { filled: more } => filled = more,
            Taken::NoRoom { wanted } => return end_full(lexer, filled, wanted),
            Taken::Memory => return RecoveredEnding::Memory { filled },
        }
    }
    RecoveredEnding::Whole { filled }
}

/// A recovering lexer of a text, with a code map of an empty text: only the bytes of a fault's span
/// are used.
///
/// `None` where memory runs out.
fn recovering_lexer_of(alloc: Global, text: &str) -> Option<RecoveringLexer<'_>>
    requires { length text.now < 2 ^ 32 }
    ensures { IfSome result (λ lexer. (lexer.text ≡ text.now) × (lexer.left ≡ all_items text.now)) }
{
    let file = empty_file(alloc).ok()?;
    RecoveringLexer::new(alloc, text, &Dialect::Extended, file).ok()
}

/// Lexes bytes on after their faults into buffers, if they are a text.
pub fn recover_into(
    alloc: Global,
    bytes: &[u8],
    lexemes: &mut [LexemeRecord],
    values: &mut [u8],
    faults: &mut [FoundFault],
) -> RecoveredEnding
    ensures { Recovers bytes.now (record { lexemes = lexemes.old; values = values.old; faults = faults.old }) (record { lexemes = lexemes.new; values = values.new; faults = faults.new }) result }
{
    if bytes.len() > u32::MAX as usize {
        return RecoveredEnding::TooLong;
    }
    let text = match str::from_utf8(bytes) {
        Ok(text) => text,
        Err(error) => {
            return RecoveredEnding::NotUtf8 {
                valid: error.valid_up_to(),
            };
        }
    };
    match recovering_lexer_of(alloc, text) {
        Some(mut lexer) => fill_recovered(&mut lexer, lexemes, values, faults),
        None => RecoveredEnding::Memory {
            filled: Counts::NOTHING,
        },
    }
}
