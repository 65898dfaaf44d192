//! The lexer for callers in C: each call fills buffers of its caller with plain records.
//!
//! Only a document keeps anything between two calls: C owns the slot that it is in. No call requires
//! more of its arguments than their types say. A slice is a pointer and a length in C.
//! `bindings/c/starlark_lex.h` declares all calls.
#![tactic(auto)]

ghost use Rattle.std.specs.Prelude.{◌≡◌, None, Some, [], false, length, true};
ghost use Rattle.starlark_c.specs.DocumentItems.{FillsWith, faults_touching, filled_record, lexemes_touching};
ghost use Rattle.starlark_c.specs.DocumentSlots.{Edits, GivesText, IsOffsetAt, Opens, TellsPlaceOf};
ghost use Rattle.starlark_c.specs.Endings.{Ends, EndsFront};
ghost use Rattle.starlark_c.specs.NumberedCodes.{code_at};
ghost use Rattle.starlark_c.specs.FinalFaults.{IsFinal};
ghost use Rattle.starlark_c.specs.HeldDocuments.{held_len};
ghost use Rattle.starlark_c.specs.KindClasses.{kind_class};
ghost use Rattle.starlark_c.specs.Kinds.{NamesTokens, kind_name};
ghost use Rattle.starlark_c.specs.LastCuts.{StopsAtLastCut};
ghost use Rattle.starlark_c.specs.Messages.{TellsErrors, fault_message};
ghost use Rattle.starlark_c.specs.Outcomes.{AreBounded, outcome_record};
ghost use Rattle.starlark_c.specs.PlaceRecords.{MovesPlace, TellsPlace};
ghost use Rattle.starlark_c.specs.RecoveredOutcomes.{recovered_record};
ghost use Rattle.starlark_c.specs.RecoveredTexts.{Recovers};
ghost use Rattle.starlark_c.specs.Replies.{reply_status};
ghost use Rattle.starlark_c.specs.NumberedRestarts.{IsRestart};
ghost use Rattle.starlark_c.specs.LibraryVersion.{version_number};
ghost use Rattle.starlark_c.specs.Written.{IsWritten};
ghost use Rattle.starlark_c.specs.declared.document_endings.FillEnding.{FillEnding};
ghost use Rattle.starlark_c.specs.declared.endings.Ending.{Ending};
ghost use Rattle.starlark_c.specs.declared.recovered_endings.RecoveredEnding.{RecoveredEnding};
ghost use Rattle.starlark_c.specs.declared.replies.Reply.{Reply};

mod document_calls;
mod document_endings;
mod document_items;
mod document_slots;
mod endings;
mod fault_codes;
mod fill_state;
mod filling;
mod final_faults;
mod handle;
mod kind_classes;
mod lexeme_kinds;
mod lexing;
mod library_version;
mod loose;
mod numbered_restarts;
mod outcomes;
mod places;
mod records;
mod recovered_endings;
mod recovered_outcomes;
mod recovering;
mod replies;
mod text_parts;
mod written_texts;

use crate::document_calls::{
    close_document, document_len, edit_document, offset_in_document, open_document, tell_place_of,
    write_document,
};
use crate::document_endings::filled_outcome;
use crate::document_items::{fill_faults_of, fill_lexemes_of};
use crate::document_slots::DocumentSlot;
use crate::fault_codes::code_of_fault;
use crate::final_faults::is_final;
use crate::kind_classes::kind_class_number;
use crate::lexeme_kinds::name_of_kind;
use crate::lexing::{lex_front, lex_into};
use crate::library_version::{MAJOR, MINOR, PATCH, version};
use crate::numbered_restarts::restart_of;
use crate::outcomes::{LexOutcome, outcome_of};
use crate::places::{PlaceRecord, move_place, tell_place};
use crate::records::LexemeRecord;
use crate::recovered_outcomes::{FoundFault, RecoveredOutcome, recovered_outcome};
use crate::recovering::recover_into;
use crate::replies::ChangeRecord;
use crate::written_texts::{write_message, write_text};
use std::alloc::Global;

/// The version of the library as one number: `1_000_000 * major + 1_000 * minor + patch`.
#[unsafe(no_mangle)]
pub extern "C" fn starlark_lex_version() -> u32
    ensures { result ≡ version_number MAJOR MINOR PATCH }
{
    version()
}

/// Lexes a text into two buffers: a record for each lexeme, and the values, one after another.
///
/// The outcome says how that ended, and how much of the buffers is filled; its status is returned
/// too. Where the buffers have no room for the text, they have the lexemes up to a clean cut, and
/// the outcome says where to go on. If not even these have room, it says how much they need. After
/// what is filled the buffers are as they were, except with the status `FULL`.
#[unsafe(no_mangle)]
pub extern "C" fn starlark_lex(
    alloc: Global,
    text: &[u8],
    lexemes: &mut [LexemeRecord],
    values: &mut [u8],
    outcome: &mut LexOutcome,
) -> u32
    ensures lexed { (ending : Ending) × (outcome.new ≡ outcome_record (length text.now) ending) × Ends None text.now (record { lexemes = lexemes.old; values = values.old }) (record { lexemes = lexemes.new; values = values.new }) ending × StopsAtLastCut None false text.now (record { lexemes = lexemes.old; values = values.old }) ending }
    ensures bounded { AreBounded (length text.now) outcome.new }
    ensures status { result ≡ outcome.new.status }
{
    *outcome = outcome_of(text.len(), lex_into(alloc, text, false, lexemes, values));
    outcome.status
}

/// Lexes the front of a longer text into two buffers, up to the last offset in it where the lexer
/// tells that the text may be cut.
///
/// With status `FULL` and `next` above 0 the buffers have the lexemes up to the clean cut `next`,
/// which are the first of the whole text, whatever follows the front. With any other status no such
/// offset was found that the buffers have room for, and all is as `starlark_lex` does with the front.
#[unsafe(no_mangle)]
pub extern "C" fn starlark_lex_front(
    alloc: Global,
    front: &[u8],
    lexemes: &mut [LexemeRecord],
    values: &mut [u8],
    outcome: &mut LexOutcome,
) -> u32
    ensures lexed { (ending : Ending) × (outcome.new ≡ outcome_record (length front.now) ending) × EndsFront None front.now (record { lexemes = lexemes.old; values = values.old }) (record { lexemes = lexemes.new; values = values.new }) ending × StopsAtLastCut None true front.now (record { lexemes = lexemes.old; values = values.old }) ending }
    ensures bounded { AreBounded (length front.now) outcome.new }
    ensures status { result ≡ outcome.new.status }
{
    *outcome = outcome_of(front.len(), lex_front(alloc, front, false, lexemes, values));
    outcome.status
}

/// Does all as `starlark_lex`, but the values have only those that aren't parts of the text.
///
/// A value is one where the text has it right at the end of its lexeme, or before the one or three
/// quotes that close it. Then the record says so, and its value begins at that offset of the text. The
/// digits of an integer and the text that a fault names are always among the values.
#[unsafe(no_mangle)]
pub extern "C" fn starlark_lex_uncopied(
    alloc: Global,
    text: &[u8],
    lexemes: &mut [LexemeRecord],
    values: &mut [u8],
    outcome: &mut LexOutcome,
) -> u32
    ensures lexed { (ending : Ending) × (outcome.new ≡ outcome_record (length text.now) ending) × Ends (Some text.now) text.now (record { lexemes = lexemes.old; values = values.old }) (record { lexemes = lexemes.new; values = values.new }) ending × StopsAtLastCut (Some text.now) false text.now (record { lexemes = lexemes.old; values = values.old }) ending }
    ensures bounded { AreBounded (length text.now) outcome.new }
    ensures status { result ≡ outcome.new.status }
{
    *outcome = outcome_of(text.len(), lex_into(alloc, text, true, lexemes, values));
    outcome.status
}

/// Does all as `starlark_lex_front`, but the values have only those that aren't parts of the front, as
/// `starlark_lex_uncopied` finds them.
#[unsafe(no_mangle)]
pub extern "C" fn starlark_lex_front_uncopied(
    alloc: Global,
    front: &[u8],
    lexemes: &mut [LexemeRecord],
    values: &mut [u8],
    outcome: &mut LexOutcome,
) -> u32
    ensures lexed { (ending : Ending) × (outcome.new ≡ outcome_record (length front.now) ending) × EndsFront (Some front.now) front.now (record { lexemes = lexemes.old; values = values.old }) (record { lexemes = lexemes.new; values = values.new }) ending × StopsAtLastCut (Some front.now) true front.now (record { lexemes = lexemes.old; values = values.old }) ending }
    ensures bounded { AreBounded (length front.now) outcome.new }
    ensures status { result ≡ outcome.new.status }
{
    *outcome = outcome_of(front.len(), lex_front(alloc, front, true, lexemes, values));
    outcome.status
}

/// Lexes a text on after its faults into three buffers: a record for each lexeme, the values and
/// the texts that faults name, one after another, and a record for each fault.
///
/// The outcome says how that ended, and how much of the buffers is filled; its status is returned
/// too, and is never `FAULT`. Where some buffer has no room for all, it says how much all of the
/// text needs. After what is filled the buffers are as they were, except with the status `FULL`.
#[unsafe(no_mangle)]
pub extern "C" fn starlark_lex_recovering(
    alloc: Global,
    text: &[u8],
    lexemes: &mut [LexemeRecord],
    values: &mut [u8],
    faults: &mut [FoundFault],
    outcome: &mut RecoveredOutcome,
) -> u32
    ensures lexed { (ending : RecoveredEnding) × (outcome.new ≡ recovered_record (length text.now) ending) × Recovers text.now (record { lexemes = lexemes.old; values = values.old; faults = faults.old }) (record { lexemes = lexemes.new; values = values.new; faults = faults.new }) ending }
    ensures status { result ≡ outcome.new.status }
{
    let ending = recover_into(alloc, text, lexemes, values, faults);
    *outcome = recovered_outcome(text.len(), ending);
    outcome.status
}

/// Writes the name of the kind with a number into a buffer, if it has room for it.
///
/// Returns the length of the name, which is 0 where no kind has the number.
#[unsafe(no_mangle)]
pub extern "C" fn starlark_kind_name(kind: u32, name: &mut [u8]) -> usize
    ensures name { IsWritten (kind_name kind) name.old name.new result }
    ensures tokens { NamesTokens kind }
{
    write_text(name_of_kind(kind), name)
}

/// The class of the kind with a number, by the class's own number; 0 where no kind has the number.
///
/// A class is what a kind is to a highlighter, an editor or a parser: a keyword, an operator, and so
/// on.
#[unsafe(no_mangle)]
pub extern "C" fn starlark_kind_class(kind: u32) -> u32
    ensures { result ≡ kind_class kind }
{
    kind_class_number(kind)
}

/// Writes the message of a fault into a buffer, if it has room for it.
///
/// The fault is given by the number of its kind and the text that it names. The message of a fault
/// that names none leaves that text out. Returns the length of the message, which is 0 where no
/// fault has the number.
#[unsafe(no_mangle)]
pub extern "C" fn starlark_fault_message(kind: u32, named: &[u8], message: &mut [u8]) -> usize
    ensures message { IsWritten (fault_message kind named.now) message.old message.new result }
    ensures errors { TellsErrors kind named.now }
{
    write_message(kind, named, message)
}

/// Writes the code of a fault, as `SL008`, into a buffer, if it has room for it.
///
/// The fault is given by the number of its kind. Returns the length of the code, which is 0 where no
/// fault has the number.
#[unsafe(no_mangle)]
pub extern "C" fn starlark_fault_code(kind: u32, code: &mut [u8]) -> usize
    ensures { IsWritten (code_at kind) code.old code.new result }
{
    write_text(code_of_fault(kind), code)
}

/// Whether the fault of the front of a text that ends at an offset is final: then it and all lexemes
/// before it stay as they are, whatever follows the front.
///
/// It is, if the front goes on after the fault, and ends with LF.
#[unsafe(no_mangle)]
pub extern "C" fn starlark_fault_is_final(front: &[u8], fault_end: u32) -> bool
    ensures { IsFinal front.now fault_end result }
{
    is_final(front, fault_end as usize)
}

/// Tells the line and columns of an offset in a text, and returns whether it could.
///
/// It couldn't, and the record is as it was, where the offset is past the end of the text, or the
/// text up to it isn't UTF-8, as inside a character. It reads the text up to the offset.
#[unsafe(no_mangle)]
pub extern "C" fn starlark_place(text: &[u8], at: usize, place: &mut PlaceRecord) -> bool
    ensures { TellsPlace text.now at place.old place.new result }
{
    tell_place(text, at, place)
}

/// Moves the place of an offset in a text to a later offset, and returns whether it could.
///
/// Where the record was the place of the first offset, it is that of the later one then. It couldn't,
/// and the record is as it was, where the offsets are out of order or past the end of the text, or
/// the bytes between aren't UTF-8. It reads these bytes alone.
#[unsafe(no_mangle)]
pub extern "C" fn starlark_move_place(
    text: &[u8],
    from: usize,
    to: usize,
    place: &mut PlaceRecord,
) -> bool
    ensures { MovesPlace text.now from to place.old place.new result }
{
    move_place(text, from, to, place)
}

/// Offset where lexing begins again after a fault of a text: at the start of a later line, or at
/// the end of the text.
///
/// The fault is given by its offsets and the number of its kind, as an outcome tells them of this
/// text. Where no fault of a text has them, the result is the greatest `usize`: the bytes aren't
/// UTF-8, an offset is out of order, past the end or inside a character, or no fault has the number.
#[unsafe(no_mangle)]
pub extern "C" fn starlark_restart(
    text: &[u8],
    fault_begin: u32,
    fault_end: u32,
    fault_kind: u32,
) -> usize
    ensures { IsRestart text.now fault_begin fault_end fault_kind result }
{
    restart_of(text, fault_begin as usize, fault_end as usize, fault_kind)
}

/// Opens a document of some bytes in a slot that has none, and returns a status.
///
/// `WHOLE`: the slot has a document of this text. Else it is as it was: `OPENED` where it has a
/// document already, `NOT_UTF8`, `TOO_LONG`, or `MEMORY`.
#[unsafe(no_mangle)]
pub extern "C" fn starlark_document_open(
    alloc: Global,
    document: &mut DocumentSlot,
    text: &[u8],
) -> u32
    ensures { (reply : Reply) × (result ≡ reply_status reply) × Opens text.now document.old.handle.held document.new.handle.held reply }
{
    open_document(alloc, document, text).status()
}

/// Replaces the bytes of a document from `begin` to `end`, lexes what that touches, and returns a
/// status.
///
/// `WHOLE`: the document has the new text, and the record says what changed. Else both are as they
/// were: `CLOSED` where the slot has no document, `NOT_UTF8` for the new bytes, `BAD_RANGE`,
/// `TOO_LONG`, or `MEMORY`.
#[unsafe(no_mangle)]
pub extern "C" fn starlark_document_edit(
    alloc: Global,
    document: &mut DocumentSlot,
    begin: usize,
    end: usize,
    text: &[u8],
    change: &mut ChangeRecord,
) -> u32
    ensures { (reply : Reply) × (result ≡ reply_status reply) × Edits begin end text.now document.old.handle.held document.new.handle.held change.old change.new reply }
{
    edit_document(alloc, document, begin, end, text, change).status()
}

/// Fills two buffers with the lexemes of a document that touch a range: a record for each, and the
/// values, one after another.
///
/// A lexeme touches the range where it ends at `begin` or later, and begins at `end` or earlier. The
/// outcome's status is `WHOLE`, `FULL` with what all of them want, or `CLOSED`.
#[unsafe(no_mangle)]
pub extern "C" fn starlark_document_lexemes(
    alloc: Global,
    document: &mut DocumentSlot,
    begin: usize,
    end: usize,
    lexemes: &mut [LexemeRecord],
    values: &mut [u8],
    outcome: &mut RecoveredOutcome,
) -> u32
    ensures filled { (ending : FillEnding) × (outcome.new ≡ filled_record ending) × FillsWith (lexemes_touching begin end) document.old.handle.held document.new.handle.held (record { lexemes = lexemes.old; values = values.old; faults = [] }) (record { lexemes = lexemes.new; values = values.new; faults = [] }) ending }
    ensures status { result ≡ outcome.new.status }
{
    let ending = fill_lexemes_of(alloc, document, begin, end, lexemes, values);
    *outcome = filled_outcome(ending);
    outcome.status
}

/// Fills two buffers with the faults of a document that touch a range: the texts that they name,
/// one after another, and a record for each.
///
/// Touching and the outcome are as of `starlark_document_lexemes`. In a record no lexemes are
/// before a fault.
#[unsafe(no_mangle)]
pub extern "C" fn starlark_document_faults(
    alloc: Global,
    document: &mut DocumentSlot,
    begin: usize,
    end: usize,
    values: &mut [u8],
    faults: &mut [FoundFault],
    outcome: &mut RecoveredOutcome,
) -> u32
    ensures filled { (ending : FillEnding) × (outcome.new ≡ filled_record ending) × FillsWith (faults_touching begin end) document.old.handle.held document.new.handle.held (record { lexemes = []; values = values.old; faults = faults.old }) (record { lexemes = []; values = values.new; faults = faults.new }) ending }
    ensures status { result ≡ outcome.new.status }
{
    let ending = fill_faults_of(alloc, document, begin, end, values, faults);
    *outcome = filled_outcome(ending);
    outcome.status
}

/// Writes the bytes of a document from `begin` to `end` into a buffer, and returns a status.
///
/// `WHOLE`: the buffer begins with them. Else it is as it was: `FULL` where it has no room,
/// `BAD_RANGE`, `MEMORY`, or `CLOSED`.
#[unsafe(no_mangle)]
pub extern "C" fn starlark_document_text(
    alloc: Global,
    document: &mut DocumentSlot,
    begin: usize,
    end: usize,
    text: &mut [u8],
) -> u32
    ensures { (reply : Reply) × (result ≡ reply_status reply) × GivesText begin end document.old.handle.held document.new.handle.held text.old text.new reply }
{
    write_document(alloc, document, begin, end, text).status()
}

/// Length of a document in bytes; 0 where the slot has none.
#[unsafe(no_mangle)]
pub extern "C" fn starlark_document_len(alloc: Global, document: &mut DocumentSlot) -> usize
    ensures len { result ≡ held_len document.old.handle.held }
    ensures same { document.new.handle.held ≡ document.old.handle.held }
{
    document_len(alloc, document)
}

/// Tells the line and columns of an offset in a document, and returns whether it could.
///
/// It couldn't, and the record is as it was, where the offset is no character boundary of the text,
/// or the slot has no document.
#[unsafe(no_mangle)]
pub extern "C" fn starlark_document_place(
    alloc: Global,
    document: &mut DocumentSlot,
    at: usize,
    place: &mut PlaceRecord,
) -> bool
    ensures { TellsPlaceOf at document.old.handle.held document.new.handle.held place.old place.new result }
{
    tell_place_of(alloc, document, at, place)
}

/// The offset in a document of a line and a column in units of UTF-16, both from 0.
///
/// It is the greatest `usize` where no character boundary is there, or the slot has no document.
#[unsafe(no_mangle)]
pub extern "C" fn starlark_document_offset_at_utf16(
    alloc: Global,
    document: &mut DocumentSlot,
    line: usize,
    column: usize,
) -> usize
    ensures offset { IsOffsetAt line column document.old.handle.held result }
    ensures same { document.new.handle.held ≡ document.old.handle.held }
{
    offset_in_document(alloc, document, line, column)
}

/// Frees the document of a slot, if it has one. The slot has none then, and may be opened again.
#[unsafe(no_mangle)]
pub extern "C" fn starlark_document_close(alloc: Global, document: &mut DocumentSlot)
    ensures { document.new.handle.held ≡ None }
{
    close_document(alloc, document);
}
