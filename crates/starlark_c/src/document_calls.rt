//! What the calls on a document do, whether or not a handle has one.

ghost use Rattle.std.specs.Prelude.{◌≡◌, ◌<◌, ◌^◌, Option, None, Some, IfSome, length};
ghost use Rattle.starlark_c.specs.DocumentSlots.{Edits, EditsText, GivesSlice, GivesText, IsOffsetAt, Opens, TellsPlaceIn, TellsPlaceOf};
ghost use Rattle.starlark_c.specs.HeldDocuments.{held_len};

use crate::document_slots::DocumentSlot;
use crate::places::PlaceRecord;
use crate::replies::{ChangeRecord, Reply};
use starlark_document::{Document, EditError, Place};
use starlark_syntax::codemap::OrMemory;
use std::alloc::Global;

/// Opens a document of some bytes, if there is none yet and they are a text.
pub fn open_document(alloc: Global, slot: &mut DocumentSlot, bytes: &[u8]) -> Reply
    ensures { Opens bytes.now slot.old.handle.held slot.new.handle.held result }
{
    if slot.has_document() {
        return Reply::Opened;
    }
    let Ok(text) = str::from_utf8(bytes) else {
        return Reply::NotUtf8;
    };
    let document = match Document::new(alloc, text) {
        Ok(document) => document,
        Err(OrMemory::Error(_)) => return Reply::TooLong,
        Err(OrMemory::Memory) => return Reply::Memory,
    };
    match Box::new(alloc, document) {
        Ok(document) => {
            slot.put(document);
            Reply::Done
        }
        Err(_) => Reply::Memory,
    }
}

/// Edits the text of a document by some bytes, if they are a text.
fn edit_text(
    document: &mut Document,
    from: usize,
    to: usize,
    bytes: &[u8],
    change: &mut ChangeRecord,
) -> Reply
    ensures edits { EditsText from to bytes.now document.old document.new change.old change.new result }
    ensures short { length document.old.text < 2 ^ 32 → length document.new.text < 2 ^ 32 }
{
    let Ok(text) = str::from_utf8(bytes) else {
        return Reply::NotUtf8;
    };
    match document.edit(from, to, text) {
        Ok(made) => {
            *change = ChangeRecord::of(made);
            Reply::Done
        }
        Err(EditError::BadRange) => Reply::BadRange,
        Err(EditError::TooLong) => Reply::TooLong,
        Err(EditError::Memory) => Reply::Memory,
    }
}

/// Edits the document of a handle.
pub fn edit_document(
    alloc: Global,
    slot: &mut DocumentSlot,
    from: usize,
    to: usize,
    bytes: &[u8],
    change: &mut ChangeRecord,
) -> Reply
    ensures { Edits from to bytes.now slot.old.handle.held slot.new.handle.held change.old change.new result }
{
    if !slot.has_document() {
        return Reply::Closed;
    }
    let mut document = slot.take(alloc);
    let reply = edit_text(&mut document, from, to, bytes, change);
    slot.put(document);
    reply
}

/// Writes a part of the text of a document into a buffer, if it has room for it.
fn write_slice(document: &Document, from: usize, to: usize, buffer: &mut [u8]) -> Reply
    ensures { GivesSlice from to document.now.text buffer.old buffer.new result }
{
    match document.slice(from, to) {
        Ok(Some(text)) => {
            if buffer.len() < text.len() {
                return Reply::Full;
            }
            buffer[..text.len()].copy_from_slice(text.as_bytes());
            Reply::Done
        }
        Ok(None) => Reply::BadRange,
        Err(_) => Reply::Memory,
    }
}

/// Writes a part of the text of a handle's document into a buffer, if it has room for it.
pub fn write_document(
    alloc: Global,
    slot: &mut DocumentSlot,
    from: usize,
    to: usize,
    buffer: &mut [u8],
) -> Reply
    ensures { GivesText from to slot.old.handle.held slot.new.handle.held buffer.old buffer.new result }
{
    if !slot.has_document() {
        return Reply::Closed;
    }
    let document = slot.take(alloc);
    let reply = write_slice(&document, from, to, buffer);
    slot.put(document);
    reply
}

/// Length of the text of a handle's document; 0 where there is none.
pub fn document_len(alloc: Global, slot: &mut DocumentSlot) -> usize
    ensures len { result ≡ held_len slot.old.handle.held }
    ensures same { slot.new.handle.held ≡ slot.old.handle.held }
{
    if !slot.has_document() {
        return 0;
    }
    let document = slot.take(alloc);
    let len = document.len();
    slot.put(document);
    len
}

/// Tells the place of an offset in a document, if it is a character boundary there.
fn tell_place_in(document: &Document, at: usize, place: &mut PlaceRecord) -> bool
    ensures { TellsPlaceIn at document.now.text place.old place.new result }
{
    let Some(
        Place {
            line,
            column,
            utf16_column,
        },
    ) = document.place(at)
    else {
        return false;
    };
    *place = PlaceRecord {
        line,
        column,
        utf16_column,
    };
    true
}

/// Tells the place of an offset in a handle's document, if it is a character boundary there.
pub fn tell_place_of(
    alloc: Global,
    slot: &mut DocumentSlot,
    at: usize,
    place: &mut PlaceRecord,
) -> bool
    ensures { TellsPlaceOf at slot.old.handle.held slot.new.handle.held place.old place.new result }
{
    if !slot.has_document() {
        return false;
    }
    let document = slot.take(alloc);
    let is_told = tell_place_in(&document, at, place);
    slot.put(document);
    is_told
}

/// What is returned where no character boundary is on a line at a column.
const NO_OFFSET: usize = usize::MAX;

/// The offset in a handle's document of a line and a column in units of UTF-16.
pub fn offset_in_document(
    alloc: Global,
    slot: &mut DocumentSlot,
    line: usize,
    column: usize,
) -> usize
    ensures offset { IsOffsetAt line column slot.old.handle.held result }
    ensures same { slot.new.handle.held ≡ slot.old.handle.held }
{
    if !slot.has_document() {
        return NO_OFFSET;
    }
    let document = slot.take(alloc);
    let at = document.offset_at_utf16(line, column).unwrap_or(NO_OFFSET);
    slot.put(document);
    at
}

/// Frees the document of a handle, if it has one.
pub fn close_document(alloc: Global, slot: &mut DocumentSlot)
    ensures { slot.new.handle.held ≡ None }
{
    if slot.has_document() {
        drop(slot.take(alloc));
    }
}
