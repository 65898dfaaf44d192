//! Documents: texts that stay lexed while they are edited.

ghost use Rattle.std.specs.Prelude.{◌≡◌, ◌≤◌, ◌<◌, ◌^◌, ◌↔◌, ◌==◌, Err, IfErr, IfOk, IfSome, IsNone, IsTrue, OnErr, OnOk, Some, drop, length, map, slice_range, string_bytes, take, true, ℕ};
ghost use Rattle.std.specs.List.{prefix_len, splice};
ghost use Rattle.std.specs.Str.{IsCharBoundary};
ghost use Rattle.starlark_base.specs.Lines.{line_count};
ghost use Rattle.starlark_base.specs.Refusals.{IsRefused};
ghost use Rattle.starlark_document.specs.Documents.{AreEdits, IsChange, IsLocal, IsNew, IsRange, IsStop, edit_view, edited, ends_by, faults_of, lexemes_of, text_after};
ghost use Rattle.starlark_document.specs.Inner.EditedParts.{IsLexedPart, IsEditedPart};
ghost use Rattle.starlark_document.specs.Inner.Segments.{AreLaid, text_of};
ghost use Rattle.starlark_document.specs.Utf16Places.{StandsAt, place_of};
ghost use Rattle.starlark_grammar.specs.Words.{Text};
ghost use Rattle.starlark_devices.specs.Calls.{WritesText};

use crate::edited_parts::{
    EditedPart, LexedPart, SegmentRange, append_texts, is_boundary_in, lex_part, part_of_edit,
    range_in, write_texts,
};
use crate::line_places::{Place, newlines_in, offset_in_segments, place_in};
use crate::segments::{Faults, Lexemes, Segment, SegmentPlace, passed_len, segment_at};
use starlark_base::edit::Edit;
use starlark_devices::WriteDevice;
use starlark_syntax::codemap::{CodeMap, CodeMapId, OrMemory, SourceTooLong, is_source_len};
use std::alloc::{AllocError, Global};
use std::marker::Model;
use std::{fmt, io};

/// A text that stays lexed while it is edited.
///
/// Its lexemes and faults are those of lexing the whole text on after its faults, after any edits.
/// In a contract a document is its text, with the segments in which it is lexed.
#[derive(Drop)]
pub struct Document {
    alloc: Global,
    file: CodeMap,
    segments: Vec<Segment>,
    len: usize,
    least_len: usize,
}

impl Model for Document {
    ghost use Rattle.std.specs.Prelude.{◌≡◌, ◌<◌, ◌^◌, length, true};
    ghost use Rattle.starlark_document.specs.Documents.{DocumentView};
    ghost use Rattle.starlark_document.specs.Inner.Segments.{AreLaid, document_of, text_of};

    ghost Value = { DocumentView };

    ghost view = { λ document. document_of document.least_len document.segments.items };

    ghost invariant = { λ document. AreLaid true document.segments.items
        × (document.len ≡ length (text_of document.segments.items))
        × (length (text_of document.segments.items) < 2 ^ 32) };
}

/// The least length of a segment in bytes, unless it is the only one.
// Measured: with less an edit is cheaper, but more of it grows with the text (docs/EXPERIMENTS.md).
const SEGMENT_LEN: usize = 1280;

/// What an edit changed. Outside of these ranges all lexemes and faults are the old ones, and those
/// after them are moved.
#[derive(Clone, Copy)]
pub struct Change {
    /// Start of the range, in bytes of either text.
    pub begin: usize,
    /// End of the range in the old text.
    pub old_end: usize,
    /// End of the range in the new text.
    pub new_end: usize,
    /// Number of bytes that were given to the lexer. A byte that was lexed twice counts twice.
    pub lexed: usize,
    /// How often lexing started: with each text that was given to the lexer, and after each fault.
    pub starts: usize,
    /// Number of reads of bytes: at most `16 * (lexed + starts)`.
    pub reads: u64,
}

/// Why a document refuses an edit.
#[derive(Clone, Copy)]
pub enum EditError {
    /// The offsets aren't in order, or aren't character boundaries of the text.
    BadRange,
    /// The text after the edit would have more than 4294967295 bytes.
    TooLong,
    /// Memory ran out.
    Memory,
}

impl fmt::Display for EditError {
    ghost use Rattle.std.specs.Prelude.{Some};
    ghost use Rattle.starlark_document.specs.Documents.{edit_error_text};

    ghost output = { λ error. Some (edit_error_text error) };

    fn fmt<W: fmt::Write>(&self, f: &mut fmt::Formatter<W>) -> fmt::Result {
        f.write_str(match self {
            EditError::BadRange => "the range isn't one of the text",
            EditError::TooLong => "the text would be longer than 4294967295 bytes",
            EditError::Memory => "out of memory",
        })
    }
}

impl From<AllocError> for EditError {
    ghost use Rattle.std.specs.Prelude.{◌≡◌};
    ghost use Rattle.starlark_document.specs.declared.document.EditError.TheVariants.{Memory};

    ghost from_gives = { λ _ error. error ≡ Memory };

    fn from(_error: AllocError) -> EditError {
        EditError::Memory
    }
}

/// A code map of an empty text, for lexers of which only the bytes of a fault's span are used.
fn empty_file(alloc: Global) -> Result<CodeMap, AllocError> {
    let name = String::new(alloc);
    CodeMap::new(alloc, CodeMapId::EMPTY, name, String::new(alloc)).map_err(|_| AllocError)
}

/// Puts new segments in the place of those from index `from` to index `to`.
///
/// Where one replaces one, the others aren't moved. After an error the segments are the old ones.
fn put_segments(
    segments: &mut Vec<Segment>,
    from: usize,
    to: usize,
    mut new: Vec<Segment>,
) -> Result<(), AllocError>
    requires order { from ≤ to }
    requires within { to ≤ length segments.old.items }
    ensures items { OnOk result (segments.new.items ≡ splice segments.old.items from to new.items) }
    ensures refused { OnErr result (segments.new.items ≡ segments.old.items) }
{
    if to - from == 1 && new.len() == 1 {
        segments[from] = new.swap_remove(0);
        return Ok(());
    }
    segments.splice(from..to, new)?;
    Ok(())
}

/// Puts the segments of a part that was lexed anew in the place of the old ones, and says what
/// changed.
///
/// The text had `old_len` bytes, and has `len` bytes after it. After an error the segments are the
/// old ones.
fn replace(
    segments: &mut Vec<Segment>,
    first: SegmentPlace,
    lexed: LexedPart,
    old_len: usize,
    len: usize,
) -> Result<Change, AllocError>
    requires part { (new : Text) × (part : EditedPart) × IsEditedPart segments.old.items new part × (part.first ≡ first) × IsLexedPart segments.old.items part lexed × (len ≡ length new) }
    requires order { first.index < lexed.end }
    requires laid { AreLaid true segments.old.items }
    requires old_len { old_len ≡ length (text_of segments.old.items) }
    requires fits { (old_len < 2 ^ 32) × (len < 2 ^ 32) }
    ensures text { OnOk result ((new : Text) (part : EditedPart) → IsEditedPart segments.old.items new part → part.first ≡ first → IsLexedPart segments.old.items part lexed → text_of segments.new.items ≡ new) }
    ensures laid { AreLaid true segments.new.items }
    ensures items { OnOk result (segments.new.items ≡ splice segments.old.items first.index lexed.end lexed.segments.items) }
    ensures change { IfOk result (IsChange (text_of segments.old.items) (text_of segments.new.items)) }
    ensures begin { IfOk result (λ change. change.begin ≡ first.begin) }
    ensures old_end { IfOk result (λ change. change.old_end ≡ length (text_of (take lexed.end segments.old.items))) }
    ensures refused { OnErr result (segments.new.items ≡ segments.old.items) }
{
    let new_end = first.begin + lexed.len;
    let change = Change {
        begin: first.begin,
        old_end: new_end + old_len - len,
        new_end,
        lexed: lexed.cost.lexed,
        starts: lexed.cost.starts,
        reads: lexed.cost.reads,
    };
    put_segments(segments, first.index, lexed.end, lexed.segments)?;
    Ok(change)
}

impl Document {
    /// A document of a text.
    ///
    /// Fails where the text has more than 4294967295 bytes, and else where memory runs out.
    pub fn new(alloc: Global, text: &str) -> Result<Document, OrMemory<SourceTooLong>>
        ensures document { IfOk result (IsNew 1280 text.now) }
        ensures too_long { IsRefused result ↔ (2 ^ 32 ≤ length text.now) }
    {
        Document::with_segment_len(alloc, text, SEGMENT_LEN)
    }

    /// A document of a text, in segments of at least `least_len` bytes where it can be cut so.
    ///
    /// Shorter segments make an edit faster, and take more memory. Fails as `new` does.
    pub fn with_segment_len(
        alloc: Global,
        text: &str,
        least_len: usize,
    ) -> Result<Document, OrMemory<SourceTooLong>>
        ensures document { IfOk result (IsNew least_len text.now) }
        ensures too_long { IsRefused result ↔ (2 ^ 32 ≤ length text.now) }
    {
        if !is_source_len(text.len()) {
            return Err(OrMemory::Error(SourceTooLong));
        }
        let file = empty_file(alloc)?;
        let part = EditedPart {
            first: SegmentPlace { index: 0, begin: 0 },
            end: 0,
            text: String::from_str(alloc, text)?,
        };
        let lexed = lex_part(alloc, &file, &[], part, least_len)?;
        Ok(Document {
            alloc,
            file,
            segments: lexed.segments,
            len: text.len(),
            least_len,
        })
    }

    /// Length of the text in bytes.
    pub fn len(&self) -> usize
        ensures { result ≡ length self.now.text }
    {
        self.len
    }

    /// Whether the text is empty.
    pub fn is_empty(&self) -> bool
        ensures { result ≡ (length self.now.text == 0) }
    {
        self.len == 0
    }

    /// Whether an offset lies in the text, or at its end, and not inside a character.
    pub fn is_char_boundary(&self, at: usize) -> bool
        ensures { IsTrue result ↔ IsCharBoundary self.now.text at }
    {
        is_boundary_in(&self.segments, segment_at(&self.segments, at), at)
    }

    /// Replaces the bytes from `from` to `to`, and lexes what the edit touches.
    ///
    /// Fails where the range isn't one of the text, where the text would become too long, and where
    /// memory runs out. After an error the document is as it was.
    pub fn edit(&mut self, from: usize, to: usize, text: &str) -> Result<Change, EditError>
        ensures text { OnOk result (self.new.text ≡ edited from to text.now self.old.text) }
        ensures change { IfOk result (IsChange self.old.text self.new.text) }
        ensures local { IfOk result (IsLocal from to self.old self.new) }
        ensures refused { OnErr result (self.new ≡ self.old) }
        ensures range { (result ≡ Err EditError.BadRange) ↔ (IsRange self.old.text from to → ⊥) }
        ensures too_long { (result ≡ Err EditError.TooLong) ↔ (IsRange self.old.text from to × (2 ^ 32 ≤ length (edited from to text.now self.old.text))) }
    {
        let Some(range) = range_in(&self.segments, from, to) else {
            return Err(EditError::BadRange);
        };
        let len = self.len - (to - from) + text.len();
        if !is_source_len(len) {
            return Err(EditError::TooLong);
        }
        let part = part_of_edit(self.alloc, &self.segments, range, from, to, text)?;
        let first = part.first;
        let lexed = lex_part(self.alloc, &self.file, &self.segments, part, self.least_len)?;
        let change = replace(&mut self.segments, first, lexed, self.len, len)?;
        self.len = len;
        Ok(change)
    }

    /// Makes edits one after another. The offsets of each are those of the text after the ones
    /// before it. Returns how many there are.
    ///
    /// Stops at the first one that `edit` refuses, and fails with its index. After an error the
    /// document has the text after the edits before that one.
    pub fn edit_all(&mut self, edits: &[Edit<'_>]) -> Result<usize, (usize, EditError)>
        ensures text { OnOk result (self.new.text ≡ text_after (map edit_view edits.now) self.old.text) }
        ensures fit { OnOk result (AreEdits self.old.text (map edit_view edits.now)) }
        ensures count { IfOk result (λ count. count ≡ length edits.now) }
        ensures stopped { IfErr result (λ failure. IsStop self.old.text (map edit_view edits.now) failure.0 failure.1 self.new.text) }
    {
        for (index, edit) in edits.iter().enumerate() {
            if let Err(error) = self.edit(edit.from, edit.to, edit.text) {
                return Err((index, error));
            }
        }
        Ok(edits.len())
    }

    /// All lexemes of the text.
    pub fn lexemes(&self) -> Lexemes<'_>
        ensures { result ≡ lexemes_of self.now.text }
    {
        Lexemes::new(&self.segments, 0, 0)
    }

    /// The lexemes of the text from the first one that ends after byte `at` on.
    pub fn lexemes_from(&self, at: usize) -> Lexemes<'_>
        ensures { result ≡ drop (prefix_len (ends_by at) (lexemes_of self.now.text)) (lexemes_of self.now.text) }
    {
        let place = segment_at(&self.segments, at);
        let passed = passed_len(&self.segments[place.index], at - place.begin);
        Lexemes::new(&self.segments[place.index..], place.begin, passed)
    }

    /// All faults of the text.
    pub fn faults(&self) -> Faults<'_>
        ensures { result ≡ faults_of self.now.text }
    {
        Faults::new(&self.segments)
    }

    /// Number of lines of the text: one more than it has LF.
    pub fn line_count(&self) -> usize
        ensures { result ≡ line_count self.now.text }
    {
        newlines_in(&self.segments) + 1
    }

    /// The place of an offset: its line, and its columns in characters and in units of UTF-16.
    /// `None` where it is no character boundary of the text.
    pub fn place(&self, at: usize) -> Option<Place>
        ensures place { IfSome result (λ place. place ≡ place_of self.now.text at) }
        ensures none { IsNone result ↔ (IsCharBoundary self.now.text at → ⊥) }
    {
        place_in(&self.segments, at)
    }

    /// The offset of a line and a column in units of UTF-16, both from 0. `None` where no character
    /// boundary stands there.
    pub fn offset_at_utf16(&self, line: usize, column: usize) -> Option<usize>
        ensures { (at : ℕ) → (result ≡ Some at) ↔ StandsAt self.now.text line column at }
    {
        offset_in_segments(&self.segments, line, column)
    }

    /// The text from byte `from` to byte `to`; `None` where the range isn't one of the text.
    pub fn slice(&self, from: usize, to: usize) -> Result<Option<String>, AllocError>
        ensures text { IfOk result (λ found. IfSome found (λ text. string_bytes text ≡ slice_range self.now.text from to)) }
        ensures none { IfOk result (λ found. IsNone found ↔ (IsRange self.now.text from to → ⊥)) }
        ensures memory { OnErr result (IsRange self.now.text from to) }
    {
        let Some(SegmentRange { first, last }) = range_in(&self.segments, from, to) else {
            return Ok(None);
        };
        let mut text = String::new(self.alloc);
        append_texts(&mut text, &self.segments[first.index..last.index + 1])?;
        let front = from - first.begin;
        let len = to - first.begin;
        Ok(Some(String::from_str(self.alloc, &text.as_str()[front..len])?))
    }

    /// Writes the whole text to a writer, without a copy of it.
    ///
    /// Writes each segment by itself, allocates nothing, and doesn't flush the writer. Fails at the
    /// first write that fails or takes nothing, which isn't tried again. Then a beginning of the text
    /// is written.
    pub fn write_to<W: WriteDevice>(&self, writer: &mut W) -> io::Result<()>
        ensures { WritesText W.calls writer.old writer.new self.now.text result }
    {
        write_texts(&self.segments, writer)
    }
}
