//! Parts of a document: the segments that an edit touches, with their text after it.

ghost use Rattle.std.specs.Prelude.{◌≡◌, ◌≤◌, ◌<◌, ◌+◌, ◌++◌, ◌^◌, ◌↔◌, ◌⊎◌, Some, IfOk, IfSome, IsNone, IsTrue, OnOk, false, length, string_bytes, true};
ghost use Rattle.std.specs.List.{slice_get};
ghost use Rattle.std.specs.Str.{IsCharBoundary};
ghost use Rattle.starlark_document.specs.Documents.{IsRange, edited};
ghost use Rattle.starlark_document.specs.Inner.EditedParts.{AreSized, IsLexedPart, IsEditedPart, IsPlaceIn, IsRangeIn, IsReplaced, IsTouched};
ghost use Rattle.starlark_document.specs.Inner.Segments.{AreLaid, HaveLens, text_of};
ghost use Rattle.starlark_grammar.specs.Joining as spec;
ghost use Rattle.starlark_grammar.specs.Words.{Text};
ghost use Rattle.starlark_devices.specs.Calls.{WritesText};

use crate::lexed_fronts::begins_plainly;
use crate::segment_lexing::{LexingCost, lex_segment};
use crate::segments::{Segment, SegmentPlace, end_of, segment_at};
use starlark_devices::{WriteDevice, write_all};
use starlark_syntax::codemap::CodeMap;
use std::alloc::{AllocError, Global};
use std::io;

/// The segments that hold the ends of a range of a text.
#[derive(Clone, Copy)]
pub struct SegmentRange {
    /// The segment that the range begins in.
    pub first: SegmentPlace,
    /// The segment that it ends in, or with.
    pub last: SegmentPlace,
}

/// A part of a document whose text changes: the segments that it replaces, and its new text.
#[derive(Drop)]
pub struct EditedPart {
    /// The first segment that is replaced.
    pub first: SegmentPlace,
    /// Index after the last segment that is replaced.
    pub end: usize,
    /// The text after the edit.
    pub text: String,
}

/// A part of a document that was lexed anew.
#[derive(Drop)]
pub struct LexedPart {
    /// Index after the last segment that is replaced.
    pub end: usize,
    /// The segments in their place.
    pub segments: Vec<Segment>,
    /// Number of bytes of the new segments.
    pub len: usize,
    /// What lexing them took.
    pub cost: LexingCost,
}

/// The segment that byte `to` ends in, from a segment at or before it on; else the last one.
pub fn end_at(segments: &[Segment], from: SegmentPlace, to: usize) -> SegmentPlace
    requires lens { HaveLens segments.now }
    requires fits { length (text_of segments.now) < 2 ^ 32 }
    requires from { IsPlaceIn segments.now from }
    requires before { from.begin ≤ to }
    ensures place { IsPlaceIn segments.now result }
    ensures later { from.index ≤ result.index }
    ensures before { result.begin ≤ to }
    ensures near { from.index < result.index → result.begin < to }
    ensures reach { to ≤ length (text_of segments.now) → (segment : Segment) → slice_get segments.now result.index ≡ Some segment → to ≤ result.begin + segment.len }
{
    let mut place = from;
    while place.index + 1 < segments.len() && end_of(segments, place) < to {
        place.begin = end_of(segments, place);
        place.index += 1;
    }
    place
}

/// Whether an offset is a character boundary of the text of segments, by the one that holds it.
pub fn is_boundary_in(segments: &[Segment], place: SegmentPlace, at: usize) -> bool
    requires laid { AreLaid true segments.now }
    requires place { IsPlaceIn segments.now place }
    requires before { place.begin ≤ at }
    requires reach { at ≤ length (text_of segments.now) → (segment : Segment) → slice_get segments.now place.index ≡ Some segment → at ≤ place.begin + segment.len }
    ensures { IsTrue result ↔ IsCharBoundary (text_of segments.now) at }
{
    let text = segments[place.index].content.text.as_str();
    text.is_char_boundary(at - place.begin)
}

/// The segments that hold the ends of a range; `None` where the offsets aren't in order, or aren't
/// character boundaries of the text.
pub fn range_in(segments: &[Segment], from: usize, to: usize) -> Option<SegmentRange>
    requires laid { AreLaid true segments.now }
    requires fits { length (text_of segments.now) < 2 ^ 32 }
    ensures some { IfSome result (IsRangeIn segments.now from to) }
    ensures none { IsNone result ↔ (IsRange (text_of segments.now) from to → ⊥) }
{
    if to < from {
        return None;
    }
    let first = segment_at(segments, from);
    let last = end_at(segments, first, to);
    if !is_boundary_in(segments, first, from) || !is_boundary_in(segments, last, to) {
        return None;
    }
    Some(SegmentRange { first, last })
}

/// The part that an edit touches: the segments from that of the range's start to that of its end.
fn touched_part(
    alloc: Global,
    segments: &[Segment],
    range: SegmentRange,
    from: usize,
    to: usize,
    inserted: &str,
) -> Result<EditedPart, AllocError>
    requires laid { AreLaid true segments.now }
    requires fits { length (text_of segments.now) < 2 ^ 32 }
    requires range { IsRangeIn segments.now from to range }
    ensures part { IfOk result (IsReplaced segments.now (edited from to inserted.now (text_of segments.now))) }
    ensures before { IfOk result (λ part. part.first.begin ≤ from) }
    ensures some { IfOk result (λ part. part.first.index < part.end) }
    ensures first { IfOk result (λ part. part.first ≡ range.first) }
    ensures end { IfOk result (λ part. part.end ≡ range.last.index + 1) }
{
    let SegmentRange { first, last } = range;
    let front = &segments[first.index].content.text.as_str()[..from - first.begin];
    let rest = &segments[last.index].content.text.as_str()[to - last.begin..];
    let mut text = String::with_capacity(alloc, front.len() + inserted.len() + rest.len())?;
    text.push_str(front)?;
    text.push_str(inserted)?;
    text.push_str(rest)?;
    Ok(EditedPart {
        first,
        end: last.index + 1,
        text,
    })
}

/// The part with the segment before it, unless it is the first, or begins plainly.
fn with_earlier(
    alloc: Global,
    segments: &[Segment],
    part: EditedPart,
) -> Result<EditedPart, AllocError>
    requires laid { AreLaid true segments.now }
    requires part { (whole : Text) × IsReplaced segments.now whole part }
    ensures part { IfOk result (λ more. (whole : Text) → IsReplaced segments.now whole part → IsEditedPart segments.now whole more) }
    ensures before { IfOk result (λ more. more.first.begin ≤ part.first.begin) }
    ensures some { IfOk result (λ more. part.first.index < part.end → more.first.index < more.end) }
    ensures first { IfOk result (λ more. (more.first.index ≡ part.first.index) ⊎ ((more.first.index + 1 ≡ part.first.index) × (spec.begins_plainly (string_bytes part.text) ≡ false))) }
    ensures end { IfOk result (λ more. more.end ≡ part.end) }
{
    if part.first.index == 0 || begins_plainly(part.text.as_bytes()) {
        return Ok(part);
    }
    let index = part.first.index - 1;
    let mut text = String::from_str(alloc, segments[index].content.text.as_str())?;
    text.push_str(part.text.as_str())?;
    Ok(EditedPart {
        first: SegmentPlace {
            index,
            begin: part.first.begin - segments[index].len,
        },
        end: part.end,
        text,
    })
}

/// The part of a document that an edit changes, with its text after the edit.
pub fn part_of_edit(
    alloc: Global,
    segments: &[Segment],
    range: SegmentRange,
    from: usize,
    to: usize,
    inserted: &str,
) -> Result<EditedPart, AllocError>
    requires laid { AreLaid true segments.now }
    requires fits { length (text_of segments.now) < 2 ^ 32 }
    requires range { IsRangeIn segments.now from to range }
    ensures part { IfOk result (IsEditedPart segments.now (edited from to inserted.now (text_of segments.now))) }
    ensures some { IfOk result (λ part. part.first.index < part.end) }
    ensures touched { IfOk result (IsTouched segments.now (edited from to inserted.now (text_of segments.now)) range) }
{
    let part = touched_part(alloc, segments, range, from, to, inserted)?;
    with_earlier(alloc, segments, part)
}

/// Appends the texts of segments to a text.
pub fn append_texts(text: &mut String, segments: &[Segment]) -> Result<(), AllocError>
    ensures { OnOk result (string_bytes text.new ≡ string_bytes text.old ++ text_of segments.now) }
{
    for segment in segments {
        text.push_str(segment.content.text.as_str())?;
    }
    Ok(())
}

/// Writes the texts of segments to a writer, each by itself.
pub fn write_texts<W: WriteDevice>(segments: &[Segment], writer: &mut W) -> io::Result<()>
    ensures { WritesText W.calls writer.old writer.new (text_of segments.now) result }
{
    for segment in segments {
        write_all(writer, segment.content.text.as_bytes())?;
    }
    Ok(())
}

/// Number of lexemes of the segment at an index; 0 if there is none.
fn lexeme_count(segments: &[Segment], index: usize) -> usize {
    match segments.get(index) {
        Some(segment) => segment.content.lexemes.len(),
        None => 0,
    }
}

/// Lexes a part segment by segment. Where its text isn't closed, it takes in the segments after it:
/// one, two, four, and so on. Segments get at least `least_len` bytes where they can.
pub fn lex_part(
    alloc: Global,
    file: &CodeMap,
    segments: &[Segment],
    part: EditedPart,
    least_len: usize,
) -> Result<LexedPart, AllocError>
    requires part { (whole : Text) × IsEditedPart segments.now whole part × (length whole < 2 ^ 32) }
    ensures lexed { IfOk result (IsLexedPart segments.now part) }
    ensures sized { IfOk result (λ lexed. AreSized least_len lexed.segments.items) }
{
    let mut text = part.text;
    let mut lexed = LexedPart {
        end: part.end,
        segments: Vec::new(alloc),
        len: 0,
        cost: LexingCost::none(),
    };
    let mut more = 1;
    let mut likely_count = lexeme_count(segments, part.first.index);
    loop {
        let is_last = lexed.end == segments.len();
        let rest = &text.as_str()[lexed.len..];
        let attempt = lex_segment(alloc, file, rest, is_last, least_len, likely_count)?;
        lexed.cost = lexed.cost.and(attempt.cost);
        let found = attempt.segment;
        match found {
            Some(segment) => {
                lexed.len += segment.len;
                likely_count = segment.content.lexemes.len();
                lexed.segments.push(segment)?;
                if lexed.len == text.len() {
                    return Ok(lexed);
                }
            }
            None => {
                let end = segments.len().min(lexed.end.saturating_add(more));
                append_texts(&mut text, &segments[lexed.end..end])?;
                lexed.end = end;
                more = more.saturating_mul(2);
            }
        }
    }
}
