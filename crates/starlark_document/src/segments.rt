//! Segments: parts of a document's text that are lexed by themselves, and what is found in them.

ghost use Rattle.std.specs.Prelude.{◌≡◌, ◌≤◌, ◌<◌, ◌+◌, ◌^◌, IfSome, None, Some, [], drop, length, nat_le, take};
ghost use Rattle.std.specs.List.{prefix_len, slice_get};
ghost use Rattle.starlark_document.specs.Documents.{IsKindOf};
ghost use Rattle.starlark_document.specs.Inner.EditedParts.{IsPlaceIn};
ghost use Rattle.starlark_document.specs.Inner.Segments.{AreBounded, HaveLens, text_of};
ghost use Rattle.starlark_document.specs.Inner.Segments as inner;
ghost use Rattle.starlark_grammar.specs.Tokens.{Fault, Spanned};
ghost use Rattle.starlark_token.specs.TokenViews.{token_view};

use starlark_syntax::error::ErrorKind;
use starlark_syntax::eval_exception::EvalException;
use starlark_token::tokens::Token;
use std::boxed::Box;
use std::marker::Model;

/// A token, with its begin and end in bytes from the start of a segment.
pub type PlacedToken = (usize, Token, usize);

/// A fault, with its begin and end in bytes from the start of a segment.
#[derive(Drop)]
pub struct PlacedFault {
    /// Offset of its first byte.
    pub begin: usize,
    /// What the fault is; its span is that of the lexer that found it.
    pub exception: EvalException,
    /// Offset after its last byte.
    pub end: usize,
}

/// The text of a segment, and what is found in it.
#[derive(Drop)]
pub struct Content {
    /// The text.
    pub text: String,
    /// Its lexemes. Only in a document's last segment the closing `Newline` is one of them.
    pub lexemes: Vec<PlacedToken>,
    /// Its faults.
    pub faults: Vec<PlacedFault>,
}

/// A part of a document's text that is lexed by itself.
#[derive(Drop)]
pub struct Segment {
    /// Length of the text in bytes. It is stored here so that a search reads few cache lines.
    pub len: usize,
    /// Number of LF in the text, stored like its length.
    pub lines: usize,
    /// The text, and what is found in it.
    pub content: Box<Content>,
}

/// A segment by its index, and where it begins in the text.
#[derive(Clone, Copy)]
pub struct SegmentPlace {
    /// Index of the segment.
    pub index: usize,
    /// Offset of its first byte.
    pub begin: usize,
}

/// Number of segments that a search passes at once.
const SEARCH_STEP: usize = 32;

/// Length of the texts of segments.
fn texts_len(segments: &[Segment]) -> usize
    requires lens { HaveLens segments.now }
    requires fits { length (text_of segments.now) < 2 ^ 32 }
    ensures { result ≡ length (text_of segments.now) }
{
    let mut len = 0;
    for segment in segments {
        len += segment.len;
    }
    len
}

/// A segment at or before the one that holds byte `at`, from which a search goes on one by one.
fn step_before(segments: &[Segment], at: usize) -> SegmentPlace
    requires some { 0 < length segments.now }
    requires lens { HaveLens segments.now }
    requires fits { length (text_of segments.now) < 2 ^ 32 }
    ensures place { IsPlaceIn segments.now result }
    ensures before { result.begin ≤ at }
{
    let mut index = 0;
    let mut left = at;
    while index + SEARCH_STEP < segments.len() {
        // Measured: with the offset as the start of the sum, each addition waits for the one before.
        let len = texts_len(&segments[index..index + SEARCH_STEP]);
        if left < len {
            break;
        }
        left -= len;
        index += SEARCH_STEP;
    }
    SegmentPlace {
        index,
        begin: at - left,
    }
}

/// Where a segment ends in the whole text.
#[inline(always)]
pub fn end_of(segments: &[Segment], place: SegmentPlace) -> usize
    requires lens { HaveLens segments.now }
    requires fits { length (text_of segments.now) < 2 ^ 32 }
    requires place { IsPlaceIn segments.now place }
    ensures end { (segment : Segment) → slice_get segments.now place.index ≡ Some segment → result ≡ place.begin + segment.len }
    ensures next { result ≡ length (text_of (take (place.index + 1) segments.now)) }
{
    place.begin + segments[place.index].len
}

/// The segment that holds byte `at`, or the last one.
pub fn segment_at(segments: &[Segment], at: usize) -> SegmentPlace
    requires some { 0 < length segments.now }
    requires lens { HaveLens segments.now }
    requires fits { length (text_of segments.now) < 2 ^ 32 }
    ensures place { IsPlaceIn segments.now result }
    ensures before { result.begin ≤ at }
    ensures reach { at ≤ length (text_of segments.now) → (segment : Segment) → slice_get segments.now result.index ≡ Some segment → at ≤ result.begin + segment.len }
    ensures inner { result.index + 1 < length segments.now → (segment : Segment) → slice_get segments.now result.index ≡ Some segment → at < result.begin + segment.len }
{
    let mut place = step_before(segments, at);
    while place.index + 1 < segments.len() && end_of(segments, place) <= at {
        place.begin = end_of(segments, place);
        place.index += 1;
    }
    place
}

/// How many lexemes of a segment end at or before byte `at` of it, before the first that doesn't.
pub fn passed_len(segment: &Segment, at: usize) -> usize
    ensures { result ≡ prefix_len (λ lexeme. nat_le lexeme.2 at) segment.now.content.value.lexemes.items }
{
    let lexemes = &segment.content.lexemes;
    lexemes.iter().take_while(|lexeme| lexeme.2 <= at).count()
}

/// An iterator over lexemes of a document, in order: begin in bytes, token, end in bytes.
///
/// In a contract it is the lexemes that are left.
#[derive(Drop)]
pub struct Lexemes<'a> {
    segments: &'a [Segment],
    begin: usize,
    at: usize,
}

impl<'a> Model for Lexemes<'a> {
    ghost use Rattle.std.specs.Prelude.{List, ◌<◌, ◌+◌, ◌^◌, length};
    ghost use Rattle.starlark_document.specs.Inner.Segments.{AreBounded, lexemes_from};
    ghost use Rattle.starlark_grammar.specs.Tokens.{Spanned};
    ghost use Rattle.starlark_token.specs.TokenViews.{TokenView};

    ghost Value = { List (Spanned TokenView) };

    ghost view = { λ it. lexemes_from it.begin it.at it.segments.now };

    ghost invariant = { λ it. AreBounded it.begin it.segments.now };
}

impl<'a> Lexemes<'a> {
    /// Lexemes of segments from the lexeme of index `at` of the first one on, which begins at byte
    /// `begin`.
    pub(crate) fn new(segments: &'a [Segment], begin: usize, at: usize) -> Lexemes<'a>
        requires { AreBounded begin segments.now }
        ensures { result ≡ inner.lexemes_from begin at segments.now }
    {
        Lexemes {
            segments,
            begin,
            at,
        }
    }

    /// Returns the next lexeme, or `None` after the last one.
    pub fn next(&mut self) -> Option<(usize, &'a Token, usize)>
        ensures some { IfSome result (λ found. slice_get self.old 0 ≡ Some (record { begin = found.0; node = token_view found.1.now; end = found.2 })) }
        ensures none { result ≡ None → self.old ≡ [] }
        ensures after { self.new ≡ drop 1 self.old }
    {
        while let [segment, rest @ ..] = self.segments {
            if let Some((begin, token, end)) = segment.content.lexemes.get(self.at) {
                self.at += 1;
                return Some((self.begin + *begin, token, self.begin + *end));
            }
            self.segments = rest;
            self.begin += segment.len;
            self.at = 0;
        }
        None
    }
}

impl<'a> Iterator for Lexemes<'a> {
    ghost use Rattle.starlark_document.specs.Documents.{IsNextLexeme, left_count};

    type Item = (usize, &'a Token, usize);

    ghost next_gives = { IsNextLexeme };

    ghost remaining = { left_count };

    fn next(&mut self) -> Option<(usize, &'a Token, usize)> {
        Lexemes::next(self)
    }
}

/// An iterator over faults of a document, in order: begin in bytes, what it is, end in bytes.
///
/// In a contract it is the faults that are left.
#[derive(Drop)]
pub struct Faults<'a> {
    segments: &'a [Segment],
    begin: usize,
    at: usize,
}

impl<'a> Model for Faults<'a> {
    ghost use Rattle.std.specs.Prelude.{List};
    ghost use Rattle.starlark_document.specs.Inner.Segments.{AreBounded, faults_from};
    ghost use Rattle.starlark_grammar.specs.Tokens.{Fault, Spanned};

    ghost Value = { List (Spanned Fault) };

    ghost view = { λ it. faults_from it.begin it.at it.segments.now };

    ghost invariant = { λ it. AreBounded it.begin it.segments.now };
}

impl<'a> Faults<'a> {
    /// Faults of all segments.
    pub(crate) fn new(segments: &'a [Segment]) -> Faults<'a>
        requires { AreBounded 0 segments.now }
        ensures { result ≡ inner.faults_along 0 segments.now }
    {
        Faults {
            segments,
            begin: 0,
            at: 0,
        }
    }

    /// Returns the next fault, or `None` after the last one.
    pub fn next(&mut self) -> Option<(usize, &'a ErrorKind, usize)>
        ensures some { IfSome result (λ found. (fault : Spanned Fault) × (slice_get self.old 0 ≡ Some fault) × (found.0 ≡ fault.begin) × IsKindOf fault.node found.1.now × (found.2 ≡ fault.end)) }
        ensures none { result ≡ None → self.old ≡ [] }
        ensures after { self.new ≡ drop 1 self.old }
    {
        while let [segment, rest @ ..] = self.segments {
            if let Some(fault) = segment.content.faults.get(self.at) {
                self.at += 1;
                let kind = fault.exception.error().kind();
                return Some((self.begin + fault.begin, kind, self.begin + fault.end));
            }
            self.segments = rest;
            self.begin += segment.len;
            self.at = 0;
        }
        None
    }
}

impl<'a> Iterator for Faults<'a> {
    ghost use Rattle.starlark_document.specs.Documents.{IsNextFault, left_count};

    type Item = (usize, &'a ErrorKind, usize);

    ghost next_gives = { IsNextFault };

    ghost remaining = { left_count };

    fn next(&mut self) -> Option<(usize, &'a ErrorKind, usize)> {
        Faults::next(self)
    }
}
