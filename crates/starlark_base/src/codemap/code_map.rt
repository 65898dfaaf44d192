//! Code maps: source texts with an index of their lines.

ghost use Rattle.std.specs.Prelude.{◌≡◌, ◌+◌, ◌<◌, ◌≤◌, ◌^◌, ◌↔◌, IsTrue, IfOk, OnOk, length, take, string_bytes, slice_index, SomeIff, IfSome};
ghost use Rattle.std.specs.List.{suffix_len};
ghost use Rattle.std.specs.Str.{IsCharBoundary, IsUtf8};
ghost use Rattle.starlark_base.specs.Inner.CharacterCounts.{AreCounts};
ghost use Rattle.starlark_base.specs.Lines.{is_line_end, line_begin, line_count, line_span, line_text, text_of, trimmed_line_span, without_last, without_line_ends};
ghost use Rattle.starlark_base.specs.Places.{place_at, resolved};
ghost use Rattle.starlark_base.specs.Refusals.{IsRefused};
ghost use Rattle.starlark_base.specs.Sources.{holds, Holds};
ghost use Rattle.starlark_base.specs.Starts.{line_starts};
ghost use Rattle.starlark_base.specs.declared.codemap.character_counts.TheConstants.{STEP};

use crate::codemap::character_counts::{characters_between, counts_of};
use crate::codemap::{
    FileSpan, OrMemory, Pos, ResolvedPos, ResolvedSpan, SourceTooLong, Span, is_source_len,
};
use memchr::memchr_iter;
use std::alloc::{AllocError, Global};
use std::fmt;
use std::hash::{Hash, Hasher};
use std::marker::Model;
use std::rc::Rc;

/// The number that identifies a code map. In a contract it is that number.
#[derive(Clone, Copy, Debug, PartialEq, Eq, Hash)]
pub struct CodeMapId(u64);

impl Model for CodeMapId {
    ghost use Rattle.std.specs.Prelude.{ℕ};

    ghost Value = { ℕ };

    ghost view = { λ id. id.0 };

    ghost inverse = { λ n. record { 0 = n } };
}

impl CodeMapId {
    /// The number 0, for texts without a file.
    pub const EMPTY: CodeMapId = CodeMapId(0);

    /// An identifier of the given number.
    pub fn new(id: u64) -> Self
        ensures { result ≡ id }
    {
        CodeMapId(id)
    }

    /// The identifier as a number.
    pub fn get(self) -> u64
        ensures { result ≡ self }
    {
        self.0
    }
}

/// The shared part of a code map: number, name, text, line starts, and characters before each step.
#[derive(Drop)]
struct CodeMapData {
    id: CodeMapId,
    filename: String,
    source: String,
    starts: Vec<Pos>,
    counts: Vec<u32>,
    ghost fits: { length (string_bytes source) < 2 ^ 32 },
    ghost indexed: { starts.items ≡ line_starts (string_bytes source) },
    ghost counted: { AreCounts STEP (string_bytes source) counts.items },
}

/// A source text with its file's name and a number that identifies it.
///
/// Two code maps are equal if their numbers and names are: texts are not compared. So give each
/// text a number of its own. `dupe` makes another one that shares the text. `Debug` prints the name
/// alone, as in `CodeMap("BUILD")`.
///
/// Besides its texts it stores at most eight bytes a line, and one byte for each 64 of a source
/// that isn't all ASCII. In a contract it is its number, name and source.
#[derive(Drop)]
pub struct CodeMap {
    data: Rc<CodeMapData>,
}

impl Model for CodeMap {
    ghost use Rattle.std.specs.Prelude.{string_bytes};
    ghost use Rattle.starlark_base.specs.Sources.{SourceFile};

    ghost Value = { SourceFile };

    ghost view = { λ map. record { id = map.data.value.id; filename = string_bytes map.data.value.filename; source = string_bytes map.data.value.source } };
}

/// The byte position at which each line of a source begins.
fn starts_of_lines(alloc: Global, source: &str) -> Result<Vec<Pos>, AllocError>
    requires { length source.now < 2 ^ 32 }
    ensures { IfOk result (λ starts. starts.items ≡ line_starts source.now) }
{
    let mut starts = Vec::new(alloc);
    starts.push(Pos::new(0))?;
    for at in memchr_iter(b'\n', source.as_bytes()) {
        starts.push(Pos::new(at as u32 + 1))?;
    }
    Ok(starts)
}

/// Number of LF and CR bytes at the end of a text.
fn count_line_ends(text: &[u8]) -> usize
    ensures { result ≡ suffix_len is_line_end text.now }
{
    let reversed = text.iter().rev();
    reversed
        .take_while(|b| **b == b'\n' || **b == b'\r')
        .count()
}

/// A text without the LF and CR bytes at its end.
fn trim_line_ends(text: &str) -> &str
    ensures { result.now ≡ without_line_ends text.now }
{
    let line_ends = count_line_ends(text.as_bytes());
    &text[..text.len() - line_ends]
}

impl CodeMap {
    /// A code map of a source text, of the given number and file name.
    ///
    /// Fails where the source has more than 4294967295 bytes, and else where memory runs out.
    /// Either error drops the name and the source.
    pub fn new(
        alloc: Global,
        id: CodeMapId,
        filename: String,
        source: String,
    ) -> Result<CodeMap, OrMemory<SourceTooLong>>
        ensures ok { IfOk result (λ map. map ≡ record { id = id; filename = string_bytes filename; source = string_bytes source }) }
        ensures too_long { IsRefused result ↔ (2 ^ 32 ≤ length (string_bytes source)) }
    {
        if !is_source_len(source.len()) {
            return Err(OrMemory::Error(SourceTooLong));
        }
        let starts = starts_of_lines(alloc, source.as_str())?;
        let counts = counts_of(alloc, source.as_str())?;
        let data = Rc::new(
            alloc,
            CodeMapData {
                id,
                filename,
                source,
                starts,
                counts,
            },
        )
        .map_err(|_| OrMemory::Memory)?;
        Ok(CodeMap { data })
    }

    /// A copy of the code map that shares its text. `AllocError` where memory runs out.
    pub fn dupe(&self) -> Result<CodeMap, AllocError>
        ensures { IfOk result (λ copy. copy ≡ self.now) }
    {
        Ok(CodeMap {
            data: self.data.clone()?,
        })
    }

    /// The number that identifies the code map.
    pub fn id(&self) -> CodeMapId
        ensures { result ≡ self.now.id }
    {
        self.data.id
    }

    /// The name of the file.
    pub fn filename(&self) -> &str
        ensures { result.now ≡ self.now.filename }
    {
        self.data.filename.as_str()
    }

    /// The source text.
    pub fn source(&self) -> &str
        ensures source { result.now ≡ self.now.source }
        ensures fits { length self.now.source < 2 ^ 32 }
    {
        self.data.source.as_str()
    }

    /// The byte position at which each line begins.
    fn starts(&self) -> &[Pos]
        ensures starts { result.now ≡ line_starts self.now.source }
        ensures utf8 { IsUtf8 self.now.source }
    {
        self.data.starts.as_slice()
    }

    /// Number of characters before each step of the source; empty where it is all ASCII.
    fn counts(&self) -> &[u32]
        ensures { AreCounts STEP self.now.source result.now }
    {
        self.data.counts.as_slice()
    }

    /// The byte position at which a line, from 0, begins.
    fn line_start(&self, line: usize) -> Pos
        requires { line < line_count self.now.source }
        ensures start { result ≡ line_begin self.now.source line }
        ensures boundary { IsCharBoundary self.now.source result }
    {
        self.starts()[line]
    }

    /// The span of the whole source.
    pub fn full_span(&self) -> Span
        ensures span { result ≡ record { begin = 0; end = length self.now.source } }
        ensures held { Holds self.now.source result }
    {
        Span::new(Pos::new(0), Pos::new(self.source().len() as u32))
    }

    /// A span with a copy of the code map that shares its text. `AllocError` where memory runs out.
    ///
    /// The span may be out of range.
    pub fn file_span(&self, span: Span) -> Result<FileSpan, AllocError>
        ensures file { IfOk result (λ it. it.file ≡ self.now) }
        ensures span { IfOk result (λ it. it.span ≡ span) }
    {
        Ok(FileSpan {
            file: self.dupe()?,
            span,
        })
    }

    /// Whether a position lies in the source or at its end. It may be inside a character.
    pub fn has_pos(&self, pos: Pos) -> bool
        ensures { IsTrue result ↔ (pos ≤ length self.now.source) }
    {
        pos.get() as usize <= self.source().len()
    }

    /// Whether a span lies in the source, with both ends at character boundaries.
    ///
    /// This is the test for the condition `Holds` of other calls.
    pub fn holds(&self, span: Span) -> bool
        ensures held { IsTrue result ↔ Holds self.now.source span }
        ensures test { result ≡ holds self.now.source span }
    {
        let source = self.source();
        source.is_char_boundary(span.begin().get() as usize)
            && source.is_char_boundary(span.end().get() as usize)
    }

    /// Number of lines of the source: one more than it has LF.
    pub fn line_count(&self) -> usize
        ensures { result ≡ line_count self.now.source }
    {
        self.starts().len()
    }

    /// The byte at a position, which must be before the end of the source.
    pub fn byte_at(&self, pos: Pos) -> u8
        requires { pos < length self.now.source }
        ensures { result ≡ slice_index self.now.source pos }
    {
        self.source().as_bytes()[pos.get() as usize]
    }

    /// The line of a position, from 0.
    ///
    /// The position must lie in the source or at its end: `has_pos` is the test.
    pub fn find_line(&self, pos: Pos) -> usize
        requires { pos ≤ length self.now.source }
        ensures line { result ≡ (place_at self.now.source pos).line }
        ensures within { result < line_count self.now.source }
    {
        let at = pos.get();
        self.starts().partition_point(|start| start.get() <= at) - 1
    }

    /// Line and column of a position, which must be a character boundary.
    fn resolve_pos(&self, pos: Pos) -> ResolvedPos
        requires { IsCharBoundary self.now.source pos }
        ensures { result ≡ place_at self.now.source pos }
    {
        let line = self.find_line(pos);
        let begin = self.line_start(line).get() as usize;
        let at = pos.get() as usize;
        ResolvedPos {
            line,
            column: characters_between(self.source(), self.counts(), begin, at),
        }
    }

    /// Text of a span, which must lie in the source: `holds` is the test.
    pub fn source_span(&self, span: Span) -> &str
        requires { Holds self.now.source span }
        ensures { result.now ≡ text_of self.now.source span }
    {
        &self.source()[span.begin().get() as usize..span.end().get() as usize]
    }

    /// Lines and columns of a span, which must lie in the source: `holds` is the test.
    ///
    /// Each end costs a binary search over the lines, and reads fewer than 512 bytes of its line.
    pub fn resolve_span(&self, span: Span) -> ResolvedSpan
        requires { Holds self.now.source span }
        ensures { result ≡ resolved self.now.source span }
    {
        ResolvedSpan {
            begin: self.resolve_pos(span.begin()),
            end: self.resolve_pos(span.end()),
        }
    }

    /// Span of a line, from 0, with its LF. The line must be less than `line_count`.
    pub fn line_span(&self, line: usize) -> Span
        requires { line < line_count self.now.source }
        ensures span { result ≡ line_span self.now.source line }
        ensures held { Holds self.now.source result }
    {
        let count = self.line_count();
        let begin = self.line_start(line);
        let end = if line + 1 < count {
            self.line_start(line + 1)
        } else {
            self.full_span().end()
        };
        Span::new(begin, end)
    }

    /// Span of a line, from 0, with its LF; `None` where the source has no such line.
    pub fn line_span_opt(&self, line: usize) -> Option<Span>
        ensures span { SomeIff result (line < line_count self.now.source) (line_span self.now.source line) }
        ensures held { IfSome result (Holds self.now.source) }
    {
        if line < self.line_count() {
            Some(self.line_span(line))
        } else {
            None
        }
    }

    /// A span without its last byte, if that is the given ASCII byte.
    fn without_last(&self, span: Span, byte: u8) -> Span
        requires held { Holds self.now.source span }
        requires ascii { byte < 128 }
        ensures span { result ≡ without_last byte self.now.source span }
        ensures held { Holds self.now.source result }
    {
        let begin = span.begin().get();
        let end = span.end().get();
        let bytes = self.source().as_bytes();
        if begin < end && bytes[end as usize - 1] == byte {
            Span::new(Pos::new(begin), Pos::new(end - 1))
        } else {
            span
        }
    }

    /// Span of a line, from 0, without its LF or CR LF.
    ///
    /// The last line, which has no LF, loses a CR at its end too. The line must be less than
    /// `line_count`.
    pub fn line_span_trim_newline(&self, line: usize) -> Span
        requires { line < line_count self.now.source }
        ensures span { result ≡ trimmed_line_span self.now.source line }
        ensures held { Holds self.now.source result }
    {
        let span = self.without_last(self.line_span(line), b'\n');
        self.without_last(span, b'\r')
    }

    /// Text of a line, from 0, without all LF and CR at its end. The line must be less than
    /// `line_count`.
    pub fn source_line(&self, line: usize) -> &str
        requires { line < line_count self.now.source }
        ensures { result.now ≡ line_text self.now.source line }
    {
        trim_line_ends(self.source_span(self.line_span(line)))
    }

    /// Text of the line of a position, without all LF and CR at its end.
    ///
    /// The position must lie in the source or at its end: `has_pos` is the test.
    pub fn source_line_at_pos(&self, pos: Pos) -> &str
        requires { pos ≤ length self.now.source }
        ensures { result.now ≡ line_text self.now.source (place_at self.now.source pos).line }
    {
        self.source_line(self.find_line(pos))
    }
}

/// Prints the file's name, as in `CodeMap("BUILD")`.
impl fmt::Debug for CodeMap {
    ghost use Rattle.std.specs.Prelude.{codes};
    ghost use Rattle.std.specs.Fmt.{debug_str, debug_variant};

    ghost debug_output = { λ map. debug_variant (codes "CodeMap") (debug_str map.filename) };

    fn fmt<W: fmt::Write>(&self, f: &mut fmt::Formatter<W>) -> fmt::Result {
        write!(f, "CodeMap({:?})", self.filename())
    }
}

/// Compares numbers and names, not texts.
impl PartialEq for CodeMap {
    ghost use Rattle.std.specs.Prelude.{◌==◌};
    ghost use Rattle.std.specs.Ordering.{on, eq_of_both};
    ghost use Rattle.std.specs.Cmp.Lexicographic.{pointwise};
    ghost use Rattle.std.proofs.Common.{rules};
    ghost use Rattle.std.specs.Cmp.Rules.{comparing};

    ghost eq = { eq_of_both (on (λ map. map.id) ◌==◌) (on (λ map. map.filename) (pointwise ◌==◌)) };

    ghost laws = { Prim.search (comparing, rules) };

    fn eq(&self, other: &CodeMap) -> bool {
        self.id() == other.id() && self.filename() == other.filename()
    }
}

impl Eq for CodeMap {
    ghost use Rattle.std.proofs.Common.{rules};
    ghost use Rattle.std.specs.Cmp.Rules.{comparing};

    ghost laws = { Prim.search (comparing, rules) };
}

/// Hashes the number alone.
impl Hash for CodeMap {
    ghost use Rattle.std.proofs.Common.{rules};
    ghost use Rattle.std.specs.Cmp.Rules.{comparing, hashing};
    ghost use Rattle.std.specs.Hash as fed;

    ghost hash_input = { λ map. fed.u64 map.id };

    ghost respects_eq = { Prim.search (hashing, rules) };

    fn hash<H: Hasher>(&self, state: &mut H) {
        self.id().get().hash(state);
    }
}
