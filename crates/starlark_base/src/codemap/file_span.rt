//! Spans with their code maps.

ghost use Rattle.std.specs.Prelude.{◌≡◌, ◌≤◌, ◌^◌, ◌↔◌, IfOk, length, string_bytes};
ghost use Rattle.starlark_base.specs.Lines.{text_of};
ghost use Rattle.starlark_base.specs.Places.{resolved};
ghost use Rattle.starlark_base.specs.Refusals.{IsRefused};
ghost use Rattle.starlark_base.specs.Sources.{Holds};

use crate::codemap::{
    CodeMap, CodeMapId, FileSpanRef, OrMemory, ResolvedFileSpan, ResolvedSpan, SourceTooLong, Span,
};
use std::alloc::{AllocError, Global};
use std::cmp::Ordering;
use std::fmt;

/// A span, and its code map.
///
/// Two are equal if their spans are, and the numbers and names of their code maps. They are ordered
/// by name, begin, end, and then number.
#[derive(Debug, Drop, PartialEq, Eq, Hash)]
pub struct FileSpan {
    /// The code map of the span.
    pub file: CodeMap,
    /// The span, in bytes of the code map's source. It may be out of range: `holds` tests that.
    pub span: Span,
}

impl FileSpan {
    /// The span of the whole source of a new code map, of the given number and file name.
    ///
    /// Fails where the source has more than 4294967295 bytes, and else where memory runs out.
    /// Either error drops the name and the source.
    pub fn new(
        alloc: Global,
        id: CodeMapId,
        filename: String,
        source: String,
    ) -> Result<FileSpan, OrMemory<SourceTooLong>>
        ensures file { IfOk result (λ it. it.file ≡ record { id = id; filename = string_bytes filename; source = string_bytes source }) }
        ensures span { IfOk result (λ it. it.span ≡ record { begin = 0; end = length (string_bytes source) }) }
        ensures too_long { IsRefused result ↔ (2 ^ 32 ≤ length (string_bytes source)) }
    {
        let file = CodeMap::new(alloc, id, filename, source)?;
        let span = file.full_span();
        Ok(FileSpan { file, span })
    }

    /// A copy of the span, whose code map shares the text. `AllocError` where memory runs out.
    pub fn dupe(&self) -> Result<FileSpan, AllocError>
        ensures { IfOk result (λ copy. copy ≡ self.now) }
    {
        self.file.file_span(self.span)
    }

    /// The name of the code map's file.
    pub fn filename(&self) -> &str
        ensures { result.now ≡ self.now.file.filename }
    {
        self.file.filename()
    }

    /// Text of the span, which must lie in the source: `holds` of the code map is the test.
    pub fn source_span(&self) -> &str
        requires { Holds self.now.file.source self.now.span }
        ensures { result.now ≡ text_of self.now.file.source self.now.span }
    {
        self.file.source_span(self.span)
    }

    /// The span with a reference to its code map.
    pub fn as_ref(&self) -> FileSpanRef<'_>
        ensures file { result.file.now ≡ self.now.file }
        ensures span { result.span ≡ self.now.span }
    {
        FileSpanRef {
            file: &self.file,
            span: self.span,
        }
    }

    /// Lines and columns of the span, which must lie in the source: `holds` of the code map is the
    /// test.
    pub fn resolve_span(&self) -> ResolvedSpan
        requires { Holds self.now.file.source self.now.span }
        ensures { result ≡ resolved self.now.file.source self.now.span }
    {
        self.file.resolve_span(self.span)
    }

    /// The file's name, and lines and columns of the span.
    ///
    /// The span must lie in the source: `holds` of the code map is the test. `AllocError` where
    /// memory for the name runs out.
    pub fn resolve(&self, alloc: Global) -> Result<ResolvedFileSpan, AllocError>
        requires { Holds self.now.file.source self.now.span }
        ensures file { IfOk result (λ it. string_bytes it.file ≡ self.now.file.filename) }
        ensures span { IfOk result (λ it. it.span ≡ resolved self.now.file.source self.now.span) }
    {
        Ok(ResolvedFileSpan {
            file: String::from_str(alloc, self.filename())?,
            span: self.resolve_span(),
        })
    }
}

/// Prints the file's name, and the span's lines and columns from 1, as in `BUILD:1:3-5`.
///
/// Where the code map doesn't hold the span, it prints bytes, as in `BUILD:@2-4`.
impl fmt::Display for FileSpan {
    ghost use Rattle.std.specs.Prelude.{Some};
    ghost use Rattle.starlark_base.specs.Sources.{file_span_text};

    ghost output = { λ it. Some (file_span_text it.file it.span) };

    fn fmt<W: fmt::Write>(&self, f: &mut fmt::Formatter<W>) -> fmt::Result {
        write!(f, "{}", self.as_ref())
    }
}

/// Orders by the file's name, then the span's begin and end, then the code map's number.
impl Ord for FileSpan {
    ghost use Rattle.std.specs.Ordering.{on, then_cmp, nat_cmp};
    ghost use Rattle.std.specs.Cmp.Lexicographic.{slice_cmp};
    ghost use Rattle.std.proofs.Common.{rules};
    ghost use Rattle.std.specs.Cmp.Rules.{comparing};

    ghost cmp = { then_cmp (on (λ it. it.file.filename) (slice_cmp nat_cmp))
        (then_cmp (on (λ it. it.span.begin) nat_cmp) (then_cmp (on (λ it. it.span.end) nat_cmp) (on (λ it. it.file.id) nat_cmp))) };

    ghost total = { Prim.search (comparing, rules) };

    ghost matches_partial_cmp = { Prim.search (comparing, rules) };

    ghost matches_eq = { Prim.search (comparing, rules) };

    fn cmp(&self, other: &FileSpan) -> Ordering {
        self.filename()
            .cmp(other.filename())
            .then(self.span.begin().get().cmp(&other.span.begin().get()))
            .then(self.span.end().get().cmp(&other.span.end().get()))
            .then(self.file.id().get().cmp(&other.file.id().get()))
    }
}

impl PartialOrd for FileSpan {
    ghost use Rattle.std.specs.Ordering.{on, then_cmp, nat_cmp, as_partial_cmp};
    ghost use Rattle.std.specs.Cmp.Lexicographic.{slice_cmp};
    ghost use Rattle.std.proofs.Common.{rules};
    ghost use Rattle.std.specs.Cmp.{partial_order_from_own_ties};
    ghost use Rattle.std.specs.Cmp.Rules.{comparing};

    ghost partial_cmp = { as_partial_cmp (then_cmp (on (λ it. it.file.filename) (slice_cmp nat_cmp))
        (then_cmp (on (λ it. it.span.begin) nat_cmp) (then_cmp (on (λ it. it.span.end) nat_cmp) (on (λ it. it.file.id) nat_cmp)))) };

    ghost laws = { partial_order_from_own_ties (Prim.search (comparing, rules) depth 9) (Prim.search (comparing, rules) depth 9) };

    fn partial_cmp(&self, other: &FileSpan) -> Option<Ordering> {
        Some(self.cmp(other))
    }
}
