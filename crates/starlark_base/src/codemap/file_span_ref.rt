//! Spans with references to their code maps.

ghost use Rattle.std.specs.Prelude.{◌≡◌, IfOk};
ghost use Rattle.starlark_base.specs.Lines.{text_of};
ghost use Rattle.starlark_base.specs.Places.{resolved};
ghost use Rattle.starlark_base.specs.Sources.{Holds};

use crate::codemap::{CodeMap, FileSpan, ResolvedSpan, Span};
use std::alloc::AllocError;
use std::fmt;

/// A span, and a reference to its code map.
#[derive(Clone, Copy, Debug, PartialEq, Eq)]
pub struct FileSpanRef<'a> {
    /// The code map of the span.
    pub file: &'a CodeMap,
    /// The span, in bytes of the code map's source. It may be out of range: `holds` tests that.
    pub span: Span,
}

impl<'a> FileSpanRef<'a> {
    /// The name of the code map's file.
    pub fn filename(&self) -> &str
        ensures { result.now ≡ self.now.file.now.filename }
    {
        self.file.filename()
    }

    /// The span with a code map of its own, which shares the text. `AllocError` where memory runs
    /// out.
    pub fn to_file_span(self) -> Result<FileSpan, AllocError>
        ensures file { IfOk result (λ it. it.file ≡ self.entry.file.now) }
        ensures span { IfOk result (λ it. it.span ≡ self.entry.span) }
    {
        self.file.file_span(self.span)
    }

    /// Lines and columns of the span, which must lie in the source: `holds` of the code map is the
    /// test.
    pub fn resolve_span(&self) -> ResolvedSpan
        requires { Holds self.now.file.now.source self.now.span }
        ensures { result ≡ resolved self.now.file.now.source self.now.span }
    {
        self.file.resolve_span(self.span)
    }

    /// Text of the span, which must lie in the source: `holds` of the code map is the test.
    pub fn source_span(self) -> &'a str
        requires { Holds self.file.now.source self.span }
        ensures { result.now ≡ text_of self.entry.file.now.source self.entry.span }
    {
        self.file.source_span(self.span)
    }
}

/// Prints the file's name, and the span's lines and columns from 1, as in `BUILD:1:3-5`.
///
/// Where the code map doesn't hold the span, it prints bytes, as in `BUILD:@2-4`.
#[tactic(auto, unfolding(crate::specs::Sources::file_span_text))]
impl fmt::Display for FileSpanRef<'_> {
    ghost use Rattle.std.specs.Prelude.{Some};
    ghost use Rattle.starlark_base.specs.Sources.{file_span_text};

    ghost output = { λ it. Some (file_span_text it.file.now it.span) };

    fn fmt<W: fmt::Write>(&self, f: &mut fmt::Formatter<W>) -> fmt::Result {
        let name = self.filename();
        if self.file.holds(self.span) {
            return write!(f, "{name}:{}", self.resolve_span());
        }
        let begin = self.span.begin().get();
        let end = self.span.end().get();
        write!(f, "{name}:@{begin}-{end}")
    }
}
