//! Lines and columns, and their printed forms.

ghost use Rattle.std.specs.Prelude.{◌≡◌, ◌<◌, ◌≤◌, ◌⊎◌, ◌↔◌, IsTrue, IfOk, string_bytes};

use std::alloc::{AllocError, Global};
use std::fmt;

/// A line and a column of a source text, both from 0. Columns count characters.
#[derive(Clone, Copy, Debug, Default, PartialEq, Eq, PartialOrd, Ord, Hash)]
pub struct ResolvedPos {
    /// The line, from 0.
    pub line: usize,
    /// The column, from 0: how many characters of the line are before the position.
    pub column: usize,
}

/// Prints `line:column`, both from 1.
impl fmt::Display for ResolvedPos {
    ghost use Rattle.std.specs.Prelude.{Some};
    ghost use Rattle.starlark_base.specs.Places.{place_text};

    ghost output = { λ pos. Some (place_text pos) };

    fn fmt<W: fmt::Write>(&self, f: &mut fmt::Formatter<W>) -> fmt::Result {
        let line = self.line as u128 + 1;
        let column = self.column as u128 + 1;
        write!(f, "{line}:{column}")
    }
}

/// The lines and columns of a span's begin and end.
#[derive(Clone, Copy, Debug, Default, PartialEq, Eq, PartialOrd, Ord, Hash)]
pub struct ResolvedSpan {
    /// The position at which the span begins.
    pub begin: ResolvedPos,
    /// The position at which the span ends: just after its last character.
    pub end: ResolvedPos,
}

impl ResolvedSpan {
    /// Whether a position lies in the span. Its begin and its end do.
    pub fn contains(&self, pos: ResolvedPos) -> bool
        ensures { IsTrue result
            ↔ (((self.now.begin.line < pos.line) ⊎ ((self.now.begin.line ≡ pos.line) × (self.now.begin.column ≤ pos.column)))
            × ((pos.line < self.now.end.line) ⊎ ((pos.line ≡ self.now.end.line) × (pos.column ≤ self.now.end.column)))) }
    {
        let not_before = self.begin.line < pos.line
            || (self.begin.line == pos.line && self.begin.column <= pos.column);
        let not_after = pos.line < self.end.line
            || (pos.line == self.end.line && pos.column <= self.end.column);
        not_before && not_after
    }
}

/// Prints lines and columns from 1: `1:3-2:4`, `1:3-5` within a line, `1:3` where the span is
/// empty.
#[tactic(auto, unfolding(crate::specs::Places::span_text))]
impl fmt::Display for ResolvedSpan {
    ghost use Rattle.std.specs.Prelude.{Some};
    ghost use Rattle.starlark_base.specs.Places.{span_text};

    ghost output = { λ span. Some (span_text span.begin span.end) };

    fn fmt<W: fmt::Write>(&self, f: &mut fmt::Formatter<W>) -> fmt::Result {
        if self.begin.line != self.end.line {
            return write!(f, "{}-{}", self.begin, self.end);
        }
        if self.begin.column != self.end.column {
            let column = self.end.column as u128 + 1;
            return write!(f, "{}-{column}", self.begin);
        }
        write!(f, "{}", self.begin)
    }
}

/// A file's name, and a line from 0.
#[derive(Debug, Drop, PartialEq, Eq, Hash)]
pub struct ResolvedFileLine {
    /// The file's name.
    pub file: String,
    /// The line, from 0.
    pub line: usize,
}

impl ResolvedFileLine {
    /// Copies the name and the line. `AllocError` where memory for the name runs out.
    pub fn clone(&self, alloc: Global) -> Result<Self, AllocError>
        ensures file { IfOk result (λ copy. string_bytes copy.file ≡ string_bytes self.now.file) }
        ensures line { IfOk result (λ copy. copy.line ≡ self.now.line) }
    {
        Ok(ResolvedFileLine {
            file: String::from_str(alloc, self.file.as_str())?,
            line: self.line,
        })
    }
}

/// Prints `name:line`, the line from 1.
impl fmt::Display for ResolvedFileLine {
    ghost use Rattle.std.specs.Prelude.{Some, ◌+◌, ◌++◌, codes, string_bytes};
    ghost use Rattle.std.specs.Fmt.{decimal};

    ghost output = { λ line. Some (string_bytes line.file ++ codes ":" ++ decimal (line.line + 1)) };

    fn fmt<W: fmt::Write>(&self, f: &mut fmt::Formatter<W>) -> fmt::Result {
        let line = self.line as u128 + 1;
        write!(f, "{}:{line}", self.file)
    }
}

/// A file's name, and the lines and columns of a span.
#[derive(Debug, Drop, PartialEq, Eq, PartialOrd, Ord, Hash)]
pub struct ResolvedFileSpan {
    /// The file's name.
    pub file: String,
    /// The lines and columns of the span.
    pub span: ResolvedSpan,
}

impl ResolvedFileSpan {
    /// Copies the name and the span. `AllocError` where memory for the name runs out.
    pub fn clone(&self, alloc: Global) -> Result<Self, AllocError>
        ensures file { IfOk result (λ copy. string_bytes copy.file ≡ string_bytes self.now.file) }
        ensures span { IfOk result (λ copy. copy.span ≡ self.now.span) }
    {
        Ok(ResolvedFileSpan {
            file: String::from_str(alloc, self.file.as_str())?,
            span: self.span,
        })
    }

    /// The file's name, and the line at which the span begins.
    ///
    /// `AllocError` where memory for the name runs out.
    pub fn begin_file_line(&self, alloc: Global) -> Result<ResolvedFileLine, AllocError>
        ensures file { IfOk result (λ line. string_bytes line.file ≡ string_bytes self.now.file) }
        ensures line { IfOk result (λ line. line.line ≡ self.now.span.begin.line) }
    {
        Ok(ResolvedFileLine {
            file: String::from_str(alloc, self.file.as_str())?,
            line: self.span.begin.line,
        })
    }
}

/// Prints `name:` and the lines and columns, from 1, as in `BUILD:1:3-5`.
impl fmt::Display for ResolvedFileSpan {
    ghost use Rattle.std.specs.Prelude.{Some, ◌++◌, codes, string_bytes};
    ghost use Rattle.starlark_base.specs.Places.{span_text};

    ghost output = { λ s. Some (string_bytes s.file ++ codes ":" ++ span_text s.span.begin s.span.end) };

    fn fmt<W: fmt::Write>(&self, f: &mut fmt::Formatter<W>) -> fmt::Result {
        write!(f, "{}:{}", self.file, self.span)
    }
}
