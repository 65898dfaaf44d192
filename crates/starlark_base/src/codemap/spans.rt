//! Spans of source texts, in bytes.

ghost use Rattle.std.specs.Prelude.{◌≡◌, ◌≤◌, ◌↔◌, IsTrue, List};
ghost use Rattle.std.specs.Iterator.{Drains, IsFinite};
ghost use Rattle.starlark_base.specs.Spans.{ByteSpan};
ghost use Rattle.starlark_base.specs.SpanPairs.{merged, merged_all, Meets};

use crate::codemap::Pos;
use std::marker::Model;

/// A span of a source text: from one byte position up to another.
///
/// It doesn't end before it begins, and may be empty. The default is 0..0. In a contract it is the
/// pair of its positions.
#[derive(Clone, Copy, Debug, Default, PartialEq, Eq, PartialOrd, Ord, Hash)]
pub struct Span {
    begin: Pos,
    end: Pos,
}

impl Model for Span {
    ghost use Rattle.std.specs.Prelude.{◌≤◌};
    ghost use Rattle.starlark_base.specs.Spans.{ByteSpan};

    ghost Value = { ByteSpan };

    ghost view = { λ s. record { begin = s.begin; end = s.end } };

    ghost invariant = { λ s. s.begin ≤ s.end };

    ghost inverse = { λ s. record { begin = s.begin; end = s.end } };
}

impl Span {
    /// A span from one position to another, which must not be less.
    pub fn new(begin: Pos, end: Pos) -> Self
        requires { begin ≤ end }
        ensures { result ≡ record { begin = begin; end = end } }
    {
        Span { begin, end }
    }

    /// The position of the first byte.
    pub fn begin(self) -> Pos
        ensures { result ≡ self.begin }
    {
        self.begin
    }

    /// The position after the last byte.
    pub fn end(self) -> Pos
        ensures { result ≡ self.end }
    {
        self.end
    }

    /// The least span that holds both spans.
    pub fn merge(self, other: Span) -> Span
        ensures { result ≡ merged self other }
    {
        Span {
            begin: self.begin.min(other.begin),
            end: self.end.max(other.end),
        }
    }

    /// The least span that holds all spans of an iterator, which must end; 0..0 if it has none.
    pub fn merge_all<I: Iterator<Item = Span> + Drop>(mut spans: I) -> Span
        requires can { I.can_next spans }
        requires ends { IsFinite (I.remaining spans) }
        ensures { (given : List ByteSpan) × Drains I.next_gives spans given × (result ≡ merged_all given) }
    {
        let Some(mut merged) = spans.next() else {
            return Span::default();
        };
        for span in spans {
            merged = merged.merge(span);
        }
        merged
    }

    /// The empty span at the end of the span.
    pub fn end_span(self) -> Span
        ensures { result ≡ record { begin = self.end; end = self.end } }
    {
        Span {
            begin: self.end,
            end: self.end,
        }
    }

    /// Whether a position lies in the span. Its begin and its end do.
    pub fn contains(self, pos: Pos) -> bool
        ensures { IsTrue result ↔ ((self.begin ≤ pos) × (pos ≤ self.end)) }
    {
        self.begin <= pos && pos <= self.end
    }

    /// Whether two spans have a position in common. Spans that only touch do.
    pub fn intersects(self, span: Span) -> bool
        ensures { IsTrue result ↔ Meets self span }
    {
        self.contains(span.begin) || self.contains(span.end) || span.contains(self.begin)
    }
}
