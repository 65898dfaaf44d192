//! Resolves spans that are spread over a source.

use starlark_syntax::codemap::{CodeMap, Pos, ResolvedPos, ResolvedSpan, Span};
use std::fmt;

/// Bytes from one span's begin to the next one's, modulo the source's length.
// So large that two spans in a row share little in the processor's caches.
const STRIDE: u64 = 2_654_435_761;

/// Bytes of a span, except for one at the end of the source.
const SPAN_LEN: u32 = 8;

/// Number of resolved spans, and a checksum of their lines and columns.
#[derive(Clone, Copy)]
pub struct PlaceTally {
    spans: u64,
    checksum: u64,
}

impl PlaceTally {
    /// No spans.
    const NONE: PlaceTally = PlaceTally {
        spans: 0,
        checksum: 0,
    };

    /// Adds one end of a span to the checksum.
    fn add_pos(&mut self, pos: ResolvedPos) {
        let place = (pos.line as u64)
            .wrapping_mul(3)
            .wrapping_add(pos.column as u64);
        self.checksum = self.checksum.rotate_left(5).wrapping_add(place);
    }

    /// Adds a span.
    fn add(&mut self, span: ResolvedSpan) {
        self.spans = self.spans.wrapping_add(1);
        self.add_pos(span.begin);
        self.add_pos(span.end);
    }
}

/// Prints the number of spans and the checksum.
impl fmt::Display for PlaceTally {
    fn fmt<W: fmt::Write>(&self, f: &mut fmt::Formatter<W>) -> fmt::Result {
        write!(f, "{} {}", self.spans, self.checksum)
    }
}

/// The span of a number in a source of `len` bytes.
fn spread_span(len: u32, number: u32) -> Span {
    let begin = (u64::from(number).wrapping_mul(STRIDE) % (u64::from(len) + 1)) as u32;
    let end = len.min(begin.saturating_add(SPAN_LEN));
    Span::new(Pos::new(begin), Pos::new(end))
}

/// Resolves `count` spans of a code map, except those with an end inside of a character.
pub fn tally_of_places(file: &CodeMap, count: u32) -> PlaceTally {
    let len = file.full_span().end().get();
    let mut tally = PlaceTally::NONE;
    for number in 0..count {
        let span = spread_span(len, number);
        if file.holds(span) {
            tally.add(file.resolve_span(span));
        }
    }
    tally
}
