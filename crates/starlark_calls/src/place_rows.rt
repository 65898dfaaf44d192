//! Spans and places without a source.

use crate::rows::{Answer, Row, bounds, shown, unknown};
use starlark_syntax::codemap::{Pos, ResolvedFileSpan, ResolvedPos, ResolvedSpan, Span};
use std::alloc::Global;

/// The span whose begin and end are two fields.
fn span(row: &Row, index: usize) -> Span {
    let begin = row.count(index);
    let end = row.count(index.saturating_add(1));
    Span::new(Pos::new(begin), Pos::new(end.max(begin)))
}

/// The place whose line and column are two fields.
fn place(row: &Row, index: usize) -> ResolvedPos {
    ResolvedPos {
        line: row.count(index) as usize,
        column: row.count(index.saturating_add(1)) as usize,
    }
}

/// The answer to a call with two spans.
fn of_spans(alloc: Global, row: &Row) -> Answer {
    let (first, second) = (span(row, 2), span(row, 4));
    match row.text(1) {
        "intersects" => shown(alloc, &first.intersects(second)),
        "merge" => shown(alloc, &bounds(first.merge(second))),
        "merge_all" => shown(
            alloc,
            &bounds(Span::merge_all([first, second].iter().copied())),
        ),
        "merge_none" => shown(alloc, &bounds(Span::merge_all([].iter().copied()))),
        "end_span" => shown(alloc, &bounds(first.end_span())),
        "contains" => shown(alloc, &first.contains(Pos::new(row.count(4)))),
        _ => unknown(alloc, row),
    }
}

/// The answer to a call with a span of lines and columns, or with two spans.
pub fn answer(alloc: Global, row: &Row) -> Answer {
    let (begin, end) = (place(row, 2), place(row, 4));
    let span = ResolvedSpan { begin, end };
    match row.text(1) {
        "resolved_pos" => begin.to_string(alloc),
        "resolved_span" => span.to_string(alloc),
        "resolved_span_contains" => shown(alloc, &span.contains(place(row, 6))),
        "begin_file_line" => {
            let file = String::from_str(alloc, row.text(6))?;
            let line = ResolvedFileSpan { file, span }.begin_file_line(alloc)?;
            line.to_string(alloc)
        }
        "resolved_file_span" => {
            let file = String::from_str(alloc, row.text(6))?;
            ResolvedFileSpan { file, span }.to_string(alloc)
        }
        _ => of_spans(alloc, row),
    }
}
