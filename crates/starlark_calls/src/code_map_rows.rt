//! Lines and places of a source.

use crate::row_files::code_map;
use crate::rows::{Answer, Row, bounds, shown, unknown};
use starlark_syntax::codemap::{CodeMap, Pos, Span};
use std::alloc::Global;

/// The answer to a call with a line of the source.
fn of_line(alloc: Global, map: &CodeMap, row: &Row) -> Answer {
    let line = row.count(3) as usize;
    if line >= map.line_count() {
        return String::from_str(alloc, "no such line");
    }
    match row.text(1) {
        "line_span" => shown(alloc, &bounds(map.line_span(line))),
        "line_span_trim_newline" => shown(alloc, &bounds(map.line_span_trim_newline(line))),
        "source_line" => shown(alloc, &map.source_line(line)),
        _ => unknown(alloc, row),
    }
}

/// The answer to a call with a position of the source.
fn of_pos(alloc: Global, map: &CodeMap, row: &Row) -> Answer {
    let pos = Pos::new(row.count(3));
    if !map.has_pos(pos) {
        return String::from_str(alloc, "no such position");
    }
    match row.text(1) {
        "find_line" => shown(alloc, &map.find_line(pos)),
        "source_line_at_pos" => shown(alloc, &map.source_line_at_pos(pos)),
        "byte_at" if pos < map.full_span().end() => shown(alloc, &map.byte_at(pos)),
        _ => unknown(alloc, row),
    }
}

/// The answer to a call with a span of the source.
fn of_span(alloc: Global, map: &CodeMap, row: &Row) -> Answer {
    let (begin, end) = (row.count(3), row.count(4));
    if begin > end {
        return String::from_str(alloc, "no span");
    }
    let span = Span::new(Pos::new(begin), Pos::new(end));
    match row.text(1) {
        "holds" => shown(alloc, &map.holds(span)),
        "file_span" => map.file_span(span)?.to_string(alloc),
        "source_span" if map.holds(span) => shown(alloc, &map.source_span(span)),
        "resolve_span" if map.holds(span) => map.resolve_span(span).to_string(alloc),
        _ => unknown(alloc, row),
    }
}

/// The answer to a call of the code map of a source, which has the name `a`.
pub fn answer(alloc: Global, row: &Row) -> Answer {
    let map = code_map(alloc, "a", row.text(2))?;
    match row.text(1) {
        "full_span" => shown(alloc, &bounds(map.full_span())),
        "line_count" => shown(alloc, &map.line_count()),
        "line_span_opt" => shown(alloc, &map.line_span_opt(row.count(3) as usize).map(bounds)),
        "has_pos" => shown(alloc, &map.has_pos(Pos::new(row.count(3)))),
        "find_line" | "source_line_at_pos" | "byte_at" => of_pos(alloc, &map, row),
        "holds" | "file_span" | "source_span" | "resolve_span" => of_span(alloc, &map, row),
        _ => of_line(alloc, &map, row),
    }
}
