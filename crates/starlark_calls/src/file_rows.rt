//! Files that are shared, compared and collected, and what refuses them.

use crate::rows::{Answer, Row, both, given, shown, unknown};
use starlark_syntax::codemap::{
    CodeMapId, CodeMaps, FileSpan, OrMemory, Pos, ResolvedFileSpan, SourceTooLong, Span, Spanned,
    is_source_len,
};
use std::alloc::{AllocError, Global};

/// The span of a whole file, whose number and name are two fields and whose source is `bc`.
fn file_span(alloc: Global, row: &Row, index: usize) -> Result<FileSpan, AllocError> {
    let id = CodeMapId::new(u64::from(row.count(index)));
    let name = String::from_str(alloc, row.text(index.saturating_add(1)))?;
    let source = String::from_str(alloc, "bc")?;
    given(FileSpan::new(alloc, id, name, source))
}

/// Adds the code map of a file of the row, which is shared first.
fn add_file(alloc: Global, maps: &mut CodeMaps, row: &Row, index: usize) -> Result<(), AllocError> {
    let span = file_span(alloc, row, index)?;
    let map = span.file.dupe()?;
    maps.add(&map)?;
    Ok(())
}

/// The code maps of two files of the row, which are shared first.
fn two_code_maps(alloc: Global, row: &Row, index: usize) -> Result<CodeMaps, AllocError> {
    let mut maps = CodeMaps::new(alloc);
    add_file(alloc, &mut maps, row, index)?;
    add_file(alloc, &mut maps, row, index.saturating_add(2))?;
    Ok(maps)
}

/// The code maps of four files of the row, of which the last two are added at once.
fn code_maps(alloc: Global, row: &Row) -> Result<CodeMaps, AllocError> {
    let mut maps = two_code_maps(alloc, row, 3)?;
    maps.add_all(&two_code_maps(alloc, row, 7)?)?;
    Ok(maps)
}

/// The name and the source of the code map of a number, and the code map as it is shown.
fn found(alloc: Global, maps: &CodeMaps, id: u64) -> Answer {
    match maps.get(CodeMapId::new(id)) {
        Some(map) => format!(in alloc; "{} {} {map:?}", map.filename(), map.source()),
        None => String::from_str(alloc, "no code map"),
    }
}

/// Whether two file spans are equal, and how they are ordered.
fn compare(alloc: Global, row: &Row) -> Answer {
    let (first, second) = (file_span(alloc, row, 2)?, file_span(alloc, row, 4)?);
    shown(alloc, &(first == second, first.cmp(&second)))
}

/// A file span that was shared twice.
fn shared(alloc: Global, row: &Row) -> Result<FileSpan, AllocError> {
    let span = file_span(alloc, row, 2)?.dupe()?;
    span.as_ref().to_file_span()
}

/// A file span that was shared, as it prints in both its forms.
fn shown_shared(alloc: Global, row: &Row) -> Answer {
    let span = shared(alloc, row)?;
    both(alloc, &span, &span.as_ref())
}

/// Copies of a place, and of the line that it begins in.
fn copied_place(alloc: Global, place: &ResolvedFileSpan) -> Answer {
    let line = place.begin_file_line(alloc)?.clone(alloc)?;
    both(alloc, &place.clone(alloc)?, &line)
}

/// The lines and columns of a file span, and its first line.
fn resolved(alloc: Global, row: &Row) -> Answer {
    let span = file_span(alloc, row, 2)?;
    if !span.file.holds(span.span) {
        return String::from_str(alloc, "not in its file");
    }
    copied_place(alloc, &span.resolve(alloc)?)
}

/// What is printed of a refusal, and of an allocation failure.
fn refusals(alloc: Global) -> Answer {
    let (refusal, memory) = (
        OrMemory::Error(SourceTooLong),
        OrMemory::<SourceTooLong>::Memory,
    );
    both(alloc, &refusal, &memory)
}

/// A number, read and changed through the span that it has.
fn spanned(alloc: Global, row: &Row) -> Answer {
    let span = Span::new(Pos::new(1), Pos::new(2));
    let node = row.count(2);
    let mut spanned = Spanned { node, span };
    *spanned = spanned.as_ref().map(|number| number / 2).node;
    shown(alloc, &*spanned)
}

/// Sums and differences of a position.
fn positions(alloc: Global) -> Answer {
    let mut pos = Pos::new(3) + 4;
    pos += 1;
    shown(alloc, &(pos - 2).get())
}

/// Whether a source text may have the length that is the sum of two fields.
fn sum_is_source_len(alloc: Global, row: &Row) -> Answer {
    let len = row.count(2) as usize + row.count(3) as usize;
    shown(alloc, &is_source_len(len))
}

/// The answer to a call of files, or of what stands in them.
pub fn answer(alloc: Global, row: &Row) -> Answer {
    match row.text(1) {
        "code_maps" => found(alloc, &code_maps(alloc, row)?, u64::from(row.count(2))),
        "compare" => compare(alloc, row),
        "shared" => shown_shared(alloc, row),
        "resolved" => resolved(alloc, row),
        "refusals" => refusals(alloc),
        "spanned" => spanned(alloc, row),
        "positions" => positions(alloc),
        "is_source_len" => sum_is_source_len(alloc, row),
        _ => unknown(alloc, row),
    }
}
