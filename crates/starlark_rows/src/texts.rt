//! Runs the lexer over stored texts, so that its whole output is compared with a stored one.
//!
//! Module `stored` has the format of the texts. Records are numbered from 1. For a text, edited or
//! not, a line `text NUMBER: STATUS` is printed, and then what `starlark_lex` prints for it. For the
//! fronts of a text, and for a repeated text, a line `text NUMBER: COUNTS` is printed. Where a check
//! finds something wrong one more line is printed, which for fronts is of the first. Edited texts
//! aren't checked.

mod checks;
mod stored;
mod text_tally;

use crate::stored_parts::invalid_data;
use crate::texts::checks::first_wrong;
use crate::texts::stored::{Record, Task, first_record};
use crate::texts::text_tally::{Tally, of_fronts, of_repeated};
use starlark_run::{Edit, RunFault, RunStatus, Watched, run, run_edits};
use std::alloc::{AllocError, Global};
use std::io;
use std::io::Write;

/// Greatest output for an edited text, in bytes, so that the writer never allocates.
const MOST_PRINTED: usize = 65_536;

/// Prints the status of a run over a text.
fn print_ending<W: Write>(
    out: &mut W,
    number: u64,
    outcome: &Result<RunStatus, RunFault>,
) -> io::Result<()> {
    match outcome {
        Ok(RunStatus::Clean) => write!(out, "text {number}: clean\n"),
        Ok(RunStatus::Fault) => write!(out, "text {number}: fault\n"),
        Err(fault) => write!(out, "text {number}: {fault}\n"),
    }
}

/// Prints the status of a run over a text, and its output.
fn print_outcome<W: Write>(
    out: &mut W,
    number: u64,
    outcome: &Result<RunStatus, RunFault>,
    printed: &[u8],
) -> io::Result<()> {
    print_ending(out, number, outcome)?;
    out.write_all(printed)
}

/// What a check finds wrong with a text and its output. Bytes that aren't UTF-8 aren't checked.
fn wrong_with(
    alloc: Global,
    text: &[u8],
    printed: &[u8],
) -> Result<Option<&'static str>, AllocError> {
    match str::from_utf8(text) {
        Ok(text) => first_wrong(alloc, text, printed),
        Err(_) => Ok(None),
    }
}

/// Runs the lexer over a text, and prints the status, the output, and what is wrong with it.
fn print_run<W: Write>(alloc: Global, out: &mut W, number: u64, text: &[u8]) -> io::Result<()> {
    let mut reader = Watched::new(text);
    let mut writer = Watched::new(Vec::new(alloc));
    let outcome = run(alloc, "<stdin>", &mut reader, &mut writer);
    let printed = writer.device().as_slice();
    print_outcome(out, number, &outcome, printed)?;
    match wrong_with(alloc, text, printed)? {
        Some(wrong) => write!(out, "wrong: {wrong}\n"),
        None => Ok(()),
    }
}

/// Runs the lexer over a text after its edits, and prints the status and the output.
fn print_edited<W: Write>(
    alloc: Global,
    out: &mut W,
    number: u64,
    text: &[u8],
    edits: &[Edit<'_>],
) -> io::Result<()> {
    let mut reader = Watched::new(text);
    let mut writer = Watched::new(Vec::with_capacity(alloc, MOST_PRINTED)?);
    let outcome = run_edits(alloc, "<stdin>", &mut reader, edits, &mut writer);
    let outcome = outcome.map(|edited| edited.status);
    print_outcome(out, number, &outcome, writer.device().as_slice())
}

/// Prints what is wrong with the first text of many in which a check finds something wrong, if any.
fn print_wrong<W: Write>(out: &mut W, tally: &Tally) -> io::Result<()> {
    match tally.wrong() {
        Some((len, wrong)) => write!(out, "wrong, {len} bytes: {wrong}\n"),
        None => Ok(()),
    }
}

/// Prints the counts of all fronts of a text.
fn print_fronts<W: Write>(out: &mut W, number: u64, fronts: &Tally) -> io::Result<()> {
    write!(out, "text {number}: {fronts}, sum {}\n", fronts.sum())?;
    print_wrong(out, fronts)
}

/// Prints the counts of a repeated text.
fn print_repeated<W: Write>(out: &mut W, number: u64, repeated: &Tally) -> io::Result<()> {
    write!(out, "text {number}: {repeated}\n")?;
    print_wrong(out, repeated)
}

/// The text of a record that is an edit.
fn edit_text(text: &[u8]) -> io::Result<&str> {
    str::from_utf8(text).map_err(|_| invalid_data())
}

/// Does the task of a record, and prints its result. An edit is kept for the next edited text.
fn print_record<'b, W: Write>(
    alloc: Global,
    out: &mut W,
    number: u64,
    record: Record<'b>,
    edits: &mut Vec<Edit<'b>>,
) -> io::Result<()> {
    let text = record.text;
    match record.task {
        Task::Lines => print_run(alloc, out, number, text),
        Task::Fronts => print_fronts(out, number, &of_fronts(alloc, text)?),
        Task::Repeated(times) => print_repeated(out, number, &of_repeated(alloc, text, times)?),
        Task::Edit { from, to } => {
            let text = edit_text(text)?;
            Ok(edits.push(Edit { from, to, text })?)
        }
        Task::Edited => {
            print_edited(alloc, out, number, text, edits.as_slice())?;
            edits.clear();
            Ok(())
        }
    }
}

/// Does the tasks of all records, and prints their results.
pub fn print_all<W: Write>(alloc: Global, out: &mut W, stored: &[u8]) -> io::Result<()> {
    let mut edits = Vec::new(alloc);
    let mut rest = stored;
    for number in 1..u64::MAX {
        if rest.is_empty() {
            break;
        }
        let (record, after) = first_record(rest).ok_or_else(invalid_data)?;
        print_record(alloc, out, number, record, &mut edits)?;
        rest = after;
    }
    Ok(())
}
