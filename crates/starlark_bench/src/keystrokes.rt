//! Times keystrokes in the middle of a document.

use crate::tally::BenchFault;
use starlark_document::{Change, Document, EditError};
use std::time::Instant;

/// The characters that are typed, in turn.
const TYPED: [&str; 10] = ["a", "_", "x", " ", "=", "1", ",", "s", "e", "."];

impl From<EditError> for BenchFault {
    fn from(error: EditError) -> BenchFault {
        match error {
            EditError::Memory => BenchFault::Memory,
            EditError::BadRange | EditError::TooLong => BenchFault::TooLong,
        }
    }
}

/// The next of a list of numbers that look random.
fn next_number(number: u64) -> u64 {
    number
        .wrapping_mul(6364136223846793005)
        .wrapping_add(1442695040888963407)
}

/// An offset in the middle half of a document, at a character boundary, for a number that looks
/// random; 0 if there is none.
fn offset_in(document: &Document, number: u64) -> usize {
    let quarter = document.len() / 4;
    let spread = quarter.saturating_mul(2).max(1);
    let at = quarter.saturating_add((number >> 33) as usize % spread);
    if document.is_char_boundary(at) { at } else { 0 }
}

/// Replaces a range of a document, and adds the nanoseconds to a list.
fn timed_edit(
    rt: &HostRuntime,
    document: &mut Document,
    (from, to): (usize, usize),
    text: &str,
    times: &mut Vec<u128>,
) -> Result<Change, BenchFault> {
    let start = Instant::now(rt)?;
    let change = document.edit(from, to, text)?;
    let elapsed = start.elapsed(rt)?.as_nanos();
    times.push(elapsed).map_err(|_| BenchFault::Memory)?;
    Ok(change)
}

/// The time that `part` of 100 keystrokes don't exceed.
fn percentile(times: &[u128], part: usize) -> u128 {
    let at = times.len().saturating_mul(part) / 100;
    times.get(at).copied().unwrap_or(0)
}

/// Types `count` characters into a document, each at another place, and deletes each again. Returns
/// the bytes that typing lexed.
fn type_all(
    rt: &HostRuntime,
    document: &mut Document,
    count: u32,
    times: &mut Vec<u128>,
) -> Result<usize, BenchFault> {
    let mut lexed: usize = 0;
    let mut number = 1;
    for typed in TYPED.iter().cycle().take(count as usize) {
        number = next_number(number);
        let at = offset_in(document, number);
        let change = timed_edit(rt, document, (at, at), typed, times)?;
        lexed = lexed.saturating_add(change.lexed);
        timed_edit(rt, document, (at, at.saturating_add(1)), "", times)?;
    }
    Ok(lexed)
}

/// Makes a document of a text. Returns the document and the nanoseconds.
fn timed_document(rt: &HostRuntime, text: &str) -> Result<(Document, u128), BenchFault> {
    let start = Instant::now(rt)?;
    let document = Document::new(rt.alloc(), text)?;
    let elapsed = start.elapsed(rt)?;
    Ok((document, elapsed.as_nanos()))
}

/// Types `count` characters into a document that took `made` nanoseconds to make, and deletes each
/// again. Prints the line.
fn print_typed(
    rt: &HostRuntime,
    document: &mut Document,
    made: u128,
    count: u32,
) -> Result<(), BenchFault> {
    let mut times = Vec::new(rt.alloc());
    let lexed = type_all(rt, document, count, &mut times)?;
    times.sort_unstable();
    let (median, most) = (percentile(&times, 50), percentile(&times, 99));
    let mean = lexed / (count as usize).max(1);
    Ok(println!(rt; "{} {made} {median} {most} {mean}", document.len())?)
}

/// Makes a document of a text, types `count` characters in its middle half, each at another place, and
/// deletes each again. Prints a line: the text's bytes, the nanoseconds of making the document, those
/// of a keystroke at the median and at 99 %, and the bytes that a keystroke lexed on average.
pub fn print_keystrokes(rt: &HostRuntime, text: &str, count: u32) -> Result<(), BenchFault> {
    let (mut document, made) = timed_document(rt, text)?;
    print_typed(rt, &mut document, made, count)
}
