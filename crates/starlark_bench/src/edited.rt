//! Lexes a text again after an edit in its middle.

ghost use Rattle.std.specs.Prelude.{◌≡◌, take, true};
ghost use Rattle.std.specs.Str.{IsCharBoundary};

use crate::tally::BenchFault;
use starlark_syntax::codemap::CodeMap;
use starlark_syntax::dialect::Dialect;
use starlark_syntax::lexer::LexedText;
use std::alloc::{AllocError, Global};
use std::time::Instant;

/// Offset in bytes after the first LF in the second half of a text; 0 if there is none.
pub fn middle(text: &str) -> usize {
    let half = text.len() / 2;
    for (at, byte) in text.as_bytes().iter().enumerate() {
        if at >= half && *byte == b'\n' {
            return at.saturating_add(1);
        }
    }
    0
}

/// A text with one more LF at a byte offset. It is empty if that is no character boundary.
pub fn edited_in_the_middle(alloc: Global, text: &str, from: usize) -> Result<String, AllocError> {
    let mut edited = String::new(alloc);
    if let Some((front, back)) = text.split_at_checked(from) {
        edited.push_str(front)?;
        edited.push('\n')?;
        edited.push_str(back)?;
    }
    Ok(edited)
}

/// Whether two texts have the same bytes up to byte `from`, a character boundary of both.
fn agree(first: &str, second: &str, from: usize) -> bool
    ensures { result ≡ true → IsCharBoundary first.now from × IsCharBoundary second.now from × (take from first.now ≡ take from second.now) }
{
    if !first.is_char_boundary(from) || !second.is_char_boundary(from) {
        return false;
    }
    first[..from] == second[..from]
}

/// Lexes a text. Returns the lexed text and the nanoseconds.
fn timed_lexed<'a>(
    rt: &HostRuntime,
    text: &'a str,
    code_map: CodeMap,
) -> Result<(LexedText<'a>, u128), BenchFault> {
    let start = Instant::now(rt)?;
    let lexed = LexedText::lex(rt.alloc(), text, &Dialect::Extended, code_map)?;
    let elapsed = start.elapsed(rt)?;
    Ok((lexed, elapsed.as_nanos()))
}

/// Lexes a text again after an edit at byte `from`. Returns the reads and the nanoseconds.
fn timed_relexed<'a>(
    rt: &HostRuntime,
    lexed: LexedText<'a>,
    file: &CodeMap,
    from: usize,
    edited: &'a str,
) -> Result<(u64, u128), BenchFault> {
    if !agree(lexed.text(), edited, from) || edited.len() > u32::MAX as usize {
        return Err(BenchFault::TooLong);
    }
    let start = Instant::now(rt)?;
    let Ok(lexed) = lexed.relex(from, edited, file) else {
        return Err(BenchFault::Memory);
    };
    let elapsed = start.elapsed(rt)?;
    Ok((lexed.reads(), elapsed.as_nanos()))
}

/// Lexes the source of a code map, and again after an edit at byte `from`, and prints a line.
pub fn print_relexed(
    rt: &HostRuntime,
    file: &CodeMap,
    from: usize,
    edited: &str,
) -> Result<(), BenchFault> {
    let (lexed, first) = timed_lexed(rt, file.source(), file.dupe()?)?;
    let first_reads = lexed.reads();
    let (reads, again) = timed_relexed(rt, lexed, file, from, edited)?;
    Ok(println!(rt;
        "{} {first_reads} {first} {reads} {again}",
        file.source().len()
    )?)
}
