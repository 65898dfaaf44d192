//! Fast path for bodies of literals without escapes.

ghost use Rattle.std.specs.Prelude.{◌≡◌, ◌+◌, ◌*◌, ◌≤◌, Ok, take, IfErr, IfOk, IfSome};
ghost use Rattle.starlark_grammar.specs.Items.{Stops, found_at};
ghost use Rattle.starlark_grammar.specs.Words.{Text};
ghost use Rattle.starlark_words.specs.Inner.Reads.{AreReads, more_reads};
ghost use Rattle.starlark_words.specs.Inner.LiteralViews.{IsPlainBody, IsPlainChunk, fstring_literal, single_literal, stop_view};
ghost use Rattle.starlark_words.specs.Inner.PlainRuns.{IsRun};
ghost use Rattle.starlark_grammar.specs.Inner.Openings.{opening_view};

use super::items::{Literal, Stop, closes, quote_byte, single_quoted};
use super::runs::first_run;
use crate::reads::{ReadCounter, byte_at, uncounted_front};
use starlark_grammar::class::{LiteralKind, Opening, Quote};

/// Bytes that tell what ends a text of an f-string. They are counted with its run.
const STOP_LEN: usize = 3;

/// Length in bytes of the body of a literal without escapes that one quote closes.
///
/// `text` begins after the opener. The error is the length of the first run, for any other literal:
/// one with escapes or three quotes, or one that isn't closed.
// Inlined into `pass_string`: a call costs 7 % of short strings.
#[inline(always)]
pub fn plain_body_len(
    reads: &mut ReadCounter,
    kind: LiteralKind,
    is_raw: bool,
    quote: Quote,
    text: &str,
) -> Result<usize, usize>
    ensures plain { IfOk result (λ len. IsPlainBody kind is_raw quote text.now len) }
    ensures reads { IfOk result (λ len. AreReads (len + 2) (6 * len + 3) reads.old reads.new) }
    ensures second { result ≡ Ok 0 → more_reads reads.old 3 ≤ reads.new }
    ensures other { IfErr result (λ run. IsRun (single_literal kind is_raw quote) text.now run × AreReads (run + 2) (6 * run + 3) reads.old reads.new) }
{
    let literal = single_quoted(kind, is_raw, quote);
    // The byte after the run is read twice.
    let len = first_run(reads, 1, literal, text).len();
    let bytes = text.as_bytes();
    if byte_at(bytes, len) != quote_byte(quote) {
        return Err(len);
    }
    if len > 0 {
        return Ok(len);
    }
    reads.add(1);
    if byte_at(bytes, 1) == quote_byte(quote) {
        Err(len)
    } else {
        Ok(len)
    }
}

/// The stop of an f-string's text, if closing quotes or an expression are there.
///
/// `front` is the first three bytes there, read already.
#[inline(always)]
fn stop_by(opening: Opening, front: &[u8]) -> Option<Stop>
    ensures { IfSome result (λ stop. (text : Text) → front.now ≡ take 3 text → found_at (fstring_literal (opening_view opening)) text ≡ Stops (stop_view stop)) }
{
    if closes(opening, front) {
        return Some(Stop::Closing);
    }
    match front {
        [b'{', second, ..] if *second != b'{' => Some(Stop::OpeningBrace),
        _ => None,
    }
}

/// Length in bytes and stop of an f-string's text that has no escapes.
///
/// The error is the length of the first run, for any other text: one with escapes, doubled braces, or
/// a fault.
#[inline(always)]
pub fn plain_chunk_len(
    reads: &mut ReadCounter,
    opening: Opening,
    text: &str,
) -> Result<(usize, Stop), usize>
    ensures plain { IfOk result (λ found. IsPlainChunk (opening_view opening) text.now found.0 (stop_view found.1)) }
    ensures run { IfOk result (λ found. IsRun (fstring_literal (opening_view opening)) text.now found.0) }
    ensures reads { IfOk result (λ found. AreReads (found.0 + 4) (6 * found.0 + 4) reads.old reads.new) }
    ensures other { IfErr result (λ run. IsRun (fstring_literal (opening_view opening)) text.now run × AreReads (run + 4) (6 * run + 4) reads.old reads.new) }
{
    let literal = Literal {
        kind: LiteralKind::FString,
        opening,
    };
    let len = first_run(reads, STOP_LEN, literal, text).len();
    let rest = &text.as_bytes()[len..];
    let Some(stop) = stop_by(opening, uncounted_front(rest, STOP_LEN)) else {
        return Err(len);
    };
    Ok((len, stop))
}
