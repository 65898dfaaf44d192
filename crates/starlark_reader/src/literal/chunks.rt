//! F-string texts, up to an expression or the closing quotes.

ghost use Rattle.std.specs.Prelude.{◌≡◌, ◌<◌, ◌≤◌, ◌+◌, ◌*◌, ℕ, IfErr, IfOk};
ghost use Rattle.starlark_words.specs.Inner.LiteralViews.{fstring_literal};
ghost use Rattle.starlark_words.specs.Inner.PlainRuns.{IsRun};
ghost use Rattle.starlark_words.specs.Inner.Reads.{AreReads};
ghost use Rattle.starlark_reader.specs.Inner.ReadBounds.{AreStepReads};
ghost use Rattle.starlark_reader.specs.Inner.StepViews.{IsPlainText, IsStep, chunk_before, chunk_step};
ghost use Rattle.starlark_grammar.specs.Inner.Openings.{opening_view};
ghost use Rattle.starlark_grammar.specs.Pieces as grammar;

use starlark_grammar::class::Opening;
use starlark_token::lexeme_error::LexemeError;
use starlark_words::reads::ReadCounter;
use starlark_words::scanner::LiteralKind;
use starlark_words::{Body, Literal, LiteralValue, Stop, closing_len, plain_chunk_len, read_body};
use std::alloc::{AllocError, Global};

/// The value of the f-string text up to an expression or the closing quotes, and its length; or the
/// fault in it, between two offsets. Its first `run` bytes are known.
pub(crate) fn chunk_from(
    reads: &mut ReadCounter,
    alloc: Global,
    opening: Opening,
    run: usize,
    text: &str,
) -> Result<Result<(String, Chunk), (usize, LexemeError, usize)>, AllocError>
    requires run { IsRun (fstring_literal (opening_view opening)) text.now run }
    ensures step { IfOk result (λ found. IsStep (grammar.chunk (opening_view opening) text.now) (chunk_step found)) }
    ensures reads { IfOk result (λ found. (before : ℕ) → AreReads run (8 * run + 4) before reads.old → AreStepReads 0 10 0 10 (chunk_step found) before reads.new) }
{
    let literal = Literal {
        kind: LiteralKind::FString,
        opening,
    };
    let Body {
        len: text_len,
        value,
        stop,
    } = read_body(reads, alloc, literal, run, text)?;
    let LiteralValue::Text(value) = value else {
        unreachable!()
    };
    if let Some(chunk) = chunk_before(opening, text_len, stop) {
        return Ok(Ok((value, chunk)));
    }
    match stop {
        Stop::ClosingBrace => {
            let fault = LexemeError::InvalidInput(String::from_str(alloc, "}")?);
            Ok(Err((text_len, fault, text_len + 1)))
        }
        Stop::BadEscape { len, last } => {
            let fault = LexemeError::InvalidEscapeSequence(String::from_str(alloc, "\\")?);
            Ok(Err((text_len + (len - last), fault, text_len + len)))
        }
        Stop::Line => Ok(Err((0, LexemeError::UnfinishedStringLiteral, text_len + 1))),
        _ => Ok(Err((0, LexemeError::UnfinishedStringLiteral, text.len()))),
    }
}

/// An f-string text of `len` bytes, and the `stop_len` bytes that end it: the `{` before an
/// expression, or the closing quotes.
#[derive(Clone, Copy)]
pub struct Chunk {
    pub len: usize,
    pub before_expression: bool,
    pub stop_len: usize,
}

/// The f-string text of `len` bytes before a stop; `None` if the stop doesn't end one.
#[inline(always)]
fn chunk_before(opening: Opening, len: usize, stop: Stop) -> Option<Chunk>
    ensures { result ≡ chunk_before opening len stop }
{
    let (before_expression, stop_len) = match stop {
        Stop::OpeningBrace => (true, 1),
        Stop::Closing => (false, closing_len(opening)),
        _ => return None,
    };
    Some(Chunk {
        len,
        before_expression,
        stop_len,
    })
}

/// The f-string text up to its first stop, if it has no escapes. For any other text, or a
/// fault, the error is the length in bytes of the run without these at its start.
#[inline(always)]
pub(crate) fn plain_text(
    reads: &mut ReadCounter,
    opening: Opening,
    text: &str,
) -> Result<Chunk, usize>
    ensures plain { IfOk result (IsPlainText opening text.now) }
    ensures some { IfOk result (λ found. (0 < found.stop_len) × (found.stop_len ≤ 3)) }
    ensures reads { IfOk result (λ found. AreReads (found.len + 3) (6 * found.len + 4) reads.old reads.new) }
    ensures other { IfErr result (λ run. IsRun (fstring_literal (opening_view opening)) text.now run × AreReads run (6 * run + 4) reads.old reads.new) }
{
    let (len, stop) = plain_chunk_len(reads, opening, text)?;
    chunk_before(opening, len, stop).ok_or(len)
}
