//! Reads a body up to its first stop, and decodes it.

ghost use Rattle.std.specs.Prelude.{◌≡◌, ◌≤◌, ◌+◌, ◌-◌, ◌*◌, ◌++◌, false, true, not, string_bytes, take, IfOk, OnOk};
ghost use Rattle.std.specs.Str.{IsCharBoundary};
ghost use Rattle.starlark_grammar.specs.Items as grammar;
ghost use Rattle.starlark_words.specs.Inner.LiteralViews.{IsBody, IsCharacters, holds_text, least_stop_reads, literal_view, stopped_len, value_view};
ghost use Rattle.starlark_words.specs.Inner.PlainRuns.{IsRun};
ghost use Rattle.starlark_words.specs.Inner.Reads.{AreReads};

use super::escapes::{is_kept_pair, simple_escape};
use super::items::{Literal, Stop, Value, found_at, single_quoted};
use super::runs::first_run;
use crate::reads::{ReadCounter, uncounted_front};
use starlark_grammar::class::LiteralKind;
use std::alloc::{AllocError, Global};

/// The value of a literal: characters, or bytes.
#[derive(Drop)]
pub enum LiteralValue {
    /// The value of a string literal or of an f-string's text.
    Text(String),
    /// The value of a bytes literal.
    Bytes(Vec<u8>),
}

/// Bytes that are read after a run, of which most items are known. They are counted with the run.
const FRONT_LEN: usize = 3;

/// Bytes to reserve beyond a run before an escape: literals with one rarely need more room.
// With less than this a literal with escapes grows twice (8 % of escapes).
const SPARE_LEN: usize = 124;

/// Appends a run to a text. The first run also reserves room for what comes after it, where `front`
/// begins.
#[inline(always)]
fn append_run(text: &mut String, run: &str, front: &[u8]) -> Result<(), AllocError>
    ensures { OnOk result (string_bytes text.new ≡ string_bytes text.old ++ run.now) }
{
    if text.capacity() == 0 {
        let spare = if front.starts_with(b"\\") {
            SPARE_LEN
        } else {
            0
        };
        text.reserve_exact(run.len().saturating_add(spare))?;
    }
    // A copy is a call, even of nothing, and escapes often follow one another.
    if run.is_empty() {
        return Ok(());
    }
    text.push_str(run)
}

/// Appends the value of an item to a text. The value must not be a lone byte.
#[inline(always)]
fn append_to_text(text: &mut String, value: Value<'_>) -> Result<(), AllocError>
    requires { IsCharacters value }
    ensures { OnOk result (string_bytes text.new ≡ string_bytes text.old ++ value_view value.entry) }
{
    match value {
        Value::Part(part) => text.push_str(part),
        Value::Character(character) => text.push(character),
        Value::Byte(_) => unreachable!(),
    }
}

/// Appends the value of an item to bytes.
fn append_to_bytes(bytes: &mut Vec<u8>, value: Value<'_>) -> Result<(), AllocError>
    ensures { OnOk result (bytes.new.items ≡ bytes.old.items ++ value_view value.entry) }
{
    match value {
        Value::Part(part) => bytes.extend_from_slice(part.as_bytes()),
        Value::Character(character) => {
            let mut room = [0; 4];
            bytes.extend_from_slice(character.encode_utf8(&mut room).as_bytes())
        }
        Value::Byte(byte) => Ok(bytes.push(byte)?),
    }
}

/// A body of a literal, decoded.
#[derive(Drop)]
pub struct Body {
    /// Length of the body in the text, in bytes.
    pub len: usize,
    /// The decoded value.
    pub value: LiteralValue,
    /// Why the body stops.
    pub stop: Stop,
}

/// Reads and decodes the body of a string literal or of an f-string's text, at the start of a text.
/// Its first `run` bytes were read, and are in a run.
// A run is appended before its item is found (5 % of long strings).
#[inline(always)]
fn read_text_body(
    reads: &mut ReadCounter,
    alloc: Global,
    literal: Literal,
    run: usize,
    text: &str,
) -> Result<Body, AllocError>
    requires kind { grammar.is_of_bytes literal.kind ≡ false }
    requires run { IsRun (literal_view literal) text.now run }
    ensures body { IfOk result (IsBody (grammar.body_at (literal_view literal) text.now)) }
    ensures kind { IfOk result (λ body. holds_text body.value ≡ true) }
    ensures boundary { IfOk result (λ body. IsCharBoundary text.now body.len) }
    ensures more { IfOk result (λ body. run ≤ body.len) }
    ensures reads { IfOk result (λ body. AreReads (body.len - run + least_stop_reads body.stop) (8 * (body.len - run) + stopped_len body.stop + 6) reads.old reads.new) }
{
    let mut decoded = String::new(alloc);
    let mut copied = 0;
    let mut len = run;
    loop {
        let run = first_run(reads, FRONT_LEN, literal, &text[len..]);
        len += run.len();
        let rest = &text[len..];
        let front = uncounted_front(rest.as_bytes(), FRONT_LEN);
        if is_kept_pair(literal, front) {
            len += 2;
            continue;
        }
        // The run is appended in both arms: a character that is kept over the copy costs 5 % of escapes.
        if let Some(character) = simple_escape(literal, front) {
            append_run(&mut decoded, &text[copied..len], front)?;
            decoded.push(character)?;
            len += 2;
            copied = len;
            continue;
        }
        append_run(&mut decoded, &text[copied..len], front)?;
        match found_at(reads, literal, front, rest) {
            Ok((more, value)) => {
                append_to_text(&mut decoded, value)?;
                len += more;
                copied = len;
            }
            Err(stop) => {
                let value = LiteralValue::Text(decoded);
                return Ok(Body { len, value, stop });
            }
        }
    }
}

/// Reads and decodes the body of a bytes literal at the start of a text. Its first `run` bytes were
/// read, and are in a run.
#[inline(never)]
fn read_bytes_body(
    reads: &mut ReadCounter,
    alloc: Global,
    literal: Literal,
    run: usize,
    text: &str,
) -> Result<Body, AllocError>
    requires run { IsRun (literal_view literal) text.now run }
    ensures body { IfOk result (IsBody (grammar.body_at (literal_view literal) text.now)) }
    ensures kind { IfOk result (λ body. holds_text body.value ≡ false) }
    ensures boundary { IfOk result (λ body. IsCharBoundary text.now body.len) }
    ensures more { IfOk result (λ body. run ≤ body.len) }
    ensures reads { IfOk result (λ body. AreReads (body.len - run + least_stop_reads body.stop) (8 * (body.len - run) + stopped_len body.stop + 6) reads.old reads.new) }
{
    let mut decoded = Vec::new(alloc);
    decoded.extend_from_slice(text[..run].as_bytes())?;
    let mut len = run;
    loop {
        let run = first_run(reads, FRONT_LEN, literal, &text[len..]);
        decoded.extend_from_slice(run.as_bytes())?;
        len += run.len();
        let rest = &text[len..];
        let front = uncounted_front(rest.as_bytes(), FRONT_LEN);
        match found_at(reads, literal, front, rest) {
            Ok((more, value)) => {
                append_to_bytes(&mut decoded, value)?;
                len += more;
            }
            Err(stop) => {
                let value = LiteralValue::Bytes(decoded);
                return Ok(Body { len, value, stop });
            }
        }
    }
}

/// Reads and decodes the body at the start of a text, which begins just after the literal's opener. Its
/// first `run` bytes were read, and are in a run.
///
/// `AllocError` where memory for the value runs out.
pub fn read_body(
    reads: &mut ReadCounter,
    alloc: Global,
    literal: Literal,
    run: usize,
    text: &str,
) -> Result<Body, AllocError>
    requires run { IsRun (literal_view literal) text.now run }
    ensures body { IfOk result (IsBody (grammar.body_at (literal_view literal) text.now)) }
    ensures kind { IfOk result (λ body. holds_text body.value ≡ not (grammar.is_of_bytes literal.kind)) }
    ensures boundary { IfOk result (λ body. IsCharBoundary text.now body.len) }
    ensures more { IfOk result (λ body. run ≤ body.len) }
    ensures reads { IfOk result (λ body. AreReads (body.len - run + least_stop_reads body.stop) (8 * (body.len - run) + stopped_len body.stop + 6) reads.old reads.new) }
{
    match literal.kind {
        LiteralKind::Bytes => read_bytes_body(reads, alloc, literal, run, text),
        // Most literals with escapes are such: by constants the loop tests less (5 % of escapes).
        LiteralKind::Text if !literal.opening.is_raw && !literal.opening.is_triple => {
            let literal = single_quoted(LiteralKind::Text, false, literal.opening.quote);
            read_text_body(reads, alloc, literal, run, text)
        }
        _ => read_text_body(reads, alloc, literal, run, text),
    }
}
