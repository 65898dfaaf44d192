//! Makes segments: lexes a text from the start of a segment on.

ghost use Rattle.std.specs.Prelude.{◌≡◌, ◌≤◌, ◌<◌, ◌+◌, ◌^◌, IfOk, IfSome, IsNone, IsSome, [], count_by, false, length, map, take, true};
ghost use Rattle.starlark_document.specs.Documents.{EndsWithLine};
ghost use Rattle.starlark_document.specs.Inner.Costs.{IsTextCost, cost_sum};
ghost use Rattle.starlark_document.specs.Inner.LexedFronts.{IsFirstSegment, IsLexedFront, IsSized, IsTakenFront, last_newline_at, without_newline};
ghost use Rattle.std.specs.Str.{IsCharBoundary};
ghost use Rattle.starlark_document.specs.Inner.Segments.{text_in};
ghost use Rattle.starlark_base.specs.Places.{is_lf};
ghost use Rattle.starlark_recovery.specs.RecoveringLexer.{AreReadsOn, all_items};
ghost use Rattle.starlark_token.specs.Lexemes.{lexeme_view};

use crate::lexed_fronts::{LexedFront, SPARE_LEXEMES};
use crate::segments::{Content, PlacedToken, Segment};
use starlark_base::position::newline_count;
use starlark_syntax::codemap::CodeMap;
use starlark_syntax::dialect::Dialect;
use starlark_syntax::lexer::RecoveringLexer;
use std::alloc::{AllocError, Global};
use std::boxed::Box;

/// What lexing took.
#[derive(Clone, Copy)]
pub struct LexingCost {
    /// Number of bytes that were given to the lexer. A byte that was lexed twice counts twice.
    pub lexed: usize,
    /// How often lexing started: with each text that was given, and after each fault.
    pub starts: usize,
    /// Number of reads of bytes.
    pub reads: u64,
}

impl LexingCost {
    /// What lexing nothing takes.
    pub fn none() -> LexingCost
        ensures { result ≡ record { lexed = 0; starts = 0; reads = 0 } }
    {
        LexingCost {
            lexed: 0,
            starts: 0,
            reads: 0,
        }
    }

    /// What this lexing and another one took. The numbers saturate.
    pub fn and(self, other: LexingCost) -> LexingCost
        ensures { result ≡ cost_sum self other }
    {
        LexingCost {
            lexed: self.lexed.saturating_add(other.lexed),
            starts: self.starts.saturating_add(other.starts),
            reads: self.reads.saturating_add(other.reads),
        }
    }
}

/// What a lexer of a text has taken so far.
fn cost_of(lexer: &RecoveringLexer<'_>, text: &str) -> LexingCost
    requires { lexer.now.fault_count < 2 ^ 32 }
    ensures { result ≡ record { lexed = length text.now; starts = lexer.now.fault_count + 1; reads = lexer.now.reads } }
{
    LexingCost {
        lexed: text.len(),
        starts: lexer.fault_count() + 1,
        reads: lexer.reads(),
    }
}

/// The outcome of lexing a text for its first segment.
#[derive(Drop)]
pub struct Attempt {
    /// The segment; `None` where none can follow the text.
    pub segment: Option<Segment>,
    /// What lexing it took.
    pub cost: LexingCost,
}

/// Index of the last `Newline` of a list of lexemes, or its length if it has none.
fn last_newline(lexemes: &[PlacedToken]) -> usize
    ensures value { result ≡ last_newline_at (map lexeme_view lexemes.now) }
    ensures within { result ≤ length lexemes.now }
{
    let mut at = lexemes.len();
    while at > 0 {
        at -= 1;
        if lexemes[at].1.is_newline() {
            return at;
        }
    }
    lexemes.len()
}

/// A segment of a text, with what was found in it.
fn segment(alloc: Global, text: &str, front: LexedFront) -> Result<Segment, AllocError>
    ensures text { IfOk result (λ segment. text_in segment ≡ text.now) }
    ensures len { IfOk result (λ segment. segment.len ≡ length text.now) }
    ensures lines { IfOk result (λ segment. segment.lines ≡ count_by is_lf text.now) }
    ensures lexemes { IfOk result (λ segment. segment.content.value.lexemes.items ≡ front.lexemes.items) }
    ensures faults { IfOk result (λ segment. segment.content.value.faults ≡ front.faults) }
{
    let mut lexemes = front.lexemes;
    lexemes.shrink_to(lexemes.len().saturating_add(SPARE_LEXEMES));
    let content = Content {
        text: String::from_str(alloc, text)?,
        lexemes,
        faults: front.faults,
    };
    Ok(Segment {
        len: text.len(),
        lines: newline_count(text),
        content: Box::new(alloc, content).map_err(|_| AllocError)?,
    })
}

/// The segment of a text up to where it can be cut.
fn cut_segment(alloc: Global, text: &str, front: LexedFront) -> Result<Segment, AllocError>
    requires within { front.line_end ≤ length text.now }
    requires boundary { IsCharBoundary text.now front.line_end }
    ensures text { IfOk result (λ segment. text_in segment ≡ take front.line_end text.now) }
    ensures len { IfOk result (λ segment. segment.len ≡ front.line_end) }
    ensures lines { IfOk result (λ segment. segment.lines ≡ count_by is_lf (take front.line_end text.now)) }
    ensures lexemes { IfOk result (λ segment. segment.content.value.lexemes.items ≡ front.lexemes.items) }
    ensures faults { IfOk result (λ segment. segment.content.value.faults ≡ front.faults) }
{
    let len = front.line_end;
    segment(alloc, &text[..len], front)
}

/// Takes the closing `Newline` out of what was found in a closed text, since another text follows.
fn without_closing(front: LexedFront) -> LexedFront
    ensures lexemes { map lexeme_view result.lexemes.items ≡ without_newline (map lexeme_view front.lexemes.items) }
    ensures faults { result.faults ≡ front.faults }
{
    let mut open = front;
    let at = last_newline(&open.lexemes);
    if at < open.lexemes.len() {
        open.lexemes.remove(at);
    }
    open
}

/// The segment of a whole text; `None` where the text isn't known to be closed, and another one
/// follows it.
fn whole_segment(
    alloc: Global,
    text: &str,
    front: LexedFront,
    is_last: bool,
) -> Result<Option<Segment>, AllocError>
    requires front { IsLexedFront text.now (all_items text.now) front }
    requires uncut { front.is_cut ≡ false }
    ensures segment { IfOk result (λ found. IfSome found (IsFirstSegment text.now is_last)) }
    ensures sized { IfOk result (λ found. IfSome found (IsSized text.now front.least_len)) }
    ensures last { IfOk result (λ found. is_last ≡ true → IsSome found) }
    ensures none { IfOk result (λ found. IsNone found → 0 < length text.now) }
    ensures unended { IfOk result (λ found. IsNone found → EndsWithLine text.now → ⊥) }
{
    if is_last {
        return Ok(Some(segment(alloc, text, front)?));
    }
    if text.is_empty() || front.line_end == text.len() {
        return Ok(Some(segment(alloc, text, without_closing(front))?));
    }
    Ok(None)
}

/// The first segment of a text: up to where it can be cut, or the whole text, as `whole_segment`
/// says.
fn first_segment(
    alloc: Global,
    text: &str,
    front: LexedFront,
    is_cut: bool,
    is_last: bool,
) -> Result<Option<Segment>, AllocError>
    requires front { IsTakenFront text.now is_cut front }
    ensures segment { IfOk result (λ found. IfSome found (IsFirstSegment text.now is_last)) }
    ensures sized { IfOk result (λ found. IfSome found (IsSized text.now front.least_len)) }
    ensures last { IfOk result (λ found. is_last ≡ true → IsSome found) }
    ensures none { IfOk result (λ found. IsNone found → 0 < length text.now) }
    ensures unended { IfOk result (λ found. IsNone found → EndsWithLine text.now → ⊥) }
    ensures cut { IfOk result (λ found. is_cut ≡ true → IfSome found (λ segment. segment.len < length text.now)) }
{
    if is_cut {
        return Ok(Some(cut_segment(alloc, text, front)?));
    }
    whole_segment(alloc, text, front, is_last)
}

/// Takes items from the lexer of a text, up to where the text can be cut or to its end. Returns
/// whether it can be cut.
// It borrows the lexer and the front: a loop that owns them takes four times as long to prove.
fn take_front(
    lexer: &mut RecoveringLexer<'_>,
    text: &str,
    front: &mut LexedFront,
) -> Result<bool, AllocError>
    requires lexer { lexer.old ≡ record { text = text.now; code_map = lexer.old.code_map; left = all_items text.now; fault_count = 0; has_ended = false; reads = 0 } }
    requires front { IsLexedFront text.now [] front.old }
    ensures front { IfOk result (λ is_cut. IsTakenFront text.now is_cut front.new) }
    ensures least_len { IfOk result (λ is_cut. front.new.least_len ≡ front.old.least_len) }
    ensures reads { IfOk result (λ is_cut. AreReadsOn text.now lexer.new.fault_count lexer.new.reads) }
    ensures least { IfOk result (λ is_cut. is_cut ≡ false → lexer.new.fault_count ≡ 0 → length text.now ≤ lexer.new.reads) }
{
    while let Some(item) = lexer.next() {
        if front.ends_before(&item)? {
            return Ok(true);
        }
        front.take(text, item)?;
    }
    Ok(front.is_cut)
}

/// Lexes a text up to where it can be cut or to its end. Returns whether it can be cut, and what
/// lexing it took.
fn lex_front(
    alloc: Global,
    file: &CodeMap,
    text: &str,
    front: &mut LexedFront,
) -> Result<(bool, LexingCost), AllocError>
    requires fits { length text.now < 2 ^ 32 }
    requires front { IsLexedFront text.now [] front.old }
    ensures front { IfOk result (λ found. IsTakenFront text.now found.0 front.new) }
    ensures least_len { IfOk result (λ found. front.new.least_len ≡ front.old.least_len) }
    ensures cost { IfOk result (λ found. IsTextCost (length text.now) found.1) }
    ensures least { IfOk result (λ found. found.0 ≡ false → found.1.starts ≡ 1 → length text.now ≤ found.1.reads) }
{
    let lexer = RecoveringLexer::new(alloc, text, &Dialect::Standard, file.dupe()?);
    let mut lexer = lexer.map_err(|_| AllocError)?;
    let is_cut = take_front(&mut lexer, text, front)?;
    Ok((is_cut, cost_of(&lexer, text)))
}

/// Lexes the first segment of a text, which ends where the text can be cut, or with the text.
///
/// The text is the document's last, or other segments follow it. Where none can follow it, there is
/// no segment: then it is to be lexed with more text. At first there is room for `likely_count`
/// lexemes and some more.
pub fn lex_segment(
    alloc: Global,
    file: &CodeMap,
    text: &str,
    is_last: bool,
    least_len: usize,
    likely_count: usize,
) -> Result<Attempt, AllocError>
    requires fits { length text.now < 2 ^ 32 }
    ensures segment { IfOk result (λ found. IfSome found.segment (IsFirstSegment text.now is_last)) }
    ensures sized { IfOk result (λ found. IfSome found.segment (IsSized text.now least_len)) }
    ensures last { IfOk result (λ found. is_last ≡ true → IsSome found.segment) }
    ensures none { IfOk result (λ found. IsNone found.segment → 0 < length text.now) }
    ensures unended { IfOk result (λ found. IsNone found.segment → EndsWithLine text.now → ⊥) }
    ensures cost { IfOk result (λ found. IsTextCost (length text.now) found.cost) }
    ensures whole { IfOk result (λ found. IfSome found.segment (λ segment. segment.len ≡ length text.now → found.cost.starts ≡ 1 → length text.now ≤ found.cost.reads)) }
{
    let mut front = LexedFront::new(alloc, least_len, likely_count)?;
    let (is_cut, cost) = lex_front(alloc, file, text, &mut front)?;
    let segment = first_segment(alloc, text, front, is_cut, is_last)?;
    Ok(Attempt { segment, cost })
}
