//! Problems that are found in a text: faults of the lexer, characters that begin no token, and what
//! the checks find.

ghost use Rattle.std.specs.Prelude.{◌≡◌, Err, IfOk, Option, Some};
ghost use Rattle.std.specs.Str.{IsCharBoundary};
ghost use Rattle.starlark_base.specs.Places.{Text};
ghost use Rattle.starlark_base.specs.Sources.{SourceFile};
ghost use Rattle.starlark_grammar.specs.Tokens.{Fault, Spanned};
ghost use Rattle.starlark_lexemes.specs.Lexer.{AnswersBetween, AnswersWithin, IsException};
ghost use Rattle.starlark_text.specs.declared.or_memory.OrMemory.TheVariants as refusal;
ghost use Rattle.starlark_tokens.specs.Inner.FoundProblems.{IsFound, IsHeld, done_by, held_after, joined_run};
ghost use Rattle.starlark_tokens.specs.Inner.ShownKinds.{code_of_kind, is_invalid_kind, tells_error_at};
ghost use Rattle.starlark_tokens.specs.ToldFaults.Problems.{OfLexer, Problem, is_told, problem_of, tells_at};

use crate::output_formats::source_lines::boundary_from;
use crate::told_faults::filters::Filter;
use crate::told_faults::ignore_comments::is_ignored;
use crate::told_faults::shown_places::shown_offset;
use starlark_base::codemap::Span;
use starlark_checks::check::Finding;
use starlark_syntax::error::{ErrorKind, ParserMessage};
use starlark_syntax::eval_exception::EvalException;
use starlark_syntax::lexer::LexemeError;
use std::alloc::{AllocError, Global};

/// The code of characters that begin no token.
pub const CHARACTERS_CODE: &str = "SL002";

/// Characters between two offsets of a text, none of which begins a token.
#[derive(Clone, Copy)]
pub struct InvalidRun {
    pub begin: usize,
    pub end: usize,
}

/// A problem that is found in a text.
#[derive(Drop)]
pub enum FoundProblem {
    /// A fault of the lexer.
    Fault(EvalException),
    /// Characters that begin no token.
    Characters(InvalidRun),
    /// What a check finds.
    Finding(Finding),
}

/// The code of a fault; empty for an error that is none.
pub fn code_of(kind: &ErrorKind) -> &'static str
    ensures { result.now ≡ code_of_kind kind.now }
{
    match kind {
        ErrorKind::Parser(ParserMessage::Lexeme(error)) => error.code().unwrap_or(""),
        _ => "",
    }
}

/// Whether an error is of a character that begins no token.
fn is_invalid_input(kind: &ErrorKind) -> bool
    ensures { result ≡ is_invalid_kind kind.now }
{
    matches!(
        kind,
        ErrorKind::Parser(ParserMessage::Lexeme(LexemeError::InvalidInput(_)))
    )
}

/// The problem that a fault of a text is.
pub fn found_fault(exception: EvalException) -> FoundProblem
    requires { (file : SourceFile) × (fault : Spanned Fault) × IsException file fault exception }
    ensures { (text : Text) → AnswersWithin text (Some (Err (refusal.Error exception))) → AnswersBetween text (Some (Err (refusal.Error exception)))
        → (file : SourceFile) (fault : Spanned Fault) → IsException file fault exception → IsFound text result (problem_of fault) }
{
    if !is_invalid_input(exception.error().kind()) {
        return FoundProblem::Fault(exception);
    }
    let span = exception.error().span().unwrap().span;
    FoundProblem::Characters(InvalidRun {
        begin: span.begin().get() as usize,
        end: span.end().get() as usize,
    })
}

/// Two problems as one, if they are of characters that touch.
fn joined_run(held: &Option<FoundProblem>, next: &FoundProblem) -> Option<InvalidRun>
    ensures { result ≡ joined_run held.now next.now }
{
    match (held, next) {
        (Some(FoundProblem::Characters(last)), FoundProblem::Characters(run))
            if last.end == run.begin => {
            Some(InvalidRun {
                begin: last.begin,
                end: run.end,
            })
        }
        _ => None,
    }
}

/// Holds the next problem in the place of the last one, or lengthens that one by it. Returns the last
/// one if it was replaced.
pub fn hold(held: &mut Option<FoundProblem>, next: Option<FoundProblem>) -> Option<FoundProblem>
    ensures done { (text : Text) (last found : Option Problem) → IsHeld text held.old last → IsHeld text next found → IsHeld text result (done_by last found) }
    ensures held { (text : Text) (last found : Option Problem) → IsHeld text held.old last → IsHeld text next found → IsHeld text held.new (held_after last found) }
{
    let Some(next) = next else {
        return None;
    };
    match joined_run(held, &next) {
        Some(run) => {
            *held = Some(FoundProblem::Characters(run));
            None
        }
        None => held.replace(next),
    }
}

/// Whether what is shown at an offset of a text, and has a code, is told.
fn tells_at(
    alloc: Global,
    filter: &Filter,
    text: &str,
    at: usize,
    code: &str,
) -> Result<bool, AllocError>
    requires { IsCharBoundary text.now at }
    ensures { IfOk result (λ is. is ≡ tells_at filter.now text.now at code.now) }
{
    if !filter.tells(code) {
        return Ok(false);
    }
    Ok(!is_ignored(alloc, text, at, code)?)
}

/// Whether the fault of an error between two offsets of a text is told.
fn tells_error_at(
    alloc: Global,
    filter: &Filter,
    text: &str,
    kind: &ErrorKind,
    span: Span,
) -> Result<bool, AllocError>
    requires begin { IsCharBoundary text.now span.begin }
    requires end { IsCharBoundary text.now span.end }
    ensures { IfOk result (λ is. is ≡ tells_error_at filter.now text.now kind.now span.begin span.end) }
{
    if !filter.tells_kind(kind) {
        return Ok(false);
    }
    let begin = span.begin().get() as usize;
    let at = shown_offset(text, kind, begin, span.end().get() as usize);
    Ok(!is_ignored(alloc, text, at, code_of(kind))?)
}

/// Whether the fault of an exception is told.
fn tells_exception(
    alloc: Global,
    filter: &Filter,
    text: &str,
    exception: &EvalException,
) -> Result<bool, AllocError>
    requires answered { (file : SourceFile) × (fault : Spanned Fault) × IsException file fault exception.now }
    requires between { AnswersBetween text.now (Some (Err (refusal.Error exception.now))) }
    ensures { IfOk result (λ is. (file : SourceFile) (fault : Spanned Fault) → IsException file fault exception.now → is ≡ is_told filter.now text.now (OfLexer fault)) }
{
    let span = exception.error().span().unwrap().span;
    tells_error_at(alloc, filter, text, exception.error().kind(), span)
}

/// Whether a problem of a text is told.
pub fn tells_problem(
    alloc: Global,
    filter: &Filter,
    text: &str,
    found: &FoundProblem,
) -> Result<bool, AllocError>
    requires { (problem : Problem) × IsFound text.now found.now problem }
    ensures { IfOk result (λ is. (problem : Problem) → IsFound text.now found.now problem → is ≡ is_told filter.now text.now problem) }
{
    match found {
        FoundProblem::Fault(exception) => tells_exception(alloc, filter, text, exception),
        FoundProblem::Characters(run) => tells_at(alloc, filter, text, run.begin, CHARACTERS_CODE),
        FoundProblem::Finding(finding) => {
            let at = boundary_from(text, finding.begin);
            tells_at(alloc, filter, text, at, finding.check.code())
        }
    }
}
