//! Errors with their places and calls, over the file `f` with the source `ab`.

use crate::row_files::code_map;
use crate::rows::{Answer, Row, given, unknown};
use starlark_syntax::call_stack::CallStack;
use starlark_syntax::codemap::{CodeMap, Pos, Span};
use starlark_syntax::diagnostic::WithDiagnostic;
use starlark_syntax::error::{
    Error, ErrorKind, ParserMessage, error_from_diagnostic, error_from_lexeme,
};
use starlark_syntax::eval_exception::EvalException;
use starlark_syntax::lexer::LexemeError;
use std::alloc::{AllocError, Global};
use std::fmt::{Debug, Display};

/// A value in each of the forms that it prints in.
pub fn forms<T: Display + Debug>(alloc: Global, value: &T) -> Answer {
    format!(in alloc; "{value}|{value:?}|{value:#}")
}

/// An error in each of the forms that it prints in, after its kind.
pub fn shown_error(alloc: Global, error: &Error) -> Answer {
    let kind = match error.kind() {
        ErrorKind::Parser(_) => "parser",
        ErrorKind::Other(_) => "other",
        ErrorKind::Internal(_) => "internal",
    };
    let calls = error.call_stack().frames().len();
    format!(in alloc; "{kind} {calls}|{error}|{error:?}|{error:#}")
}

/// The place of the first byte.
pub fn first() -> Span {
    Span::new(Pos::new(0), Pos::new(1))
}

fn second() -> Span {
    Span::new(Pos::new(1), Pos::new(2))
}

/// A kind of error by its name, which says a text.
pub fn kind(alloc: Global, name: &str, text: &str) -> Result<ErrorKind, AllocError> {
    let text = text.to_string(alloc)?;
    Ok(match name {
        "lexeme" => ErrorKind::Parser(ParserMessage::Lexeme(LexemeError::IntParse(text))),
        "parser" => ErrorKind::Parser(ParserMessage::Text(text)),
        "other" => ErrorKind::Other(text),
        _ => ErrorKind::Internal(text),
    })
}

/// An error of a kind, without a place.
fn new_kind(alloc: Global, row: &Row) -> Result<Error, AllocError> {
    let kind = kind(alloc, row.text(2), row.text(3))?;
    given(Error::new_kind(alloc, kind))
}

fn shown_kind(alloc: Global, row: &Row) -> Answer {
    shown_error(alloc, &new_kind(alloc, row)?)
}

fn into_internal_error(alloc: Global, row: &Row) -> Answer {
    let error = new_kind(alloc, row)?;
    shown_error(alloc, &given(error.into_internal_error(alloc))?)
}

/// A fault of the lexer, without a place.
pub fn tab(alloc: Global) -> Result<Error, AllocError> {
    given(error_from_lexeme(alloc, LexemeError::InvalidTab))
}

fn shown_tab(alloc: Global) -> Answer {
    shown_error(alloc, &tab(alloc)?)
}

/// A fault of the lexer, which is told two places.
pub fn placed(alloc: Global, map: &CodeMap) -> Result<Error, AllocError> {
    let mut error = tab(alloc)?;
    error.set_span(first(), map)?;
    error.set_span(second(), map)?;
    Ok(error)
}

fn set_span(alloc: Global, map: &CodeMap) -> Answer {
    shown_error(alloc, &placed(alloc, map)?)
}

/// A stack of one call.
pub fn one_call(alloc: Global) -> Result<CallStack, AllocError> {
    let frame = String::from_str(alloc, "call")?;
    Ok(CallStack::from_frames(vec![in alloc; frame]?))
}

/// Whether an error asks a function for its calls.
fn asks(error: &mut Error) -> bool {
    let mut is_asked = false;
    error.set_call_stack(|| {
        is_asked = true;
        CallStack::empty()
    });
    is_asked
}

/// Whether an error asks before and after it has a call, and the number of its calls.
fn set_call_stack(alloc: Global) -> Answer {
    let mut error = tab(alloc)?;
    let is_first_asked = asks(&mut error);
    let calls = one_call(alloc)?;
    error.set_call_stack(move || calls);
    let is_second_asked = asks(&mut error);
    let count = error.call_stack().frames().len();
    format!(in alloc; "{is_first_asked} {is_second_asked} {count}")
}

/// A fault of the lexer inside of another place.
fn outer(alloc: Global, map: &CodeMap) -> Result<WithDiagnostic<Error>, AllocError> {
    let error = placed(alloc, map)?;
    given(WithDiagnostic::new_spanned(alloc, error, second(), map))
}

fn error_of_outer(alloc: Global, map: &CodeMap) -> Answer {
    shown_error(alloc, &Error::from(outer(alloc, map)?))
}

fn diagnostic(alloc: Global, map: &CodeMap) -> Result<WithDiagnostic<&'static str>, AllocError> {
    given(WithDiagnostic::new_spanned(alloc, "oops", first(), map))
}

fn diagnostic_set_span(alloc: Global, map: &CodeMap) -> Answer {
    let mut oops = diagnostic(alloc, map)?;
    oops.set_span(second(), map)?;
    forms(alloc, &oops)
}

fn diagnostic_map(alloc: Global, map: &CodeMap) -> Answer {
    let oops = diagnostic(alloc, map)?;
    forms(alloc, &given(oops.map(alloc, |text| text.len()))?)
}

fn from_diagnostic(alloc: Global, map: &CodeMap) -> Answer {
    let fault = LexemeError::InvalidTab;
    let mut fault = given(WithDiagnostic::new_spanned(alloc, fault, first(), map))?;
    let calls = one_call(alloc)?;
    fault.set_call_stack(move || calls);
    shown_error(alloc, &given(error_from_diagnostic(alloc, fault))?)
}

fn new_exception(alloc: Global, map: &CodeMap) -> Result<EvalException, AllocError> {
    given(EvalException::new(tab(alloc)?, first(), map))
}

fn exception(alloc: Global, map: &CodeMap) -> Answer {
    forms(alloc, &new_exception(alloc, map)?)
}

fn exception_into_internal_error(alloc: Global, map: &CodeMap) -> Answer {
    let exception = new_exception(alloc, map)?;
    let exception = given(exception.into_internal_error(alloc))?;
    shown_error(alloc, &exception.into_error())
}

fn exception_with_callstack(alloc: Global, map: &CodeMap) -> Answer {
    let error = tab(alloc)?;
    let calls = one_call(alloc)?;
    let exception = EvalException::new_with_callstack(error, first(), map, move || calls);
    shown_error(alloc, given(exception)?.error())
}

fn internal_error(alloc: Global, map: &CodeMap) -> Answer {
    let exception = EvalException::internal_error(alloc, 42u32, second(), map)?;
    shown_error(alloc, exception.error())
}

/// The lines and columns of an error's place, which ends where the row says.
fn testing_loc(alloc: Global, map: &CodeMap, end: u32) -> Answer {
    let mut error = tab(alloc)?;
    if end > 0 {
        error.set_span(Span::new(Pos::new(0), Pos::new(end)), map)?;
    }
    match EvalException::_testing_loc(alloc, &error)? {
        Some(location) => location.to_string(alloc),
        None => String::from_str(alloc, "no location"),
    }
}

/// The answer to a call of a value with its place.
fn of_diagnostic(alloc: Global, map: &CodeMap, row: &Row) -> Answer {
    match row.text(1) {
        "diagnostic" => forms(alloc, &diagnostic(alloc, map)?),
        "diagnostic_set_span" => diagnostic_set_span(alloc, map),
        "diagnostic_map" => diagnostic_map(alloc, map),
        "error_from_diagnostic" => from_diagnostic(alloc, map),
        "error_of_outer" => error_of_outer(alloc, map),
        _ => unknown(alloc, row),
    }
}

/// The answer to a call of an exception, or of a place that an error is told.
fn of_exception(alloc: Global, map: &CodeMap, row: &Row) -> Answer {
    match row.text(1) {
        "exception" => exception(alloc, map),
        "exception_into_internal_error" => exception_into_internal_error(alloc, map),
        "exception_with_callstack" => exception_with_callstack(alloc, map),
        "internal_error" => internal_error(alloc, map),
        "testing_loc" => testing_loc(alloc, map, row.count(2)),
        "set_span" => set_span(alloc, map),
        _ => of_diagnostic(alloc, map, row),
    }
}

/// The answer to a call of an error in a file.
fn of_file(alloc: Global, row: &Row) -> Answer {
    let map = code_map(alloc, "f", "ab")?;
    of_exception(alloc, &map, row)
}

/// The answer to a call of an error.
pub fn answer(alloc: Global, row: &Row) -> Answer {
    match row.text(1) {
        "new_kind" => shown_kind(alloc, row),
        "into_internal_error" => into_internal_error(alloc, row),
        "error_from_lexeme" => shown_tab(alloc),
        "set_call_stack" => set_call_stack(alloc),
        _ => of_file(alloc, row),
    }
}
