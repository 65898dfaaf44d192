//! Calls that allocate. Where an allocation is refused, a call has to leave what its caller had as it was, and only then
//! is the failure returned. `scripts/oracles/refused_memory.py` refuses each allocation of each of these rows in turn.

use crate::error_rows::{first, forms, kind, one_call, placed, shown_error, tab};
use crate::refused::unchanged;
use crate::row_files::code_map;
use crate::rows::{Answer, Row, given, unknown};
use starlark_syntax::call_stack::CallStack;
use starlark_syntax::codemap::{CodeMap, CodeMapId, CodeMaps};
use starlark_syntax::diagnostic::WithDiagnostic;
use starlark_syntax::error::{Error, error_from_diagnostic, error_from_lexeme};
use starlark_syntax::eval_exception::EvalException;
use starlark_syntax::lexer::LexemeError;
use std::alloc::{AllocError, Global};
use std::fmt::{Debug, Display, Write};

/// Out of memory where an error that was given back is as it was; else how it was and how it is.
fn kept(alloc: Global, before: &str, error: &Error) -> Answer {
    let after = shown_error(alloc, error)?;
    unchanged(alloc, before, &after)
}

/// Out of memory where a value with its place is as it was; else how it was and how it is.
fn kept_place<T: Display + Debug>(alloc: Global, before: &str, value: &T) -> Answer {
    let after = forms(alloc, value)?;
    unchanged(alloc, before, &after)
}

/// The code map of a file of a number, whose name is given and whose source is empty.
fn numbered(alloc: Global, id: u64, name: &str) -> Result<CodeMap, AllocError> {
    let name = String::from_str(alloc, name)?;
    let source = String::new(alloc);
    given(CodeMap::new(alloc, CodeMapId::new(id), name, source))
}

/// The names of the code maps that there are, of the numbers 1 to 14.
fn names(alloc: Global, maps: &CodeMaps) -> Answer {
    let mut names = String::new(alloc);
    for id in 1..=14 {
        if let Some(map) = maps.get(CodeMapId::new(id)) {
            write!(names, "/{}", map.filename())?;
        }
    }
    Ok(names)
}

/// Code maps of the numbers from 1 to the last, all with one name.
fn numbered_to(alloc: Global, last: u64, name: &str) -> Result<CodeMaps, AllocError> {
    let mut maps = CodeMaps::new(alloc);
    for id in 1..=last {
        maps.add(&numbered(alloc, id, name)?)?;
    }
    Ok(maps)
}

/// Adds a code map for which there is no room yet.
fn add(alloc: Global) -> Answer {
    let mut maps = numbered_to(alloc, 9, "a")?;
    let before = names(alloc, &maps)?;
    let other = numbered(alloc, 10, "b")?;
    match maps.add(&other) {
        Ok(()) => names(alloc, &maps),
        Err(_) => unchanged(alloc, before.as_str(), &names(alloc, &maps)?),
    }
}

/// Adds fourteen code maps at once, of which two have numbers that are there.
fn add_all(alloc: Global) -> Answer {
    let mut maps = numbered_to(alloc, 2, "a")?;
    let before = names(alloc, &maps)?;
    let others = numbered_to(alloc, 14, "b")?;
    match maps.add_all(&others) {
        Ok(()) => names(alloc, &maps),
        Err(_) => unchanged(alloc, before.as_str(), &names(alloc, &maps)?),
    }
}

/// Makes an error of its kind, which is handed back.
fn new_kind(alloc: Global) -> Answer {
    let kind = kind(alloc, "other", "oops")?;
    let before = kind.to_string(alloc)?;
    match Error::new_kind(alloc, kind) {
        Ok(error) => shown_error(alloc, &error),
        Err(kind) => unchanged(alloc, before.as_str(), &kind),
    }
}

/// Makes an error of a fault, which is handed back.
fn of_lexeme(alloc: Global) -> Answer {
    let fault = LexemeError::IntParse(String::from_str(alloc, "1x")?);
    let before = fault.to_string(alloc)?;
    match error_from_lexeme(alloc, fault) {
        Ok(error) => shown_error(alloc, &error),
        Err(fault) => unchanged(alloc, before.as_str(), &fault),
    }
}

/// A fault at a place, with one call.
fn placed_fault(alloc: Global, map: &CodeMap) -> Result<WithDiagnostic<LexemeError>, AllocError> {
    let fault = LexemeError::InvalidTab;
    let mut fault = given(WithDiagnostic::new_spanned(alloc, fault, first(), map))?;
    let calls = one_call(alloc)?;
    fault.set_call_stack(move || calls);
    Ok(fault)
}

/// Makes an error of a fault with its place and call, which is handed back.
fn of_diagnostic(alloc: Global, map: &CodeMap) -> Answer {
    let fault = placed_fault(alloc, map)?;
    let before = forms(alloc, &fault)?;
    match error_from_diagnostic(alloc, fault) {
        Ok(error) => shown_error(alloc, &error),
        Err(fault) => kept_place(alloc, before.as_str(), &fault),
    }
}

/// Tells an error its place.
fn set_span(alloc: Global, map: &CodeMap) -> Answer {
    let mut error = tab(alloc)?;
    let before = shown_error(alloc, &error)?;
    match error.set_span(first(), map) {
        Ok(()) => shown_error(alloc, &error),
        Err(_) => kept(alloc, before.as_str(), &error),
    }
}

/// Makes an error with its place an internal one; it is handed back.
fn into_internal_error(alloc: Global, map: &CodeMap) -> Answer {
    let error = placed(alloc, map)?;
    let before = shown_error(alloc, &error)?;
    match error.into_internal_error(alloc) {
        Ok(error) => shown_error(alloc, &error),
        Err(error) => kept(alloc, before.as_str(), &error),
    }
}

/// Gives an error a place, which is handed back.
fn exception(alloc: Global, map: &CodeMap) -> Answer {
    let error = tab(alloc)?;
    let before = shown_error(alloc, &error)?;
    match EvalException::new(error, first(), map) {
        Ok(exception) => shown_error(alloc, exception.error()),
        Err(error) => kept(alloc, before.as_str(), &error),
    }
}

/// What is said where a refused call asked a function.
fn asked(alloc: Global) -> Answer {
    String::from_str(alloc, "the function was called")
}

/// Gives an error a place and its calls. It is handed back, and the function wasn't called.
fn with_callstack(alloc: Global, map: &CodeMap) -> Answer {
    let error = tab(alloc)?;
    let before = shown_error(alloc, &error)?;
    let mut is_asked = false;
    let calls = || {
        is_asked = true;
        CallStack::empty()
    };
    match EvalException::new_with_callstack(error, first(), map, calls) {
        Ok(exception) => shown_error(alloc, exception.error()),
        Err(_) if is_asked => asked(alloc),
        Err(error) => kept(alloc, before.as_str(), &error),
    }
}

/// Makes an exception an internal error; it is handed back.
fn internal_exception(alloc: Global, map: &CodeMap) -> Answer {
    let exception = EvalException::new_unknown_span(placed(alloc, map)?);
    let before = shown_error(alloc, exception.error())?;
    match exception.into_internal_error(alloc) {
        Ok(exception) => shown_error(alloc, exception.error()),
        Err(exception) => kept(alloc, before.as_str(), exception.error()),
    }
}

/// Gives a text a place; it is handed back.
fn new_spanned(alloc: Global, map: &CodeMap) -> Answer {
    let text = String::from_str(alloc, "oops")?;
    match WithDiagnostic::new_spanned(alloc, text, first(), map) {
        Ok(placed) => forms(alloc, &placed),
        Err(text) => unchanged(alloc, "oops", &text),
    }
}

/// Makes the length of a text with its place; the text is handed back, and the function wasn't called.
fn map_value(alloc: Global, map: &CodeMap) -> Answer {
    let oops = given(WithDiagnostic::new_spanned(alloc, "oops", first(), map))?;
    let before = forms(alloc, &oops)?;
    let mut is_asked = false;
    let made = oops.map(alloc, |text| {
        is_asked = true;
        text.len()
    });
    match made {
        Ok(len) => forms(alloc, &len),
        Err(_) if is_asked => asked(alloc),
        Err(oops) => kept_place(alloc, before.as_str(), &oops),
    }
}

/// The answer to a call that hands back what it was given, or leaves it unchanged, over a file.
fn of_file(alloc: Global, row: &Row) -> Answer {
    let map = code_map(alloc, "f", "ab")?;
    match row.text(1) {
        "set_span" => set_span(alloc, &map),
        "into_internal_error" => into_internal_error(alloc, &map),
        "exception" => exception(alloc, &map),
        "with_callstack" => with_callstack(alloc, &map),
        "internal_exception" => internal_exception(alloc, &map),
        "new_spanned" => new_spanned(alloc, &map),
        "map" => map_value(alloc, &map),
        "error_from_diagnostic" => of_diagnostic(alloc, &map),
        _ => unknown(alloc, row),
    }
}

/// The answer to a call that takes memory.
pub fn answer(alloc: Global, row: &Row) -> Answer {
    match row.text(1) {
        "add" => add(alloc),
        "add_all" => add_all(alloc),
        "new_kind" => new_kind(alloc),
        "error_from_lexeme" => of_lexeme(alloc),
        _ => of_file(alloc, row),
    }
}
