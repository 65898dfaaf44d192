//! Errors that have a file span, or are known to have none.

ghost use Rattle.std.specs.Prelude.{◌≡◌, ◌≢◌, [], Some, None, IsOk, IsSome, IfSome, IfNone, IfOk, IfErr, OnErr};
ghost use Rattle.starlark_base.specs.Diagnostics.{place_in, with_value, with_span};
ghost use Rattle.starlark_errors.specs.Errors.{IsFault, IsInternal, IsLocation, HasNoLocation};
ghost use Rattle.starlark_errors.specs.Errors.{kind_text};

use crate::error::{Error, ErrorKind};
use starlark_base::call_stack::CallStack;
use starlark_base::codemap::{CodeMap, ResolvedFileSpan, Span};
use starlark_base::diagnostic::WithDiagnostic;
use std::alloc::{AllocError, Global};
use std::fmt;
use std::marker::Model;

/// An error that was given a span, or is known to have none. In a contract it is that error.
#[derive(Drop)]
pub struct EvalException {
    error: Error,
}

impl Model for EvalException {
    ghost use Rattle.starlark_base.specs.Diagnostics.{Diagnosed};
    ghost use Rattle.starlark_errors.specs.declared.error.kinds.ErrorKind.{ErrorKind};

    ghost Value = { Diagnosed ErrorKind };

    ghost view = { λ it. it.error };
}

impl EvalException {
    /// An exception of an error with a span of a code map. A span that the error has is kept.
    ///
    /// It allocates only for an error without a span. The error is the unchanged argument, where
    /// memory runs out.
    pub fn new(mut error: Error, span: Span, codemap: &CodeMap) -> Result<Self, Error>
        ensures ok { IfOk result (λ it. it ≡ with_span error (place_in codemap.now span)) }
        ensures known { IsSome error.span → IsOk result }
        ensures refused { IfErr result (λ given. given ≡ error) }
    {
        match error.set_span(span, codemap) {
            Ok(()) => Ok(EvalException { error }),
            Err(_) => Err(error),
        }
    }

    /// An exception of an error whose span isn't known. It doesn't allocate.
    pub fn new_unknown_span(error: Error) -> Self
        ensures { result ≡ error }
    {
        EvalException { error }
    }

    /// An exception of an error with a span of a code map, and with a function's calls.
    ///
    /// A span and calls that the error has are kept. The function is called only for an error
    /// without calls. It allocates only for an error without a span. The error is the unchanged
    /// argument, where memory runs out: then the function wasn't called.
    pub fn new_with_callstack<F: FnOnce() -> CallStack + Drop>(
        error: Error,
        span: Span,
        codemap: &CodeMap,
        call_stack: F,
    ) -> Result<Self, Error>
        requires { error.call_stack ≡ [] → F.pre call_stack }
        ensures value { IfOk result (λ it. it.value ≡ error.value) }
        ensures span { IfOk result (λ it. it.span ≡ (with_span error (place_in codemap.now span)).span) }
        ensures told { IfOk result (λ it. error.call_stack ≡ [] → F.post call_stack it.call_stack) }
        ensures known_calls { IfOk result (λ it. error.call_stack ≢ [] → it.call_stack ≡ error.call_stack) }
        ensures known { IsSome error.span → IsOk result }
        ensures refused { IfErr result (λ given. given ≡ error) }
    {
        let mut exception = EvalException::new(error, span, codemap)?;
        exception.error.set_call_stack(call_stack);
        Ok(exception)
    }

    /// An internal error with a span of a code map. Its message is the printed form of a value.
    ///
    /// `AllocError` drops the value.
    pub fn internal_error<D: fmt::Display + Drop>(
        alloc: Global,
        error: D,
        span: Span,
        codemap: &CodeMap,
    ) -> Result<Self, AllocError>
        ensures kind { IfOk result (λ it. IsInternal it.value (D.output error)) }
        ensures span { IfOk result (λ it. it.span ≡ Some (place_in codemap.now span)) }
        ensures call_stack { IfOk result (λ it. it.call_stack ≡ []) }
    {
        let text = error.to_string(alloc)?;
        let Ok(error) = Error::new_kind(alloc, ErrorKind::Internal(text)) else {
            return Err(AllocError);
        };
        EvalException::new(error, span, codemap).map_err(|_| AllocError)
    }

    /// The error of the exception.
    pub fn error(&self) -> &Error
        ensures { result.now ≡ self.now }
    {
        &self.error
    }

    /// Returns the error of the exception.
    pub fn into_error(self) -> Error
        ensures { result ≡ self }
    {
        self.error
    }

    /// Makes the error an internal one, with the same message, span and calls.
    ///
    /// It allocates only for an error of the lexer. The error is the unchanged `self`, where memory
    /// runs out.
    pub fn into_internal_error(self, alloc: Global) -> Result<Self, Self>
        ensures kind { IfOk result (λ it. IsInternal it.value (Some (kind_text self.value))) }
        ensures span { IfOk result (λ it. it.span ≡ self.span) }
        ensures call_stack { IfOk result (λ it. it.call_stack ≡ self.call_stack) }
        ensures refused { IfErr result (λ it. it ≡ self) }
        ensures memory { OnErr result (IsFault self.value) }
    {
        match self.error.into_internal_error(alloc) {
            Ok(error) => Ok(EvalException { error }),
            Err(error) => Err(EvalException { error }),
        }
    }

    /// The lines and columns of an error's span, for tests.
    ///
    /// `None` where the span isn't known, or its code map doesn't hold it. `AllocError` where
    /// memory for the file's name runs out.
    pub fn _testing_loc(
        alloc: Global,
        error: &Error,
    ) -> Result<Option<ResolvedFileSpan>, AllocError>
        ensures found { IfOk result (λ location. IfSome location (λ it. IsLocation error.now.span it)) }
        ensures missing { IfOk result (λ location. IfNone location (HasNoLocation error.now.span)) }
    {
        match error.span() {
            Some(place) if place.file.holds(place.span) => Ok(Some(place.resolve(alloc)?)),
            _ => Ok(None),
        }
    }
}

impl From<WithDiagnostic<Error>> for EvalException {
    ghost from_gives = { λ outer it. it ≡ with_value outer outer.value.value };

    /// The inner error, with the span and the calls of the outer value. It doesn't allocate.
    fn from(diagnostic: WithDiagnostic<Error>) -> EvalException {
        EvalException {
            error: Error::from(diagnostic),
        }
    }
}

/// Prints the message, and ` at ` with the file span where that is known. Calls aren't printed.
impl fmt::Display for EvalException {
    ghost use Rattle.starlark_errors.specs.Errors.{error_text};

    ghost output = { error_text };

    fn fmt<W: fmt::Write>(&self, f: &mut fmt::Formatter<W>) -> fmt::Result {
        write!(f, "{}", self.error)
    }
}

/// Prints what `Display` prints.
impl fmt::Debug for EvalException {
    ghost use Rattle.starlark_errors.specs.Errors.{error_text};

    ghost debug_output = { error_text };

    fn fmt<W: fmt::Write>(&self, f: &mut fmt::Formatter<W>) -> fmt::Result {
        write!(f, "{self}")
    }
}
