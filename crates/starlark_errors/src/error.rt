//! Errors with a kind, a file span and a call stack.

ghost use Rattle.std.specs.Prelude.{◌≡◌, ◌≢◌, [], Some, None, option_copied, IsOk, IsSome, IfOk, IfErr, OnOk, OnErr};
ghost use Rattle.starlark_base.specs.Diagnostics.{place_in, unplaced, with_value, with_span};
ghost use Rattle.starlark_errors.specs.Errors.{IsFault, IsInternal};
ghost use Rattle.starlark_errors.specs.Errors.{kind_text};

mod kinds;

pub use kinds::{ErrorKind, ParserMessage};
use starlark_base::call_stack::CallStack;
use starlark_base::codemap::{CodeMap, FileSpan, Span};
use starlark_base::diagnostic::WithDiagnostic;
use starlark_token::lexeme_error::LexemeError;
use std::alloc::{AllocError, AllocFailed, Global};
use std::marker::Model;
use std::{fmt, mem};

/// The boxed fields of an error.
#[derive(Drop)]
struct Parts {
    kind: ErrorKind,
    span: Option<FileSpan>,
    call_stack: CallStack,
}

/// An error: its kind with a message, its file span if that is known, and its call stack.
///
/// The first span and the first call stack are kept: later ones don't replace them. In a contract
/// an error is these three.
#[derive(Drop)]
pub struct Error {
    parts: Box<Parts>,
}

impl Model for Error {
    ghost use Rattle.starlark_base.specs.Diagnostics.{Diagnosed};
    ghost use Rattle.starlark_errors.specs.declared.error.kinds.ErrorKind.{ErrorKind};

    ghost Value = { Diagnosed ErrorKind };

    ghost view = { λ it. record { value = it.parts.value.kind; span = it.parts.value.span; call_stack = it.parts.value.call_stack } };
}

impl Error {
    /// An error of a kind, without a span and without calls.
    ///
    /// The error is the kind, where memory runs out.
    pub fn new_kind(alloc: Global, kind: ErrorKind) -> Result<Error, ErrorKind>
        ensures ok { IfOk result (λ it. it ≡ unplaced kind) }
        ensures refused { IfErr result (λ given. given ≡ kind) }
    {
        let parts = Parts {
            kind,
            span: None,
            call_stack: CallStack::empty(),
        };
        match Box::new(alloc, parts) {
            Ok(parts) => Ok(Error { parts }),
            Err(AllocFailed { value: parts }) => Err(parts.kind),
        }
    }

    /// The kind, with its message.
    pub fn kind(&self) -> &ErrorKind
        ensures { result.now ≡ self.now.value }
    {
        &self.parts.kind
    }

    /// The file span, if it is known.
    pub fn span(&self) -> Option<&FileSpan>
        ensures { option_copied result ≡ self.now.span }
    {
        self.parts.span.as_ref()
    }

    /// The call stack.
    pub fn call_stack(&self) -> &CallStack
        ensures { result.now ≡ self.now.call_stack }
    {
        &self.parts.call_stack
    }

    /// Sets the span, unless one is known. Then nothing is allocated.
    ///
    /// Nothing changes on `AllocError`.
    pub fn set_span(&mut self, span: Span, codemap: &CodeMap) -> Result<(), AllocError>
        ensures ok { OnOk result (self.new ≡ with_span self.old (place_in codemap.now span)) }
        ensures known { IsSome self.old.span → IsOk result }
        ensures refused { OnErr result (self.new ≡ self.old) }
    {
        if self.parts.span.is_none() {
            self.parts.span = Some(codemap.file_span(span)?);
        }
        Ok(())
    }

    /// Sets the calls, unless some are known. Then the function isn't called.
    pub fn set_call_stack<F: FnOnce() -> CallStack + Drop>(&mut self, call_stack: F)
        requires { self.old.call_stack ≡ [] → F.pre call_stack }
        ensures value { self.new.value ≡ self.old.value }
        ensures span { self.new.span ≡ self.old.span }
        ensures told { self.old.call_stack ≡ [] → F.post call_stack self.new.call_stack }
        ensures known { self.old.call_stack ≢ [] → self.new.call_stack ≡ self.old.call_stack }
    {
        if self.parts.call_stack.is_empty() {
            self.parts.call_stack = call_stack();
        }
    }

    /// Makes the error an internal one, with the same message, span and calls.
    ///
    /// It allocates only for an error of the lexer. The error is the unchanged `self`, where memory
    /// runs out.
    #[tactic(auto, unfolding(crate::specs::Errors::kind_text, crate::specs::Errors::message_text))]
    pub fn into_internal_error(self, alloc: Global) -> Result<Error, Error>
        ensures kind { IfOk result (λ it. IsInternal it.value (Some (kind_text self.value))) }
        ensures span { IfOk result (λ it. it.span ≡ self.span) }
        ensures call_stack { IfOk result (λ it. it.call_stack ≡ self.call_stack) }
        ensures refused { IfErr result (λ it. it ≡ self) }
        ensures memory { OnErr result (IsFault self.value) }
    {
        let mut error = self;
        if let ErrorKind::Parser(ParserMessage::Lexeme(fault)) = error.kind() {
            let Ok(text) = fault.to_string(alloc) else {
                return Err(error);
            };
            error.parts.kind = ErrorKind::Internal(text);
            return Ok(error);
        }
        let nothing = ErrorKind::Internal(String::new(alloc));
        error.parts.kind = match mem::replace(&mut error.parts.kind, nothing) {
            ErrorKind::Parser(ParserMessage::Lexeme(_)) => unreachable!(),
            ErrorKind::Parser(ParserMessage::Text(text)) => ErrorKind::Internal(text),
            ErrorKind::Other(text) => ErrorKind::Internal(text),
            ErrorKind::Internal(text) => ErrorKind::Internal(text),
        };
        Ok(error)
    }
}

/// An error of the lexer as an `Error`, without a span and without calls.
///
/// The error is the unchanged argument, where memory runs out.
pub fn error_from_lexeme(alloc: Global, fault: LexemeError) -> Result<Error, LexemeError>
    ensures ok { IfOk result (λ it. it ≡ unplaced (ErrorKind.Parser (ParserMessage.Lexeme fault))) }
    ensures refused { IfErr result (λ given. given ≡ fault) }
{
    match Error::new_kind(alloc, ErrorKind::Parser(ParserMessage::Lexeme(fault))) {
        Ok(error) => Ok(error),
        Err(ErrorKind::Parser(ParserMessage::Lexeme(fault))) => Err(fault),
        Err(_) => unreachable!(),
    }
}

/// An error of the lexer as an `Error`, with its span and calls.
///
/// The error is the unchanged argument, where memory runs out.
pub fn error_from_diagnostic(
    alloc: Global,
    diagnostic: WithDiagnostic<LexemeError>,
) -> Result<Error, WithDiagnostic<LexemeError>>
    ensures ok { IfOk result (λ it. it ≡
        with_value diagnostic (ErrorKind.Parser (ParserMessage.Lexeme diagnostic.value))) }
    ensures refused { IfErr result (λ given. given ≡ diagnostic) }
{
    let room = ErrorKind::Internal(String::new(alloc));
    let Ok(mut error) = Error::new_kind(alloc, room) else {
        return Err(diagnostic);
    };
    let (fault, span, call_stack) = diagnostic.into_parts();
    *error.parts = Parts {
        kind: ErrorKind::Parser(ParserMessage::Lexeme(fault)),
        span,
        call_stack,
    };
    Ok(error)
}

impl From<WithDiagnostic<Error>> for Error {
    ghost from_gives = { λ outer it. it ≡ with_value outer outer.value.value };

    /// The inner error, with the span and the calls of the outer value. It doesn't allocate.
    fn from(diagnostic: WithDiagnostic<Error>) -> Error {
        let (mut error, span, call_stack) = diagnostic.into_parts();
        error.parts.span = span;
        error.parts.call_stack = call_stack;
        error
    }
}

/// Prints the message, and ` at ` with the file span where that is known. Calls aren't printed.
impl fmt::Display for Error {
    ghost use Rattle.starlark_errors.specs.Errors.{error_text};

    ghost output = { error_text };

    fn fmt<W: fmt::Write>(&self, f: &mut fmt::Formatter<W>) -> fmt::Result {
        write!(f, "{}", self.kind())?;
        match self.span() {
            Some(span) => write!(f, " at {span}"),
            None => Ok(()),
        }
    }
}

/// Prints what `Display` prints.
impl fmt::Debug for Error {
    ghost use Rattle.starlark_errors.specs.Errors.{error_text};

    ghost debug_output = { error_text };

    fn fmt<W: fmt::Write>(&self, f: &mut fmt::Formatter<W>) -> fmt::Result {
        write!(f, "{self}")
    }
}
