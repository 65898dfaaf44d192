//! Values with a file span and a call stack.

ghost use Rattle.std.specs.Prelude.{◌≡◌, ◌≢◌, [], Some, None, option_copied, IsOk, IsSome, IfOk, IfErr, OnOk, OnErr};
ghost use Rattle.starlark_base.specs.Diagnostics.{place_in, unplaced, with_span};

use crate::call_stack::CallStack;
use crate::codemap::{CodeMap, FileSpan, Span};
use std::alloc::{AllocError, AllocFailed, Global};
use std::fmt;
use std::marker::Model;

/// The boxed fields of a `WithDiagnostic`. The value is absent only inside `map`.
#[derive(Drop)]
struct Parts<T> {
    value: Option<T>,
    span: Option<FileSpan>,
    call_stack: CallStack,
}

/// A value, its file span if that is known, and its call stack. In a contract it is these three.
///
/// The first span and the first call stack are kept: later ones don't replace them.
#[derive(Drop)]
pub struct WithDiagnostic<T> {
    parts: Box<Parts<T>>,
    ghost has_value: { parts.value.value ≢ None },
}

impl<T> Model for WithDiagnostic<T> {
    ghost use Rattle.starlark_base.specs.Diagnostics.{Diagnosed, held};

    ghost Value = { Diagnosed T };

    ghost view = { λ it. record { value = held it.parts.value.value it.has_value; span = it.parts.value.span; call_stack = it.parts.value.call_stack } };
}

impl<T> WithDiagnostic<T> {
    /// A value with a span of a code map, and with no calls.
    ///
    /// The code map is shared. The error is the value, where memory runs out.
    pub fn new_spanned(alloc: Global, t: T, span: Span, codemap: &CodeMap) -> Result<Self, T>
        ensures ok { IfOk result (λ it. it ≡ with_span (unplaced t) (place_in codemap.now span)) }
        ensures refused { IfErr result (λ given. given ≡ t) }
    {
        let Ok(span) = codemap.file_span(span) else {
            return Err(t);
        };
        let parts = Parts {
            value: Some(t),
            span: Some(span),
            call_stack: CallStack::empty(),
        };
        match Box::new(alloc, parts) {
            Ok(parts) => Ok(WithDiagnostic { parts }),
            Err(AllocFailed { value: parts }) => Err(parts.value.unwrap()),
        }
    }

    /// The value.
    pub fn inner(&self) -> &T
        ensures { result.now ≡ self.now.value }
    {
        self.parts.value.as_ref().unwrap()
    }

    /// Returns the value, and drops its span and calls.
    pub fn into_inner(self) -> T
        ensures { result ≡ self.value }
    {
        let (value, _, _) = self.into_parts();
        value
    }

    /// Returns the value, its span and its calls.
    pub fn into_parts(self) -> (T, Option<FileSpan>, CallStack)
        ensures value { result.0 ≡ self.value }
        ensures span { result.1 ≡ self.span }
        ensures call_stack { result.2 ≡ self.call_stack }
    {
        let parts = Box::into_inner(self.parts);
        (parts.value.unwrap(), parts.span, parts.call_stack)
    }

    /// Applies a function to the value, and keeps the span and the calls.
    ///
    /// The function is called after the allocation. The error is the unchanged `self`, where memory
    /// runs out: then the function wasn't called.
    pub fn map<U, F: FnOnce(T) -> U + Drop>(
        self,
        alloc: Global,
        f: F,
    ) -> Result<WithDiagnostic<U>, WithDiagnostic<T>>
        requires { F.pre f self.value }
        ensures value { IfOk result (λ it. F.post f self.value it.value) }
        ensures span { IfOk result (λ it. it.span ≡ self.span) }
        ensures call_stack { IfOk result (λ it. it.call_stack ≡ self.call_stack) }
        ensures refused { IfErr result (λ it. it ≡ self) }
    {
        let room = Parts {
            value: None,
            span: None,
            call_stack: CallStack::empty(),
        };
        match Box::new(alloc, room) {
            Ok(mut parts) => {
                let (value, span, call_stack) = self.into_parts();
                match parts.value.replace(f(value)) {
                    Some(_) => unreachable!(),
                    None => {}
                }
                parts.span = span;
                parts.call_stack = call_stack;
                Ok(WithDiagnostic { parts })
            }
            Err(
                AllocFailed {
                    value: Parts { value, .. },
                },
            ) => match value {
                Some(_) => unreachable!(),
                None => Err(self),
            },
        }
    }

    /// The file span, if it is known.
    pub fn span(&self) -> Option<&FileSpan>
        ensures { option_copied result ≡ self.now.span }
    {
        self.parts.span.as_ref()
    }

    /// The calls.
    pub fn call_stack(&self) -> &CallStack
        ensures { result.now ≡ self.now.call_stack }
    {
        &self.parts.call_stack
    }

    /// Sets the span, unless one is known. Then nothing is allocated.
    ///
    /// Nothing changes on `AllocError`.
    pub fn set_span(&mut self, span: Span, codemap: &CodeMap) -> Result<(), AllocError>
        ensures ok { OnOk result (self.new ≡ with_span self.old (place_in codemap.now span)) }
        ensures known { IsSome self.old.span → IsOk result }
        ensures refused { OnErr result (self.new ≡ self.old) }
    {
        if self.parts.span.is_none() {
            self.parts.span = Some(codemap.file_span(span)?);
        }
        Ok(())
    }

    /// Sets the calls, unless some are known. Then the function isn't called.
    pub fn set_call_stack<F: FnOnce() -> CallStack + Drop>(&mut self, call_stack: F)
        requires { self.old.call_stack ≡ [] → F.pre call_stack }
        ensures value { self.new.value ≡ self.old.value }
        ensures span { self.new.span ≡ self.old.span }
        ensures told { self.old.call_stack ≡ [] → F.post call_stack self.new.call_stack }
        ensures known { self.old.call_stack ≢ [] → self.new.call_stack ≡ self.old.call_stack }
    {
        if self.parts.call_stack.is_empty() {
            self.parts.call_stack = call_stack();
        }
    }
}

/// Prints the value, and ` at ` with its file span where that is known. Calls aren't printed.
impl<T: fmt::Display> fmt::Display for WithDiagnostic<T> {
    ghost use Rattle.starlark_base.specs.DiagnosedTexts.{diagnosed_text};

    ghost output = { λ it. diagnosed_text (T.output it.value) it.span };

    fn fmt<W: fmt::Write>(&self, f: &mut fmt::Formatter<W>) -> fmt::Result {
        write!(f, "{}", self.inner())?;
        match self.span() {
            Some(span) => write!(f, " at {span}"),
            None => Ok(()),
        }
    }
}

/// Prints what `Display` prints.
impl<T: fmt::Display> fmt::Debug for WithDiagnostic<T> {
    ghost use Rattle.starlark_base.specs.DiagnosedTexts.{diagnosed_text};

    ghost debug_output = { λ it. diagnosed_text (T.output it.value) it.span };

    fn fmt<W: fmt::Write>(&self, f: &mut fmt::Formatter<W>) -> fmt::Result {
        write!(f, "{self}")
    }
}
