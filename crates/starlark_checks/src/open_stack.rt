//! What is open at an offset of a text: brackets, f-strings and their expressions.

ghost use Rattle.std.specs.Prelude.{◌≡◌, [], OnErr, OnOk, drop, true};
ghost use Rattle.std.specs.List.{slice_get};
ghost use Rattle.starlark_checks.specs.OpenStack.{at_closing, begins_kept_line, can_close, from_fstring, keeps_line, never_closed, open_after, opened_by, opens, unclosed, without_closed};

use crate::check::{Check, Finding};
use crate::token_roles::{Role, Shape};
use std::alloc::{AllocError, Global};
use std::collections::VecDeque;
use std::marker::Model;

/// What is open.
#[derive(Clone, Copy)]
pub enum OpenKind {
    Bracket(Shape),
    /// An expression of an f-string: whether it has to end on its line. That is so where the
    /// f-string has one quote and is in no such expression.
    Expression(bool),
    /// An f-string: whether it has three quotes.
    FString(bool),
}

/// Something open, with the span of the token that opened it.
#[derive(Clone, Copy)]
pub struct Opened {
    pub kind: OpenKind,
    pub begin: usize,
    pub end: usize,
    /// Whether it is an expression that has to end on its line, or is in one.
    pub keeps_line: bool,
}

/// What is open. In a contract it is a list, the innermost first.
#[derive(Drop)]
pub struct OpenStack {
    items: VecDeque<Opened>,
}

impl Model for OpenStack {
    ghost use Rattle.std.specs.Prelude.{List};
    ghost use Rattle.starlark_checks.specs.declared.open_stack.Opened.{Opened};

    ghost Value = { List Opened };

    ghost view = { λ stack. stack.items.items };
}

/// Whether a closing bracket of a shape closes what is open, if only by mistake.
fn can_close(shape: Shape, kind: OpenKind) -> bool
    ensures { result ≡ can_close shape kind }
{
    match kind {
        OpenKind::Bracket(_) => true,
        OpenKind::Expression(_) => shape == Shape::Curly,
        OpenKind::FString(_) => false,
    }
}

/// What is found at a closing bracket, by what is innermost before it.
///
/// `line_begin` is where the last lexeme begins that has a line end in it or right before it, of
/// those in an expression that has to end on its line.
pub(crate) fn at_closing(
    shape: Shape,
    innermost: Option<Opened>,
    line_begin: usize,
    begin: usize,
    end: usize,
) -> Option<Finding>
    ensures { result ≡ at_closing shape innermost line_begin begin end }
{
    let Some(opened) = innermost else {
        return Some(Finding::at(Check::ClosesNothing, begin, end));
    };
    match opened.kind {
        OpenKind::Bracket(other) if other == shape => None,
        OpenKind::Bracket(_) => Some(Finding {
            check: Check::ClosesAnother,
            begin,
            end,
            opening: opened.begin,
        }),
        OpenKind::Expression(_) if shape != Shape::Curly => {
            Some(Finding::at(Check::ClosesNothing, begin, end))
        }
        OpenKind::Expression(keeps_line) if keeps_line && opened.begin < line_begin => {
            Some(Finding::at(Check::FStringLineEnd, opened.begin, end))
        }
        _ => None,
    }
}

/// The finding of what is never closed: a bracket, or the `{` of an expression.
fn unclosed(opened: Opened) -> Option<Finding>
    ensures { result ≡ unclosed opened }
{
    match opened.kind {
        OpenKind::Bracket(_) | OpenKind::Expression(_) => {
            Some(Finding::at(Check::NeverClosed, opened.begin, opened.end))
        }
        OpenKind::FString(_) => None,
    }
}

impl OpenStack {
    /// Nothing is open. It doesn't allocate.
    pub(crate) fn new(alloc: Global) -> OpenStack
        ensures { result ≡ [] }
    {
        OpenStack {
            items: VecDeque::new(alloc),
        }
    }

    /// What is innermost.
    pub(crate) fn innermost(&self) -> Option<Opened>
        ensures { result ≡ slice_get self.now 0 }
    {
        self.items.front().copied()
    }

    /// Whether an expression is open that has to end on its line.
    #[inline(always)]
    pub(crate) fn keeps_line(&self) -> bool
        ensures { result ≡ keeps_line self.now }
    {
        match self.items.front() {
            Some(innermost) => innermost.keeps_line,
            None => false,
        }
    }

    /// Opens something inside of what is innermost.
    fn open(&mut self, kind: OpenKind, begin: usize, end: usize) -> Result<(), AllocError>
        ensures { OnOk result (self.new ≡ opened_by kind begin end self.old) }
    {
        let keeps_line = matches!(kind, OpenKind::Expression(true)) || self.keeps_line();
        self.items.push_front(Opened {
            kind,
            begin,
            end,
            keeps_line,
        })?;
        Ok(())
    }

    /// Closes what is innermost, where a closing bracket of a shape can.
    fn close(&mut self, shape: Shape)
        ensures { self.new ≡ without_closed shape self.old }
    {
        if let Some(innermost) = self.items.front()
            && can_close(shape, innermost.kind)
        {
            self.items.pop_front();
        }
    }

    /// Closes all that is open in the innermost f-string.
    fn leave_expression(&mut self)
        ensures { self.new ≡ from_fstring self.old }
    {
        while let Some(innermost) = self.items.front() {
            if matches!(innermost.kind, OpenKind::FString(_)) {
                return;
            }
            self.items.pop_front();
        }
    }

    /// Whether an expression of the f-string that is innermost has to end on its line.
    fn begins_kept_line(&self) -> bool
        ensures { result ≡ begins_kept_line self.now }
    {
        match self.items.front() {
            Some(innermost) => {
                matches!(innermost.kind, OpenKind::FString(false)) && !innermost.keeps_line
            }
            None => false,
        }
    }

    /// Passes a token.
    ///
    /// After an `AllocError` the stack isn't known.
    pub(crate) fn pass(&mut self, role: &Role, begin: usize, end: usize) -> Result<(), AllocError>
        ensures stack { OnOk result (self.new ≡ open_after role.now begin end self.old) }
        ensures memory { OnErr result (opens role.now ≡ true) }
    {
        match role {
            Role::Opening(shape) => self.open(OpenKind::Bracket(*shape), begin, end),
            Role::FStringStart(is_triple) => self.open(OpenKind::FString(*is_triple), begin, end),
            Role::ExpressionStart => {
                self.leave_expression();
                let kind = OpenKind::Expression(self.begins_kept_line());
                self.open(kind, begin, end)
            }
            Role::Closing(shape) => {
                self.close(*shape);
                Ok(())
            }
            Role::FStringEnd => {
                self.leave_expression();
                self.items.pop_front();
                Ok(())
            }
            _ => Ok(()),
        }
    }

    /// Closes all.
    pub(crate) fn clear(&mut self)
        ensures { self.new ≡ [] }
    {
        self.items.clear();
    }

    /// The first of the brackets never closed, which is then no longer among them.
    pub(crate) fn next_unclosed(&mut self) -> Option<Finding>
        ensures first { result ≡ slice_get (never_closed self.old) 0 }
        ensures rest { never_closed self.new ≡ drop 1 (never_closed self.old) }
    {
        while let Some(opened) = self.items.pop_back() {
            if let Some(found) = unclosed(opened) {
                return Some(found);
            }
        }
        None
    }
}
