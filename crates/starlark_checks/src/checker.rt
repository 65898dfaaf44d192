//! The checker of a text's lexemes.

ghost use Rattle.std.specs.Prelude.{◌≡◌, ◌∷◌, ℕ, [], Bool, IfOk, List, None, OnErr, OnOk, drop, false, true};
ghost use Rattle.starlark_checks.specs.declared.open_stack.Opened.{Opened};
ghost use Rattle.std.specs.List.{slice_get};
ghost use Rattle.starlark_checks.specs.Findings.{Fault, Lexeme, Passed, Text, after_number, finding, found_by, has_line_end, open_brackets, span_of_number};
ghost use Rattle.starlark_checks.specs.Inner.CheckerViews.{HasPassed, advanced, noted};
ghost use Rattle.starlark_checks.specs.OpenStack.{never_closed, opens};
ghost use Rattle.starlark_checks.specs.TokenRoles.{role_of};
ghost use Rattle.starlark_token.specs.TokenViews.{token_view};

use crate::check::{Check, Finding};
use crate::merge_markers::marker_at;
use crate::open_stack::{OpenStack, at_closing};
use crate::token_roles::{Role, role_of};
use starlark_token::tokens::Token;
use std::alloc::{AllocError, Global};

/// A checker of the lexemes of a text, which are passed in order.
#[derive(Drop)]
pub struct Checker {
    stack: OpenStack,
    /// The span of the last lexeme, if that is a number and follows no fault.
    number: Option<(usize, usize)>,
    /// Where the last lexeme ends.
    last_end: usize,
    /// Where the last lexeme begins that has a line end in it or right before it, of those in an
    /// expression that has to end on its line.
    line_begin: usize,
    has_fault: bool,
    /// Whether a fault was passed last.
    follows_fault: bool,
}

/// Whether an LF is between two offsets of a text. It has none where these aren't offsets in order.
fn has_line_end(text: &[u8], from: usize, to: usize) -> bool
    ensures { result ≡ has_line_end text.now from to }
{
    from <= to && to <= text.len() && text[from..to].contains(&b'\n')
}

/// What is found at a number, name or keyword, by the number right before it.
fn after_number(number: Option<(usize, usize)>, begin: usize, end: usize) -> Option<Finding>
    ensures { result ≡ after_number number begin end }
{
    match number {
        Some((from, to)) if to == begin => Some(Finding::at(Check::NumberBeforeWord, from, end)),
        _ => None,
    }
}

/// The span of a lexeme, if it is a number; not of one right after a fault, since it may stand for that.
fn span_of_number(
    follows_fault: bool,
    role: &Role,
    begin: usize,
    end: usize,
) -> Option<(usize, usize)>
    ensures { result ≡ span_of_number follows_fault role.now begin end }
{
    match role {
        Role::Number if !follows_fault => Some((begin, end)),
        _ => None,
    }
}

impl Checker {
    /// A checker that has passed nothing. It doesn't allocate.
    pub fn new(alloc: Global) -> Checker
        ensures { (text : Text) → HasPassed text [] result }
    {
        Checker {
            stack: OpenStack::new(alloc),
            number: None,
            last_end: 0,
            line_begin: 0,
            has_fault: false,
            follows_fault: false,
        }
    }

    /// What is found at a lexeme.
    fn finding(&self, text: &[u8], role: &Role, begin: usize, end: usize) -> Option<Finding>
        ensures { result ≡ found_by text.now role.now begin end self.now.number self.now.has_fault self.now.line_begin self.now.stack }
    {
        match role {
            Role::Closing(shape) if !self.has_fault => {
                at_closing(*shape, self.stack.innermost(), self.line_begin, begin, end)
            }
            Role::Number | Role::Word => after_number(self.number, begin, end),
            Role::MarkerStart(byte) => marker_at(text, begin, *byte),
            _ => None,
        }
    }

    /// Notes a line end in a lexeme or right before it, where that may be a finding.
    #[inline(always)]
    fn note_line_end(&mut self, text: &[u8], begin: usize, end: usize)
        ensures { self.new ≡ noted text.now begin end self.old }
    {
        if self.stack.keeps_line() && has_line_end(text, self.last_end, end) {
            self.line_begin = begin;
        }
    }

    /// Whether something may be found at a lexeme.
    #[inline(always)]
    fn may_find(&self, role: &Role) -> bool
        ensures { (text : Text) (begin end line_at : ℕ) (is_after_fault : Bool) (stack : List Opened) → result ≡ false → found_by text role.now begin end self.now.number is_after_fault line_at stack ≡ None }
    {
        match role {
            Role::Closing(_) | Role::MarkerStart(_) => true,
            Role::Number | Role::Word => self.number.is_some(),
            _ => false,
        }
    }

    /// Stores what is known after a lexeme.
    ///
    /// After an `AllocError` the checker isn't known.
    #[inline(always)]
    fn advance(&mut self, role: &Role, begin: usize, end: usize) -> Result<(), AllocError>
        ensures passed { OnOk result (self.new ≡ advanced role.now begin end self.old) }
        ensures memory { OnErr result (opens role.now ≡ true) }
    {
        if !self.has_fault {
            self.stack.pass(role, begin, end)?;
        }
        self.number = span_of_number(self.follows_fault, role, begin, end);
        self.last_end = end;
        self.follows_fault = false;
        Ok(())
    }

    /// Passes a lexeme of the text, and returns what is found at it.
    ///
    /// After an `AllocError` the checker isn't known.
    #[tactic(auto, unfolding(crate::specs::Findings::finding))]
    pub fn pass(
        &mut self,
        text: &str,
        begin: usize,
        token: &Token,
        end: usize,
    ) -> Result<Option<Finding>, AllocError>
        ensures finding { (before : List Passed) → HasPassed text.now before self.old → IfOk result (λ found. found ≡ finding text.now before (record { begin = begin; node = token_view token.now; end = end })) }
        ensures passed { (before : List Passed) → HasPassed text.now before self.old → OnOk result (HasPassed text.now (Lexeme (record { begin = begin; node = token_view token.now; end = end }) ∷ before) self.new) }
        ensures memory { OnErr result (opens (role_of (token_view token.now)) ≡ true) }
    {
        let role = role_of(token);
        self.note_line_end(text.as_bytes(), begin, end);
        // Most lexemes end here, and no finding is moved for them (half of the time of all checks).
        if !self.may_find(&role) {
            self.advance(&role, begin, end)?;
            return Ok(None);
        }
        let found = self.finding(text.as_bytes(), &role, begin, end);
        self.advance(&role, begin, end)?;
        Ok(found)
    }

    /// Passes a fault. After it brackets and f-strings are no longer checked, since the lexer
    /// begins anew after most faults.
    pub fn pass_fault(&mut self)
        ensures { (text : Text) (before : List Passed) → HasPassed text before self.old → HasPassed text (Fault ∷ before) self.new }
    {
        self.stack.clear();
        self.number = None;
        self.has_fault = true;
        self.follows_fault = true;
    }

    /// The next bracket that is never closed, first to last, once the text has ended.
    #[tactic(auto, unfolding(crate::specs::Findings::open_brackets))]
    pub fn next_open(&mut self) -> Option<Finding>
        ensures all { (text : Text) (before : List Passed) → HasPassed text before self.old → never_closed self.old.stack ≡ open_brackets before }
        ensures first { result ≡ slice_get (never_closed self.old.stack) 0 }
        ensures rest { never_closed self.new.stack ≡ drop 1 (never_closed self.old.stack) }
    {
        self.stack.next_unclosed()
    }
}
