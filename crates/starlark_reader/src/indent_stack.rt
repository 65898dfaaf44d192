//! The indentation stack.

ghost use Rattle.std.specs.Prelude.{◌≡◌, ◌∷◌, ◌++◌, ◌≤◌, ℕ, List, [], length, take, OnOk};
ghost use Rattle.starlark_reader.specs.Inner.MarginViews.{IsClosed, greatest_of};

use std::alloc::{AllocError, Global};
use std::marker::Model;

/// The indentation stack: the open indents as widths in spaces, the least first.
///
/// A content line reads those that it closes and one more, so the cost of all lines is linear. In a
/// contract it is the list of widths.
#[derive(Drop)]
pub struct IndentStack {
    widths: Vec<usize>,
}

impl Model for IndentStack {
    ghost Value = { List ℕ };

    ghost view = { λ levels. levels.widths.items };
}

impl IndentStack {
    /// An empty stack. It doesn't allocate.
    pub(crate) fn new(alloc: Global) -> Self
        ensures { result ≡ [] }
    {
        IndentStack {
            widths: Vec::new(alloc),
        }
    }

    /// Number of open indents.
    pub(crate) fn len(&self) -> usize
        ensures { result ≡ length self.now }
    {
        self.widths.len()
    }

    /// The greatest open width; 0 if none is open.
    #[inline(always)]
    pub(crate) fn greatest(&self) -> usize
        ensures { result ≡ greatest_of self.now }
    {
        self.widths.last().copied().unwrap_or(0)
    }

    /// The greatest of the first `count` open widths; 0 if `count` is 0.
    #[inline(always)]
    fn greatest_of(&self, count: usize) -> usize
        requires { count ≤ length self.now }
        ensures { result ≡ greatest_of (take count self.now) }
    {
        if count == 0 {
            0
        } else {
            self.widths[count - 1]
        }
    }

    /// Opens an indent, whose width must be greater than every open one.
    ///
    /// After an `AllocError` the stack isn't known.
    #[inline(always)]
    pub(crate) fn open(&mut self, width: usize) -> Result<(), AllocError>
        ensures { OnOk result (self.new ≡ self.old ++ width ∷ []) }
    {
        self.widths.push(width)?;
        Ok(())
    }

    /// Closes the indents of greater widths than `width`, and returns their number. Returns `None`, and
    /// closes none, if `width` is neither that of an open indent nor 0.
    #[inline(always)]
    pub(crate) fn close(&mut self, width: usize) -> Option<usize>
        ensures { IsClosed width self.old self.new result }
    {
        let mut left = self.widths.len();
        while self.greatest_of(left) > width {
            left -= 1;
        }
        if self.greatest_of(left) != width {
            return None;
        }
        let closed = self.widths.len() - left;
        self.widths.truncate(left);
        Some(closed)
    }
}
