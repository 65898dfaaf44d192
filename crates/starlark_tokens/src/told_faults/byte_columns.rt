//! Columns in bytes that are known of a text, so that one at any offset is read from near there.

ghost use Rattle.std.specs.List.{after_last};
ghost use Rattle.std.specs.Prelude.{◌≡◌, ◌+◌, ◌<◌, ◌≤◌, ◌^◌, ◌++◌, IfOk, OnOk, length};
ghost use Rattle.std.specs.Str.{IsCharBoundary};
ghost use Rattle.starlark_base.specs.Places.{Text, is_lf};
ghost use Rattle.starlark_tokens.specs.Inner.ByteColumns.{AreColumns, IsColumn};
ghost use Rattle.starlark_tokens.specs.OutputFormats.ItemLines.{line_front};

use crate::output_formats::source_lines::boundary_from;
use std::alloc::{AllocError, Global};

/// Bytes of a part of a text whose first column is known.
const PART_LEN: usize = 1024;

/// An offset of a text, and its column in bytes.
#[derive(Clone, Copy)]
pub struct ByteColumn {
    at: usize,
    column: usize,
}

/// The column in bytes after a text, by that before it.
fn column_after(column: usize, passed: &str) -> usize
    requires { column + length passed.now < 2 ^ 64 }
    ensures { (front : Text) → column ≡ length (after_last is_lf front) → result ≡ length (after_last is_lf (front ++ passed.now)) }
{
    match passed.rfind('\n') {
        Some(last) => passed.len() - last - 1,
        None => column + passed.len(),
    }
}

impl ByteColumn {
    /// The column of the start of a text.
    const START: ByteColumn = ByteColumn { at: 0, column: 0 };

    /// The column at byte `to` of a text.
    fn moved(self, text: &str, to: usize) -> ByteColumn
        requires here { IsColumn text.now self }
        requires onward { self.at ≤ to }
        requires boundary { IsCharBoundary text.now to }
        ensures column { IsColumn text.now result }
        ensures at { result.at ≡ to }
    {
        ByteColumn {
            at: to,
            column: column_after(self.column, &text[self.at..to]),
        }
    }

    /// The column at byte `to` of a text, read from this one if it isn't after it.
    fn near(self, text: &str, to: usize) -> ByteColumn
        requires here { IsColumn text.now self }
        requires boundary { IsCharBoundary text.now to }
        ensures column { IsColumn text.now result }
        ensures at { result.at ≡ to }
    {
        if self.at <= to {
            self.moved(text, to)
        } else {
            ByteColumn::START.moved(text, to)
        }
    }
}

/// Columns in bytes that are known of a text: that of the start of each part, up to some offset.
#[derive(Drop)]
pub struct ByteColumns<'t> {
    text: &'t str,
    known: Vec<ByteColumn>,
}

impl<'t> ByteColumns<'t> {
    /// No column of a text.
    pub fn new(alloc: Global, text: &'t str) -> ByteColumns<'t>
        ensures text { result.text.now ≡ text.now }
        ensures known { AreColumns result }
    {
        ByteColumns {
            text,
            known: Vec::new(alloc),
        }
    }

    /// The last column that is known.
    fn last(&self) -> ByteColumn
        requires { AreColumns self.now }
        ensures { IsColumn self.now.text.now result }
    {
        if self.known.is_empty() {
            return ByteColumn::START;
        }
        self.known[self.known.len() - 1]
    }

    /// The column of the start of the next part.
    fn next(&self) -> ByteColumn
        requires { AreColumns self.now }
        ensures { IsColumn self.now.text.now result }
    {
        let begin = boundary_from(self.text, self.known.len().saturating_mul(PART_LEN));
        self.last().near(self.text, begin)
    }

    /// Reads on to the start of the next part.
    fn read_on(&mut self) -> Result<(), AllocError>
        requires known { AreColumns self.old }
        ensures known { OnOk result (AreColumns self.new) }
        ensures text { OnOk result (self.new.text.now ≡ self.old.text.now) }
        ensures longer { OnOk result (length self.new.known.items ≡ length self.old.known.items + 1) }
    {
        let next = self.next();
        self.known.push(next)?;
        Ok(())
    }

    /// The column at a byte.
    pub fn column(&mut self, at: usize) -> Result<usize, AllocError>
        requires known { AreColumns self.old }
        requires boundary { IsCharBoundary self.old.text.now at }
        ensures known { OnOk result (AreColumns self.new) }
        ensures text { OnOk result (self.new.text.now ≡ self.old.text.now) }
        ensures value { IfOk result (λ column. column ≡ length (line_front self.old.text.now at)) }
    {
        let part = at / PART_LEN;
        while self.known.len() <= part {
            self.read_on()?;
        }
        Ok(self.known[part].near(self.text, at).column)
    }
}
