//! Positions that are known of a text, so that one at any offset is read from near there.

ghost use Rattle.std.specs.Prelude.{◌≡◌, ◌+◌, IfOk, OnOk, length};
ghost use Rattle.starlark_base.specs.Positions.{IsPosition};
ghost use Rattle.starlark_tokens.specs.Inner.KnownPositions.{AreKnown};
ghost use Rattle.starlark_tokens.specs.OutputFormats.SourceLines.{boundary_from};

use crate::output_formats::source_lines::boundary_from;
use starlark_base::position::Position;
use std::alloc::{AllocError, Global};

/// Bytes of a part of a text whose first position is known.
const PART_LEN: usize = 1024;

/// Positions that are known of a text: that of the start of each part, up to some offset.
#[derive(Drop)]
pub struct KnownPositions<'t> {
    text: &'t str,
    known: Vec<Position>,
}

impl<'t> KnownPositions<'t> {
    /// No position of a text.
    pub fn new(alloc: Global, text: &'t str) -> KnownPositions<'t>
        ensures text { result.text.now ≡ text.now }
        ensures known { AreKnown result }
    {
        KnownPositions {
            text,
            known: Vec::new(alloc),
        }
    }

    /// The last position that is known.
    fn last(&self) -> Position
        requires { AreKnown self.now }
        ensures { IsPosition self.now.text.now result }
    {
        if self.known.is_empty() {
            return Position::START;
        }
        self.known[self.known.len() - 1]
    }

    /// The position of the start of the next part.
    fn next(&self) -> Position
        requires { AreKnown self.now }
        ensures { IsPosition self.now.text.now result }
    {
        let last = self.last();
        let begin = boundary_from(self.text, self.known.len().saturating_mul(PART_LEN));
        Position::nearest(last, last, self.text, begin)
    }

    /// Reads on to the start of the next part.
    fn read_on(&mut self) -> Result<(), AllocError>
        requires known { AreKnown self.old }
        ensures known { OnOk result (AreKnown self.new) }
        ensures text { OnOk result (self.new.text.now ≡ self.old.text.now) }
        ensures longer { OnOk result (length self.new.known.items ≡ length self.old.known.items + 1) }
    {
        let next = self.next();
        self.known.push(next)?;
        Ok(())
    }

    /// The position at a byte, or at the first one after it where a character begins.
    pub fn position_from(&mut self, at: usize) -> Result<Position, AllocError>
        requires known { AreKnown self.old }
        ensures known { OnOk result (AreKnown self.new) }
        ensures text { OnOk result (self.new.text.now ≡ self.old.text.now) }
        ensures value { IfOk result (λ position. position.at ≡ boundary_from self.old.text.now at) }
        ensures position { IfOk result (λ position. IsPosition self.old.text.now position) }
    {
        let begin = boundary_from(self.text, at);
        let part = begin / PART_LEN;
        while self.known.len() <= part {
            self.read_on()?;
        }
        let near = self.known[part];
        Ok(Position::nearest(near, near, self.text, begin))
    }
}
