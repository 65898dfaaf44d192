//! Prints the lines of lexemes and of a fault through a buffer.

ghost use Rattle.std.specs.Prelude.{◌≡◌, ◌≤◌, ◌++◌, [], false, length, Some, IfOk, IfErr, IsSome, OnOk};
ghost use Rattle.std.specs.Str.{IsCharBoundary};
ghost use Rattle.starlark_base.specs.Sources.{SourceFile};
ghost use Rattle.starlark_errors.specs.Errors.{kind_text};
ghost use Rattle.starlark_errors.specs.Exceptions.{IsFaultIn};
ghost use Rattle.starlark_grammar.specs.Reading.{outcome};
ghost use Rattle.starlark_run.specs.Blocks.{block_len};
ghost use Rattle.starlark_run.specs.Inner.BufferedWrites.{SendsBy};
ghost use Rattle.starlark_run.specs.Inner.FaultLine.{fault_lines};
ghost use Rattle.starlark_run.specs.Output.{fault_text, item_line, place_text};
ghost use Rattle.starlark_base.specs.Positions.{IsPosition};
ghost use Rattle.starlark_run.specs.Writing.{Writes};
ghost use Rattle.starlark_run.specs.declared.ends.RunFault.TheVariants.{Memory};
ghost use Rattle.starlark_token.specs.Lexemes.{lexeme_view};
ghost use Rattle.starlark_token.specs.TextItems.{Given};

use crate::buffer::Buffer;
use crate::ends::RunFault;
use crate::lexeme_lines::{fault_line, lexeme_line};
use crate::watched::Watched;
use starlark_base::codemap::{CodeMap, CodeMapId, OrMemory, SourceTooLong, Span};
use starlark_base::position::Position;
use starlark_devices::WriteDevice;
use starlark_syntax::error::ErrorKind;
use starlark_syntax::eval_exception::EvalException;
use starlark_token::tokens::Token;
use std::alloc::{AllocError, Global};

/// A printer of lexemes and faults: one line in the making, and a buffer of pending lines.
#[derive(Drop)]
pub struct Printer {
    line: String,
    /// The lines that are pending for the writer.
    pub buffer: Buffer,
}

impl Printer {
    /// A printer without pending lines. `AllocError` where memory for its buffer runs out.
    pub fn new(alloc: Global) -> Result<Printer, AllocError>
        ensures { IfOk result (λ printer. printer.buffer ≡ []) }
    {
        let buffer = Buffer::new(alloc)?;
        Ok(Printer {
            line: String::new(alloc),
            buffer,
        })
    }

    /// Prints the line of a lexeme, and returns the position at its end.
    ///
    /// `place` must not be after the lexeme's begin.
    pub fn put_lexeme<W: WriteDevice>(
        &mut self,
        writer: &mut Watched<W>,
        text: &str,
        place: Position,
        lexeme: &(usize, Token, usize),
    ) -> Result<Position, RunFault>
        requires sound { writer.old.failed ≡ false }
        requires held { length self.old.buffer ≤ block_len }
        requires here { IsPosition text.now place }
        requires onward { place.at ≤ lexeme.now.0 }
        requires order { lexeme.now.0 ≤ lexeme.now.2 }
        requires begin { IsCharBoundary text.now lexeme.now.0 }
        requires end { IsCharBoundary text.now lexeme.now.2 }
        ensures writes { Writes W.calls writer.old writer.new
            (self.old.buffer ++ item_line [] text.now (Given (lexeme_view lexeme.now))) self.new.buffer result }
        ensures held { OnOk result (length self.new.buffer ≤ block_len) }
        ensures blocks { SendsBy W.calls writer.old.device writer.new.device (length self.old.buffer) (length self.new.buffer) result }
        ensures at { IfOk result (λ place. place.at ≡ lexeme.now.2) }
        ensures place { IfOk result (λ place. IsPosition text.now place) }
    {
        let (begin, token, end) = lexeme;
        let begin = place.moved(text, *begin);
        let end = begin.moved(text, *end);
        lexeme_line(&mut self.line, begin, token, end)?;
        self.buffer.put(writer, self.line.as_bytes())?;
        Ok(end)
    }

    /// Prints the line of a lexeme, drops the lexeme, and returns the position at its end.
    ///
    /// `place` must not be after the lexeme's begin.
    pub fn lexeme<W: WriteDevice>(
        &mut self,
        writer: &mut Watched<W>,
        text: &str,
        place: Position,
        lexeme: (usize, Token, usize),
    ) -> Result<Position, RunFault>
        requires sound { writer.old.failed ≡ false }
        requires held { length self.old.buffer ≤ block_len }
        requires here { IsPosition text.now place }
        requires onward { place.at ≤ lexeme.0 }
        requires order { lexeme.0 ≤ lexeme.2 }
        requires begin { IsCharBoundary text.now lexeme.0 }
        requires end { IsCharBoundary text.now lexeme.2 }
        ensures writes { Writes W.calls writer.old writer.new
            (self.old.buffer ++ item_line [] text.now (Given (lexeme_view lexeme))) self.new.buffer result }
        ensures held { OnOk result (length self.new.buffer ≤ block_len) }
        ensures blocks { SendsBy W.calls writer.old.device writer.new.device (length self.old.buffer) (length self.new.buffer) result }
        ensures at { IfOk result (λ place. place.at ≡ lexeme.2) }
        ensures place { IfOk result (λ place. IsPosition text.now place) }
    {
        self.put_lexeme(writer, text, place, &lexeme)
    }

    /// Prints the line of a fault of the text `name`. The fault may begin before `place`.
    fn fault<W: WriteDevice>(
        &mut self,
        writer: &mut Watched<W>,
        name: &str,
        text: &str,
        place: Position,
        span: Span,
        kind: &ErrorKind,
    ) -> Result<(), RunFault>
        requires sound { writer.old.failed ≡ false }
        requires held { length self.old.buffer ≤ block_len }
        requires here { IsPosition text.now place }
        requires order { span.begin ≤ span.end }
        requires begin { IsCharBoundary text.now span.begin }
        requires end { IsCharBoundary text.now span.end }
        ensures writes { Writes W.calls writer.old writer.new
            (self.old.buffer ++ fault_text span.begin span.end name.now (place_text text.now span.begin span.end) (kind_text kind.now)) self.new.buffer result }
        ensures held { OnOk result (length self.new.buffer ≤ block_len) }
        ensures blocks { SendsBy W.calls writer.old.device writer.new.device (length self.old.buffer) (length self.new.buffer) result }
    {
        let begin = Position::nearest(place, Position::START, text, span.begin().get() as usize);
        let end = begin.moved(text, span.end().get() as usize);
        fault_line(&mut self.line, name, begin, end, kind)?;
        self.buffer.put(writer, self.line.as_bytes())
    }

    /// Prints the line of an exception, which is the fault of the text `name`.
    ///
    /// The fault may begin before `place`.
    pub fn exception<W: WriteDevice>(
        &mut self,
        writer: &mut Watched<W>,
        name: &str,
        text: &str,
        place: Position,
        exception: &EvalException,
    ) -> Result<(), RunFault>
        requires sound { writer.old.failed ≡ false }
        requires held { length self.old.buffer ≤ block_len }
        requires here { IsPosition text.now place }
        requires thrown { (file : SourceFile) × IsFaultIn file (outcome text.now).fault (Some exception.now) }
        ensures writes { Writes W.calls writer.old writer.new (self.old.buffer ++ fault_lines name.now text.now) self.new.buffer result }
        ensures held { OnOk result (length self.new.buffer ≤ block_len) }
        ensures blocks { SendsBy W.calls writer.old.device writer.new.device (length self.old.buffer) (length self.new.buffer) result }
    {
        let span = exception.error().span().unwrap().span;
        self.fault(writer, name, text, place, span, exception.error().kind())
    }
}

/// A code map of an empty text, for faults of which only the span's bytes are used.
pub fn empty_file(alloc: Global) -> Result<CodeMap, RunFault>
    ensures made { IfOk result (λ file. file ≡ record { id = 0; filename = []; source = [] }) }
    ensures refused { IfErr result (λ fault. fault ≡ Memory) }
{
    match CodeMap::new(
        alloc,
        CodeMapId::EMPTY,
        String::new(alloc),
        String::new(alloc),
    ) {
        Ok(file) => Ok(file),
        Err(OrMemory::Error(SourceTooLong)) => Err(RunFault::TooLong),
        Err(OrMemory::Memory) => Err(RunFault::Memory),
    }
}
