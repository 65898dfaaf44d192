//! Prints the lexemes of a text, each as the lexer yields it.

ghost use Rattle.std.specs.Prelude.{◌≡◌, ◌≤◌, ◌++◌, [], length, false, None, IfOk, IfErr, OnOk};
ghost use Rattle.starlark_grammar.specs.Reading.{outcome};
ghost use Rattle.starlark_run.specs.Edits.{greatest_len};
ghost use Rattle.starlark_run.specs.Blocks.{WritesInBlocks, block_len};
ghost use Rattle.starlark_run.specs.Output.{output};
ghost use Rattle.starlark_run.specs.Runs.{status_of};
ghost use Rattle.starlark_run.specs.Inner.BufferedWrites.{SendsBy};
ghost use Rattle.starlark_run.specs.Writing.{Writes, WritesAll};
ghost use Rattle.starlark_run.specs.declared.ends.RunFault.TheVariants.{Memory};

use crate::ends::{RunFault, RunStatus};
use crate::printer::{Printer, empty_file};
use crate::watched::Watched;
use starlark_base::codemap::{OrMemory, SourceTooLong};
use starlark_base::position::Position;
use starlark_devices::WriteDevice;
use starlark_syntax::lexer::Lexer;
use starlark_text::dialect::Dialect;
use std::alloc::Global;

/// Prints the lines of a text, without the last write and flush, and returns its status.
///
/// The lexer must have yielded nothing yet.
fn put_items<W: WriteDevice>(
    printer: &mut Printer,
    writer: &mut Watched<W>,
    name: &str,
    text: &str,
    lexer: &mut Lexer<'_>,
) -> Result<RunStatus, RunFault>
    requires sound { writer.old.failed ≡ false }
    requires held { length printer.old.buffer ≤ block_len }
    requires fresh { lexer.old ≡ record { text = text.now; code_map = lexer.old.code_map; yielded_count = 0; has_ended = false; reads = 0; cut = None } }
    ensures writes { Writes W.calls writer.old writer.new (printer.old.buffer ++ output name.now text.now) printer.new.buffer result }
    ensures held { OnOk result (length printer.new.buffer ≤ block_len) }
    ensures blocks { SendsBy W.calls writer.old.device writer.new.device (length printer.old.buffer) (length printer.new.buffer) result }
    ensures status { IfOk result (λ status. status ≡ status_of (outcome text.now).fault) }
{
    let mut place = Position::START;
    while let Some(item) = lexer.next() {
        match item {
            Ok(lexeme) => place = printer.lexeme(writer, text, place, lexeme)?,
            Err(OrMemory::Error(exception)) => {
                printer.exception(writer, name, text, place, &exception)?;
                return Ok(RunStatus::Fault);
            }
            Err(OrMemory::Memory) => return Err(RunFault::Memory),
        }
    }
    Ok(RunStatus::Clean)
}

/// A lexer of a text, with a code map of an empty text, so that no index of lines is made.
fn lexer_of(alloc: Global, text: &str) -> Result<Lexer<'_>, RunFault>
    requires { length text.now ≤ greatest_len }
    ensures made { IfOk result (λ lexer. lexer ≡ record { text = text.now; code_map = record { id = 0; filename = []; source = [] }; yielded_count = 0; has_ended = false; reads = 0; cut = None }) }
    ensures refused { IfErr result (λ fault. fault ≡ Memory) }
{
    let file = empty_file(alloc)?;
    match Lexer::new(alloc, text, &Dialect::Extended, file) {
        Ok(lexer) => Ok(lexer),
        Err(SourceTooLong) => Err(RunFault::TooLong),
    }
}

/// Prints the whole output for the text `name`, flushes, and returns whether the text has a fault.
pub fn print<W: WriteDevice>(
    alloc: Global,
    name: &str,
    text: &str,
    writer: &mut Watched<W>,
) -> Result<RunStatus, RunFault>
    requires sound { writer.old.failed ≡ false }
    requires fits { length text.now ≤ greatest_len }
    ensures writes { WritesAll W.calls writer.old writer.new (output name.now text.now) result }
    ensures blocks { WritesInBlocks W.calls writer.old.device writer.new.device }
    ensures status { IfOk result (λ status. status ≡ status_of (outcome text.now).fault) }
{
    let mut lexer = lexer_of(alloc, text)?;
    let mut printer = Printer::new(alloc)?;
    let status = put_items(&mut printer, writer, name, text, &mut lexer)?;
    printer.buffer.finish(writer)?;
    Ok(status)
}
