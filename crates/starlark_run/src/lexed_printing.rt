//! Prints the lexemes of a lexed text.

ghost use Rattle.std.specs.Prelude.{◌≡◌, ◌≤◌, ◌++◌, false, length, IfOk, OnOk};
ghost use Rattle.starlark_base.specs.Sources.{SourceFile};
ghost use Rattle.starlark_grammar.specs.Reading.{outcome};
ghost use Rattle.starlark_lexed_text.specs.LexedTexts.{IsLexed};
ghost use Rattle.starlark_run.specs.Blocks.{WritesInBlocks, block_len};
ghost use Rattle.starlark_run.specs.Output.{output};
ghost use Rattle.starlark_run.specs.Runs.{status_of};
ghost use Rattle.starlark_run.specs.Inner.BufferedWrites.{SendsBy};
ghost use Rattle.starlark_run.specs.Writing.{Writes, WritesAll};

use crate::ends::{RunFault, RunStatus};
use crate::printer::Printer;
use crate::watched::Watched;
use starlark_base::position::Position;
use starlark_devices::WriteDevice;
use starlark_syntax::lexer::LexedText;
use std::alloc::Global;

/// Prints the lines of a lexed text, without the last write and flush.
///
/// Returns whether the text has a fault.
fn put_lexed<W: WriteDevice>(
    printer: &mut Printer,
    writer: &mut Watched<W>,
    name: &str,
    lexed: &LexedText<'_>,
) -> Result<RunStatus, RunFault>
    requires sound { writer.old.failed ≡ false }
    requires held { length printer.old.buffer ≤ block_len }
    requires lexed { (file : SourceFile) × IsLexed file lexed.now }
    ensures writes { Writes W.calls writer.old writer.new (printer.old.buffer ++ output name.now lexed.now.text) printer.new.buffer result }
    ensures held { OnOk result (length printer.new.buffer ≤ block_len) }
    ensures blocks { SendsBy W.calls writer.old.device writer.new.device (length printer.old.buffer) (length printer.new.buffer) result }
    ensures status { IfOk result (λ status. status ≡ status_of (outcome lexed.now.text).fault) }
{
    let text = lexed.text();
    let mut place = Position::START;
    for lexeme in lexed.lexemes() {
        place = printer.put_lexeme(writer, text, place, lexeme)?;
    }
    let Some(exception) = lexed.fault() else {
        return Ok(RunStatus::Clean);
    };
    printer.exception(writer, name, text, place, exception)?;
    Ok(RunStatus::Fault)
}

/// Prints the whole output for the lexed text `name`, flushes, and returns whether it has a fault.
pub fn print_lexed<W: WriteDevice>(
    alloc: Global,
    name: &str,
    lexed: &LexedText<'_>,
    writer: &mut Watched<W>,
) -> Result<RunStatus, RunFault>
    requires sound { writer.old.failed ≡ false }
    requires lexed { (file : SourceFile) × IsLexed file lexed.now }
    ensures writes { WritesAll W.calls writer.old writer.new (output name.now lexed.now.text) result }
    ensures blocks { WritesInBlocks W.calls writer.old.device writer.new.device }
    ensures status { IfOk result (λ status. status ≡ status_of (outcome lexed.now.text).fault) }
{
    let mut printer = Printer::new(alloc)?;
    let status = put_lexed(&mut printer, writer, name, lexed)?;
    printer.buffer.finish(writer)?;
    Ok(status)
}
