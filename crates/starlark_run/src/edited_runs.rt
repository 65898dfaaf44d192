//! Reads a text, edits it, and prints the lexemes of the edited text.

ghost use Rattle.std.specs.Prelude.{◌≡◌, ◌↔◌, ℕ, List, true, false, OnOk, IfOk, IsErrOf};
ghost use Rattle.std.specs.Io.KnownBytes.{IsAtEnd};
ghost use Rattle.starlark_devices.specs.Calls.{Came};
ghost use Rattle.starlark_run.specs.Blocks.{ReadsInBlocks, WritesInBlocks};
ghost use Rattle.starlark_run.specs.Runs.{IsRun, ending_of};
ghost use Rattle.starlark_run.specs.Edits.{text_after};
ghost use Rattle.starlark_run.specs.Relexed.{AreLexed};

use crate::edited_texts::{relexed, versions_of};
use crate::ends::{RunFault, RunStatus};
use crate::input::read_text;
use crate::lexed_printing::print_lexed;
use crate::watched::Watched;
use starlark_base::edit::Edit;
use starlark_devices::{ReadDevice, WriteDevice};
use std::alloc::Global;

/// What `run_edits` printed, and what lexing the texts took.
#[derive(Debug, Drop)]
pub struct EditedRun {
    /// What was printed of the text after all edits.
    pub status: RunStatus,
    /// How often bytes were read, of the first text and of the text after each edit.
    pub reads: Vec<u64>,
}

/// Reads a text to its end, edits it, and prints what `run` prints for the edited text.
///
/// Each edit is one of the text after the edits before it. The first that doesn't fit is
/// `RunFault::BadEdit`; one that leaves more than 4294967295 bytes is `RunFault::TooLong`. Then
/// nothing is written: all edits are tried before anything is lexed. After each edit the text is
/// lexed again from the last cut before it on. The texts after all edits are in memory at once.
pub fn run_edits<R: ReadDevice, W: WriteDevice>(
    alloc: Global,
    name: &str,
    reader: &mut Watched<R>,
    edits: &[Edit<'_>],
    writer: &mut Watched<W>,
) -> Result<EditedRun, RunFault>
    requires reader_sound { reader.old.failed ≡ false }
    requires reader_not_ended { reader.old.ended ≡ false }
    requires writer_sound { writer.old.failed ≡ false }

    // What was read and written, by which calls, for each result. The text after each edit was
    // lexed from the one before it.
    ensures run { (came : List ℕ) × Came R.calls reader.old.device reader.new.device reader.new.ended reader.new.failed came
        × IsRun W.calls name.now came (text_after 0 came edits.now) reader.new writer.old writer.new (ending_of result)
        × IfOk result (λ edited. AreLexed came edits.now edited.reads.items) }

    // `Read` and `Write` are returned exactly if a call of the reader or writer failed.
    ensures read { IsErrOf result RunFault.Read ↔ (reader.new.failed ≡ true) }
    ensures write { IsErrOf result RunFault.Write ↔ (writer.new.failed ≡ true) }
    ensures ended { OnOk result (reader.new.ended ≡ true) }

    // The input was read to its end.
    ensures nothing_left { OnOk result (IsAtEnd (R.calls.remaining reader.new.device)) }

    // The devices were called by blocks.
    ensures reads_in_blocks { ReadsInBlocks R.calls reader.old.device reader.new.device }
    ensures writes_in_blocks { WritesInBlocks W.calls writer.old.device writer.new.device }
{
    let first = read_text(alloc, reader)?;
    let versions = versions_of(alloc, first.as_str(), edits)?;
    let last = relexed(alloc, first.as_str(), &versions)?;
    let status = print_lexed(alloc, name, &last.lexed, writer)?;
    Ok(EditedRun {
        status,
        reads: last.reads,
    })
}
