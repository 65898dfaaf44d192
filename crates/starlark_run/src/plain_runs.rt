//! Reads a text, and prints its lexemes and its first fault.

ghost use Rattle.std.specs.Prelude.{◌≡◌, ◌↔◌, ℕ, List, true, false, OnOk, Ok, IsErrOf};
ghost use Rattle.std.specs.Io.KnownBytes.{IsAtEnd};
ghost use Rattle.starlark_devices.specs.Calls.{Came};
ghost use Rattle.starlark_run.specs.Blocks.{ReadsInBlocks, WritesInBlocks};
ghost use Rattle.starlark_run.specs.Runs.{IsRun};

use crate::ends::{RunFault, RunStatus};
use crate::input::read_text;
use crate::printing::print;
use crate::watched::Watched;
use starlark_devices::{ReadDevice, WriteDevice};
use std::alloc::Global;

/// Reads a text to its end, and prints a line for each lexeme, and one for the first fault.
///
/// The line of a fault names the text as `name`. The writer isn't called before the whole input is
/// read and is UTF-8. After `RunFault::Write` a beginning of the output is written, and after
/// `RunFault::Memory` too if the reader ended. The flush is the writer's last call. A call that
/// fails is not tried again, and is the last one of its reader or writer.
pub fn run<R: ReadDevice, W: WriteDevice>(
    alloc: Global,
    name: &str,
    reader: &mut Watched<R>,
    writer: &mut Watched<W>,
) -> Result<RunStatus, RunFault>
    requires reader_sound { reader.old.failed ≡ false }
    requires reader_not_ended { reader.old.ended ≡ false }
    requires writer_sound { writer.old.failed ≡ false }

    // What was read and written, by which calls, for each result.
    ensures run { (came : List ℕ) × Came R.calls reader.old.device reader.new.device reader.new.ended reader.new.failed came
        × IsRun W.calls name.now came (Ok came) reader.new writer.old writer.new result }

    // `Read` and `Write` are returned exactly if a call of the reader or writer failed.
    ensures read { IsErrOf result RunFault.Read ↔ (reader.new.failed ≡ true) }
    ensures write { IsErrOf result RunFault.Write ↔ (writer.new.failed ≡ true) }
    ensures ended { OnOk result (reader.new.ended ≡ true) }

    // The input was read to its end.
    ensures nothing_left { OnOk result (IsAtEnd (R.calls.remaining reader.new.device)) }

    // The devices were called by blocks.
    ensures reads_in_blocks { ReadsInBlocks R.calls reader.old.device reader.new.device }
    ensures writes_in_blocks { WritesInBlocks W.calls writer.old.device writer.new.device }
{
    let text = read_text(alloc, reader)?;
    print(alloc, name, text.as_str(), writer)
}
