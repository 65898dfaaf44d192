//! Reads the whole input of a reader.

ghost use Rattle.std.specs.Prelude.{◌≡◌, ◌+◌, ◌<◌, ◌≤◌, ◌||◌, ◌⊎◌, ℕ, List, length, take, drop, string_bytes, false, is_err, IfOk, OnOk};
ghost use Rattle.std.specs.Io.KnownBytes.{ReadConsumes};
ghost use Rattle.starlark_devices.specs.Calls.{Came};
ghost use Rattle.starlark_run.specs.Blocks.{ReadsInBlocks};
ghost use Rattle.starlark_run.specs.Runs.{IsRead};
ghost use Rattle.starlark_run.specs.Watch.{reads_end};

use crate::ends::{GREATEST_LEN, RunFault};
use crate::watched::Watched;
use starlark_devices::ReadDevice;
use std::alloc::{AllocError, Global};
use std::io;

/// Least room of a read, in bytes.
const CHUNK_LEN: usize = 65_536;

/// Makes room for a read after the first `filled` bytes, and keeps those.
fn make_room(bytes: &mut Vec<u8>, filled: usize) -> Result<(), AllocError>
    requires within { filled ≤ length bytes.old.items }
    requires fits { filled ≤ GREATEST_LEN }
    ensures within { filled ≤ length bytes.new.items }
    ensures room { OnOk result (filled + CHUNK_LEN ≤ length bytes.new.items) }
    ensures grown { OnOk result ((length bytes.new.items ≡ length bytes.old.items) ⊎ (filled + filled ≤ length bytes.new.items)) }
    ensures front { take filled bytes.new.items ≡ take filled bytes.old.items }
{
    if bytes.len() - filled < CHUNK_LEN {
        bytes.resize(filled.saturating_add(CHUNK_LEN.max(filled)), 0)?;
    }
    Ok(())
}

/// Reads once into the room after the first `filled` bytes, and keeps those.
fn read_after<R: ReadDevice>(
    reader: &mut Watched<R>,
    bytes: &mut Vec<u8>,
    filled: usize,
) -> io::Result<usize>
    requires { filled ≤ length bytes.old.items }
    ensures len { length bytes.new.items ≡ length bytes.old.items }
    ensures front { take filled bytes.new.items ≡ take filled bytes.old.items }
    ensures within { IfOk result (λ count. filled + count ≤ length bytes.new.items) }
    ensures bytes { ReadConsumes (R.calls.remaining reader.old.device) (R.calls.remaining reader.new.device) result (drop filled bytes.new.items) }
    ensures call { R.calls.read reader.old.device (drop filled bytes.new.items) result reader.new.device }
    ensures failed { reader.new.failed ≡ (reader.old.failed || is_err result) }
    ensures ended { reader.new.ended ≡ (reader.old.ended || reads_end result (drop filled bytes.new.items)) }
{
    let room = bytes.as_mut_slice();
    reader.read(&mut room[filled..])
}

/// Reads the whole input, in chunks, into one buffer that grows.
fn read_bytes<R: ReadDevice>(alloc: Global, reader: &mut Watched<R>) -> Result<Vec<u8>, RunFault>
    requires sound { reader.old.failed ≡ false }
    requires not_ended { reader.old.ended ≡ false }
    ensures read { (came : List ℕ) × Came R.calls reader.old.device reader.new.device reader.new.ended reader.new.failed came
        × IsRead (λ bytes. bytes.items) came reader.new result }
    ensures blocks { ReadsInBlocks R.calls reader.old.device reader.new.device }
{
    let mut bytes = Vec::new(alloc);
    let mut filled = 0;
    while filled <= GREATEST_LEN {
        make_room(&mut bytes, filled)?;
        match read_after(reader, &mut bytes, filled) {
            Err(_) => return Err(RunFault::Read),
            Ok(0) => {
                bytes.truncate(filled);
                return Ok(bytes);
            }
            Ok(count) => filled += count,
        }
    }
    Err(RunFault::TooLong)
}

/// Reads the whole input as a UTF-8 text.
///
/// Fails with `Read` where a read fails, `TooLong` after more than `GREATEST_LEN` bytes, `Memory`
/// where memory runs out before the end, and `NotUtf8`.
pub fn read_text<R: ReadDevice>(alloc: Global, reader: &mut Watched<R>) -> Result<String, RunFault>
    requires sound { reader.old.failed ≡ false }
    requires not_ended { reader.old.ended ≡ false }
    ensures read { (came : List ℕ) × Came R.calls reader.old.device reader.new.device reader.new.ended reader.new.failed came
        × IsRead string_bytes came reader.new result }
    ensures blocks { ReadsInBlocks R.calls reader.old.device reader.new.device }
{
    let bytes = read_bytes(alloc, reader)?;
    String::from_utf8(bytes).map_err(|_| RunFault::NotUtf8)
}
