//! A buffer before a writer.

ghost use Rattle.std.specs.Prelude.{◌≡◌, ◌≤◌, ◌+◌, ◌-◌, ◌⊎◌, ◌++◌, [], false, length, min, IfOk, OnOk};
ghost use Rattle.starlark_devices.specs.Calls.{OffersText};
ghost use Rattle.starlark_run.specs.Inner.BufferedWrites.{Sends, SendsBy};
ghost use Rattle.starlark_run.specs.Writing.{Writes, WritesAll};

use crate::ends::RunFault;
use crate::watched::Watched;
use starlark_devices::WriteDevice;
use std::alloc::{AllocError, Global};
use std::marker::Model;

/// Capacity of a buffer, in bytes.
const BUFFER_LEN: usize = 65_536;

/// Bytes that are pending for a writer. In a contract it is the list of them.
#[derive(Drop)]
pub struct Buffer {
    waiting: Vec<u8>,
}

impl Model for Buffer {
    ghost use Rattle.std.specs.Prelude.{List, ℕ};

    ghost Value = { List ℕ };

    ghost view = { λ buffer. buffer.waiting.items };
}

/// Writes all bytes. Fails with `Write` at the first call that fails or takes nothing.
#[tactic(auto, unfolding(crate::specs::Writing::Writes))]
fn write_all<W: WriteDevice>(writer: &mut Watched<W>, bytes: &[u8]) -> Result<(), RunFault>
    requires { writer.old.failed ≡ false }
    ensures writes { Writes W.calls writer.old writer.new bytes.now [] result }
    ensures offers { OffersText W.calls writer.old.device writer.new.device bytes.now result }
{
    match writer.write_all(bytes) {
        Ok(()) => Ok(()),
        Err(_) => Err(RunFault::Write),
    }
}

impl Buffer {
    /// An empty buffer of 64 KiB. `AllocError` where memory runs out.
    pub fn new(alloc: Global) -> Result<Buffer, AllocError>
        ensures { IfOk result (λ buffer. buffer ≡ []) }
    {
        let waiting = Vec::with_capacity(alloc, BUFFER_LEN)?;
        Ok(Buffer { waiting })
    }

    /// Writes the pending bytes, and empties the buffer.
    #[tactic(auto, unfolding(crate::specs::Writing::Writes))]
    fn send<W: WriteDevice>(&mut self, writer: &mut Watched<W>) -> Result<(), RunFault>
        requires sound { writer.old.failed ≡ false }
        requires held { length self.old ≤ BUFFER_LEN }
        ensures writes { Writes W.calls writer.old writer.new self.old [] result }
        ensures blocks { SendsBy W.calls writer.old.device writer.new.device (length self.old) (BUFFER_LEN - length self.old) result }
        ensures empty { OnOk result (self.new ≡ []) }
    {
        write_all(writer, self.waiting.as_slice())?;
        self.waiting.clear();
        Ok(())
    }

    /// Makes room for `len` bytes, or empties the buffer where they are more than it holds.
    #[tactic(auto, unfolding(crate::specs::Writing::Writes))]
    fn make_room<W: WriteDevice>(
        &mut self,
        writer: &mut Watched<W>,
        len: usize,
    ) -> Result<(), RunFault>
        requires sound { writer.old.failed ≡ false }
        requires held { length self.old ≤ BUFFER_LEN }
        ensures room { OnOk result ((self.new ≡ []) ⊎ (length self.new + len ≤ BUFFER_LEN)) }
        ensures writes { Writes W.calls writer.old writer.new self.old self.new result }
        ensures blocks { SendsBy W.calls writer.old.device writer.new.device (length self.old) (length self.new + min len BUFFER_LEN) result }
    {
        if len >= BUFFER_LEN || self.waiting.len() > BUFFER_LEN - len {
            return self.send(writer);
        }
        Ok(())
    }

    /// Appends a text to the pending bytes. One that fills the buffer is written without a copy.
    pub fn put<W: WriteDevice>(
        &mut self,
        writer: &mut Watched<W>,
        text: &[u8],
    ) -> Result<(), RunFault>
        requires sound { writer.old.failed ≡ false }
        requires held { length self.old ≤ BUFFER_LEN }
        ensures held { OnOk result (length self.new ≤ BUFFER_LEN) }
        ensures writes { Writes W.calls writer.old writer.new (self.old ++ text.now) self.new result }
        ensures blocks { SendsBy W.calls writer.old.device writer.new.device (length self.old) (length self.new) result }
    {
        self.make_room(writer, text.len())?;
        if self.waiting.is_empty() && text.len() >= BUFFER_LEN {
            return write_all(writer, text);
        }
        self.waiting.extend_from_slice(text)?;
        Ok(())
    }

    /// Writes the pending bytes, and flushes the writer.
    pub fn finish<W: WriteDevice>(&mut self, writer: &mut Watched<W>) -> Result<(), RunFault>
        requires sound { writer.old.failed ≡ false }
        requires held { length self.old ≤ BUFFER_LEN }
        ensures writes { WritesAll W.calls writer.old writer.new self.old result }
        ensures blocks { Sends W.calls writer.old.device writer.new.device (length self.old) BUFFER_LEN }
    {
        self.send(writer)?;
        match writer.flush() {
            Ok(()) => Ok(()),
            Err(_) => Err(RunFault::Write),
        }
    }
}
