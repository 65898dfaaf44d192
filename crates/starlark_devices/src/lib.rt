//! Readers and writers whose contracts state each call.
#![tactic(auto)]

ghost use Rattle.std.specs.Prelude.{◌≡◌};
ghost use Rattle.std.specs.Io.{ReadsAtMost, WritesAtMost};
ghost use Rattle.std.specs.Io.KnownBytes.{Keeps, ReadConsumes, WriteAppends};
ghost use Rattle.starlark_devices.specs.Calls.{OffersText, ReaderCalls, WriterCalls, WritesText, std_reader, std_writer};

use std::io;
use std::io::{ErrorKind, Read, Write};

/// A reader whose contract states what each call does. Each `std::io::Read` is one.
///
/// A function over all such readers knows only that each step of `calls` is one call of
/// `read_once`. So a contract that names a step says that there was one call, and what it returned.
pub trait ReadDevice {
    ghost calls: { ReaderCalls Self };

    /// Reads once, as `std::io::Read::read` does.
    fn read_once(&mut self, buf: &mut [u8]) -> io::Result<usize>
        ensures bound { ReadsAtMost result buf.new }
        ensures bytes { ReadConsumes (calls.remaining self.old) (calls.remaining self.new) result buf.new }
        ensures call { calls.read self.old buf.new result self.new };
}

impl<R: Read> ReadDevice for R {
    ghost calls = { std_reader R.remaining };

    fn read_once(&mut self, buf: &mut [u8]) -> io::Result<usize> {
        self.read(buf)
    }
}

/// A writer whose contract states what each call does. Each `std::io::Write` is one.
///
/// A function over all such writers knows only that each step of `calls` is one call of
/// `write_once` or `flush_once`.
pub trait WriteDevice {
    ghost calls: { WriterCalls Self };

    /// Writes once, as `std::io::Write::write` does.
    fn write_once(&mut self, piece: &[u8]) -> io::Result<usize>
        ensures bound { WritesAtMost result piece.now }
        ensures bytes { WriteAppends (calls.contents self.old) (calls.contents self.new) result piece.now }
        ensures call { calls.write self.old piece.now result self.new };

    /// Flushes once, as `std::io::Write::flush` does.
    fn flush_once(&mut self) -> io::Result<()>
        ensures bytes { Keeps (calls.contents self.old) (calls.contents self.new) }
        ensures call { calls.flush self.old result self.new };
}

impl<W: Write> WriteDevice for W {
    ghost calls = { std_writer W.contents };

    fn write_once(&mut self, piece: &[u8]) -> io::Result<usize> {
        self.write(piece)
    }

    fn flush_once(&mut self) -> io::Result<()> {
        self.flush()
    }
}

/// Writes all bytes to a writer, in as many calls as it needs, and doesn't flush it.
///
/// Each call is offered all that is left. Fails at the first call that fails, with its error, or that
/// takes nothing, with `WriteZero`. That call is the last one.
#[tactic(auto, unfolding(crate::specs::Calls::WritesText))]
pub fn write_all<W: WriteDevice>(writer: &mut W, bytes: &[u8]) -> io::Result<()>
    ensures text { WritesText W.calls writer.old writer.new bytes.now result }
    ensures offers { OffersText W.calls writer.old writer.new bytes.now result }
{
    let mut written = 0;
    while written < bytes.len() {
        match writer.write_once(&bytes[written..]) {
            Ok(0) => return Err(io::Error::from(ErrorKind::WriteZero)),
            Err(error) => return Err(error),
            Ok(count) => written += count,
        }
    }
    Ok(())
}
