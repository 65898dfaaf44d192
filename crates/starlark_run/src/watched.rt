//! A wrapper of a reader or writer that remembers whether it failed, and whether a reader ended.

ghost use Rattle.std.specs.Prelude.{◌≡◌, ◌||◌, true, false, is_err};
ghost use Rattle.std.specs.Io.{ReadsAtMost, WritesAtMost};
ghost use Rattle.std.specs.Io.KnownBytes.{Keeps, ReadConsumes, WriteAppends};
ghost use Rattle.starlark_devices.specs.Calls.{OffersText, WritesText};
ghost use Rattle.starlark_run.specs.Watch.{reads_end, fails_to_write};

use starlark_devices::{ReadDevice, WriteDevice, write_all};
use std::io;
use std::marker::Model;

/// A reader or writer, with two flags: whether a call of it failed, and whether a reader ended.
///
/// Once a flag is set it stays set.
#[derive(Drop)]
pub struct Watched<D> {
    device: D,
    failed: bool,
    ended: bool,
}

impl<D> Model for Watched<D> {
    ghost use Rattle.starlark_run.specs.Watch.{Watch};

    ghost Value = { Watch D };

    ghost view = { λ w. record { device = w.device; failed = w.failed; ended = w.ended } };
}

impl<D> Watched<D> {
    /// Wraps a reader or writer, with both flags unset.
    pub fn new(device: D) -> Watched<D>
        ensures device { result.device ≡ device }
        ensures failed { result.failed ≡ false }
        ensures ended { result.ended ≡ false }
    {
        Watched {
            device,
            failed: false,
            ended: false,
        }
    }

    /// Whether a call failed, or a write of a piece that isn't empty took nothing.
    pub fn failed(&self) -> bool
        ensures { result ≡ self.now.failed }
    {
        self.failed
    }

    /// Whether the input ended: a read into a buffer that isn't empty returned 0 bytes.
    pub fn ended(&self) -> bool
        ensures { result ≡ self.now.ended }
    {
        self.ended
    }

    /// The reader or writer.
    pub fn device(&self) -> &D
        ensures { result.now ≡ self.now.device }
    {
        &self.device
    }
}

impl<D: ReadDevice> Watched<D> {
    /// Reads by one call of the reader, as `std::io::Read::read` does, and returns its result.
    ///
    /// A call that failed isn't tried again.
    pub fn read(&mut self, buf: &mut [u8]) -> io::Result<usize>
        ensures bound { ReadsAtMost result buf.new }
        ensures bytes { ReadConsumes (D.calls.remaining self.old.device) (D.calls.remaining self.new.device) result buf.new }
        ensures call { D.calls.read self.old.device buf.new result self.new.device }
        ensures failed { self.new.failed ≡ (self.old.failed || is_err result) }
        ensures ended { self.new.ended ≡ (self.old.ended || reads_end result buf.new) }
    {
        let result = self.device.read_once(buf);
        match &result {
            Ok(count) => {
                if *count == 0 && !buf.is_empty() {
                    self.ended = true;
                }
            }
            Err(_) => self.failed = true,
        }
        result
    }
}

impl<D: WriteDevice> Watched<D> {
    /// Writes by one call of the writer, as `std::io::Write::write` does, and returns its result.
    ///
    /// A call that failed isn't tried again.
    pub fn write(&mut self, buf: &[u8]) -> io::Result<usize>
        ensures bound { WritesAtMost result buf.now }
        ensures bytes { WriteAppends (D.calls.contents self.old.device) (D.calls.contents self.new.device) result buf.now }
        ensures call { D.calls.write self.old.device buf.now result self.new.device }
        ensures failed { self.new.failed ≡ (self.old.failed || fails_to_write result buf.now) }
        ensures ended { self.new.ended ≡ self.old.ended }
    {
        let result = self.device.write_once(buf);
        match &result {
            Ok(count) => {
                if *count == 0 && !buf.is_empty() {
                    self.failed = true;
                }
            }
            Err(_) => self.failed = true,
        }
        result
    }

    /// Writes all bytes by as many calls of the writer as it needs, and doesn't flush it.
    ///
    /// Each call is offered all that is left. Fails at the first call that fails, or that takes
    /// nothing. That call is the last one.
    pub fn write_all(&mut self, bytes: &[u8]) -> io::Result<()>
        ensures text { WritesText D.calls self.old.device self.new.device bytes.now result }
        ensures offers { OffersText D.calls self.old.device self.new.device bytes.now result }
        ensures failed { self.new.failed ≡ (self.old.failed || is_err result) }
        ensures ended { self.new.ended ≡ self.old.ended }
    {
        let result = write_all(&mut self.device, bytes);
        self.failed = self.failed || result.is_err();
        result
    }

    /// Flushes by one call of the writer, as `std::io::Write::flush` does, and returns its result.
    ///
    /// A call that failed isn't tried again.
    pub fn flush(&mut self) -> io::Result<()>
        ensures bytes { Keeps (D.calls.contents self.old.device) (D.calls.contents self.new.device) }
        ensures call { D.calls.flush self.old.device result self.new.device }
        ensures failed { self.new.failed ≡ (self.old.failed || is_err result) }
        ensures ended { self.new.ended ≡ self.old.ended }
    {
        let result = self.device.flush_once();
        if result.is_err() {
            self.failed = true;
        }
        result
    }
}
