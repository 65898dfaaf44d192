//! An output that remembers whether its pipe was closed.

ghost use Rattle.std.specs.Prelude.{◌≡◌, false};

use std::io;
use std::io::{ErrorKind, Write};

/// An output, and whether a call of it failed since nobody reads its pipe any more.
#[derive(Drop)]
pub struct Piped<W> {
    output: W,
    is_closed: bool,
}

impl<W> Piped<W> {
    /// Wraps an output of which no call has failed.
    pub fn new(output: W) -> Piped<W>
        ensures output { result.output ≡ output }
        ensures open { result.is_closed ≡ false }
    {
        Piped {
            output,
            is_closed: false,
        }
    }

    /// Whether a call failed since nobody reads the pipe any more.
    pub fn is_closed(&self) -> bool
        ensures { result ≡ self.now.is_closed }
    {
        self.is_closed
    }

    /// Remembers whether a call failed since nobody reads the pipe any more.
    fn remember<T>(&mut self, called: &io::Result<T>)
        ensures { self.new.output ≡ self.old.output }
    {
        if let Err(error) = called {
            if error.kind() == ErrorKind::BrokenPipe {
                self.is_closed = true;
            }
        }
    }
}

impl<W: Write> Write for Piped<W> {
    ghost contents = { λ piped. W.contents piped.output };

    fn write(&mut self, buf: &[u8]) -> io::Result<usize> {
        let called = self.output.write(buf);
        self.remember(&called);
        called
    }

    fn flush(&mut self) -> io::Result<()> {
        let called = self.output.flush();
        self.remember(&called);
        called
    }
}
