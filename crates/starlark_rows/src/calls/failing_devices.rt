//! A reader and a writer in memory, which fail, give nothing or take nothing as a row says.

use starlark_calls::rows::Row;
use std::io;
use std::io::{ErrorKind, Read, Write};

/// More bytes or calls than any row needs.
const MANY: usize = 1_000_000;

/// What a device does: it moves at most `piece` bytes a call, and stops after `calls` calls.
///
/// Then its call fails, or moves nothing where there is no kind of `failure`. If it `recovers`, this
/// happens once. The first `failing_flushes` flushes fail.
#[derive(Clone, Copy)]
pub struct Behaviour {
    piece: usize,
    calls: usize,
    failure: Option<ErrorKind>,
    recovers: bool,
    failing_flushes: usize,
}

/// A count of a row; `MANY` where the field is empty.
fn count_or_many(row: &Row, index: usize) -> usize {
    match row.text(index) {
        "" => MANY,
        _ => row.count(index) as usize,
    }
}

/// The behaviour of a device, by five fields of a row.
pub fn behaviour_of(row: &Row, index: usize) -> Behaviour {
    let failure = match row.text(index.saturating_add(2)) {
        "other" => Some(ErrorKind::Other),
        "interrupted" => Some(ErrorKind::Interrupted),
        _ => None,
    };
    Behaviour {
        piece: count_or_many(row, index),
        calls: count_or_many(row, index.saturating_add(1)),
        failure,
        recovers: row.text(index.saturating_add(3)) == "once",
        failing_flushes: row.count(index.saturating_add(4)) as usize,
    }
}

impl Behaviour {
    /// How many bytes the next call moves at most, or how it fails.
    fn most(&mut self) -> io::Result<usize> {
        if self.calls > 0 {
            self.calls -= 1;
            return Ok(self.piece);
        }
        if self.recovers {
            self.calls = MANY;
        }
        match self.failure {
            Some(kind) => Err(io::Error::from(kind)),
            None => Ok(0),
        }
    }

    /// What a flush returns.
    fn flushed(&mut self) -> io::Result<()> {
        if self.failing_flushes == 0 {
            return Ok(());
        }
        self.failing_flushes -= 1;
        Err(io::Error::from(self.failure.unwrap_or(ErrorKind::Other)))
    }
}

/// A reader of bytes.
#[derive(Drop)]
pub struct Source<'b> {
    pub rest: &'b [u8],
    pub behaviour: Behaviour,
}

impl Read for Source<'_> {
    fn read(&mut self, buf: &mut [u8]) -> io::Result<usize> {
        let most = self.behaviour.most()?.min(buf.len());
        self.rest.read(&mut buf[..most])
    }
}

/// A writer that compares what it takes with what is wanted.
#[derive(Drop)]
pub struct Sink<'b> {
    pub wanted: &'b [u8],
    pub other_came: bool,
    pub behaviour: Behaviour,
}

impl Write for Sink<'_> {
    fn write(&mut self, buf: &[u8]) -> io::Result<usize> {
        let most = self.behaviour.most()?.min(buf.len());
        match self.wanted.strip_prefix(&buf[..most]) {
            Some(wanted) => self.wanted = wanted,
            None => self.other_came = true,
        }
        Ok(most)
    }

    fn flush(&mut self) -> io::Result<()> {
        self.behaviour.flushed()
    }
}
