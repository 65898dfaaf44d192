//! The output of a run, and the line of progress on a terminal.

ghost use Rattle.std.specs.Prelude.{◌≡◌, ◌<◌, ◌*◌, ◌-◌, IfOk, IfSome, OnOk, OnErr, Some, nat_le, string_bytes};
ghost use Rattle.std.specs.Time.{instant_nanos};
ghost use Rattle.starlark_tokens.specs.Reporting.Progress as spec;

use starlark_devices::{WriteDevice, write_all};
use std::alloc::{AllocError, Global};
use std::io;
use std::io::IsTerminal;
use std::time::{Duration, Instant};

/// Milliseconds that a run takes before the line of progress is shown.
const FIRST_WAIT: u64 = 1000;

/// Milliseconds before the line of progress is written again.
const NEXT_WAIT: u64 = 100;

/// Clears the line that the cursor is on.
const CLEAR: &str = "\r\x1b[K";

/// Of how many files, and when the line of progress was written, or else when the run began.
#[derive(Clone, Copy)]
pub struct Progress {
    total: usize,
    last: Instant,
    wait: u64,
    is_shown: bool,
}

impl Progress {
    /// Progress over so many files that begins now. `None` for a single file, where standard error is
    /// no terminal, and where the clock can't be read.
    pub fn begun(rt: &HostRuntime, total: usize) -> Option<Progress>
        ensures { IfSome result (λ progress. (1 < total) × (progress ≡ spec.begun total progress.last)) }
    {
        if total <= 1 || !rt.stderr().is_terminal() {
            return None;
        }
        let last = Instant::now(rt).ok()?;
        Some(Progress {
            total,
            last,
            wait: FIRST_WAIT,
            is_shown: false,
        })
    }

    /// Whether it is time to write the line.
    fn is_due(self, now: Instant) -> bool
        ensures { result ≡ nat_le (self.wait * 1000000) (instant_nanos now - instant_nanos self.last) }
    {
        now.duration_since(self.last) >= Duration::from_millis(self.wait)
    }
}

/// The line of progress, which is written over the one before.
fn line_of(alloc: Global, done: usize, total: usize) -> Result<String, AllocError>
    ensures { IfOk result (λ line. string_bytes line ≡ spec.progress_line done total) }
{
    format!(in alloc; "\r{done} of {total} files")
}

/// An output, and the line of progress on a terminal, which is cleared before each call of the output.
#[derive(Drop)]
pub struct Screen<W, T> {
    alloc: Global,
    output: W,
    terminal: T,
    /// `None` where no progress is shown.
    progress: Option<Progress>,
}

impl<W, T: WriteDevice> Screen<W, T> {
    /// A screen whose line of progress isn't written yet.
    pub fn new(alloc: Global, output: W, terminal: T, progress: Option<Progress>) -> Screen<W, T>
        ensures { result.output ≡ output }
    {
        Screen {
            alloc,
            output,
            terminal,
            progress,
        }
    }

    /// The output.
    pub fn into_output(self) -> W
    where
        T: Drop,
        ensures { result ≡ self.output }
    {
        self.output
    }

    /// Shows how many files are done, if that is due now. Where memory runs out it does nothing.
    pub fn show(&mut self, done: usize, now: Instant) -> Result<(), AllocError>
        ensures shown { OnOk result (spec.ShowsIf (spec.is_due self.old.progress now) T.calls done now self.old self.new) }
        ensures refused { OnErr result (self.new ≡ self.old) }
    {
        if let Some(progress) = self.progress {
            if progress.is_due(now) {
                self.write_progress(progress, done, now)?;
            }
        }
        Ok(())
    }

    /// Writes the line of progress. Where memory runs out it does nothing.
    fn write_progress(
        &mut self,
        progress: Progress,
        done: usize,
        now: Instant,
    ) -> Result<(), AllocError>
        requires { self.old.progress ≡ Some progress }
        ensures shown { OnOk result (spec.Shows T.calls done now self.old self.new) }
        ensures refused { OnErr result (self.new ≡ self.old) }
    {
        let line = line_of(self.alloc, done, progress.total)?;
        let _ = write_all(&mut self.terminal, line.as_bytes());
        self.progress = Some(Progress {
            last: now,
            wait: NEXT_WAIT,
            is_shown: true,
            ..progress
        });
        Ok(())
    }

    /// Clears the line of progress if it is shown.
    pub fn clear(&mut self)
        ensures { spec.Clears T.calls self.old self.new }
    {
        if let Some(progress) = self.progress {
            if progress.is_shown {
                let _ = write_all(&mut self.terminal, CLEAR.as_bytes());
                self.progress = Some(Progress {
                    is_shown: false,
                    ..progress
                });
            }
        }
    }
}

impl<W: WriteDevice, T: WriteDevice> WriteDevice for Screen<W, T> {
    ghost calls = { spec.screen_calls W.calls T.calls };

    fn write_once(&mut self, piece: &[u8]) -> io::Result<usize> {
        self.clear();
        self.output.write_once(piece)
    }

    fn flush_once(&mut self) -> io::Result<()> {
        self.clear();
        self.output.flush_once()
    }
}
