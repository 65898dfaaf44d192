//! How a run ends, its exit status, and the greatest length of a text.

ghost use Rattle.std.specs.Prelude.{◌≡◌};
ghost use Rattle.starlark_run.specs.ExitStatus.{exit_status as exit_status_of};

use std::alloc::AllocError;
use std::error::Error;
use std::fmt;

/// The greatest length of a text, in bytes.
pub const GREATEST_LEN: usize = 4_294_967_295;

/// The exit status for wrong arguments, and where a run gave up or a file couldn't be read.
pub const TROUBLE: u8 = 2;

/// What a run printed of a text: all lexemes, or those before its first fault and then that fault.
#[derive(Clone, Copy, Debug, PartialEq, Eq)]
pub enum RunStatus {
    /// The text has no fault: all its lexemes were printed.
    Clean,
    /// The text has a fault: the lexemes before it and the fault were printed.
    Fault,
}

/// Why a run wrote nothing, or not the whole output.
///
/// Only with `Write` and `Memory` may a part of the output be written: always its beginning.
#[derive(Debug, Drop, PartialEq)]
pub enum RunFault {
    /// The input is not UTF-8.
    NotUtf8,
    /// The input, or the text after an edit, is longer than `GREATEST_LEN` bytes.
    TooLong,
    /// The edit of this index, from 0, doesn't fit the text that the edits before it leave.
    BadEdit(usize),
    /// A read failed. The reader wasn't called after that.
    Read,
    /// A write or the flush failed, or a write took nothing. The writer wasn't called after that.
    Write,
    /// An allocation failed.
    Memory,
}

impl fmt::Display for RunFault {
    ghost use Rattle.std.specs.Prelude.{Some};
    ghost use Rattle.starlark_run.specs.RunFaults.{run_fault_text};

    ghost output = { λ fault. Some (run_fault_text fault) };

    fn fmt<W: fmt::Write>(&self, f: &mut fmt::Formatter<W>) -> fmt::Result {
        match self {
            RunFault::NotUtf8 => f.write_str("input is not UTF-8"),
            RunFault::TooLong => f.write_str("input is longer than 4294967295 bytes"),
            RunFault::BadEdit(index) => write!(f, "edit {index} does not fit the text"),
            RunFault::Read => f.write_str("cannot read the input"),
            RunFault::Write => f.write_str("cannot write the output"),
            RunFault::Memory => f.write_str("out of memory"),
        }
    }
}

impl Error for RunFault {}

impl From<AllocError> for RunFault {
    ghost use Rattle.std.specs.Prelude.{◌≡◌};
    ghost use Rattle.starlark_run.specs.declared.ends.RunFault.TheVariants.{Memory};

    ghost from_gives = { λ _ fault. fault ≡ Memory };

    fn from(_error: AllocError) -> RunFault {
        RunFault::Memory
    }
}

/// The exit status that tells how a run ended: 0 for a text without fault, 1 for one with a fault,
/// and 2 where the run gave up.
pub fn exit_status(outcome: &Result<RunStatus, RunFault>) -> u8
    ensures { result ≡ exit_status_of outcome.now }
{
    match outcome {
        Ok(RunStatus::Clean) => 0,
        Ok(RunStatus::Fault) => 1,
        Err(_) => TROUBLE,
    }
}
