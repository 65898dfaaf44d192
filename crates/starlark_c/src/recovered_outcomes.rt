//! The outcome of lexing a text on after its faults, and the faults, as plain records of numbers.

ghost use Rattle.std.specs.Prelude.{◌≡◌};
ghost use Rattle.starlark_c.specs.RecoveredOutcomes.{nothing_recovered, recovered_record};

use crate::outcomes::{FULL, MEMORY, NOT_UTF8, TOO_LONG, WHOLE};
use crate::recovered_endings::RecoveredEnding;

/// A fault of a text that is lexed on after it: its kind, its place in the text and among the
/// lexemes, and where the text that it names is among the values.
#[repr(C)]
#[derive(Clone, Copy)]
pub struct FoundFault {
    /// The number of its kind.
    pub kind: u32,
    /// Offset of its first byte in the text.
    pub begin: u32,
    /// Offset in the text after its last byte.
    pub end: u32,
    /// 0.
    pub reserved: u32,
    /// Number of lexemes before it.
    pub lexemes_before: usize,
    /// Offset of the text that it names among the values, in bytes.
    pub value_begin: usize,
    /// Length of the text that it names, in bytes.
    pub value_len: usize,
}

/// The outcome of lexing a text on after its faults: its status, and what the call put into the
/// buffers.
///
/// A field that the status doesn't name is 0.
#[repr(C)]
#[derive(Clone, Copy)]
pub struct RecoveredOutcome {
    /// How lexing ended: `WHOLE`, `FULL`, `NOT_UTF8`, `TOO_LONG` or `MEMORY`.
    pub status: u32,
    /// With `WHOLE` and `MEMORY`: number of records in the buffer of lexemes that are right.
    pub lexemes: usize,
    /// With `WHOLE` and `MEMORY`: number of bytes in the buffer of values that are right.
    pub values: usize,
    /// With `WHOLE` and `MEMORY`: number of records in the buffer of faults that are right.
    pub faults: usize,
    /// With `WHOLE`: length of the text. With `NOT_UTF8`: offset of the first byte that isn't
    /// UTF-8.
    pub next: usize,
    /// With `FULL`: number of records of lexemes that the text needs.
    pub wanted_lexemes: usize,
    /// With `FULL`: number of bytes of values that the text needs.
    pub wanted_values: usize,
    /// With `FULL`: number of records of faults that the text needs.
    pub wanted_faults: usize,
}

/// An outcome with nothing in it but its status.
pub const fn with_status(status: u32) -> RecoveredOutcome
    ensures { result ≡ nothing_recovered status }
{
    RecoveredOutcome {
        status,
        lexemes: 0,
        values: 0,
        faults: 0,
        next: 0,
        wanted_lexemes: 0,
        wanted_values: 0,
        wanted_faults: 0,
    }
}

/// The outcome of how lexing a text of `len` bytes on after its faults ended.
pub fn recovered_outcome(len: usize, ending: RecoveredEnding) -> RecoveredOutcome
    ensures { result ≡ recovered_record len ending }
{
    match ending {
        RecoveredEnding::Whole { filled } => RecoveredOutcome {
            lexemes: filled.lexemes,
            values: filled.values,
            faults: filled.faults,
            next: len,
            ..with_status(WHOLE)
        },
        RecoveredEnding::Full { wanted } => RecoveredOutcome {
            wanted_lexemes: wanted.lexemes,
            wanted_values: wanted.values,
            wanted_faults: wanted.faults,
            ..with_status(FULL)
        },
        RecoveredEnding::NotUtf8 { valid } => RecoveredOutcome {
            next: valid,
            ..with_status(NOT_UTF8)
        },
        RecoveredEnding::TooLong => with_status(TOO_LONG),
        RecoveredEnding::Memory { filled } => RecoveredOutcome {
            lexemes: filled.lexemes,
            values: filled.values,
            faults: filled.faults,
            ..with_status(MEMORY)
        },
    }
}
