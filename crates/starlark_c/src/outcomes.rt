//! The outcome of a call as a plain record of numbers.

ghost use Rattle.std.specs.Prelude.{◌≡◌};
ghost use Rattle.starlark_c.specs.Outcomes.{nothing, outcome_record};

use crate::endings::Ending;

/// The text has no fault.
pub const WHOLE: u32 = 0;
/// The text has a fault.
pub const FAULT: u32 = 1;
/// The buffers have no room for the whole text.
pub const FULL: u32 = 2;
/// The bytes are not UTF-8.
pub const NOT_UTF8: u32 = 3;
/// The text has more than 4294967295 bytes.
pub const TOO_LONG: u32 = 4;
/// Memory ran out.
pub const MEMORY: u32 = 5;

/// The outcome of a call: its status, what it put into the buffers, and the text's fault.
///
/// A field that the status doesn't name is 0.
#[repr(C)]
#[derive(Clone, Copy)]
pub struct LexOutcome {
    /// How lexing ended: one of the six constants.
    pub status: u32,
    /// With `FAULT`: the number of its kind.
    pub fault_kind: u32,
    /// With `FAULT`: offset of its first byte in the text.
    pub fault_begin: u32,
    /// With `FAULT`: offset in the text after its last byte.
    pub fault_end: u32,
    /// With `FAULT`: offset among the values of the text that it names, in bytes.
    pub fault_value_begin: usize,
    /// With `FAULT`: length of the text that it names, in bytes.
    pub fault_value_len: usize,
    /// Number of records in the buffer that are right.
    pub lexemes: usize,
    /// Number of bytes in the buffer of values that are right.
    pub values: usize,
    /// With `WHOLE`: length of the text. With `FULL`: where to go on. With `NOT_UTF8`: offset of the
    /// first byte that isn't UTF-8.
    pub next: usize,
    /// With `FULL` and `next` 0: number of records that the first piece of the text needs.
    pub wanted_lexemes: usize,
    /// With `FULL` and `next` 0: number of bytes of values that the first piece needs.
    pub wanted_values: usize,
}

/// An outcome with nothing in it but its status.
const fn with_status(status: u32) -> LexOutcome
    ensures { result ≡ nothing status }
{
    LexOutcome {
        status,
        fault_kind: 0,
        fault_begin: 0,
        fault_end: 0,
        fault_value_begin: 0,
        fault_value_len: 0,
        lexemes: 0,
        values: 0,
        next: 0,
        wanted_lexemes: 0,
        wanted_values: 0,
    }
}

/// The outcome of how lexing a text of `len` bytes ended.
pub fn outcome_of(len: usize, ending: Ending) -> LexOutcome
    ensures { result ≡ outcome_record len ending }
{
    match ending {
        Ending::Whole { filled } => LexOutcome {
            lexemes: filled.lexemes,
            values: filled.values,
            next: len,
            ..with_status(WHOLE)
        },
        Ending::Fault { filled, fault } => LexOutcome {
            fault_kind: fault.kind,
            fault_begin: fault.begin,
            fault_end: fault.end,
            fault_value_begin: fault.value_begin,
            fault_value_len: fault.value_len,
            lexemes: filled.lexemes,
            values: filled.values,
            ..with_status(FAULT)
        },
        Ending::Piece { filled, next } => LexOutcome {
            lexemes: filled.lexemes,
            values: filled.values,
            next,
            ..with_status(FULL)
        },
        Ending::Full { wanted } => LexOutcome {
            wanted_lexemes: wanted.lexemes,
            wanted_values: wanted.values,
            ..with_status(FULL)
        },
        Ending::NotUtf8 { valid } => LexOutcome {
            next: valid,
            ..with_status(NOT_UTF8)
        },
        Ending::TooLong => with_status(TOO_LONG),
        Ending::Memory { filled } => LexOutcome {
            lexemes: filled.lexemes,
            values: filled.values,
            ..with_status(MEMORY)
        },
    }
}
