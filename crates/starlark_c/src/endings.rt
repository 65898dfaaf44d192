//! How lexing a text into the caller's buffers ends.

ghost use Rattle.std.specs.Prelude.{◌≡◌, ◌+◌};
ghost use Rattle.starlark_c.specs.Inner.Filling.{wanted_by};

use crate::records::FaultRecord;

/// How many lexemes, and how many bytes of values.
#[derive(Clone, Copy)]
pub struct Filled {
    /// Number of lexemes.
    pub lexemes: usize,
    /// Number of bytes of values.
    pub values: usize,
}

impl Filled {
    /// Nothing.
    pub const NOTHING: Filled = Filled {
        lexemes: 0,
        values: 0,
    };

    /// So many lexemes and bytes more, or the greatest number where 64 bits can't count them.
    pub fn with(self, lexemes: usize, bytes: usize) -> Filled
        ensures { result ≡ wanted_by (self.lexemes + lexemes) (self.values + bytes) }
    {
        Filled {
            lexemes: self.lexemes.saturating_add(lexemes),
            values: self.values.saturating_add(bytes),
        }
    }
}

/// How lexing a text into the caller's buffers ended, and how much of them is filled.
#[derive(Clone, Copy)]
pub enum Ending {
    /// The text has no fault, and all its lexemes are in the buffers.
    Whole { filled: Filled },
    /// All lexemes before the text's fault are in the buffers, and the text that the fault names.
    Fault { filled: Filled, fault: FaultRecord },
    /// The buffers have the lexemes of the text up to a clean cut at byte `next`.
    Piece { filled: Filled, next: usize },
    /// The buffers have no room for the first piece of the text, which needs this much.
    Full { wanted: Filled },
    /// The bytes are no text: the longest front that is UTF-8 has this many bytes.
    NotUtf8 { valid: usize },
    /// The text has more than 4294967295 bytes.
    TooLong,
    /// Memory ran out. The first lexemes are in the buffers.
    Memory { filled: Filled },
}
