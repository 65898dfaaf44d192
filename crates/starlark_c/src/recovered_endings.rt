//! How lexing a text on after its faults into the caller's buffers ends.

ghost use Rattle.std.specs.Prelude.{◌≡◌};
ghost use Rattle.starlark_c.specs.RecoveredTexts.{capped_counts, sums};

/// How many lexemes, how many bytes of values, and how many faults.
#[derive(Clone, Copy)]
pub struct Counts {
    /// Number of lexemes.
    pub lexemes: usize,
    /// Number of bytes of values, with the texts that faults name.
    pub values: usize,
    /// Number of faults.
    pub faults: usize,
}

impl Counts {
    /// Counts of 0.
    pub const NOTHING: Counts = Counts {
        lexemes: 0,
        values: 0,
        faults: 0,
    };

    /// Both together, or the greatest number where 64 bits can't count them.
    pub fn plus(self, more: Counts) -> Counts
        ensures { result ≡ capped_counts (sums self more) }
    {
        Counts {
            lexemes: self.lexemes.saturating_add(more.lexemes),
            values: self.values.saturating_add(more.values),
            faults: self.faults.saturating_add(more.faults),
        }
    }
}

/// How lexing a text on after its faults ended, and how much of the caller's buffers is filled.
#[derive(Clone, Copy)]
pub enum RecoveredEnding {
    /// All lexemes and all faults of the text are in the buffers.
    Whole { filled: Counts },
    /// The buffers have no room for all of the text, which needs this much.
    Full { wanted: Counts },
    /// The bytes are no text: the longest front that is UTF-8 has this many bytes.
    NotUtf8 { valid: usize },
    /// The text has more than 4294967295 bytes.
    TooLong,
    /// Memory ran out. The first lexemes and faults are in the buffers.
    Memory { filled: Counts },
}
