//! How filling the caller's buffers from a document ends.

ghost use Rattle.std.specs.Prelude.{◌≡◌};
ghost use Rattle.starlark_c.specs.DocumentItems.{filled_record};

use crate::outcomes::{FULL, WHOLE};
use crate::recovered_endings::Counts;
use crate::recovered_outcomes::{RecoveredOutcome, with_status};
use crate::replies::CLOSED;

/// How filling the buffers with what is found in a range of a document ended.
#[derive(Clone, Copy)]
pub enum FillEnding {
    /// All that is found there is in the buffers.
    Whole { filled: Counts },
    /// The buffers have no room for all of it, which needs this much.
    Full { wanted: Counts },
    /// The handle has no document.
    Closed,
}

/// The outcome that says how it ended.
pub fn filled_outcome(ending: FillEnding) -> RecoveredOutcome
    ensures { result ≡ filled_record ending }
{
    match ending {
        FillEnding::Whole { filled } => RecoveredOutcome {
            lexemes: filled.lexemes,
            values: filled.values,
            faults: filled.faults,
            ..with_status(WHOLE)
        },
        FillEnding::Full { wanted } => RecoveredOutcome {
            wanted_lexemes: wanted.lexemes,
            wanted_values: wanted.values,
            wanted_faults: wanted.faults,
            ..with_status(FULL)
        },
        FillEnding::Closed => with_status(CLOSED),
    }
}
