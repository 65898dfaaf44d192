//! The error of lexing a whole source.

use starlark_base::codemap::{OrMemory, SourceTooLong};
use starlark_errors::eval_exception::EvalException;
use std::alloc::{AllocError, AllocFailed};
use std::error::Error;
use std::fmt;

/// The error of lexing a whole source, whichever call fails.
///
/// `?` makes it from the errors of `CodeMap::new`, `Lexer::new`, `Lexer::next` and
/// `LexedText::lex`, and from `AllocError` and `AllocFailed`.
#[derive(Debug, Drop)]
pub enum SourceError {
    /// The source is longer than 4294967295 bytes.
    TooLong,
    /// The source has a fault, which ends its lexemes.
    Fault(EvalException),
    /// An allocation failed.
    Memory,
}

impl From<SourceTooLong> for SourceError {
    ghost use Rattle.std.specs.Prelude.{◌≡◌};
    ghost use Rattle.starlark_lexemes.specs.declared.source_error.SourceError.TheVariants.{TooLong};

    ghost from_gives = { λ _ error. error ≡ TooLong };

    fn from(_refusal: SourceTooLong) -> SourceError {
        SourceError::TooLong
    }
}

impl From<OrMemory<SourceTooLong>> for SourceError {
    ghost use Rattle.std.specs.Prelude.{◌≡◌};
    ghost use Rattle.starlark_lexemes.specs.SourceErrors.{error_of_length};

    ghost from_gives = { λ refusal error. error ≡ error_of_length refusal };

    fn from(refusal: OrMemory<SourceTooLong>) -> SourceError {
        match refusal {
            OrMemory::Error(SourceTooLong) => SourceError::TooLong,
            OrMemory::Memory => SourceError::Memory,
        }
    }
}

impl From<OrMemory<EvalException>> for SourceError {
    ghost use Rattle.std.specs.Prelude.{◌≡◌};
    ghost use Rattle.starlark_lexemes.specs.SourceErrors.{error_of_fault};

    ghost from_gives = { λ refusal error. error ≡ error_of_fault refusal };

    fn from(refusal: OrMemory<EvalException>) -> SourceError {
        match refusal {
            OrMemory::Error(exception) => SourceError::Fault(exception),
            OrMemory::Memory => SourceError::Memory,
        }
    }
}

impl From<AllocError> for SourceError {
    ghost use Rattle.std.specs.Prelude.{◌≡◌};
    ghost use Rattle.starlark_lexemes.specs.declared.source_error.SourceError.TheVariants.{Memory};

    ghost from_gives = { λ _ error. error ≡ Memory };

    fn from(_error: AllocError) -> SourceError {
        SourceError::Memory
    }
}

impl<T: Drop> From<AllocFailed<T>> for SourceError {
    ghost use Rattle.std.specs.Prelude.{◌≡◌};
    ghost use Rattle.starlark_lexemes.specs.declared.source_error.SourceError.TheVariants.{Memory};

    ghost from_gives = { λ _ error. error ≡ Memory };

    fn from(_error: AllocFailed<T>) -> SourceError {
        SourceError::Memory
    }
}

/// Prints the fault with its file span, or what else failed.
///
/// That is `source is longer than 4294967295 bytes` or `out of memory`.
impl fmt::Display for SourceError {
    ghost use Rattle.starlark_lexemes.specs.SourceErrors.{source_error_text};

    ghost output = { source_error_text };

    fn fmt<W: fmt::Write>(&self, f: &mut fmt::Formatter<W>) -> fmt::Result {
        match self {
            SourceError::TooLong => write!(f, "source is longer than 4294967295 bytes"),
            SourceError::Fault(exception) => write!(f, "{exception}"),
            SourceError::Memory => write!(f, "out of memory"),
        }
    }
}

impl Error for SourceError {}
