//! The error of calls that can fail in a way of their own, and can run out of memory too.

use std::alloc::AllocError;
use std::fmt::Display;
use thiserror::Error;

/// An error of type `E`, or out of memory.
///
/// Printed as the error, or as `out of memory`. `?` makes an `AllocError` the latter.
#[derive(Debug, Drop, Error)]
#[error_bound(E: Display)]
pub enum OrMemory<E> {
    /// The call refused its arguments, or failed in another way that `E` describes.
    #[error("{0}")]
    Error(E),
    /// An allocation failed.
    #[error("out of memory")]
    Memory,
}

impl<E> From<AllocError> for OrMemory<E> {
    ghost use Rattle.std.specs.Prelude.{◌≡◌};
    ghost use Rattle.starlark_text.specs.declared.or_memory.OrMemory.TheVariants.{Memory};

    ghost from_gives = { λ _ refusal. refusal ≡ Memory };

    fn from(_error: AllocError) -> OrMemory<E> {
        OrMemory::Memory
    }
}
