//! The greatest length of a source text, and the error for a longer one.

ghost use Rattle.std.specs.Prelude.{◌<◌, ◌^◌, ◌↔◌, IsTrue};

use thiserror::Error;

/// A source text is longer than 4294967295 bytes, the greatest position.
///
/// Printed as `source is longer than 4294967295 bytes`.
#[derive(Debug, Drop, Error)]
#[error("source is longer than 4294967295 bytes")]
pub struct SourceTooLong;

/// Whether a source text may have this length in bytes: at most 4294967295, the greatest position.
pub fn is_source_len(len: usize) -> bool
    ensures { IsTrue result ↔ (len < 2 ^ 32) }
{
    len <= u32::MAX as usize
}
