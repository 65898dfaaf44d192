//! SIMD steps of 16 bytes.

/// Bytes in one SIMD step.
pub(crate) const LANES: usize = 16;
