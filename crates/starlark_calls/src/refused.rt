//! What a call leaves that an allocation failure refuses.

use crate::rows::Answer;
use std::alloc::{AllocError, Global};
use std::fmt::Display;

/// Out of memory where a refused call left something as it was; else how it was and how it is.
pub fn unchanged<T: Display>(alloc: Global, before: &str, after: &T) -> Answer {
    let after = after.to_string(alloc)?;
    if before == after.as_str() {
        return Err(AllocError);
    }
    format!(in alloc; "{before} became {after}")
}
