//! The program's arguments, which may be any bytes.

use std::alloc::AllocError;
use std::env::{Env, FillError};

/// Bytes that an argument is read into at first.
const FIRST_LEN: usize = 256;

/// An argument, by its number; `None` where there are fewer.
fn argument(rt: &HostRuntime, number: usize) -> Result<Option<Vec<u8>>, AllocError> {
    let mut len = FIRST_LEN;
    for _ in 0..usize::BITS {
        let mut bytes = Vec::new(rt.alloc());
        bytes.resize(len, 0u8)?;
        match rt.arg(number, bytes.as_mut_slice()) {
            Ok(count) => {
                bytes.truncate(count);
                return Ok(Some(bytes));
            }
            Err(FillError::TooLong) => len = len.saturating_add(len),
            Err(FillError::NotPresent) => return Ok(None),
        }
    }
    Err(AllocError)
}

/// The arguments without the program's name.
pub fn arguments(rt: &HostRuntime) -> Result<Vec<Vec<u8>>, AllocError> {
    let mut words = Vec::new(rt.alloc());
    for number in 1..usize::MAX {
        let Some(word) = argument(rt, number)? else {
            break;
        };
        words.push(word)?;
    }
    Ok(words)
}
