//! Words as tokens.

pub mod terminals;
pub mod words;
