//! Positions and spans of source texts, code maps, lines and columns, also in units of UTF-16, and
//! values with file spans.
//!
//! It re-exports the dialects of `starlark_text`.
#![tactic(auto)]

pub mod call_stack;
pub mod codemap;
pub mod diagnostic;
pub mod edit;
pub mod laws;
pub mod position;

pub use starlark_text::{convert_indices, cursors, dialect, dot_format_parser, fast_string};
