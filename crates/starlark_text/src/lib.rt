//! What evaluators and tools need of Starlark texts: indices, strings by their characters,
//! cursors, format strings, and the dialects of the language. Nothing here takes memory.
#![tactic(auto)]

mod character_search;
pub mod character_starts;
pub mod convert_indices;
pub mod cursors;
pub mod dialect;
pub mod dot_format_parser;
pub mod fast_string;
pub mod laws;
pub mod or_memory;
