//! What a text is made of: its words, its numbers, and the bodies of its literals.
//!
//! All of it is found from the bytes at one place; nothing is kept between two calls. `reads`
//! counts the reads of bytes, and `lines`, `names` and `runs` take 16 of them at a time. A
//! body is read item by item up to its stop: `escapes` decodes escapes; `runs` and `plain` are the
//! fast path for text that needs no decoding.
#![tactic(auto)]

mod body;
mod escapes;
mod items;
mod lanes;
pub mod laws;
pub mod lines;
mod names;
pub mod one_identifier;
mod plain;
pub mod reads;
mod runs;
pub mod scanner;

pub use body::{Body, LiteralValue, read_body};
pub use items::{Literal, Stop, closing_len};
pub use plain::{plain_body_len, plain_chunk_len};
