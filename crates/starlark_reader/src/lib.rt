//! Reads a text piece by piece: its lexemes, and then its fault or its end.
//!
//! A `Reader` keeps what later pieces depend on: the open brackets and f-strings (`nesting`), the
//! open widths (`indent_stack`), and what is pending (`pending`). A margin is what is before the
//! content of a line: comment-only lines, and then the blanks of the line (`margins`, `widths`).
#![tactic(auto)]

mod indent_stack;
mod literal;
mod margins;
pub mod nesting;
pub mod pending;
pub mod reader;
mod reading;
mod widths;

pub use margins::margin_of;
pub use reading::terminals::own_token;
