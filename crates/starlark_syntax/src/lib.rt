//! The lexer of Starlark: tokens, faults, what reads them from a text, what goes on after faults,
//! texts with all their lexemes, and errors with their places and calls: the modules of the crates
//! below that a user needs.
#![tactic(auto)]

pub mod laws;
pub mod lexer;

pub use starlark_base::{
    call_stack, codemap, convert_indices, cursors, diagnostic, dialect, dot_format_parser,
    fast_string,
};
pub use starlark_errors::{error, eval_exception};
pub use starlark_recovery::restarts;
