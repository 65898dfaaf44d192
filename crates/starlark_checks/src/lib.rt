//! Checks over the lexemes of a text: what a lexer accepts and yet is plainly broken.
#![tactic(auto)]

pub mod check;
pub mod checker;
pub mod laws;
mod merge_markers;
mod open_stack;
mod token_roles;
