//! The lexer, which yields the lexemes of a text one by one, up to its first fault.
//!
//! `lexer_state` has what it shares with lexed texts, and with lexing on after faults.
#![tactic(auto)]

pub mod lexemes;
pub mod lexer_state;
pub mod passed;
pub mod source_error;
