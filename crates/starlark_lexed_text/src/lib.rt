//! Texts with all their lexemes: lexed, joined, and lexed again after an edit.
#![tactic(auto)]

mod cuts;
pub mod lexed_text;
mod meetings;
mod read_parts;
mod tails;
