//! What the command line asks for.

pub mod arguments;
pub mod command_words;
pub mod requests;
