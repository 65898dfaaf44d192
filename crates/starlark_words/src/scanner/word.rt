//! The type of words.

use starlark_grammar::class::Class;

/// A word at the front of a text: its class, and its length in bytes.
#[derive(Clone, Copy)]
pub struct Word {
    pub class: Class,
    pub len: usize,
}
