//! What the language is: the kinds of its words, definitions of tokens, pieces and outcomes over
//! them in `specs/`, also of texts that are joined, cut, or written with other line ends, and all
//! their laws. In `proofs/` also the worked texts of the language.
#![tactic(auto)]

pub mod class;
pub mod laws;
