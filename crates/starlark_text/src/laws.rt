//! Laws of characters, strings, format strings and dialects, for all texts. Each law is the
//! contract of a function; most of these do nothing.

mod character_laws;
mod format_laws;
mod string_laws;

pub use character_laws::{characters_begin_once, dialects};
pub use format_laws::{
    answers_are_the_outcome, one_outcome, one_piece_or_fault, tokens_parse_back,
};
pub use string_laws::{walked_at, walked_len, walked_split_at, walks_agree};
