//! Literals and texts of f-strings as tokens.

mod chunks;
mod pieces;

pub(crate) use chunks::{Chunk, chunk_from, plain_text};
pub(crate) use pieces::{literal_piece, opening_of, quotes_of};
pub(crate) use starlark_grammar::class::Opening;
