//! Calls of lexers and of lexed texts, which take memory. Where it is refused, a call has to leave what its caller had as it was,
//! and only then is the failure returned. `scripts/oracles/refused_memory.py` refuses each request of each of these rows in
//! turn.

use crate::lexed_text_rows;
use crate::lexed_text_rows::Wanted;
use crate::rows::{Answer, Row, unknown};
use crate::word_rows::lexemes;
use std::alloc::Global;

/// The answer to a call that takes memory.
pub fn answer(alloc: Global, row: &Row) -> Answer {
    match row.text(1) {
        "lexemes" => lexemes(alloc, row.text(2), row.text(2)),
        "lex" => lexed_text_rows::lex(alloc, row.text(2)),
        "join" => lexed_text_rows::join(alloc, row.text(2), row.text(3), Wanted::Lexemes),
        "relex" => {
            let (text, from, edited) = (row.text(2), row.count(3), row.text(4));
            lexed_text_rows::relex(alloc, text, from, edited, Wanted::Lexemes)
        }
        _ => unknown(alloc, row),
    }
}
