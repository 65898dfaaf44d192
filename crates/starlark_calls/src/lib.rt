//! Calls the libraries as rows say, and shows what they answer.
//!
//! A row is a line of fields, parted by tabs: the group of calls, the call, and what it is given. A
//! number that isn't given is an empty field. The answer is a line, as `{:?}` shows it, or as it
//! prints where that is what the row asks for.
#![tactic(auto)]

mod code_map_rows;
mod cursor_rows;
mod each_byte;
mod error_rows;
mod file_rows;
mod format_rows;
mod index_grid;
mod joined_texts;
mod lexed_text_rows;
mod lexer_refusal_rows;
mod place_rows;
mod refusal_rows;
mod refused;
mod row_files;
pub mod rows;
mod string_rows;
mod token_rows;
mod word_rows;

use crate::rows::{Answer, Row};
use std::alloc::Global;

/// The answer to a call that takes memory: of lexers and lexed texts, or of what stands below them.
fn refusals(alloc: Global, row: &Row) -> Answer {
    match row.text(1) {
        "lexemes" | "lex" | "join" | "relex" => lexer_refusal_rows::answer(alloc, row),
        _ => refusal_rows::answer(alloc, row),
    }
}

/// What the libraries answer to a row.
pub fn answer(alloc: Global, row: &Row) -> Answer {
    match row.text(0) {
        "codemap" => code_map_rows::answer(alloc, row),
        "cursors" => cursor_rows::answer(alloc, row),
        "errors" => error_rows::answer(alloc, row),
        "files" => file_rows::answer(alloc, row),
        "format" => format_rows::answer(alloc, row),
        "index_grid" => index_grid::answer(alloc, row),
        "lexed_text" => lexed_text_rows::answer(alloc, row),
        "places" => place_rows::answer(alloc, row),
        "refusals" => refusals(alloc, row),
        "strings" => string_rows::answer(alloc, row),
        "tokens" => token_rows::answer(alloc, row),
        "words" => word_rows::answer(alloc, row),
        group => format!(in alloc; "no group {group}"),
    }
}
