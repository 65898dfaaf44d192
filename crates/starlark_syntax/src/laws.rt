//! Laws on texts, their lexemes, lines and columns of these, and lexing on after faults.
//!
//! Each law is the contract of a function with an empty body. Programs don't call them.

ghost use Rattle.starlark_syntax.specs.Held.{FaultHeld, LexemesHeld};

pub use starlark_grammar::laws::{
    balanced_layout, decided_faults_stay, faults_keep_lines, found_in_order,
    integers_keep_their_value, joins_at_clean_cuts, kept_cuts_keep, line_cuts_join,
    line_ends_keep_tokens, newlines_close, newlines_cut, one_body, one_longest_front, one_outcome,
    one_reading, ordered_lexemes, printed_words_read_back, restarts_at_lines,
    texts_without_rf_stay,
};
pub use starlark_words::laws::identifiers_stay;

/// The code map of a UTF-8 text holds the spans of its lexemes and its fault.
///
/// They resolve to lines that count the LF before them, and columns that count characters.
pub fn held_lexemes()
    ensures lexemes { LexemesHeld }
    ensures fault { FaultHeld }
{}
