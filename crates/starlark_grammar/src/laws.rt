//! Laws of the written grammar, for all texts. Each function here has a law as its contract and
//! nothing to do; programs don't call them.

mod found_laws;
mod kept_line_laws;
mod language_laws;
mod recovery_laws;
mod text_laws;

pub use found_laws::{found_in_order, newlines_close};
pub use kept_line_laws::faults_keep_lines;
pub use language_laws::{
    balanced_layout, integers_keep_their_value, one_body, one_longest_front, one_outcome,
    one_reading, ordered_lexemes, printed_words_read_back, texts_without_rf_stay,
};
pub use recovery_laws::{decided_faults_stay, line_cuts_join, newlines_cut, restarts_at_lines};
pub use text_laws::{joins_at_clean_cuts, kept_cuts_keep, line_ends_keep_tokens};
