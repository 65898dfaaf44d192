//! The program's run: reads a text from a reader, and prints its lexemes or its first fault to a
//! writer. Both are watched, so that a caller can tell which of them failed. A list of edits may
//! change the text before.
#![tactic(auto)]

mod buffer;
mod edited_runs;
mod edited_texts;
mod edits;
pub mod ends;
mod input;
mod lexed_printing;
mod lexeme_lines;
mod plain_runs;
pub mod printed_values;
mod printer;
mod printing;
pub mod watched;

pub use edited_runs::{EditedRun, run_edits};
pub use ends::{GREATEST_LEN, RunFault, RunStatus, TROUBLE, exit_status};
pub use plain_runs::run;
pub use starlark_base::edit::Edit;
pub use watched::Watched;
