//! A text that stays lexed while it is edited: for editors, language servers and watchers.
//!
//! A `Document` owns its text. After an edit it lexes only the part of the text that the edit
//! touches, and has the lexemes and faults that lexing the whole text on after its faults finds.
#![tactic(auto)]

mod document;
mod edited_parts;
mod lexed_fronts;
mod line_places;
mod segment_lexing;
mod segments;

pub use document::{Change, Document, EditError};
pub use line_places::Place;
pub use segments::{Faults, Lexemes};
pub use starlark_base::edit::Edit;
