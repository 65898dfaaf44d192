//! The lexer that goes on after faults.
#![tactic(auto)]

mod kept_lines;
mod literal_rests;
mod passed_faults;
pub mod recovering_lexer;
mod recovery_state;
pub mod restarts;
mod stand_ins;
