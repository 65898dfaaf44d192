//! Reports of texts and of whole runs, and what is counted.

pub mod counts;
pub mod failures;
pub mod file_runs;
pub mod messages;
pub mod problems;
pub mod report;
pub mod reporter;
pub mod screen;
pub mod summary;
pub mod totals;
