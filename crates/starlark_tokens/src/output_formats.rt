//! How tokens, faults and whole reports are written in each format.

pub mod character_widths;
pub mod failure_reports;
pub mod fault_lines;
pub mod form;
pub mod github_lines;
pub mod item_lines;
pub mod json_strings;
pub mod python_literals;
pub mod report_documents;
pub mod rules;
pub mod sarif_results;
pub mod source_lines;
pub mod styles;
pub mod token_lines;
pub mod token_values;
