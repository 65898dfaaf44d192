//! Which faults are told, where they are shown, and what helps.

pub mod byte_columns;
pub mod explanations;
pub mod filters;
pub mod found_problems;
pub mod helps;
pub mod ignore_comments;
pub mod known_positions;
pub mod shown_places;
