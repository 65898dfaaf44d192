//! Which files are read, and their texts.

pub mod file_names;
pub mod folders;
pub mod globs;
pub mod name_lists;
pub mod sources;
pub mod used_globs;
