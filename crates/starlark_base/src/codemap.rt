//! Code maps, positions and spans, and their lines, columns and texts.
//!
//! Positions are bytes from 0. Lines and columns count from 0 and are printed from 1; columns count
//! characters.

mod character_counts;
mod code_map;
mod code_maps;
mod file_span;
mod file_span_ref;
mod positions;
mod refusals;
mod resolved;
mod spanned_nodes;
mod spans;

pub use code_map::{CodeMap, CodeMapId};
pub use code_maps::CodeMaps;
pub use file_span::FileSpan;
pub use file_span_ref::FileSpanRef;
pub use positions::Pos;
pub use refusals::{SourceTooLong, is_source_len};
pub use resolved::{ResolvedFileLine, ResolvedFileSpan, ResolvedPos, ResolvedSpan};
pub use spanned_nodes::Spanned;
pub use spans::Span;
pub use starlark_text::or_memory::OrMemory;
