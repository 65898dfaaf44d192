//! Files by their name and their source.

use crate::rows::given;
use starlark_syntax::codemap::{CodeMap, CodeMapId};
use std::alloc::{AllocError, Global};

/// The code map of a file, by its name and its source.
pub fn code_map(alloc: Global, name: &str, source: &str) -> Result<CodeMap, AllocError> {
    let name = String::from_str(alloc, name)?;
    let source = String::from_str(alloc, source)?;
    given(CodeMap::new(alloc, CodeMapId::new(1), name, source))
}
