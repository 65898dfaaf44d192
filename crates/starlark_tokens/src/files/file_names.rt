//! Which files of a folder are read.

ghost use Rattle.std.specs.Prelude.{◌≡◌, IfOk};
ghost use Rattle.starlark_tokens.specs.Files.FileNames as spec;

use crate::command_line::command_words::{begins_with, is_any};
use crate::files::used_globs::{UsedGlob, some_stands};
use std::alloc::{AllocError, Global};

/// Whether a name ends with a text.
pub fn ends_with(name: &[u8], text: &str) -> bool
    ensures { result ≡ spec.ends_with text.now name.now }
{
    name.ends_with(text.as_bytes())
}

/// Whether a name ends as one of a build tool's files may.
fn has_build_ending(name: &[u8]) -> bool
    ensures { result ≡ spec.has_build_ending name.now }
{
    ends_with(name, ".BUILD") || ends_with(name, ".BUILD.bazel") || ends_with(name, ".MODULE.bazel")
}

/// Whether a file of this name is one of a build tool's.
fn is_build_file(name: &[u8]) -> bool
    ensures { result ≡ spec.is_build_file name.now }
{
    is_any(name, &["BUILD", "MODULE.bazel", "BUCK", "TARGETS"])
        || begins_with(name, "BUILD.")
        || begins_with(name, "WORKSPACE")
        || has_build_ending(name)
}

/// Whether a file of this name is a module.
fn is_module(name: &[u8]) -> bool
    ensures { result ≡ spec.is_module name.now }
{
    ends_with(name, ".bzl")
        || ends_with(name, ".star")
        || ends_with(name, ".sky")
        || ends_with(name, ".bxl")
}

/// Whether a file is read where its folder is: by its name, or since a glob stands for its path.
pub fn is_read(
    alloc: Global,
    included: &mut [UsedGlob<'_>],
    name: &[u8],
    path: &[u8],
) -> Result<bool, AllocError>
    ensures { IfOk result (λ read. read ≡ spec.is_read included.old name.now path.now) }
{
    let is_included = some_stands(alloc, included, false, path)?;
    Ok(is_build_file(name) || is_module(name) || is_included)
}

/// Whether a file or folder of a folder is left out: it is hidden, or a glob stands for its path.
pub fn is_left_out(
    alloc: Global,
    excluded: &mut [UsedGlob<'_>],
    is_folder: bool,
    name: &[u8],
    path: &[u8],
) -> Result<bool, AllocError>
    ensures { IfOk result (λ out. out ≡ spec.is_left_out excluded.old is_folder name.now path.now) }
{
    let is_excluded = some_stands(alloc, excluded, is_folder, path)?;
    Ok(begins_with(name, ".") || is_excluded)
}
