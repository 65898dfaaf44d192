//! Globs of the command line, and whether each stood for some path.

ghost use Rattle.std.specs.Prelude.{◌≡◌, ◌<◌, IfOk, OnOk, length, map, slice_index, take};
ghost use Rattle.starlark_tokens.specs.Inner.NotedGlobs.{StandForTheSame};
ghost use Rattle.starlark_tokens.specs.Files.UsedGlobs as spec;

use crate::files::globs::stands_for;
use std::alloc::{AllocError, Global};

/// A glob, and whether it stood for some path so far.
#[derive(Clone, Copy)]
pub struct UsedGlob<'a> {
    pub text: &'a [u8],
    pub is_used: bool,
}

/// Globs that haven't stood for any path yet.
pub fn unused<'a>(alloc: Global, globs: &[&'a [u8]]) -> Result<Vec<UsedGlob<'a>>, AllocError>
    ensures { IfOk result (λ unused. unused.items ≡ map spec.unused globs.now) }
{
    let mut unused = Vec::new(alloc);
    for &text in globs {
        unused.push(UsedGlob {
            text,
            is_used: false,
        })?;
    }
    Ok(unused)
}

/// Whether some glob stands for a path; notes it of each that does.
pub fn some_stands(
    alloc: Global,
    globs: &mut [UsedGlob<'_>],
    is_folder: bool,
    path: &[u8],
) -> Result<bool, AllocError>
    ensures value { IfOk result (λ stands. stands ≡ spec.some_stands globs.old is_folder path.now) }
    ensures noted { OnOk result (globs.new ≡ map (spec.noted is_folder path.now) globs.old) }
{
    let mut some = false;
    for glob in globs.iter_mut() {
        if stands_for(alloc, glob.text, is_folder, path)? {
            glob.is_used = true;
            some = true;
        }
    }
    Ok(some)
}

/// Whether a path has a slash at an index, and some glob stands for the folder before it.
fn folder_stands(
    alloc: Global,
    globs: &mut [UsedGlob<'_>],
    path: &[u8],
    index: usize,
) -> Result<bool, AllocError>
    requires { index < length path.now }
    ensures value { IfOk result (λ stands. stands ≡ spec.folder_stands globs.old (take index path.now) (slice_index path.now index)) }
    ensures same { OnOk result (StandForTheSame globs.old globs.new) }
{
    if path[index] != b'/' {
        return Ok(false);
    }
    some_stands(alloc, globs, true, &path[..index])
}

/// Whether some glob stands for a path, or for a folder that it is in.
pub fn some_holds(
    alloc: Global,
    globs: &mut [UsedGlob<'_>],
    is_folder: bool,
    path: &[u8],
) -> Result<bool, AllocError>
    ensures { IfOk result (λ holds. holds ≡ spec.some_holds globs.old is_folder path.now) }
{
    for index in 0..path.len() {
        if folder_stands(alloc, globs, path, index)? {
            return Ok(true);
        }
    }
    some_stands(alloc, globs, is_folder, path)
}
