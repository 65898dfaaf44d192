//! Comments that leave out faults of their line.

ghost use Rattle.std.specs.List.{flat_map};
ghost use Rattle.std.specs.Prelude.{◌≡◌, IfOk, drop, map};
ghost use Rattle.std.specs.Str.{IsCharBoundary};
ghost use Rattle.starlark_tokens.specs.Files.NameLists.{names_between};
ghost use Rattle.starlark_tokens.specs.ToldFaults.IgnoreComments as spec;

use crate::command_line::command_words::{begins_with, is_same};
use crate::files::file_names::ends_with;
use crate::files::name_lists::names_between;
use crate::output_formats::fault_lines::without_cr;
use crate::output_formats::source_lines::{ends_line, near_back};
use crate::told_faults::filters::begins_with_any;
use std::alloc::{AllocError, Global};

/// What follows the `#` of a comment that leaves out all faults.
const IGNORE_ALL: &str = " starlark: ignore";

/// What follows the `#` of a comment with a list of codes, up to the list.
const IGNORE_LISTED: &str = " starlark: ignore[";

/// Bytes after a fault in which its line has to end, so that a comment there counts. So lines with
/// many faults take time for each byte, and not for each byte and fault.
const ROOM: usize = 1024;

/// Number of bytes after the last `#` of a text, or of all where it has none.
fn comment_len(text: &[u8]) -> usize
    ensures { result ≡ spec.comment_len text.now }
{
    let reversed = text.iter().rev();
    reversed.take_while(|byte| **byte != b'#').count()
}

/// What follows the last `#` of a text; nothing where it has none.
fn last_comment(text: &[u8]) -> &[u8]
    ensures { result.now ≡ spec.last_comment text.now }
{
    let begin = text.len().saturating_sub(comment_len(text));
    if begin == 0 {
        return &[];
    }
    &text[begin..]
}

/// The codes of some words, which commas separate.
fn codes_of(alloc: Global, words: &[Vec<u8>]) -> Result<Vec<Vec<u8>>, AllocError>
    ensures { IfOk result (λ codes. map (λ code. code.items) codes.items ≡ flat_map (names_between 44) (map (λ word. word.items) words.now)) }
{
    let mut codes = Vec::new(alloc);
    for word in words {
        let mut listed = names_between(alloc, word.as_slice(), b',')?;
        codes.append(&mut listed)?;
    }
    Ok(codes)
}

/// The codes of a list, which commas and spaces separate.
fn codes_in(alloc: Global, list: &[u8]) -> Result<Vec<Vec<u8>>, AllocError>
    ensures { IfOk result (λ codes. map (λ code. code.items) codes.items ≡ spec.codes_in list.now) }
{
    let words = names_between(alloc, list, b' ')?;
    codes_of(alloc, words.as_slice())
}

/// Whether a list that a bracket closes has a code, or what it begins with.
fn is_listed(alloc: Global, list: &[u8], code: &str) -> Result<bool, AllocError>
    ensures { IfOk result (λ is. is ≡ spec.is_listed list.now code.now) }
{
    if !ends_with(list, "]") {
        return Ok(false);
    }
    let codes = codes_in(alloc, &list[..list.len().saturating_sub(1)])?;
    Ok(begins_with_any(code, codes.as_slice()))
}

/// What follows the opening bracket of a list in a comment that begins with `IGNORE_LISTED`.
fn after_bracket(comment: &[u8]) -> &[u8]
    ensures { result.now ≡ drop 18 comment.now }
{
    if comment.len() < IGNORE_LISTED.len() {
        return &[];
    }
    &comment[IGNORE_LISTED.len()..]
}

/// Whether a comment leaves out faults of a code.
fn leaves_out(alloc: Global, comment: &[u8], code: &str) -> Result<bool, AllocError>
    ensures { IfOk result (λ is. is ≡ spec.leaves_out comment.now code.now) }
{
    if is_same(comment, IGNORE_ALL) {
        return Ok(true);
    }
    if !begins_with(comment, IGNORE_LISTED) {
        return Ok(false);
    }
    is_listed(alloc, after_bracket(comment), code)
}

/// Whether a comment leaves out faults of a code that are shown at byte `at` of a text.
#[tactic(auto, unfolding(crate::specs::ToldFaults::IgnoreComments::is_ignored))]
pub fn is_ignored(alloc: Global, text: &str, at: usize, code: &str) -> Result<bool, AllocError>
    requires { IsCharBoundary text.now at }
    ensures { IfOk result (λ is. is ≡ spec.is_ignored text.now at code.now) }
{
    let back = near_back(text, at, ROOM);
    if !ends_line(text, at + back.len()) {
        return Ok(false);
    }
    leaves_out(alloc, last_comment(without_cr(back).as_bytes()), code)
}
