//! Globs: patterns of paths, as `.gitignore` has them.
//!
//! They differ from git's in four points. Empty names and `.` are left out of globs and paths; a slash
//! always ends a name, also in a set and after a backslash; classes such as `[:alpha:]` aren't known;
//! `***` is a `*`. Characters past ASCII are bytes, as in git.

ghost use Rattle.std.specs.Prelude.{◌≡◌, ◌≤◌, ◌-◌, if◌then◌else◌, IfOk, drop, length, map, slice_index};
ghost use Rattle.starlark_tokens.specs.Files.Globs as spec;
ghost use Rattle.starlark_tokens.specs.Inner.GlobAnswers.{IsAnswer, is_fit};

use crate::command_line::command_words::is_same;
use crate::files::name_lists::names_between;
use std::alloc::{AllocError, Global};

/// How a glob compares with a text.
#[derive(Clone, Copy)]
pub enum Answer {
    /// The glob stands for all of it.
    Fits,
    /// The glob doesn't stand for all of it.
    Differs,
    /// The glob stands for no end of it.
    FitsNoEnd,
}

impl Answer {
    /// How no glob compares with a text that is empty or isn't.
    fn at_end(is_empty: bool) -> Answer
        ensures { result ≡ (if is_empty then Answer.Fits else Answer.Differs) }
    {
        if is_empty {
            Answer::Fits
        } else {
            Answer::Differs
        }
    }

    /// How a `**` at the end compares with names that are none or some.
    fn of_folders(is_empty: bool) -> Answer
        ensures { result ≡ (if is_empty then Answer.FitsNoEnd else Answer.Fits) }
    {
        if is_empty {
            Answer::FitsNoEnd
        } else {
            Answer::Fits
        }
    }

    /// Whether the glob stands for the text.
    fn is_fit(self) -> bool
        ensures { result ≡ is_fit self }
    {
        matches!(self, Answer::Fits)
    }
}

/// The byte at an index; 0 past the end.
fn byte_at(text: &[u8], index: usize) -> u8
    ensures { result ≡ slice_index text.now index }
{
    if index < text.len() { text[index] } else { 0 }
}

/// What is left of a text after its first bytes.
fn after(text: &[u8], count: usize) -> &[u8]
    ensures { result.now ≡ drop count text.now }
{
    if count < text.len() {
        &text[count..]
    } else {
        &[]
    }
}

/// Number of bytes of the first character of a set.
fn character_len(set: &[u8]) -> usize
    ensures value { result ≡ spec.character_len set.now }
    ensures least { 1 ≤ result }
    ensures most { result ≤ 2 }
{
    if byte_at(set, 0) == b'\\' { 2 } else { 1 }
}

/// The first character of a set.
fn character(set: &[u8]) -> u8
    ensures { result ≡ spec.character set.now }
{
    byte_at(set, character_len(set) - 1)
}

/// Whether the first character of a set begins a range.
fn begins_range(set: &[u8]) -> bool
    ensures { result ≡ spec.begins_range set.now }
{
    let len = character_len(set);
    byte_at(set, len) == b'-' && len + 1 < set.len()
}

/// What follows the first character of a range and its `-`.
fn range_end(set: &[u8]) -> &[u8]
    ensures { result.now ≡ spec.range_end set.now }
{
    after(set, character_len(set) + 1)
}

/// Number of bytes of the first item of a set.
fn item_len(set: &[u8]) -> usize
    ensures value { result ≡ spec.item_len set.now }
    ensures least { 1 ≤ result }
{
    let len = character_len(set);
    if begins_range(set) {
        len + 1 + character_len(range_end(set))
    } else {
        len
    }
}

/// Whether the first item of a set has a byte.
fn item_has(set: &[u8], byte: u8) -> bool
    ensures { result ≡ spec.item_has set.now byte }
{
    let first = character(set);
    first == byte || (begins_range(set) && first <= byte && byte <= character(range_end(set)))
}

/// Whether a set has a byte.
fn has(set: &[u8], byte: u8) -> bool
    ensures { result ≡ spec.has_after 0 set.now byte }
{
    let mut rest = set;
    while !rest.is_empty() {
        if item_has(rest, byte) {
            return true;
        }
        rest = after(rest, item_len(rest));
    }
    false
}

/// Number of bytes of the set that begins a glob, before its `]`: all where there is none.
fn set_len(glob: &[u8]) -> usize
    ensures value { result ≡ spec.set_len glob.now }
    ensures within { result ≤ length glob.now }
{
    let mut skip = character_len(glob);
    for (index, &byte) in glob.iter().enumerate() {
        if skip > 0 {
            skip -= 1;
        } else if byte == b']' {
            return index;
        } else if byte == b'\\' {
            skip = 1;
        }
    }
    glob.len()
}

/// Whether a set that begins a glob is closed, and a byte is among its bytes or isn't.
fn set_takes(is_among: bool, glob: &[u8], byte: u8) -> bool
    ensures { result ≡ spec.set_takes is_among glob.now byte }
{
    let len = set_len(glob);
    len < glob.len() && has(&glob[..len], byte) == is_among
}

/// Whether a set stands for all bytes but its own.
fn is_negated(glob: &[u8]) -> bool
    ensures { result ≡ spec.is_negated glob.now }
{
    byte_at(glob, 0) == b'!' || byte_at(glob, 0) == b'^'
}

/// Number of bytes of the first part of a glob.
fn part_len(glob: &[u8]) -> usize
    ensures value { result ≡ spec.part_len glob.now }
    ensures least { 1 ≤ result }
{
    match glob {
        [b'[', set @ ..] if is_negated(set) => 3 + set_len(after(set, 1)),
        [b'[', set @ ..] => 2 + set_len(set),
        [b'\\', ..] => 2,
        _ => 1,
    }
}

/// Whether the first part of a glob, which is no `*`, stands for a byte.
fn takes(glob: &[u8], byte: u8) -> bool
    ensures { result ≡ spec.takes glob.now byte }
{
    match glob {
        [] => false,
        [b'[', set @ ..] if is_negated(set) => set_takes(false, after(set, 1), byte),
        [b'[', set @ ..] => set_takes(true, set, byte),
        [b'\\', rest @ ..] => rest.first() == Some(&byte),
        [first, ..] => *first == b'?' || *first == byte,
    }
}

/// Whether the first part of a glob, which is no `*`, stands for the first byte of a name.
fn takes_first(glob: &[u8], name: &[u8]) -> bool
    ensures { result ≡ spec.takes_first glob.now name.now }
{
    match name {
        [] => false,
        [byte, ..] => takes(glob, *byte),
    }
}

/// How a glob compares with a name.
///
/// Where no end of a name fits what follows a `*`, no `*` before it goes on: so each part of the glob
/// is compared with each byte at most once.
fn compared(glob: &[u8], name: &[u8]) -> Answer
    ensures { IsAnswer (spec.fits glob.now) name.now result }
{
    if glob.is_empty() {
        return Answer::at_end(name.is_empty());
    }
    if byte_at(glob, 0) == b'*' {
        return match compared(after(glob, 1), name) {
            Answer::Differs if name.is_empty() => Answer::FitsNoEnd,
            Answer::Differs => compared(glob, after(name, 1)),
            answer => answer,
        };
    }
    if name.is_empty() {
        Answer::FitsNoEnd
    } else if takes_first(glob, name) {
        compared(after(glob, part_len(glob)), after(name, 1))
    } else {
        Answer::Differs
    }
}

/// Whether a glob stands for all of a name.
fn fits(glob: &[u8], name: &[u8]) -> bool
    ensures { result ≡ spec.fits glob.now name.now }
{
    compared(glob, name).is_fit()
}

/// Whether the first of some globs is `**`.
fn begins_deep(globs: &[Vec<u8>]) -> bool
    ensures { result ≡ spec.begins_deep (map (λ glob. glob.items) globs.now) }
{
    match globs {
        [] => false,
        [glob, ..] => is_same(glob.as_slice(), "**"),
    }
}

/// Whether the first of some globs stands for the first of some names.
fn fits_first(globs: &[Vec<u8>], names: &[Vec<u8>]) -> bool
    ensures { result ≡ spec.fits_first (map (λ glob. glob.items) globs.now) (map (λ name. name.items) names.now) }
{
    match (globs, names) {
        ([glob, ..], [name, ..]) => fits(glob.as_slice(), name.as_slice()),
        _ => false,
    }
}

/// All globs or names but the first one.
fn rest(names: &[Vec<u8>]) -> &[Vec<u8>]
    ensures value { map (λ name. name.items) result.now ≡ drop 1 (map (λ name. name.items) names.now) }
    ensures len { length result.now ≡ length names.now - 1 }
{
    match names {
        [] => names,
        [_, rest @ ..] => rest,
    }
}

/// How globs compare with the names of a path.
fn names_compared(globs: &[Vec<u8>], names: &[Vec<u8>]) -> Answer
    ensures { IsAnswer (spec.fits_names (map (λ glob. glob.items) globs.now)) (map (λ name. name.items) names.now) result }
{
    if globs.is_empty() {
        return Answer::at_end(names.is_empty());
    }
    if begins_deep(globs) {
        if globs.len() == 1 {
            return Answer::of_folders(names.is_empty());
        }
        return match names_compared(rest(globs), names) {
            Answer::Differs if names.is_empty() => Answer::FitsNoEnd,
            Answer::Differs => names_compared(globs, rest(names)),
            answer => answer,
        };
    }
    if names.is_empty() {
        Answer::FitsNoEnd
    } else if fits_first(globs, names) {
        names_compared(rest(globs), rest(names))
    } else {
        Answer::Differs
    }
}

/// The names that a path is made of, without `.`.
fn path_names(alloc: Global, path: &[u8]) -> Result<Vec<Vec<u8>>, AllocError>
    ensures { IfOk result (λ names. map (λ name. name.items) names.items ≡ spec.path_names path.now) }
{
    let mut names = names_between(alloc, path, b'/')?;
    names.retain(|name| !is_same(name.as_slice(), "."));
    Ok(names)
}

/// Whether a glob has a slash before its last byte.
fn is_anchored(glob: &[u8]) -> bool
    ensures { result ≡ spec.is_anchored glob.now }
{
    glob[..glob.len().saturating_sub(1)].contains(&b'/')
}

/// Whether a glob ends with a slash.
fn is_of_folders(glob: &[u8]) -> bool
    ensures { result ≡ spec.is_of_folders glob.now }
{
    byte_at(glob, glob.len().saturating_sub(1)) == b'/'
}

/// The last of some names, if there are any.
fn last_name(names: &[Vec<u8>]) -> &[Vec<u8>]
    ensures { map (λ name. name.items) result.now ≡ spec.last_name (map (λ name. name.items) names.now) }
{
    &names[names.len().saturating_sub(1)..]
}

/// The names of a path that a glob is compared with: all or the last one.
fn names_for(is_anchored: bool, names: &[Vec<u8>]) -> &[Vec<u8>]
    ensures { map (λ name. name.items) result.now ≡ spec.names_for is_anchored (map (λ name. name.items) names.now) }
{
    if is_anchored { names } else { last_name(names) }
}

/// Whether a glob is one of paths like this.
fn may_stand(glob: &[u8], is_folder: bool) -> bool
    ensures { result ≡ spec.may_stand glob.now is_folder }
{
    is_folder || !is_of_folders(glob)
}

/// Whether a glob stands for the path of a file, or of a folder.
pub fn stands_for(
    alloc: Global,
    glob: &[u8],
    is_folder: bool,
    path: &[u8],
) -> Result<bool, AllocError>
    ensures { IfOk result (λ stands. stands ≡ spec.stands_for glob.now is_folder path.now) }
{
    if !may_stand(glob, is_folder) {
        return Ok(false);
    }
    let globs = path_names(alloc, glob)?;
    let names = path_names(alloc, path)?;
    let names = names_for(is_anchored(glob), names.as_slice());
    Ok(names_compared(globs.as_slice(), names).is_fit())
}
