//! Lists of names: those of a folder, and those in a file.

ghost use Rattle.std.specs.Prelude.{◌≡◌, ◌++◌, ◌∷◌, List, IfOk, OnOk, map};
ghost use Rattle.starlark_base.specs.Places.{Text};
ghost use Rattle.starlark_tokens.specs.Files.NameLists as spec;

use std::alloc::{AllocError, Global};

/// Whether a byte ends each name of a list: a zero byte if the list has one, else an LF.
fn separator(list: &[u8]) -> u8
    ensures { result ≡ spec.separator list.now }
{
    if list.contains(&0) { 0 } else { b'\n' }
}

/// Appends a name, unless it is empty.
fn push_name(names: &mut Vec<Vec<u8>>, name: Vec<u8>) -> Result<(), AllocError>
    ensures { OnOk result (map (λ name. name.items) names.new.items ≡ map (λ name. name.items) names.old.items ++ spec.if_any name.items) }
{
    if !name.is_empty() {
        names.push(name)?;
    }
    Ok(())
}

/// Takes the next byte of a list into the name that has begun, or ends that name. Returns the name
/// that has begun then.
#[tactic(auto, unfolding(crate::specs::Files::NameLists::names_after))]
fn take_byte(
    alloc: Global,
    names: &mut Vec<Vec<u8>>,
    name: Vec<u8>,
    separator: u8,
    byte: u8,
) -> Result<Vec<u8>, AllocError>
    ensures { IfOk result (λ begun. (rest : Text)
        → map (λ name. name.items) names.new.items ++ spec.names_after separator begun.items rest
        ≡ map (λ name. name.items) names.old.items ++ spec.names_after separator name.items (byte ∷ rest)) }
{
    if byte == separator {
        push_name(names, name)?;
        return Ok(Vec::new(alloc));
    }
    let mut name = name;
    name.push(byte)?;
    Ok(name)
}

/// The names of a list that a byte ends or separates. Empty ones are left out.
#[tactic(auto, unfolding(crate::specs::Files::NameLists::names_after))]
pub fn names_between(alloc: Global, list: &[u8], separator: u8) -> Result<Vec<Vec<u8>>, AllocError>
    ensures { IfOk result (λ names. map (λ name. name.items) names.items ≡ spec.names_between separator list.now) }
{
    let mut names = Vec::new(alloc);
    let mut name = Vec::new(alloc);
    for &byte in list {
        name = take_byte(alloc, &mut names, name, separator, byte)?;
    }
    push_name(&mut names, name)?;
    Ok(names)
}

/// The names in a list of names, which a zero byte or else an LF ends.
pub fn listed_names(alloc: Global, list: &[u8]) -> Result<Vec<Vec<u8>>, AllocError>
    ensures { IfOk result (λ names. map (λ name. name.items) names.items ≡ spec.listed_names list.now) }
{
    names_between(alloc, list, separator(list))
}

/// The names of a folder, each ended by a zero byte, in the order of their bytes.
pub fn folder_names(alloc: Global, list: &[u8]) -> Result<Vec<Vec<u8>>, AllocError>
    ensures { IfOk result (λ names. spec.AreFolderNames list.now (map (λ name. name.items) names.items)) }
{
    let mut names = names_between(alloc, list, 0)?;
    names.sort()?;
    Ok(names)
}
