//! A collection of code maps by their numbers.

ghost use Rattle.std.specs.Prelude.{◌≡◌, ◌≢◌, [], ◌<◌, ◌≤◌, ◌+◌, ℕ, Some, None, IfOk, IsOk, OnOk, OnErr, IfErr, filter, not, length, is_some, nat_eq, if◌then◌else◌, ◌==◌};
ghost use Rattle.std.specs.FinMap as map;
ghost use Rattle.std.specs.HashMap.{get, IsUnchanged, spare};
ghost use Rattle.std.specs.Map.{lookup};
ghost use Rattle.std.specs.Option.{option_copied, option_or};
ghost use Rattle.starlark_base.specs.SourceFiles.{joined, only};

use crate::codemap::{CodeMap, CodeMapId};
use std::alloc::{AllocError, Global};
use std::collections::HashMap;
use std::marker::Model;

/// A collection of code maps, at most one of each number.
///
/// In a contract it is the finite map from numbers to source files.
#[derive(Drop)]
pub struct CodeMaps {
    alloc: Global,
    codemaps: HashMap<CodeMapId, CodeMap>,
}

impl Model for CodeMaps {
    ghost use Rattle.std.specs.FinMap as map;
    ghost use Rattle.std.specs.Ordering.{nat_cmp};
    ghost use Rattle.std.specs.Coded.{coded_ℕ};
    ghost use Rattle.starlark_base.specs.Sources.{SourceFile};
    ghost use Rattle.starlark_base.specs.SourceFiles.{source_file_code};

    ghost Value = { map.FinMap nat_cmp SourceFile };

    ghost coded = { map.code coded_ℕ source_file_code };

    ghost view = { λ a. map.from_entries a.codemaps.entries };
}

/// The code maps of `others` whose numbers `codemaps` doesn't have. They share their texts.
fn shared_new(
    alloc: Global,
    codemaps: &HashMap<CodeMapId, CodeMap>,
    others: &HashMap<CodeMapId, CodeMap>,
) -> Result<Vec<(CodeMapId, CodeMap)>, AllocError>
    ensures new { IfOk result (λ new. new.items ≡ filter (λ e. not (is_some (get nat_eq codemaps.now e.0))) others.now.entries) }
    ensures wanted { OnErr result (filter (λ e. not (is_some (get nat_eq codemaps.now e.0))) others.now.entries ≢ []) }
{
    let mut new = Vec::new(alloc);
    for (id, codemap) in others {
        if !codemaps.contains_key(id) {
            new.push((*id, codemap.dupe()?))?;
        }
    }
    Ok(new)
}

/// Inserts a code map at its number, unless that number has one.
fn put_new(
    codemaps: &mut HashMap<CodeMapId, CodeMap>,
    id: CodeMapId,
    codemap: CodeMap,
) -> Result<(), AllocError>
    ensures ok { OnOk result ((q : ℕ) → get nat_eq codemaps.new q ≡ option_or (get nat_eq codemaps.old q) (if q == id then Some codemap else None)) }
    ensures err { OnErr result (IsUnchanged codemaps.old codemaps.new) }
    ensures succeeds { 0 < spare codemaps.old → IsOk result }
    ensures spare { spare codemaps.old ≤ spare codemaps.new + 1 }
{
    if !codemaps.contains_key(&id) {
        codemaps.insert(id, codemap)?;
    }
    Ok(())
}

/// Inserts code maps at those of their numbers that have none. The map must have room for them.
fn put_all_new(
    codemaps: &mut HashMap<CodeMapId, CodeMap>,
    new: Vec<(CodeMapId, CodeMap)>,
) -> Result<(), AllocError>
    requires { length new.items ≤ spare codemaps.old }
    ensures puts { (q : ℕ) → get nat_eq codemaps.new q ≡ option_or (get nat_eq codemaps.old q) (lookup (nat_eq q) new.items) }
    ensures succeeds { IsOk result }
{
    for (id, codemap) in new {
        put_new(codemaps, id, codemap)?;
    }
    Ok(())
}

impl CodeMaps {
    /// An empty collection, whose later calls allocate from `alloc`. This call doesn't allocate.
    pub fn new(alloc: Global) -> Self
        ensures { result ≡ map.empty }
    {
        CodeMaps {
            alloc,
            codemaps: HashMap::new(alloc),
        }
    }

    /// The code map of a number, if there is one.
    pub fn get(&self, id: CodeMapId) -> Option<&CodeMap>
        ensures { option_copied result ≡ map.get self.now id }
    {
        self.codemaps.get(&id)
    }

    /// Adds a code map, which shares its text, unless its number has one.
    ///
    /// Nothing changes on `AllocError`.
    pub fn add(&mut self, codemap: &CodeMap) -> Result<(), AllocError>
        ensures ok { OnOk result (self.new ≡ joined self.old (only codemap.now)) }
        ensures err { OnErr result (self.new ≡ self.old) }
        ensures wanted { OnErr result (map.get self.old codemap.now.id ≡ None) }
    {
        let id = codemap.id();
        if self.codemaps.contains_key(&id) {
            return Ok(());
        }
        self.codemaps.insert(id, codemap.dupe()?)?;
        Ok(())
    }

    /// Adds the code maps whose numbers have none yet. They share their texts.
    ///
    /// Nothing changes on `AllocError`.
    pub fn add_all(&mut self, codemaps: &CodeMaps) -> Result<(), AllocError>
        ensures ok { OnOk result (self.new ≡ joined self.old codemaps.now) }
        ensures err { OnErr result (self.new ≡ self.old) }
        ensures wanted { OnErr result (joined self.old codemaps.now ≢ self.old) }
    {
        let new = shared_new(self.alloc, &self.codemaps, &codemaps.codemaps)?;
        if new.is_empty() {
            return Ok(());
        }
        self.codemaps.reserve(new.len())?;
        put_all_new(&mut self.codemaps, new)
    }
}
