//! Laws on texts, spans and code maps. Each is the contract of a function with an empty body.

ghost use Rattle.std.specs.Prelude.{◌≡◌, ◌<◌, ◌+◌, ◌↔◌, ℕ, IsTrue, length, count_by};
ghost use Rattle.std.specs.List.{concat};
ghost use Rattle.std.specs.Str.{IsUtf8, IsCharBoundary};
ghost use Rattle.std.specs.FinMap as map;
ghost use Rattle.std.specs.Option.{option_or};
ghost use Rattle.starlark_base.specs.Spans.{ByteSpan};
ghost use Rattle.starlark_base.specs.SpanPairs.{Meets};
ghost use Rattle.starlark_base.specs.Lines.{line_texts};
ghost use Rattle.starlark_base.specs.Places.{Text, is_lf, place_at, StandsBefore};
ghost use Rattle.starlark_base.specs.SourceFiles.{SourceFiles, joined};

use crate::codemap::{CodeMap, FileSpan, ResolvedPos};
use std::cmp::{Ord, Ordering};
use std::hash::Hash;

/// If one span intersects another, the other intersects it.
pub fn intersecting_is_symmetric()
    ensures { (a b : ByteSpan) → Meets a b → Meets b a }
{}

/// Resolving keeps the order of positions: the earlier one gets the earlier line and column.
///
/// Both must be character boundaries. Earlier means by line, then column, as `Ord` has it.
pub fn resolving_keeps_order()
    ensures before { (text : Text) (a b : ℕ) → IsUtf8 text → IsCharBoundary text a → IsCharBoundary text b → a < b
        → StandsBefore (place_at text a) (place_at text b) }
    ensures less { (text : Text) (a b : ℕ) → IsUtf8 text → IsCharBoundary text a → IsCharBoundary text b → a < b
        → ⟦<ResolvedPos as Ord>⟧.cmp (place_at text a) (place_at text b) ≡ Ordering.Less }
{}

/// The lines of a text are one more than its LF, and they join to the text.
pub fn lines_join_to_the_text()
    ensures pieces { (text : Text) → length (line_texts text) ≡ count_by is_lf text + 1 }
    ensures joined { (text : Text) → concat (line_texts text) ≡ text }
{}

/// Joining two collections of source files keeps the first one's file of each number.
pub fn joining_keeps_the_first()
    ensures { (a b : SourceFiles) (id : ℕ) → map.get (joined a b) id ≡ option_or (map.get a id) (map.get b id) }
{}

/// Equal code maps have equal hashes.
pub fn equal_code_maps_hash_alike(a: &CodeMap, b: &CodeMap)
    ensures { IsTrue (⟦<CodeMap as PartialEq>⟧.eq a.now b.now) → ⟦<CodeMap as Hash>⟧.hash_input a.now ≡ ⟦<CodeMap as Hash>⟧.hash_input b.now }
{}

/// File spans are equal exactly where `cmp` returns `Equal`, and equal ones have equal hashes.
pub fn file_spans_agree(a: &FileSpan, b: &FileSpan)
    ensures order { IsTrue (⟦<FileSpan as PartialEq>⟧.eq a.now b.now) ↔ (⟦<FileSpan as Ord>⟧.cmp a.now b.now ≡ Ordering.Equal) }
    ensures hash { IsTrue (⟦<FileSpan as PartialEq>⟧.eq a.now b.now) → ⟦<FileSpan as Hash>⟧.hash_input a.now ≡ ⟦<FileSpan as Hash>⟧.hash_input b.now }
{}
