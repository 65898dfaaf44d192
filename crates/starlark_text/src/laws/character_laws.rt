//! Laws on dialects and characters. Each is the contract of a function with an empty body.

ghost use Rattle.std.specs.Prelude.{◌≡◌};
ghost use Rattle.starlark_text.specs.Characters as spec;
ghost use Rattle.starlark_text.specs.Dialects.{standard, extended, all_options};

use crate::dialect::Dialect;

/// The three dialects have the settings of their definitions.
pub fn dialects()
    ensures standard { Dialect.Standard ≡ standard }
    ensures extended { Dialect.Extended ≡ extended }
    ensures all_options { Dialect.AllOptionsInternal ≡ all_options }
{}

/// A text has as many characters as bytes that begin a character.
pub fn characters_begin_once()
    ensures { spec.CharactersBeginOnce }
{}
