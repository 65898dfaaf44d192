//! Laws of reports, for all texts, and of globs.
//!
//! Each law is the contract of a function with an empty body. Programs don't call them.

ghost use Rattle.starlark_tokens.specs.Files.GlobLaws.{DeepGlobsAreOfLastNames, PlainGlobsAreNames};
ghost use Rattle.starlark_tokens.specs.OutputFormats.JsonStrings.{WritesJson};

/// Each text is written as a string of JSON that means its characters.
pub fn json_strings_are_json()
    ensures { WritesJson }
{}

/// A glob without `*`, `?`, `[` and `\` stands for the name that is spelled as it is, and no other.
pub fn plain_globs_are_names()
    ensures { PlainGlobsAreNames }
{}

/// A glob after `**/` stands for a path where it stands for its last name.
pub fn deep_globs_are_of_last_names()
    ensures { DeepGlobsAreOfLastNames }
{}
