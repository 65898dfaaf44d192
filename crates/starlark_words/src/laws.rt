//! Laws on words, for all texts.
//!
//! Each law is the contract of a function with an empty body. Programs don't call them.

ghost use Rattle.starlark_words.specs.OneIdentifier.{IdentifiersStay};

/// A text is one identifier exactly if it was one before `rf'` and `rf"` were openers, and it is
/// the
/// same identifier.
pub fn identifiers_stay()
    ensures { IdentifiersStay }
{}
