//! Laws of the checks. Each is the contract of a function with an empty body. Programs don't call
//! them.

ghost use Rattle.starlark_checks.specs.NestedBrackets.{NestedAreQuiet, QuietNest};

/// Where brackets and f-strings nest, no check of brackets finds anything, and none stays open.
/// Code without f-strings nests where this is so.
pub fn nested_brackets()
    ensures quiet { NestedAreQuiet }
    ensures nest { QuietNest }
{}
