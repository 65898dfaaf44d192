//! Reads a text that is one identifier.

ghost use Rattle.std.specs.Prelude.{◌≡◌, ◌↔◌, Some, None, string_bytes, IfOk, OnErr, IfSome};
ghost use Rattle.std.specs.Option.{option_map};
ghost use Rattle.starlark_grammar.specs.Front.{language_front};
ghost use Rattle.starlark_words.specs.OneIdentifier as spec;
ghost use Rattle.starlark_grammar.specs.Words.{Text};

use crate::reads::ReadCounter;
use crate::scanner::{Class, Word, first_word};
use std::alloc::{AllocError, Global};

/// The rest of a text after the skipped pieces at its front.
fn after_skipped(text: &str) -> &str
    ensures passed { spec.IsAfterSkipped text.now result.now }
    ensures all { spec.if_skipped (language_front result.now) ≡ None }
{
    let mut rest = text;
    while let Some(
        Word {
            class: Class::Skipped,
            len,
        },
    ) = first_word(&mut ReadCounter::new(), rest)
    {
        rest = &rest[len..];
    }
    rest
}

/// The identifier of a text of skipped pieces, one identifier, and skipped pieces; `None` for any
/// other
/// text.
///
/// Skipped are spaces, and newlines after a backslash. Only an identifier that is found allocates.
pub fn lex_exactly_one_identifier(alloc: Global, s: &str) -> Result<Option<String>, AllocError>
    ensures value { IfOk result (λ found. (name : Text) → (option_map string_bytes found ≡ Some name) ↔ spec.IsOneIdentifier s.now name) }
    ensures memory { OnErr result ((name : Text) × spec.IsOneIdentifier s.now name) }
{
    let rest = after_skipped(s);
    let Some(
        Word {
            class: Class::Identifier,
            len,
        },
    ) = first_word(&mut ReadCounter::new(), rest)
    else {
        return Ok(None);
    };
    if !after_skipped(&rest[len..]).is_empty() {
        return Ok(None);
    }
    Ok(Some(String::from_str(alloc, &rest[..len])?))
}
