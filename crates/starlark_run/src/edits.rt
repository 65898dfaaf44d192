//! Edits of texts.

ghost use Rattle.std.specs.Prelude.{◌≡◌, ◌+◌, ◌↔◌, IfOk, IsTrue, length, string_bytes, true};
ghost use Rattle.starlark_base.specs.Sources.{Holds, holds};
ghost use Rattle.starlark_run.specs.Edits.{edit_fits, edit_span, edited_text};
ghost use Rattle.starlark_run.specs.Inner.EditedTexts.{Fits};

use starlark_base::edit::Edit;
use std::alloc::{AllocError, Global};

/// Whether both offsets of an edit are character boundaries of a text.
fn is_held(text: &str, edit: &Edit<'_>) -> bool
    ensures held { IsTrue result ↔ Holds text.now (edit_span edit.now) }
    ensures test { result ≡ holds text.now (edit_span edit.now) }
{
    text.is_char_boundary(edit.from) && text.is_char_boundary(edit.to)
}

/// Whether an edit fits a text.
pub fn fits(text: &str, edit: &Edit<'_>) -> bool
    ensures test { result ≡ edit_fits text.now edit.now }
    ensures places { result ≡ true → Fits text.now edit.now }
{
    edit.from <= edit.to && is_held(text, edit)
}

/// Number of bytes of a text that an edit keeps.
pub fn kept_len(text: &str, edit: &Edit<'_>) -> usize
    requires { Fits text.now edit.now }
    ensures { result + edit.now.to ≡ length text.now + edit.now.from }
{
    text.len() - (edit.to - edit.from)
}

/// The text after an edit. `len` is its length in bytes. `AllocError` where memory runs out.
pub fn edited(alloc: Global, text: &str, edit: &Edit<'_>, len: usize) -> Result<String, AllocError>
    requires { Fits text.now edit.now }
    ensures { IfOk result (λ edited. string_bytes edited ≡ edited_text text.now edit.now) }
{
    let mut edited = String::with_capacity(alloc, len)?;
    edited.push_str(&text[..edit.from])?;
    edited.push_str(edit.text)?;
    edited.push_str(&text[edit.to..])?;
    Ok(edited)
}
