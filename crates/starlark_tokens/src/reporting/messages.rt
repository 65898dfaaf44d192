//! What the program says on standard error.

ghost use Rattle.std.specs.Prelude.{IfOk, string_bytes};
ghost use Rattle.starlark_tokens.specs.OutputFormats.ShownNames.{IsShownAs};

use crate::output_formats::python_literals::{push_name, push_quoted_bytes};
use std::alloc::AllocError;
use std::fmt::Display;

/// A name on one line. One that isn't UTF-8 is shown as bytes.
pub fn one_line(rt: &HostRuntime, name: &[u8]) -> Result<String, AllocError>
    ensures { IfOk result (λ line. IsShownAs name.now (string_bytes line)) }
{
    let mut line = String::new(rt.alloc());
    match str::from_utf8(name) {
        Ok(text) => push_name(&mut line, text)?,
        Err(_) => push_quoted_bytes(&mut line, name)?,
    }
    Ok(line)
}

/// Says something of a file or an option on standard error, in the name of `starlark_tokens`.
pub fn say<D: Display>(rt: &HostRuntime, name: &[u8], what: &D) {
    let _ = match one_line(rt, name) {
        Ok(name) => eprintln!(rt; "starlark_tokens: {name}: {what}"),
        Err(_) => eprintln!(rt; "starlark_tokens: {what}"),
    };
}
