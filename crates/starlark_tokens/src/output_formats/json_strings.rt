//! Texts as strings of JSON.

ghost use Rattle.std.specs.Prelude.{◌≡◌, ◌<◌, ◌++◌, OnOk, string_bytes};
ghost use Rattle.std.specs.List.{flat_map};
ghost use Rattle.std.specs.Str.{chars};
ghost use Rattle.starlark_tokens.specs.OutputFormats.JsonStrings as spec;

use crate::output_formats::python_literals::push_ascii;
use starlark_run::printed_values::push_hex_pair;
use std::alloc::AllocError;

/// Appends a character as a string of JSON has it.
#[tactic(auto, unfolding(crate::specs::OutputFormats::JsonStrings::json_char))]
fn push_json_char(line: &mut String, character: char) -> Result<(), AllocError>
    ensures { OnOk result (string_bytes line.new ≡ string_bytes line.old ++ spec.json_char character) }
{
    if character == '"' || character == '\\' {
        push_ascii(line, '\\')?;
        return push_ascii(line, character);
    }
    match character {
        '\t' => line.push_str("\\t"),
        '\n' => line.push_str("\\n"),
        '\r' => line.push_str("\\r"),
        '\0'..='\x1f' => {
            line.push_str("\\u00")?;
            push_hex_pair(line, character as u8)
        }
        _ => line.push(character),
    }
}

/// Appends the characters of a text as a string of JSON has them.
fn push_json_chars(line: &mut String, text: &str) -> Result<(), AllocError>
    ensures { OnOk result (string_bytes line.new ≡ string_bytes line.old ++ flat_map spec.json_char (chars text.now)) }
{
    for character in text.chars() {
        push_json_char(line, character)?;
    }
    Ok(())
}

/// Appends a text as a string of JSON.
#[tactic(auto, unfolding(crate::specs::OutputFormats::JsonStrings::json_string))]
pub fn push_json_string(line: &mut String, text: &str) -> Result<(), AllocError>
    ensures { OnOk result (string_bytes line.new ≡ string_bytes line.old ++ spec.json_string text.now) }
{
    push_ascii(line, '"')?;
    push_json_chars(line, text)?;
    push_ascii(line, '"')
}
