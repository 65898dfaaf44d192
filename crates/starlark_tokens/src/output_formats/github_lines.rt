//! Annotations of GitHub, one a line.

ghost use Rattle.std.specs.Prelude.{◌≡◌, ◌+◌, ◌++◌, OnOk, codes, string_bytes};
ghost use Rattle.std.specs.List.{flat_map};
ghost use Rattle.std.specs.Str.{chars};
ghost use Rattle.starlark_tokens.specs.OutputFormats.GithubLines as spec;

use crate::output_formats::fault_lines::reason;
use crate::output_formats::token_lines::push_field;
use starlark_base::position::Position;
use std::alloc::AllocError;

/// Appends a character of a message.
fn push_github_char(line: &mut String, character: char) -> Result<(), AllocError>
    ensures { OnOk result (string_bytes line.new ≡ string_bytes line.old ++ spec.github_char character) }
{
    match character {
        '%' => line.push_str("%25"),
        '\r' => line.push_str("%0D"),
        '\n' => line.push_str("%0A"),
        _ => line.push(character),
    }
}

/// Appends a character of a property.
fn push_property_char(line: &mut String, character: char) -> Result<(), AllocError>
    ensures { OnOk result (string_bytes line.new ≡ string_bytes line.old ++ spec.property_char character) }
{
    match character {
        ':' => line.push_str("%3A"),
        ',' => line.push_str("%2C"),
        _ => push_github_char(line, character),
    }
}

/// Appends a text as a property.
pub fn push_property(line: &mut String, text: &str) -> Result<(), AllocError>
    ensures { OnOk result (string_bytes line.new ≡ string_bytes line.old ++ spec.property text.now) }
{
    for character in text.chars() {
        push_property_char(line, character)?;
    }
    Ok(())
}

/// Appends a text as a message.
fn push_message(line: &mut String, text: &str) -> Result<(), AllocError>
    ensures { OnOk result (string_bytes line.new ≡ string_bytes line.old ++ spec.message text.now) }
{
    for character in text.chars() {
        push_github_char(line, character)?;
    }
    Ok(())
}

/// Appends the annotation of a file that has no text, with the reason.
#[tactic(auto, unfolding(crate::specs::OutputFormats::GithubLines::github_failure))]
pub fn push_github_failure(line: &mut String, name: &str, reason: &str) -> Result<(), AllocError>
    ensures { OnOk result (string_bytes line.new ≡ string_bytes line.old ++ spec.github_failure name.now reason.now) }
{
    line.push_str("::error file=")?;
    push_property(line, name)?;
    line.push_str("::")?;
    push_message(line, reason)?;
    line.push_str("\n")?;
    Ok(())
}

/// Appends the title and the message of a fault.
#[tactic(auto, unfolding(crate::specs::OutputFormats::GithubLines::title))]
fn push_title(line: &mut String, code: &str, message: &str) -> Result<(), AllocError>
    ensures { OnOk result (string_bytes line.new ≡ string_bytes line.old ++ spec.title code.now message.now) }
{
    line.push_str(",title=")?;
    line.push_str(code)?;
    line.push_str("::")?;
    push_message(line, reason(message))?;
    line.push_str("\n")
}

/// Appends where an annotation ends.
#[tactic(auto, unfolding(crate::specs::OutputFormats::GithubLines::github_end))]
fn push_github_end(line: &mut String, end: Position) -> Result<(), AllocError>
    ensures { OnOk result (string_bytes line.new ≡ string_bytes line.old ++ spec.github_end end.place) }
{
    push_field(line, ",endLine=", end.place.line)?;
    push_field(line, ",endColumn=", end.place.column)
}

/// Appends the annotation of a fault between two positions.
#[tactic(auto, unfolding(crate::specs::OutputFormats::GithubLines::github_line))]
pub fn push_github_fault(
    line: &mut String,
    prefix: &str,
    begin: Position,
    end: Position,
    code: &str,
    message: &str,
) -> Result<(), AllocError>
    ensures { OnOk result (string_bytes line.new ≡ string_bytes line.old ++ spec.github_line prefix.now begin.place end.place code.now message.now) }
{
    push_field(line, prefix, begin.place.line)?;
    push_field(line, ",col=", begin.place.column)?;
    push_github_end(line, end)?;
    push_title(line, code, message)
}
