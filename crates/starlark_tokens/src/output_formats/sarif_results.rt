//! Results of SARIF, and its notifications.

ghost use Rattle.std.specs.Prelude.{◌≡◌, ◌+◌, ◌++◌, OnOk, codes, string_bytes};
ghost use Rattle.std.specs.List.{flat_map};
ghost use Rattle.starlark_tokens.specs.OutputFormats.JsonStrings.{json_string};
ghost use Rattle.starlark_tokens.specs.OutputFormats.SarifResults as spec;

use crate::output_formats::fault_lines::reason;
use crate::output_formats::json_strings::push_json_string;
use crate::output_formats::python_literals::push_ascii;
use crate::output_formats::token_lines::push_field;
use starlark_base::position::Position;
use starlark_run::printed_values::push_hex_pair;
use std::alloc::AllocError;

/// Whether a byte stands for itself in a URI's path.
fn is_unreserved(byte: u8) -> bool
    ensures { result ≡ spec.is_unreserved byte }
{
    byte.is_ascii_alphanumeric() || matches!(byte, b'-' | b'.' | b'/' | b'_' | b'~')
}

/// Appends a byte of a path as a URI has it.
fn push_uri_byte(line: &mut String, byte: u8) -> Result<(), AllocError>
    ensures { OnOk result (string_bytes line.new ≡ string_bytes line.old ++ spec.uri_byte byte) }
{
    if is_unreserved(byte) {
        return push_ascii(line, byte as char);
    }
    push_ascii(line, '%')?;
    push_hex_pair(line, byte)
}

/// Appends the bytes of a path as a URI has them.
fn push_uri_bytes(line: &mut String, path: &str) -> Result<(), AllocError>
    ensures { OnOk result (string_bytes line.new ≡ string_bytes line.old ++ flat_map spec.uri_byte path.now) }
{
    for &byte in path.as_bytes() {
        push_uri_byte(line, byte)?;
    }
    Ok(())
}

/// Appends a path as a URI: one that isn't absolute as a reference.
pub fn push_uri(line: &mut String, path: &str) -> Result<(), AllocError>
    ensures { OnOk result (string_bytes line.new ≡ string_bytes line.old ++ spec.uri path.now) }
{
    if path.starts_with("/") {
        line.push_str("file://")?;
    }
    push_uri_bytes(line, path)
}

/// Appends the code and message of a result, after a comma.
#[tactic(auto, unfolding(crate::specs::OutputFormats::SarifResults::sarif_words))]
fn push_sarif_words(line: &mut String, code: &str, message: &str) -> Result<(), AllocError>
    ensures { OnOk result (string_bytes line.new ≡ string_bytes line.old ++ spec.sarif_words code.now message.now) }
{
    line.push_str(",\n{\"ruleId\":\"")?;
    line.push_str(code)?;
    line.push_str("\",\"level\":\"error\",\"message\":{\"text\":")?;
    push_json_string(line, reason(message))?;
    Ok(())
}

/// Appends where a result begins.
#[tactic(auto, unfolding(crate::specs::OutputFormats::SarifResults::sarif_begin))]
fn push_sarif_begin(line: &mut String, prefix: &str, begin: Position) -> Result<(), AllocError>
    ensures { OnOk result (string_bytes line.new ≡ string_bytes line.old ++ spec.sarif_begin prefix.now begin.place) }
{
    push_field(line, prefix, begin.place.line)?;
    push_field(line, ",\"startColumn\":", begin.place.column)
}

/// Appends where a result ends, and its end.
#[tactic(auto, unfolding(crate::specs::OutputFormats::SarifResults::sarif_end))]
fn push_sarif_end(line: &mut String, end: Position) -> Result<(), AllocError>
    ensures { OnOk result (string_bytes line.new ≡ string_bytes line.old ++ spec.sarif_end end.place) }
{
    push_field(line, ",\"endLine\":", end.place.line)?;
    push_field(line, ",\"endColumn\":", end.place.column)?;
    line.push_str("}}}]}")?;
    Ok(())
}

/// Appends a fault between two positions as a result, after a comma.
#[tactic(auto, unfolding(crate::specs::OutputFormats::SarifResults::sarif_result))]
pub fn push_sarif_fault(
    line: &mut String,
    prefix: &str,
    begin: Position,
    end: Position,
    code: &str,
    message: &str,
) -> Result<(), AllocError>
    ensures { OnOk result (string_bytes line.new ≡ string_bytes line.old ++ spec.sarif_result prefix.now begin.place end.place code.now message.now) }
{
    push_sarif_words(line, code, message)?;
    push_sarif_begin(line, prefix, begin)?;
    push_sarif_end(line, end)
}

/// Appends the level and message of a notification, after a comma.
fn push_sarif_reason(line: &mut String, reason: &str) -> Result<(), AllocError>
    ensures { OnOk result (string_bytes line.new ≡ string_bytes line.old ++ (codes ",\n{\"level\":\"error\",\"message\":{\"text\":" ++ json_string reason.now)) }
{
    line.push_str(",\n{\"level\":\"error\",\"message\":{\"text\":")?;
    push_json_string(line, reason)?;
    Ok(())
}

/// Appends that a file has no text, and why, as a notification after a comma.
#[tactic(auto, unfolding(crate::specs::OutputFormats::SarifResults::sarif_notice))]
pub fn push_sarif_notice(line: &mut String, name: &str, reason: &str) -> Result<(), AllocError>
    ensures { OnOk result (string_bytes line.new ≡ string_bytes line.old ++ spec.sarif_notice name.now reason.now) }
{
    push_sarif_reason(line, reason)?;
    line.push_str("},\"locations\":[{\"physicalLocation\":{\"artifactLocation\":{\"uri\":\"")?;
    push_uri(line, name)?;
    line.push_str("\"}}}]}")
}
