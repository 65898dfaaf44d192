//! Lines of tokens and faults up to their values, for people and as JSON.

ghost use Rattle.std.specs.Prelude.{◌≡◌, ◌+◌, ◌++◌, OnOk, codes, decimal, string_bytes};
ghost use Rattle.starlark_tokens.specs.OutputFormats.ItemLines.{json_head, json_places, readable_head};
ghost use Rattle.starlark_base.specs.Positions.{utf16_column};

use starlark_base::position::Position;
use std::alloc::AllocError;

/// Appends the line for people up to its value: the prefix, the places and the kind.
#[tactic(auto, unfolding(crate::specs::OutputFormats::ItemLines::readable_head))]
pub fn push_readable_head(
    line: &mut String,
    prefix: &str,
    begin: Position,
    end: Position,
    kind: &str,
) -> Result<(), AllocError>
    ensures { OnOk result (string_bytes line.new ≡ string_bytes line.old ++ readable_head prefix.now begin end kind.now) }
{
    line.push_str(prefix)?;
    write!(line, "{}-{} {kind}", begin.place, end.place)
}

/// A number that counts from 1.
fn from_one(number: usize) -> u128
    ensures { result ≡ number + 1 }
{
    number as u128 + 1
}

/// Appends the text before a number, and the number as one that counts from 1.
pub fn push_field(line: &mut String, before: &str, number: usize) -> Result<(), AllocError>
    ensures { OnOk result (string_bytes line.new ≡ string_bytes line.old ++ (before.now ++ decimal (number + 1))) }
{
    let number = from_one(number);
    write!(line, "{before}{number}")
}

/// The column of a position in units of UTF-16, from 1.
fn utf16_from_one(position: Position) -> u128
    ensures { result ≡ utf16_column position + 1 }
{
    position.place.column as u128 + position.pairs as u128 + 1
}

/// Appends the column of a position in units of UTF-16.
fn push_units(line: &mut String, position: Position) -> Result<(), AllocError>
    ensures { OnOk result (string_bytes line.new ≡ string_bytes line.old ++ (codes ",\"utf16_column\":" ++ decimal (utf16_column position + 1))) }
{
    let units = utf16_from_one(position);
    write!(line, ",\"utf16_column\":{units}")
}

/// Appends lines and columns as fields of an object of JSON.
#[tactic(auto, unfolding(crate::specs::OutputFormats::ItemLines::json_places))]
fn push_json_places(line: &mut String, begin: Position, end: Position) -> Result<(), AllocError>
    ensures { OnOk result (string_bytes line.new ≡ string_bytes line.old ++ json_places begin end) }
{
    push_field(line, ",\"line\":", begin.place.line)?;
    push_field(line, ",\"column\":", begin.place.column)?;
    push_field(line, ",\"end_line\":", end.place.line)?;
    push_field(line, ",\"end_column\":", end.place.column)?;
    push_units(line, begin)
}

/// Appends the object of JSON up to its value.
#[tactic(auto, unfolding(crate::specs::OutputFormats::ItemLines::json_head))]
pub fn push_json_head(
    line: &mut String,
    prefix: &str,
    begin: Position,
    end: Position,
    kind: &str,
) -> Result<(), AllocError>
    ensures { OnOk result (string_bytes line.new ≡ string_bytes line.old ++ json_head prefix.now begin end kind.now) }
{
    line.push_str(prefix)?;
    line.push_str(kind)?;
    write!(line, "\",\"begin\":{},\"end\":{}", begin.at, end.at)?;
    push_json_places(line, begin, end)?;
    line.push_str(",\"value\":")
}
