//! The lines of a token or a fault in each form.

ghost use Rattle.std.specs.Prelude.{◌≡◌, ◌++◌, ◌∷◌, OnOk, codes, string_bytes};
ghost use Rattle.std.specs.Str.{IsCharBoundary};
ghost use Rattle.starlark_tokens.specs.OutputFormats.ItemLines.{help_line, json_fault, json_line, readable_line};
ghost use Rattle.starlark_tokens.specs.OutputFormats.PythonLiterals.{quoted};
ghost use Rattle.starlark_tokens.specs.Reporting.Reports.{fault_report, source_fault, token_report};
ghost use Rattle.starlark_tokens.specs.OutputFormats.Values.{json_of, readable};
ghost use Rattle.starlark_token.specs.TokenTexts.{kind_of};
ghost use Rattle.starlark_token.specs.TokenViews.{token_view};

use crate::output_formats::fault_lines::{ShownFault, push_fault_lines, reason};
use crate::output_formats::form::Form;
use crate::output_formats::github_lines::push_github_fault;
use crate::output_formats::json_strings::push_json_string;
use crate::output_formats::python_literals::push_quoted;
use crate::output_formats::sarif_results::push_sarif_fault;
use crate::output_formats::token_lines::{push_json_head, push_readable_head};
use crate::output_formats::token_values::{push_json_value, push_readable};
use crate::told_faults::shown_places::shown_end;
use starlark_base::position::Position;
use starlark_token::tokens::Token;
use std::alloc::AllocError;

/// Appends the line of a token for people.
fn push_readable_token(
    lines: &mut String,
    prefix: &str,
    begin: Position,
    end: Position,
    token: &Token,
) -> Result<(), AllocError>
    ensures { OnOk result (string_bytes lines.new ≡ string_bytes lines.old ++ readable_line prefix.now begin end (kind_of (token_view token.now)) (readable (token_view token.now))) }
{
    push_readable_head(lines, prefix, begin, end, token.kind())?;
    push_readable(lines, token)?;
    lines.push_str("\n")
}

/// Appends the object of JSON of a token.
fn push_json_token(
    lines: &mut String,
    prefix: &str,
    begin: Position,
    end: Position,
    token: &Token,
) -> Result<(), AllocError>
    ensures { OnOk result (string_bytes lines.new ≡ string_bytes lines.old ++ json_line prefix.now begin end (kind_of (token_view token.now)) (json_of (token_view token.now))) }
{
    push_json_head(lines, prefix, begin, end, token.kind())?;
    push_json_value(lines, token)?;
    lines.push_str("}\n")
}

/// Appends what is printed of a token between two positions.
#[tactic(auto, unfolding(crate::specs::Reporting::Reports::token_report))]
pub fn push_token(
    lines: &mut String,
    form: Form,
    prefix: &str,
    begin: Position,
    end: Position,
    token: &Token,
) -> Result<(), AllocError>
    ensures { OnOk result (string_bytes lines.new ≡ string_bytes lines.old ++ token_report form prefix.now begin end (token_view token.now)) }
{
    match form {
        Form::Tokens => push_readable_token(lines, prefix, begin, end, token),
        Form::NamedTokens => push_readable_token(lines, prefix, begin, end, token),
        Form::Json => push_json_token(lines, prefix, begin, end, token),
        Form::Faults => Ok(()),
        Form::PaintedFaults => Ok(()),
        Form::JsonFaults => Ok(()),
        Form::Github => Ok(()),
        Form::Sarif => Ok(()),
    }
}

/// Appends the line of a fault for people.
fn push_readable_fault(
    lines: &mut String,
    prefix: &str,
    begin: Position,
    end: Position,
    message: &str,
) -> Result<(), AllocError>
    ensures { OnOk result (string_bytes lines.new ≡ string_bytes lines.old ++ readable_line prefix.now begin end (codes "Fault") (32 ∷ quoted message.now)) }
{
    push_readable_head(lines, prefix, begin, end, "Fault")?;
    lines.push_str(" ")?;
    push_quoted(lines, message)?;
    lines.push_str("\n")
}

/// Appends the object of JSON of a fault.
#[tactic(auto, unfolding(crate::specs::OutputFormats::ItemLines::json_fault))]
fn push_json_fault(lines: &mut String, prefix: &str, fault: Fault<'_>) -> Result<(), AllocError>
    ensures { OnOk result (string_bytes lines.new ≡ string_bytes lines.old
        ++ json_fault prefix.now fault.entry.begin fault.entry.end fault.entry.code.now fault.entry.message.now fault.entry.help.now) }
{
    push_json_head(lines, prefix, fault.begin, fault.end, "Fault")?;
    push_json_string(lines, reason(fault.message))?;
    lines.push_str(",\"code\":\"")?;
    lines.push_str(fault.code)?;
    lines.push_str("\",\"help\":")?;
    push_json_string(lines, fault.help)?;
    lines.push_str("}\n")
}

/// Appends the line that says what to do about a fault.
#[tactic(auto, unfolding(crate::specs::OutputFormats::ItemLines::help_line))]
fn push_help(lines: &mut String, help: &str) -> Result<(), AllocError>
    ensures { OnOk result (string_bytes lines.new ≡ string_bytes lines.old ++ help_line help.now) }
{
    lines.push_str("help: ")?;
    lines.push_str(help)?;
    lines.push_str("\n")
}

/// Appends the lines of a fault with its source, in colours or without.
fn push_source_fault(
    lines: &mut String,
    is_painted: bool,
    side: u16,
    prefix: &str,
    text: &str,
    fault: Fault<'_>,
) -> Result<(), AllocError>
    requires { IsCharBoundary text.now fault.shown.at }
    ensures { OnOk result (string_bytes lines.new ≡ string_bytes lines.old
        ++ (source_fault is_painted side prefix.now text.now fault.entry.shown fault.entry.end.at fault.entry.code.now fault.entry.message.now
        ++ help_line fault.entry.help.now)) }
{
    let Fault {
        end,
        shown,
        code,
        message,
        help,
        ..
    } = fault;
    let shown = ShownFault {
        is_painted,
        shown,
        code,
        message,
    };
    push_fault_lines(lines, prefix, text, side, shown, end.at)?;
    push_help(lines, help)
}

/// A fault of a text.
#[derive(Clone, Copy)]
pub struct Fault<'a> {
    /// Where it begins.
    pub begin: Position,
    /// Where it ends.
    pub end: Position,
    /// Where it is shown with its line of the source.
    pub shown: Position,
    /// Its code.
    pub code: &'a str,
    /// Its message.
    pub message: &'a str,
    /// What to do about it.
    pub help: &'a str,
}

/// Appends what is printed of a fault of a text.
#[tactic(auto, unfolding(crate::specs::Reporting::Reports::fault_report))]
pub fn push_fault(
    lines: &mut String,
    form: Form,
    side: u16,
    prefix: &str,
    text: &str,
    fault: Fault<'_>,
) -> Result<(), AllocError>
    requires { IsCharBoundary text.now fault.shown.at }
    ensures { OnOk result (string_bytes lines.new ≡ string_bytes lines.old
        ++ fault_report form side prefix.now text.now fault.entry.shown fault.entry.begin fault.entry.end fault.entry.code.now fault.entry.message.now fault.entry.help.now) }
{
    let Fault {
        begin,
        end,
        shown,
        code,
        message,
        ..
    } = fault;
    let shown_end = shown_end(shown, end);
    match form {
        Form::Tokens => push_readable_fault(lines, prefix, begin, end, message),
        Form::NamedTokens => push_readable_fault(lines, prefix, begin, end, message),
        Form::Json => push_json_fault(lines, prefix, fault),
        Form::Faults => push_source_fault(lines, false, side, prefix, text, fault),
        Form::PaintedFaults => push_source_fault(lines, true, side, prefix, text, fault),
        Form::JsonFaults => push_json_fault(lines, prefix, fault),
        Form::Github => push_github_fault(lines, prefix, shown, shown_end, code, message),
        Form::Sarif => push_sarif_fault(lines, prefix, shown, shown_end, code, message),
    }
}
