//! What a document begins and ends with, around the reports of its files.

ghost use Rattle.std.specs.Prelude.{◌≡◌, ◌++◌, IfOk, OnOk, decimal, string_bytes};
ghost use Rattle.starlark_tokens.specs.OutputFormats.ReportDocuments as spec;

use crate::build::IS_PROVED;
use crate::output_formats::form::Form;
use crate::output_formats::rules::RULES;
use crate::reporting::totals::Totals;
use std::alloc::{AllocError, Global};

/// The first line of a document of JSON.
fn json_opening(alloc: Global) -> Result<String, AllocError>
    ensures { IfOk result (λ text. string_bytes text ≡ spec.json_opening) }
{
    let mut text = String::from_str(
        alloc,
        "{\"format\":\"starlark_lexemes\",\"version\":1,\"proved\":",
    )?;
    text.push_str(IS_PROVED)?;
    text.push_str("}\n")?;
    Ok(text)
}

/// A document of SARIF up to its results.
fn sarif_opening(alloc: Global) -> Result<String, AllocError>
    ensures { IfOk result (λ text. string_bytes text ≡ spec.sarif_opening) }
{
    let mut text = String::from_str(alloc, RULES)?;
    text.push_str(IS_PROVED)?;
    text.push_str("}}},\"columnKind\":\"unicodeCodePoints\",\"results\":[")?;
    Ok(text)
}

/// What a document begins with.
#[tactic(auto, unfolding(crate::specs::OutputFormats::ReportDocuments::opening))]
pub fn opening(alloc: Global, form: Form) -> Result<String, AllocError>
    ensures { IfOk result (λ text. string_bytes text ≡ spec.opening form) }
{
    match form {
        Form::Json => json_opening(alloc),
        Form::JsonFaults => json_opening(alloc),
        Form::Sarif => sarif_opening(alloc),
        _ => Ok(String::new(alloc)),
    }
}

/// Appends the text before a number, and the number.
fn push_count(text: &mut String, before: &str, count: usize) -> Result<(), AllocError>
    ensures { OnOk result (string_bytes text.new ≡ string_bytes text.old ++ (before.now ++ decimal count)) }
{
    write!(text, "{before}{count}")
}

/// Appends what was found, as fields of an object of JSON, and its end.
#[tactic(auto, unfolding(crate::specs::OutputFormats::ReportDocuments::json_counts))]
fn push_counts(text: &mut String, totals: Totals) -> Result<(), AllocError>
    ensures { OnOk result (string_bytes text.new ≡ string_bytes text.old ++ spec.json_counts totals) }
{
    push_count(text, ",\"files\":", totals.files)?;
    push_count(text, ",\"faulty_files\":", totals.faulty_files)?;
    push_count(text, ",\"faults\":", totals.faults)?;
    push_count(text, ",\"unreadable\":", totals.unreadable)?;
    text.push_str("}\n")
}

/// The last line of a document of JSON.
fn json_closing(alloc: Global, totals: Totals) -> Result<String, AllocError>
    ensures { IfOk result (λ text. string_bytes text ≡ spec.json_closing totals) }
{
    let mut text = String::from_str(alloc, "{\"kind\":\"Summary\"")?;
    push_counts(&mut text, totals)?;
    Ok(text)
}

/// Appends how many files couldn't be read, and what is told of each, as a field of an object of JSON.
fn push_notification(text: &mut String, unreadable: usize, notices: &str) -> Result<(), AllocError>
    ensures { OnOk result (string_bytes text.new ≡ string_bytes text.old ++ spec.notification unreadable notices.now) }
{
    text.push_str(
        ",\"toolExecutionNotifications\":[{\"level\":\"error\",\"message\":{\"text\":\"",
    )?;
    push_count(text, "files that couldn't be read: ", unreadable)?;
    text.push_str("\"}}")?;
    text.push_str(notices)?;
    text.push_str("]")?;
    Ok(())
}

/// Appends how many files couldn't be read, if there are some, as a field of an object of JSON.
fn push_notifications(text: &mut String, unreadable: usize, notices: &str) -> Result<(), AllocError>
    ensures { OnOk result (string_bytes text.new ≡ string_bytes text.old ++ spec.notifications unreadable notices.now) }
{
    if unreadable == 0 {
        return Ok(());
    }
    push_notification(text, unreadable, notices)
}

/// A document of SARIF after its results.
fn sarif_closing(alloc: Global, totals: Totals, notices: &str) -> Result<String, AllocError>
    ensures { IfOk result (λ text. string_bytes text ≡ spec.sarif_closing totals notices.now) }
{
    let mut text = String::from_str(alloc, "\n],\"invocations\":[{\"executionSuccessful\":")?;
    text.push_str(if totals.unreadable == 0 {
        "true"
    } else {
        "false"
    })?;
    push_notifications(&mut text, totals.unreadable, notices)?;
    text.push_str("}]}]}\n")?;
    Ok(text)
}

/// What a document ends with, by what was found, and what is told of files that have no text.
#[tactic(auto, unfolding(crate::specs::OutputFormats::ReportDocuments::closing))]
pub fn closing(
    alloc: Global,
    form: Form,
    totals: Totals,
    notices: &str,
) -> Result<String, AllocError>
    ensures { IfOk result (λ text. string_bytes text ≡ spec.closing form totals notices.now) }
{
    match form {
        Form::Json => json_closing(alloc, totals),
        Form::JsonFaults => json_closing(alloc, totals),
        Form::Sarif => sarif_closing(alloc, totals, notices),
        _ => Ok(String::new(alloc)),
    }
}
