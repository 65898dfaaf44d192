//! Reports sources that have no text.

ghost use Rattle.std.specs.Prelude.{◌≡◌, ◌++◌, IfOk, codes, string_bytes};
ghost use Rattle.starlark_devices.specs.Calls.{Going};
ghost use Rattle.starlark_run.specs.Output.{hex_pair};
ghost use Rattle.starlark_tokens.specs.Files.SourceNames.{IsReason, bad_byte_text};
ghost use Rattle.starlark_tokens.specs.Inner.ReportedFailures.{IsFailureReported};
ghost use Rattle.starlark_tokens.specs.OutputFormats.FailureReports as spec;
ghost use Rattle.starlark_tokens.specs.Reporting.ReportWrites.{Takes};

use crate::files::sources::SourceFault;
use crate::output_formats::failure_reports::{failure_report, push_failure_notice};
use crate::output_formats::form::Form;
use crate::reporting::messages::{one_line, say};
use starlark_base::codemap::ResolvedPos;
use starlark_devices::{WriteDevice, write_all};
use starlark_run::printed_values::push_hex_pair;
use std::alloc::{AllocError, Global};
use std::io;

/// That a byte isn't UTF-8.
fn bad_byte_words(alloc: Global, byte: u8) -> Result<String, AllocError>
    ensures { IfOk result (λ text. string_bytes text ≡ codes "not UTF-8: byte 0x" ++ hex_pair byte) }
{
    let mut text = String::from_str(alloc, "not UTF-8: byte 0x")?;
    push_hex_pair(&mut text, byte)?;
    Ok(text)
}

/// That a byte isn't UTF-8, and its place.
#[tactic(auto, unfolding(crate::specs::Files::SourceNames::bad_byte_text))]
fn bad_byte_text(alloc: Global, byte: u8, place: ResolvedPos) -> Result<String, AllocError>
    ensures { IfOk result (λ text. string_bytes text ≡ bad_byte_text byte place) }
{
    let mut text = bad_byte_words(alloc, byte)?;
    write!(text, " at {place}")?;
    Ok(text)
}

/// Why a source has no text, in words.
fn reason_of(alloc: Global, fault: &SourceFault) -> Result<String, AllocError>
    ensures { IfOk result (λ reason. IsReason fault.now (string_bytes reason)) }
{
    match fault {
        SourceFault::Unreadable(error) => format!(in alloc; "{error}"),
        SourceFault::TooLong => String::from_str(alloc, "longer than 4294967295 bytes"),
        SourceFault::NotUtf8 { byte, place } => bad_byte_text(alloc, *byte, *place),
    }
}

/// Writes what is told of a source that has no text among the reports, and flushes.
fn put_failure<W: WriteDevice>(
    alloc: Global,
    form: Form,
    name: &str,
    reason: &str,
    output: &mut W,
) -> io::Result<()>
    ensures { Takes W.calls Going output.old output.new (spec.failure_report form name.now reason.now) result }
{
    let report = failure_report(alloc, form, name, reason)?;
    write_all(output, report.as_bytes())?;
    output.flush_once()
}

/// Says on standard error why a source isn't reported: of a byte that isn't UTF-8 as a compiler says it
/// of a place, else the reason in the name of `starlark_tokens`.
fn say_fault(rt: &HostRuntime, name: &[u8], fault: &SourceFault, reason: &str) {
    let SourceFault::NotUtf8 { byte, place } = fault else {
        return say(rt, name, &reason);
    };
    let _ = match (one_line(rt, name), bad_byte_words(rt.alloc(), *byte)) {
        (Ok(name), Ok(text)) => eprintln!(rt; "{name}:{place}: error: {text}"),
        _ => eprintln!(rt; "starlark_tokens: {reason}"),
    };
}

/// Reports a source that has no text: among the reports or in the notices, as the form has it, and
/// then on standard error. Only a failure of the output, or of memory, is returned.
pub fn report_failure<W: WriteDevice>(
    rt: &HostRuntime,
    form: Form,
    name: &str,
    fault: &SourceFault,
    notices: &mut String,
    output: &mut W,
) -> io::Result<()>
    ensures { IsFailureReported W.calls form name.now fault.now (string_bytes notices.old) (string_bytes notices.new) output.old output.new result }
{
    let reason = reason_of(rt.alloc(), fault)?;
    push_failure_notice(notices, form, name, reason.as_str())?;
    put_failure(rt.alloc(), form, name, reason.as_str(), output)?;
    say_fault(rt, name.as_bytes(), fault, reason.as_str());
    Ok(())
}
