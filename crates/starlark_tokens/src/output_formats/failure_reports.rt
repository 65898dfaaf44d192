//! What is told of a source that has no text, in each form.

ghost use Rattle.std.specs.Prelude.{◌≡◌, ◌++◌, IfOk, OnOk, string_bytes};
ghost use Rattle.starlark_tokens.specs.OutputFormats.FailureReports as spec;
ghost use Rattle.starlark_tokens.specs.OutputFormats.GithubLines as github;

use crate::output_formats::form::Form;
use crate::output_formats::github_lines::push_github_failure;
use crate::output_formats::sarif_results::push_sarif_notice;
use std::alloc::{AllocError, Global};

/// The annotation of a file that has no text.
fn github_failure(alloc: Global, name: &str, reason: &str) -> Result<String, AllocError>
    ensures { IfOk result (λ line. string_bytes line ≡ github.github_failure name.now reason.now) }
{
    let mut line = String::new(alloc);
    push_github_failure(&mut line, name, reason)?;
    Ok(line)
}

/// What is told of a source that has no text among the reports.
#[tactic(auto, unfolding(crate::specs::OutputFormats::FailureReports::failure_report))]
pub fn failure_report(
    alloc: Global,
    form: Form,
    name: &str,
    reason: &str,
) -> Result<String, AllocError>
    ensures { IfOk result (λ report. string_bytes report ≡ spec.failure_report form name.now reason.now) }
{
    match form {
        Form::Github => github_failure(alloc, name, reason),
        _ => Ok(String::new(alloc)),
    }
}

/// Appends what is told of a source that has no text where the document ends.
#[tactic(auto, unfolding(crate::specs::OutputFormats::FailureReports::failure_notice))]
pub fn push_failure_notice(
    notices: &mut String,
    form: Form,
    name: &str,
    reason: &str,
) -> Result<(), AllocError>
    ensures { OnOk result (string_bytes notices.new ≡ string_bytes notices.old ++ spec.failure_notice form name.now reason.now) }
{
    match form {
        Form::Sarif => push_sarif_notice(notices, name, reason),
        _ => Ok(()),
    }
}
