//! What is said of all files of a run.

ghost use Rattle.std.specs.Prelude.{◌≡◌, ◌++◌, IfOk, OnOk, string_bytes};
ghost use Rattle.starlark_tokens.specs.Reporting.Counts as spec;

use crate::reporting::totals::Totals;
use std::alloc::{AllocError, Global};

/// What follows the number of faults.
fn after_faults(count: usize) -> &'static str
    ensures { result.now ≡ spec.after_faults count }
{
    if count == 1 {
        " fault in "
    } else {
        " faults in "
    }
}

/// What follows the number of files.
fn after_files(count: usize) -> &'static str
    ensures { result.now ≡ spec.after_files count }
{
    if count == 1 { " file" } else { " files" }
}

/// Appends how many files couldn't be read, if there are some.
fn push_unreadable(line: &mut String, count: usize) -> Result<(), AllocError>
    ensures { OnOk result (string_bytes line.new ≡ string_bytes line.old ++ spec.unreadable_text count) }
{
    if count == 0 {
        return Ok(());
    }
    write!(line, "; {count} couldn't be read")
}

/// Appends how many files have been read.
fn push_files(line: &mut String, totals: Totals) -> Result<(), AllocError>
    ensures { OnOk result (string_bytes line.new ≡ string_bytes line.old ++ spec.files_text totals) }
{
    let Totals {
        files,
        faulty_files,
        ..
    } = totals;
    write!(line, "{faulty_files} of {files}")?;
    line.push_str(after_files(files))
}

/// The line that counts faults and files.
pub fn count_line(alloc: Global, totals: Totals) -> Result<String, AllocError>
    ensures { IfOk result (λ line. string_bytes line ≡ spec.count_line totals) }
{
    let faults = totals.faults;
    let mut line = format!(in alloc; "{faults}")?;
    line.push_str(after_faults(faults))?;
    push_files(&mut line, totals)?;
    push_unreadable(&mut line, totals.unreadable)?;
    line.push_str("\n")?;
    Ok(line)
}
