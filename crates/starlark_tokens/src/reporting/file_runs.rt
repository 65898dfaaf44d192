//! The run of `starlark_tokens`: goes over its sources, and reports each.

ghost use Rattle.std.specs.IoError.{error_kind};
ghost use Rattle.std.specs.Prelude.{◌≡◌, ◌++◌, IfOk, drop, string_bytes};
ghost use Rattle.starlark_tokens.specs.Reporting.ReportStatus.{status_of_output, status_of_run};
ghost use Rattle.starlark_tokens.specs.OutputFormats.ReportDocuments as documents;
ghost use Rattle.starlark_devices.specs.Calls.{Done, Going};
ghost use Rattle.starlark_tokens.specs.Reporting.FileReports as spec;
ghost use Rattle.starlark_tokens.specs.Reporting.FileReports.{AreReported, AreReportedAlone, IsDocument, IsReported};
ghost use Rattle.starlark_tokens.specs.Inner.CollectedReports.{AreCollected};
ghost use Rattle.starlark_tokens.specs.Reporting.ReportWrites.{Takes};
ghost use Rattle.starlark_tokens.specs.CommandLine.Requests as requests;
ghost use Rattle.starlark_tokens.specs.Reporting.Totals.{AreTotalsOf};
ghost use Rattle.starlark_tokens.specs.declared.output_formats.form.Style.{Style};

use crate::command_line::requests::Reports;
use crate::files::sources::{Source, Sources, Texts};
use crate::output_formats::form::{Form, Style, Terminal};
use crate::output_formats::report_documents::{closing, opening};
use crate::output_formats::styles::style_of;
use crate::reporting::counts::count_line;
use crate::reporting::failures::report_failure;
use crate::reporting::report::report_text;
use crate::reporting::screen::{Progress, Screen};
use crate::reporting::summary::Summary;
use crate::reporting::totals::Totals;
use starlark_devices::{WriteDevice, write_all};
use starlark_run::TROUBLE;
use std::alloc::{AllocError, Global};
use std::io;
use std::io::{BufWriter, ErrorKind};
use std::time::Instant;

/// The exit status where nobody reads the output, by the shell's convention for a closed pipe.
const CLOSED_PIPE: u8 = 141;

/// Bytes that are kept before they are written.
const BUFFER_LEN: usize = 65_536;

/// The exit status where the output can't be written, or memory ran out for it; says which, unless
/// the output's pipe is closed.
pub fn unwritable(rt: &HostRuntime, error: &io::Error) -> u8
    ensures { result ≡ status_of_output (error_kind error.now) }
{
    if error.kind() == ErrorKind::BrokenPipe {
        return CLOSED_PIPE;
    }
    let _ = if error.kind() == ErrorKind::OutOfMemory {
        eprintln!(rt; "starlark_tokens: out of memory")
    } else {
        eprintln!(rt; "starlark_tokens: cannot write the output: {error}")
    };
    TROUBLE
}

/// Reports one source, and counts it. Only a failure of the output, or of memory for it, is returned.
fn report_source<S: Texts, W: WriteDevice>(
    rt: &HostRuntime,
    style: Style<'_>,
    texts: &S,
    source: &Source,
    summary: &mut Summary,
    output: &mut W,
) -> io::Result<()>
    ensures { IsReported (S.gives texts.now) W.calls style.entry source.now summary.old summary.new output.old output.new result }
{
    match texts.text(source) {
        Ok(text) => {
            let faults = report_text(rt.alloc(), style, source.name(), text.as_str(), output)?;
            summary.totals.add(faults);
            Ok(())
        }
        Err(fault) => {
            summary.totals.add_failure();
            report_failure(
                rt,
                style.form,
                source.name(),
                &fault,
                &mut summary.notices,
                output,
            )
        }
    }
}

/// Shows how many sources are done, where the clock can be read and memory is left.
fn show_done<W, T: WriteDevice>(rt: &HostRuntime, screen: &mut Screen<W, T>, done: usize)
    ensures { screen.new.output ≡ screen.old.output }
{
    if let Ok(now) = Instant::now(rt) {
        let _ = screen.show(done, now);
    }
}

/// Reports all sources one after another.
fn report_each<S: Texts, W: WriteDevice, T: WriteDevice>(
    rt: &HostRuntime,
    style: Style<'_>,
    texts: &S,
    sources: &Sources,
    screen: &mut Screen<W, T>,
) -> io::Result<Summary>
    ensures { AreReportedAlone (S.gives texts.now) W.calls style.entry sources.now screen.old.output screen.new.output result }
{
    let mut summary = Summary::of_unreadable(rt.alloc(), sources.lost);
    for (done, source) in sources.all.iter().enumerate() {
        show_done(rt, screen, done);
        report_source(rt, style, texts, source, &mut summary, screen)?;
    }
    Ok(summary)
}

/// Writes bytes to the output of a screen.
fn put<W: WriteDevice, T: WriteDevice>(screen: &mut Screen<W, T>, bytes: &[u8]) -> io::Result<()>
    ensures { Takes W.calls Going screen.old.output screen.new.output bytes.now result }
{
    write_all(screen, bytes)
}

/// Writes what a document begins with.
fn put_opening<W: WriteDevice, T: WriteDevice>(
    alloc: Global,
    form: Form,
    screen: &mut Screen<W, T>,
) -> io::Result<()>
    ensures { Takes W.calls Going screen.old.output screen.new.output (documents.opening form) result }
{
    let text = opening(alloc, form)?;
    put(screen, text.as_bytes())
}

/// Writes what a document ends with.
fn put_closing<W: WriteDevice, T: WriteDevice>(
    alloc: Global,
    form: Form,
    summary: &Summary,
    screen: &mut Screen<W, T>,
) -> io::Result<()>
    ensures { Takes W.calls Going screen.old.output screen.new.output (documents.closing form summary.now.totals (string_bytes summary.now.notices)) result }
{
    let text = closing(alloc, form, summary.totals, summary.notices.as_str())?;
    put(screen, text.as_bytes())
}

/// Writes an opening, the reports of all sources, and a closing.
fn report_streamed<S: Texts, W: WriteDevice, T: WriteDevice>(
    rt: &HostRuntime,
    style: Style<'_>,
    texts: &S,
    sources: &Sources,
    screen: &mut Screen<W, T>,
) -> io::Result<Summary>
    ensures { AreReported (λ totals notices reports. documents.opening style.entry.form ++ (reports ++ documents.closing style.entry.form totals notices))
        (S.gives texts.now) W.calls Going style.entry sources.now screen.old.output screen.new.output result }
{
    put_opening(rt.alloc(), style.form, screen)?;
    let summary = report_each(rt, style, texts, sources, screen)?;
    put_closing(rt.alloc(), style.form, &summary, screen)?;
    Ok(summary)
}

/// Bytes without the first one.
fn without_first(bytes: &[u8]) -> &[u8]
    ensures { result.now ≡ drop 1 bytes.now }
{
    if bytes.is_empty() { bytes } else { &bytes[1..] }
}

/// The reports of all sources, and what the document's end tells of them, in memory.
fn collected<S: Texts>(
    rt: &HostRuntime,
    style: Style<'_>,
    texts: &S,
    sources: &Sources,
) -> Result<(Summary, Vec<u8>), AllocError>
    ensures { IfOk result (λ found. AreCollected (S.gives texts.now) style.entry sources.now found.0 found.1.items) }
{
    let progress = Progress::begun(rt, sources.all.len());
    let mut results = Screen::new(rt.alloc(), Vec::new(rt.alloc()), rt.stderr(), progress);
    let summary = report_each(rt, style, texts, sources, &mut results).map_err(|_| AllocError)?;
    results.clear();
    Ok((summary, results.into_output()))
}

/// Writes an opening, the reports of all sources without their first byte, and a closing, once all
/// sources are read.
fn report_collected<S: Texts, W: WriteDevice, T: WriteDevice>(
    rt: &HostRuntime,
    style: Style<'_>,
    texts: &S,
    sources: &Sources,
    screen: &mut Screen<W, T>,
) -> io::Result<Summary>
    ensures { AreReported (λ totals notices reports. documents.opening style.entry.form ++ (drop 1 reports ++ documents.closing style.entry.form totals notices))
        (S.gives texts.now) W.calls Going style.entry sources.now screen.old.output screen.new.output result }
{
    let (summary, reports) = collected(rt, style, texts, sources)?;
    put_opening(rt.alloc(), style.form, screen)?;
    put(screen, without_first(reports.as_slice()))?;
    put_closing(rt.alloc(), style.form, &summary, screen)?;
    Ok(summary)
}

/// Writes the document of all sources.
fn report_document<S: Texts, W: WriteDevice, T: WriteDevice>(
    rt: &HostRuntime,
    style: Style<'_>,
    texts: &S,
    sources: &Sources,
    screen: &mut Screen<W, T>,
) -> io::Result<Summary>
    ensures { IsDocument (S.gives texts.now) W.calls Going style.entry sources.now screen.old.output screen.new.output result }
{
    if style.form.is_collected() {
        return report_collected(rt, style, texts, sources, screen);
    }
    report_streamed(rt, style, texts, sources, screen)
}

/// Writes the document of all sources, and returns what its end tells of them once all is written.
///
/// The contract holds for every output. Of standard output, whose calls std doesn't know, it promises
/// the totals alone.
fn report_to<S: Texts, W: WriteDevice, T: WriteDevice>(
    rt: &HostRuntime,
    style: Style<'_>,
    texts: &S,
    sources: &Sources,
    screen: &mut Screen<W, T>,
) -> io::Result<Summary>
    ensures { IsDocument (S.gives texts.now) W.calls Done style.entry sources.now screen.old.output screen.new.output result }
{
    let found = report_document(rt, style, texts, sources, screen);
    screen.clear();
    let summary = found?;
    screen.flush_once()?;
    Ok(summary)
}

/// Whether lines of tokens have the names of their sources: some are found in a folder, or they are
/// several.
fn are_named(sources: &Sources) -> bool
    ensures { result ≡ spec.are_named sources.now }
{
    sources.are_found || sources.all.len().saturating_add(sources.lost) > 1
}

/// Writes the document that is asked for, and returns what its end tells once all is written.
fn report_wanted<S: Texts, W: WriteDevice, T: WriteDevice>(
    rt: &HostRuntime,
    wanted: &Reports<'_>,
    terminal: Terminal,
    texts: &S,
    sources: &Sources,
    screen: &mut Screen<W, T>,
) -> io::Result<Summary>
    ensures { (style : Style) × requests.IsStyleOf wanted.now (spec.are_named sources.now) terminal style
        × IsDocument (S.gives texts.now) W.calls Done style sources.now screen.old.output screen.new.output result }
{
    let style = style_of(wanted, are_named(sources), terminal);
    report_to(rt, style, texts, sources, screen)
}

/// Reports all sources over standard output, and returns what was found in them.
pub fn report_sources(
    rt: &HostRuntime,
    wanted: &Reports<'_>,
    sources: &Sources,
    terminal: Terminal,
) -> io::Result<Totals>
    ensures { IfOk result (λ totals. (style : Style) × requests.IsStyleOf wanted.now (spec.are_named sources.now) terminal style × AreTotalsOf style sources.now totals) }
{
    let output = BufWriter::with_capacity(rt.alloc(), BUFFER_LEN, rt.stdout())?;
    let progress = Progress::begun(rt, sources.all.len());
    let mut screen = Screen::new(rt.alloc(), output, rt.stderr(), progress);
    let summary = report_wanted(rt, wanted, terminal, rt, sources, &mut screen)?;
    Ok(summary.totals)
}

/// Says how many faults were found, in how many files.
fn say_count(rt: &HostRuntime, totals: Totals) {
    let _ = match count_line(rt.alloc(), totals) {
        Ok(line) => rt.eprint(line.as_str()),
        Err(_) => eprintln!(rt; "starlark_tokens: out of memory"),
    };
}

/// Ends a run, and returns its exit status: that of what was found, or of why it failed.
///
/// Of a failure it says why on standard error. With `check`, and not `quiet`, it says there how many
/// faults were found.
pub fn end_run(rt: &HostRuntime, wanted: &Reports<'_>, run: &io::Result<Totals>) -> u8
    ensures { result ≡ status_of_run run.now }
{
    match run {
        Ok(totals) => {
            if wanted.check && !wanted.quiet {
                say_count(rt, *totals);
            }
            totals.status()
        }
        Err(error) => unwritable(rt, error),
    }
}
