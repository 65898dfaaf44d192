//! Runs the examples of docs/use over the sections of standard input, and prints their output.
//!
//! A section begins with a line `%%% EXAMPLE`. In that of the build tool each file begins with a
//! line `--- NAME`. In that of the versions a line `---` is between the text before an edit and the
//! text after it. In that of the editor a line `---` is between a file and what is typed before it.
#![tactic(auto)]

mod editor;
mod evaluator;
mod formatter;
mod lexeme_list;
mod linter;
mod loads;
mod parser;
mod versions;

use crate::linter::Report;
use crate::parser::Expression;
use starlark_document::{Change, Document, EditError};
use starlark_syntax::codemap::{CodeMap, CodeMapId};
use starlark_syntax::eval_exception::EvalException;
use starlark_syntax::lexer::{LexedText, SourceError};
use std::alloc::{AllocError, Global};
use std::fmt::Write;
use std::io;

/// A code map of a file's name and text.
fn file_of(alloc: Global, name: &str, text: &str) -> Result<CodeMap, SourceError> {
    let name = String::from_str(alloc, name)?;
    let source = String::from_str(alloc, text)?;
    Ok(CodeMap::new(alloc, CodeMapId::new(1), name, source)?)
}

/// The linter's output: a line for each finding, and then one for each fault.
fn linted(alloc: Global, text: &str) -> Result<String, SourceError> {
    let file = file_of(alloc, "BUILD", text)?;
    let report = linter::lint(alloc, &file)?;
    Ok(report_lines(alloc, &file, &report)?)
}

/// A line for each finding in a file, and one for each fault.
fn report_lines(alloc: Global, file: &CodeMap, report: &Report) -> Result<String, AllocError> {
    let mut lines = String::new(alloc);
    for finding in &report.findings {
        let line = linter::line_of(alloc, file, *finding)?;
        write!(lines, "{line}\n")?;
    }
    for fault in &report.faults {
        write!(lines, "{fault}\n")?;
    }
    Ok(lines)
}

/// The build tool's output: what each file loads, or its fault. A fault doesn't stop the other
/// files.
fn loaded(alloc: Global, files: &str) -> Result<String, SourceError> {
    let mut lines = String::new(alloc);
    for file in files.split("--- ") {
        if let Some((name, text)) = file.split_once('\n') {
            add_loads(alloc, &mut lines, name, text)?;
        }
    }
    Ok(lines)
}

/// Appends what a file loads, or its fault.
fn add_loads(alloc: Global, lines: &mut String, name: &str, text: &str) -> Result<(), SourceError> {
    let file = file_of(alloc, name, text)?;
    match loads::loads(alloc, &file) {
        Ok(labels) => Ok(add_labels(lines, name, &labels)?),
        Err(error) => Ok(write!(lines, "{name}: {error}\n")?),
    }
}

/// Appends a line for each label that a file loads.
fn add_labels(lines: &mut String, name: &str, labels: &[String]) -> Result<(), AllocError> {
    for label in labels {
        write!(lines, "{name} loads {label}\n")?;
    }
    Ok(())
}

/// Appends line and column of a fault, if it has a span, as editors count them.
fn add_place(lines: &mut String, fault: &EvalException) -> Result<(), AllocError> {
    let Some(place) = fault.error().span() else {
        return Ok(());
    };
    match versions::utf16_place(&place.file, place.span.begin()) {
        Some((line, column)) => write!(lines, ", a fault in line {line}, column {column}"),
        None => Ok(()),
    }
}

/// Appends a line for a version: its number of lexemes, and line and column of its fault.
fn add_version(lines: &mut String, lexed: &LexedText<'_>) -> Result<(), AllocError> {
    write!(lines, "{} lexemes", lexed.lexemes().len())?;
    if let Some(fault) = lexed.fault() {
        add_place(lines, fault)?;
    }
    lines.push('\n')
}

/// Number of bytes that two texts have in common at their starts.
fn common_len(old: &str, new: &str) -> usize {
    old.bytes()
        .zip(new.bytes())
        .take_while(|(old, new)| old == new)
        .count()
}

/// Appends a line for each of two versions of a file.
fn add_versions(
    alloc: Global,
    lines: &mut String,
    old: &CodeMap,
    new: &CodeMap,
) -> Result<(), SourceError> {
    let lexed = versions::opened(alloc, old)?;
    add_version(lines, &lexed)?;
    let from = common_len(old.source(), new.source());
    let lexed = versions::update(alloc, lexed, from, new)?;
    Ok(add_version(lines, &lexed)?)
}

/// The lines of a document: its spans, and its faults.
fn document_lines(alloc: Global, document: &Document) -> Result<String, AllocError> {
    let mut lines = String::new(alloc);
    for span in &editor::painted(alloc, document, 0, document.len())? {
        write!(lines, "{span} ")?;
    }
    for (begin, kind, end) in document.faults() {
        write!(lines, "\n{begin}-{end} {kind}")?;
    }
    lines.push('\n')?;
    Ok(lines)
}

/// The line that says what has to be painted again after an edit, or why the edit is none.
fn painted_again(alloc: Global, change: Result<Change, EditError>) -> Result<String, AllocError> {
    match change {
        Ok(change) => { format!(in alloc; "painted again: {}-{}\n", change.begin, change.new_end) }
        Err(error) => format!(in alloc; "{error}\n"),
    }
}

/// The editor's output: what is shown of a file, what has to be painted again after a text was typed
/// before it, and what is shown then.
fn typed(alloc: Global, texts: &str) -> Result<String, SourceError> {
    let Some((file, text)) = texts.split_once("---\n") else {
        return Ok(String::new(alloc));
    };
    let mut document = Document::new(alloc, file)?;
    let mut lines = document_lines(alloc, &document)?;
    let change = editor::typed(&mut document, 0, text);
    lines.push_str(painted_again(alloc, change)?.as_str())?;
    lines.push_str(document_lines(alloc, &document)?.as_str())?;
    Ok(lines)
}

/// The output of the versions: a line for the text before an edit, and one for the text after it.
fn edited(alloc: Global, versions: &str) -> Result<String, SourceError> {
    let mut lines = String::new(alloc);
    if let Some((old, new)) = versions.split_once("---\n") {
        let old = file_of(alloc, "BUILD", old)?;
        let new = file_of(alloc, "BUILD", new)?;
        add_versions(alloc, &mut lines, &old, &new)?;
    }
    Ok(lines)
}

/// Appends the text of a format string, or its error.
fn add_formatted(alloc: Global, lines: &mut String, template: &str) -> Result<(), AllocError> {
    let values = [("name", "lexer"), ("0", "don't")];
    match evaluator::formatted(alloc, template, &values) {
        Ok(text) => write!(lines, "{text}\n"),
        Err(fault) => write!(lines, "{fault}\n"),
    }
}

/// The evaluator's output: the text of each line as a format string.
fn evaluated(alloc: Global, templates: &str) -> Result<String, SourceError> {
    let mut lines = String::new(alloc);
    for template in templates.lines() {
        add_formatted(alloc, &mut lines, template)?;
    }
    Ok(lines)
}

/// The parser's output: a line for each expression, with brackets around each sum.
fn parsed(alloc: Global, text: &str) -> Result<String, SourceError> {
    let file = file_of(alloc, "BUILD", text)?;
    let lexemes = lexeme_list::lexemes_of(alloc, text, &file)?;
    let expressions = parser::expressions(alloc, &file, &lexemes)?;
    Ok(expression_lines(alloc, &expressions)?)
}

/// A line for each expression.
fn expression_lines(alloc: Global, expressions: &[Expression<'_>]) -> Result<String, AllocError> {
    let mut lines = String::new(alloc);
    for expression in expressions {
        write!(lines, "{expression}\n")?;
    }
    Ok(lines)
}

/// The formatter's output: the formatted text, or `not formatted`.
fn formatted(alloc: Global, text: &str) -> Result<String, SourceError> {
    let file = file_of(alloc, "BUILD", text)?;
    match formatter::formatted(alloc, &file)? {
        Some(formatted) => Ok(formatted),
        None => Ok(String::from_str(alloc, "not formatted\n")?),
    }
}

/// The output of an example for its section.
fn answer(alloc: Global, example: &str, text: &str) -> Result<String, SourceError> {
    match example {
        "linter" => linted(alloc, text),
        "loads" => loaded(alloc, text),
        "editor" => typed(alloc, text),
        "versions" => edited(alloc, text),
        "evaluator" => evaluated(alloc, text),
        "parser" => parsed(alloc, text),
        "formatter" => formatted(alloc, text),
        _ => Ok(String::from_str(alloc, "no such example\n")?),
    }
}

/// The printed lines of a section: its example, and the output or an error.
fn section_lines(alloc: Global, section: &str) -> Result<String, AllocError> {
    let Some((example, text)) = section.split_once('\n') else {
        return Ok(String::new(alloc));
    };
    match answer(alloc, example, text) {
        Ok(lines) => format!(in alloc; "== {example}\n{lines}"),
        Err(error) => format!(in alloc; "== {example}\n{error}\n"),
    }
}

fn main(rt: HostRuntime) -> io::Result<()> {
    let alloc = rt.alloc();
    let sections = io::read_to_string(alloc, rt.stdin())?;
    for section in sections.as_str().split("%%% ") {
        let lines = section_lines(alloc, section)?;
        print!(rt; "{lines}")?;
    }
    Ok(())
}
