//! The lines of a fault: its place and message, the line of the source, and carets.

ghost use Rattle.std.specs.Prelude.{◌≡◌, ◌<◌, ◌-◌, ◌++◌, OnOk, count_by, replicate, string_bytes, take};
ghost use Rattle.starlark_text.specs.Characters.{starts_character};
ghost use Rattle.std.specs.List.{flat_map};
ghost use Rattle.std.specs.Str.{IsCharBoundary, chars};
ghost use Rattle.starlark_tokens.specs.OutputFormats.ItemLines as spec;
ghost use Rattle.starlark_tokens.specs.Reporting.Reports.{source_fault};

use crate::output_formats::character_widths::width;
use crate::output_formats::python_literals::{is_hidden, push_ascii, push_one_line};
use crate::output_formats::source_lines::{ShownLine, shown_line};
use starlark_base::position::Position;
use starlark_text::character_starts::count_starts;
use std::alloc::AllocError;

/// What stands where a line goes on.
const ELLIPSIS: &str = "\u{2026}";

/// What the lexer's messages begin with.
const MESSAGE_BEGIN: &str = "Parse error: ";

/// A message without what all messages begin with.
pub fn reason(message: &str) -> &str
    ensures { result.now ≡ spec.reason message.now }
{
    match message.strip_prefix(MESSAGE_BEGIN) {
        Some(reason) => reason,
        None => message,
    }
}

/// The line before byte `at` of a text.
pub fn line_front(text: &str, at: usize) -> &str
    requires { IsCharBoundary text.now at }
    ensures { result.now ≡ spec.line_front text.now at }
{
    let front = &text[..at];
    match front.rfind('\n') {
        Some(last) => &front[last + 1..],
        None => front,
    }
}

/// The line from byte `at` of a text on, without its LF.
pub fn line_back(text: &str, at: usize) -> &str
    requires { IsCharBoundary text.now at }
    ensures { result.now ≡ spec.line_back text.now at }
{
    let rest = &text[at..];
    match rest.find('\n') {
        Some(len) => &rest[..len],
        None => rest,
    }
}

/// A text without the CR at its end, if it has one.
pub fn without_cr(text: &str) -> &str
    ensures { result.now ≡ spec.without_cr text.now }
{
    let bytes = text.as_bytes();
    if bytes.is_empty() || bytes[bytes.len() - 1] != b'\r' {
        return text;
    }
    &text[..text.len() - 1]
}

/// Appends a character of the source: one that is hidden has another in its place.
fn push_source_char(line: &mut String, character: char) -> Result<(), AllocError>
    ensures { OnOk result (string_bytes line.new ≡ string_bytes line.old ++ spec.source_char character) }
{
    if character != '\t' && is_hidden(character) {
        return line.push(char::REPLACEMENT_CHARACTER);
    }
    line.push(character)
}

/// Appends a part of a line of the source.
fn push_source(line: &mut String, part: &str) -> Result<(), AllocError>
    ensures { OnOk result (string_bytes line.new ≡ string_bytes line.old ++ spec.source_text part.now) }
{
    for character in part.chars() {
        push_source_char(line, character)?;
    }
    Ok(())
}

/// Number of columns of a terminal that a character of the source takes.
fn shown_width(character: char) -> usize
    ensures { result ≡ spec.shown_width character }
{
    if is_hidden(character) {
        1
    } else {
        width(character)
    }
}

/// Appends so many copies of an ASCII character.
fn push_copies(line: &mut String, character: char, count: usize) -> Result<(), AllocError>
    requires { character < 128 }
    ensures { OnOk result (string_bytes line.new ≡ string_bytes line.old ++ replicate count character) }
{
    for _ in 0..count {
        push_ascii(line, character)?;
    }
    Ok(())
}

/// Appends what is below a character before a fault: a tab below a tab, else spaces.
fn push_below_char(line: &mut String, character: char) -> Result<(), AllocError>
    ensures { OnOk result (string_bytes line.new ≡ string_bytes line.old ++ spec.below character) }
{
    if character == '\t' {
        return line.push_str("\t");
    }
    push_copies(line, ' ', shown_width(character))
}

/// Appends what is below the characters before a fault.
fn push_below(line: &mut String, front: &str) -> Result<(), AllocError>
    ensures { OnOk result (string_bytes line.new ≡ string_bytes line.old ++ flat_map spec.below (chars front.now)) }
{
    for character in front.chars() {
        push_below_char(line, character)?;
    }
    Ok(())
}

/// Number of characters that begin in the first `len` bytes of a text, or in all of it.
fn marked_count(back: &str, len: usize) -> usize
    ensures { result ≡ count_by starts_character (take len back.now) }
{
    let bytes = back.as_bytes();
    if len < bytes.len() {
        return count_starts(&bytes[..len]);
    }
    count_starts(bytes)
}

/// Number of columns that the first `count` characters of a text take.
fn columns(text: &str, count: usize) -> usize
    ensures { result ≡ spec.columns text.now count }
{
    let mut sum: usize = 0;
    for character in text.chars().take(count) {
        sum = sum.saturating_add(shown_width(character));
    }
    sum
}

/// What begins bold text on a terminal, if it is painted.
fn bold(is_painted: bool) -> &'static str
    ensures { result.now ≡ spec.bold is_painted }
{
    if is_painted { "\x1b[1m" } else { "" }
}

/// What begins red text on a terminal, if it is painted.
fn red(is_painted: bool) -> &'static str
    ensures { result.now ≡ spec.red is_painted }
{
    if is_painted { "\x1b[1;31m" } else { "" }
}

/// What ends bold and red text on a terminal, if it is painted.
fn plain(is_painted: bool) -> &'static str
    ensures { result.now ≡ spec.plain is_painted }
{
    if is_painted { "\x1b[0m" } else { "" }
}

/// Appends the place of a fault.
#[tactic(auto, unfolding(crate::specs::OutputFormats::ItemLines::fault_place))]
fn push_fault_place(
    line: &mut String,
    is_painted: bool,
    prefix: &str,
    begin: Position,
) -> Result<(), AllocError>
    ensures { OnOk result (string_bytes line.new ≡ string_bytes line.old ++ spec.fault_place is_painted prefix.now begin.place) }
{
    line.push_str(bold(is_painted))?;
    line.push_str(prefix)?;
    write!(line, "{}:", begin.place)?;
    line.push_str(plain(is_painted))
}

/// Appends that a fault is an error.
#[tactic(auto, unfolding(crate::specs::OutputFormats::ItemLines::error_word))]
fn push_error_word(line: &mut String, is_painted: bool) -> Result<(), AllocError>
    ensures { OnOk result (string_bytes line.new ≡ string_bytes line.old ++ spec.error_word is_painted) }
{
    line.push_str(" ")?;
    line.push_str(red(is_painted))?;
    line.push_str("error:")?;
    line.push_str(plain(is_painted))?;
    line.push_str(" ")
}

/// Appends what a fault is, and its code.
#[tactic(auto, unfolding(crate::specs::OutputFormats::ItemLines::fault_words))]
fn push_fault_words(line: &mut String, code: &str, message: &str) -> Result<(), AllocError>
    ensures { OnOk result (string_bytes line.new ≡ string_bytes line.old ++ spec.fault_words code.now message.now) }
{
    push_one_line(line, reason(message))?;
    line.push_str(" [")?;
    line.push_str(code)?;
    line.push_str("]\n")
}

/// Appends a line of the source without the CR at its end.
fn push_source_back(line: &mut String, back: &str) -> Result<(), AllocError>
    ensures { OnOk result (string_bytes line.new ≡ string_bytes line.old ++ spec.source_text (spec.without_cr back.now)) }
{
    push_source(line, without_cr(back))
}

/// What stands for the part of a line that isn't shown, if there is one.
fn ellipsis(is_cut: bool) -> &'static str
    ensures { result.now ≡ spec.ellipsis is_cut }
{
    if is_cut { ELLIPSIS } else { "" }
}

/// What is below the part of a line that isn't shown, if there is one.
fn below_ellipsis(is_cut: bool) -> &'static str
    ensures { result.now ≡ spec.below_ellipsis is_cut }
{
    if is_cut { " " } else { "" }
}

/// Appends the line of the source.
#[tactic(auto, unfolding(crate::specs::OutputFormats::ItemLines::source_line))]
fn push_source_line(line: &mut String, shown: ShownLine<'_>) -> Result<(), AllocError>
    ensures { OnOk result (string_bytes line.new ≡ string_bytes line.old
        ++ spec.source_line shown.entry.is_cut_before shown.entry.front.now shown.entry.back.now shown.entry.is_cut_after) }
{
    line.push_str(ellipsis(shown.is_cut_before))?;
    push_source(line, shown.front)?;
    push_source_back(line, shown.back)?;
    line.push_str(ellipsis(shown.is_cut_after))?;
    line.push_str("\n")
}

/// Appends carets below the characters that begin in the first `len` bytes of the rest of a line,
/// but at least one.
fn push_marks(line: &mut String, back: &str, len: usize) -> Result<(), AllocError>
    ensures { OnOk result (string_bytes line.new ≡ string_bytes line.old ++ spec.carets (spec.columns back.now (count_by starts_character (take len back.now)))) }
{
    push_copies(line, '^', columns(back, marked_count(back, len)).max(1))
}

/// Appends the line with carets.
#[tactic(auto, unfolding(crate::specs::OutputFormats::ItemLines::caret_line))]
fn push_caret_line(
    line: &mut String,
    is_painted: bool,
    shown: ShownLine<'_>,
    len: usize,
) -> Result<(), AllocError>
    ensures { OnOk result (string_bytes line.new ≡ string_bytes line.old
        ++ spec.caret_line is_painted shown.entry.is_cut_before shown.entry.front.now shown.entry.back.now len) }
{
    line.push_str(below_ellipsis(shown.is_cut_before))?;
    push_below(line, shown.front)?;
    line.push_str(red(is_painted))?;
    push_marks(line, shown.back, len)?;
    line.push_str(plain(is_painted))?;
    line.push_str("\n")
}

/// A fault, as its lines show it.
#[derive(Clone, Copy)]
pub struct ShownFault<'a> {
    /// Whether the lines have colours of a terminal.
    pub is_painted: bool,
    /// Where it is shown.
    pub shown: Position,
    /// Its code.
    pub code: &'a str,
    /// Its message.
    pub message: &'a str,
}

/// Appends the line of a fault's place and message.
#[tactic(auto, unfolding(crate::specs::OutputFormats::ItemLines::fault_line))]
fn push_fault_line(line: &mut String, prefix: &str, fault: ShownFault<'_>) -> Result<(), AllocError>
    ensures { OnOk result (string_bytes line.new ≡ string_bytes line.old ++ spec.fault_line fault.entry.is_painted prefix.now fault.entry.shown.place fault.entry.code.now fault.entry.message.now) }
{
    push_fault_place(line, fault.is_painted, prefix, fault.shown)?;
    push_error_word(line, fault.is_painted)?;
    push_fault_words(line, fault.code, fault.message)
}

/// Appends the lines of a fault, by what is shown of its line around the place where it is shown.
/// `len` bytes from there on belong to it.
#[tactic(auto, unfolding(crate::specs::OutputFormats::ItemLines::fault_lines))]
fn push_parted_lines(
    line: &mut String,
    prefix: &str,
    fault: ShownFault<'_>,
    shown: ShownLine<'_>,
    len: usize,
) -> Result<(), AllocError>
    ensures { OnOk result (string_bytes line.new ≡ string_bytes line.old
        ++ spec.fault_lines fault.entry.is_painted prefix.now fault.entry.shown.place fault.entry.code.now fault.entry.message.now
        shown.entry.is_cut_before shown.entry.front.now shown.entry.back.now shown.entry.is_cut_after len) }
{
    push_fault_line(line, prefix, fault)?;
    push_source_line(line, shown)?;
    push_caret_line(line, fault.is_painted, shown, len)
}

/// Appends the lines of a fault that ends at byte `end` of a text.
#[tactic(auto, unfolding(crate::specs::Reporting::Reports::source_fault))]
pub fn push_fault_lines(
    line: &mut String,
    prefix: &str,
    text: &str,
    side: u16,
    fault: ShownFault<'_>,
    end: usize,
) -> Result<(), AllocError>
    requires { IsCharBoundary text.now fault.shown.at }
    ensures { OnOk result (string_bytes line.new ≡ string_bytes line.old
        ++ source_fault fault.entry.is_painted side prefix.now text.now fault.entry.shown end fault.entry.code.now fault.entry.message.now) }
{
    let at = fault.shown.at;
    let shown = shown_line(text, at, side);
    push_parted_lines(line, prefix, fault, shown, end.saturating_sub(at))
}
