//! Prints the report of a text.

ghost use Rattle.std.specs.Prelude.{◌≡◌, ◌-◌, ◌<◌, ◌^◌, List, [], ◌∷◌, IfOk, OnOk, Some, count_by, drop, length, min, string_bytes};
ghost use Rattle.starlark_devices.specs.Calls.{Going};
ghost use Rattle.starlark_base.specs.Sources.{SourceFile};
ghost use Rattle.starlark_recovery.specs.RecoveringLexer.{all_items, left_after};
ghost use Rattle.starlark_tokens.specs.Inner.Reporters.{IsReady, Keeps};
ghost use Rattle.starlark_tokens.specs.Reporting.Reports.{fault_count, is_fault, items_report, report, rest_report, shown_part, shown_report};
ghost use Rattle.starlark_tokens.specs.Reporting.ReportWrites.{Takes};
ghost use Rattle.starlark_lexemes.specs.Lexer.{Answers, AnswersBetween, AnswersWithin};
ghost use Rattle.starlark_token.specs.TextItems.{LexerItem};

use crate::output_formats::form::Style;
use crate::reporting::problems::report_problems;
use crate::reporting::reporter::Reporter;
use starlark_base::codemap::{CodeMap, CodeMapId, OrMemory};
use starlark_devices::{WriteDevice, write_all};
use starlark_syntax::eval_exception::EvalException;
use starlark_syntax::lexer::{Lexeme, RecoveringLexer};
use starlark_text::dialect::Dialect;
use std::alloc::{AllocError, Global};
use std::io;

/// Makes the lines of an item, but none of a fault that isn't shown, and returns how many faults it
/// is: 0 or 1.
pub fn report_item(
    reporter: &mut Reporter<'_>,
    item: Lexeme,
    is_shown: bool,
) -> Result<usize, AllocError>
    requires ready { IsReady reporter.old }
    requires answered { (file : SourceFile) × (next : LexerItem) × Answers file next item }
    requires within { AnswersWithin reporter.old.text.now (Some item) }
    requires between { AnswersBetween reporter.old.text.now (Some item) }
    ensures ready { OnOk result (IsReady reporter.new) }
    ensures kept { OnOk result (Keeps reporter.old reporter.new) }
    ensures going { OnOk result ((left : List LexerItem) → left_after (Some item) left ≡ drop 1 left) }
    ensures lines { OnOk result ((file : SourceFile) (next : LexerItem) → Answers file next item
        → string_bytes reporter.new.lines ≡ shown_report is_shown reporter.old.style (string_bytes reporter.old.prefix) reporter.old.text.now next) }
    ensures counted { IfOk result (λ count. (file : SourceFile) (next : LexerItem) → Answers file next item → count ≡ count_by is_fault (next ∷ [])) }
{
    match item {
        Ok((begin, token, end)) => {
            reporter.token(begin, &token, end)?;
            Ok(0)
        }
        Err(OrMemory::Error(exception)) => {
            if !is_shown {
                reporter.hide();
                return Ok(1);
            }
            let span = exception.error().span().unwrap().span;
            reporter.fault(span, exception.error().kind())?;
            Ok(1)
        }
        Err(OrMemory::Memory) => Err(AllocError),
    }
}

/// A code map of an empty text, for faults of which only the span's bytes are used.
fn empty_file(alloc: Global) -> Result<CodeMap, AllocError> {
    let name = String::new(alloc);
    CodeMap::new(alloc, CodeMapId::EMPTY, name, String::new(alloc)).map_err(|_| AllocError)
}

/// A lexer of all items of a text.
fn lexer_of(alloc: Global, text: &str) -> Result<RecoveringLexer<'_>, AllocError>
    requires { length text.now < 2 ^ 32 }
    ensures text { IfOk result (λ lexer. lexer.text ≡ text.now) }
    ensures left { IfOk result (λ lexer. lexer.left ≡ all_items text.now) }
{
    let file = empty_file(alloc)?;
    RecoveringLexer::new(alloc, text, &Dialect::Extended, file).map_err(|_| AllocError)
}

/// Writes the lines of all items that a lexer has left, but of `most` faults alone, and returns how
/// many of them are faults.
fn report_left<W: WriteDevice>(
    reporter: &mut Reporter<'_>,
    lexer: &mut RecoveringLexer<'_>,
    most: usize,
    writer: &mut W,
) -> io::Result<usize>
    requires ready { IsReady reporter.old }
    requires source { lexer.old.text ≡ reporter.old.text.now }
    ensures written { Takes W.calls Going writer.old writer.new (items_report reporter.old.style (string_bytes reporter.old.prefix) reporter.old.text.now most lexer.old.left) result }
    ensures kept { OnOk result (Keeps reporter.old reporter.new) }
    ensures counted { IfOk result (λ faults. faults ≡ min (count_by is_fault lexer.old.left) (2 ^ 64 - 1)) }
{
    let mut faults: usize = 0;
    while let Some(item) = lexer.next() {
        let count = report_item(reporter, item, faults < most)?;
        write_all(writer, reporter.lines.as_bytes())?;
        faults = faults.saturating_add(count);
    }
    Ok(faults)
}

/// Writes the lines of a text up to the faults which aren't shown, and returns how many faults it
/// has. Forms that have only faults have what the checks find, too.
fn report_shown<W: WriteDevice>(
    alloc: Global,
    reporter: &mut Reporter<'_>,
    style: Style<'_>,
    text: &str,
    writer: &mut W,
) -> io::Result<usize>
    requires fits { length text.now < 2 ^ 32 }
    requires ready { IsReady reporter.old }
    requires text { text.now ≡ reporter.old.text.now }
    requires style { reporter.old.style ≡ style }
    ensures written { Takes W.calls Going writer.old writer.new (shown_part style.entry (string_bytes reporter.old.prefix) text.now) result }
    ensures kept { OnOk result (Keeps reporter.old reporter.new) }
    ensures counted { IfOk result (λ faults. faults ≡ min (fault_count style.entry text.now) (2 ^ 64 - 1)) }
{
    let mut lexer = lexer_of(alloc, text)?;
    if style.form.has_only_faults() {
        return report_problems(alloc, reporter, &mut lexer, style.most, writer);
    }
    report_left(reporter, &mut lexer, style.most, writer)
}

/// Writes the line that counts the faults which aren't shown, if there are some.
fn report_rest<W: WriteDevice>(
    reporter: &mut Reporter<'_>,
    hidden: usize,
    writer: &mut W,
) -> io::Result<()>
    ensures { Takes W.calls Going writer.old writer.new (rest_report reporter.old.style.form (string_bytes reporter.old.prefix) hidden) result }
{
    reporter.rest(hidden)?;
    write_all(writer, reporter.lines.as_bytes())
}

/// Prints the report of the text `name` in a style, and returns how many faults it has.
///
/// The text must be shorter than 2^32 bytes. Fails at the first write that fails, which isn't tried
/// again, and with `OutOfMemory` where memory runs out. Then a beginning of the report is written.
pub fn report_text<W: WriteDevice>(
    alloc: Global,
    style: Style<'_>,
    name: &str,
    text: &str,
    writer: &mut W,
) -> io::Result<usize>
    requires fits { length text.now < 2 ^ 32 }
    ensures written { Takes W.calls Going writer.old writer.new (report style.entry name.now text.now) result }
    ensures counted { IfOk result (λ faults. faults ≡ min (fault_count style.entry text.now) (2 ^ 64 - 1)) }
{
    let mut reporter = Reporter::new(alloc, style, name, text)?;
    let faults = report_shown(alloc, &mut reporter, style, text, writer)?;
    report_rest(&mut reporter, faults.saturating_sub(style.most), writer)?;
    Ok(faults)
}
