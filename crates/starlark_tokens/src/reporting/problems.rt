//! Reports of problems alone: the faults of a text, and what the checks find in it.

ghost use Rattle.std.specs.Option.{option_map};
ghost use Rattle.std.specs.Prelude.{◌≡◌, ◌-◌, ◌^◌, ◌+◌, ◌∷◌, [], Err, List, IfOk, OnOk, Option, Some, drop, length, map, min, nat_lt, option_to_list, string_bytes};
ghost use Rattle.starlark_base.specs.Places.{Text};
ghost use Rattle.starlark_base.specs.Sources.{SourceFile};
ghost use Rattle.starlark_checks.specs.Findings.{Passed};
ghost use Rattle.starlark_checks.specs.Inner.CheckerViews.{HasPassed};
ghost use Rattle.starlark_checks.specs.OpenStack.{never_closed};
ghost use Rattle.starlark_devices.specs.Calls.{Going};
ghost use Rattle.starlark_lexemes.specs.Lexer.{Answers, AnswersBetween, AnswersWithin};
ghost use Rattle.starlark_recovery.specs.RecoveringLexer.{left_after};
ghost use Rattle.starlark_token.specs.TextItems.{LexerItem};
ghost use Rattle.starlark_tokens.specs.Inner.FoundProblems.{IsFound, IsHeld, joined_with};
ghost use Rattle.starlark_tokens.specs.Inner.Reporters.{IsReady, Keeps, shown_problems};
ghost use Rattle.starlark_tokens.specs.Reporting.ReportWrites.{Takes};
ghost use Rattle.starlark_tokens.specs.Reporting.Reports.{problem_report, problems_report};
ghost use Rattle.starlark_tokens.specs.ToldFaults.Problems.{OfCheck, Problem, joined, passed, problem_at, problems_from, told};

use crate::reporting::report::report_item;
use crate::reporting::reporter::Reporter;
use crate::told_faults::found_problems::{FoundProblem, found_fault, hold, tells_problem};
use starlark_base::codemap::OrMemory;
use starlark_checks::check::Finding;
use starlark_checks::checker::Checker;
use starlark_devices::{WriteDevice, write_all};
use starlark_syntax::lexer::{Lexeme, RecoveringLexer};
use std::alloc::{AllocError, Global};
use std::io;

/// The problem of what a check finds, if it finds something.
fn found_finding(found: Option<Finding>) -> Option<FoundProblem>
    ensures { (text : Text) → IsHeld text result (option_map OfCheck found) }
{
    match found {
        Some(finding) => Some(FoundProblem::Finding(finding)),
        None => None,
    }
}

/// The problem at an item, if there is one.
fn problem_at(
    text: &str,
    checker: &mut Checker,
    item: Lexeme,
) -> Result<Option<FoundProblem>, AllocError>
    requires answered { (file : SourceFile) × (next : LexerItem) × Answers file next item }
    requires within { AnswersWithin text.now (Some item) }
    requires between { AnswersBetween text.now (Some item) }
    ensures going { OnOk result ((left : List LexerItem) → left_after (Some item) left ≡ drop 1 left) }
    ensures found { IfOk result (λ found. (file : SourceFile) (next : LexerItem) (before : List Passed) → Answers file next item → HasPassed text.now before checker.old
        → IsHeld text.now found (problem_at text.now before next)) }
    ensures passed { OnOk result ((file : SourceFile) (next : LexerItem) (before : List Passed) → Answers file next item → HasPassed text.now before checker.old
        → HasPassed text.now (passed next ∷ before) checker.new) }
{
    match item {
        Ok((begin, token, end)) => Ok(found_finding(checker.pass(text, begin, &token, end)?)),
        Err(OrMemory::Error(exception)) => {
            checker.pass_fault();
            Ok(Some(found_fault(exception)))
        }
        Err(OrMemory::Memory) => Err(AllocError),
    }
}

/// Makes the lines of a problem.
fn report_found(reporter: &mut Reporter<'_>, found: FoundProblem) -> Result<(), AllocError>
    requires ready { IsReady reporter.old }
    requires found { (problem : Problem) × IsFound reporter.old.text.now found problem }
    ensures ready { OnOk result (IsReady reporter.new) }
    ensures kept { OnOk result (Keeps reporter.old reporter.new) }
    ensures lines { OnOk result ((problem : Problem) → IsFound reporter.old.text.now found problem
        → string_bytes reporter.new.lines ≡ problem_report reporter.old.style (string_bytes reporter.old.prefix) reporter.old.text.now problem) }
{
    match found {
        FoundProblem::Fault(exception) => {
            report_item(reporter, Err(OrMemory::Error(exception)), true)?;
            Ok(())
        }
        FoundProblem::Characters(run) => reporter.characters(run),
        FoundProblem::Finding(finding) => reporter.finding(finding),
    }
}

/// Makes the lines of a problem, but none where it isn't told or isn't shown, and returns how many
/// problems it is: 0 or 1.
fn report_done(
    alloc: Global,
    reporter: &mut Reporter<'_>,
    done: Option<FoundProblem>,
    is_shown: bool,
) -> Result<usize, AllocError>
    requires ready { IsReady reporter.old }
    requires done { (problem : Option Problem) × IsHeld reporter.old.text.now done problem }
    ensures ready { OnOk result (IsReady reporter.new) }
    ensures kept { OnOk result (Keeps reporter.old reporter.new) }
    ensures lines { OnOk result ((problem : Option Problem) → IsHeld reporter.old.text.now done problem
        → string_bytes reporter.new.lines ≡ shown_problems is_shown reporter.old.style (string_bytes reporter.old.prefix) reporter.old.text.now (told reporter.old.style.filter.now reporter.old.text.now (option_to_list problem))) }
    ensures counted { IfOk result (λ count. (problem : Option Problem) → IsHeld reporter.old.text.now done problem
        → count ≡ length (told reporter.old.style.filter.now reporter.old.text.now (option_to_list problem))) }
{
    let Some(found) = done else {
        reporter.hide();
        return Ok(0);
    };
    if !tells_problem(alloc, reporter.style.filter, reporter.text, &found)? {
        reporter.hide();
        return Ok(0);
    }
    if !is_shown {
        reporter.hide();
        return Ok(1);
    }
    report_found(reporter, found)?;
    Ok(1)
}

/// Writes the lines of a problem, if it is told and shown, and returns how many problems it is with
/// `faults` others.
fn put_done<W: WriteDevice>(
    alloc: Global,
    reporter: &mut Reporter<'_>,
    done: Option<FoundProblem>,
    faults: usize,
    most: usize,
    writer: &mut W,
) -> io::Result<usize>
    requires ready { IsReady reporter.old }
    requires done { (problem : Option Problem) × IsHeld reporter.old.text.now done problem }
    ensures ready { OnOk result (IsReady reporter.new) }
    ensures kept { OnOk result (Keeps reporter.old reporter.new) }
    ensures written { (problem : Option Problem) → IsHeld reporter.old.text.now done problem
        → Takes W.calls Going writer.old writer.new (shown_problems (nat_lt faults most) reporter.old.style (string_bytes reporter.old.prefix) reporter.old.text.now (told reporter.old.style.filter.now reporter.old.text.now (option_to_list problem))) result }
    ensures counted { IfOk result (λ count. (problem : Option Problem) → IsHeld reporter.old.text.now done problem
        → count ≡ min (faults + length (told reporter.old.style.filter.now reporter.old.text.now (option_to_list problem))) (2 ^ 64 - 1)) }
{
    let count = report_done(alloc, reporter, done, faults < most)?;
    write_all(writer, reporter.lines.as_bytes())?;
    Ok(faults.saturating_add(count))
}

/// Writes the lines of the problem that is held and of the brackets that are never closed, but of
/// `most` problems alone, after `found` others, and returns how many problems these are with those.
fn report_open<W: WriteDevice>(
    alloc: Global,
    reporter: &mut Reporter<'_>,
    checker: &mut Checker,
    held: &mut Option<FoundProblem>,
    found: usize,
    most: usize,
    writer: &mut W,
) -> io::Result<usize>
    requires ready { IsReady reporter.old }
    requires held { (last : Option Problem) × IsHeld reporter.old.text.now held.old last }
    ensures written { (last : Option Problem) → IsHeld reporter.old.text.now held.old last → Takes W.calls Going writer.old writer.new
        (problems_report reporter.old.style (string_bytes reporter.old.prefix) reporter.old.text.now (most - found) (told reporter.old.style.filter.now reporter.old.text.now (joined_with last (map OfCheck (never_closed checker.old.stack))))) result }
    ensures kept { OnOk result (Keeps reporter.old reporter.new) }
    ensures counted { IfOk result (λ faults. (last : Option Problem) → IsHeld reporter.old.text.now held.old last
        → faults ≡ min (found + length (told reporter.old.style.filter.now reporter.old.text.now (joined_with last (map OfCheck (never_closed checker.old.stack))))) (2 ^ 64 - 1)) }
{
    let mut faults = found;
    while let Some(finding) = checker.next_open() {
        let done = hold(held, Some(FoundProblem::Finding(finding)));
        faults = put_done(alloc, reporter, done, faults, most, writer)?;
    }
    put_done(alloc, reporter, held.take(), faults, most, writer)
}

/// Writes the lines of the problems of all items that a lexer has left, and of the brackets that
/// are never closed, but of `most` problems alone, and returns how many problems these are.
pub fn report_problems<W: WriteDevice>(
    alloc: Global,
    reporter: &mut Reporter<'_>,
    lexer: &mut RecoveringLexer<'_>,
    most: usize,
    writer: &mut W,
) -> io::Result<usize>
    requires ready { IsReady reporter.old }
    requires source { lexer.old.text ≡ reporter.old.text.now }
    ensures written { Takes W.calls Going writer.old writer.new
        (problems_report reporter.old.style (string_bytes reporter.old.prefix) reporter.old.text.now most (told reporter.old.style.filter.now reporter.old.text.now (joined (problems_from reporter.old.text.now [] lexer.old.left)))) result }
    ensures kept { OnOk result (Keeps reporter.old reporter.new) }
    ensures counted { IfOk result (λ faults. faults ≡ min (length (told reporter.old.style.filter.now reporter.old.text.now (joined (problems_from reporter.old.text.now [] lexer.old.left)))) (2 ^ 64 - 1)) }
{
    let mut checker = Checker::new(alloc);
    let mut held = None;
    let mut faults: usize = 0;
    while let Some(item) = lexer.next() {
        let found = problem_at(reporter.text, &mut checker, item)?;
        let done = hold(&mut held, found);
        faults = put_done(alloc, reporter, done, faults, most, writer)?;
    }
    report_open(
        alloc,
        reporter,
        &mut checker,
        &mut held,
        faults,
        most,
        writer,
    )
}
