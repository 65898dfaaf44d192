//! Takes margins: their lexemes become pending, and their widths go to the indentation stack.

ghost use Rattle.std.specs.Prelude.{◌≡◌, ◌+◌, ◌<◌, ◌≤◌, ◌^◌, ℕ, List, [], IfOk, IfSome, OnOk};
ghost use Rattle.starlark_reader.specs.Inner.MarginViews.{IsFaultFound, IsLaid, IsMargin, keeps_widths, margin_fault};
ghost use Rattle.starlark_reader.specs.Inner.Pending.{lexemes_after};
ghost use Rattle.starlark_reader.specs.Inner.MarginLines.{IsOfMargin};
ghost use Rattle.starlark_grammar.specs.Margins as grammar;

use crate::indent_stack::IndentStack;
use crate::margins::Margin;
use crate::pending::{AfterComments, Pending};
use starlark_token::lexeme_error::LexemeError;
use std::alloc::AllocError;

/// Whether a margin neither opens nor closes an indent.
///
/// That is so if no content follows, or if it has no tab and the greatest open width.
#[inline(always)]
pub(crate) fn keeps_widths(levels: &IndentStack, margin: Margin) -> bool
    ensures { result ≡ keeps_widths margin levels.now }
{
    !margin.is_content || !margin.has_tab && margin.width == levels.greatest()
}

/// Takes the margin after a newline of `len` bytes, which begins at byte `at`.
///
/// Its lexemes become pending, and its width goes to the stack if content follows. Returns its fault
/// if it has one, and the end of that in bytes from the newline's start: then only its comments become
/// pending, and the stack doesn't change. After an `AllocError` the stack isn't known.
#[inline(always)]
pub(crate) fn take_margin(
    levels: &mut IndentStack,
    pending: &mut Pending,
    at: usize,
    len: usize,
    margin: Margin,
) -> Result<Option<(LexemeError, usize)>, AllocError>
    requires fits { at + len + margin.at + margin.blanks < 2 ^ 64 }
    requires idle { lexemes_after pending.old.remainder ≡ [] }
    ensures laid { IfOk result (λ fault. (widths : List ℕ) (seen : grammar.Margin) → levels.old ≡ grammar.open_widths widths → IsMargin seen margin →
        IsLaid fault (at + len) seen widths levels.old levels.new pending.old.remainder pending.new.remainder) }
    ensures fault { IfOk result (λ fault. IfSome fault (λ found. (found.1 ≤ len + margin.at + margin.blanks) × ((seen : grammar.Margin) → IsMargin seen margin → IsFaultFound (margin_fault len seen) found))) }
    ensures place { OnOk result (IsOfMargin (at + len) margin.at levels.old pending.new) }
{
    let begin = at + len;
    let line = begin + margin.at;
    pending.wait_for_comments(begin, line, levels.len() == 0);
    if keeps_widths(levels, margin) {
        return Ok(None);
    }
    if margin.has_tab {
        return Ok(Some((LexemeError::InvalidTab, 0)));
    }
    let width = margin.width;
    if width > levels.greatest() {
        levels.open(width)?;
        pending.remainder = AfterComments::Indent {
            begin: line,
            end: line + margin.blanks,
        };
        return Ok(None);
    }
    let Some(count) = levels.close(width) else {
        let end = len + margin.at + margin.blanks;
        return Ok(Some((LexemeError::Indentation, end)));
    };
    pending.remainder = AfterComments::Dedents { at: line, count };
    Ok(None)
}
