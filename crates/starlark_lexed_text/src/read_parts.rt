//! Lexes a whole text, or the rest of one.

ghost use Rattle.std.specs.Prelude.{◌≡◌, ◌<◌, ◌≤◌, ◌+◌, ◌^◌, ◌++◌, Option, None, IfOk, IfSome, OnOk, length, option_map};
ghost use Rattle.std.specs.List.{AllByRecursion};
ghost use Rattle.starlark_grammar.specs.Tokens.{Fault, Spanned, moved};
ghost use Rattle.starlark_errors.specs.Exceptions.{IsFaultIn};
ghost use Rattle.starlark_lexemes.specs.Inner.RawItems.{IsRawIn};
ghost use Rattle.starlark_lexed_text.specs.Inner.LexedTexts.{IsMet, IsReadPart, IsReadPartTo, cuts_at, part_view};
ghost use Rattle.starlark_lexemes.specs.Inner.LexerStates.{IsBegun, IsLexing, whole};
ghost use Rattle.starlark_lexemes.specs.Lexer.{most_reads};

use crate::cuts::Cut;
use crate::meetings::{Meeting, meeting_at};
use starlark_base::codemap::CodeMap;
use starlark_errors::eval_exception::EvalException;
use starlark_errors::fault_exception::exception;
use starlark_lexemes::lexer_state::LexerState;
use starlark_token::lexeme_error::LexemeError;
use starlark_token::tokens::Token;
use std::alloc::{AllocError, Global};

/// The result of lexing a text: lexemes, fault, cuts, and number of reads.
///
/// Offsets count from the start of the text that was lexed.
#[derive(Drop)]
pub struct ReadPart {
    /// The lexemes up to the fault or the meeting, or all.
    pub lexemes: Vec<(usize, Token, usize)>,
    /// The first fault, if there is one: begin in bytes, kind, end in bytes.
    pub fault: Option<(usize, LexemeError, usize)>,
    /// The offsets where the text can be cut, in order.
    pub cuts: Vec<Cut>,
    /// Whether the text is a clean cut. At a meeting it says nothing.
    pub is_cut: bool,
    /// Whether the first margin has a tab before content.
    pub has_tab: bool,
    /// Number of reads of bytes.
    pub reads: u64,
    /// Where lexing met a known text and stopped, if it did.
    pub met: Option<Meeting>,
}

/// Appends a cut at an offset after `lexemes` lexemes, if there is an offset.
fn push_cut(cuts: &mut Vec<Cut>, place: Option<usize>, lexemes: usize) -> Result<(), AllocError>
    ensures { OnOk result (cuts.new.items ≡ cuts.old.items ++ cuts_at place lexemes) }
{
    if let Some(at) = place {
        cuts.push(Cut { at, lexemes })?;
    }
    Ok(())
}

/// Lexes a text up to its end, its first fault or a meeting with a known text at one of its cuts, from a
/// state that has just begun.
///
/// The reads of the part are those that the state has counted. After an error the state isn't to be
/// used again.
pub(crate) fn read_part(
    alloc: Global,
    state: &mut LexerState<'_>,
    known: &[u8],
    known_cuts: &[Cut],
) -> Result<ReadPart, AllocError>
    requires lexing { IsLexing (whole state.old.reader.text.now) state.old }
    requires begun { IsBegun state.old.reader.text.now state.old }
    requires cuts { AllByRecursion (λ (cut : Cut). cut.at ≤ length known.now) known_cuts.now }
    ensures part { IfOk result (λ part. part.met ≡ None → IsReadPart state.old.reader.text.now (part_view part)) }
    ensures met { IfOk result (λ part. IfSome part.met (λ meeting. IsMet state.old.reader.text.now known.now known_cuts.now meeting × IsReadPartTo state.old.reader.text.now meeting.at (part_view part))) }
    ensures faultless { IfOk result (λ part. IfSome part.met (λ meeting. part.fault ≡ None)) }
    ensures counted { IfOk result (λ part. part.reads ≡ state.new.reader.reads) }
    ensures most { IfOk result (λ part. part.reads ≤ most_reads state.old.reader.text.now) }
    ensures least { IfOk result (λ part. part.fault ≡ None → length state.old.reader.text.now ≤ part.reads) }
{
    let text = state.reader.text;
    let mut cuts = Vec::new(alloc);
    let mut lexemes = Vec::new(alloc);
    while let Some(item) = state.next() {
        let Ok(lexeme) = item else {
            return Err(AllocError);
        };
        lexemes.push(lexeme)?;
        let place = state.reader.cut();
        push_cut(&mut cuts, place, lexemes.len())?;
        if let Some(meeting) = meeting_at(state, place, known, known_cuts) {
            return Ok(ReadPart {
                lexemes,
                fault: None,
                cuts,
                is_cut: false,
                has_tab: false,
                reads: state.reader.reads.count(),
                met: Some(meeting),
            });
        }
    }
    if let Some(fault) = state.take_fault() {
        return Ok(ReadPart {
            lexemes,
            fault: Some(fault),
            cuts,
            is_cut: false,
            has_tab: state.reader.has_read_none(),
            reads: state.reader.reads.count(),
            met: None,
        });
    }
    let is_cut = state.reader.is_clean_cut();
    push_cut(&mut cuts, is_cut.then_some(text.len()), lexemes.len() - 1)?;
    Ok(ReadPart {
        lexemes,
        fault: None,
        cuts,
        is_cut,
        has_tab: false,
        reads: state.reader.reads.count(),
        met: None,
    })
}

/// The exception of a part's fault, if it has one, moved by `len` bytes into a code map.
pub(crate) fn exception_of(
    alloc: Global,
    fault: Option<(usize, LexemeError, usize)>,
    len: usize,
    code_map: &CodeMap,
) -> Result<Option<EvalException>, AllocError>
    requires near { IfSome fault (λ found. (found.0 ≤ found.2) × (len + found.2 < 2 ^ 32)) }
    ensures none { IfOk result (λ exception. exception ≡ None → fault ≡ None) }
    ensures exception { IfOk result (λ exception. (found : Option (Spanned Fault)) → IsRawIn found fault → IsFaultIn code_map.now (option_map (moved len) found) exception) }
{
    let Some((begin, fault, end)) = fault else {
        return Ok(None);
    };
    Ok(Some(exception(alloc, len + begin, fault, len + end, code_map)?))
}
