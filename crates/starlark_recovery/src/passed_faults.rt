//! Faults of a part of a text: moved to their places in the whole text, and passed.

ghost use Rattle.std.specs.Prelude.{◌≡◌, ◌≤◌, ◌<◌, ◌^◌, ◌+◌, IfOk, drop, length};
ghost use Rattle.std.specs.Str.{IsCharBoundary};
ghost use Rattle.starlark_grammar.specs.Tokens.{Fault, Spanned};
ghost use Rattle.starlark_recovery.specs.Inner.Passed.{HasPassed, is_tab_error};
ghost use Rattle.starlark_reader.specs.Inner.Reader.{IsRaw};
ghost use Rattle.starlark_token.specs.Lexemes.{IsWithin};

use crate::restarts::counted_restart;
use starlark_base::codemap::CodeMap;
use starlark_errors::eval_exception::EvalException;
use starlark_errors::fault_exception::exception;
use starlark_token::lexeme_error::LexemeError;
use starlark_words::reads::ReadCounter;
use std::alloc::{AllocError, Global};

/// A fault that was passed: its exception, and where lexing goes on after it.
#[derive(Drop)]
pub struct Passed {
    /// The exception, with its place in the whole text.
    pub fault: EvalException,
    /// Where lexing goes on, in bytes of the whole text.
    pub begin: usize,
    /// Number of reads of bytes that finding `begin` took.
    pub reads: u64,
}

/// Whether an error is that of a tab.
pub(crate) fn is_tab(fault: &LexemeError) -> bool
    ensures { result ≡ is_tab_error fault.now }
{
    matches!(fault, LexemeError::InvalidTab)
}

/// Passes the fault of a text's part from byte `begin` on, up to the line after byte `end`, which is
/// its own end, or that of its literal. The offsets count from the part's begin.
pub(crate) fn pass(
    alloc: Global,
    text: &str,
    begin: usize,
    fault: (usize, LexemeError, usize),
    end: usize,
    code_map: &CodeMap,
) -> Result<Passed, AllocError>
    requires boundary { IsCharBoundary text.now begin }
    requires fits { length text.now < 2 ^ 32 }
    requires within { IsWithin (drop begin text.now) fault.0 fault.2 }
    requires between { IsCharBoundary (drop begin text.now) fault.0 }
    requires order { fault.2 ≤ end }
    requires inside { end ≤ length (drop begin text.now) }
    ensures passed { IfOk result (λ passed. (found : Spanned Fault) → IsRaw found fault → HasPassed code_map.now text.now begin found end passed) }
    ensures order { IfOk result (λ passed. begin ≤ passed.begin) }
{
    let (fault_begin, fault, fault_end) = fault;
    let is_tab = is_tab(&fault);
    let mut reads = ReadCounter::new();
    let restart = counted_restart(&mut reads, &text[begin..], fault_begin, end, is_tab);
    let fault = exception(
        alloc,
        begin + fault_begin,
        fault,
        begin + fault_end,
        code_map,
    )?;
    Ok(Passed {
        fault,
        begin: begin + restart,
        reads: reads.count(),
    })
}
