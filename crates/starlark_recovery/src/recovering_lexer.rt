//! The lexer that goes on after faults.

ghost use Rattle.std.specs.Prelude.{◌≡◌, ◌≤◌, ◌+◌, ◌^◌, ◌↔◌, ◌||◌, IfOk, IsErr, false, length};
ghost use Rattle.std.specs.List.{slice_get};
ghost use Rattle.starlark_recovery.specs.RecoveringLexer.{HasReadOn, all_items, faults_by, is_memory, left_after};
ghost use Rattle.starlark_lexemes.specs.Lexer.{AnswersBetween, AnswersNext, AnswersWithin};

use crate::recovery_state::RecoveryState;
use starlark_base::codemap::{CodeMap, OrMemory, SourceTooLong};
use starlark_base::dialect::Dialect;
use starlark_lexemes::lexemes::Lexeme;
use std::alloc::Global;
use std::marker::Model;

/// A lexer that goes on after faults: an iterator over all lexemes and all faults of a text, in
/// order.
///
/// It yields what `Lexer` yields up to the first fault. A reserved word, an integer with a leading 0,
/// a character that begins no token, and a tab in code keep their lines: it goes on after them, with
/// all brackets, f-strings and blocks open. So it does after a literal with a bad escape, if that is
/// closed, and at the line end of an open quote, a literal outside of f-strings that ends with its
/// line, whose brackets count. After any other fault it begins again at the next line, with the blocks
/// alone open.
///
/// Right after a fault a lexeme stands for it, so that a parser can go on: an `Identifier` for a
/// reserved word, an `Int` in decimal for an integer with a leading 0, and for such a literal a
/// `String` or `Bytes` with its body as it is written. Other faults have none.
///
/// Only out of memory ends the lexer before the end of the text. In a contract it is its text, its
/// code map, the items that are left, how many faults it has yielded, whether out of memory has ended
/// it, and how often it has read bytes.
#[derive(Drop)]
pub struct RecoveringLexer<'a> {
    state: RecoveryState<'a>,
}

impl<'a> Model for RecoveringLexer<'a> {
    ghost use Rattle.starlark_recovery.specs.Inner.RecoveryStates.{IsRecovering, view_of};
    ghost use Rattle.starlark_recovery.specs.RecoveringLexer.{RecoveringView};

    ghost Value = { RecoveringView };

    ghost view = { λ lexer. view_of lexer.state };

    ghost invariant = { λ lexer. IsRecovering lexer.state };
}

impl<'a> RecoveringLexer<'a> {
    /// A lexer of a text, whose faults get spans of the code map. It doesn't allocate.
    ///
    /// Fails where the text has more than 4294967295 bytes, and drops the code map then. The
    /// dialect has no effect.
    pub fn new(
        alloc: Global,
        input: &'a str,
        _dialect: &Dialect,
        code_map: CodeMap,
    ) -> Result<RecoveringLexer<'a>, SourceTooLong>
        ensures ok { IfOk result (λ lexer. lexer ≡ record { text = input.now; code_map = code_map; left = all_items input.now; fault_count = 0; has_ended = false; reads = 0 }) }
        ensures too_long { IsErr result ↔ (2 ^ 32 ≤ length input.now) }
    {
        if input.len() > u32::MAX as usize {
            return Err(SourceTooLong);
        }
        Ok(RecoveringLexer {
            state: RecoveryState::new(alloc, input, code_map),
        })
    }

    /// Returns the next lexeme or fault; `None` after the last lexeme, and after out of memory.
    ///
    /// After a fault the next call goes on. A lexeme or fault lies in the text, and begins and ends
    /// at character boundaries.
    pub fn next(&mut self) -> Option<Lexeme>
        ensures item { AnswersNext self.old.code_map (slice_get self.old.left 0) result }
        ensures within { AnswersWithin self.old.text result }
        ensures between { AnswersBetween self.old.text result }
        ensures after { self.new ≡ record self.old { left = left_after result self.old.left; fault_count = self.old.fault_count + faults_by result; has_ended = self.old.has_ended || is_memory result; reads = self.new.reads } }
        ensures reads { self.old.has_ended ≡ false → HasReadOn self.old.text self.new.fault_count result self.new.reads }
    {
        self.state.next()
    }

    /// Number of faults that were yielded so far.
    pub fn fault_count(&self) -> usize
        ensures { result ≡ self.now.fault_count }
    {
        self.state.fault_count()
    }

    /// Number of reads of bytes so far.
    ///
    /// It counts as that of `Lexer` does, and has the reads that find where lexing goes on. After
    /// `faults` faults of a text of `n` bytes it is at most `16 * (n + faults + 1)`, and at least
    /// `faults`. After out of memory nothing is promised.
    pub fn reads(&self) -> u64
        ensures { result ≡ self.now.reads }
    {
        self.state.reads()
    }
}

impl<'a> Iterator for RecoveringLexer<'a> {
    ghost use Rattle.starlark_recovery.specs.RecoveringLexer.{IsNextOf, items_left};

    type Item = Lexeme;

    ghost next_gives = { IsNextOf };

    ghost remaining = { items_left };

    fn next(&mut self) -> Option<Lexeme> {
        RecoveringLexer::next(self)
    }
}
