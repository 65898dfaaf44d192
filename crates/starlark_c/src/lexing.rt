//! Lexes bytes that may be no text into the caller's buffers.

ghost use Rattle.std.specs.Prelude.{◌≡◌, ◌<◌, ◌^◌, [], Option, IfOk, IfSome, None, false, length, true};
ghost use Rattle.starlark_c.specs.Endings.{Buffers, Ends, EndsFront};
ghost use Rattle.starlark_c.specs.Inner.Filling.{EndsWithCutPoint, has_stop};
ghost use Rattle.starlark_c.specs.LastCuts.{StopsAtLastCut};
ghost use Rattle.starlark_c.specs.TextParts.{home};
ghost use Rattle.starlark_grammar.specs.Words.{Text};

use crate::endings::{Ending, Filled};
use crate::fill_state::CutPoint;
use crate::filling::fill;
use crate::records::LexemeRecord;
use starlark_syntax::codemap::{CodeMap, CodeMapId};
use starlark_syntax::dialect::Dialect;
use starlark_syntax::lexer::Lexer;
use std::alloc::{AllocError, Global};

/// A code map of an empty text, for lexers of which only the bytes of a fault's span are used.
pub fn empty_file(alloc: Global) -> Result<CodeMap, AllocError>
    ensures { IfOk result (λ file. file ≡ record { id = 0; filename = []; source = [] }) }
{
    let name = String::new(alloc);
    CodeMap::new(alloc, CodeMapId::EMPTY, name, String::new(alloc)).map_err(|_| AllocError)
}

/// A lexer of a text, with a code map of an empty text: only the bytes of a fault's span are used.
///
/// `None` where memory runs out.
fn lexer_of(alloc: Global, text: &str) -> Option<Lexer<'_>>
    requires { length text.now < 2 ^ 32 }
    ensures { IfSome result (λ lexer. lexer ≡ record { text = text.now; code_map = record { id = 0; filename = []; source = [] }; yielded_count = 0; has_ended = false; reads = 0; cut = None }) }
{
    let file = empty_file(alloc).ok()?;
    Lexer::new(alloc, text, &Dialect::Extended, file).ok()
}

/// Lexes bytes into buffers, if they are a text or the front of one. Values that are parts of it stay
/// there if `STAYS` is true. Returns how that ended, and the last stop.
fn lex_with_stop<const STAYS: bool>(
    alloc: Global,
    bytes: &[u8],
    is_front: bool,
    lexemes: &mut [LexemeRecord],
    values: &mut [u8],
) -> (Ending, CutPoint)
    ensures { EndsWithCutPoint (home STAYS bytes.now) bytes.now is_front (record { lexemes = lexemes.old; values = values.old }) (record { lexemes = lexemes.new; values = values.new }) result }
{
    let none = CutPoint::none(is_front);
    if bytes.len() > u32::MAX as usize {
        return (Ending::TooLong, none);
    }
    let text = match str::from_utf8(bytes) {
        Ok(text) => text,
        Err(error) => {
            let valid = error.valid_up_to();
            return (Ending::NotUtf8 { valid }, none);
        }
    };
    let Some(mut lexer) = lexer_of(alloc, text) else {
        let filled = Filled::NOTHING;
        return (Ending::Memory { filled }, none);
    };
    fill::<STAYS>(text, is_front, &mut lexer, lexemes, values)
}

/// Lexes bytes into buffers, as `lex_with_stop` does. Values that are parts of the text may stay there.
// A loop for each form: one that asks at each lexeme whether its value stays costs a mix 14 % more.
fn lex_bytes(
    alloc: Global,
    bytes: &[u8],
    stays: bool,
    is_front: bool,
    lexemes: &mut [LexemeRecord],
    values: &mut [u8],
) -> (Ending, CutPoint)
    ensures { EndsWithCutPoint (home stays bytes.now) bytes.now is_front (record { lexemes = lexemes.old; values = values.old }) (record { lexemes = lexemes.new; values = values.new }) result }
{
    if stays {
        lex_with_stop::<true>(alloc, bytes, is_front, lexemes, values)
    } else {
        lex_with_stop::<false>(alloc, bytes, is_front, lexemes, values)
    }
}

/// Lexes bytes into buffers, if they are a text. Values that are parts of it may stay there.
pub fn lex_into(
    alloc: Global,
    bytes: &[u8],
    stays: bool,
    lexemes: &mut [LexemeRecord],
    values: &mut [u8],
) -> Ending
    ensures ends { Ends (home stays bytes.now) bytes.now (record { lexemes = lexemes.old; values = values.old }) (record { lexemes = lexemes.new; values = values.new }) result }
    ensures last { StopsAtLastCut (home stays bytes.now) false bytes.now (record { lexemes = lexemes.old; values = values.old }) result }
{
    lex_bytes(alloc, bytes, stays, false, lexemes, values).0
}

/// Whether the buffers have lexemes up to the last stop or further.
fn is_past_stop(ending: Ending) -> bool
    ensures { result ≡ has_stop ending }
{
    matches!(
        ending,
        Ending::Whole { .. } | Ending::Fault { .. } | Ending::Piece { .. }
    )
}

/// How lexing the front of a longer text ends: at the last stop, if there is one, and else as lexing
/// it as a text does.
fn front_ending(ending: Ending, stop: CutPoint) -> Ending
    ensures ends { (home : Option Text) (text : Text) (before after : Buffers) → EndsWithCutPoint home text true before after (ending, stop) → EndsFront home text before after result }
    ensures last { (home : Option Text) (text : Text) (before after : Buffers) → EndsWithCutPoint home text true before after (ending, stop) → StopsAtLastCut home true text before result }
{
    if stop.filled.lexemes == 0 {
        return ending;
    }
    if is_past_stop(ending) {
        return Ending::Piece {
            filled: stop.filled,
            next: stop.at,
        };
    }
    ending
}

/// Lexes bytes into buffers up to the last stop, if they are the front of a text and there is one.
/// Values that are parts of the front may stay there.
pub fn lex_front(
    alloc: Global,
    bytes: &[u8],
    stays: bool,
    lexemes: &mut [LexemeRecord],
    values: &mut [u8],
) -> Ending
    ensures ends { EndsFront (home stays bytes.now) bytes.now (record { lexemes = lexemes.old; values = values.old }) (record { lexemes = lexemes.new; values = values.new }) result }
    ensures last { StopsAtLastCut (home stays bytes.now) true bytes.now (record { lexemes = lexemes.old; values = values.old }) result }
{
    let (ending, stop) = lex_bytes(alloc, bytes, stays, true, lexemes, values);
    front_ending(ending, stop)
}
