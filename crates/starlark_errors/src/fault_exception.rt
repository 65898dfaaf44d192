//! Exceptions of lexing errors.

ghost use Rattle.std.specs.Prelude.{◌≡◌, ◌<◌, ◌≤◌, ◌^◌, IfOk};
ghost use Rattle.starlark_base.specs.Diagnostics.{place_in, unplaced, with_span};

use crate::error::{ErrorKind, ParserMessage, error_from_lexeme};
use crate::eval_exception::EvalException;
use starlark_base::codemap::{CodeMap, Pos, Span};
use starlark_token::lexeme_error::LexemeError;
use std::alloc::{AllocError, Global};

/// The exception of a lexing error, with its span in a code map.
///
/// `begin` and `end` count bytes. `AllocError` drops the error.
pub fn exception(
    alloc: Global,
    begin: usize,
    fault: LexemeError,
    end: usize,
    code_map: &CodeMap,
) -> Result<EvalException, AllocError>
    requires order { begin ≤ end }
    requires fits { end < 2 ^ 32 }
    ensures { IfOk result (λ it. it ≡ with_span (unplaced (ErrorKind.Parser (ParserMessage.Lexeme fault))) (place_in code_map.now (record { begin = begin; end = end }))) }
{
    let Ok(error) = error_from_lexeme(alloc, fault) else {
        return Err(AllocError);
    };
    let span = Span::new(Pos::new(begin as u32), Pos::new(end as u32));
    EvalException::new(error, span, code_map).map_err(|_| AllocError)
}
