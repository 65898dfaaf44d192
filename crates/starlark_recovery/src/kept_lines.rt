//! Which faults keep their lines, and where lexing goes on after these.

ghost use Rattle.std.specs.Prelude.{◌≡◌, ◌≤◌, codes, length, nat_eq};
ghost use Rattle.std.specs.List.{prefix_len};
ghost use Rattle.std.specs.Str.{bytes_eq};
ghost use Rattle.starlark_grammar.specs.KeptLines as spec;
ghost use Rattle.starlark_grammar.specs.Margins.{begins_with_line_end};
ghost use Rattle.starlark_grammar.specs.Tokens.{Fault, Spanned};
ghost use Rattle.starlark_recovery.specs.Inner.Passed.{error_keeps_line, is_unfinished_error};
ghost use Rattle.starlark_recovery.specs.Restarts.{IsPlaceOf};

use starlark_token::lexeme_error::LexemeError;

/// Whether a line end is at the start of a text.
fn begins_with_line_end(text: &[u8]) -> bool
    ensures { result ≡ begins_with_line_end text.now }
{
    matches!(text, [b'\n', ..] | [b'\r', b'\n', ..])
}

/// Whether a text is `}`.
fn is_closing_brace(text: &str) -> bool
    ensures { result ≡ bytes_eq text.now (codes "}") }
{
    text == "}"
}

/// Whether the fault at byte `begin` of a text keeps its line. `follows_comment` says whether a
/// comment ends right before it.
pub(crate) fn keeps_line(
    text: &str,
    begin: usize,
    fault: &LexemeError,
    follows_comment: bool,
) -> bool
    requires { begin ≤ length text.now }
    ensures { result ≡ error_keeps_line text.now begin fault.now follows_comment }
{
    match fault {
        LexemeError::ReservedKeyword(_) | LexemeError::StartsZero(_) => true,
        LexemeError::InvalidInput(character) => !is_closing_brace(character) && !follows_comment,
        LexemeError::InvalidTab => {
            !(begin == 0 || begins_with_line_end(&text.as_bytes()[begin..]))
        }
        _ => false,
    }
}

/// Whether a fault is an unfinished literal.
pub(crate) fn is_unfinished(fault: &LexemeError) -> bool
    ensures { result ≡ is_unfinished_error fault.now }
{
    matches!(fault, LexemeError::UnfinishedStringLiteral)
}

/// Number of tabs at the start of a text. The caller has to count the reads.
fn tabs_len(text: &[u8]) -> usize
    ensures value { result ≡ prefix_len (nat_eq 9) text.now }
    ensures within { result ≤ length text.now }
{
    text.iter().take_while(|byte| **byte == b'\t').count()
}

/// Offset where lexing goes on after a fault that keeps its line. `is_tab` says whether its error is
/// `InvalidTab`: then all tabs from there on are passed. The caller has to count the reads.
pub(crate) fn passed_end(text: &str, begin: usize, end: usize, is_tab: bool) -> usize
    requires { begin ≤ length text.now }
    ensures { (fault : Spanned Fault) → IsPlaceOf fault begin end is_tab → result ≡ spec.passed_end text.now fault }
{
    if !is_tab {
        return end;
    }
    begin + tabs_len(&text.as_bytes()[begin..])
}
