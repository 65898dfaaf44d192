//! Where lexing begins again after a fault, by the numbers that an outcome tells of it.

ghost use Rattle.starlark_grammar.specs.Recovery as spec;
ghost use Rattle.std.specs.Prelude.{◌≡◌, ◌≤◌, IfNone, IfSome, length};
ghost use Rattle.starlark_c.specs.NumberedRestarts.{AreOf, IsRestart, IsSpan};
ghost use Rattle.starlark_grammar.specs.Tokens.{Fault, Spanned};

use starlark_syntax::restarts::restart;

/// What is returned where no fault of a text has the numbers.
pub const NO_RESTART: usize = usize::MAX;

/// The number of the fault of a tab.
const INVALID_TAB: u32 = 3;

/// The greatest number of a fault. The least is 1.
const LAST_FAULT: u32 = 9;

/// Some bytes as a text, if they are one and both offsets are in order and at its character
/// boundaries.
fn text_with_span(bytes: &[u8], begin: usize, end: usize) -> Option<&str>
    ensures some { IfSome result (λ text. (text.now ≡ bytes.now) × IsSpan bytes.now begin end) }
    ensures none { IfNone result (¬ IsSpan bytes.now begin end) }
{
    let text = str::from_utf8(bytes).ok()?;
    if begin > end || !text.is_char_boundary(begin) || !text.is_char_boundary(end) {
        return None;
    }
    Some(text)
}

/// Where lexing begins again after the fault of a kind, at two offsets of a text.
fn restart_after(text: &str, begin: usize, end: usize, kind: u32) -> usize
    requires { IsSpan text.now begin end }
    ensures value { (fault : Spanned Fault) → AreOf fault begin end kind → result ≡ spec.restart text.now fault }
    ensures within { result ≤ length text.now }
{
    let is_tab = kind == INVALID_TAB;
    restart(text, begin, end, is_tab)
}

/// Where lexing begins again after a fault of a text, or `NO_RESTART` where none has the numbers.
pub fn restart_of(bytes: &[u8], begin: usize, end: usize, kind: u32) -> usize
    ensures { IsRestart bytes.now begin end kind result }
{
    if kind == 0 || kind > LAST_FAULT {
        return NO_RESTART;
    }
    match text_with_span(bytes, begin, end) {
        Some(text) => restart_after(text, begin, end, kind),
        None => NO_RESTART,
    }
}
