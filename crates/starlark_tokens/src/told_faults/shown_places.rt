//! Where faults are shown: on the line that has to be changed.

ghost use Rattle.starlark_grammar.specs.Recovery as recovery;
ghost use Rattle.std.specs.Prelude.{◌≡◌, ◌==◌, ◌≤◌, ◌<◌, ◌+◌, ◌-◌, codes, drop, length, nat_eq, not, slice_index};
ghost use Rattle.std.specs.List.{prefix_len, starts_with};
ghost use Rattle.std.specs.Str.{IsCharBoundary};
ghost use Rattle.starlark_tokens.specs.Inner.ShownKinds.{shown_of_kind};
ghost use Rattle.starlark_base.specs.Positions.{IsPosition, position_at};
ghost use Rattle.starlark_tokens.specs.ToldFaults.ShownPlaces as spec;

use crate::output_formats::fault_lines::line_front;
use starlark_base::position::Position;
use starlark_reader::margin_of;
use starlark_syntax::error::{ErrorKind, ParserMessage};
use starlark_syntax::lexer::LexemeError;
use starlark_words::reads::ReadCounter;

/// Where a fault is shown.
#[derive(Clone, Copy)]
pub enum Shown {
    /// Where it begins.
    Begin,
    /// At the tab that it is about, which may be on a later line than the fault.
    Tab,
    /// At the start of the line that it ends on.
    LastLine,
}

impl Shown {
    /// Where the fault of an error is shown.
    fn of(kind: &ErrorKind) -> Shown
        ensures { result ≡ shown_of_kind kind.now }
    {
        match kind {
            ErrorKind::Parser(ParserMessage::Lexeme(LexemeError::Indentation)) => Shown::LastLine,
            ErrorKind::Parser(ParserMessage::Lexeme(LexemeError::InvalidTab)) => Shown::Tab,
            _ => Shown::Begin,
        }
    }
}

/// Where what is shown of a fault ends: a fault may end before the place where it is shown.
pub fn shown_end(shown: Position, end: Position) -> Position
    ensures { result ≡ spec.shown_end shown end }
{
    if end.at < shown.at { shown } else { end }
}

/// The start of the line that byte `at` is on.
fn line_start(text: &str, at: usize) -> usize
    requires { IsCharBoundary text.now at }
    ensures value { result ≡ spec.line_start text.now at }
    ensures boundary { IsCharBoundary text.now result }
{
    at - line_front(text, at).len()
}

/// Number of bytes of the line end at the front of a text; 0 if there is none.
fn line_end_len(text: &[u8]) -> usize
    ensures value { result ≡ recovery.line_end_len text.now }
    ensures within { result ≤ length text.now }
    ensures feed { 0 < result → slice_index text.now (result - 1) ≡ 10 }
{
    match text {
        [b'\n', ..] => 1,
        [b'\r', b'\n', ..] => 2,
        _ => 0,
    }
}

/// The start of the last line of the margin after the line end at byte `at`, or of the margin at
/// byte `at` if no line end is there.
fn margin_line(text: &str, at: usize) -> usize
    requires { IsCharBoundary text.now at }
    ensures value { result ≡ recovery.margin_line text.now (at + recovery.line_end_len (drop at text.now)) }
    ensures within { result ≤ length text.now }
{
    let margin = at + line_end_len(&text.as_bytes()[at..]);
    margin + margin_of(&mut ReadCounter::new(), &text[margin..]).at
}

/// Number of bytes before the first tab of a text, or all if it has none.
fn before_tab_len(text: &[u8]) -> usize
    ensures value { result ≡ prefix_len (λ b. not (b == 9)) text.now }
    ensures within { result ≤ length text.now }
{
    text.iter().take_while(|byte| **byte != b'\t').count()
}

/// The first tab from byte `at` on, or the end of the text if there is none.
fn next_tab(text: &str, at: usize) -> usize
    requires { at ≤ length text.now }
    ensures value { result ≡ spec.next_tab text.now at }
    ensures boundary { IsCharBoundary text.now result }
{
    at + before_tab_len(&text.as_bytes()[at..])
}

/// Whether a tab is at the start of a text.
fn begins_with_tab(text: &str) -> bool
    ensures { result ≡ starts_with nat_eq text.now (codes "\t") }
{
    text.starts_with("\t")
}

/// The tab that a fault at byte `at` is about.
fn tab_of(text: &str, at: usize) -> usize
    requires { IsCharBoundary text.now at }
    ensures value { result ≡ spec.tab_of text.now at }
    ensures boundary { IsCharBoundary text.now result }
{
    if begins_with_tab(&text[at..]) {
        return at;
    }
    next_tab(text, margin_line(text, at))
}

/// Where a fault between two offsets is shown.
#[tactic(auto, unfolding(crate::specs::ToldFaults::ShownPlaces::shown_at))]
fn shown_at(text: &str, shown: Shown, begin: usize, end: usize) -> usize
    requires begin { IsCharBoundary text.now begin }
    requires end { IsCharBoundary text.now end }
    ensures value { result ≡ spec.shown_at text.now shown begin end }
    ensures boundary { IsCharBoundary text.now result }
{
    match shown {
        Shown::Begin => begin,
        Shown::Tab => tab_of(text, begin),
        Shown::LastLine => line_start(text, end),
    }
}

/// The offset where the fault of an error between two offsets is shown.
pub fn shown_offset(text: &str, kind: &ErrorKind, begin: usize, end: usize) -> usize
    requires begin { IsCharBoundary text.now begin }
    requires end { IsCharBoundary text.now end }
    ensures value { result ≡ spec.shown_at text.now (shown_of_kind kind.now) begin end }
    ensures boundary { IsCharBoundary text.now result }
{
    shown_at(text, Shown::of(kind), begin, end)
}

/// The position where the fault of an error between two positions is shown.
pub fn shown_position(text: &str, kind: &ErrorKind, begin: Position, end: Position) -> Position
    requires begin { IsPosition text.now begin }
    requires end { IsPosition text.now end }
    ensures position { result ≡ position_at text.now (spec.shown_at text.now (shown_of_kind kind.now) begin.at end.at) }
    ensures boundary { IsCharBoundary text.now result.at }
{
    let at = shown_offset(text, kind, begin.at, end.at);
    Position::nearest(end, begin, text, at)
}
