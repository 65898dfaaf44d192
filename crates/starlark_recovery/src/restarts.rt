//! Where lexing begins again after a fault.

ghost use Rattle.starlark_grammar.specs.Recovery as spec;
ghost use Rattle.std.specs.Prelude.{◌≡◌, ◌≤◌, ◌<◌, ◌+◌, ◌-◌, ◌*◌, drop, if◌then◌else◌, length, not, slice_index, true};
ghost use Rattle.std.specs.List.{prefix_len};
ghost use Rattle.std.specs.Str.{IsCharBoundary};
ghost use Rattle.starlark_grammar.specs.Margins.{is_lf};
ghost use Rattle.starlark_grammar.specs.Tokens.{Fault, Spanned};
ghost use Rattle.starlark_lexemes.specs.Lexer.{search_reads};
ghost use Rattle.starlark_grammar.specs.Recovery.{is_tab};
ghost use Rattle.starlark_recovery.specs.Restarts.{IsPlaceOf};
ghost use Rattle.starlark_words.specs.Inner.Reads.{AreReads, more_reads};

use starlark_reader::margin_of;
use starlark_words::reads::ReadCounter;

/// Number of bytes before the first LF of a text, or all if it has none. The byte after them is
/// read, too.
fn before_lf_len(reads: &mut ReadCounter, text: &[u8]) -> usize
    ensures value { result ≡ prefix_len (λ b. not (is_lf b)) text.now }
    ensures within { result ≤ length text.now }
    ensures reads { reads.new ≡ more_reads reads.old (result + 1) }
{
    let len = text.iter().take_while(|byte| **byte != b'\n').count();
    reads.count_run(len);
    len
}

/// The start of the line after the one that holds byte `at`, or the end of the text.
fn next_line(reads: &mut ReadCounter, text: &str, at: usize) -> usize
    requires { at ≤ length text.now }
    ensures value { result ≡ spec.next_line text.now at }
    ensures boundary { IsCharBoundary text.now result }
    ensures reads { AreReads 1 (result - at + 1) reads.old reads.new }
{
    let len = before_lf_len(reads, &text.as_bytes()[at..]);
    text.len().min(at + len + 1)
}

/// Number of bytes of the line end at the front of a text; 0 if there is none.
fn line_end_len(reads: &mut ReadCounter, text: &[u8]) -> usize
    ensures value { result ≡ spec.line_end_len text.now }
    ensures within { result ≤ length text.now }
    ensures feed { 0 < result → slice_index text.now (result - 1) ≡ 10 }
    ensures reads { reads.new ≡ more_reads reads.old 2 }
{
    reads.count_run(1);
    match text {
        [b'\n', ..] => 1,
        [b'\r', b'\n', ..] => 2,
        _ => 0,
    }
}

/// The start of the last line of the margin that begins at byte `at`.
fn margin_line(reads: &mut ReadCounter, text: &str, at: usize) -> usize
    requires { IsCharBoundary text.now at }
    ensures value { result ≡ spec.margin_line text.now at }
    ensures within { result ≤ length text.now }
    ensures reads { AreReads 0 (4 * (result - at) + (spec.next_line text.now result - at) + 2) reads.old reads.new }
    ensures order { at ≤ result }
{
    at + margin_of(reads, &text[at..]).at
}

/// The start of the line of a tab whose fault begins at byte `at`, or `at` if the tab is in code.
///
/// The fault of a tab in a margin is at the line end before the margin, or at the text's start.
fn tab_line(reads: &mut ReadCounter, text: &str, at: usize) -> usize
    requires { IsCharBoundary text.now at }
    ensures value { (fault : Spanned Fault) → fault.begin ≡ at → is_tab fault.node ≡ true →
        result ≡ (if spec.is_margin_tab text.now fault then spec.margin_line text.now (at + spec.line_end_len (drop at text.now)) else at) }
    ensures within { result ≤ length text.now }
    ensures reads { AreReads 0 (4 * (result - at) + (spec.next_line text.now result - at) + 4) reads.old reads.new }
    ensures order { at ≤ result }
{
    let len = line_end_len(reads, &text.as_bytes()[at..]);
    if at > 0 && len == 0 {
        return at;
    }
    margin_line(reads, text, at + len)
}

/// An offset in the line where a fault stopped the reading of a text.
fn stopped_at(reads: &mut ReadCounter, text: &str, begin: usize, end: usize, is_tab: bool) -> usize
    requires boundary { IsCharBoundary text.now begin }
    requires order { begin ≤ end }
    requires within { end ≤ length text.now }
    ensures value { (fault : Spanned Fault) → IsPlaceOf fault begin end is_tab → result ≡ spec.stopped_at text.now fault }
    ensures within { result ≤ length text.now }
    ensures reads { AreReads 0 (if is_tab then 4 * (result - begin) + (spec.next_line text.now result - begin) + 4 else 0) reads.old reads.new }
{
    let line = if is_tab {
        tab_line(reads, text, begin)
    } else {
        begin
    };
    line.max(end.saturating_sub(1))
}

/// Offset where lexing begins again after a fault of a text, as `restart` returns it. The reads of
/// bytes that this takes are counted.
pub(crate) fn counted_restart(
    reads: &mut ReadCounter,
    text: &str,
    begin: usize,
    end: usize,
    is_tab: bool,
) -> usize
    requires boundary { IsCharBoundary text.now begin }
    requires order { begin ≤ end }
    requires within { end ≤ length text.now }
    ensures value { (fault : Spanned Fault) → IsPlaceOf fault begin end is_tab → result ≡ spec.restart text.now fault }
    ensures boundary { IsCharBoundary text.now result }
    ensures reads { (fault : Spanned Fault) → IsPlaceOf fault begin end is_tab → AreReads 1 (search_reads text.now fault) reads.old reads.new }
{
    let at = stopped_at(reads, text, begin, end, is_tab);
    next_line(reads, text, at)
}

/// Offset where lexing begins again after a fault of a text: at the start of a line, or at the end
/// of the text.
///
/// The fault is from byte `begin` to byte `end`. `is_tab` says whether its error is `InvalidTab`:
/// one in a margin is told at the line end before its line. `RecoveringLexer` goes on at that offset
/// after a fault that doesn't keep its line. It is for callers that lex each part of a text by
/// themselves.
pub fn restart(text: &str, begin: usize, end: usize, is_tab: bool) -> usize
    requires boundary { IsCharBoundary text.now begin }
    requires order { begin ≤ end }
    requires within { end ≤ length text.now }
    ensures value { (fault : Spanned Fault) → IsPlaceOf fault begin end is_tab → result ≡ spec.restart text.now fault }
    ensures boundary { IsCharBoundary text.now result }
{
    counted_restart(&mut ReadCounter::new(), text, begin, end, is_tab)
}
