//! Reads the margin at the start of a text.

ghost use Rattle.std.specs.Prelude.{◌≡◌, ◌==◌, ◌+◌, ◌-◌, ◌*◌, ◌≤◌, ◌<◌, ◌^◌, true, false, not, None, IfErr, IfOk, IfSome, get_or, length, nat_eq, take};
ghost use Rattle.std.specs.List.{prefix_len};
ghost use Rattle.starlark_reader.specs.Inner.MarginViews.{IsBlanks, IsMargin, spaces_margin};
ghost use Rattle.starlark_grammar.specs.Margins as grammar;
ghost use Rattle.starlark_words.specs.Inner.Reads.{AreReads, more_reads};

use starlark_words::lines::front_len;
use starlark_words::reads::ReadCounter;

/// A margin: comment-only lines, and then the blanks of the next line.
#[derive(Clone, Copy)]
pub struct Margin {
    /// Length of the comment-only lines, in bytes.
    pub at: usize,
    /// Number of blanks after them, in bytes: spaces, tabs and CR.
    pub blanks: usize,
    /// Number of spaces among the blanks.
    pub width: usize,
    /// Whether one of them is a tab.
    pub has_tab: bool,
    /// Whether content follows: neither an LF nor the end of the text.
    pub is_content: bool,
}

impl Margin {
    /// A margin of `width` spaces alone, which content follows.
    #[inline(always)]
    pub(crate) fn of_spaces(width: usize) -> Self
        ensures { result ≡ spaces_margin width }
    {
        Margin {
            at: 0,
            blanks: width,
            width,
            has_tab: false,
            is_content: true,
        }
    }
}

/// The blanks at the start of a text, as of a margin without comments that content follows. The
/// first `spaces` of them are known. Counts the reads of the others, and `passed` reads besides.
///
/// The byte after them counts twice, since the caller reads it again.
#[inline(always)]
fn blanks_of(reads: &mut ReadCounter, passed: usize, spaces: usize, text: &[u8]) -> Margin
    requires few { passed < 2 ^ 33 }
    requires known { spaces ≤ prefix_len (nat_eq 32) text.now }
    ensures value { IsBlanks (take (grammar.blanks_len text.now) text.now) result }
    ensures within { result.blanks ≤ length text.now }
    ensures more { spaces ≤ result.blanks }
    ensures reads { reads.new ≡ more_reads reads.old (passed + (result.blanks - spaces + 2)) }
{
    let mut margin = Margin::of_spaces(spaces);
    while let Some(byte) = text.get(margin.blanks) {
        match *byte {
            b' ' => margin.width += 1,
            b'\t' => margin.has_tab = true,
            b'\r' => {}
            _ => break,
        }
        margin.blanks += 1;
    }
    reads.count_run(passed + (margin.blanks - spaces) + 1);
    margin
}

/// Whether a text begins with `#`.
fn begins_comment(text: &[u8]) -> bool
    ensures { result ≡ grammar.begins_comment text.now }
{
    matches!(text, [b'#', ..])
}

/// The first byte of a text; an LF at its end.
fn first_or_lf(text: &[u8]) -> u8
    ensures comment { grammar.begins_comment text.now ≡ (result == 35) }
    ensures content { grammar.is_content text.now ≡ not (result == 10) }
{
    text.first().copied().unwrap_or(b'\n')
}

/// The margin at the start of a text.
#[inline(always)]
pub fn margin_of(reads: &mut ReadCounter, text: &str) -> Margin
    ensures margin { IsMargin (grammar.margin_of text.now) result }
    ensures within { result.at + result.blanks ≤ length text.now }
    ensures reads { AreReads (result.at + result.blanks + 2) (5 * result.at + result.blanks + 2) reads.old reads.new }
{
    margin_from(reads, 0, text)
}

/// The margin at the start of a text, whose first `spaces` spaces were read.
#[inline(always)]
pub(crate) fn margin_from(reads: &mut ReadCounter, spaces: usize, text: &str) -> Margin
    requires { spaces ≤ prefix_len (nat_eq 32) text.now }
    ensures margin { IsMargin (grammar.margin_of text.now) result }
    ensures within { result.at + result.blanks ≤ length text.now }
    ensures more { spaces ≤ result.at + result.blanks }
    ensures reads { AreReads (result.at + result.blanks + 2 - spaces) (5 * result.at + result.blanks + 2 - spaces) reads.old reads.new }
{
    let bytes = text.as_bytes();
    let mut at = 0;
    loop {
        let line = &bytes[at..];
        // First, since most later lines have no blanks in front (1 % of comments).
        if at > 0 && begins_comment(line) {
            let feed = front_len(reads, 1, line, b'\n');
            at += (feed + 1).min(line.len());
            continue;
        }
        // The known spaces are in the first line.
        let margin = blanks_of(reads, at.min(1), spaces.saturating_sub(at), line);
        let remainder = &line[margin.blanks..];
        let next = first_or_lf(remainder);
        if next != b'#' {
            return Margin {
                at,
                is_content: next != b'\n',
                ..margin
            };
        }
        let feed = front_len(reads, 0, remainder, b'\n');
        at += margin.blanks + (feed + 1).min(remainder.len());
    }
}

/// The margin of `spaces` spaces and one or two CRs after them, if a blank line has these alone.
/// The spaces and the first CR were read.
#[inline(always)]
fn blank_margin(reads: &mut ReadCounter, text: &[u8], spaces: usize) -> Option<Margin>
    requires spaces { spaces ≡ prefix_len (nat_eq 32) text.now }
    requires inside { spaces < length text.now }
    requires next { get_or text.now spaces 0 ≡ 13 }
    ensures margin { IfSome result (λ found. IsMargin (grammar.margin_of text.now) found) }
    ensures plain { IfSome result (λ found. (found.at ≡ 0) × (found.is_content ≡ false) × (found.blanks ≤ length text.now)) }
    ensures reads { IfSome result (λ found. (spaces < found.blanks) × (reads.new ≡ more_reads reads.old (found.blanks - spaces))) }
    ensures none { result ≡ None → AreReads 1 2 reads.old reads.new }
{
    let mut len = spaces + 1;
    reads.count_run(0);
    // The first test is for lines with one CR, which are most (3 % of blank lines).
    if len < text.len() && text[len] != b'\n' {
        if text[len] != b'\r' {
            return None;
        }
        len += 1;
        reads.count_run(0);
        if len < text.len() && text[len] != b'\n' {
            return None;
        }
    }
    Some(Margin {
        blanks: len,
        is_content: false,
        ..Margin::of_spaces(spaces)
    })
}

/// The margin at the start of a text if it is spaces alone, or those and one or two CRs of a blank
/// line. The error is the number of spaces at the start, for any other margin.
#[inline(always)]
pub(crate) fn plain_margin(reads: &mut ReadCounter, text: &str) -> Result<Margin, usize>
    ensures margin { IfOk result (λ found. IsMargin (grammar.margin_of text.now) found) }
    ensures within { IfOk result (λ found. found.blanks ≤ length text.now) }
    ensures plain { IfOk result (λ found. found.at ≡ 0) }
    ensures spaces { IfOk result (λ found. found.is_content ≡ true → found ≡ spaces_margin found.width) }
    ensures reads { IfOk result (λ found. reads.new ≡ more_reads reads.old (found.blanks + 1)) }
    ensures other { IfErr result (λ spaces. (spaces ≡ prefix_len (nat_eq 32) text.now) × AreReads (spaces + 1) (spaces + 3) reads.old reads.new) }
{
    let bytes = text.as_bytes();
    let spaces = reads.spaces_len(bytes);
    match bytes.get(spaces) {
        Some(next) if *next > b'#' => Ok(Margin::of_spaces(spaces)),
        Some(b'\r') => blank_margin(reads, bytes, spaces).ok_or(spaces),
        None | Some(b'\n') => Ok(Margin {
            is_content: false,
            ..Margin::of_spaces(spaces)
        }),
        _ => Err(spaces),
    }
}
