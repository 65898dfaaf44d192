//! Lexed texts: their lexemes, whether they are clean cuts, and what they are joined.

ghost use Rattle.std.specs.Prelude.{◌≡◌, ◌++◌, IfOk};

use crate::each_byte::each_byte;
use crate::joined_texts::{agree, both_texts};
use crate::refused::unchanged;
use crate::row_files::code_map;
use crate::rows::{Answer, Row, both, given, shown, unknown};
use crate::word_rows::add_placed;
use starlark_syntax::codemap::CodeMap;
use starlark_syntax::dialect::Dialect;
use starlark_syntax::lexer::LexedText;
use std::alloc::{AllocError, Global};
use std::fmt::Write;

/// A text with its lexemes.
fn lexed<'a>(alloc: Global, text: &'a str) -> Result<LexedText<'a>, AllocError>
    ensures { IfOk result (λ lexed. lexed.text ≡ text.now) }
{
    let map = code_map(alloc, "f", text)?;
    given(LexedText::lex(alloc, text, &Dialect::Standard, map))
}

/// Two lexed texts joined, or both handed back.
type Joined<'a> = Result<LexedText<'a>, (LexedText<'a>, LexedText<'a>)>;

/// Two lexed texts joined to a third text, which is both, where the first is a clean cut and the second has no fault.
fn join_lexed<'a>(first: LexedText<'a>, second: LexedText<'a>, both: &'a str) -> Option<Joined<'a>>
    requires { both.now ≡ first.text ++ second.text }
{
    if !first.is_clean_cut() || second.fault().is_some() || both.len() > u32::MAX as usize {
        return None;
    }
    Some(first.join(second, both))
}

/// Two lexed texts joined, where they may be. The third text is both.
fn joined_lexed<'a>(
    first: LexedText<'a>,
    second: LexedText<'a>,
    both: &'a str,
) -> Result<Option<LexedText<'a>>, AllocError>
    requires { both.now ≡ first.text ++ second.text }
{
    given(join_lexed(first, second, both).transpose())
}

/// Two texts joined, where they may be. The third text is both.
fn joined<'a>(
    alloc: Global,
    first: &'a str,
    second: &'a str,
    both: &'a str,
) -> Result<Option<LexedText<'a>>, AllocError>
    requires { both.now ≡ first.now ++ second.now }
{
    let first = lexed(alloc, first)?;
    joined_lexed(first, lexed(alloc, second)?, both)
}

/// Adds the lexemes of a lexed text, its fault, and whether it is a clean cut.
fn add(alloc: Global, list: &mut String, lexed: &LexedText<'_>) -> Result<(), AllocError> {
    for (begin, token, end) in lexed.lexemes() {
        add_placed(alloc, list, *begin, token, *end)?;
    }
    if let Some(fault) = lexed.fault() {
        write!(list, "{fault}; ")?;
    }
    list.push_str(if lexed.is_clean_cut() {
        "clean"
    } else {
        "open"
    })
}

/// A lexed text, as it prints.
fn printed(alloc: Global, lexed: &LexedText<'_>) -> Answer {
    let mut list = String::new(alloc);
    add(alloc, &mut list, lexed)?;
    Ok(list)
}

/// Two lexed texts, as they print.
fn both_printed(alloc: Global, first: &LexedText<'_>, second: &LexedText<'_>) -> Answer {
    let (first, second) = (printed(alloc, first)?, printed(alloc, second)?);
    both(alloc, &first, &second)
}

/// What a row wants to know of a text that was joined, or lexed again.
#[derive(Clone, Copy)]
pub enum Wanted {
    /// How it prints.
    Lexemes,
    /// How often bytes were read for it.
    ReadCounter,
}

/// What a row wants to know of a lexed text.
fn wanted_of(alloc: Global, lexed: &LexedText<'_>, wanted: Wanted) -> Answer {
    match wanted {
        Wanted::Lexemes => printed(alloc, lexed),
        Wanted::ReadCounter => shown(alloc, &lexed.reads()),
    }
}

/// Out of memory where two lexed texts that were given back are as they were.
fn both_kept(alloc: Global, before: &str, given_back: &(LexedText<'_>, LexedText<'_>)) -> Answer {
    let after = both_printed(alloc, &given_back.0, &given_back.1)?;
    unchanged(alloc, before, &after)
}

/// What is wanted of two lexed texts joined. Where that is refused, both are handed back.
fn join_or_keep<'a>(
    alloc: Global,
    first: LexedText<'a>,
    second: LexedText<'a>,
    both: &'a str,
    wanted: Wanted,
) -> Answer
    requires { both.now ≡ first.text ++ second.text }
{
    let before = both_printed(alloc, &first, &second)?;
    match join_lexed(first, second, both) {
        Some(Ok(joined)) => wanted_of(alloc, &joined, wanted),
        Some(Err(given_back)) => both_kept(alloc, before.as_str(), &given_back),
        None => String::from_str(alloc, "not joined"),
    }
}

/// What is wanted of two texts joined.
pub fn join(alloc: Global, first: &str, second: &str, wanted: Wanted) -> Answer {
    let both = both_texts(alloc, first, second)?;
    let first = lexed(alloc, first)?;
    let second = lexed(alloc, second)?;
    join_or_keep(alloc, first, second, both.as_str(), wanted)
}

/// A lexed text that is lexed again after an edit, or as it was; none where the two texts aren't the same up to the edit.
fn relex_lexed<'a>(
    old: LexedText<'a>,
    from: usize,
    edited: &'a str,
    map: &CodeMap,
) -> Option<Result<LexedText<'a>, LexedText<'a>>> {
    if !agree(old.text(), edited, from) || edited.len() > u32::MAX as usize {
        return None;
    }
    Some(old.relex(from, edited, map))
}

/// Out of memory where a lexed text that was given back is as it was.
fn kept(alloc: Global, before: &str, old: &LexedText<'_>) -> Answer {
    let after = printed(alloc, old)?;
    unchanged(alloc, before, &after)
}

/// What is wanted of a lexed text that is lexed again after an edit. Where that is refused, the text is handed back.
fn relexed<'a>(
    alloc: Global,
    old: LexedText<'a>,
    from: usize,
    edited: &'a str,
    wanted: Wanted,
) -> Answer {
    let map = code_map(alloc, "f", edited)?;
    let before = printed(alloc, &old)?;
    match relex_lexed(old, from, edited, &map) {
        Some(Ok(new)) => wanted_of(alloc, &new, wanted),
        Some(Err(old)) => kept(alloc, before.as_str(), &old),
        None => String::from_str(alloc, "no edit"),
    }
}

/// What is wanted of a text that is lexed again after an edit.
pub fn relex(alloc: Global, text: &str, from: u32, edited: &str, wanted: Wanted) -> Answer {
    relexed(alloc, lexed(alloc, text)?, from as usize, edited, wanted)
}

/// What is wanted of two texts joined, and lexed again after an edit.
pub fn relex_joined(
    alloc: Global,
    first: &str,
    second: &str,
    from: u32,
    edited: &str,
    wanted: Wanted,
) -> Answer {
    let both = both_texts(alloc, first, second)?;
    match joined(alloc, first, second, both.as_str())? {
        Some(old) => relexed(alloc, old, from as usize, edited, wanted),
        None => String::from_str(alloc, "not joined"),
    }
}

/// A text with its lexemes, as it prints.
pub fn lex(alloc: Global, text: &str) -> Answer {
    printed(alloc, &lexed(alloc, text)?)
}

/// Whether two lexed texts are the same.
fn are_same(first: &LexedText<'_>, second: &LexedText<'_>) -> bool {
    first.text() == second.text()
        && first.lexemes() == second.lexemes()
        && first.fault().is_none()
        && second.fault().is_none()
        && first.is_clean_cut() == second.is_clean_cut()
}

/// `=` where two texts joined are what both together are lexed to, `!` where not, and `-` where they aren't joined.
fn mark(alloc: Global, first: &str, second: &str) -> Result<char, AllocError> {
    let both = both_texts(alloc, first, second)?;
    let Some(joined) = joined(alloc, first, second, both.as_str())? else {
        return Ok('-');
    };
    let whole = lexed(alloc, both.as_str())?;
    Ok(if are_same(&joined, &whole) { '=' } else { '!' })
}

/// The marks of a text with each of many after it.
fn marks(alloc: Global, row: &Row) -> Answer {
    let mut marks = String::new(alloc);
    for second in row.texts_from(3) {
        marks.push(mark(alloc, row.text(2), second.as_str())?)?;
    }
    Ok(marks)
}

/// The answer to a call with a text that was joined of two.
fn of_joined(alloc: Global, row: &Row) -> Answer {
    let wanted = match row.text(1) {
        "relex_joined" => Wanted::Lexemes,
        "relex_joined_reads" => Wanted::ReadCounter,
        _ => return unknown(alloc, row),
    };
    let (first, second, edited) = (row.text(2), row.text(3), row.text(5));
    relex_joined(alloc, first, second, row.count(4), edited, wanted)
}

/// The answer to a call with lexed texts.
pub fn answer(alloc: Global, row: &Row) -> Answer {
    let text = row.text(2);
    match row.text(1) {
        "lex" => lex(alloc, text),
        "is_clean_cut" => shown(alloc, &lexed(alloc, text)?.is_clean_cut()),
        "reads" => shown(alloc, &lexed(alloc, text)?.reads()),
        "join_reads" => join(alloc, text, row.text(3), Wanted::ReadCounter),
        "join" => join(alloc, text, row.text(3), Wanted::Lexemes),
        "join_each" => marks(alloc, row),
        "relex_reads" => relex(alloc, text, row.count(3), row.text(4), Wanted::ReadCounter),
        "relex" => relex(alloc, text, row.count(3), row.text(4), Wanted::Lexemes),
        "each_byte" => each_byte(alloc, text, row.text(3)),
        _ => of_joined(alloc, row),
    }
}
