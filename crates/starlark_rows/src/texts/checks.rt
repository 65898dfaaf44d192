//! Checks of every text: its lexemes, a lexer whose code map has another source, and the output.

use crate::printed_items::{add_fault, add_lexeme, file_of};
use starlark_syntax::codemap::{CodeMap, OrMemory};
use starlark_syntax::dialect::Dialect;
use starlark_syntax::eval_exception::EvalException;
use starlark_syntax::lexer::{Kind, LexedText, Lexeme, Lexer, Passed, Step, Token};
use std::alloc::{AllocError, Global};

/// Length in bytes of the longest text whose lines are all compared.
const LONGEST_WITH_LINES: usize = 4096;

/// Lexes a text, with its fault in a code map.
pub fn lexed_in<'a>(
    alloc: Global,
    text: &'a str,
    file: &CodeMap,
) -> Result<LexedText<'a>, AllocError> {
    LexedText::lex(alloc, text, &Dialect::Standard, file.dupe()?).map_err(|_| AllocError)
}

/// Whether a text begins with a byte of a gap: a blank, CR, LF, or a backslash before a line break.
fn is_gap_byte(rest: &[u8]) -> bool {
    match rest {
        [b' ' | b'\t' | b'\r' | b'\n', ..] => true,
        [b'\\', b'\n', ..] => true,
        [b'\\', b'\r', b'\n', ..] => true,
        _ => false,
    }
}

/// Whether a text has only blanks and line breaks, escaped or not, from byte `from` to `to`.
fn is_gap(text: &str, from: usize, to: usize) -> bool {
    let Some(gap) = text.get(from..to) else {
        return false;
    };
    for at in 0..gap.len() {
        if !is_gap_byte(&gap.as_bytes()[at..]) {
            return false;
        }
    }
    true
}

/// Whether the lexemes are in order, with only gaps between them.
///
/// If there is no fault, only a gap may be after the last one.
fn is_in_order(lexed: &LexedText<'_>) -> bool {
    let mut at = 0;
    for (begin, _, end) in lexed.lexemes() {
        if begin > end || !is_gap(lexed.text(), at, *begin) {
            return false;
        }
        at = *end;
    }
    lexed.fault().is_some() || is_gap(lexed.text(), at, lexed.text().len())
}

/// Whether each `Dedent` closes an `Indent`, and each `Indent` is closed if there is no fault.
fn is_balanced(lexed: &LexedText<'_>) -> bool {
    let mut open: usize = 0;
    for (_, token, _) in lexed.lexemes() {
        match token.kind() {
            "Indent" => open = open.saturating_add(1),
            "Dedent" if open == 0 => return false,
            "Dedent" => open = open.saturating_sub(1),
            _ => {}
        }
    }
    open == 0 || lexed.fault().is_some()
}

/// Whether a token is one that no lexer yields.
fn is_never_yielded(token: &Token) -> bool {
    let kind = token.kind();
    kind == "Tabs" || kind == "Reserved" || kind.starts_with("Raw")
}

/// Number of lexemes and faults.
fn item_count(lexed: &LexedText<'_>) -> usize {
    let faults = usize::from(lexed.fault().is_some());
    lexed.lexemes().len().saturating_add(faults)
}

/// Whether a text of `n` bytes has at most `2 * n + 1` lexemes and faults.
fn are_few(lexed: &LexedText<'_>) -> bool {
    item_count(lexed) <= lexed.text().len().saturating_mul(2).saturating_add(1)
}

/// Whether the number of reads is in its bounds, for a text of `n` bytes.
///
/// They are at most `16 * (n + 1)`, and at least `n` if there is no fault.
fn are_reads_bounded(lexed: &LexedText<'_>) -> bool {
    let bytes = lexed.text().len() as u64;
    let most = bytes.saturating_add(1).saturating_mul(16);
    lexed.reads() <= most && (lexed.fault().is_some() || bytes <= lexed.reads())
}

/// Whether an item of a lexer is the wanted lexeme.
fn is_lexeme(next: &Option<Lexeme>, wanted: &(usize, Token, usize)) -> bool {
    match next {
        Some(Ok((begin, token, end))) => {
            *begin == wanted.0 && *token == wanted.1 && *end == wanted.2
        }
        _ => false,
    }
}

/// The name of a plain lexeme's kind, as its token has it.
fn plain_kind(alloc: Global, kind: Kind) -> Result<String, AllocError> {
    match kind {
        Kind::Comment => String::from_str(alloc, "Comment"),
        Kind::Identifier => String::from_str(alloc, "Identifier"),
        Kind::String => String::from_str(alloc, "String"),
        Kind::Word(terminal) => format!(in alloc; "{terminal:?}"),
        Kind::FStringExprEnd => String::from_str(alloc, "FStringExprEnd"),
        Kind::Newline => String::from_str(alloc, "Newline"),
        Kind::Indent => String::from_str(alloc, "Indent"),
        Kind::Dedent => String::from_str(alloc, "Dedent"),
        Kind::FStringText => String::from_str(alloc, "FStringText"),
        Kind::FStringExprStart => String::from_str(alloc, "FStringExprStart"),
        Kind::FStringEnd => String::from_str(alloc, "FStringEnd"),
        _ => String::from_str(alloc, "not plain"),
    }
}

/// The value of a token that a plain lexeme can have; empty for one without a value.
fn plain_value(token: &Token) -> &str {
    match token {
        Token::Comment(value)
        | Token::Identifier(value)
        | Token::String(value)
        | Token::FStringText(value) => value.as_str(),
        _ => "",
    }
}

/// Whether a plain lexeme of a text is the wanted lexeme.
fn is_plain_lexeme(
    alloc: Global,
    text: &str,
    plain: Passed,
    wanted: &(usize, Token, usize),
) -> Result<bool, AllocError> {
    let (begin, token, end) = wanted;
    let Some(value) = text.get(plain.value_begin..plain.value_end) else {
        return Ok(false);
    };
    if plain.begin != *begin || plain.end != *end || value != plain_value(token) {
        return Ok(false);
    }
    Ok(plain_kind(alloc, plain.kind)?.as_str() == token.kind())
}

/// Whether the next item of a text's lexer is the wanted lexeme, by `next`, or by `step`.
fn is_next(
    alloc: Global,
    lexer: &mut Lexer<'_>,
    text: &str,
    wanted: &(usize, Token, usize),
    by_steps: bool,
) -> Result<bool, AllocError> {
    if !by_steps {
        return Ok(is_lexeme(&lexer.next(), wanted));
    }
    match lexer.step() {
        Step::Plain(plain) => is_plain_lexeme(alloc, text, plain, wanted),
        Step::Other(item) => Ok(is_lexeme(&item, wanted)),
    }
}

/// A fault as it prints with a code map of an empty text: its span in bytes, or `1:1` if that is
/// 0-0.
fn in_bytes(alloc: Global, fault: &EvalException) -> Result<String, AllocError> {
    let kind = fault.error().kind();
    let Some(place) = fault.error().span() else {
        return format!(in alloc; "{kind}");
    };
    let (begin, end) = (place.span.begin().get(), place.span.end().get());
    if end == 0 {
        return format!(in alloc; "{kind} at <stdin>:1:1");
    }
    let place = format!(in alloc; "<stdin>:@{begin}-{end}")?;
    format!(in alloc; "{kind} at {place}")
}

/// Whether an item of a lexer is the wanted fault, with a code map of an empty text.
fn is_fault(
    alloc: Global,
    next: &Option<Lexeme>,
    wanted: &EvalException,
) -> Result<bool, AllocError> {
    match next {
        Some(Err(OrMemory::Error(fault))) => {
            Ok(fault.to_string(alloc)?.as_str() == in_bytes(alloc, wanted)?.as_str())
        }
        _ => Ok(false),
    }
}

/// Whether the next items of a lexer are the lexemes of a text, by `next` or by `step`.
fn are_next(
    alloc: Global,
    lexer: &mut Lexer<'_>,
    lexed: &LexedText<'_>,
    by_steps: bool,
) -> Result<bool, AllocError> {
    for lexeme in lexed.lexemes() {
        if !is_next(alloc, lexer, lexed.text(), lexeme, by_steps)? {
            return Ok(false);
        }
    }
    Ok(true)
}

/// Whether the next item of a lexer is a text's fault. True for a text without a fault.
fn is_fault_next(
    alloc: Global,
    lexer: &mut Lexer<'_>,
    lexed: &LexedText<'_>,
) -> Result<bool, AllocError> {
    match lexed.fault() {
        Some(fault) => is_fault(alloc, &lexer.next(), fault),
        None => Ok(true),
    }
}

/// Whether a lexer yields `None`, twice.
fn is_ended(lexer: &mut Lexer<'_>) -> bool {
    lexer.next().is_none() && lexer.next().is_none()
}

/// Whether a lexer yields the lexemes and the fault of a text, and then `None`, twice.
fn yields_items(
    alloc: Global,
    lexer: &mut Lexer<'_>,
    lexed: &LexedText<'_>,
    by_steps: bool,
) -> Result<bool, AllocError> {
    let has_all = are_next(alloc, lexer, lexed, by_steps)?;
    Ok(has_all && is_fault_next(alloc, lexer, lexed)? && is_ended(lexer))
}

/// A lexer of a text with a code map of an empty text.
fn lexer_of(alloc: Global, text: &str) -> Result<Lexer<'_>, AllocError> {
    let file = file_of(alloc, "")?;
    Lexer::new(alloc, text, &Dialect::Standard, file).map_err(|_| AllocError)
}

/// Whether a lexer with a code map of an empty text yields the same lexemes and fault.
///
/// After these it must yield `None`, twice. Where `by_steps`, `step` yields the lexemes, else `next`.
fn is_yielded(alloc: Global, lexed: &LexedText<'_>, by_steps: bool) -> Result<bool, AllocError> {
    let mut lexer = lexer_of(alloc, lexed.text())?;
    yields_items(alloc, &mut lexer, lexed, by_steps)
}

/// What is wrong with the lexemes of a text, if anything is.
fn wrong_with_lexemes(lexed: &LexedText<'_>) -> Option<&'static str> {
    if !is_in_order(lexed) {
        return Some("text between lexemes, or lexemes out of order");
    }
    if !is_balanced(lexed) {
        return Some("an indent or a dedent too many");
    }
    if !are_few(lexed) {
        return Some("more than two lexemes a byte and one");
    }
    if !are_reads_bounded(lexed) {
        return Some("bytes read too often or too seldom");
    }
    if lexed
        .lexemes()
        .iter()
        .any(|(_, token, _)| is_never_yielded(token))
    {
        return Some("a token that no lexer hands out");
    }
    None
}

/// The output for a lexed text, by the lines and columns of its code map.
///
/// `run` gets them in another way: it counts them while it moves on. So the two check each other.
fn lines_of(alloc: Global, lexed: &LexedText<'_>, file: &CodeMap) -> Result<String, AllocError> {
    let mut lines = String::new(alloc);
    for (begin, token, end) in lexed.lexemes() {
        add_lexeme(&mut lines, file, *begin, token, *end)?;
    }
    if let Some(fault) = lexed.fault() {
        add_fault(&mut lines, fault)?;
    }
    Ok(lines)
}

/// Whether the lines of a lexed text were printed.
///
/// For a long text only their number is compared, since formatting the lines takes longer than
/// lexing.
fn is_printed(
    alloc: Global,
    lexed: &LexedText<'_>,
    file: &CodeMap,
    printed: &[u8],
) -> Result<bool, AllocError> {
    if lexed.text().len() > LONGEST_WITH_LINES {
        let count = printed.iter().filter(|&&byte| byte == b'\n').count();
        return Ok(count == item_count(lexed));
    }
    Ok(lines_of(alloc, lexed, file)?.as_bytes() == printed)
}

/// What is wrong with a lexed text, or with the output for it, if anything is.
pub fn wrong_with_lexed(
    alloc: Global,
    lexed: &LexedText<'_>,
    file: &CodeMap,
    printed: &[u8],
) -> Result<Option<&'static str>, AllocError> {
    if !is_yielded(alloc, lexed, false)? {
        return Ok(Some("a lexer hands out something else"));
    }
    if !is_yielded(alloc, lexed, true)? {
        return Ok(Some("plain lexemes differ from the lexemes of `next`"));
    }
    if !is_printed(alloc, lexed, file, printed)? {
        return Ok(Some("something else is printed"));
    }
    Ok(wrong_with_lexemes(lexed))
}

/// Lexes a text, and returns what is wrong with it, or with the output for it, if anything is.
pub fn first_wrong(
    alloc: Global,
    text: &str,
    printed: &[u8],
) -> Result<Option<&'static str>, AllocError> {
    let file = file_of(alloc, text)?;
    let lexed = lexed_in(alloc, text, &file)?;
    wrong_with_lexed(alloc, &lexed, &file, printed)
}
