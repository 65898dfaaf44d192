//! An editor: a text that stays lexed from one version to the next, and columns as editors count
//! them.

ghost use Rattle.std.specs.Prelude.{◌≡◌, take, true};
ghost use Rattle.std.specs.Str.{IsCharBoundary};

use starlark_syntax::codemap::{CodeMap, Pos};
use starlark_syntax::dialect::Dialect;
use starlark_syntax::lexer::{LexedText, SourceError};
use std::alloc::Global;

/// Whether two texts have the same bytes up to byte `from`, a character boundary of both.
fn agree(old: &str, new: &str, from: usize) -> bool
    ensures { result ≡ true → IsCharBoundary old.now from × IsCharBoundary new.now from × (take from old.now ≡ take from new.now) }
{
    old.is_char_boundary(from) && new.is_char_boundary(from) && old[..from] == new[..from]
}

/// Lexes a file when it is opened.
pub fn opened<'a>(alloc: Global, file: &'a CodeMap) -> Result<LexedText<'a>, SourceError> {
    Ok(LexedText::lex(alloc, file.source(), &Dialect::Standard, file.dupe()?)?)
}

/// Lexes a new version of a file, which differs from the old one only from byte `from` on.
///
/// If that isn't so, all of it is lexed.
pub fn update<'a>(
    alloc: Global,
    old: LexedText<'a>,
    from: usize,
    new: &'a CodeMap,
) -> Result<LexedText<'a>, SourceError> {
    if !agree(old.text(), new.source(), from) {
        return opened(alloc, new);
    }
    old.relex(from, new.source(), new)
        .map_err(|_| SourceError::Memory)
}

/// Line and column of a position, both from 0, with columns in UTF-16 units.
///
/// `None` where the position is out of range, or inside a character.
pub fn utf16_place(file: &CodeMap, place: Pos) -> Option<(usize, usize)> {
    if !file.has_pos(place) {
        return None;
    }
    let line = file.find_line(place);
    let begin = file.line_span(line).begin();
    let front = file
        .source()
        .get(begin.get() as usize..place.get() as usize)?;
    Some((line, front.encode_utf16().count()))
}
