//! All lexemes of a text as a list.

use starlark_syntax::codemap::{CodeMap, Pos, Span, Spanned};
use starlark_syntax::dialect::Dialect;
use starlark_syntax::lexer::{Lexer, SourceError, Token};
use std::alloc::Global;

/// Appends all lexemes that a lexer yields.
fn add_all(lexemes: &mut Vec<Spanned<Token>>, lexer: Lexer<'_>) -> Result<(), SourceError> {
    for lexeme in lexer {
        let (begin, node, end) = lexeme?;
        let span = Span::new(Pos::new(begin as u32), Pos::new(end as u32));
        lexemes.push(Spanned { node, span })?;
    }
    Ok(())
}

/// The lexemes of a text, or its fault with a span of the code map.
pub fn lexemes_of(
    alloc: Global,
    text: &str,
    file: &CodeMap,
) -> Result<Vec<Spanned<Token>>, SourceError> {
    let lexer = Lexer::new(alloc, text, &Dialect::Standard, file.dupe()?)?;
    let mut lexemes = Vec::new(alloc);
    add_all(&mut lexemes, lexer)?;
    Ok(lexemes)
}
