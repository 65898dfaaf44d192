//! A build tool: the files that a file loads.
//!
//! It keeps the last one or two tokens, since a label is the string after `load` and a bracket.

use starlark_syntax::codemap::CodeMap;
use starlark_syntax::dialect::Dialect;
use starlark_syntax::lexer::{Lexeme, Lexer, SourceError, Token};
use std::alloc::Global;

/// The tokens before a lexeme, as far as they matter.
#[derive(Clone, Copy)]
enum Before {
    /// `load`.
    Load,
    /// `load` and an opening bracket.
    LoadAndBracket,
    /// Anything else.
    Other,
}

impl Before {
    /// The state after an opening bracket.
    fn bracket(self) -> Before {
        match self {
            Before::Load => Before::LoadAndBracket,
            Before::LoadAndBracket | Before::Other => Before::Other,
        }
    }

    /// The state after a lexeme. The label of a `load` statement goes to `labels`.
    fn lexeme(self, lexeme: Lexeme, labels: &mut Vec<String>) -> Result<Before, SourceError> {
        let (_, token, _) = lexeme?;
        match token {
            Token::Comment(_) => return Ok(self),
            Token::Load => return Ok(Before::Load),
            Token::OpeningRound => return Ok(self.bracket()),
            Token::String(label) if matches!(self, Before::LoadAndBracket) => labels.push(label)?,
            _ => {}
        }
        Ok(Before::Other)
    }
}

/// The labels of the files that a file loads, in the order of its `load` statements.
pub fn loads(alloc: Global, file: &CodeMap) -> Result<Vec<String>, SourceError> {
    let lexer = Lexer::new(alloc, file.source(), &Dialect::Standard, file.dupe()?)?;
    let mut labels = Vec::new(alloc);
    let mut before = Before::Other;
    for lexeme in lexer {
        before = before.lexeme(lexeme, &mut labels)?;
    }
    Ok(labels)
}
