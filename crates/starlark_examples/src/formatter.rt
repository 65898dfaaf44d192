//! A formatter: from lexemes, comments and blank lines to a text that lexes to the same tokens.

use crate::lexeme_list::lexemes_of;
use starlark_syntax::codemap::{CodeMap, Spanned};
use starlark_syntax::lexer::{SourceError, Token};
use std::alloc::{AllocError, Global};

/// The indentation of a block, and of lines inside brackets.
const STEP: &str = "    ";

/// The formatted text so far, and the state before the next lexeme.
#[derive(Drop)]
struct Formatter {
    formatted: String,
    /// Whether the next lexeme begins a line.
    is_line_begin: bool,
    /// Number of open blocks.
    blocks: usize,
    /// Number of open brackets.
    brackets: usize,
    /// Number of open f-strings. Inside them gaps aren't changed.
    fstrings: usize,
}

/// Number of LF in a text.
fn count_newlines(text: &str) -> usize {
    text.bytes().filter(|byte| *byte == b'\n').count()
}

/// Number of open blocks at the next line of code, if `blocks` are open before the lexemes `ahead`.
fn blocks_ahead(blocks: usize, ahead: &[Spanned<Token>]) -> usize {
    let mut blocks = blocks;
    for lexeme in ahead {
        match lexeme.node {
            Token::Comment(_) | Token::Newline => {}
            Token::Indent => blocks = blocks.saturating_add(1),
            Token::Dedent => blocks = blocks.saturating_sub(1),
            _ => break,
        }
    }
    blocks
}

/// Whether a token is layout or a comment, not code.
fn is_layout(token: &Token) -> bool {
    matches!(
        token,
        Token::Comment(_) | Token::Newline | Token::Indent | Token::Dedent
    )
}

impl Formatter {
    /// Appends the indentation of a line that begins with a token.
    fn add_indentation(&mut self, token: &Token) -> Result<(), AllocError> {
        let is_closing = matches!(
            token,
            Token::ClosingRound | Token::ClosingSquare | Token::ClosingCurly
        );
        let brackets = self.brackets.saturating_sub(usize::from(is_closing));
        for _ in 0..self.blocks.saturating_add(brackets) {
            self.formatted.push_str(STEP)?;
        }
        Ok(())
    }

    /// Appends the indentation before a token at the start of a line, unless it is layout.
    fn begin_line(&mut self, token: &Token) -> Result<(), AllocError> {
        self.is_line_begin = matches!(token, Token::Newline | Token::Indent | Token::Dedent);
        if self.is_line_begin {
            return Ok(());
        }
        self.add_indentation(token)
    }

    /// Appends line breaks that are no tokens, and the indentation before a token after them.
    ///
    /// Such line breaks are in brackets and after comment lines.
    fn break_line(&mut self, newline_count: usize, token: &Token) -> Result<(), AllocError> {
        for _ in 0..newline_count {
            self.formatted.push('\n')?;
        }
        self.begin_line(token)
    }

    /// Appends the spaces between two tokens of a line.
    fn add_spaces(&mut self, gap: &str, token: &Token) -> Result<(), AllocError> {
        match token {
            Token::Comment(_) => self.formatted.push_str("  "),
            Token::Newline => Ok(()),
            _ if gap.is_empty() => Ok(()),
            _ => self.formatted.push(' '),
        }
    }

    /// Appends the gap before a token, in place of the gap of the source.
    fn add_gap(&mut self, gap: &str, token: &Token) -> Result<(), AllocError> {
        let newline_count = count_newlines(gap);
        if self.fstrings > 0 {
            self.formatted.push_str(gap)
        } else if self.is_line_begin {
            self.begin_line(token)
        } else if gap.contains('\\') {
            self.formatted.push_str(" \\\n")?;
            self.formatted.push_str(STEP)?;
            self.add_indentation(token)
        } else if newline_count > 0 {
            self.break_line(newline_count, token)
        } else {
            self.add_spaces(gap, token)
        }
    }

    /// Appends a token as the source has it.
    fn add_token(&mut self, token: &Token, written: &str) -> Result<(), AllocError> {
        match token {
            Token::Indent | Token::Dedent => return Ok(()),
            Token::Newline if written.is_empty() => return Ok(()),
            Token::Newline => {
                self.is_line_begin = true;
                return self.formatted.push('\n');
            }
            Token::OpeningRound | Token::OpeningSquare | Token::OpeningCurly => {
                self.brackets = self.brackets.saturating_add(1);
            }
            Token::ClosingRound | Token::ClosingSquare | Token::ClosingCurly => {
                self.brackets = self.brackets.saturating_sub(1);
            }
            Token::FStringStart(_) => self.fstrings = self.fstrings.saturating_add(1),
            Token::FStringEnd => self.fstrings = self.fstrings.saturating_sub(1),
            _ => {}
        }
        self.formatted.push_str(written)
    }
}

/// The lexemes of a source with new gaps between them.
fn with_new_gaps(
    alloc: Global,
    source: &str,
    lexemes: &[Spanned<Token>],
) -> Result<String, AllocError> {
    let mut formatter = Formatter {
        formatted: String::new(alloc),
        is_line_begin: true,
        blocks: blocks_ahead(0, lexemes),
        brackets: 0,
        fstrings: 0,
    };
    let mut at = 0;
    let mut is_code_after = false;
    for (index, lexeme) in lexemes.iter().enumerate() {
        let begin = lexeme.span.begin().get() as usize;
        let end = lexeme.span.end().get() as usize;
        let token = &lexeme.node;
        formatter.add_gap(source.get(at..begin).unwrap_or(""), token)?;
        formatter.add_token(token, source.get(begin..end).unwrap_or(""))?;
        if is_code_after && formatter.is_line_begin {
            formatter.blocks = blocks_ahead(formatter.blocks, &lexemes[index + 1..]);
            is_code_after = false;
        } else if !is_layout(token) {
            is_code_after = true;
        }
        at = end;
    }
    Ok(formatter.formatted)
}

/// Whether two lists of lexemes have the same tokens.
fn have_same_tokens(first: &[Spanned<Token>], second: &[Spanned<Token>]) -> bool {
    first.len() == second.len()
        && first
            .iter()
            .zip(second)
            .all(|(old, new)| old.node == new.node)
}

/// Formats a source: each block gets four spaces, and a gap between tokens one.
///
/// Lines end without spaces. `None` where the result has other tokens than the source.
pub fn formatted(alloc: Global, file: &CodeMap) -> Result<Option<String>, SourceError> {
    let lexemes = lexemes_of(alloc, file.source(), file)?;
    let formatted = with_new_gaps(alloc, file.source(), &lexemes)?;
    let again = lexemes_of(alloc, formatted.as_str(), file)?;
    if !have_same_tokens(&lexemes, &again) {
        return Ok(None);
    }
    Ok(Some(formatted))
}
