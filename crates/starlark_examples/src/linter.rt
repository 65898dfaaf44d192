//! A linter: all faults of a file, one rule about its layout, and one about its strings.

use starlark_syntax::codemap::{CodeMap, FileSpanRef, OrMemory, Pos, Span};
use starlark_syntax::dialect::Dialect;
use starlark_syntax::eval_exception::EvalException;
use starlark_syntax::lexer::{RecoveringLexer, SourceError, Token};
use std::alloc::{AllocError, Global};
use std::fmt;

/// Spaces by which each block must be indented.
const STEP: usize = 4;

/// A rule for files.
#[derive(Clone, Copy)]
pub enum Rule {
    /// Each block is indented by `STEP` spaces more than the block around it.
    Indentation,
    /// No string is an address with `http:`.
    Address,
}

/// Prints what the rule says of a finding.
impl fmt::Display for Rule {
    fn fmt<W: fmt::Write>(&self, f: &mut fmt::Formatter<W>) -> fmt::Result {
        match self {
            Rule::Indentation => write!(f, "a block is indented by {STEP} spaces"),
            Rule::Address => write!(f, "this address is better read by https"),
        }
    }
}

/// A rule that a file breaks, and the position at which it does.
#[derive(Clone, Copy)]
pub struct Finding {
    /// The rule.
    pub rule: Rule,
    /// The position, in bytes.
    pub place: Pos,
}

/// The printed line of a finding: `file:line:column: text`.
pub fn line_of(alloc: Global, file: &CodeMap, finding: Finding) -> Result<String, AllocError> {
    let span = Span::new(finding.place, finding.place);
    let place = FileSpanRef { file, span };
    format!(in alloc; "{place}: {}", finding.rule)
}

/// Whether a text is an address with `http:`.
fn is_clear_address(text: &str) -> bool {
    text.starts_with("http://")
}

/// The rule that a token breaks, if any. `width` is that of an indent, `outer` that of the block
/// around.
fn broken_rule(token: &Token, width: usize, outer: usize) -> Option<Rule> {
    match token {
        Token::Indent if width != outer.saturating_add(STEP) => Some(Rule::Indentation),
        Token::String(text) if is_clear_address(text.as_str()) => Some(Rule::Address),
        _ => None,
    }
}

/// A linter: its findings and faults so far, and the widths of the open blocks.
#[derive(Drop)]
struct Linter {
    found: Vec<Finding>,
    faults: Vec<EvalException>,
    widths: Vec<usize>,
}

impl Linter {
    /// Pushes the width of a block that a token begins, or pops that of one that it ends.
    fn keep_width(&mut self, token: &Token, width: usize) -> Result<(), AllocError> {
        match token {
            Token::Indent => self.widths.push(width)?,
            Token::Dedent => drop(self.widths.pop()),
            _ => {}
        }
        Ok(())
    }

    /// Checks the next token, of `width` bytes at `place`, and stores the rule that it breaks.
    fn look_at(&mut self, token: Token, width: usize, place: Pos) -> Result<(), AllocError> {
        let outer = self.widths.last().copied().unwrap_or(0);
        if let Some(rule) = broken_rule(&token, width, outer) {
            self.found.push(Finding { rule, place })?;
        }
        self.keep_width(&token, width)
    }

    /// Checks all lexemes that a lexer yields, and stores its faults.
    fn look_at_all(&mut self, lexer: RecoveringLexer<'_>) -> Result<(), SourceError> {
        for lexeme in lexer {
            match lexeme {
                Ok((begin, token, end)) => {
                    self.look_at(token, end - begin, Pos::new(begin as u32))?;
                }
                Err(OrMemory::Error(fault)) => self.faults.push(fault)?,
                Err(OrMemory::Memory) => return Err(SourceError::Memory),
            }
        }
        Ok(())
    }
}

/// What is wrong with a file.
#[derive(Drop)]
pub struct Report {
    /// All findings, in order.
    pub findings: Vec<Finding>,
    /// All faults, in order.
    pub faults: Vec<EvalException>,
}

/// All findings and all faults in a file.
pub fn lint(alloc: Global, file: &CodeMap) -> Result<Report, SourceError> {
    let lexer = RecoveringLexer::new(alloc, file.source(), &Dialect::Standard, file.dupe()?)?;
    let mut linter = Linter {
        found: Vec::new(alloc),
        faults: Vec::new(alloc),
        widths: Vec::new(alloc),
    };
    linter.look_at_all(lexer)?;
    Ok(Report {
        findings: linter.found,
        faults: linter.faults,
    })
}
