//! A parser of expressions: names, integers, strings, lists, calls, indexing and sums.

use starlark_syntax::codemap::{CodeMap, Span, Spanned};
use starlark_syntax::error::{Error, ErrorKind, ParserMessage};
use starlark_syntax::eval_exception::EvalException;
use starlark_syntax::lexer::{SourceError, Token, TokenInt};
use std::alloc::{AllocError, Global};
use std::fmt;
use std::fmt::Write;

/// Greatest depth of nested expressions, so that no text overflows the stack.
const DEPTH: u32 = 100;

/// An expression. It borrows names and values from the lexemes.
#[derive(Drop)]
pub enum Expression<'t> {
    /// `x`.
    Name(&'t str),
    /// `1`.
    Integer(&'t TokenInt),
    /// `"text"`, with its escapes decoded.
    Text(&'t str),
    /// `[a, b]`.
    List(Vec<Expression<'t>>),
    /// `a + b + c`, of two terms or more.
    Sum(Vec<Expression<'t>>),
    /// `f(a, b)`.
    Call(Box<Expression<'t>>, Vec<Expression<'t>>),
    /// `value[index]`.
    Index(Box<Expression<'t>>, Box<Expression<'t>>),
}

/// Writes expressions between two brackets, with a separator between each two.
#[cycle(printing)]
fn write_group<W: fmt::Write>(
    f: &mut fmt::Formatter<W>,
    brackets: (char, char),
    mark: &str,
    expressions: &[Expression<'_>],
) -> fmt::Result {
    f.write_char(brackets.0)?;
    for (index, expression) in expressions.iter().enumerate() {
        if index > 0 {
            f.write_str(mark)?;
        }
        write!(f, "{expression}")?;
    }
    f.write_char(brackets.1)
}

/// Prints the expression as source, with brackets around each sum.
impl fmt::Display for Expression<'_> {
    #[cycle(printing)]
    fn fmt<W: fmt::Write>(&self, f: &mut fmt::Formatter<W>) -> fmt::Result {
        match self {
            Expression::Name(name) => f.write_str(name),
            Expression::Integer(value) => write!(f, "{value}"),
            Expression::Text(text) => write!(f, "{text:?}"),
            Expression::List(items) => write_group(f, ('[', ']'), ", ", items),
            Expression::Sum(terms) => write_group(f, ('(', ')'), " + ", terms),
            Expression::Call(function, arguments) => {
                write!(f, "{function}")?;
                write_group(f, ('(', ')'), ", ", arguments)
            }
            Expression::Index(value, index) => write!(f, "{value}[{index}]"),
        }
    }
}

/// The expression of a single token; `None` if it is none.
fn expression_of(token: &Token) -> Option<Expression<'_>> {
    match token {
        Token::Identifier(name) => Some(Expression::Name(name.as_str())),
        Token::Int(value) => Some(Expression::Integer(value)),
        Token::String(text) => Some(Expression::Text(text.as_str())),
        _ => None,
    }
}

/// The message for something that is missing.
fn missing_text<D: fmt::Display>(alloc: Global, wanted: &D) -> Result<String, AllocError> {
    format!(in alloc; "Parse error: {wanted} is missing")
}

/// A parser's error with a message.
fn parser_error(alloc: Global, text: String) -> Result<Error, AllocError> {
    let kind = ErrorKind::Parser(ParserMessage::Text(text));
    Error::new_kind(alloc, kind).map_err(|_| AllocError)
}

/// The exception for something that is missing at a span of a file.
fn missing_at<D: fmt::Display>(
    alloc: Global,
    file: &CodeMap,
    span: Span,
    wanted: &D,
) -> Result<EvalException, AllocError> {
    let error = parser_error(alloc, missing_text(alloc, wanted)?)?;
    EvalException::new(error, span, file).map_err(|_| AllocError)
}

/// A parser: the lexemes that are left.
#[derive(Drop)]
struct Parser<'t> {
    alloc: Global,
    file: &'t CodeMap,
    rest: &'t [Spanned<Token>],
}

impl<'t> Parser<'t> {
    /// Takes the next lexeme if it is the wanted token, and returns whether it is.
    fn takes(&mut self, wanted: &Token) -> bool {
        match self.rest {
            [first, rest @ ..] if first.node == *wanted => {
                self.rest = rest;
                true
            }
            _ => false,
        }
    }

    /// The error for something that is missing before the next lexeme.
    fn missing<D: fmt::Display>(&self, wanted: &D) -> SourceError {
        let span = match self.rest {
            [first, ..] => first.span,
            [] => self.file.full_span().end_span(),
        };
        match missing_at(self.alloc, self.file, span, wanted) {
            Ok(fault) => SourceError::Fault(fault),
            Err(_) => SourceError::Memory,
        }
    }

    /// Takes the next lexeme, which must be the wanted token.
    fn needs(&mut self, wanted: &Token) -> Result<(), SourceError> {
        if self.takes(wanted) {
            Ok(())
        } else {
            Err(self.missing(wanted))
        }
    }

    /// Takes the next lexeme, which must be an expression of a single token.
    fn single(&mut self) -> Result<Expression<'t>, SourceError> {
        if let [first, rest @ ..] = self.rest {
            if let Some(value) = expression_of(&first.node) {
                self.rest = rest;
                return Ok(value);
            }
        }
        Err(self.missing(&"an expression"))
    }

    /// Parses a sum of operands, or one operand.
    #[cycle(expression)]
    fn sum(&mut self, depth: u32) -> Result<Expression<'t>, SourceError> {
        let first = self.operand(depth)?;
        if self.takes(&Token::Plus) {
            self.terms(depth, first)
        } else {
            Ok(first)
        }
    }

    /// Parses the rest of a sum after its first operand and the plus.
    #[cycle(expression)]
    fn terms(&mut self, depth: u32, first: Expression<'t>) -> Result<Expression<'t>, SourceError> {
        let mut terms = vec![in self.alloc; first]?;
        for _ in self.rest {
            terms.push(self.operand(depth)?)?;
            if !self.takes(&Token::Plus) {
                return Ok(Expression::Sum(terms));
            }
        }
        Err(self.missing(&"an expression"))
    }

    /// Parses a sum and the token that must follow it.
    #[cycle(expression)]
    fn sum_before(&mut self, depth: u32, end: &Token) -> Result<Expression<'t>, SourceError> {
        let sum = self.sum(depth)?;
        self.needs(end)?;
        Ok(sum)
    }

    /// Parses the rest of a call after its opening bracket.
    #[cycle(expression)]
    fn call(
        &mut self,
        depth: u32,
        function: Expression<'t>,
    ) -> Result<Expression<'t>, SourceError> {
        let function = Box::new(self.alloc, function)?;
        let arguments = self.items(depth, &Token::ClosingRound)?;
        Ok(Expression::Call(function, arguments))
    }

    /// Parses the rest of an indexing after its opening bracket.
    #[cycle(expression)]
    fn index(&mut self, depth: u32, value: Expression<'t>) -> Result<Expression<'t>, SourceError> {
        let value = Box::new(self.alloc, value)?;
        let index = self.sum_before(depth, &Token::ClosingSquare)?;
        Ok(Expression::Index(value, Box::new(self.alloc, index)?))
    }

    /// Parses a value and the calls and indexings after it, each of which nests it once more.
    #[cycle(expression)]
    fn operand(&mut self, depth: u32) -> Result<Expression<'t>, SourceError> {
        let mut value = self.value(depth)?;
        for depth in (0..depth).rev() {
            if self.takes(&Token::OpeningRound) {
                value = self.call(depth, value)?;
            } else if self.takes(&Token::OpeningSquare) {
                value = self.index(depth, value)?;
            } else {
                return Ok(value);
            }
        }
        Err(self.missing(&"an end of the nesting"))
    }

    /// Parses a name, an integer, a string, a list, or an expression in brackets.
    #[cycle(expression)]
    fn value(&mut self, depth: u32) -> Result<Expression<'t>, SourceError> {
        let Some(depth) = depth.checked_sub(1) else {
            return Err(self.missing(&"an end of the nesting"));
        };
        if self.takes(&Token::OpeningSquare) {
            Ok(Expression::List(self.items(depth, &Token::ClosingSquare)?))
        } else if self.takes(&Token::OpeningRound) {
            self.sum_before(depth, &Token::ClosingRound)
        } else {
            self.single()
        }
    }

    /// Parses expressions with commas between them, up to a closing bracket.
    #[cycle(expression)]
    fn items(&mut self, depth: u32, closing: &Token) -> Result<Vec<Expression<'t>>, SourceError> {
        let mut items = Vec::new(self.alloc);
        for _ in self.rest {
            if self.takes(closing) {
                return Ok(items);
            }
            items.push(self.sum(depth)?)?;
            if !self.takes(&Token::Comma) {
                break;
            }
        }
        self.needs(closing)?;
        Ok(items)
    }
}

/// Parses the expressions of a file, one a line.
pub fn expressions<'t>(
    alloc: Global,
    file: &'t CodeMap,
    lexemes: &'t [Spanned<Token>],
) -> Result<Vec<Expression<'t>>, SourceError> {
    let mut parser = Parser {
        alloc,
        file,
        rest: lexemes,
    };
    let mut expressions = Vec::new(alloc);
    for _ in lexemes {
        if parser.rest.is_empty() {
            break;
        }
        if !parser.takes(&Token::Newline) {
            expressions.push(parser.sum_before(DEPTH, &Token::Newline)?)?;
        }
    }
    Ok(expressions)
}
