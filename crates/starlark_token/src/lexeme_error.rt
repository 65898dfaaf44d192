//! The errors of lexing a text.

ghost use Rattle.std.specs.Option.{option_map};
ghost use Rattle.std.specs.Prelude.{◌≡◌, Some};
ghost use Rattle.starlark_token.specs.FaultCodes.{error_code};
ghost use Rattle.starlark_token.specs.FaultTexts.{fault_text};

use std::fmt;

/// An error of lexing a text. The string of a variant is a part of the text, unless it says more.
///
/// The variants `IntParse`, `CommentSpanComputedIncorrectly` and `CannotParse` never come from a
/// lexer.
#[derive(Debug, Drop)]
pub enum LexemeError {
    /// A line closes a block, and its indentation is that of no open block.
    Indentation,
    /// The text begins no token.
    InvalidInput(String),
    /// A tab between two tokens, or in the indentation of a line of code.
    InvalidTab,
    /// A string literal is not closed.
    UnfinishedStringLiteral,
    /// An escape that has no meaning: the text after its backslash, up to the last character read.
    InvalidEscapeSequence(String),
    /// The text ends just after the backslash of an escape.
    EmptyEscapeSequence,
    /// A reserved word, which no program may use.
    ReservedKeyword(String),
    /// A decimal integer of more than one digit that begins with 0, as written.
    StartsZero(String),
    /// A text that should be an integer. No call returns it.
    IntParse(String),
    /// A comment without its `#`. No call returns it.
    CommentSpanComputedIncorrectly,
    /// A text that is no integer in the base: what `TokenInt::from_str_radix` fails with.
    CannotParse(String, u32),
    /// An expression in an f-string is not closed by `}`.
    UnfinishedFStringExpression,
}

impl LexemeError {
    /// The code of a fault of a text, as `SL008`, which no later version changes. `None` for the
    /// variants that never come from a lexer.
    #[tactic(auto, unfolding(crate::specs::FaultCodes::fault_code))]
    pub fn code(&self) -> Option<&'static str>
        ensures { option_map (λ code. code.now) result ≡ error_code self.now }
    {
        match self {
            LexemeError::Indentation => Some("SL001"),
            LexemeError::InvalidInput(_) => Some("SL002"),
            LexemeError::InvalidTab => Some("SL003"),
            LexemeError::UnfinishedStringLiteral => Some("SL004"),
            LexemeError::InvalidEscapeSequence(_) => Some("SL005"),
            LexemeError::EmptyEscapeSequence => Some("SL006"),
            LexemeError::ReservedKeyword(_) => Some("SL007"),
            LexemeError::StartsZero(_) => Some("SL008"),
            LexemeError::UnfinishedFStringExpression => Some("SL009"),
            LexemeError::IntParse(_) => None,
            LexemeError::CommentSpanComputedIncorrectly => None,
            LexemeError::CannotParse(_, _) => None,
        }
    }
}

/// Prints the message, as in ``Parse error: integer cannot have leading 0, got `01` ``.
#[tactic(auto, unfolding(crate::specs::FaultTexts::fault_text))]
impl fmt::Display for LexemeError {
    ghost output = { λ fault. Some (fault_text fault) };

    fn fmt<W: fmt::Write>(&self, f: &mut fmt::Formatter<W>) -> fmt::Result {
        match self {
            LexemeError::Indentation => write!(f, "Parse error: incorrect indentation"),
            LexemeError::InvalidInput(text) => { write!(f, "Parse error: invalid input `{text}`") }
            LexemeError::InvalidTab => write!(f, "Parse error: tabs are not allowed"),
            LexemeError::UnfinishedStringLiteral => {
                write!(f, "Parse error: unfinished string literal")
            }
            LexemeError::InvalidEscapeSequence(text) => {
                write!(f, "Parse error: invalid string escape sequence `{text}`")
            }
            LexemeError::EmptyEscapeSequence => {
                write!(
                    f,
                    "Parse error: missing string escape sequence, only saw `\\`"
                )
            }
            LexemeError::ReservedKeyword(word) => {
                write!(f, "Parse error: cannot use reserved keyword `{word}`")
            }
            LexemeError::StartsZero(word) => {
                write!(
                    f,
                    "Parse error: integer cannot have leading 0, got `{word}`"
                )
            }
            LexemeError::IntParse(text) => {
                write!(f, "Parse error: failed to parse integer: `{text}`")
            }
            LexemeError::CommentSpanComputedIncorrectly => {
                write!(f, "Comment span is computed incorrectly (internal error)")
            }
            LexemeError::CannotParse(text, base) => {
                write!(f, "Cannot parse `{text}` as an integer in base {base}")
            }
            LexemeError::UnfinishedFStringExpression => {
                write!(
                    f,
                    "Parse error: f-string expression is missing closing `}}`"
                )
            }
        }
    }
}
