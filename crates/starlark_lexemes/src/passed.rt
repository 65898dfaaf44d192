//! What a step of the lexer passes.

ghost use Rattle.std.specs.Prelude.{◌≡◌};
ghost use Rattle.starlark_lexemes.specs.PlainLexemes.{is_plain};

use starlark_words::scanner::Terminal;

/// The kind of what a step passed.
#[derive(Clone, Copy)]
pub enum Kind {
    // Plain kinds: the value is a part of the text, or there is none.
    /// A keyword or symbol.
    Word(Terminal),
    /// A comment, whose value is what follows its `#`.
    Comment,
    /// A name.
    Identifier,
    /// A string literal.
    String,
    /// A text of an f-string.
    FStringText,
    /// The `{` at the start of an f-string's expression.
    FStringExprStart,
    /// The `}` at the end of an f-string's expression.
    FStringExprEnd,
    /// The closing quotes of an f-string.
    FStringEnd,
    /// A `Newline`.
    Newline,
    /// An `Indent`.
    Indent,
    /// A `Dedent`.
    Dedent,

    // Kinds that aren't plain.
    /// A lexeme whose token was made.
    Made,
    /// What has no lexeme.
    Layout,
    /// Nothing: all lexemes were passed before. A fault may be left.
    Last,
    /// Out of memory, in the place of a lexeme or a fault.
    OutOfMemory,
}

/// What a step passed. Offsets count bytes of the text; they mean nothing where no lexeme was passed.
#[derive(Clone, Copy)]
pub struct Passed {
    pub kind: Kind,
    /// Offset of the first byte.
    pub begin: usize,
    /// Offset after the last byte.
    pub end: usize,
    /// Offset where the value of a plain lexeme begins; `end` for a kind without a value.
    pub value_begin: usize,
    /// Offset after that value; `end` for a kind without a value.
    pub value_end: usize,
}

impl Kind {
    /// Whether it is a lexeme whose value, if it has one, is a part of the text.
    #[inline(always)]
    pub fn is_plain(self) -> bool
        ensures { result ≡ is_plain self }
    {
        !matches!(
            self,
            Kind::Made | Kind::Layout | Kind::Last | Kind::OutOfMemory
        )
    }
}

impl Passed {
    /// A lexeme of a kind without a value.
    #[inline(always)]
    pub(crate) fn valueless(kind: Kind, begin: usize, end: usize) -> Passed
        ensures { result ≡ record { kind = kind; begin = begin; end = end; value_begin = end; value_end = end } }
    {
        Passed {
            kind,
            begin,
            end,
            value_begin: end,
            value_end: end,
        }
    }
}
