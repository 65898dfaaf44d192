//! The tokens of a lexer.

ghost use Rattle.std.specs.Prelude.{◌≡◌, IfOk, OnErr};
ghost use Rattle.starlark_token.specs.TokenTexts.{kind_of, fixed_text};
ghost use Rattle.starlark_token.specs.TokenViews.{is_newline_view, token_view};
ghost use Rattle.starlark_token.specs.OwnedValues.{OwnsMemory};

use crate::fstring_style::FStringQuote;
use crate::token_int::TokenInt;
use starlark_grammar::{match_terminals, terminals};
use std::alloc::{AllocError, Global};
use std::fmt;

/// The name of the variant of a keyword or symbol.
macro_rules! name_of {
    ($sort:literal $name:ident $text:literal $number:literal) => { stringify!($name) };
}

/// The printed text of a keyword or symbol.
macro_rules! text_of {
    ($sort:literal $name:ident $text:literal $number:literal) => { concat!($sort, " '", $text, "'") };
}

/// A copy of a keyword or symbol.
macro_rules! copy_of {
    ($sort:literal $name:ident $text:literal $number:literal) => { Ok(Token::$name) };
}

/// A token, with its value where it has one.
///
/// A lexer never yields `Tabs`, `Reserved`, and the variants whose names begin with `Raw`: they are
/// tokens of the scanner below it.
#[derive(Debug, Drop, PartialEq)]
pub enum Token {
    /// A comment: the text after `#` up to the end of its line.
    Comment(String),
    /// A run of tabs. No lexer yields it.
    Tabs,
    /// A block begins: the line is indented further than the line of code before it.
    Indent,
    /// A block ends. Each block that a line closes has one.
    Dedent,
    /// A logical line ends, or a blank line does. The end of the text has one more.
    Newline,
    /// The opening of a string literal in single quotes. No lexer yields it.
    RawSingleQuote,
    /// The opening of a string literal in double quotes. No lexer yields it.
    RawDoubleQuote,
    /// The opening of an f-string in single quotes. No lexer yields it.
    RawFStringSingleQuote,
    /// The opening of an f-string in double quotes. No lexer yields it.
    RawFStringDoubleQuote,
    /// The opening of a bytes literal in single quotes. No lexer yields it.
    RawByteSingleQuote,
    /// The opening of a bytes literal in double quotes. No lexer yields it.
    RawByteDoubleQuote,
    /// A bytes literal: its value, with escapes decoded.
    Bytes(Vec<u8>),
    /// A reserved word. No lexer yields it: it fails with `ReservedKeyword`.
    Reserved,
    /// An identifier: its name.
    Identifier(String),
    /// A decimal integer without its value. No lexer yields it.
    RawDecInt,
    /// A hexadecimal integer without its value. No lexer yields it.
    RawHexInt,
    /// A binary integer without its value. No lexer yields it.
    RawBinInt,
    /// An octal integer without its value. No lexer yields it.
    RawOctInt,
    /// An integer literal: its value. It has no sign.
    Int(TokenInt),
    /// A float literal, which has a point or an exponent: its text as written.
    Float(String),
    /// A string literal: its value, with escapes decoded.
    String(String),
    /// The opening of an f-string: its quotes. Whether it is raw isn't stored.
    FStringStart(FStringQuote),
    /// Text of an f-string between expressions, with escapes decoded. It is never empty.
    FStringText(String),
    /// The `{` before an expression in an f-string.
    FStringExprStart,
    /// The `}` after an expression in an f-string.
    FStringExprEnd,
    /// The `!` before a conversion in an f-string.
    FStringBang,
    /// The closing quotes of an f-string.
    FStringEnd,

    /// The keyword `and`.
    And,
    /// The keyword `break`.
    Break,
    /// The keyword `continue`.
    Continue,
    /// The keyword `def`.
    Def,
    /// The keyword `elif`.
    Elif,
    /// The keyword `else`.
    Else,
    /// The keyword `for`.
    For,
    /// The keyword `if`.
    If,
    /// The keyword `in`.
    In,
    /// The keyword `lambda`.
    Lambda,
    /// The keyword `load`.
    Load,
    /// The keyword `not`.
    Not,
    /// The keyword `or`.
    Or,
    /// The keyword `pass`.
    Pass,
    /// The keyword `return`.
    Return,

    /// The symbol `,`.
    Comma,
    /// The symbol `;`.
    Semicolon,
    /// The symbol `:`.
    Colon,
    /// The symbol `+=`.
    PlusEqual,
    /// The symbol `-=`.
    MinusEqual,
    /// The symbol `*=`.
    StarEqual,
    /// The symbol `/=`.
    SlashEqual,
    /// The symbol `//=`.
    SlashSlashEqual,
    /// The symbol `%=`.
    PercentEqual,
    /// The symbol `==`.
    EqualEqual,
    /// The symbol `!=`.
    BangEqual,
    /// The symbol `<=`.
    LessEqual,
    /// The symbol `>=`.
    GreaterEqual,
    /// The symbol `**`.
    StarStar,
    /// The symbol `->`.
    MinusGreater,
    /// The symbol `=`.
    Equal,
    /// The symbol `<`.
    LessThan,
    /// The symbol `>`.
    GreaterThan,
    /// The symbol `-`.
    Minus,
    /// The symbol `+`.
    Plus,
    /// The symbol `*`.
    Star,
    /// The symbol `%`.
    Percent,
    /// The symbol `/`.
    Slash,
    /// The symbol `//`.
    SlashSlash,
    /// The symbol `.`.
    Dot,
    /// The symbol `&`.
    Ampersand,
    /// The symbol `|`.
    Pipe,
    /// The symbol `^`.
    Caret,
    /// The symbol `<<`.
    LessLess,
    /// The symbol `>>`.
    GreaterGreater,
    /// The symbol `~`.
    Tilde,
    /// The symbol `&=`.
    AmpersandEqual,
    /// The symbol `|=`.
    PipeEqual,
    /// The symbol `^=`.
    CaretEqual,
    /// The symbol `<<=`.
    LessLessEqual,
    /// The symbol `>>=`.
    GreaterGreaterEqual,
    /// The symbol `...`.
    Ellipsis,
    /// The symbol `[`.
    OpeningSquare,
    /// The symbol `{`.
    OpeningCurly,
    /// The symbol `(`.
    OpeningRound,
    /// The symbol `]`.
    ClosingSquare,
    /// The symbol `}`.
    ClosingCurly,
    /// The symbol `)`.
    ClosingRound,
}

impl Token {
    /// Whether it is `Newline`.
    #[tactic(auto, unfolding(crate::specs::TokenViews::token_view))]
    pub fn is_newline(&self) -> bool
        ensures { result ≡ is_newline_view (token_view self.now) }
    {
        matches!(self, Token::Newline)
    }

    /// The name of the variant, such as `Identifier` or `OpeningRound`.
    #[tactic(auto, unfolding(crate::specs::TokenViews::token_view, crate::specs::TokenTexts::kind_of, crate::specs::TokenTexts::whole_kind, crate::specs::TokenTexts::terminal_kind))]
    pub fn kind(&self) -> &'static str
        ensures { result.now ≡ kind_of (token_view self.now) }
    {
        terminals!(match_terminals!(self, Token, name_of, {
            Token::Comment(_) => "Comment",
            Token::Tabs => "Tabs",
            Token::Indent => "Indent",
            Token::Dedent => "Dedent",
            Token::Newline => "Newline",
            Token::RawSingleQuote => "RawSingleQuote",
            Token::RawDoubleQuote => "RawDoubleQuote",
            Token::RawFStringSingleQuote => "RawFStringSingleQuote",
            Token::RawFStringDoubleQuote => "RawFStringDoubleQuote",
            Token::RawByteSingleQuote => "RawByteSingleQuote",
            Token::RawByteDoubleQuote => "RawByteDoubleQuote",
            Token::Bytes(_) => "Bytes",
            Token::Reserved => "Reserved",
            Token::Identifier(_) => "Identifier",
            Token::RawDecInt => "RawDecInt",
            Token::RawHexInt => "RawHexInt",
            Token::RawBinInt => "RawBinInt",
            Token::RawOctInt => "RawOctInt",
            Token::Int(_) => "Int",
            Token::Float(_) => "Float",
            Token::String(_) => "String",
            Token::FStringStart(_) => "FStringStart",
            Token::FStringText(_) => "FStringText",
            Token::FStringExprStart => "FStringExprStart",
            Token::FStringExprEnd => "FStringExprEnd",
            Token::FStringBang => "FStringBang",
            Token::FStringEnd => "FStringEnd",
        }))
    }

    /// The printed text of a token that has no value; empty for one that has.
    #[tactic(auto, unfolding(crate::specs::TokenViews::token_view, crate::specs::TokenTexts::fixed_text, starlark_grammar::specs::PrintedWords::word_of, starlark_grammar::specs::Words::symbols, starlark_grammar::specs::Words::names))]
    fn fixed_text(&self) -> &'static str
        ensures { result.now ≡ fixed_text (token_view self.now) }
    {
        terminals!(match_terminals!(self, Token, text_of, {
            Token::Tabs => "",
            Token::Indent => "new indentation block",
            Token::Dedent => "end of indentation block",
            Token::Newline => "new line",
            Token::RawSingleQuote => "starting '",
            Token::RawDoubleQuote => "starting \"",
            Token::RawFStringSingleQuote => "starting f'",
            Token::RawFStringDoubleQuote => "starting f\"",
            Token::RawByteSingleQuote => "starting b'",
            Token::RawByteDoubleQuote => "starting b\"",
            Token::Reserved => "reserved keyword",
            Token::RawDecInt => "decimal integer literal",
            Token::RawHexInt => "hexadecimal integer literal",
            Token::RawBinInt => "binary integer literal",
            Token::RawOctInt => "octal integer literal",
            Token::FStringStart(_) => "f-string start",
            Token::FStringExprStart => "f-string expression start '{'",
            Token::FStringExprEnd => "f-string expression end '}'",
            Token::FStringBang => "f-string bang '!'",
            Token::FStringEnd => "f-string end",
            Token::Comment(_)
            | Token::Bytes(_)
            | Token::Identifier(_)
            | Token::Int(_)
            | Token::Float(_)
            | Token::String(_)
            | Token::FStringText(_) => "",
        }))
    }

    /// An equal token with a copy of the value. `AllocError` where memory for the value runs out.
    ///
    /// It allocates only for a string, bytes, or a `BigInt`.
    #[tactic(auto, unfolding(crate::specs::TokenViews::token_view))]
    pub fn clone(&self, alloc: Global) -> Result<Token, AllocError>
        ensures value { IfOk result (λ copy. token_view copy ≡ token_view self.now) }
        ensures memory { OnErr result (OwnsMemory (token_view self.now)) }
    {
        terminals!(match_terminals!(self, Token, copy_of, {
            Token::Comment(text) => Ok(Token::Comment(String::from_str(alloc, text)?)),
            Token::Tabs => Ok(Token::Tabs),
            Token::Indent => Ok(Token::Indent),
            Token::Dedent => Ok(Token::Dedent),
            Token::Newline => Ok(Token::Newline),
            Token::RawSingleQuote => Ok(Token::RawSingleQuote),
            Token::RawDoubleQuote => Ok(Token::RawDoubleQuote),
            Token::RawFStringSingleQuote => Ok(Token::RawFStringSingleQuote),
            Token::RawFStringDoubleQuote => Ok(Token::RawFStringDoubleQuote),
            Token::RawByteSingleQuote => Ok(Token::RawByteSingleQuote),
            Token::RawByteDoubleQuote => Ok(Token::RawByteDoubleQuote),
            Token::Bytes(bytes) => Ok(Token::Bytes(Vec::from_slice(alloc, bytes.as_slice())?)),
            Token::Reserved => Ok(Token::Reserved),
            Token::Identifier(name) => Ok(Token::Identifier(String::from_str(alloc, name)?)),
            Token::RawDecInt => Ok(Token::RawDecInt),
            Token::RawHexInt => Ok(Token::RawHexInt),
            Token::RawBinInt => Ok(Token::RawBinInt),
            Token::RawOctInt => Ok(Token::RawOctInt),
            Token::Int(number) => Ok(Token::Int(number.clone(alloc)?)),
            Token::Float(text) => Ok(Token::Float(String::from_str(alloc, text)?)),
            Token::String(text) => Ok(Token::String(String::from_str(alloc, text)?)),
            Token::FStringStart(quote) => Ok(Token::FStringStart(*quote)),
            Token::FStringText(text) => Ok(Token::FStringText(String::from_str(alloc, text)?)),
            Token::FStringExprStart => Ok(Token::FStringExprStart),
            Token::FStringExprEnd => Ok(Token::FStringExprEnd),
            Token::FStringBang => Ok(Token::FStringBang),
            Token::FStringEnd => Ok(Token::FStringEnd),
        }))
    }
}

/// Prints a description with the value, as in `identifier 'x'`, `symbol '+='`, `new line`.
///
/// Strings are printed as `{:?}` prints them, and bytes by their number alone.
#[tactic(auto, unfolding(crate::specs::TokenViews::token_view, crate::specs::TokenTexts::token_text))]
impl fmt::Display for Token {
    ghost use Rattle.starlark_token.specs.TokenTexts.{token_text};

    ghost output = { λ token. token_text (token_view token) };

    fn fmt<W: fmt::Write>(&self, f: &mut fmt::Formatter<W>) -> fmt::Result {
        match self {
            Token::Comment(text) => write!(f, "comment '{text}'"),
            Token::Bytes(bytes) => write!(f, "bytes literal ({} bytes)", bytes.len()),
            Token::Identifier(name) => write!(f, "identifier '{name}'"),
            Token::Int(number) => write!(f, "integer literal '{number}'"),
            Token::Float(text) => write!(f, "float literal '{text}'"),
            Token::String(text) => write!(f, "string literal {text:?}"),
            Token::FStringText(text) => write!(f, "f-string text {text:?}"),
            _ => f.write_str(self.fixed_text()),
        }
    }
}
