//! The kinds of lexemes: their numbers and their names.

ghost use Rattle.std.specs.Prelude.{true, ◌≡◌};
ghost use Rattle.starlark_c.specs.Kinds.{kind_name, kind_number, terminal_number, token_number};
ghost use Rattle.starlark_grammar.specs.Words.{Text};
ghost use Rattle.starlark_lexemes.specs.PlainLexemes.{is_plain, token_of};
ghost use Rattle.starlark_token.specs.TokenViews.{token_view};

use starlark_grammar::{match_terminals, terminals};
use starlark_syntax::lexer::{Kind, Terminal, Token};

/// The number of a keyword or symbol.
macro_rules! number_of {
    ($sort:literal $name:ident $text:literal $number:literal) => { $number };
}

/// A `match` of a number on those of kinds, whose arms for keywords and symbols stand after the other
/// arms.
macro_rules! name_by_number {
    (($kind:ident, { $($arms:tt)* })
    symbols { $($len:literal { $($bytes:tt $text:literal $symbol:ident = $number:literal $class:ident,)* })* }
    names { $($name_len:literal {
        $($name:literal $word:literal $keyword:ident = $keyword_number:literal,)*;
        $($reserved:literal $reserved_text:literal),*
    })* }) => {
        match $kind {
            $($arms)*
            $($($number => stringify!($symbol),)*)*
            $($($keyword_number => stringify!($keyword),)*)*
            _ => "",
        }
    };
}

/// The number of a token's kind, and 0 for a token that no lexer yields.
///
/// Numbers never change: a new kind gets the next one.
#[tactic(auto, unfolding(starlark_token::specs::TokenViews::token_view, crate::specs::Kinds::kind_number, crate::specs::Kinds::token_number, crate::specs::Kinds::terminal_number))]
#[inline(always)]
pub fn number_of_kind(token: &Token) -> u16
    ensures { result ≡ kind_number (token_view token.now) }
{
    terminals!(match_terminals!(token, Token, number_of, {
        Token::Comment(_) => 1,
        Token::Indent => 2,
        Token::Dedent => 3,
        Token::Newline => 4,
        Token::Identifier(_) => 5,
        Token::Int(_) => 6,
        Token::Float(_) => 7,
        Token::String(_) => 8,
        Token::Bytes(_) => 9,
        Token::FStringStart(_) => 10,
        Token::FStringText(_) => 11,
        Token::FStringExprStart => 12,
        Token::FStringExprEnd => 13,
        Token::FStringBang => 14,
        Token::FStringEnd => 15,
        Token::Tabs
        | Token::RawSingleQuote
        | Token::RawDoubleQuote
        | Token::RawFStringSingleQuote
        | Token::RawFStringDoubleQuote
        | Token::RawByteSingleQuote
        | Token::RawByteDoubleQuote
        | Token::Reserved
        | Token::RawDecInt
        | Token::RawHexInt
        | Token::RawBinInt
        | Token::RawOctInt => 0,
    }))
}

/// The number of a keyword or symbol: that in its row.
#[tactic(auto, unfolding(crate::specs::Kinds::terminal_number))]
#[inline(always)]
fn number_of_terminal(terminal: Terminal) -> u16
    ensures { result ≡ terminal_number terminal }
{
    terminals!(match_terminals!(terminal, Terminal, number_of, {}))
}

/// The number of a plain lexeme's kind.
#[tactic(auto, unfolding(crate::specs::Kinds::token_number))]
#[inline(always)]
pub fn number_of_plain(kind: Kind) -> u16
    requires { is_plain kind ≡ true }
    ensures { (value : Text) → result ≡ token_number (token_of kind value) }
{
    match kind {
        Kind::Comment => 1,
        Kind::Indent => 2,
        Kind::Dedent => 3,
        Kind::Newline => 4,
        Kind::Identifier => 5,
        Kind::String => 8,
        Kind::FStringText => 11,
        Kind::FStringExprStart => 12,
        Kind::FStringExprEnd => 13,
        Kind::FStringEnd => 15,
        Kind::Word(terminal) => number_of_terminal(terminal),
        _ => unreachable!(),
    }
}

/// The name of the kind with a number; empty where no kind has it.
#[tactic(auto, unfolding(crate::specs::Kinds::kind_name))]
pub fn name_of_kind(kind: u32) -> &'static str
    ensures { result.now ≡ kind_name kind }
{
    terminals!(name_by_number!(kind, {
        1 => "Comment",
        2 => "Indent",
        3 => "Dedent",
        4 => "Newline",
        5 => "Identifier",
        6 => "Int",
        7 => "Float",
        8 => "String",
        9 => "Bytes",
        10 => "FStringStart",
        11 => "FStringText",
        12 => "FStringExprStart",
        13 => "FStringExprEnd",
        14 => "FStringBang",
        15 => "FStringEnd",
    }))
}
