//! Keywords and symbols as tokens.

ghost use Rattle.std.specs.Prelude.{◌≡◌};
ghost use Rattle.starlark_token.specs.TokenViews.{Whole, token_view};
ghost use Rattle.starlark_grammar.specs.Tokens.{Word};

use starlark_grammar::{match_terminals, terminals};
use starlark_token::tokens::Token;
use starlark_words::scanner::Terminal;

/// The token of a keyword or symbol.
macro_rules! token_of {
    ($sort:literal $name:ident $text:literal $number:literal) => { Token::$name };
}

/// The token of a keyword or symbol by itself, whatever the lexer mode.
#[tactic(auto, unfolding(starlark_token::specs::TokenViews::token_view))]
#[inline(always)]
pub fn own_token(terminal: Terminal) -> Token
    ensures { token_view result ≡ Whole (Word terminal) }
{
    terminals!(match_terminals!(terminal, Terminal, token_of, {}))
}
