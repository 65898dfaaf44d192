//! What tokens are to the checks.

ghost use Rattle.std.specs.Prelude.{◌≡◌};
ghost use Rattle.starlark_checks.specs.TokenRoles.{role_of};
ghost use Rattle.starlark_token.specs.TokenViews.{fstring_quote_view, token_view};

use starlark_token::fstring_style::FStringQuote;
use starlark_token::tokens::Token;

/// The shape of a bracket.
#[derive(Clone, Copy, Debug, PartialEq, Eq)]
pub enum Shape {
    Round,
    Square,
    Curly,
}

/// What a token is to the checks.
#[derive(Clone, Copy)]
pub enum Role {
    /// An opening bracket.
    Opening(Shape),
    /// A closing bracket, or the `}` after an expression of an f-string.
    Closing(Shape),
    /// The opening of an f-string: whether it has three quotes.
    FStringStart(bool),
    /// The `{` before an expression of an f-string.
    ExpressionStart,
    /// The closing quotes of an f-string.
    FStringEnd,
    /// An integer or a float.
    Number,
    /// A name or a keyword.
    Word,
    /// An operator that a merge marker of this byte begins with.
    MarkerStart(u8),
    /// Any other token.
    Other,
}

/// Whether an f-string has three quotes.
fn is_triple(quote: FStringQuote) -> bool
    ensures { result ≡ (fstring_quote_view quote).is_triple }
{
    matches!(
        quote,
        FStringQuote::TripleSingle | FStringQuote::TripleDouble
    )
}

/// The role of a token.
#[tactic(auto, unfolding(starlark_token::specs::TokenViews::token_view))]
pub(crate) fn role_of(token: &Token) -> Role
    ensures { result ≡ role_of (token_view token.now) }
{
    match token {
        Token::OpeningRound => Role::Opening(Shape::Round),
        Token::OpeningSquare => Role::Opening(Shape::Square),
        Token::OpeningCurly => Role::Opening(Shape::Curly),
        Token::ClosingRound => Role::Closing(Shape::Round),
        Token::ClosingSquare => Role::Closing(Shape::Square),
        Token::ClosingCurly | Token::FStringExprEnd => Role::Closing(Shape::Curly),
        Token::FStringStart(quote) => Role::FStringStart(is_triple(*quote)),
        Token::FStringExprStart => Role::ExpressionStart,
        Token::FStringEnd => Role::FStringEnd,
        Token::Int(_) | Token::Float(_) => Role::Number,
        Token::LessLess => Role::MarkerStart(b'<'),
        Token::EqualEqual => Role::MarkerStart(b'='),
        Token::GreaterGreater => Role::MarkerStart(b'>'),
        Token::Identifier(_)
        | Token::And
        | Token::Break
        | Token::Continue
        | Token::Def
        | Token::Elif
        | Token::Else
        | Token::For
        | Token::If
        | Token::In
        | Token::Lambda
        | Token::Load
        | Token::Not
        | Token::Or
        | Token::Pass
        | Token::Return => Role::Word,
        _ => Role::Other,
    }
}
