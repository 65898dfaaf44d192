//! Numbers as tokens.

ghost use Rattle.std.specs.Prelude.{◌≡◌, Some, true, IfOk};
ghost use Rattle.starlark_words.specs.Inner.ScannedWords.{is_number};
ghost use Rattle.starlark_reader.specs.Inner.StepViews.{number_of};
ghost use Rattle.starlark_grammar.specs.Words.{class_in, language};
ghost use Rattle.starlark_token.specs.TokenViews.{Whole, token_view};

use starlark_token::number_text;
use starlark_token::tokens::Token;
use starlark_words::scanner::Class;
use std::alloc::{AllocError, Global};

/// The token of a number, by its class.
#[inline(always)]
pub(crate) fn number_token(alloc: Global, class: Class, word: &str) -> Result<Token, AllocError>
    requires number { is_number class ≡ true }
    requires known { class_in language word.now ≡ Some class }
    ensures { IfOk result (λ token. token_view token ≡ Whole (number_of class word.now)) }
{
    let (digits, base) = match class {
        Class::Decimal => (word, 10),
        Class::Hexadecimal => (&word[2..], 16),
        Class::Octal => (&word[2..], 8),
        Class::Binary => (&word[2..], 2),
        _ => return Ok(Token::Float(String::from_str(alloc, word)?)),
    };
    Ok(Token::Int(number_text::number_of(alloc, digits, base)?))
}
