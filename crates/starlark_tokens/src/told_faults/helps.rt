//! What to do about each fault, and about what a check finds, in a line.

ghost use Rattle.std.specs.Prelude.{◌≡◌};
ghost use Rattle.starlark_tokens.specs.ToldFaults.FaultHelps.{check_help, input_help, is_any_character, is_character};
ghost use Rattle.starlark_tokens.specs.Inner.ShownKinds.{help_of_error, help_of_kind};

use crate::command_line::command_words::is_same;
use starlark_checks::check::Check;
use starlark_syntax::error::{ErrorKind, ParserMessage};
use starlark_syntax::lexer::LexemeError;

/// Whether a text is a character.
fn is_character(text: &str, character: char) -> bool
    ensures { result ≡ is_character text.now character }
{
    let mut bytes = [0; 4];
    is_same(text.as_bytes(), character.encode_utf8(&mut bytes))
}

/// Whether a text is one of some characters.
fn is_any_character(text: &str, characters: &[char]) -> bool
    ensures { result ≡ is_any_character characters.now text.now }
{
    for character in characters {
        if is_character(text, *character) {
            return true;
        }
    }
    false
}

/// What to do about a text that begins no token.
#[tactic(auto, unfolding(crate::specs::ToldFaults::FaultHelps::input_help))]
pub fn help_of_input(text: &str) -> &'static str
    ensures { result.now ≡ input_help text.now }
{
    if is_any_character(text, &['\u{201c}', '\u{201d}', '\u{201e}']) {
        "write \" in place of a typographic quote"
    } else if is_any_character(text, &['\u{2018}', '\u{2019}', '\u{201a}']) {
        "write ' in place of a typographic quote"
    } else if is_any_character(text, &['\u{2013}', '\u{2014}', '\u{2212}']) {
        "write - in place of a dash"
    } else if is_character(text, '\u{a0}') {
        "write a space: this is U+00A0 NO-BREAK SPACE"
    } else if is_character(text, '\u{feff}') {
        "remove it: this is U+FEFF BYTE ORDER MARK"
    } else if is_character(text, '`') {
        "write quotes: Starlark has no backticks"
    } else {
        "remove it: only strings and comments may have it"
    }
}

/// What to do about an error of the lexer; empty for one that is no fault of a text.
#[tactic(auto, unfolding(crate::specs::ToldFaults::FaultHelps::fault_help))]
fn help_of_error(error: &LexemeError) -> &'static str
    ensures { result.now ≡ help_of_error error.now }
{
    match error {
        LexemeError::Indentation => "indent the line as the block that it belongs to",
        LexemeError::InvalidInput(text) => help_of_input(text.as_str()),
        LexemeError::InvalidTab => "write spaces",
        LexemeError::UnfinishedStringLiteral => "close the quotes, or use three for several lines",
        LexemeError::InvalidEscapeSequence(_) => "write two backslashes, or r before the quotes",
        LexemeError::EmptyEscapeSequence => "write two backslashes, and close the quotes",
        LexemeError::ReservedKeyword(_) => "choose another name",
        LexemeError::StartsZero(_) => {
            "write 0o in front of an octal number, or leave the zeros out"
        }
        LexemeError::UnfinishedFStringExpression => {
            "close the expression with `}`, or write `{{` for a brace that is text"
        }
        LexemeError::IntParse(_) => "",
        LexemeError::CommentSpanComputedIncorrectly => "",
        LexemeError::CannotParse(_, _) => "",
    }
}

/// What to do about a fault; empty for an error that is none.
pub fn help_of(kind: &ErrorKind) -> &'static str
    ensures { result.now ≡ help_of_kind kind.now }
{
    match kind {
        ErrorKind::Parser(ParserMessage::Lexeme(error)) => help_of_error(error),
        _ => "",
    }
}

/// What to do about what a check finds.
#[tactic(auto, unfolding(crate::specs::ToldFaults::FaultHelps::check_help))]
pub fn help_of_check(check: Check) -> &'static str
    ensures { result.now ≡ check_help check }
{
    match check {
        Check::NeverClosed => "close it, or remove it",
        Check::ClosesNothing => "remove it, or open one before it",
        Check::ClosesAnother => "close the open bracket by one of its kind",
        Check::NumberBeforeWord => "write a space after the number, or mend it",
        Check::MergeMarker => "keep one side of the merge, and remove its marker lines",
        Check::FStringLineEnd => "close the expression on its line, or use three quotes",
    }
}
