//! Which faults are told: those whose codes are asked for and not left out, but for reserved words that
//! a dialect takes as names.

ghost use Rattle.std.specs.List.{flat_map};
ghost use Rattle.std.specs.Prelude.{◌≡◌, IfOk, map};
ghost use Rattle.starlark_tokens.specs.ToldFaults.Filters as spec;
ghost use Rattle.starlark_tokens.specs.Inner.ShownKinds as kinds;
ghost use Rattle.starlark_tokens.specs.Files.NameLists as names;

use crate::files::name_lists::names_between;
use starlark_syntax::error::{ErrorKind, ParserMessage};
use starlark_syntax::lexer::LexemeError;
use std::alloc::{AllocError, Global};

/// Which faults are told.
#[derive(Drop)]
pub struct Filter {
    /// What the codes begin with that are told; all are told where there is none.
    pub selected: Vec<Vec<u8>>,
    /// What the codes begin with that are left out.
    pub ignored: Vec<Vec<u8>>,
    /// Reserved words that are names.
    pub names: Vec<Vec<u8>>,
}

/// Whether a code begins with one of some texts.
pub fn begins_with_any(code: &str, fronts: &[Vec<u8>]) -> bool
    ensures { result ≡ spec.begins_with_any (map (λ front. front.items) fronts.now) code.now }
{
    for front in fronts {
        if code.as_bytes().starts_with(front.as_slice()) {
            return true;
        }
    }
    false
}

/// Whether a word is one of some texts.
fn is_one_of(word: &str, texts: &[Vec<u8>]) -> bool
    ensures { result ≡ spec.is_one_of (map (λ text. text.items) texts.now) word.now }
{
    for text in texts {
        if word.as_bytes() == text.as_slice() {
            return true;
        }
    }
    false
}

/// What the values of an option list, separated by commas.
pub fn listed(alloc: Global, values: &[&[u8]]) -> Result<Vec<Vec<u8>>, AllocError>
    ensures { IfOk result (λ words. map (λ word. word.items) words.items ≡ flat_map (names.names_between 44) (map (λ value. value.now) values.now)) }
{
    let mut words = Vec::new(alloc);
    for value in values {
        let mut listed = names_between(alloc, value, b',')?;
        words.append(&mut listed)?;
    }
    Ok(words)
}

impl Filter {
    /// Whether faults of a code are told.
    pub fn tells(&self, code: &str) -> bool
        ensures { result ≡ spec.tells self.now code.now }
    {
        (self.selected.is_empty() || begins_with_any(code, self.selected.as_slice()))
            && !begins_with_any(code, self.ignored.as_slice())
    }

    /// Whether a reserved word is a name.
    pub fn is_name(&self, word: &str) -> bool
        ensures { result ≡ spec.is_name self.now word.now }
    {
        is_one_of(word, self.names.as_slice())
    }

    /// Whether an error of the lexer is of a reserved word that is a name.
    fn is_error_of_name(&self, error: &LexemeError) -> bool
        ensures { result ≡ kinds.is_error_of_name self.now error.now }
    {
        match error {
            LexemeError::ReservedKeyword(word) => self.is_name(word.as_str()),
            _ => false,
        }
    }

    /// Whether the fault of an error of the lexer is told.
    fn tells_error(&self, error: &LexemeError) -> bool
        ensures { result ≡ kinds.tells_error self.now error.now }
    {
        self.tells(error.code().unwrap_or("")) && !self.is_error_of_name(error)
    }

    /// Whether the fault of an error is told.
    pub fn tells_kind(&self, kind: &ErrorKind) -> bool
        ensures { result ≡ kinds.tells_kind self.now kind.now }
    {
        match kind {
            ErrorKind::Parser(ParserMessage::Lexeme(error)) => self.tells_error(error),
            _ => true,
        }
    }
}
