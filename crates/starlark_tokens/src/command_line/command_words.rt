//! The words of a command line: those before the first `--`, and those after it.

ghost use Rattle.std.specs.Option.{option_map};
ghost use Rattle.std.specs.Prelude.{◌≡◌, ◌≤◌, ◌+◌, ◌∷◌, ◌++◌, List, [], IfOk, OnOk, drop, length, map, take};
ghost use Rattle.starlark_base.specs.Places.{Text};
ghost use Rattle.starlark_tokens.specs.CommandLine.CommandWords as spec;

use std::alloc::{AllocError, Global};

/// The words before the first `--`, each option with its value in one word, and those after it.
#[derive(Drop)]
pub struct Words {
    pub leading: Vec<Vec<u8>>,
    pub trailing: Vec<Vec<u8>>,
}

/// Whether a word is a text.
pub fn is_same(word: &[u8], text: &str) -> bool
    ensures { result ≡ spec.is_same word.now text.now }
{
    word == text.as_bytes()
}

/// Whether a word begins with a text.
pub fn begins_with(word: &[u8], text: &str) -> bool
    ensures { result ≡ spec.begins_with text.now word.now }
{
    word.starts_with(text.as_bytes())
}

/// Whether a word is one of some texts.
pub fn is_any(word: &[u8], texts: &[&str]) -> bool
    ensures { result ≡ spec.is_any (map (λ text. text.now) texts.now) word.now }
{
    for text in texts {
        if is_same(word, text) {
            return true;
        }
    }
    false
}

/// Whether a word is an option that has a value, without it.
pub fn takes_value(word: &[u8]) -> bool
    ensures { result ≡ spec.takes_value word.now }
{
    is_any(
        word,
        &[
            "--format",
            "--exclude",
            "--include",
            "--files-from",
            "--stdin-filename",
            "--explain",
            "--max-faults",
            "--color",
            "--columns",
            "--select",
            "--ignore",
            "--names",
        ],
    )
}

/// Number of arguments before the first `--`.
fn leading_count(arguments: &[Vec<u8>]) -> usize
    ensures within { result ≤ length arguments.now }
    ensures value { result ≡ spec.leading_count (map (λ word. word.items) arguments.now) }
{
    for (index, word) in arguments.iter().enumerate() {
        if is_same(word.as_slice(), "--") {
            return index;
        }
    }
    arguments.len()
}

/// A word that is a copy of another one.
fn copied(alloc: Global, word: &[u8]) -> Result<Vec<u8>, AllocError>
    ensures { IfOk result (λ copy. copy.items ≡ word.now) }
{
    Vec::from_slice(alloc, word)
}

/// An option with its value, in one word.
fn with_value(alloc: Global, option: &[u8], value: &[u8]) -> Result<Vec<u8>, AllocError>
    ensures { IfOk result (λ word. word.items ≡ spec.with_value option.now value.now) }
{
    let mut word = copied(alloc, option)?;
    word.push(b'=')?;
    word.extend_from_slice(value)?;
    Ok(word)
}

/// Takes the next word: as the value of the pending option, as an option that is pending then, or as
/// it is. Returns the option that is pending.
#[tactic(auto, unfolding(crate::specs::CommandLine::CommandWords::joined_after))]
fn take_word<'a>(
    alloc: Global,
    words: &mut Vec<Vec<u8>>,
    waiting: Option<&'a [u8]>,
    word: &'a [u8],
) -> Result<Option<&'a [u8]>, AllocError>
    ensures { IfOk result (λ then. (rest : List Text)
        → map (λ word. word.items) words.new.items ++ spec.joined_after (option_map (λ option. option.now) then) rest
        ≡ map (λ word. word.items) words.old.items ++ spec.joined_after (option_map (λ option. option.now) waiting.entry) (word.now ∷ rest)) }
{
    if let Some(option) = waiting {
        words.push(with_value(alloc, option, word)?)?;
        return Ok(None);
    }
    if takes_value(word) {
        return Ok(Some(word));
    }
    words.push(copied(alloc, word)?)?;
    Ok(None)
}

/// Takes an option that is pending at the end.
#[tactic(auto, unfolding(crate::specs::CommandLine::CommandWords::joined_after))]
fn take_waiting(
    alloc: Global,
    words: &mut Vec<Vec<u8>>,
    waiting: Option<&[u8]>,
) -> Result<(), AllocError>
    ensures { OnOk result (map (λ word. word.items) words.new.items
        ≡ map (λ word. word.items) words.old.items ++ spec.joined_after (option_map (λ option. option.now) waiting.entry) []) }
{
    if let Some(option) = waiting {
        words.push(copied(alloc, option)?)?;
    }
    Ok(())
}

/// Words, each option with its value in one word.
fn joined(alloc: Global, arguments: &[Vec<u8>]) -> Result<Vec<Vec<u8>>, AllocError>
    ensures { IfOk result (λ words. map (λ word. word.items) words.items ≡ spec.joined (map (λ word. word.items) arguments.now)) }
{
    let mut words = Vec::new(alloc);
    let mut waiting: Option<&[u8]> = None;
    for word in arguments {
        waiting = take_word(alloc, &mut words, waiting, word.as_slice())?;
    }
    take_waiting(alloc, &mut words, waiting)?;
    Ok(words)
}

/// Copies of words.
fn all_copied(alloc: Global, arguments: &[Vec<u8>]) -> Result<Vec<Vec<u8>>, AllocError>
    ensures { IfOk result (λ words. map (λ word. word.items) words.items ≡ map (λ word. word.items) arguments.now) }
{
    let mut words = Vec::new(alloc);
    for word in arguments {
        words.push(copied(alloc, word.as_slice())?)?;
    }
    Ok(words)
}

/// The words among the first `count` arguments.
fn leading_of(
    alloc: Global,
    arguments: &[Vec<u8>],
    count: usize,
) -> Result<Vec<Vec<u8>>, AllocError>
    requires { count ≤ length arguments.now }
    ensures { IfOk result (λ words. map (λ word. word.items) words.items ≡ spec.joined (take count (map (λ word. word.items) arguments.now))) }
{
    joined(alloc, &arguments[..count])
}

/// The words after the first `count` arguments and the next one.
fn trailing_of(
    alloc: Global,
    arguments: &[Vec<u8>],
    count: usize,
) -> Result<Vec<Vec<u8>>, AllocError>
    requires { count ≤ length arguments.now }
    ensures { IfOk result (λ words. map (λ word. word.items) words.items ≡ drop (count + 1) (map (λ word. word.items) arguments.now)) }
{
    if count >= arguments.len() {
        return Ok(Vec::new(alloc));
    }
    all_copied(alloc, &arguments[count + 1..])
}

/// The words of a command line.
pub fn words_of(alloc: Global, arguments: &[Vec<u8>]) -> Result<Words, AllocError>
    ensures { IfOk result (spec.AreWordsOf (map (λ word. word.items) arguments.now)) }
{
    let count = leading_count(arguments);
    Ok(Words {
        leading: leading_of(alloc, arguments, count)?,
        trailing: trailing_of(alloc, arguments, count)?,
    })
}
