//! What the arguments of `starlark_tokens` ask for.

ghost use Rattle.std.specs.Prelude.{◌≡◌, ◌≤◌, ◌==◌, IfOk, length, map};
ghost use Rattle.std.specs.Char.{is_ascii_digit};
ghost use Rattle.std.specs.List.{list_all, list_any};
ghost use Rattle.std.specs.Option.{option_map};
ghost use Rattle.starlark_tokens.specs.CommandLine.Requests as spec;
ghost use Rattle.starlark_tokens.specs.CommandLine.Requests.{Asks, IsFilterOf, Wants};

use crate::command_line::command_words::{Words, begins_with, is_any, is_same};
use crate::output_formats::form::Columns;
use crate::told_faults::filters::{Filter, listed};
use std::alloc::{AllocError, Global};

/// What the option with a number of faults begins with.
const MAX_FAULTS: &str = "--max-faults=";

/// What the arguments ask for.
#[derive(Drop)]
pub enum Request<'a> {
    /// An option that the program doesn't have.
    Unknown(&'a [u8]),
    /// How the program is used.
    Help,
    /// The program's version.
    Version,
    /// What a fault's code means.
    Explain(&'a [u8]),
    /// Reports of files.
    Reports(Reports<'a>),
}

/// In which format faults are reported.
#[derive(Clone, Copy)]
pub enum Format {
    /// Lines for people.
    Text,
    /// Objects of JSON, one a line.
    Json,
    /// Annotations of GitHub.
    Github,
    /// One document of SARIF.
    Sarif,
}

/// When lines for people have colours.
#[derive(Clone, Copy)]
pub enum Colour {
    /// Where the output is a terminal that shows colours.
    Auto,
    Always,
    Never,
}

/// Which reports are asked for.
#[derive(Drop)]
pub struct Reports<'a> {
    /// Whether faults alone are reported.
    pub check: bool,
    pub format: Format,
    pub colour: Colour,
    /// How columns of faults are counted.
    pub columns: Columns,
    /// Whether no count of faults is printed.
    pub quiet: bool,
    /// Number of faults of a file that are shown, if it is asked for; 0 is all.
    pub max_faults: Option<usize>,
    /// Which faults are told.
    pub filter: Filter,
    /// Globs of files and folders that are left out.
    pub excluded: Vec<&'a [u8]>,
    /// Globs of files that are read besides those that are read anyway.
    pub included: Vec<&'a [u8]>,
    /// Files that have names of files. `-` is standard input.
    pub lists: Vec<&'a [u8]>,
    /// The name of standard input: the first of these.
    pub stdin_names: Vec<&'a [u8]>,
    /// The names of files and folders. `-` is standard input.
    pub names: Vec<&'a [u8]>,
}

/// Whether a word is an option: it begins with `-` and isn't `-` alone.
fn is_option(word: &[u8]) -> bool
    ensures { result ≡ spec.is_option word.now }
{
    begins_with(word, "-") && !is_same(word, "-")
}

/// Whether the program has a long option that has no value.
fn is_flag(word: &[u8]) -> bool
    ensures { result ≡ spec.is_flag word.now }
{
    is_any(
        word,
        &["--check", "--json", "--quiet", "--version", "--help"],
    )
}

/// Whether a byte is the letter of a short option.
fn is_short_letter(byte: u8) -> bool
    ensures { result ≡ spec.is_short_letter byte }
{
    byte == b'q' || byte == b'V' || byte == b'h'
}

/// Whether all bytes are letters of short options.
fn are_short_letters(letters: &[u8]) -> bool
    ensures { result ≡ list_all spec.is_short_letter letters.now }
{
    for byte in letters {
        if !is_short_letter(*byte) {
            return false;
        }
    }
    true
}

/// Whether a word is a short option, or several in one word: letters after one `-`.
fn is_short(word: &[u8]) -> bool
    ensures { result ≡ spec.is_short word.now }
{
    begins_with(word, "-") && word.len() > 1 && are_short_letters(&word[1..])
}

/// Whether a byte is among others.
fn has_byte(bytes: &[u8], wanted: u8) -> bool
    ensures { result ≡ list_any (λ byte. byte == wanted) bytes.now }
{
    for byte in bytes {
        if *byte == wanted {
            return true;
        }
    }
    false
}

/// Whether the short option of a letter is among words, alone or joined with others.
fn has_short(words: &[Vec<u8>], letter: u8) -> bool
    ensures { result ≡ spec.has_short letter (map (λ word. word.items) words.now) }
{
    for word in words {
        if is_short(word.as_slice()) && has_byte(word.as_slice(), letter) {
            return true;
        }
    }
    false
}

/// Whether a word is a format that the program has.
fn is_format(word: &[u8]) -> bool
    ensures { result ≡ spec.is_format word.now }
{
    is_any(
        word,
        &[
            "--format=text",
            "--format=json",
            "--format=github",
            "--format=sarif",
        ],
    )
}

/// Whether a word says when lines for people have colours.
fn is_colour(word: &[u8]) -> bool
    ensures { result ≡ spec.is_colour word.now }
{
    is_any(word, &["--color=auto", "--color=always", "--color=never"])
}

/// Whether a word says how columns of faults are counted.
fn is_columns(word: &[u8]) -> bool
    ensures { result ≡ spec.is_columns word.now }
{
    is_any(
        word,
        &["--columns=characters", "--columns=bytes", "--columns=utf16"],
    )
}

/// Whether a word is an option with its value that may be any.
fn is_valued(word: &[u8]) -> bool
    ensures { result ≡ spec.is_valued word.now }
{
    begins_with(word, "--exclude=")
        || begins_with(word, "--include=")
        || begins_with(word, "--files-from=")
        || begins_with(word, "--stdin-filename=")
        || begins_with(word, "--explain=")
        || is_filter(word)
}

/// Whether a word is an option that says which faults are told.
fn is_filter(word: &[u8]) -> bool
    ensures { result ≡ spec.is_filter word.now }
{
    begins_with(word, "--select=")
        || begins_with(word, "--ignore=")
        || begins_with(word, "--names=")
}

/// Whether all bytes are decimal digits.
fn are_digits(text: &[u8]) -> bool
    ensures { result ≡ list_all is_ascii_digit text.now }
{
    for byte in text {
        if !byte.is_ascii_digit() {
            return false;
        }
    }
    true
}

/// Whether a text is a number in decimal digits.
fn is_number(text: &[u8]) -> bool
    ensures { result ≡ spec.is_number text.now }
{
    text.len() > 0 && are_digits(text)
}

/// The number that decimal digits write, but at most `usize::MAX`.
fn number(digits: &[u8]) -> usize
    ensures { result ≡ spec.number digits.now }
{
    let mut number: usize = 0;
    for byte in digits {
        number = number
            .saturating_mul(10)
            .saturating_add(usize::from(byte.saturating_sub(b'0')));
    }
    number
}

/// Whether a word is this option, which ends with `=`, with a number.
fn has_number(word: &[u8], option: &str) -> bool
    ensures { result ≡ spec.has_number option.now word.now }
{
    begins_with(word, option) && is_number(&word[option.len()..])
}

/// Whether a word is an option with a number.
fn is_numbered(word: &[u8]) -> bool
    ensures { result ≡ spec.is_numbered word.now }
{
    has_number(word, MAX_FAULTS)
}

/// Number of faults of a file that are shown, if words ask for it; 0 is all.
fn max_faults(words: &[Vec<u8>]) -> Option<usize>
    ensures { result ≡ spec.max_faults (map (λ word. word.items) words.now) }
{
    first_value(words, MAX_FAULTS).map(|digits| number(digits))
}

/// Whether a word is an option with a value that the program has for it.
fn is_chosen(word: &[u8]) -> bool
    ensures { result ≡ spec.is_chosen word.now }
{
    is_format(word) || is_colour(word) || is_columns(word) || is_numbered(word)
}

/// Whether a word is an option that the program doesn't have.
fn is_unknown(word: &[u8]) -> bool
    ensures { result ≡ spec.is_unknown word.now }
{
    is_option(word) && !(is_flag(word) || is_short(word) || is_chosen(word) || is_valued(word))
}

/// Whether an option is among words.
fn has(words: &[Vec<u8>], option: &str) -> bool
    ensures { result ≡ spec.is_among option.now (map (λ word. word.items) words.now) }
{
    for word in words {
        if is_same(word.as_slice(), option) {
            return true;
        }
    }
    false
}

/// The first option that the program doesn't have.
fn first_unknown(words: &[Vec<u8>]) -> Option<&[u8]>
    ensures { option_map (λ word. word.now) result ≡ spec.first_unknown (map (λ word. word.items) words.now) }
{
    for word in words {
        if is_unknown(word.as_slice()) {
            return Some(word.as_slice());
        }
    }
    None
}

/// The first value of an option, which ends with `=`.
fn first_value<'a>(words: &'a [Vec<u8>], option: &str) -> Option<&'a [u8]>
    ensures { option_map (λ value. value.now) result ≡ spec.first_value option.now (map (λ word. word.items) words.now) }
{
    for word in words {
        let word = word.as_slice();
        if begins_with(word, option) {
            return Some(&word[option.len()..]);
        }
    }
    None
}

/// The values of an option, which ends with `=`, in order.
fn values<'a>(
    alloc: Global,
    words: &'a [Vec<u8>],
    option: &str,
) -> Result<Vec<&'a [u8]>, AllocError>
    ensures { IfOk result (λ values. map (λ value. value.now) values.items ≡ spec.values option.now (map (λ word. word.items) words.now)) }
{
    let mut values = Vec::new(alloc);
    for word in words {
        let word = word.as_slice();
        if begins_with(word, option) {
            values.push(&word[option.len()..])?;
        }
    }
    Ok(values)
}

/// The names among words: those before the first `--` that aren't options, and those after it.
fn names_of<'a>(alloc: Global, words: &'a Words) -> Result<Vec<&'a [u8]>, AllocError>
    ensures { IfOk result (λ names. map (λ name. name.now) names.items ≡ spec.names words.now) }
{
    let mut names = Vec::new(alloc);
    for word in &words.leading {
        if !is_option(word.as_slice()) {
            names.push(word.as_slice())?;
        }
    }
    for name in &words.trailing {
        names.push(name.as_slice())?;
    }
    Ok(names)
}

/// The format that words ask for.
fn format_of(words: &[Vec<u8>]) -> Format
    ensures { result ≡ spec.format_of (map (λ word. word.items) words.now) }
{
    if has(words, "--format=sarif") {
        Format::Sarif
    } else if has(words, "--format=github") {
        Format::Github
    } else if has(words, "--format=json") || has(words, "--json") {
        Format::Json
    } else {
        Format::Text
    }
}

/// When lines for people have colours, by words.
fn colour_of(words: &[Vec<u8>]) -> Colour
    ensures { result ≡ spec.colour_of (map (λ word. word.items) words.now) }
{
    if has(words, "--color=never") {
        Colour::Never
    } else if has(words, "--color=always") {
        Colour::Always
    } else {
        Colour::Auto
    }
}

/// How columns of faults are counted, by words.
fn columns_of(words: &[Vec<u8>]) -> Columns
    ensures { result ≡ spec.columns_of (map (λ word. word.items) words.now) }
{
    if has(words, "--columns=bytes") {
        Columns::Bytes
    } else if has(words, "--columns=utf16") {
        Columns::Utf16
    } else {
        Columns::Characters
    }
}

/// Whether words ask for no count of faults.
fn is_quiet(words: &[Vec<u8>]) -> bool
    ensures { result ≡ spec.is_quiet (map (λ word. word.items) words.now) }
{
    has(words, "--quiet") || has_short(words, b'q')
}

/// Whether words ask for help.
fn asks_help(words: &[Vec<u8>]) -> bool
    ensures { result ≡ spec.asks_help (map (λ word. word.items) words.now) }
{
    has(words, "--help") || has_short(words, b'h')
}

/// Whether words ask for the version.
fn asks_version(words: &[Vec<u8>]) -> bool
    ensures { result ≡ spec.asks_version (map (λ word. word.items) words.now) }
{
    has(words, "--version") || has_short(words, b'V')
}

/// What the values of an option list, which ends with `=`.
fn listed_by(alloc: Global, words: &[Vec<u8>], option: &str) -> Result<Vec<Vec<u8>>, AllocError>
    ensures { IfOk result (λ listed. map (λ word. word.items) listed.items ≡ spec.listed_by option.now (map (λ word. word.items) words.now)) }
{
    let values = values(alloc, words, option)?;
    listed(alloc, values.as_slice())
}

/// Which faults are told, by words.
fn filter_of(alloc: Global, words: &[Vec<u8>]) -> Result<Filter, AllocError>
    ensures { IfOk result (IsFilterOf (map (λ word. word.items) words.now)) }
{
    Ok(Filter {
        selected: listed_by(alloc, words, "--select=")?,
        ignored: listed_by(alloc, words, "--ignore=")?,
        names: listed_by(alloc, words, "--names=")?,
    })
}

/// Which reports words ask for.
fn wanted<'a>(alloc: Global, words: &'a Words) -> Result<Reports<'a>, AllocError>
    ensures { IfOk result (Wants words.now) }
{
    let leading = words.leading.as_slice();
    Ok(Reports {
        check: has(leading, "--check"),
        format: format_of(leading),
        colour: colour_of(leading),
        columns: columns_of(leading),
        quiet: is_quiet(leading),
        max_faults: max_faults(leading),
        filter: filter_of(alloc, leading)?,
        excluded: values(alloc, leading, "--exclude=")?,
        included: values(alloc, leading, "--include=")?,
        lists: values(alloc, leading, "--files-from=")?,
        stdin_names: values(alloc, leading, "--stdin-filename=")?,
        names: names_of(alloc, words)?,
    })
}

/// What the words of a command line ask for.
///
/// An unknown option comes before all else, then `--help`, `--version` and `--explain`.
pub fn asked<'a>(alloc: Global, words: &'a Words) -> Result<Request<'a>, AllocError>
    ensures { IfOk result (Asks words.now) }
{
    let leading = words.leading.as_slice();
    if let Some(option) = first_unknown(leading) {
        return Ok(Request::Unknown(option));
    }
    if asks_help(leading) {
        return Ok(Request::Help);
    }
    if asks_version(leading) {
        return Ok(Request::Version);
    }
    if let Some(code) = first_value(leading, "--explain=") {
        return Ok(Request::Explain(code));
    }
    let reports = wanted(alloc, words)?;
    Ok(Request::Reports(reports))
}
