//! Commands on documents.

use crate::stored_parts::{first_line, first_text};

/// A command.
#[derive(Clone, Copy)]
pub enum Command<'a> {
    /// A document of a text, whose segments have at least this many bytes.
    New(usize, &'a str),
    /// Replaces a range by a text.
    Edit(usize, usize, &'a str),
    /// Makes one edit twice, by one call.
    Twice(usize, usize, &'a str),
    /// Prints all lexemes and faults.
    Show,
    /// Prints the lexemes from one offset on.
    From(usize),
    /// Prints the number of lines.
    Lines,
    /// Prints the place of an offset.
    Place(usize),
    /// Prints the offset of a line and a column in units of UTF-16.
    Offset(usize, usize),
    /// Prints a range of the text.
    Slice(usize, usize),
}

/// Two numbers with a space between them.
fn two_numbers(numbers: &str) -> Option<(usize, usize)> {
    let (first, second) = numbers.split_once(' ')?;
    Some((first.parse().ok()?, second.parse().ok()?))
}

/// The command `new` with its numbers, and what follows its text.
fn new_command<'a>(numbers: &str, after: &'a [u8]) -> Option<(Command<'a>, &'a [u8])> {
    let (least, len) = two_numbers(numbers)?;
    let (text, after) = first_text(after, len)?;
    Some((Command::New(least, text), after))
}

/// The command `edit` or `twice` with its numbers, and what follows its text.
fn edit_command<'a>(name: &str, numbers: &str, after: &'a [u8]) -> Option<(Command<'a>, &'a [u8])> {
    let (from, numbers) = numbers.split_once(' ')?;
    let from = from.parse().ok()?;
    let (to, len) = two_numbers(numbers)?;
    let (text, after) = first_text(after, len)?;
    let command = match name {
        "edit" => Command::Edit(from, to, text),
        _ => Command::Twice(from, to, text),
    };
    Some((command, after))
}

/// A command of two numbers and no text.
fn pair_command<'a>(name: &str, numbers: &str) -> Option<Command<'a>> {
    let (first, second) = two_numbers(numbers)?;
    match name {
        "offset" => Some(Command::Offset(first, second)),
        "slice" => Some(Command::Slice(first, second)),
        _ => None,
    }
}

/// A command without a text.
fn short_command<'a>(name: &str, numbers: &str) -> Option<Command<'a>> {
    match name {
        "show" => Some(Command::Show),
        "lines" => Some(Command::Lines),
        "from" => Some(Command::From(numbers.parse().ok()?)),
        "place" => Some(Command::Place(numbers.parse().ok()?)),
        _ => pair_command(name, numbers),
    }
}

/// The command at the front of bytes, and what follows it; `None` if there is none.
pub fn read_command(stored: &[u8]) -> Option<(Command<'_>, &[u8])> {
    let (line, after) = first_line(stored)?;
    let (name, numbers) = line.split_once(' ').unwrap_or((line, ""));
    match name {
        "new" => new_command(numbers, after),
        "edit" | "twice" => edit_command(name, numbers, after),
        _ => Some((short_command(name, numbers)?, after)),
    }
}
