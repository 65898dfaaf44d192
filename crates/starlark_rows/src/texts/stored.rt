//! The format of stored texts: a list of records.
//!
//! A record is a line, the text, and an LF. The line has the length of the text in bytes, and
//! perhaps a space and a task: `fronts`, or `times` and a number, or `edit` and two offsets, or
//! `edited`, with spaces between them.

use crate::stored_parts::{first_bytes, first_line};

/// The task of a record.
#[derive(Clone, Copy)]
pub enum Task {
    /// Lex the text, and print the output.
    Lines,
    /// Lex and check each front of the text, the text itself too, and print counts of them.
    Fronts,
    /// Repeat the text the given number of times, lex and check that, and print counts of it.
    Repeated(u32),
    /// The text is an edit of the next edited text: it replaces the bytes from `from` to `to`.
    Edit { from: usize, to: usize },
    /// Lex the text after the edits before it, one after another, and print the output.
    Edited,
}

/// A text, and the task for it.
#[derive(Clone, Copy)]
pub struct Record<'b> {
    /// What is done with the text.
    pub task: Task,
    /// The text, which needn't be UTF-8.
    pub text: &'b [u8],
}

/// The number of a word; `None` if there is no word, or it is no number.
fn number(word: Option<&str>) -> Option<usize> {
    word?.parse().ok()
}

/// The task of a name and up to two numbers; `None` if it is no task.
fn task_of(name: Option<&str>, first: Option<usize>, second: Option<usize>) -> Option<Task> {
    match name {
        None => Some(Task::Lines),
        Some("fronts") => Some(Task::Fronts),
        Some("times") => Some(Task::Repeated(u32::try_from(first?).ok()?)),
        Some("edit") => Some(Task::Edit {
            from: first?,
            to: second?,
        }),
        Some("edited") => Some(Task::Edited),
        Some(_) => None,
    }
}

/// The length of a text and its task, by a record's first line; `None` if it is none.
fn header(line: &str) -> Option<(usize, Task)> {
    let mut words = line.split(' ');
    let len = number(words.next())?;
    let name = words.next();
    let first = number(words.next());
    let task = task_of(name, first, number(words.next()))?;
    Some((len, task))
}

/// The first record, and the rest after it; `None` if no record begins there.
pub fn first_record(stored: &[u8]) -> Option<(Record<'_>, &[u8])> {
    let (line, after) = first_line(stored)?;
    let (len, task) = header(line)?;
    let (text, after) = first_bytes(after, len)?;
    Some((Record { task, text }, after))
}
