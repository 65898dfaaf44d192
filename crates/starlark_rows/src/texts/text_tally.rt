//! Counts of many texts, each of which is lexed and checked.

use crate::printed_items::file_of;
use crate::texts::checks::{lexed_in, wrong_with_lexed};
use starlark_run::{Watched, run};
use starlark_syntax::lexer::LexedText;
use std::alloc::{AllocError, Global};
use std::fmt;

/// Number of texts, of their lexemes and of their faults, and a checksum of their output.
///
/// `wrong` is what is wrong with the first text in which a check finds something wrong, and that
/// text's length in bytes. Printed as the three numbers.
#[derive(Clone, Copy)]
pub struct Tally {
    texts: u64,
    lexemes: u64,
    faults: u64,
    sum: u64,
    wrong: Option<(usize, &'static str)>,
}

/// The checksum of an output, which goes on from `sum`.
fn sum_on(sum: u64, printed: &[u8]) -> u64 {
    let mut sum = sum;
    for &byte in printed {
        sum = sum.wrapping_mul(31).wrapping_add(u64::from(byte));
    }
    sum
}

impl Tally {
    /// No texts.
    const NONE: Tally = Tally {
        texts: 0,
        lexemes: 0,
        faults: 0,
        sum: 0,
        wrong: None,
    };

    /// The checksum of all output.
    pub fn sum(&self) -> u64 {
        self.sum
    }

    /// What a check found wrong first, after the length in bytes of the text.
    pub fn wrong(&self) -> Option<(usize, &'static str)> {
        self.wrong
    }

    /// Adds a lexed text and the output for it.
    fn add(&mut self, lexed: &LexedText<'_>, printed: &[u8]) {
        self.texts = self.texts.wrapping_add(1);
        self.lexemes = self.lexemes.wrapping_add(lexed.lexemes().len() as u64);
        self.faults = self.faults.wrapping_add(u64::from(lexed.fault().is_some()));
        self.sum = sum_on(self.sum, printed);
    }

    /// Runs the lexer over a text, checks its output and its lexemes, and adds it.
    fn add_text(&mut self, alloc: Global, text: &str) -> Result<(), AllocError> {
        let mut reader = Watched::new(text.as_bytes());
        let mut writer = Watched::new(Vec::new(alloc));
        let _ = run(alloc, "<stdin>", &mut reader, &mut writer);
        self.add_printed(alloc, text, writer.device().as_slice())
    }

    /// Checks the output for a text and the text's lexemes, and adds it.
    fn add_printed(&mut self, alloc: Global, text: &str, printed: &[u8]) -> Result<(), AllocError> {
        let file = file_of(alloc, text)?;
        let lexed = lexed_in(alloc, text, &file)?;
        self.add(&lexed, printed);
        if let Some(wrong) = wrong_with_lexed(alloc, &lexed, &file, printed)? {
            self.wrong = self.wrong.or(Some((text.len(), wrong)));
        }
        Ok(())
    }
}

/// Prints the numbers of texts, lexemes and faults, as in `3 texts, 12 lexemes, 1 faults`.
impl fmt::Display for Tally {
    fn fmt<W: fmt::Write>(&self, f: &mut fmt::Formatter<W>) -> fmt::Result {
        write!(f, "{} texts, {} lexemes, ", self.texts, self.lexemes)?;
        write!(f, "{} faults", self.faults)
    }
}

/// Counts of all fronts of a text that end at character boundaries, of the whole text too.
///
/// Bytes that aren't UTF-8 count as an empty text.
pub fn of_fronts(alloc: Global, text: &[u8]) -> Result<Tally, AllocError> {
    let mut tally = Tally::NONE;
    let text = str::from_utf8(text).unwrap_or("");
    for len in 0..text.len() {
        if let Some(front) = text.get(..len) {
            tally.add_text(alloc, front)?;
        }
    }
    tally.add_text(alloc, text)?;
    Ok(tally)
}

/// Counts of a text that is repeated `times` times. Bytes that aren't UTF-8 count as an empty text.
pub fn of_repeated(alloc: Global, text: &[u8], times: u32) -> Result<Tally, AllocError> {
    let mut tally = Tally::NONE;
    let text = str::from_utf8(text).unwrap_or("");
    let mut whole = String::new(alloc);
    for _ in 0..times {
        whole.push_str(text)?;
    }
    tally.add_text(alloc, whole.as_str())?;
    Ok(tally)
}
