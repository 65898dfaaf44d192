//! Counts the items of a lexer.

use starlark_syntax::codemap::{CodeMap, OrMemory, SourceTooLong};
use starlark_syntax::dialect::Dialect;
use starlark_syntax::lexer::{Lexeme, Lexer};
use std::alloc::{AllocError, Global};
use std::{fmt, io};
use thiserror::Error;

/// Why a run failed.
#[derive(Debug, Drop, Error)]
pub enum BenchFault {
    /// Standard input, standard output or the clock failed.
    #[error("cannot read, write or tell the time: {0}")]
    Device(#[from] io::Error),
    /// The text, or the edited text, is longer than 4294967295 bytes.
    #[error("input is longer than 4294967295 bytes")]
    TooLong,
    /// An allocation failed.
    #[error("out of memory")]
    Memory,
}

impl From<AllocError> for BenchFault {
    fn from(_error: AllocError) -> BenchFault {
        BenchFault::Memory
    }
}

impl From<SourceTooLong> for BenchFault {
    fn from(_error: SourceTooLong) -> BenchFault {
        BenchFault::TooLong
    }
}

impl From<OrMemory<SourceTooLong>> for BenchFault {
    fn from(error: OrMemory<SourceTooLong>) -> BenchFault {
        match error {
            OrMemory::Error(_) => BenchFault::TooLong,
            OrMemory::Memory => BenchFault::Memory,
        }
    }
}

/// Number of lexemes and faults, and a checksum of the lexemes' offsets.
#[derive(Clone, Copy)]
pub struct Tally {
    lexemes: u64,
    faults: u64,
    checksum: u64,
}

impl Tally {
    /// No lexemes and no faults.
    const NONE: Tally = Tally {
        lexemes: 0,
        faults: 0,
        checksum: 0,
    };

    /// Adds an item of a lexer. Out of memory is an `AllocError`, not a fault.
    fn add(&mut self, item: &Lexeme) -> Result<(), AllocError> {
        match item {
            Ok((begin, _, end)) => {
                self.lexemes = self.lexemes.wrapping_add(1);
                let places = (*begin as u64).wrapping_mul(3).wrapping_add(*end as u64);
                self.checksum = self.checksum.rotate_left(5).wrapping_add(places);
            }
            Err(OrMemory::Error(_)) => self.faults = self.faults.wrapping_add(1),
            Err(OrMemory::Memory) => return Err(AllocError),
        }
        Ok(())
    }
}

/// Prints the numbers of lexemes and faults, and the checksum.
impl fmt::Display for Tally {
    fn fmt<W: fmt::Write>(&self, f: &mut fmt::Formatter<W>) -> fmt::Result {
        write!(f, "{} {} {}", self.lexemes, self.faults, self.checksum)
    }
}

/// Counts the lexemes and faults of a lexer.
fn tally_items(lexer: &mut Lexer<'_>) -> Result<Tally, AllocError> {
    let mut tally = Tally::NONE;
    for item in lexer {
        tally.add(&item)?;
    }
    Ok(tally)
}

/// Lexes the source of a code map, and counts its lexemes and faults.
pub fn tally_of(alloc: Global, file: &CodeMap) -> Result<Tally, BenchFault> {
    let mut lexer = Lexer::new(alloc, file.source(), &Dialect::Extended, file.dupe()?)?;
    Ok(tally_items(&mut lexer)?)
}
