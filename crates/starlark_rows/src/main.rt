//! Runs the libraries over stored calls, texts and commands, so that all that they return is
//! compared with a stored output.
//!
//! Standard input is a list of parts. A part is a line `part NAME LEN` and its LEN bytes:
//!
//! - `calls` has rows, each of which is a call and what it is given (module `calls`);
//! - `texts` has texts that are lexed up to their fault, and edits of texts (module `texts`);
//! - `recovered` has texts that are lexed on after their faults (module `recovered`);
//! - `documents` has commands on documents (module `documents`).
//!
//! Standard output is a list of parts, too: of each part what it prints. In each part the numbers of
//! texts and commands begin at 1. The program ends with an error where standard input is no such
//! list.
#![tactic(auto)]

mod calls;
mod document_commands;
mod printed_items;
mod recovered;
mod stored_parts;
mod texts;

use crate::stored_parts::{StoredPart, first_part, invalid_data};
use std::alloc::Global;
use std::io;
use std::io::{BufWriter, Read, Write};

/// Prints what a part's calls, texts or commands return.
fn print_part<W: Write>(alloc: Global, out: &mut W, part: StoredPart<'_>) -> io::Result<()> {
    match part.name {
        "calls" => calls::print_all(alloc, out, part.bytes),
        "texts" => texts::print_all(alloc, out, part.bytes),
        "recovered" => recovered::print_all(alloc, out, part.bytes),
        "documents" => document_commands::print_all(alloc, out, part.bytes),
        _ => Err(invalid_data()),
    }
}

/// Prints a part of what is printed for a part: its name, its length, and what its calls, texts or
/// commands return.
fn print_with_len<W: Write>(alloc: Global, out: &mut W, part: StoredPart<'_>) -> io::Result<()> {
    let mut printed = Vec::new(alloc);
    print_part(alloc, &mut printed, part)?;
    write!(out, "part {} {}\n", part.name, printed.len())?;
    out.write_all(printed.as_slice())
}

/// Prints what the parts of standard input give.
fn print_parts<W: Write>(alloc: Global, out: &mut W, stored: &[u8]) -> io::Result<()> {
    let mut rest = stored;
    for _ in 0..u64::MAX {
        if rest.is_empty() {
            break;
        }
        let (part, after) = first_part(rest).ok_or_else(invalid_data)?;
        print_with_len(alloc, out, part)?;
        rest = after;
    }
    Ok(())
}

fn main(rt: HostRuntime) -> io::Result<()> {
    let alloc = rt.alloc();
    let mut stored = Vec::new(alloc);
    rt.stdin().read_to_end(&mut stored)?;
    let mut out = BufWriter::new(alloc, rt.stdout())?;
    print_parts(alloc, &mut out, stored.as_slice())?;
    out.flush()
}
