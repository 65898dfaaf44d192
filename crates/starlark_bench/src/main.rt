//! Benchmark of the lexer over the Starlark text on standard input.
//!
//! `starlark_bench` lexes the text once, and prints a line: the text's bytes, its lexemes, its
//! faults (0 or 1) and a checksum of their offsets.
//!
//! `starlark_bench --bench N` does so N times, and prints a line each time. The line also has the
//! nanoseconds from making the lexer to dropping the last lexeme.
//!
//! `starlark_bench --relex N` lexes the text into a `LexedText`, and again with one more blank line
//! in its middle, N times. A line has the text's bytes, and for each of the two the number of bytes
//! read and the nanoseconds.
//!
//! `starlark_bench --keystrokes N` makes a document of the text, types N characters in its middle, each
//! at another place, and deletes each again. It prints one line: the text's bytes, the nanoseconds of
//! making the document, those of a keystroke at the median and at 99 %, and the bytes that were lexed
//! for a character on average.
//!
//! `starlark_bench --places N` resolves N spans that are spread over the text, except those with an
//! end inside of a character. It prints one line: the text's bytes, its lines, the spans that were
//! resolved, a checksum of their lines and columns, and the nanoseconds.
//!
//! Reading the text, checking UTF-8, editing and making the code map are not measured.
//!
//! The exit status is 2 where the arguments are wrong or the run failed. Standard error says why.
#![tactic(auto)]

mod edited;
mod keystrokes;
mod spread_spans;
mod tally;

use crate::edited::{edited_in_the_middle, middle, print_relexed};
use crate::keystrokes::print_keystrokes;
use crate::spread_spans::tally_of_places;
use crate::tally::{BenchFault, tally_of};
use starlark_syntax::codemap::{CodeMap, CodeMapId};
use std::process::ExitCode;
use std::rt::Env;
use std::time::Instant;
use std::{env, io};

/// The exit status for wrong arguments, and for a run that failed.
const TROUBLE: u8 = 2;

/// What the arguments ask for.
#[derive(Clone, Copy)]
enum Request {
    /// Lex once, without a time.
    Once,
    /// Lex the given number of times.
    Timed(u32),
    /// Resolve the given number of spans.
    Places(u32),
    /// Type the given number of characters into a document.
    Keystrokes(u32),
    /// Lex, and lex again after an edit, the given number of times.
    Relexed(u32),
}

/// What a flag and its count ask for; `None` where they are wrong.
fn request_of(flag: &str, count: &str) -> Option<Request> {
    let count = count.parse().ok()?;
    match flag {
        "--bench" => Some(Request::Timed(count)),
        "--keystrokes" => Some(Request::Keystrokes(count)),
        "--places" => Some(Request::Places(count)),
        "--relex" => Some(Request::Relexed(count)),
        _ => None,
    }
}

/// What the arguments after the program's name ask for; `None` where they are wrong.
fn next_request(arguments: &mut env::Args) -> Option<Request> {
    let Some(flag) = arguments.next() else {
        return Some(Request::Once);
    };
    let count = arguments.next()?;
    if arguments.next().is_some() {
        return None;
    }
    request_of(flag.as_str(), count.as_str())
}

/// What the arguments ask for; `None` where they are wrong.
fn read_request<R: Env + AllocGlobal>(rt: &R) -> Option<Request> {
    let mut arguments = env::args(rt).ok()?;
    let _program = arguments.next();
    next_request(&mut arguments)
}

/// Reads the text on standard input, and makes its code map.
fn read_code_map(rt: &HostRuntime) -> Result<CodeMap, BenchFault> {
    let alloc = rt.alloc();
    let text = io::read_to_string(alloc, rt.stdin())?;
    let filename = String::from_str(alloc, "<stdin>")?;
    Ok(CodeMap::new(alloc, CodeMapId::EMPTY, filename, text)?)
}

/// Lexes the source of a code map once, and prints a line without a time.
fn print_once(rt: &HostRuntime, file: &CodeMap) -> Result<(), BenchFault> {
    let tally = tally_of(rt.alloc(), file)?;
    Ok(println!(rt; "{} {tally}", file.source().len())?)
}

/// Lexes the source of a code map `count` times, and prints a line each time.
fn print_timed(rt: &HostRuntime, file: &CodeMap, count: u32) -> Result<(), BenchFault> {
    for _ in 0..count {
        let start = Instant::now(rt)?;
        let tally = tally_of(rt.alloc(), file)?;
        let elapsed = start.elapsed(rt)?;
        println!(rt; "{} {tally} {}", file.source().len(), elapsed.as_nanos())?;
    }
    Ok(())
}

/// Resolves `count` spans of a code map, and prints a line.
fn print_places(rt: &HostRuntime, file: &CodeMap, count: u32) -> Result<(), BenchFault> {
    let start = Instant::now(rt)?;
    let tally = tally_of_places(file, count);
    let elapsed = start.elapsed(rt)?;
    let (bytes, lines) = (file.source().len(), file.line_count());
    Ok(println!(rt; "{bytes} {lines} {tally} {}", elapsed.as_nanos())?)
}

/// Lexes a source, and again after an edit, `count` times, and prints a line each time.
fn print_edited(rt: &HostRuntime, file: &CodeMap, count: u32) -> Result<(), BenchFault> {
    let from = middle(file.source());
    let edited = edited_in_the_middle(rt.alloc(), file.source(), from)?;
    for _ in 0..count {
        print_relexed(rt, file, from, edited.as_str())?;
    }
    Ok(())
}

/// Does what the arguments ask for.
fn bench(rt: &HostRuntime, request: Request) -> Result<(), BenchFault> {
    let file = read_code_map(rt)?;
    match request {
        Request::Once => print_once(rt, &file),
        Request::Timed(count) => print_timed(rt, &file, count),
        Request::Places(count) => print_places(rt, &file, count),
        Request::Keystrokes(count) => print_keystrokes(rt, file.source(), count),
        Request::Relexed(count) => print_edited(rt, &file, count),
    }
}

fn main(rt: HostRuntime) -> ExitCode {
    let Some(request) = read_request(&rt) else {
        let _ = eprintln!(rt;
            "usage: starlark_bench [--bench N | --keystrokes N | --places N | --relex N]"
        );
        return ExitCode::from(TROUBLE);
    };
    match bench(&rt, request) {
        Ok(()) => ExitCode::SUCCESS,
        Err(fault) => {
            let _ = eprintln!(rt; "{fault}");
            ExitCode::from(TROUBLE)
        }
    }
}
