//! `starlark_lex [NAME]` reads a Starlark text from standard input, and prints a line for each
//! lexeme and one for the first fault. NAME stands before the place of a fault, and is `<stdin>`
//! where it isn't given. `starlark_lex --version` prints the version, and `--help` what it does.
//!
//! The exit status is 0 for a text without fault, 1 for a fault, and 2 where the arguments are
//! wrong or the run gave up: then standard error says why. It is 141 where nobody reads the output
//! any more.
#![tactic(auto)]

mod piped;

use crate::piped::Piped;
use starlark_run::{RunFault, TROUBLE, Watched, exit_status, run};
use std::env;
use std::io::ErrorKind;
use std::process::ExitCode;
use std::rt::Env;

/// What `--help` prints.
const HELP: &str = "\
usage: starlark_lex [NAME]

Prints the lexemes of a Starlark text from standard input, a line each: where it begins and ends, as
line:column from 1, its kind and its value. At the first fault it prints that, and ends.

  NAME       what stands before the place of a fault; without it `<stdin>`
  --version  print the version
  --help     print this text

The exit status is 0 if there is no fault, 1 if there is one, and 2 if the input can't be read, isn't
UTF-8 or is too long, or if the arguments are wrong. `starlark_tokens` takes files and folders.
";

/// What `--version` prints.
const VERSION: &str = "starlark_lex 0.2.0\n";

/// The exit status where nobody reads the output, by the shell's convention for a closed pipe.
const CLOSED_PIPE: u8 = 141;

/// The argument NAME; `None` where there are more, or where they can't be read as text.
fn name_argument<R: Env + AllocGlobal>(rt: &R) -> Option<Option<String>> {
    let mut arguments = env::args(rt).ok()?;
    let _program = arguments.next();
    let name = arguments.next();
    if arguments.next().is_some() {
        return None;
    }
    Some(name)
}

/// Prints a text, and returns the exit status.
fn print_text(rt: &HostRuntime, text: &str) -> u8 {
    match rt.print(text) {
        Ok(()) => 0,
        Err(error) if error.kind() == ErrorKind::BrokenPipe => CLOSED_PIPE,
        Err(_) => {
            let _ = eprintln!(rt; "{}", RunFault::Write);
            TROUBLE
        }
    }
}

/// Prints the lexemes of standard input, and returns the exit status.
fn lex_input(rt: &HostRuntime, name: &str) -> u8 {
    let mut reader = Watched::new(rt.stdin());
    let mut writer = Watched::new(Piped::new(rt.stdout()));
    let outcome = run(rt.alloc(), name, &mut reader, &mut writer);
    if writer.device().is_closed() {
        return CLOSED_PIPE;
    }
    if let Err(fault) = &outcome {
        let _ = eprintln!(rt; "{fault}");
    }
    exit_status(&outcome)
}

fn main(rt: HostRuntime) -> ExitCode {
    let Some(name) = name_argument(&rt) else {
        let _ = eprintln!(rt; "usage: starlark_lex [NAME]");
        return ExitCode::from(TROUBLE);
    };
    let name = name.as_ref().map_or("<stdin>", |name| name.as_str());
    ExitCode::from(match name {
        "--help" => print_text(&rt, HELP),
        "--version" => print_text(&rt, VERSION),
        _ => lex_input(&rt, name),
    })
}
