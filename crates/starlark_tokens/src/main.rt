//! `starlark_tokens [OPTIONS] [FILE or FOLDER]..` prints the tokens and faults of Starlark files.
//!
//! The exit status is 0 where no file has a fault, and 1 where one has. It is 2 where a file couldn't
//! be read or an option is wrong, and 141 where nobody reads the output any more.
#![tactic(auto)]

ghost use Rattle.std.specs.Prelude.{◌≡◌, ◌⊎◌, IfOk};
ghost use Rattle.starlark_tokens.specs.CommandLine.Requests as requests;
ghost use Rattle.starlark_tokens.specs.Reporting.ReportStatus.{IsPrintStatus, IsRunStatus, IsStatusOf, status_of_print};

mod build;
mod command_line;
mod files;
mod laws;
mod output_formats;
mod reporting;
mod told_faults;

use crate::build::BUILD;
use crate::command_line::arguments::arguments;
use crate::command_line::command_words::{begins_with, takes_value, words_of};
use crate::command_line::requests::{Colour, Reports, Request, asked};
use crate::files::folders::sources_of;
use crate::output_formats::form::Terminal;
use crate::reporting::file_runs::{end_run, report_sources, unwritable};
use crate::reporting::messages::say;
use crate::told_faults::explanations::explanation;
use starlark_run::TROUBLE;
use std::alloc::AllocError;
use std::io::IsTerminal;
use std::process::ExitCode;
use std::{env, io};

/// What `--help` prints.
const HELP: &str = "\
usage: starlark_tokens [OPTIONS] [FILE or FOLDER]..

Prints the tokens and lexical faults of Starlark files. Of a folder it takes BUILD, BUILD.*,
*.BUILD, *.BUILD.bazel, WORKSPACE*, MODULE.bazel, *.MODULE.bazel, BUCK, TARGETS, *.bzl, *.star,
*.sky and *.bxl, in all its folders that aren't hidden. Without a name, or for `-`, it reads
standard input.

  --check                print no tokens: each fault with the line of the source
  --format FORMAT        text, json, github or sarif; the last two print no tokens
  --json                 the same as --format json
  --include GLOB         take such files of folders too; globs are as in .gitignore
  --exclude GLOB         leave out such files and folders of folders and lists
  --files-from FILE      take the names in FILE, each ended by a zero byte or else an LF
  --max-faults N         show N faults of a file, 0 for all; --check shows 100 in text
  --select CODES         tell only these faults: codes, or what they begin with, by commas
  --ignore CODES         leave these faults out
  --names WORDS          take these reserved words as names, by commas
  --columns UNIT         characters, bytes or utf16: how text and github count columns of faults
  --color WHEN           auto, always or never: whether lines of faults have colours
  --stdin-filename NAME  report standard input by this name
  --explain CODE         say what the code of a fault means, and how to mend it
  -q, --quiet            print no count of faults
  -V, --version          print the version, and whether this build is proved
  -h, --help             print this text
  --                     take all that follows as names

The exit status is 0 if there are no faults, 1 if there are, and 2 if a file can't be read, isn't
UTF-8 or is too long, or if an option is wrong.

  starlark_tokens --check .    # all faults of a repository
";

/// Columns of an output that isn't a terminal, or doesn't say how many it has.
const PIPE_COLUMNS: u16 = 160;

/// Least and most columns that a terminal is taken to have.
const LEAST_COLUMNS: u16 = 20;

const MOST_COLUMNS: u16 = 1000;

/// The version that `--version` prints.
const VERSION: &str = "0.2.0";

/// The exit status after a text was printed, or not.
fn printed_status(rt: &HostRuntime, printed: &io::Result<()>) -> u8
    ensures { result ≡ status_of_print printed.now }
{
    match printed {
        Ok(()) => 0,
        Err(error) => unwritable(rt, error),
    }
}

/// Prints a text, and returns the exit status.
fn print_text(rt: &HostRuntime, text: &str) -> u8
    ensures { IsPrintStatus result }
{
    printed_status(rt, &rt.print(text))
}

/// Prints the version.
fn print_version(rt: &HostRuntime) -> u8
    ensures { IsPrintStatus result }
{
    printed_status(rt, &println!(rt; "starlark_tokens {VERSION} ({BUILD})"))
}

/// What is said of an option that the program doesn't have.
fn refusal(option: &[u8]) -> &'static str {
    if begins_with(option, "--format=") {
        "the formats are text, json, github and sarif"
    } else if begins_with(option, "--color=") {
        "the values are auto, always and never"
    } else if begins_with(option, "--columns=") {
        "the values are characters, bytes and utf16"
    } else if begins_with(option, "--max-faults=") {
        "the value is a number in decimal digits"
    } else if takes_value(option) {
        "needs a value; --help lists the options"
    } else {
        "unknown option; --help lists them"
    }
}

/// Says that an option isn't one.
fn refuse_option(rt: &HostRuntime, option: &[u8]) -> u8
    ensures { result ≡ 2 }
{
    say(rt, option, &refusal(option));
    TROUBLE
}

/// Prints what a code means.
fn explain(rt: &HostRuntime, code: &[u8]) -> u8
    ensures { IsPrintStatus result ⊎ (result ≡ 2) }
{
    match str::from_utf8(code).ok().and_then(explanation) {
        Some(text) => print_text(rt, text),
        None => {
            say(
                rt,
                code,
                &"no fault has this code; they are SL001 to SL009 and SL101 to SL106",
            );
            TROUBLE
        }
    }
}

/// Whether a variable of the environment is set, and not empty.
fn is_set(rt: &HostRuntime, name: &str) -> bool {
    match env::var(rt, name) {
        Ok(value) => !value.is_empty(),
        Err(error) => error != env::VarError::NotPresent,
    }
}

/// Whether the terminal says that it is one without colours.
fn is_dumb(rt: &HostRuntime) -> bool {
    match env::var(rt, "TERM") {
        Ok(name) => name.as_str() == "dumb",
        Err(_) => false,
    }
}

/// Whether standard output is a terminal that shows colours, and `NO_COLOR` isn't set.
fn shows_colours(rt: &HostRuntime) -> bool {
    rt.stdout().is_terminal() && !is_set(rt, "NO_COLOR") && !is_dumb(rt)
}

/// Whether lines for people have colours.
fn is_painted(colour: Colour, shows_colours: bool) -> bool
    ensures { result ≡ requests.is_painted colour shows_colours }
{
    match colour {
        Colour::Auto => shows_colours,
        Colour::Always => true,
        Colour::Never => false,
    }
}

/// Columns of a terminal: those that `COLUMNS` says, or else as many as in a pipe.
fn columns(rt: &HostRuntime) -> u16 {
    if !rt.stdout().is_terminal() {
        return PIPE_COLUMNS;
    }
    let columns = match env::var(rt, "COLUMNS") {
        Ok(value) => value.as_str().parse().unwrap_or(PIPE_COLUMNS),
        Err(_) => PIPE_COLUMNS,
    };
    columns.clamp(LEAST_COLUMNS, MOST_COLUMNS)
}

/// Bytes of a line of the source that have room on each side of a fault's begin: beside two
/// ellipses, and the rest of a character.
fn side(columns: u16) -> u16 {
    columns.saturating_sub(5) / 2
}

/// What the output is.
fn terminal(rt: &HostRuntime, colour: Colour) -> Terminal {
    Terminal {
        is_painted: is_painted(colour, shows_colours(rt)),
        side: side(columns(rt)),
    }
}

/// Reports what is asked for, and returns the exit status.
fn report_all(rt: &HostRuntime, wanted: &Reports<'_>) -> Result<u8, AllocError>
    ensures { IfOk result IsRunStatus }
{
    let sources = sources_of(rt, wanted)?;
    let run = report_sources(rt, wanted, &sources, terminal(rt, wanted.colour));
    Ok(end_run(rt, wanted, &run))
}

/// Does what is asked for, and returns the exit status.
fn answer_to(rt: &HostRuntime, request: &Request<'_>) -> Result<u8, AllocError>
    ensures { IfOk result (IsStatusOf request.now) }
{
    match request {
        Request::Unknown(option) => Ok(refuse_option(rt, option)),
        Request::Help => Ok(print_text(rt, HELP)),
        Request::Version => Ok(print_version(rt)),
        Request::Explain(code) => Ok(explain(rt, code)),
        Request::Reports(wanted) => report_all(rt, wanted),
    }
}

/// Does what the arguments ask for, and returns the exit status.
fn answer(rt: &HostRuntime) -> Result<u8, AllocError> {
    let arguments = arguments(rt)?;
    let words = words_of(rt.alloc(), arguments.as_slice())?;
    let request = asked(rt.alloc(), &words)?;
    answer_to(rt, &request)
}

fn main(rt: HostRuntime) -> ExitCode {
    match answer(&rt) {
        Ok(status) => ExitCode::from(status),
        Err(_) => {
            let _ = eprintln!(rt; "starlark_tokens: out of memory");
            ExitCode::from(TROUBLE)
        }
    }
}
