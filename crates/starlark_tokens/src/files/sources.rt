//! The sources of a run: standard input and files. Reads the text of one.

ghost use Rattle.std.specs.Prelude.{◌≡◌, ◌≤◌, ⊤, IfErr, IfOk, IfSome, Result, length, string_bytes};
ghost use Rattle.std.specs.Str.{IsUtf8, IsValidUpTo};
ghost use Rattle.starlark_base.specs.Places.{Text};
ghost use Rattle.starlark_run.specs.declared.ends.TheConstants.{GREATEST_LEN};
ghost use Rattle.starlark_tokens.specs.Files.SourceNames.{HasFault, name_of, text_in};

use starlark_base::codemap::ResolvedPos;
use starlark_base::position::Position;
use starlark_run::GREATEST_LEN;
use std::alloc::{AllocError, Global};
use std::fs::File;
use std::io::Read;
use std::{fs, io};

/// The name of standard input among names of files.
pub const STDIN: &str = "-";

/// A source of a run.
#[derive(Drop)]
pub enum Source {
    /// Standard input, by the name that reports have.
    Input(String),
    /// The file of a name.
    File(String),
}

impl Source {
    /// The name by which it is reported.
    pub fn name(&self) -> &str
        ensures { result.now ≡ name_of self.now }
    {
        match self {
            Source::Input(name) => name.as_str(),
            Source::File(name) => name.as_str(),
        }
    }
}

/// The sources of a run.
#[derive(Drop)]
pub struct Sources {
    /// Those that are read, in order.
    pub all: Vec<Source>,
    /// How many others there are, which can't be read.
    pub lost: usize,
    /// Whether some were found in a folder.
    pub are_found: bool,
}

/// Why a source has no text.
#[derive(Drop)]
pub enum SourceFault {
    /// It can't be opened or read.
    Unreadable(io::Error),
    /// It has more than 4294967295 bytes.
    TooLong,
    /// It isn't UTF-8 from a byte on.
    NotUtf8 { byte: u8, place: ResolvedPos },
}

impl From<io::Error> for SourceFault {
    ghost use Rattle.starlark_tokens.specs.declared.files.sources.SourceFault.TheVariants.{Unreadable};

    ghost from_gives = { λ error fault. fault ≡ Unreadable error };

    fn from(error: io::Error) -> SourceFault {
        SourceFault::Unreadable(error)
    }
}

/// Reads a reader to its end, or one byte more than a text may have.
fn read_source_bytes<R: Read + Drop>(alloc: Global, reader: R) -> Result<Vec<u8>, SourceFault>
    ensures short { IfOk result (λ bytes. length bytes.items ≤ GREATEST_LEN) }
    ensures whole { IfOk result (λ bytes. IfSome (R.remaining reader) (λ all. bytes.items ≡ all)) }
    ensures fault { IfErr result (λ fault. IfSome (R.remaining reader) (λ all. HasFault all fault)) }
{
    let mut bytes = Vec::new(alloc);
    reader
        .take(GREATEST_LEN as u64 + 1)
        .read_to_end(&mut bytes)?;
    if bytes.len() > GREATEST_LEN {
        return Err(SourceFault::TooLong);
    }
    Ok(bytes)
}

/// The first byte after a front that is UTF-8, with its place.
fn byte_after(bytes: &[u8], at: usize) -> SourceFault
    requires { IsValidUpTo bytes.now at }
    ensures { HasFault bytes.now result }
{
    let byte = bytes[at];
    match str::from_utf8(&bytes[..at]) {
        Ok(front) => {
            let place = Position::START.moved(front, at).place;
            SourceFault::NotUtf8 { byte, place }
        }
        Err(_) => unreachable!(),
    }
}

/// Where some bytes stop being UTF-8.
fn bad_byte(bytes: &[u8]) -> SourceFault
    requires { ¬ (IsUtf8 bytes.now) }
    ensures { HasFault bytes.now result }
{
    match str::from_utf8(bytes) {
        Ok(_) => unreachable!(),
        Err(error) => byte_after(bytes, error.valid_up_to()),
    }
}

/// Some bytes as a text.
fn text_of(bytes: Vec<u8>) -> Result<String, SourceFault>
    ensures text { IfOk result (λ text. string_bytes text ≡ bytes.items) }
    ensures fault { IfErr result (HasFault bytes.items) }
{
    match String::from_utf8(bytes) {
        Ok(text) => Ok(text),
        Err(error) => Err(bad_byte(error.as_bytes())),
    }
}

/// Reads the text of a reader.
pub fn read_text<R: Read + Drop>(alloc: Global, reader: R) -> Result<String, SourceFault>
    ensures short { IfOk result (λ text. length (string_bytes text) ≤ GREATEST_LEN) }
    ensures whole { IfOk result (λ text. IfSome (R.remaining reader) (λ bytes. string_bytes text ≡ bytes)) }
    ensures fault { IfErr result (λ fault. IfSome (R.remaining reader) (λ bytes. HasFault bytes fault)) }
{
    let bytes = read_source_bytes(alloc, reader)?;
    text_of(bytes)
}

/// What the texts of sources are read from.
pub trait Texts {
    ghost use Rattle.starlark_tokens.specs.declared.files.sources.Source.{Source};
    ghost use Rattle.starlark_tokens.specs.declared.files.sources.SourceFault.{SourceFault};

    /// Whether reading a source gives this text, or fails with this fault.
    ghost gives: { Self → Source → Result Text SourceFault → Type 0 };

    /// Reads the text of a source.
    fn text(&self, source: &Source) -> Result<String, SourceFault>
        ensures short { IfOk result (λ text. length (string_bytes text) ≤ GREATEST_LEN) }
        ensures given { gives self.now source.now (text_in result) };
}

/// Opens a file, unless it is longer than a text may be: then nothing of it is read.
fn opened(rt: &HostRuntime, name: &str) -> Result<File, SourceFault> {
    let file = fs::open(rt, name)?;
    if file.metadata()?.len() > GREATEST_LEN as u64 {
        return Err(SourceFault::TooLong);
    }
    Ok(file)
}

/// The files of the system and its standard input. No contract says what they have.
impl Texts for HostRuntime {
    ghost gives = { λ _ _ _. ⊤ };

    fn text(&self, source: &Source) -> Result<String, SourceFault> {
        match source {
            Source::Input(_) => read_text(self.alloc(), self.stdin()),
            Source::File(name) => read_text(self.alloc(), opened(self, name.as_str())?),
        }
    }
}
