//! What a report shows, and in which form.

ghost use Rattle.std.specs.Prelude.{◌≡◌};
ghost use Rattle.starlark_tokens.specs.OutputFormats.ReportDocuments.{is_collected};
ghost use Rattle.starlark_tokens.specs.Reporting.Reports.{has_only_faults, shows_faults};

use crate::told_faults::filters::Filter;

/// The form of a report.
#[derive(Clone, Copy)]
pub enum Form {
    /// A line for each token and fault.
    Tokens,
    /// A line for each token and fault, after the text's name.
    NamedTokens,
    /// An object of JSON for each token and fault, one a line.
    Json,
    /// The place and message of each fault, with the line of the source. No tokens.
    Faults,
    /// The same lines with colours of a terminal. No tokens.
    PaintedFaults,
    /// An object of JSON for each fault, one a line. No tokens.
    JsonFaults,
    /// An annotation of GitHub for each fault, one a line. No tokens.
    Github,
    /// A result of SARIF for each fault. No tokens.
    Sarif,
}

/// What the output is.
#[derive(Clone, Copy)]
pub struct Terminal {
    /// Whether lines for people have colours.
    pub is_painted: bool,
    /// Bytes of a line of the source that have room on each side of a fault's begin.
    pub side: u16,
}

/// How columns of faults are counted.
#[derive(Clone, Copy)]
pub enum Columns {
    Characters,
    Bytes,
    /// In units of UTF-16.
    Utf16,
}

/// How files are reported.
#[derive(Clone, Copy)]
pub struct Style<'a> {
    pub form: Form,
    /// Bytes of a line of the source that have room on each side of a fault's begin.
    pub side: u16,
    /// How columns of faults are counted.
    pub columns: Columns,
    /// Number of faults of a file that are shown.
    pub most: usize,
    /// Which faults are told where no tokens are printed.
    pub filter: &'a Filter,
}

impl Form {
    /// Whether tokens are left out.
    pub fn has_only_faults(self) -> bool
        ensures { result ≡ has_only_faults self }
    {
        !matches!(self, Form::Tokens | Form::NamedTokens | Form::Json)
    }

    /// Whether lines for people show faults alone.
    pub fn shows_faults(self) -> bool
        ensures { result ≡ shows_faults self }
    {
        matches!(self, Form::Faults | Form::PaintedFaults)
    }

    /// Whether all reports are collected before they are written.
    pub fn is_collected(self) -> bool
        ensures { result ≡ is_collected self }
    {
        matches!(self, Form::Sarif)
    }
}
