//! What was found in all files of a run.

ghost use Rattle.std.specs.Prelude.{◌≡◌, [], Err};
ghost use Rattle.starlark_base.specs.Places.{Text};
ghost use Rattle.starlark_tokens.specs.Reporting.ReportStatus.{status_of};
ghost use Rattle.starlark_tokens.specs.declared.output_formats.form.Style.{Style};
ghost use Rattle.starlark_tokens.specs.Reporting.Totals.{totals_of, with_file, with_source};

use starlark_run::TROUBLE;

/// The exit status where faults were found.
const FAULTY: u8 = 1;

/// What was found in the files so far.
#[derive(Clone, Copy)]
pub struct Totals {
    /// How many files were read.
    pub files: usize,
    /// How many of them have faults.
    pub faulty_files: usize,
    /// How many faults they have.
    pub faults: usize,
    /// How many files couldn't be read.
    pub unreadable: usize,
}

impl Totals {
    /// No file, but for those that can't be read.
    pub fn of_unreadable(unreadable: usize) -> Totals
        ensures { (style : Style) → result ≡ totals_of style unreadable [] }
    {
        Totals {
            files: 0,
            faulty_files: 0,
            faults: 0,
            unreadable,
        }
    }

    /// Counts a file with this many faults.
    pub fn add(&mut self, faults: usize)
        ensures { self.new ≡ with_file self.old faults }
    {
        self.files = self.files.saturating_add(1);
        self.faults = self.faults.saturating_add(faults);
        if faults > 0 {
            self.faulty_files = self.faulty_files.saturating_add(1);
        }
    }

    /// Counts a file that couldn't be read.
    pub fn add_failure(&mut self)
        ensures { (style : Style) (reason : Text) → self.new ≡ with_source style self.old (Err reason) }
    {
        self.unreadable = self.unreadable.saturating_add(1);
    }

    /// The exit status.
    pub fn status(self) -> u8
        ensures { result ≡ status_of self }
    {
        if self.unreadable > 0 {
            TROUBLE
        } else if self.faults == 0 {
            0
        } else {
            FAULTY
        }
    }
}
