//! The checks, and what they find.

ghost use Rattle.std.specs.Prelude.{◌≡◌};
ghost use Rattle.starlark_checks.specs.CheckTexts.{check_code, check_message};

/// What a check finds.
#[derive(Clone, Copy, Debug, PartialEq, Eq)]
pub enum Check {
    /// A bracket `(`, `[` or `{` is never closed, or the `{` of an f-string's expression.
    NeverClosed,
    /// A closing bracket closes nothing.
    ClosesNothing,
    /// A bracket is closed by one of another kind.
    ClosesAnother,
    /// A number is right before a name, a keyword or a number, as in `123abc`.
    NumberBeforeWord,
    /// A line begins with `<<<<<<<`, `=======` or `>>>>>>>`, as a merge leaves it.
    MergeMarker,
    /// An expression of an f-string with one quote goes on after a line end.
    FStringLineEnd,
}

impl Check {
    /// The code, as `SL101`, which no later version changes.
    #[tactic(auto, unfolding(crate::specs::CheckTexts::check_code))]
    pub fn code(self) -> &'static str
        ensures { result.now ≡ check_code self }
    {
        match self {
            Check::NeverClosed => "SL101",
            Check::ClosesNothing => "SL102",
            Check::ClosesAnother => "SL103",
            Check::NumberBeforeWord => "SL104",
            Check::MergeMarker => "SL105",
            Check::FStringLineEnd => "SL106",
        }
    }

    /// The message, as in `bracket is never closed`.
    #[tactic(auto, unfolding(crate::specs::CheckTexts::check_message))]
    pub fn message(self) -> &'static str
        ensures { result.now ≡ check_message self }
    {
        match self {
            Check::NeverClosed => "bracket is never closed",
            Check::ClosesNothing => "bracket closes nothing",
            Check::ClosesAnother => "bracket closes one of another kind",
            Check::NumberBeforeWord => "number right before a name, keyword or number",
            Check::MergeMarker => "line of an unresolved merge",
            Check::FStringLineEnd => "f-string with one quote has a line end in an expression",
        }
    }
}

/// A finding: the check, and the bytes that it is about.
#[derive(Clone, Copy, Debug, PartialEq, Eq)]
pub struct Finding {
    /// The check that found it.
    pub check: Check,
    /// Offset of the first byte.
    pub begin: usize,
    /// Offset after the last byte.
    pub end: usize,
    /// Where the open bracket begins for `ClosesAnother`, else `begin`.
    pub opening: usize,
}

impl Finding {
    /// A finding that is about no other bytes.
    pub(crate) fn at(check: Check, begin: usize, end: usize) -> Finding
        ensures { result ≡ record { check = check; begin = begin; end = end; opening = begin } }
    {
        Finding {
            check,
            begin,
            end,
            opening: begin,
        }
    }
}
