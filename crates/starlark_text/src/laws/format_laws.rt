//! Laws on format strings. Each is the contract of a function with an empty body.

ghost use Rattle.starlark_text.specs.FormatLaws as law;

/// Where text is left of a format string, exactly one piece or exactly one error is there.
pub fn one_piece_or_fault()
    ensures something { law.SomethingStands }
    ensures never_both { law.NeverBoth }
    ensures piece { law.OnePiece }
    ensures fault { law.OneFault }
{}

/// Each format string has exactly one outcome, and so at most one reading.
pub fn one_outcome()
    ensures some { law.SomeOutcome }
    ensures one { law.OneOutcome }
    ensures reading { law.OneReading }
{}

/// What a parser returns, up to the end or an error, is the outcome of its format string.
pub fn answers_are_the_outcome()
    ensures { law.AnswersOutcome }
{}

/// Tokens that are written back as a format string parse to the same tokens, except for positions.
pub fn tokens_parse_back()
    ensures { law.ParsesBack }
{}
