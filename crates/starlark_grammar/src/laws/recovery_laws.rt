//! Laws of texts that are lexed on after their faults. Each function here has a law as its contract
//! and nothing to do; programs don't call them.

ghost use Rattle.starlark_grammar.specs.Joining.{DecidedFaultsStay, LastNewlineCuts, LineCutsJoin, LineCutsOfJoined, NewlinesCut};
ghost use Rattle.starlark_grammar.specs.RecoveryLaws.{LexemesBeforeFaults, RestartsAfterTabs, RestartsAtLines, RestartsAtNextLine, RestartsLater};

/// Lexing begins again at the start of a line or at the end of the text: after the first LF from a
/// fault's last byte on, or after the tab of a tab's fault. The lexemes before the fault end there, or
/// earlier.
pub fn restarts_at_lines()
    ensures later { RestartsLater }
    ensures earlier { LexemesBeforeFaults }
    ensures line { RestartsAtLines }
    ensures next { RestartsAtNextLine }
    ensures tab { RestartsAfterTabs }
{}

/// A fault that ends before the last byte of its text, an LF, stays as it is whatever follows, and so
/// does the line where lexing begins again.
pub fn decided_faults_stay()
    ensures stays { DecidedFaultsStay }
{}

/// A text can be cut between two lines where the second has content at its start: it closes all
/// blocks, and each part is lexed by itself.
pub fn line_cuts_join()
    ensures outcome { LineCutsJoin }
    ensures cut { LineCutsOfJoined }
{}

/// A `Newline` ends such a part, where no brackets are open after it.
pub fn newlines_cut()
    ensures inside { NewlinesCut }
    ensures last { LastNewlineCuts }
{}
