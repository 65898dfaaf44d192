//! Laws of faults that keep their lines. Each function here has a law as its contract and nothing to
//! do; programs don't call them.

ghost use Rattle.starlark_grammar.specs.KeptLineLaws.{KeptFaultsHaveBytes, WordsKeepLines};

/// Faults of words keep their lines. A fault that keeps its line has a byte that is passed.
pub fn faults_keep_lines()
    ensures words { WordsKeepLines }
    ensures bytes { KeptFaultsHaveBytes }
{}
