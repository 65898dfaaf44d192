//! Laws of all that is found in a text that is lexed on after its faults. Each function here has a law
//! as its contract and nothing to do; programs don't call them.

ghost use Rattle.starlark_grammar.specs.FoundLaws.{ClosedJoin, FaultlessFound, FoundAfterFaults, FoundApart, FoundFaultsInOrder, FoundJoins, FoundLexemesInOrder, LastNewlinesClose, NewlinesClose, NewlinesCutFound, OutcomeAfterNothing};

/// In a text are found its lexemes, then its fault if it has one, what stands for that, and what is
/// found in the rest after it, by what was read before it. What is read after nothing is the text's
/// outcome.
///
/// A closed text and one after it that begins plainly are lexed each by itself, and two closed texts
/// are one. All lexemes lie in the text, in order, and so do all faults. No lexeme but a comment has a
/// byte of a fault, unless it stands for the fault and has all of its bytes.
pub fn found_in_order()
    ensures faultless { FaultlessFound }
    ensures after { FoundAfterFaults }
    ensures outcome { OutcomeAfterNothing }
    ensures joins { FoundJoins }
    ensures closed { ClosedJoin }
    ensures lexemes { FoundLexemesInOrder }
    ensures faults { FoundFaultsInOrder }
    ensures apart { FoundApart }
{}

/// A `Newline` of some bytes, after which a line begins plainly, closes the text up to there.
///
/// What is found in that text is what is found up to there, but for its closing `Newline`. A `Newline`
/// of some bytes at the end of a text closes it.
pub fn newlines_close()
    ensures plain { NewlinesClose }
    ensures cut { NewlinesCutFound }
    ensures last { LastNewlinesClose }
{}
