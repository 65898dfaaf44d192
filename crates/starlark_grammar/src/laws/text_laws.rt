//! Laws of texts that are joined, cut, or written with other line ends. Each function here has a law as its contract and
//! nothing to do; programs don't call them.

ghost use Rattle.starlark_grammar.specs.TextLaws.{CutsJoin, LaterFaultsJoin, FaultsJoin, CutsOfJoined, TabsAfterCuts, KeptCutsKeep, CrlfKeepsTokens};

/// At a clean cut the lexemes of two texts joined are the joined list. A fault of the second text stays the same fault,
/// that much later, unless it is its first margin's: then it takes the place of the last `Newline`. The joined text
/// has a fault exactly where the second text has one, and is a clean cut exactly where that is one and isn't empty.
pub fn joins_at_clean_cuts()
    ensures lists { CutsJoin }
    ensures later { LaterFaultsJoin }
    ensures faults { FaultsJoin }
    ensures cuts { CutsOfJoined }
    ensures tabs { TabsAfterCuts }
{}

/// At a kept cut the lexemes of a text begin with those of the text before it, without its closing `Newline`.
pub fn kept_cuts_keep()
    ensures { KeptCutsKeep }
{}

/// With each LF written as CR LF, a UTF-8 text without fault and without CR keeps its tokens, and has no fault. No raw
/// literal and no raw f-string text may have a backslash right before an LF.
pub fn line_ends_keep_tokens()
    ensures { CrlfKeepsTokens }
{}
