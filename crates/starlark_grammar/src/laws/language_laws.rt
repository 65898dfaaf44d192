//! Laws of the written grammar, for all texts. Each function here has a law as its contract and nothing to do;
//! programs don't call them.

ghost use Rattle.starlark_grammar.specs.IntegerValues.{IntegersKeepTheirValue};
ghost use Rattle.starlark_grammar.specs.Laws.{FrontIsLongest, LongestFrontIsOne, NoneWhereNoWord, ItemIsOne, BodyIs, BodyIsOne, BodyIsBad, GoodOrBad, GoodLiteralIsToken, BadLiteralIsFault, ChunkIsBody, ReadingsAgree, ReadingsFit, OutcomeIs, OutcomeIsOne, DedentsFollow, BlocksClose, ItemsAreFew, LexemesInOrder, FaultlessInOrder, LexemesAtBoundaries, FaultsInside, FaultAtBoundaries, TablesAgree};
ghost use Rattle.starlark_grammar.specs.PrintedWords.{PrintedWordsReadBack};

/// The longest front of a text that is a word is the longest, and there is only one. There is none exactly where no
/// front is a word.
pub fn one_longest_front()
    ensures is_longest { FrontIsLongest }
    ensures only { LongestFrontIsOne }
    ensures none { NoneWhereNoWord }
{}

/// The body of a literal, or a chunk of an f-string's text, is a list of items that holds nothing forbidden, with what
/// ends it, and there is only one. If no quotes close it, it is the longest such list, and there is no good literal. So
/// a literal is either good or bad. A literal's token or fault, and a chunk's lexemes, follow from that list.
pub fn one_body()
    ensures item { ItemIsOne }
    ensures is_body { BodyIs }
    ensures only { BodyIsOne }
    ensures bad { BodyIsBad }
    ensures good_or_bad { GoodOrBad }
    ensures token { GoodLiteralIsToken }
    ensures fault { BadLiteralIsFault }
    ensures chunk { ChunkIsBody }
{}

/// Of two readings of fronts of one text one begins the other, and both lie inside of the text.
pub fn one_reading()
    ensures agree { ReadingsAgree }
    ensures inside { ReadingsFit }
{}

/// Each text has exactly one outcome: that of its longest reading.
pub fn one_outcome()
    ensures is_outcome { OutcomeIs }
    ensures only { OutcomeIsOne }
{}

/// In each beginning of the lexemes there are at most as many `Dedent` as `Indent`, and in those of a text without
/// fault as many of each. Of n bytes there are at most 2n + 1 lexemes and faults.
pub fn balanced_layout()
    ensures front { DedentsFollow }
    ensures whole { BlocksClose }
    ensures few { ItemsAreFew }
{}

/// Lexemes are in order, with nothing but gaps before and between them, and where the text has no fault after them
/// too. They lie inside of the text, and in a text of characters they begin and end between
/// characters. A fault does so too.
pub fn ordered_lexemes()
    ensures order { LexemesInOrder }
    ensures whole { FaultlessInOrder }
    ensures boundaries { LexemesAtBoundaries }
    ensures fault { FaultsInside }
    ensures fault_boundaries { FaultAtBoundaries }
{}

/// The integer that a number's text writes has the text's value: neither zeros at the front nor the case of letters
/// change it.
pub fn integers_keep_their_value()
    ensures { IntegersKeepTheirValue }
{}

/// The word that is printed of a keyword or a symbol is read as that keyword or symbol.
pub fn printed_words_read_back()
    ensures { PrintedWordsReadBack }
{}

/// A text in which neither `rf'` nor `rf"` stands has the lexemes and the fault that it had before these two were
/// openers.
pub fn texts_without_rf_stay()
    ensures { TablesAgree }
{}
