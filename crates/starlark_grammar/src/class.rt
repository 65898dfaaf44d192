//! The words of the language: what they are to code and to definitions.

/// The quote that a literal stands in.
#[derive(Clone, Copy, Debug, PartialEq, Eq)]
pub enum Quote {
    Single,
    Double,
}

/// What a literal denotes: characters, bytes, or text with expressions in it.
#[derive(Clone, Copy, Debug, PartialEq, Eq)]
pub enum LiteralKind {
    Text,
    Bytes,
    FString,
}

/// How a literal begins: whether it is raw, its quote, and whether three of them close it.
#[derive(Clone, Copy)]
pub struct Opening {
    pub is_raw: bool,
    pub quote: Quote,
    pub is_triple: bool,
}

/// A word that is a token of its own: a keyword or a symbol. Its text is in `terminals!`.
#[derive(Clone, Copy, Debug, PartialEq, Eq)]
pub enum Terminal {
    And,
    Break,
    Continue,
    Def,
    Elif,
    Else,
    For,
    If,
    In,
    Lambda,
    Load,
    Not,
    Or,
    Pass,
    Return,
    Comma,
    Semicolon,
    Colon,
    PlusEqual,
    MinusEqual,
    StarEqual,
    SlashEqual,
    SlashSlashEqual,
    PercentEqual,
    EqualEqual,
    BangEqual,
    LessEqual,
    GreaterEqual,
    StarStar,
    MinusGreater,
    Equal,
    LessThan,
    GreaterThan,
    Minus,
    Plus,
    Star,
    Percent,
    Slash,
    SlashSlash,
    Dot,
    Ampersand,
    Pipe,
    Caret,
    LessLess,
    GreaterGreater,
    Tilde,
    AmpersandEqual,
    PipeEqual,
    CaretEqual,
    LessLessEqual,
    GreaterGreaterEqual,
    Ellipsis,
    OpeningSquare,
    OpeningCurly,
    OpeningRound,
    ClosingSquare,
    ClosingCurly,
    ClosingRound,
}

/// What a word is. `Skipped` is blanks and escaped line ends; an opener is what a literal begins
/// with, `Reserved` a word that no text may use.
#[derive(Clone, Copy, Debug, PartialEq, Eq)]
pub enum Class {
    Skipped,
    Comment,
    Tabs,
    LineEnd,
    Opener {
        kind: LiteralKind,
        is_raw: bool,
        quote: Quote,
    },
    Reserved,
    Identifier,
    Decimal,
    Hexadecimal,
    Octal,
    Binary,
    Float,
    Fixed(Terminal),
}

/// Hands the table of symbols, keywords and reserved words to a macro, after some arguments.
///
/// Words stand by their length in bytes. Reserved words follow the keywords of their length. Each
/// text is there as bytes and as a string, since no macro makes one of the other. After a name is the
/// number of its kind, which never changes: a new row has the next one. After a symbol's number is
/// whether it is an operator, punctuation, or a bracket.
#[macro_export]
macro_rules! terminals {
    ($with:ident!($($arguments:tt)*)) => {
        $with! {
            ($($arguments)*)
            symbols {
                1 {
                    [b','] "," Comma = 31 Punctuation,
                    [b';'] ";" Semicolon = 32 Punctuation,
                    [b':'] ":" Colon = 33 Punctuation,
                    [b'='] "=" Equal = 46 Operator,
                    [b'<'] "<" LessThan = 47 Operator,
                    [b'>'] ">" GreaterThan = 48 Operator,
                    [b'-'] "-" Minus = 49 Operator,
                    [b'+'] "+" Plus = 50 Operator,
                    [b'*'] "*" Star = 51 Operator,
                    [b'%'] "%" Percent = 52 Operator,
                    [b'/'] "/" Slash = 53 Operator,
                    [b'.'] "." Dot = 55 Punctuation,
                    [b'&'] "&" Ampersand = 56 Operator,
                    [b'|'] "|" Pipe = 57 Operator,
                    [b'^'] "^" Caret = 58 Operator,
                    [b'~'] "~" Tilde = 61 Operator,
                    [b'['] "[" OpeningSquare = 68 Bracket,
                    [b'{'] "{" OpeningCurly = 69 Bracket,
                    [b'('] "(" OpeningRound = 70 Bracket,
                    [b']'] "]" ClosingSquare = 71 Bracket,
                    [b'}'] "}" ClosingCurly = 72 Bracket,
                    [b')'] ")" ClosingRound = 73 Bracket,
                }
                2 {
                    [b'+', b'='] "+=" PlusEqual = 34 Operator,
                    [b'-', b'='] "-=" MinusEqual = 35 Operator,
                    [b'*', b'='] "*=" StarEqual = 36 Operator,
                    [b'/', b'='] "/=" SlashEqual = 37 Operator,
                    [b'%', b'='] "%=" PercentEqual = 39 Operator,
                    [b'=', b'='] "==" EqualEqual = 40 Operator,
                    [b'!', b'='] "!=" BangEqual = 41 Operator,
                    [b'<', b'='] "<=" LessEqual = 42 Operator,
                    [b'>', b'='] ">=" GreaterEqual = 43 Operator,
                    [b'&', b'='] "&=" AmpersandEqual = 62 Operator,
                    [b'|', b'='] "|=" PipeEqual = 63 Operator,
                    [b'^', b'='] "^=" CaretEqual = 64 Operator,
                    [b'*', b'*'] "**" StarStar = 44 Operator,
                    [b'/', b'/'] "//" SlashSlash = 54 Operator,
                    [b'<', b'<'] "<<" LessLess = 59 Operator,
                    [b'>', b'>'] ">>" GreaterGreater = 60 Operator,
                    [b'-', b'>'] "->" MinusGreater = 45 Operator,
                }
                3 {
                    [b'/', b'/', b'='] "//=" SlashSlashEqual = 38 Operator,
                    [b'<', b'<', b'='] "<<=" LessLessEqual = 65 Operator,
                    [b'>', b'>', b'='] ">>=" GreaterGreaterEqual = 66 Operator,
                    [b'.', b'.', b'.'] "..." Ellipsis = 67 Punctuation,
                }
            }
            names {
                2 {
                    b"in" "in" In = 24,
                    b"if" "if" If = 23,
                    b"or" "or" Or = 28,
                    ; b"as" "as", b"is" "is"
                }
                3 {
                    b"for" "for" For = 22,
                    b"def" "def" Def = 19,
                    b"not" "not" Not = 27,
                    b"and" "and" And = 16,
                    ; b"del" "del", b"try" "try"
                }
                4 {
                    b"load" "load" Load = 26,
                    b"else" "else" Else = 21,
                    b"elif" "elif" Elif = 20,
                    b"pass" "pass" Pass = 29,
                    ; b"from" "from", b"with" "with"
                }
                5 {
                    b"break" "break" Break = 17,
                    ; b"async" "async", b"await" "await", b"class" "class", b"raise" "raise", b"while" "while", b"yield" "yield"
                }
                6 {
                    b"return" "return" Return = 30,
                    b"lambda" "lambda" Lambda = 25,
                    ; b"assert" "assert", b"except" "except", b"global" "global", b"import" "import"
                }
                7 {
                    ; b"finally" "finally"
                }
                8 {
                    b"continue" "continue" Continue = 18,
                    ; b"nonlocal" "nonlocal"
                }
            }
        }
    };
}

/// A `match` whose arms for keywords and symbols an arm's macro writes, after the other arms. It is
/// given `"keyword"` or `"symbol"`, the name of the variant, the text, and the number.
#[macro_export]
macro_rules! match_terminals {
    (($of:expr, $type:ident, $arm:ident, { $($arms:tt)* })
    symbols { $($len:literal { $($bytes:tt $text:literal $symbol:ident = $number:literal $class:ident,)* })* }
    names { $($name_len:literal {
        $($name:literal $word:literal $keyword:ident = $keyword_number:literal,)*;
        $($reserved:literal $reserved_text:literal),*
    })* }) => {
        match $of {
            $($arms)*
            $($($type::$symbol => $arm!("symbol" $symbol $text $number),)*)*
            $($($type::$keyword => $arm!("keyword" $keyword $word $keyword_number),)*)*
        }
    };
}

/// The rows of symbols, by length.
macro_rules! symbol_rows {
    (() symbols { $($len:literal {
        $($bytes:tt $text:literal $name:ident = $number:literal $class:ident,)*
    })* } names $names:tt) => {
        ($([$(($bytes, Class::Fixed(Terminal::$name)),)*],)*)
    };
}

/// The rows of keywords and reserved words, by length.
macro_rules! name_rows {
    (() symbols $symbols:tt names { $($len:literal {
        $($bytes:literal $text:literal $name:ident = $number:literal,)*;
        $($reserved:literal $word:literal),*
    })* }) => {
        ($([
            $((*$bytes, Class::Fixed(Terminal::$name)),)*
            $((*$reserved, Class::Reserved),)*
        ],)*)
    };
}

/// The rows of keywords and symbols with their names and numbers.
macro_rules! kind_rows {
    (() symbols { $($len:literal { $($bytes:tt $text:literal $symbol:ident = $number:literal $class:ident,)* })* }
    names { $($name_len:literal {
        $($name:literal $word:literal $keyword:ident = $keyword_number:literal,)*;
        $($reserved:literal $reserved_text:literal),*
    })* }) => {
        [
            $($((Terminal::$symbol, stringify!($symbol), $number),)*)*
            $($((Terminal::$keyword, stringify!($keyword), $keyword_number),)*)*
        ]
    };
}

/// The symbols and keywords with the names and the numbers of their kinds.
pub const KINDS: [(Terminal, &str, u16); 58] = terminals!(kind_rows!());

/// The symbols with their classes: those of one byte, of two, and of three.
pub const SYMBOLS: (
    [([u8; 1], Class); 22],
    [([u8; 2], Class); 17],
    [([u8; 3], Class); 4],
) = terminals!(symbol_rows!());

/// The keywords and reserved words with their classes: those of two bytes, and so on up to eight.
pub const NAMES: (
    [([u8; 2], Class); 5],
    [([u8; 3], Class); 6],
    [([u8; 4], Class); 6],
    [([u8; 5], Class); 7],
    [([u8; 6], Class); 6],
    [([u8; 7], Class); 1],
    [([u8; 8], Class); 2],
) = terminals!(name_rows!());
