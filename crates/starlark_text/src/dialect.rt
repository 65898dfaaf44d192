//! Dialects of Starlark: which features of the language are allowed. The lexer checks none of them.

ghost use Rattle.std.specs.Prelude.{◌≡◌};

/// How a dialect treats type annotations.
#[derive(Clone, Copy, Debug, PartialEq, Eq, Hash)]
pub enum DialectTypes {
    /// Type annotations are not part of the language.
    Disable,
    /// Type annotations are parsed, and have no meaning at run time.
    ParseOnly,
    /// Type annotations are parsed, and checked at run time.
    Enable,
}

/// A dialect of Starlark: the features of the language that it allows.
///
/// A value to start from is one of the constants `Standard`, `Extended` and `AllOptionsInternal`.
/// `Standard` is the default.
#[derive(Clone, Debug, PartialEq, Eq, Hash, Drop)]
pub struct Dialect {
    /// Whether `def` statements are allowed.
    pub enable_def: bool,
    /// Whether `lambda` expressions are allowed.
    pub enable_lambda: bool,
    /// Whether `load` statements are allowed.
    pub enable_load: bool,
    /// Whether a parameter list may have `*`: parameters after it are passed by name only.
    pub enable_keyword_only_arguments: bool,
    /// Whether a parameter list may have `/`: parameters before it are passed by position only.
    pub enable_positional_only_arguments: bool,
    /// Whether type annotations are allowed, and what they do.
    pub enable_types: DialectTypes,
    /// Whether a name that a file gets by `load` can be loaded from that file in turn.
    pub enable_load_reexport: bool,
    /// Whether `for`, `if` and other statements are allowed outside of functions.
    pub enable_top_level_stmt: bool,
    /// Whether f-strings are allowed.
    pub enable_f_strings: bool,
    /// Says that later versions may have more fields: start from one of the constants.
    pub _non_exhaustive: (),
}

#[allow(non_upper_case_globals)]
impl Dialect {
    /// The language as its standard has it: `def`, `lambda`, `load`, and names loaded on.
    pub const Standard: Dialect = Dialect {
        enable_def: true,
        enable_lambda: true,
        enable_load: true,
        enable_keyword_only_arguments: false,
        enable_positional_only_arguments: false,
        enable_types: DialectTypes::Disable,
        enable_load_reexport: true,
        enable_top_level_stmt: false,
        enable_f_strings: false,
        _non_exhaustive: (),
    };

    /// The standard dialect with types, keyword-only parameters, and top-level statements.
    pub const Extended: Dialect = Dialect {
        enable_def: true,
        enable_lambda: true,
        enable_load: true,
        enable_keyword_only_arguments: true,
        enable_positional_only_arguments: false,
        enable_types: DialectTypes::Enable,
        enable_load_reexport: true,
        enable_top_level_stmt: true,
        enable_f_strings: false,
        _non_exhaustive: (),
    };

    /// Every feature: the extended dialect with positional-only parameters and f-strings.
    pub const AllOptionsInternal: Dialect = Dialect {
        enable_def: true,
        enable_lambda: true,
        enable_load: true,
        enable_keyword_only_arguments: true,
        enable_positional_only_arguments: true,
        enable_types: DialectTypes::Enable,
        enable_load_reexport: true,
        enable_top_level_stmt: true,
        enable_f_strings: true,
        _non_exhaustive: (),
    };
}

impl Default for Dialect {
    ghost use Rattle.starlark_text.specs.declared.dialect.TheConstants.Dialect.{Standard};

    ghost is_default = { λ dialect. dialect ≡ Standard };

    fn default() -> Dialect {
        Dialect::Standard
    }
}
