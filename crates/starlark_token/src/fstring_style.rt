//! The quotes of f-strings, and their conversions.

/// The quotes around an f-string.
#[derive(Clone, Copy, Debug, PartialEq, Eq)]
pub enum FStringQuote {
    /// `f'...'`.
    Single,
    /// `f"..."`.
    Double,
    /// `f'''...'''`.
    TripleSingle,
    /// `f"""..."""`.
    TripleDouble,
}

/// The conversion of an f-string's expression: how its value becomes text.
///
/// It is for parsers: no token has it. The default is no conversion.
#[derive(Clone, Copy, Debug, Default, PartialEq, Eq)]
pub enum FStringConv {
    /// `{expression}`, with no conversion.
    #[default]
    None,
    /// `{expression!s}`, as `str` does.
    Str,
    /// `{expression!r}`, as `repr` does.
    Repr,
}
