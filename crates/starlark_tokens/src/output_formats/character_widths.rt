//! Number of columns of a terminal that a character takes.

ghost use Rattle.std.specs.Prelude.{◌≡◌};
ghost use Rattle.starlark_tokens.specs.OutputFormats.CharacterWidths as spec;

mod table;

use self::table::{COMBINING, WIDE};

/// The first character that isn't one column wide.
const FIRST: char = '\u{300}';

/// Whether a character is in one of some ranges.
fn is_in(ranges: &[(char, char)], character: char) -> bool
    ensures { result ≡ spec.is_in ranges.now character }
{
    for (first, last) in ranges {
        if *first <= character && character <= *last {
            return true;
        }
    }
    false
}

/// Number of columns of a terminal that a character takes: 0 where it combines with the one before
/// it, 2 where it is wide, else 1. A control character counts as one column.
pub fn width(character: char) -> usize
    ensures { result ≡ spec.width character }
{
    if character < FIRST {
        return 1;
    }
    if is_in(COMBINING, character) {
        return 0;
    }
    if is_in(WIDE, character) { 2 } else { 1 }
}
