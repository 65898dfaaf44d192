//! Texts and bytes as Python writes them, on one line.

ghost use Rattle.std.specs.Prelude.{◌≡◌, ◌<◌, ◌++◌, [], ◌∷◌, OnOk, string_bytes};
ghost use Rattle.std.specs.List.{flat_map};
ghost use Rattle.std.specs.Str.{chars};
ghost use Rattle.starlark_tokens.specs.OutputFormats.PythonLiterals as spec;

use starlark_run::printed_values::push_hex_pair;
use std::alloc::AllocError;

/// Appends a number as four hexadecimal digits.
fn push_hex_four(line: &mut String, number: u16) -> Result<(), AllocError>
    ensures { OnOk result (string_bytes line.new ≡ string_bytes line.old ++ spec.hex_four number) }
{
    push_hex_pair(line, (number / 256) as u8)?;
    push_hex_pair(line, (number % 256) as u8)
}

/// Appends a character by its number: `\x`, `\u` or `\U` and hexadecimal digits.
#[tactic(auto, unfolding(crate::specs::OutputFormats::PythonLiterals::numbered))]
fn push_numbered(line: &mut String, character: char) -> Result<(), AllocError>
    ensures { OnOk result (string_bytes line.new ≡ string_bytes line.old ++ spec.numbered character) }
{
    let number = character as u32;
    if number < 256 {
        line.push_str("\\x")?;
        return push_hex_pair(line, number as u8);
    }
    if number < 65_536 {
        line.push_str("\\u")?;
        return push_hex_four(line, number as u16);
    }
    line.push_str("\\U")?;
    push_hex_four(line, (number / 65_536) as u16)?;
    push_hex_four(line, (number % 65_536) as u16)
}

/// Appends a character that isn't shown as it is.
fn push_hidden(line: &mut String, character: char) -> Result<(), AllocError>
    ensures { OnOk result (string_bytes line.new ≡ string_bytes line.old ++ spec.hidden_text character) }
{
    match character {
        '\t' => line.push_str("\\t"),
        '\n' => line.push_str("\\n"),
        '\r' => line.push_str("\\r"),
        _ => push_numbered(line, character),
    }
}

/// Whether a character is one of those from `first` to `last`.
fn is_between(first: char, last: char, character: char) -> bool
    ensures { result ≡ spec.is_between first last character }
{
    first <= character && character <= last
}

/// Whether a character is in one of the ranges that aren't shown as they are.
#[tactic(auto, unfolding(crate::specs::OutputFormats::PythonLiterals::is_hidden))]
fn is_in_hidden_range(c: char) -> bool
    ensures { result ≡ spec.is_hidden c }
{
    is_between('\0', '\x1f', c)
        | is_between('\x7f', '\u{a0}', c)
        | is_between('\u{ad}', '\u{ad}', c)
        | is_between('\u{1680}', '\u{1680}', c)
        | is_between('\u{2000}', '\u{200f}', c)
        | is_between('\u{2028}', '\u{202f}', c)
        | is_between('\u{205f}', '\u{206f}', c)
        | is_between('\u{3000}', '\u{3000}', c)
        | is_between('\u{e000}', '\u{f8ff}', c)
        | is_between('\u{feff}', '\u{feff}', c)
        | is_between('\u{fff0}', '\u{fffb}', c)
        | is_between('\u{e0000}', '\u{e007f}', c)
        | is_between('\u{f0000}', '\u{10ffff}', c)
}

/// Whether a character isn't shown as it is: a control, a space other than the plain one, a line
/// or paragraph separator, a mark that directs or joins, or one for private use.
pub fn is_hidden(c: char) -> bool
    ensures { result ≡ spec.is_hidden c }
{
    if c < '\x7f' {
        return c < ' ';
    }
    is_in_hidden_range(c)
}

/// Appends an ASCII character.
pub fn push_ascii(line: &mut String, character: char) -> Result<(), AllocError>
    requires { character < 128 }
    ensures { OnOk result (string_bytes line.new ≡ string_bytes line.old ++ character ∷ []) }
{
    line.push(character)
}

/// Appends a character as it is on one line, without quotes around it.
#[tactic(auto, unfolding(crate::specs::OutputFormats::PythonLiterals::line_char))]
fn push_line_char(line: &mut String, character: char) -> Result<(), AllocError>
    ensures { OnOk result (string_bytes line.new ≡ string_bytes line.old ++ spec.line_char character) }
{
    if is_hidden(character) {
        return push_hidden(line, character);
    }
    line.push(character)
}

/// Appends a text on one line, without quotes around it.
pub fn push_one_line(line: &mut String, text: &str) -> Result<(), AllocError>
    ensures { OnOk result (string_bytes line.new ≡ string_bytes line.old ++ spec.one_line text.now) }
{
    for character in text.chars() {
        push_line_char(line, character)?;
    }
    Ok(())
}

/// Appends a character of a text that has this quote around it.
#[tactic(auto, unfolding(crate::specs::OutputFormats::PythonLiterals::quoted_char))]
fn push_quoted_char(line: &mut String, quote: char, character: char) -> Result<(), AllocError>
    requires { quote < 128 }
    ensures { OnOk result (string_bytes line.new ≡ string_bytes line.old ++ spec.quoted_char quote character) }
{
    if character == '\\' || character == quote {
        push_ascii(line, '\\')?;
        return push_ascii(line, character);
    }
    push_line_char(line, character)
}

/// Appends a byte of bytes that have this quote around them.
#[tactic(auto, unfolding(crate::specs::OutputFormats::PythonLiterals::quoted_byte))]
fn push_quoted_byte(line: &mut String, quote: char, byte: u8) -> Result<(), AllocError>
    requires { quote < 128 }
    ensures { OnOk result (string_bytes line.new ≡ string_bytes line.old ++ spec.quoted_byte quote byte) }
{
    let character = byte as char;
    if character == '\\' || character == quote {
        push_ascii(line, '\\')?;
        return push_ascii(line, character);
    }
    if is_between(' ', '~', character) {
        return push_ascii(line, character);
    }
    push_hidden(line, character)
}

/// Whether some bytes have a byte among them.
fn has_byte(bytes: &[u8], wanted: u8) -> bool
    ensures { result ≡ spec.has_byte wanted bytes.now }
{
    bytes.iter().any(|byte| *byte == wanted)
}

/// The quote around some bytes: a double one if they have single quotes and no double ones.
fn quote_of(bytes: &[u8]) -> char
    ensures value { result ≡ spec.quote_of bytes.now }
    ensures ascii { result < 128 }
{
    if has_byte(bytes, b'\'') && !has_byte(bytes, b'"') {
        '"'
    } else {
        '\''
    }
}

/// Appends the characters of a text that has this quote around it.
fn push_quoted_chars(line: &mut String, quote: char, text: &str) -> Result<(), AllocError>
    requires { quote < 128 }
    ensures { OnOk result (string_bytes line.new ≡ string_bytes line.old ++ flat_map (spec.quoted_char quote) (chars text.now)) }
{
    for character in text.chars() {
        push_quoted_char(line, quote, character)?;
    }
    Ok(())
}

/// Appends a text in quotes, as Python writes it.
#[tactic(auto, unfolding(crate::specs::OutputFormats::PythonLiterals::quoted))]
pub fn push_quoted(line: &mut String, text: &str) -> Result<(), AllocError>
    ensures { OnOk result (string_bytes line.new ≡ string_bytes line.old ++ spec.quoted text.now) }
{
    let quote = quote_of(text.as_bytes());
    push_ascii(line, quote)?;
    push_quoted_chars(line, quote, text)?;
    push_ascii(line, quote)
}

/// Appends the bytes that have this quote around them.
fn push_quoted_all(line: &mut String, quote: char, bytes: &[u8]) -> Result<(), AllocError>
    requires { quote < 128 }
    ensures { OnOk result (string_bytes line.new ≡ string_bytes line.old ++ flat_map (spec.quoted_byte quote) bytes.now) }
{
    for &byte in bytes {
        push_quoted_byte(line, quote, byte)?;
    }
    Ok(())
}

/// Appends bytes in quotes after a `b`, as Python writes them.
#[tactic(auto, unfolding(crate::specs::OutputFormats::PythonLiterals::quoted_bytes))]
pub fn push_quoted_bytes(line: &mut String, bytes: &[u8]) -> Result<(), AllocError>
    ensures { OnOk result (string_bytes line.new ≡ string_bytes line.old ++ spec.quoted_bytes bytes.now) }
{
    let quote = quote_of(bytes);
    push_ascii(line, 'b')?;
    push_ascii(line, quote)?;
    push_quoted_all(line, quote, bytes)?;
    push_ascii(line, quote)
}

/// Whether a character is shown as it is, and neither begins nor ends a quoted text.
fn is_plain(c: char) -> bool
    ensures { result ≡ spec.is_plain c }
{
    !(is_hidden(c) || c == '"' || c == '\'' || c == '\\')
}

/// Whether a text has only plain characters.
fn are_plain(text: &str) -> bool
    ensures { result ≡ spec.are_plain (chars text.now) }
{
    for character in text.chars() {
        if !is_plain(character) {
            return false;
        }
    }
    true
}

/// Appends a name: as it is if it has only plain characters, or else in quotes.
#[tactic(auto, unfolding(crate::specs::OutputFormats::PythonLiterals::shown_name))]
pub fn push_name(line: &mut String, name: &str) -> Result<(), AllocError>
    ensures { OnOk result (string_bytes line.new ≡ string_bytes line.old ++ spec.shown_name name.now) }
{
    if are_plain(name) {
        return line.push_str(name);
    }
    push_quoted(line, name)
}
