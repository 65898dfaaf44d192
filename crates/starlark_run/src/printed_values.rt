//! Parts of printed values: bytes in hexadecimal digits, and names of quotes.

ghost use Rattle.std.specs.Prelude.{◌≡◌, ◌<◌, ◌++◌, OnOk, string_bytes};
ghost use Rattle.std.specs.Char.{digit_char};
ghost use Rattle.starlark_run.specs.Output.{hex, hex_pair, quotes_name};
ghost use Rattle.starlark_token.specs.TokenViews.{fstring_quote_view};

use starlark_token::fstring_style::FStringQuote;
use std::alloc::AllocError;

/// The hexadecimal digit of a number less than 16.
fn hex_digit(number: u8) -> char
    requires { number < 16 }
    ensures { result ≡ digit_char number }
{
    char::from_digit(number as u32, 16).unwrap()
}

/// Appends a byte as two hexadecimal digits.
pub fn push_hex_pair(line: &mut String, byte: u8) -> Result<(), AllocError>
    ensures { OnOk result (string_bytes line.new ≡ string_bytes line.old ++ hex_pair byte) }
{
    line.push(hex_digit(byte / 16))?;
    line.push(hex_digit(byte % 16))
}

/// Appends each byte as two hexadecimal digits.
pub fn push_hex(line: &mut String, bytes: &[u8]) -> Result<(), AllocError>
    ensures { OnOk result (string_bytes line.new ≡ string_bytes line.old ++ hex bytes.now) }
{
    for &byte in bytes {
        push_hex_pair(line, byte)?;
    }
    Ok(())
}

/// The printed name of an f-string's quotes.
pub fn quotes_of(quote: FStringQuote) -> &'static str
    ensures { result.now ≡ quotes_name (fstring_quote_view quote) }
{
    match quote {
        FStringQuote::Single => "Single",
        FStringQuote::Double => "Double",
        FStringQuote::TripleSingle => "TripleSingle",
        FStringQuote::TripleDouble => "TripleDouble",
    }
}
