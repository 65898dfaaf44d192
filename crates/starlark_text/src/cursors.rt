//! Cursors over a text, by bytes and by characters. Offsets count bytes.

ghost use Rattle.std.specs.Prelude.{◌≡◌, ◌+◌, ◌-◌, IfSome, drop, slice_get};
ghost use Rattle.std.specs.Char.{len_utf8};
ghost use Rattle.std.specs.Str.{IsCharBoundary, chars};
ghost use Rattle.starlark_text.specs.Cursors.{byte_at, char_at, past_byte, past_char, EndsAt, IsCharBefore};

use std::marker::Model;

/// A cursor that moves through a text byte by byte.
#[derive(Drop)]
pub struct CursorBytes<'a> {
    text: &'a str,
    at: usize,
}

impl<'a> Model for CursorBytes<'a> {
    ghost use Rattle.std.specs.Prelude.{◌≤◌, length};
    ghost use Rattle.starlark_text.specs.Cursors.{Cursor};

    ghost Value = { Cursor };

    ghost view = { λ cursor. record { text = cursor.text.now; at = cursor.at } };

    ghost invariant = { λ cursor. cursor.at ≤ length cursor.text.now };
}

impl<'a> CursorBytes<'a> {
    /// A cursor at the start of a text.
    pub fn new(x: &'a str) -> CursorBytes<'a>
        ensures { result ≡ record { text = x.now; at = 0 } }
    {
        CursorBytes { text: x, at: 0 }
    }

    /// Returns the byte at the cursor and moves past it; `None` at the end of the text.
    pub fn next(&mut self) -> Option<u8>
        ensures answer { result ≡ byte_at self.old }
        ensures after { self.new ≡ past_byte self.old }
    {
        let byte = *self.text.as_bytes().get(self.at)?;
        self.at += 1;
        Some(byte)
    }

    /// Returns the byte at the cursor as a `char` and moves past it; `None` at the end of the text.
    ///
    /// A byte of 128 or more becomes the character of that number, which is not one of the text.
    pub fn next_char(&mut self) -> Option<char>
        ensures answer { result ≡ byte_at self.old }
        ensures after { self.new ≡ past_byte self.old }
    {
        let byte = self.next()?;
        Some(char::from(byte))
    }

    /// Offset of the cursor, in bytes from the start of the text.
    pub fn pos(&self) -> usize
        ensures { result ≡ self.now.at }
    {
        self.at
    }
}

/// The character that begins at byte `at` of a text; `None` at the end of the text.
pub(crate) fn char_from(text: &str, at: usize) -> Option<char>
    requires { IsCharBoundary text.now at }
    ensures answer { result ≡ slice_get (chars (drop at text.now)) 0 }
    ensures remainder { IfSome result (λ c. IsCharBoundary text.now (at + len_utf8 c)) }
    ensures before { IfSome result (λ c. EndsAt text.now (at + len_utf8 c) c) }
{
    text[at..].chars().next()
}

/// Offset at which the character `c` begins that ends at byte `at`.
fn place_before(text: &str, at: usize, c: char) -> usize
    requires boundary { IsCharBoundary text.now at }
    requires character { EndsAt text.now at c }
    ensures value { result ≡ at - len_utf8 c }
    ensures boundary { IsCharBoundary text.now result }
{
    at - c.len_utf8()
}

/// A cursor that moves through a text character by character, forward and back.
#[derive(Drop)]
pub struct CursorChars<'a> {
    text: &'a str,
    at: usize,
}

impl<'a> Model for CursorChars<'a> {
    ghost use Rattle.std.specs.Str.{IsCharBoundary};
    ghost use Rattle.starlark_text.specs.Cursors.{Cursor};

    ghost Value = { Cursor };

    ghost view = { λ cursor. record { text = cursor.text.now; at = cursor.at } };

    ghost invariant = { λ cursor. IsCharBoundary cursor.text.now cursor.at };
}

impl<'a> CursorChars<'a> {
    /// A cursor at byte `offset` of a text, which must be a character boundary.
    pub fn new_offset(x: &'a str, offset: usize) -> CursorChars<'a>
        requires { IsCharBoundary x.now offset }
        ensures { result ≡ record { text = x.now; at = offset } }
    {
        CursorChars {
            text: x,
            at: offset,
        }
    }

    /// Returns the character at the cursor and moves past it; `None` at the end of the text.
    pub fn next(&mut self) -> Option<char>
        ensures answer { result ≡ char_at self.old }
        ensures after { self.new ≡ past_char self.old }
        ensures before { IfSome result (IsCharBefore self.new) }
    {
        let character = char_from(self.text, self.at)?;
        self.at += character.len_utf8();
        Some(character)
    }

    /// Moves back over the character `c`, which must be the one that ends at the cursor.
    pub fn unnext(&mut self, c: char)
        requires { IsCharBefore self.old c }
        ensures { self.new ≡ record self.old { at = self.old.at - len_utf8 c } }
    {
        self.at = place_before(self.text, self.at, c);
    }

    /// Offset of the cursor, in bytes from the start of the text.
    pub fn pos(&self) -> usize
        ensures { result ≡ self.now.at }
    {
        self.at
    }

    /// The character at the cursor, without moving; `None` at the end of the text.
    pub fn peek(&self) -> Option<char>
        ensures { result ≡ char_at self.now }
    {
        char_from(self.text, self.at)
    }
}
