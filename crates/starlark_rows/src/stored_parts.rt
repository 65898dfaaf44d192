//! Parts of standard input, and the lines and texts in a part.

use std::io;
use std::io::ErrorKind;

/// A part of standard input, which has a name and bytes.
#[derive(Clone, Copy)]
pub struct StoredPart<'b> {
    pub name: &'b str,
    pub bytes: &'b [u8],
}

/// The error for standard input that is no list of parts, or for a part that is no list of records.
pub fn invalid_data() -> io::Error {
    io::Error::from(ErrorKind::InvalidData)
}

/// The line at the front of bytes, and what follows its LF; `None` if there is no LF.
pub fn first_line(stored: &[u8]) -> Option<(&str, &[u8])> {
    let line_end = stored.iter().position(|&byte| byte == b'\n')?;
    let line = str::from_utf8(&stored[..line_end]).ok()?;
    Some((line, &stored[line_end + 1..]))
}

/// The part at the front of bytes, and what follows it; `None` if no part begins there.
pub fn first_part(stored: &[u8]) -> Option<(StoredPart<'_>, &[u8])> {
    let (line, after) = first_line(stored)?;
    let (name, len) = line.strip_prefix("part ")?.split_once(' ')?;
    let (bytes, after) = after.split_at_checked(len.parse().ok()?)?;
    Some((StoredPart { name, bytes }, after))
}

/// The `len` bytes at the front of bytes, and what follows the LF after them.
pub fn first_bytes(stored: &[u8], len: usize) -> Option<(&[u8], &[u8])> {
    let (bytes, after) = stored.split_at_checked(len)?;
    Some((bytes, after.strip_prefix(b"\n")?))
}

/// The text of `len` bytes at the front of bytes, and what follows the LF after it.
pub fn first_text(stored: &[u8], len: usize) -> Option<(&str, &[u8])> {
    let (bytes, after) = first_bytes(stored, len)?;
    Some((str::from_utf8(bytes).ok()?, after))
}
