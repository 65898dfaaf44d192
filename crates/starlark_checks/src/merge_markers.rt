//! The lines that a merge leaves where it finds a conflict.

ghost use Rattle.std.specs.Prelude.{◌≡◌, ◌≤◌, ◌+◌, ◌==◌, IsTrue, length};
ghost use Rattle.std.specs.List.{prefix_len};
ghost use Rattle.starlark_checks.specs.MergeMarkers.{begins_line, is_marker, marker_at, marker_ends};

use crate::check::{Check, Finding};

/// Number of equal bytes at the front of a merge marker.
const MARKER_LEN: usize = 7;

/// Whether a line begins at an offset of a text.
fn begins_line(text: &[u8], at: usize) -> bool
    ensures { result ≡ begins_line text.now at }
{
    if at == 0 {
        return true;
    }
    text.get(at - 1) == Some(&b'\n')
}

/// Whether a merge marker may be right before a byte, or before the end of the text.
fn marker_ends(next: Option<u8>) -> bool
    ensures { result ≡ marker_ends next }
{
    matches!(next, None | Some(b' ' | b'\r' | b'\n'))
}

/// How many of a byte are at the front of a line.
fn run_len(line: &[u8], byte: u8) -> usize
    ensures value { result ≡ prefix_len (λ b. b == byte) line.now }
    ensures within { result ≤ length line.now }
{
    line.iter().take_while(|b| **b == byte).count()
}

/// Whether a line is a merge marker: seven of a byte, and then a space or the end of the line.
fn is_marker(line: &[u8], byte: u8) -> bool
    ensures value { result ≡ is_marker line.now byte }
    ensures len { IsTrue result → 7 ≤ length line.now }
{
    run_len(line, byte) == MARKER_LEN && marker_ends(line.get(MARKER_LEN).copied())
}

/// The merge marker of a byte at an offset of a text, if one is there.
pub(crate) fn marker_at(text: &[u8], begin: usize, byte: u8) -> Option<Finding>
    ensures { result ≡ marker_at text.now begin byte }
{
    let line = text.get(begin..)?;
    if begins_line(text, begin) && is_marker(line, byte) {
        Some(Finding::at(Check::MergeMarker, begin, begin + MARKER_LEN))
    } else {
        None
    }
}
