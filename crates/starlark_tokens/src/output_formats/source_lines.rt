//! The part of a line of the source that is shown around a fault.

ghost use Rattle.std.specs.Prelude.{◌≡◌, ◌==◌, ◌≤◌, ◌<◌, ◌+◌, ◌-◌, ◌||◌, ◌^◌, ℕ, length, nat_le, not, slice_index, take};
ghost use Rattle.std.specs.Str.{IsCharBoundary};
ghost use Rattle.starlark_tokens.specs.OutputFormats.SourceLines as spec;

use crate::output_formats::fault_lines::{line_back, line_front};

/// What is shown of a line around an offset.
#[derive(Clone, Copy)]
pub struct ShownLine<'a> {
    /// What is shown before the offset.
    pub front: &'a str,
    /// What is shown from it on.
    pub back: &'a str,
    /// Whether the line begins before `front`.
    pub is_cut_before: bool,
    /// Whether the line goes on after `back`.
    pub is_cut_after: bool,
}

/// The first character boundary of a text that isn't before byte `at`, or else the text's end.
pub fn boundary_from(text: &str, at: usize) -> usize
    ensures value { result ≡ spec.boundary_from text.now at }
    ensures boundary { IsCharBoundary text.now result }
    ensures first { (other : ℕ) → at ≤ other → IsCharBoundary text.now other → result ≤ other }
{
    text.ceil_char_boundary(at)
}

/// The line before byte `at` of a text, but only its last `room` bytes.
fn near_front(text: &str, at: usize, room: usize) -> &str
    requires { IsCharBoundary text.now at }
    ensures value { result.now ≡ spec.near_front room text.now at }
    ensures within { length result.now ≤ at }
{
    let from = boundary_from(text, at.saturating_sub(room));
    line_front(&text[from..], at - from)
}

/// The line from byte `at` of a text on, but only its first `room` bytes, and the rest of a
/// character.
pub fn near_back(text: &str, at: usize, room: usize) -> &str
    requires { IsCharBoundary text.now at }
    ensures value { result.now ≡ spec.near_back room text.now at }
    ensures within { at + length result.now ≤ length text.now }
{
    let to = boundary_from(text, at.saturating_add(room));
    line_back(&text[..to], at)
}

/// The room on one side, by the length of what is shown on the other: what that leaves is added.
fn room_beside(side: u16, len: usize) -> usize
    ensures { result ≡ spec.room_beside side len }
{
    let side = usize::from(side);
    side + side.saturating_sub(len)
}

/// Whether a line begins at byte `at` of a text.
fn begins_line(text: &str, at: usize) -> bool
    requires { at ≤ length text.now }
    ensures { result ≡ spec.begins_line text.now at }
{
    at == 0 || text.as_bytes()[at - 1] == b'\n'
}

/// Whether a line ends at byte `at` of a text.
pub fn ends_line(text: &str, at: usize) -> bool
    requires { at ≤ length text.now }
    ensures { result ≡ spec.ends_line text.now at }
{
    at == text.len() || text.as_bytes()[at] == b'\n'
}

/// What is shown of the line before byte `at` of a text.
#[tactic(auto, unfolding(crate::specs::OutputFormats::SourceLines::shown_front))]
fn shown_front(text: &str, at: usize, side: u16) -> &str
    requires { IsCharBoundary text.now at }
    ensures value { result.now ≡ spec.shown_front side text.now at }
    ensures within { length result.now ≤ at }
{
    let near = near_back(text, at, usize::from(side));
    near_front(text, at, room_beside(side, near.len()))
}

/// What is shown of the line from byte `at` of a text on.
#[tactic(auto, unfolding(crate::specs::OutputFormats::SourceLines::shown_back))]
fn shown_back(text: &str, at: usize, side: u16) -> &str
    requires { IsCharBoundary text.now at }
    ensures value { result.now ≡ spec.shown_back side text.now at }
    ensures within { at + length result.now ≤ length text.now }
{
    let front = shown_front(text, at, side);
    near_back(text, at, room_beside(side, front.len()))
}

/// What is shown of the line around byte `at` of a text.
#[tactic(auto, unfolding(crate::specs::OutputFormats::SourceLines::is_cut_before, crate::specs::OutputFormats::SourceLines::is_cut_after))]
pub fn shown_line(text: &str, at: usize, side: u16) -> ShownLine<'_>
    requires { IsCharBoundary text.now at }
    ensures front { result.front.now ≡ spec.shown_front side text.now at }
    ensures back { result.back.now ≡ spec.shown_back side text.now at }
    ensures is_cut_before { result.is_cut_before ≡ spec.is_cut_before side text.now at }
    ensures is_cut_after { result.is_cut_after ≡ spec.is_cut_after side text.now at }
{
    let front = shown_front(text, at, side);
    let back = shown_back(text, at, side);
    ShownLine {
        front,
        back,
        is_cut_before: !begins_line(text, at - front.len()),
        is_cut_after: !ends_line(text, at + back.len()),
    }
}
