//! An edit of a text.

/// An edit of a text: the bytes from `from` to `to` are replaced by `text`.
///
/// It fits a text if `from` is at most `to`, and both are character boundaries of the text.
#[derive(Clone, Copy, Debug, PartialEq, Eq)]
pub struct Edit<'a> {
    /// Offset of the first byte to replace.
    pub from: usize,
    /// Offset after the last byte to replace. It equals `from` in an insertion.
    pub to: usize,
    /// The text to put there. It is empty in a deletion.
    pub text: &'a str,
}
