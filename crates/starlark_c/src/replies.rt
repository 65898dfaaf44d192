//! What a call on a document replies, and the status that says so.

ghost use Rattle.std.specs.Prelude.{◌≡◌};
ghost use Rattle.starlark_c.specs.Replies.{change_record, reply_status};

use crate::outcomes::{FULL, MEMORY, NOT_UTF8, TOO_LONG, WHOLE};
use starlark_document::Change;

/// The status of a call whose range isn't one of the text.
pub const BAD_RANGE: u32 = 6;

/// The status of a call on a handle without a document.
pub const CLOSED: u32 = 7;

/// The status of a call that would open a second document in a handle.
pub const OPENED: u32 = 8;

/// What a call on a document replies.
#[derive(Clone, Copy)]
pub enum Reply {
    /// It is done.
    Done,
    /// The caller's buffer has no room.
    Full,
    /// The bytes aren't UTF-8.
    NotUtf8,
    /// The text would have more than 4294967295 bytes.
    TooLong,
    /// Memory ran out.
    Memory,
    /// The range isn't one of the text.
    BadRange,
    /// The handle has no document.
    Closed,
    /// The handle has a document already.
    Opened,
}

impl Reply {
    /// The status that a call returns.
    pub fn status(self) -> u32
        ensures { result ≡ reply_status self }
    {
        match self {
            Reply::Done => WHOLE,
            Reply::Full => FULL,
            Reply::NotUtf8 => NOT_UTF8,
            Reply::TooLong => TOO_LONG,
            Reply::Memory => MEMORY,
            Reply::BadRange => BAD_RANGE,
            Reply::Closed => CLOSED,
            Reply::Opened => OPENED,
        }
    }
}

/// What an edit changed: a `Change` of a document as a plain record.
#[repr(C)]
#[derive(Clone, Copy)]
pub struct ChangeRecord {
    /// Start of the range, in bytes of either text.
    pub begin: usize,
    /// End of the range in the old text.
    pub old_end: usize,
    /// End of the range in the new text.
    pub new_end: usize,
    /// Number of bytes that were given to the lexer.
    pub lexed: usize,
    /// How often lexing started.
    pub starts: usize,
    /// Number of reads of bytes.
    pub reads: u64,
}

impl ChangeRecord {
    /// The record of a change.
    pub fn of(change: Change) -> ChangeRecord
        ensures { result ≡ change_record change }
    {
        ChangeRecord {
            begin: change.begin,
            old_end: change.old_end,
            new_end: change.new_end,
            lexed: change.lexed,
            starts: change.starts,
            reads: change.reads,
        }
    }
}
