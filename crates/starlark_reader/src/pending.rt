//! Pending lexemes: read already, and made one by one as the lexer yields them.

ghost use Rattle.std.specs.Prelude.{◌≡◌, ◌<◌, ◌≤◌, ◌+◌, ◌-◌, ◌*◌, [], drop, length, nat_lt, true, None, Some, OnErr, OnOk, IfOk, IfSome};
ghost use Rattle.starlark_reader.specs.Inner.Pending.{IsCommentIn, IsFirst, IsFirstAfter, IsFirstPast, IsPendingToken, IsPending, comment_lexeme, lexemes_after, owed, pending_lexemes};
ghost use Rattle.starlark_reader.specs.Inner.MarginLines.{IsLinePassed, IsPassedLine};
ghost use Rattle.starlark_grammar.specs.Margins as grammar;
ghost use Rattle.starlark_grammar.specs.Words.{Text};
ghost use Rattle.starlark_reader.specs.Inner.PieceViews.{text_end};
ghost use Rattle.starlark_token.specs.TokenViews.{Whole, token_view};
ghost use Rattle.starlark_words.specs.Inner.Reads.{more_reads};

use starlark_token::tokens::Token;
use starlark_words::lines::front_len;
use starlark_words::reads::ReadCounter;

/// The lexemes that are pending after the comments. Offsets count bytes.
#[derive(Clone, Copy)]
pub enum AfterComments {
    /// `count` `Dedent`s at one offset; none if `count` is 0.
    Dedents {
        at: usize,
        count: usize,
    },
    /// One `Indent`.
    Indent {
        begin: usize,
        end: usize,
    },
    /// What ends a text of an f-string.
    ChunkEnd {
        begin: usize,
        before_expression: bool,
        end: usize,
    },
}

/// All pending lexemes: the comments of some comment-only lines, and what is pending after them.
///
/// Offsets count bytes.
#[derive(Clone, Copy)]
pub struct Pending {
    /// Start of the comment-only lines whose comments are pending.
    pub from: usize,
    /// End of those lines. There are none if it equals `from`.
    pub to: usize,
    /// The lexemes that are pending after the comments.
    pub remainder: AfterComments,
    /// Whether no indent is open before the comments, and no lexeme after them was yielded yet.
    pub is_flat: bool,
}

/// What ends a text of an f-string: the `{` before an expression, or the closing quotes.
#[tactic(auto, unfolding(starlark_token::specs::TokenViews::token_view))]
pub(crate) fn text_end(before_expression: bool) -> Token
    ensures { token_view result ≡ Whole (text_end before_expression) }
{
    if before_expression {
        Token::FStringExprStart
    } else {
        Token::FStringEnd
    }
}

/// Number of blanks before the comment of some comment-only lines. The caller has to count their
/// reads, and that of the `#`.
// By the `#` alone: that is one comparison a byte, and not three.
#[inline(always)]
fn before_comment_len(lines: &[u8]) -> usize
    requires comment { grammar.begins_comment (drop (grammar.blanks_len lines.now) lines.now) ≡ true }
    ensures value { result ≡ grammar.blanks_len lines.now }
    ensures within { result ≤ length lines.now }
{
    let mut len = 0;
    while len < lines.len() && lines[len] != b'#' {
        len += 1;
    }
    len
}

impl AfterComments {
    /// No pending lexeme.
    pub const fn nothing() -> Self
        ensures { lexemes_after result ≡ [] }
    {
        AfterComments::Dedents { at: 0, count: 0 }
    }

    /// Takes the first pending lexeme; `None` if there is none.
    #[tactic(auto, unfolding(starlark_token::specs::TokenViews::token_view))]
    fn next(&mut self) -> Option<(usize, Token, usize)>
        ensures first { IsFirstAfter self.old self.new result }
        ensures kind { IfSome result (λ lexeme. IsPendingToken (token_view lexeme.1)) }
    {
        match *self {
            AfterComments::Dedents { at, count } => {
                let left = count.checked_sub(1)?;
                *self = AfterComments::Dedents { at, count: left };
                Some((at, Token::Dedent, at))
            }
            AfterComments::Indent { begin, end } => {
                *self = AfterComments::nothing();
                Some((begin, Token::Indent, end))
            }
            AfterComments::ChunkEnd {
                begin,
                before_expression,
                end,
            } => {
                *self = AfterComments::nothing();
                Some((begin, text_end(before_expression), end))
            }
        }
    }
}

impl Pending {
    /// No pending lexeme and no comment.
    pub(crate) fn nothing() -> Self
        ensures { (text : Text) → (pending_lexemes text result ≡ []) × IsPending text result }
    {
        Pending::only(AfterComments::nothing())
    }

    /// Pending lexemes without comments before them.
    pub(crate) fn only(remainder: AfterComments) -> Self
        ensures { (text : Text) → (pending_lexemes text result ≡ lexemes_after remainder) × IsPending text result }
    {
        Pending {
            from: 0,
            to: 0,
            remainder,
            is_flat: false,
        }
    }

    /// Makes the comments of the lines from byte `from` to `to` pending, before the other lexemes.
    #[inline(always)]
    pub(crate) fn wait_for_comments(&mut self, from: usize, to: usize, is_flat: bool)
        ensures { self.new ≡ record self.old { from = from; to = to; is_flat = is_flat } }
    {
        self.from = from;
        self.to = to;
        self.is_flat = is_flat;
    }

    /// Whether no lexeme is pending.
    #[inline(always)]
    pub fn is_nothing(&self) -> bool
        ensures { result ≡ true → (text : Text) → pending_lexemes text self.now ≡ [] }
    {
        if self.has_comments() {
            return false;
        }
        match self.remainder {
            AfterComments::Dedents { count, .. } => count == 0,
            _ => false,
        }
    }

    /// Whether comments are pending.
    #[inline(always)]
    pub fn has_comments(&self) -> bool
        ensures { result ≡ nat_lt self.now.from self.now.to }
    {
        self.from < self.to
    }

    /// Passes the first pending comment. Returns the offsets where it begins and ends.
    #[inline(always)]
    pub fn pass_comment(&mut self, reads: &mut ReadCounter, text: &str) -> (usize, usize)
        requires some { self.old.from < self.old.to }
        requires pending { IsPending text.now self.old }
        ensures next { IsFirstPast text.now (comment_lexeme text.now result.0 result.1) self.old self.new }
        ensures inside { IsCommentIn text.now result.0 result.1 }
        ensures lines { self.new.is_flat ≡ true → IsPassedLine text.now self.old self.new }
        ensures flat { self.new.is_flat ≡ self.old.is_flat }
        ensures least { more_reads reads.old (self.new.from - self.old.from + 2) ≤ reads.new }
        ensures reads { (more_reads reads.old 0 ≤ reads.new) × (reads.new + 5 * owed self.new ≤ reads.old + 5 * owed self.old) }
    {
        let from = self.from;
        let lines = &text.as_bytes()[from..self.to];
        let blanks = before_comment_len(lines);
        // The blanks, the `#` and the line's last byte are counted with the line.
        let feed = blanks + front_len(reads, blanks + 2, &lines[blanks..], b'\n');
        let end = if lines[feed - 1] == b'\r' {
            feed - 1
        } else {
            feed
        };
        self.from += (feed + 1).min(lines.len());
        (from + blanks, from + end)
    }

    /// Takes the first pending lexeme where no comments are pending; `None` if there is none.
    #[inline(always)]
    pub fn next_token(&mut self) -> Option<(usize, Token, usize)>
        requires none { self.old.to ≤ self.old.from }
        ensures next { (text : Text) → IsPending text self.old → IsFirst text self.old self.new result }
        ensures lines { (text : Text) → IsLinePassed text self.old self.new result }
        ensures place { (self.new.from ≡ self.old.from) × (self.new.to ≡ self.old.to) }
        ensures stays { result ≡ None → self.new ≡ self.old }
        ensures kind { IfSome result (λ lexeme. IsPendingToken (token_view lexeme.1)) }
    {
        let first = self.remainder.next()?;
        self.is_flat = false;
        Some(first)
    }
}
