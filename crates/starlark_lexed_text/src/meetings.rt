//! Where lexing meets a text that is lexed already.

ghost use Rattle.std.specs.Prelude.{[], ◌≡◌, ◌<◌, ◌≤◌, ◌+◌, ◌++◌, Some, IfSome, OnErr, OnOk, drop, false, length, map, take, true};
ghost use Rattle.std.specs.List.{AllByRecursion};
ghost use Rattle.starlark_grammar.specs.Words.{Text};
ghost use Rattle.starlark_lexed_text.specs.Inner.LexedTexts.{IsMet, IsPutIn, later, later_cut, moved_cut, moved_lexeme, part_view};
ghost use Rattle.starlark_lexemes.specs.Inner.LexerStates.{Course, IsLexing, view_of};
ghost use Rattle.starlark_lexemes.specs.Lexer.{most_reads};

use crate::cuts::{Begin, Cut, append_cuts, push_moved_cuts};
use crate::read_parts::ReadPart;
use crate::tails::{make_room, replace_lexemes};
use starlark_lexemes::lexer_state::LexerState;
use starlark_token::tokens::Token;
use std::alloc::AllocError;

/// The cuts at which lexing may meet a text: those after its first `count`. At those of a text with a
/// fault it meets none.
pub(crate) fn cuts_to_meet(cuts: &[Cut], count: usize, has_fault: bool) -> &[Cut]
    requires { count ≤ length cuts.now }
    ensures cuts { has_fault ≡ false → result.now ≡ drop count cuts.now }
    ensures none { has_fault ≡ true → result.now ≡ [] }
{
    if has_fault {
        return &[];
    }
    &cuts[count..]
}

/// A kept cut after which a text has the same bytes as a known text after one of its cuts.
#[derive(Clone, Copy)]
pub struct Meeting {
    /// Offset in bytes.
    pub at: usize,
    /// Index of the known text's cut.
    pub index: usize,
    /// The known text's cut.
    pub cut: Cut,
}

/// Whether the bytes of a text from byte `at` on are those of another from byte `other_at` on.
fn ends_alike(text: &[u8], at: usize, other: &[u8], other_at: usize) -> bool
    requires { (at ≤ length text.now) × (other_at ≤ length other.now) }
    ensures { result ≡ true → drop at text.now ≡ drop other_at other.now }
{
    text[at..] == other[other_at..]
}

/// Where lexing meets a known text at one of its cuts, if that is at a kept cut that it has reached,
/// `place`.
///
/// The bytes after it are compared only where the reads so far leave room for that, and the reads are
/// counted.
pub(crate) fn meeting_at(
    state: &mut LexerState<'_>,
    place: Option<usize>,
    known: &[u8],
    known_cuts: &[Cut],
) -> Option<Meeting>
    requires lexing { (course : Course) × IsLexing course state.old }
    requires going { state.old.has_ended ≡ false }
    requires cuts { AllByRecursion (λ (cut : Cut). cut.at ≤ length known.now) known_cuts.now }
    requires inside { IfSome place (λ at. at < length state.old.reader.text.now) }
    ensures lexing { (course : Course) → IsLexing course state.old → IsLexing course state.new }
    ensures after { view_of state.new ≡ record (view_of state.old) { reads = state.new.reader.reads } }
    ensures place { IfSome result (λ meeting. place ≡ Some meeting.at) }
    ensures met { IfSome result (IsMet state.old.reader.text.now known.now known_cuts.now) }
    ensures least { IfSome result (λ meeting. length state.old.reader.text.now ≤ state.new.reader.reads) }
    ensures most { IfSome result (λ meeting. state.new.reader.reads ≤ most_reads state.old.reader.text.now) }
{
    let at = place?;
    let text = state.reader.text.as_bytes();
    let left = text.len() - at;
    let begin = known.len().checked_sub(left)?;
    let index = known_cuts.binary_search_by_key(&begin, |cut| cut.at).ok()?;
    // Never so, since each byte before the cut was read; the contract of the reads needs it.
    if state.reader.reads.count() < at as u64 {
        return None;
    }
    if !state.count_others(left) {
        return None;
    }
    let cut = known_cuts[index];
    ends_alike(text, at, known, cut.at).then_some(Meeting { at, index, cut })
}

/// Puts a part that ends at a meeting in the place of what it replaces in the known text's lists,
/// and moves what comes after that. The part was lexed from `begin` on. Nothing changes on
/// `AllocError`.
pub(crate) fn put_part(
    lexemes: &mut Vec<(usize, Token, usize)>,
    cuts: &mut Vec<Cut>,
    begin: Begin,
    part: ReadPart,
    meeting: Meeting,
) -> Result<(), AllocError>
    requires { (known : Text) × (text : Text) × IsPutIn known text lexemes.old.items cuts.old.items begin (part_view part) meeting }
    ensures lexemes { OnOk result (lexemes.new.items ≡ take begin.lexemes lexemes.old.items ++ map (later begin.at) (part.lexemes.items ++ map (moved_lexeme meeting.cut.at meeting.at) (drop meeting.cut.lexemes lexemes.old.items))) }
    ensures cuts { OnOk result (cuts.new.items ≡ take begin.cuts cuts.old.items ++ map (later_cut begin.at begin.lexemes) (part.cuts.items ++ map (moved_cut meeting.cut (record { at = meeting.at; lexemes = length part.lexemes.items })) (drop (begin.cuts + meeting.index + 1) cuts.old.items))) }
    ensures same { OnErr result ((lexemes.new.items ≡ lexemes.old.items) × (cuts.new.items ≡ cuts.old.items)) }
{
    let to = Cut {
        at: meeting.at,
        lexemes: part.lexemes.len(),
    };
    let after = begin.cuts + meeting.index + 1;
    let mut more = part.cuts;
    push_moved_cuts(&mut more, &cuts[after..], meeting.cut, to)?;
    make_room(cuts, begin.cuts, more.len())?;
    let at = begin.at + meeting.at;
    replace_lexemes(
        lexemes,
        begin.lexemes,
        meeting.cut,
        part.lexemes,
        begin.at,
        at,
    )?;
    append_cuts(cuts, begin.cuts, more, begin.at, begin.lexemes);
    Ok(())
}
