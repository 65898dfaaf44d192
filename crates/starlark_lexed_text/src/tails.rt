//! Replaces the end of a list of lexemes.

ghost use Rattle.std.specs.Prelude.{◌≡◌, ◌<◌, ◌≤◌, ◌+◌, ◌++◌, ◌^◌, [], ℕ, None, IfOk, IfSome, OnErr, OnOk, Some, if◌then◌else◌, drop, false, length, map, take, true, vec_capacity, vec_len};
ghost use Rattle.starlark_grammar.specs.Words.{Text};
ghost use Rattle.starlark_lexed_text.specs.Inner.LexedTexts.{AllAfter, AllNear, AllNearCuts, IsRest, IsRestPut, IsTakenBack, last_newline_of, later, later_cut, moved_lexeme, part_view};
ghost use Rattle.starlark_token.specs.Lexemes.{lexeme_view};

use crate::cuts::{Begin, Cut, append_cuts, cuts_up_to};
use crate::read_parts::{ReadPart, exception_of};
use starlark_base::codemap::CodeMap;
use starlark_errors::eval_exception::EvalException;
use starlark_token::tokens::Token;
use std::alloc::{AllocError, Global};

/// Reserves room for `more` items after the first `kept` of a list. Nothing changes on
/// `AllocError`.
pub(crate) fn make_room<T>(list: &mut Vec<T>, kept: usize, more: usize) -> Result<(), AllocError>
    requires { kept + more < 2 ^ 64 }
    ensures room { OnOk result (kept + more ≤ vec_capacity list.new) }
    ensures same { list.new.items ≡ list.old.items }
{
    list.reserve((kept + more).saturating_sub(list.len()))
}

/// Keeps the first `kept` lexemes, and appends others, moved by `len` bytes.
///
/// It doesn't allocate: the list must have room for them.
pub(crate) fn append_later(
    lexemes: &mut Vec<(usize, Token, usize)>,
    kept: usize,
    more: Vec<(usize, Token, usize)>,
    len: usize,
)
    requires room { kept + vec_len more ≤ vec_capacity lexemes.old }
    requires near { AllNear more.items }
    requires fits { len < 2 ^ 32 }
    ensures { lexemes.new.items ≡ take kept lexemes.old.items ++ map (later len) more.items }
{
    lexemes.truncate(kept);
    for (begin, token, end) in more {
        lexemes.push_reserved((len + begin, token, len + end));
    }
}

/// Moves lexemes in place, from byte `from` to byte `to`.
fn move_lexemes(lexemes: &mut [(usize, Token, usize)], from: usize, to: usize)
    requires near { AllNear lexemes.old }
    requires after { AllAfter from lexemes.old }
    requires fits { to < 2 ^ 32 }
    ensures { lexemes.new ≡ map (moved_lexeme from to) lexemes.old }
{
    for lexeme in lexemes.iter_mut() {
        lexeme.0 = lexeme.0 - from + to;
        lexeme.2 = lexeme.2 - from + to;
    }
}

/// Moves the lexemes from index `first` on in place, from byte `from` to byte `to`.
fn move_from(lexemes: &mut Vec<(usize, Token, usize)>, first: usize, from: usize, to: usize)
    requires inside { first ≤ length lexemes.old.items }
    requires near { AllNear (drop first lexemes.old.items) }
    requires after { AllAfter from (drop first lexemes.old.items) }
    requires fits { to < 2 ^ 32 }
    ensures { lexemes.new.items ≡ take first lexemes.old.items ++ map (moved_lexeme from to) (drop first lexemes.old.items) }
{
    move_lexemes(&mut lexemes[first..], from, to);
}

/// Replaces the lexemes from index `kept` up to a cut by others, moved by `len` bytes, and moves
/// those after the cut to byte `to`. Nothing changes on `AllocError`.
pub(crate) fn replace_lexemes(
    lexemes: &mut Vec<(usize, Token, usize)>,
    kept: usize,
    cut: Cut,
    more: Vec<(usize, Token, usize)>,
    len: usize,
    to: usize,
) -> Result<(), AllocError>
    requires order { kept ≤ cut.lexemes }
    requires inside { cut.lexemes ≤ length lexemes.old.items }
    requires near { AllNear (drop cut.lexemes lexemes.old.items) }
    requires more_near { AllNear more.items }
    requires after { AllAfter cut.at (drop cut.lexemes lexemes.old.items) }
    requires len { len < 2 ^ 32 }
    requires to { to < 2 ^ 32 }
    ensures made { OnOk result (lexemes.new.items ≡ take kept lexemes.old.items ++ (map (moved_lexeme 0 len) more.items ++ map (moved_lexeme cut.at to) (drop cut.lexemes lexemes.old.items))) }
    ensures same { OnErr result (lexemes.new.items ≡ lexemes.old.items) }
{
    let mut more = more;
    move_from(&mut more, 0, 0, len);
    let end = kept + more.len();
    lexemes.splice(kept..cut.lexemes, more)?;
    move_from(lexemes, end, cut.at, to);
    Ok(())
}

/// Index of the last `Newline` in a list of lexemes.
pub(crate) fn last_newline(lexemes: &[(usize, Token, usize)]) -> Option<usize>
    ensures value { result ≡ last_newline_of (map lexeme_view lexemes.now) }
    ensures within { IfSome result (λ at. at < length lexemes.now) }
{
    let mut at = lexemes.len();
    while at > 0 {
        at -= 1;
        if lexemes[at].1.is_newline() {
            return Some(at);
        }
    }
    None
}

/// What is kept of a lexed text that is lexed again from a cut on.
#[derive(Clone, Copy)]
pub struct Kept {
    /// Number of lexemes that are kept.
    pub lexemes: usize,
    /// Number of cuts that are kept.
    pub cuts: usize,
    /// Bytes by which a fault of the rest is moved.
    pub fault_at: usize,
    /// Whether the lexemes of the rest are appended. Else they are dropped.
    pub gives_more: bool,
}

/// What is kept of a lexed text where lexing begins again at a cut.
///
/// If the indentation there has a tab, the last `Newline` and all lexemes after it are dropped, and
/// the fault begins where it began. Where there is no `Newline`, all before the cut is comments,
/// and the fault begins at the start of the text.
fn kept_of(lexemes: &[(usize, Token, usize)], cuts: &[Cut], begin: Begin, has_tab: bool) -> Kept
    requires { begin.lexemes ≤ length lexemes.now }
    ensures plain { has_tab ≡ false → result ≡ record { lexemes = begin.lexemes; cuts = begin.cuts; fault_at = begin.at; gives_more = true } }
    ensures comments { has_tab ≡ true → last_newline_of (map lexeme_view (take begin.lexemes lexemes.now)) ≡ None → result ≡ record { lexemes = begin.lexemes; cuts = 0; fault_at = 0; gives_more = true } }
    ensures few { begin.cuts ≤ length cuts.now → result.cuts ≤ length cuts.now }
    ensures line { has_tab ≡ true → (last : ℕ) → last_newline_of (map lexeme_view (take begin.lexemes lexemes.now)) ≡ Some last → IsTakenBack lexemes.now cuts.now last result }
{
    if !has_tab {
        return Kept {
            lexemes: begin.lexemes,
            cuts: begin.cuts,
            fault_at: begin.at,
            gives_more: true,
        };
    }
    match last_newline(&lexemes[..begin.lexemes]) {
        Some(last) => {
            let at = lexemes[last].0;
            Kept {
                lexemes: last,
                cuts: cuts_up_to(cuts, at),
                fault_at: at,
                gives_more: false,
            }
        }
        None => Kept {
            lexemes: begin.lexemes,
            cuts: 0,
            fault_at: 0,
            gives_more: true,
        },
    }
}

/// The lexemes to append to what is kept.
fn given_after(lexemes: Vec<(usize, Token, usize)>, kept: Kept) -> Vec<(usize, Token, usize)>
    ensures { result.items ≡ (if kept.gives_more then lexemes.items else []) }
{
    let mut more = lexemes;
    if !kept.gives_more {
        more.clear();
    }
    more
}

/// Keeps the first lexemes and cuts of two lists, and appends others, moved as they were lexed from
/// `begin` on. Nothing changes on `AllocError`.
fn put_after(
    lexemes: &mut Vec<(usize, Token, usize)>,
    cuts: &mut Vec<Cut>,
    kept: Kept,
    begin: Begin,
    more: Vec<(usize, Token, usize)>,
    more_cuts: Vec<Cut>,
) -> Result<(), AllocError>
    requires lexemes_fit { kept.lexemes + vec_len more < 2 ^ 64 }
    requires cuts_fit { kept.cuts + vec_len more_cuts < 2 ^ 64 }
    requires near { AllNear more.items }
    requires cuts_near { AllNearCuts more_cuts.items }
    requires begin { (begin.at < 2 ^ 32) × (begin.lexemes < 2 ^ 34) }
    ensures lexemes { OnOk result (lexemes.new.items ≡ take kept.lexemes lexemes.old.items ++ map (later begin.at) more.items) }
    ensures cuts { OnOk result (cuts.new.items ≡ take kept.cuts cuts.old.items ++ map (later_cut begin.at begin.lexemes) more_cuts.items) }
    ensures same { OnErr result ((lexemes.new.items ≡ lexemes.old.items) × (cuts.new.items ≡ cuts.old.items)) }
{
    make_room(lexemes, kept.lexemes, more.len())?;
    make_room(cuts, kept.cuts, more_cuts.len())?;
    append_later(lexemes, kept.lexemes, more, begin.at);
    append_cuts(cuts, kept.cuts, more_cuts, begin.at, begin.lexemes);
    Ok(())
}

/// Puts the rest of an edited text in the place of what it replaces in the known text's lists. It was
/// lexed from `begin` on.
///
/// Returns the exception of the edited text's fault, if it has one. Nothing changes on `AllocError`.
pub(crate) fn put_rest(
    alloc: Global,
    lexemes: &mut Vec<(usize, Token, usize)>,
    cuts: &mut Vec<Cut>,
    begin: Begin,
    rest: ReadPart,
    code_map: &CodeMap,
) -> Result<Option<EvalException>, AllocError>
    requires { (known : Text) × (edited : Text) × IsRest known edited lexemes.old.items cuts.old.items begin (part_view rest) }
    ensures put { IfOk result (λ exception. (known edited : Text) → IsRest known edited lexemes.old.items cuts.old.items begin (part_view rest) → IsRestPut code_map.now edited begin lexemes.old.items lexemes.new.items cuts.new.items exception) }
    ensures none { IfOk result (λ exception. exception ≡ None → rest.fault ≡ None) }
    ensures same { OnErr result ((lexemes.new.items ≡ lexemes.old.items) × (cuts.new.items ≡ cuts.old.items)) }
{
    let kept = kept_of(lexemes, cuts, begin, rest.has_tab);
    let exception = exception_of(alloc, rest.fault, kept.fault_at, code_map)?;
    let more = given_after(rest.lexemes, kept);
    put_after(lexemes, cuts, kept, begin, more, rest.cuts)?;
    Ok(exception)
}
