//! Cuts: the offsets where a text can be cut, so that lexing can begin again there.

ghost use Rattle.std.specs.Prelude.{◌≡◌, ◌&&◌, ◌||◌, ◌==◌, ◌<◌, ◌≤◌, ◌+◌, ◌++◌, ◌^◌, OnOk, length, map, nat_lt, take, vec_capacity, vec_len};
ghost use Rattle.std.specs.List.{AllByRecursion};
ghost use Rattle.starlark_grammar.specs.Words.{Text};
ghost use Rattle.starlark_lexed_text.specs.Inner.LexedTexts.{AllNearCuts, AreBeyond, AreCuts, IsBegin, IsUpTo, later_cut, moved_cut};

use std::alloc::AllocError;

/// A cut: its offset in bytes, and the number of lexemes before it.
#[derive(Clone, Copy)]
pub struct Cut {
    /// Offset in bytes.
    pub at: usize,
    /// Number of lexemes before it.
    pub lexemes: usize,
}

/// Where lexing begins again: an offset in bytes, and how many lexemes and cuts before it are kept.
#[derive(Clone, Copy)]
pub struct Begin {
    /// Offset in bytes.
    pub at: usize,
    /// Number of lexemes before it.
    pub lexemes: usize,
    /// Number of cuts up to it.
    pub cuts: usize,
}

/// Number of cuts up to the last one at or before byte `from`.
pub(crate) fn cuts_up_to(cuts: &[Cut], from: usize) -> usize
    ensures bound { result ≤ length cuts.now }
    ensures last { IsUpTo cuts.now from result }
    ensures beyond { AreBeyond cuts.now from result }
{
    let mut count = cuts.len();
    while count > 0 && cuts[count - 1].at > from {
        count -= 1;
    }
    count
}

/// The last of the cuts at or before byte `from`, or the start of the text if there is none.
pub(crate) fn begin_of(cuts: &[Cut], from: usize) -> Begin
    ensures { (text : Text) → AreCuts text cuts.now → IsBegin text cuts.now from result }
{
    let count = cuts_up_to(cuts, from);
    if count == 0 {
        return Begin {
            at: 0,
            lexemes: 0,
            cuts: 0,
        };
    }
    let Cut { at, lexemes } = cuts[count - 1];
    Begin {
        at,
        lexemes,
        cuts: count,
    }
}

/// Whether a text is a clean cut, if lexing began at the cut `at` and `is_cut` says so of the rest.
///
/// It is also if the rest after a cut is empty.
pub(crate) fn is_cut_after(is_cut: bool, rest: &str, at: usize) -> bool
    ensures { result ≡ (is_cut || (length rest.now == 0 && nat_lt 0 at)) }
{
    is_cut || (rest.is_empty() && at > 0)
}

/// Keeps the first `kept` cuts, and appends others, moved by `len` bytes and `count` lexemes.
///
/// It doesn't allocate: the list must have room for them.
pub(crate) fn append_cuts(
    cuts: &mut Vec<Cut>,
    kept: usize,
    more: Vec<Cut>,
    len: usize,
    count: usize,
)
    requires room { kept + vec_len more ≤ vec_capacity cuts.old }
    requires near { AllNearCuts more.items }
    requires len { len < 2 ^ 32 }
    requires count { count < 2 ^ 34 }
    ensures { cuts.new.items ≡ take kept cuts.old.items ++ map (later_cut len count) more.items }
{
    cuts.truncate(kept);
    for cut in more {
        cuts.push_reserved(Cut {
            at: len + cut.at,
            lexemes: count + cut.lexemes,
        });
    }
}

/// Appends cuts after the cut `from`, moved as that is moved to the cut `to`.
pub(crate) fn push_moved_cuts(
    cuts: &mut Vec<Cut>,
    more: &[Cut],
    from: Cut,
    to: Cut,
) -> Result<(), AllocError>
    requires near { AllNearCuts more.now }
    requires after { AllByRecursion (λ (cut : Cut). (from.at ≤ cut.at) × (from.lexemes ≤ cut.lexemes)) more.now }
    requires fits { (to.at < 2 ^ 32) × (to.lexemes < 2 ^ 34) }
    ensures { OnOk result (cuts.new.items ≡ cuts.old.items ++ map (moved_cut from to) more.now) }
{
    for cut in more {
        cuts.push(Cut {
            at: cut.at - from.at + to.at,
            lexemes: cut.lexemes - from.lexemes + to.lexemes,
        })?;
    }
    Ok(())
}
