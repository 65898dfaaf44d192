//! The versions of a text: the texts after each edit of a list.

ghost use Rattle.std.specs.Prelude.{◌≡◌, ◌≤◌, ◌+◌, [], IfErr, IfOk, OnOk, Ok, length, string_bytes};
ghost use Rattle.starlark_base.specs.Sources.{SourceFile};
ghost use Rattle.starlark_run.specs.Edits.{greatest_len, text_after, text_after_one};
ghost use Rattle.starlark_run.specs.Inner.EditedTexts.{AreVersions, AreVersionsAfter, AreVersionsLexed, Follows, IsRefusal, IsVersion, newest_text};
ghost use Rattle.starlark_run.specs.Relexed.{IsReadOn};
ghost use Rattle.starlark_run.specs.declared.ends.RunFault.TheVariants.{Memory};
ghost use Rattle.starlark_lexed_text.specs.LexedTexts.{IsLexed};

use crate::edits::{edited, fits, kept_len};
use crate::ends::{GREATEST_LEN, RunFault};
use crate::printer::empty_file;
use starlark_base::codemap::{CodeMap, OrMemory};
use starlark_base::edit::Edit;
use starlark_syntax::lexer::LexedText;
use starlark_text::dialect::Dialect;
use std::alloc::Global;

/// The text after an edit.
#[derive(Debug, Drop)]
pub struct Version {
    /// Offset up to which it equals the text before.
    pub from: usize,
    /// The text.
    pub text: String,
}

/// The version after the edit of index `at`.
///
/// Fails with `BadEdit` if the edit doesn't fit, `TooLong` if the new text is too long, and
/// `Memory`.
fn next_version(alloc: Global, text: &str, at: usize, edit: &Edit<'_>) -> Result<Version, RunFault>
    requires { length text.now ≤ greatest_len }
    ensures follows { IfOk result (Follows text.now) }
    ensures edited { IfOk result (IsVersion text.now edit.now) }
    ensures text { IfOk result (λ version. text_after_one at text.now edit.now ≡ Ok (string_bytes version.text)) }
    ensures refused { IfErr result (IsRefusal (text_after_one at text.now edit.now)) }
{
    if !fits(text, edit) {
        return Err(RunFault::BadEdit(at));
    }
    let kept = kept_len(text, edit);
    if edit.text.len() > GREATEST_LEN - kept {
        return Err(RunFault::TooLong);
    }
    let text = edited(alloc, text, edit, kept + edit.text.len())?;
    Ok(Version {
        from: edit.from,
        text,
    })
}

/// The text of the last version; the first text if there is none.
fn newest<'v>(first: &'v str, versions: &'v [Version]) -> &'v str
    ensures { result.now ≡ newest_text first.now versions.now }
{
    match versions.last() {
        Some(version) => version.text.as_str(),
        None => first,
    }
}

/// The versions of a text after each edit of a list. Fails at the first edit that fails.
pub fn versions_of(alloc: Global, first: &str, edits: &[Edit<'_>]) -> Result<Vec<Version>, RunFault>
    requires { length first.now ≤ greatest_len }
    ensures versions { IfOk result (λ versions. AreVersions first.now versions.items) }
    ensures edited { IfOk result (λ versions. AreVersionsAfter first.now edits.now versions.items) }
    ensures last { IfOk result (λ versions. text_after 0 first.now edits.now ≡ Ok (newest_text first.now versions.items)) }
    ensures refused { IfErr result (IsRefusal (text_after 0 first.now edits.now)) }
{
    let mut versions = Vec::new(alloc);
    for (at, edit) in edits.iter().enumerate() {
        let version = next_version(alloc, newest(first, &versions), at, edit)?;
        versions.push(version).map_err(|_| RunFault::Memory)?;
    }
    Ok(versions)
}

/// Lexes a text. Fails only with `Memory`.
fn lex_first<'v>(alloc: Global, text: &'v str, file: CodeMap) -> Result<LexedText<'v>, RunFault>
    requires { length text.now ≤ greatest_len }
    ensures text { IfOk result (λ lexed. lexed.text ≡ text.now) }
    ensures lexed { IfOk result (λ lexed. IsLexed file lexed) }
    ensures reads { IfOk result (λ lexed. IsReadOn text.now 0 lexed.reads) }
    ensures refused { IfErr result (λ fault. fault ≡ Memory) }
{
    match LexedText::lex(alloc, text, &Dialect::Extended, file) {
        Ok(lexed) => Ok(lexed),
        Err(OrMemory::Error(_)) => Err(RunFault::TooLong),
        Err(OrMemory::Memory) => Err(RunFault::Memory),
    }
}

/// The last version with its lexemes: the first text is lexed, and lexed again after each edit.
#[derive(Drop)]
pub struct LastVersion<'v> {
    /// The last version.
    pub lexed: LexedText<'v>,
    /// How often bytes were read, of the first text and of each version.
    pub reads: Vec<u64>,
}

/// Lexes each version of a text from the one before it. Appends how often bytes were read.
///
/// Fails only with `Memory`.
fn relex_each<'v>(
    first: LexedText<'v>,
    versions: &'v [Version],
    file: &CodeMap,
    reads: &mut Vec<u64>,
) -> Result<LexedText<'v>, RunFault>
    requires versions { AreVersions first.text versions.now }
    requires lexed { (file : SourceFile) × IsLexed file first }
    requires reads { AreVersionsLexed first.text [] reads.old.items }
    ensures text { IfOk result (λ lexed. lexed.text ≡ newest_text first.entry.text versions.now) }
    ensures lexed { IfOk result (λ lexed. (file : SourceFile) × IsLexed file lexed) }
    ensures reads { OnOk result (AreVersionsLexed first.entry.text versions.now reads.new.items) }
    ensures refused { IfErr result (λ fault. fault ≡ Memory) }
{
    let mut lexed = first;
    for version in versions {
        match lexed.relex(version.from, version.text.as_str(), file) {
            Ok(edited) => lexed = edited,
            Err(_) => return Err(RunFault::Memory),
        }
        reads.push(lexed.reads()).map_err(|_| RunFault::Memory)?;
    }
    Ok(lexed)
}

/// Lexes the first text, and each version from the one before it.
///
/// Fails only with `Memory`.
pub fn relexed<'v>(
    alloc: Global,
    first: &'v str,
    versions: &'v [Version],
) -> Result<LastVersion<'v>, RunFault>
    requires fits { length first.now ≤ greatest_len }
    requires versions { AreVersions first.now versions.now }
    ensures text { IfOk result (λ last. last.lexed.text ≡ newest_text first.now versions.now) }
    ensures lexed { IfOk result (λ last. (file : SourceFile) × IsLexed file last.lexed) }
    ensures reads { IfOk result (λ last. AreVersionsLexed first.now versions.now last.reads.items) }
    ensures refused { IfErr result (λ fault. fault ≡ Memory) }
{
    let file = empty_file(alloc)?;
    let first = lex_first(alloc, first, file.dupe()?)?;
    let mut reads = Vec::new(alloc);
    reads.push(first.reads()).map_err(|_| RunFault::Memory)?;
    let lexed = relex_each(first, versions, &file, &mut reads)?;
    Ok(LastVersion { lexed, reads })
}
