//! Finds the sources of a run: files by their names, and those in folders.

ghost use Rattle.std.specs.Prelude.{◌≡◌, ◌==◌, IfOk, IsTrue, OnOk, map, not, string_bytes, true};
ghost use Rattle.std.specs.List.{suffix_len};
ghost use Rattle.starlark_base.specs.Places.{Text};
ghost use Rattle.starlark_tokens.specs.Files.NameLists.{AreFolderNames};
ghost use Rattle.starlark_tokens.specs.CommandLine.CommandWords.{is_same};
ghost use Rattle.starlark_tokens.specs.Files.FolderPaths as spec;
ghost use Rattle.starlark_tokens.specs.Files.UsedGlobs.{some_stands};
ghost use Rattle.starlark_tokens.specs.declared.files.sources.TheConstants.{STDIN};
ghost use Rattle.starlark_tokens.specs.Reporting.Totals.{with_lost};

use crate::command_line::command_words::{is_any, is_same};
use crate::command_line::requests::Reports;
use crate::files::file_names::{ends_with, is_left_out, is_read};
use crate::files::name_lists::{folder_names, listed_names};
use crate::files::sources::{STDIN, Source, Sources};
use crate::files::used_globs::{UsedGlob, some_holds, some_stands, unused};
use crate::reporting::messages::say;
use std::alloc::AllocError;
use std::fs::{Files, Metadata};
use std::io::Read;
use std::{fs, io};

/// What is said of a name that isn't UTF-8, by which no file can be opened.
const NOT_UTF8: &str = "the name is not UTF-8";

/// The name of standard input in reports, where no other is given.
const STDIN_SHOWN: &str = "<stdin>";

/// A search for the sources of a run.
#[derive(Drop)]
struct Search<'a> {
    rt: &'a HostRuntime,
    wanted: &'a Reports<'a>,
    /// Globs of files and folders that are left out.
    excluded: Vec<UsedGlob<'a>>,
    /// Globs of files that are read besides those that are read anyway.
    included: Vec<UsedGlob<'a>>,
    sources: Sources,
    /// The paths that are still to be visited, in reversed order.
    pending: Vec<String>,
}

/// What the paths in a folder begin with.
fn path_prefix(rt: &HostRuntime, folder: &str) -> Result<String, AllocError>
    ensures { IfOk result (λ prefix. string_bytes prefix ≡ spec.path_prefix folder.now) }
{
    if is_same(folder.as_bytes(), ".") {
        return Ok(String::new(rt.alloc()));
    }
    let mut prefix = String::from_str(rt.alloc(), folder)?;
    if !ends_with(folder.as_bytes(), "/") {
        prefix.push_str("/")?;
    }
    Ok(prefix)
}

/// Bytes that are read of a folder at once. The system refuses a read that has no room for a name.
const PART_LEN: usize = 4096;

/// The names in a folder as they are read, each ended by a zero byte.
fn listing(rt: &HostRuntime, path: &str) -> io::Result<Vec<u8>> {
    let mut folder = rt.open_dir(path)?;
    let mut list = Vec::new(rt.alloc());
    let mut part = [0u8; PART_LEN];
    for _ in 0..u64::MAX {
        let count = folder.read(&mut part)?;
        if count == 0 {
            break;
        }
        list.extend_from_slice(&part[..count])?;
    }
    Ok(list)
}

/// The names in a folder, in order. The slash makes the system follow a link to a folder.
fn names_in(rt: &HostRuntime, folder: &str) -> io::Result<Vec<Vec<u8>>>
    ensures { IfOk result (λ names. (list : Text) × AreFolderNames list (map (λ name. name.items) names.items)) }
{
    let path = format!(in rt.alloc(); "{folder}/")?;
    let list = listing(rt, path.as_str())?;
    Ok(folder_names(rt.alloc(), list.as_slice())?)
}

/// Number of bytes of the name at the end of a path.
fn last_name_len(path: &[u8]) -> usize
    ensures { result ≡ suffix_len (λ byte. not (byte == 47)) path.now }
{
    let reversed = path.iter().rev();
    reversed.take_while(|byte| **byte != b'/').count()
}

/// The name at the end of a path.
fn last_name(path: &[u8]) -> &[u8]
    ensures { result.now ≡ spec.last_name path.now }
{
    &path[path.len().saturating_sub(last_name_len(path))..]
}

/// Whether a path is that of a file, or of a link to one. A link that leads nowhere counts as one,
/// so that it is reported as a file that can't be read.
fn is_file(rt: &HostRuntime, path: &str, metadata: &Metadata) -> bool
    ensures { spec.SaysFile metadata.now result }
{
    if !metadata.is_symlink() {
        return metadata.is_file();
    }
    match fs::metadata(rt, path) {
        Ok(target) => target.is_file(),
        Err(_) => true,
    }
}

/// Whether a name is that of a folder.
fn is_folder(rt: &HostRuntime, name: &[u8]) -> bool {
    match str::from_utf8(name) {
        Ok(path) => fs::metadata(rt, path).is_ok_and(|metadata| metadata.is_dir()),
        Err(_) => false,
    }
}

impl Search<'_> {
    /// Counts a name that can't be read, and says why.
    fn lose<D: std::fmt::Display>(&mut self, name: &[u8], why: &D)
        ensures { self.new ≡ record self.old { sources = with_lost self.old.sources } }
    {
        self.sources.lost = self.sources.lost.saturating_add(1);
        say(self.rt, name, why);
    }

    /// Adds a path of a folder to those that are to be visited, unless it is left out.
    fn add_path(&mut self, prefix: &str, name: &[u8]) -> Result<(), AllocError>
        ensures { OnOk result (spec.TakesName prefix.now name.now self.old self.new) }
    {
        if is_any(name, &[".", ".."]) {
            return Ok(());
        }
        let mut path = Vec::from_slice(self.rt.alloc(), prefix.as_bytes())?;
        path.extend_from_slice(name)?;
        let excluded = self.excluded.as_mut_slice();
        if is_left_out(self.rt.alloc(), excluded, false, name, path.as_slice())? {
            return Ok(());
        }
        match String::from_utf8(path) {
            Ok(path) => self.pending.push(path)?,
            Err(error) => self.lose(error.as_bytes(), &NOT_UTF8),
        }
        Ok(())
    }

    /// Adds the paths of a folder to those that are to be visited.
    fn add_paths(&mut self, folder: &str) -> Result<(), AllocError> {
        let prefix = path_prefix(self.rt, folder)?;
        match names_in(self.rt, folder) {
            Ok(names) => {
                for name in names.iter().rev() {
                    self.add_path(prefix.as_str(), name.as_slice())?;
                }
            }
            Err(error) => self.lose(folder.as_bytes(), &error),
        }
        Ok(())
    }

    /// Adds the paths of a folder that is found in another one, unless it is left out.
    fn add_found_folder(&mut self, path: &str) -> Result<(), AllocError>
        ensures { OnOk result (IsTrue (some_stands self.old.excluded.items true path.now) → self.new.pending ≡ self.old.pending) }
    {
        let excluded = self.excluded.as_mut_slice();
        if some_stands(self.rt.alloc(), excluded, true, path.as_bytes())? {
            return Ok(());
        }
        self.add_paths(path)
    }

    /// Adds a file that is found in a folder, if it is read.
    fn add_found_file(&mut self, path: String, metadata: &Metadata) -> Result<(), AllocError>
        ensures { OnOk result (spec.TakesFile path metadata.now self.old self.new) }
    {
        let included = self.included.as_mut_slice();
        let name = last_name(path.as_bytes());
        if is_read(self.rt.alloc(), included, name, path.as_bytes())?
            && is_file(self.rt, path.as_str(), metadata)
        {
            self.sources.all.push(Source::File(path))?;
        }
        Ok(())
    }

    /// Goes into a folder, or adds a file that is read. Links to folders aren't followed.
    fn visit(&mut self, path: String) -> Result<(), AllocError> {
        match fs::symlink_metadata(self.rt, path.as_str()) {
            Ok(metadata) if metadata.is_dir() => return self.add_found_folder(path.as_str()),
            Ok(metadata) => return self.add_found_file(path, &metadata),
            Err(error) => self.lose(path.as_bytes(), &error),
        }
        Ok(())
    }

    /// Adds the files of a folder, of its folders, and so on.
    fn add_folder(&mut self, folder: &str) -> Result<(), AllocError> {
        self.sources.are_found = true;
        self.add_paths(folder)?;
        for _ in 0..u64::MAX {
            let Some(path) = self.pending.pop() else {
                break;
            };
            self.visit(path)?;
        }
        Ok(())
    }

    /// The name of standard input in reports.
    fn stdin_name(&self) -> Result<String, AllocError>
        ensures { IfOk result (λ name. string_bytes name ≡ spec.stdin_name self.now.wanted.now) }
    {
        match self.wanted.stdin_names.first() {
            Some(name) => String::from_utf8_lossy(self.rt.alloc(), name),
            None => String::from_str(self.rt.alloc(), STDIN_SHOWN),
        }
    }

    /// Says which globs stood for nothing.
    fn say_unused(&self) {
        say_unused(
            self.rt,
            self.excluded.as_slice(),
            &"no file or folder was left out by this --exclude",
        );
        say_unused(
            self.rt,
            self.included.as_slice(),
            &"no file was taken by this --include",
        );
    }

    /// Adds standard input.
    fn add_stdin(&mut self) -> Result<(), AllocError>
        ensures { OnOk result (spec.TakesStdin self.old self.new) }
    {
        let name = self.stdin_name()?;
        self.sources.all.push(Source::Input(name))?;
        Ok(())
    }

    /// Adds a file, the files of a folder, or standard input, by a name that is given.
    fn add_name(&mut self, name: &[u8]) -> Result<(), AllocError>
        ensures { OnOk result (IsTrue (is_same name.now STDIN.now) → spec.TakesStdin self.old self.new) }
    {
        if is_same(name, STDIN) {
            return self.add_stdin();
        }
        let Ok(path) = str::from_utf8(name) else {
            self.lose(name, &NOT_UTF8);
            return Ok(());
        };
        match fs::metadata(self.rt, path) {
            Ok(metadata) if metadata.is_dir() => self.add_folder(path)?,
            _ => {
                let path = String::from_str(self.rt.alloc(), path)?;
                self.sources.all.push(Source::File(path))?;
            }
        }
        Ok(())
    }

    /// Adds what a name in a list names, unless a glob leaves it out.
    fn add_listed(&mut self, name: &[u8]) -> Result<(), AllocError> {
        let excluded = self.excluded.as_mut_slice();
        let is_folder = is_folder(self.rt, name);
        if some_holds(self.rt.alloc(), excluded, is_folder, name)? {
            return Ok(());
        }
        self.add_name(name)
    }

    /// Adds what the names in a list name.
    fn add_list(&mut self, name: &[u8]) -> Result<(), AllocError> {
        match list_of(self.rt, name) {
            Ok(names) => {
                for name in &names {
                    self.add_listed(name.as_slice())?;
                }
            }
            Err(error) => self.lose(name, &error),
        }
        Ok(())
    }
}

/// Says something of each glob that stood for nothing.
fn say_unused<D: std::fmt::Display>(rt: &HostRuntime, globs: &[UsedGlob<'_>], what: &D) {
    for glob in globs {
        if !glob.is_used {
            say(rt, glob.text, what);
        }
    }
}

/// The names in a file, or in standard input for `-`.
fn list_of(rt: &HostRuntime, name: &[u8]) -> io::Result<Vec<Vec<u8>>> {
    let mut list = Vec::new(rt.alloc());
    if is_same(name, STDIN) {
        rt.stdin().read_to_end(&mut list)?;
    } else {
        let path = str::from_utf8(name).map_err(|_| io::Error::from(
            io::ErrorKind::InvalidFilename,
        ))?;
        fs::open(rt, path)?.read_to_end(&mut list)?;
    }
    Ok(listed_names(rt.alloc(), list.as_slice())?)
}

/// Finds the sources that are asked for: by names, and by lists of names. Without any it is standard
/// input.
///
/// What can't be read is said on standard error, and counted, and each glob that stood for nothing is
/// said there. The files of a folder come in the order
/// of their names' bytes, those of a folder in it where that stands.
pub fn sources_of(rt: &HostRuntime, wanted: &Reports<'_>) -> Result<Sources, AllocError> {
    let mut search = Search {
        rt,
        wanted,
        excluded: unused(rt.alloc(), wanted.excluded.as_slice())?,
        included: unused(rt.alloc(), wanted.included.as_slice())?,
        sources: Sources {
            all: Vec::new(rt.alloc()),
            lost: 0,
            are_found: false,
        },
        pending: Vec::new(rt.alloc()),
    };
    if wanted.names.is_empty() && wanted.lists.is_empty() {
        search.add_stdin()?;
    }
    for name in wanted.names.iter() {
        search.add_name(name)?;
    }
    for name in wanted.lists.iter() {
        search.add_list(name)?;
    }
    search.say_unused();
    Ok(search.sources)
}
