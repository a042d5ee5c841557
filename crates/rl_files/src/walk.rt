//! Walks through directories: determines the files to read, and their order.

ghost use Rattle.std.specs.Prelude.{◌≡◌, ◌≢◌, None, [], ◌∷◌, ◌++◌, drop, OnOk, IfOk, MatchBool, MatchOption, MatchResult, string_bytes};
ghost use Rattle.std.specs.Char.{is_ascii_alphabetic as letter};
ghost use Rattle.std.specs.List.{list_all};
ghost use Rattle.std.specs.Str.{is_utf8 as utf8};
ghost use Rattle.rl_files.specs.Globs.{is_excluded as excluded, borrowed_texts};
ghost use Rattle.rl_files.specs.Trees.{names_bytes, string_texts};
ghost use Rattle.rl_files.specs.Walks.{has_extension as has_ending, has_letter_extension as ends_in_letters, are_of_package as of_package, is_left_out as left_out, is_wanted as wanted, has_one_of as has_ending_of, may_be_directory as maybe_directory, given_length as base, path_in as path_of, waypoint, waypoint_at, visited, waypoints_of, waypoints_in, given_waypoint, given_waypoints, EndsEarly, EntersInOrder, WalksOn, VisitsFirst, VisitsNone};

use crate::glob::{ends_in_slash, is_excluded};
use crate::path_texts::{escaped, escaped_non_utf8_path};
use crate::tree::{PathError, Tree};
use std::alloc::{AllocError, Allocator, Global};
use std::fmt;
use std::marker::Model;

/// The maximum number of directories that a walk enters between two files.
const TURNS: u32 = u32::MAX;

/// The selection of the files that a walk reads in directories.
#[derive(Clone, Copy)]
pub struct Selection<'a> {
    /// Whether hidden files, hidden directories and the directory `target` of a Cargo package are visited too.
    pub all: bool,
    /// The extensions of the files to read, without the dot.
    pub extensions: &'a [&'a str],
    /// The patterns of the paths to leave out. They are relative to the directory that the user passed.
    pub excludes: &'a [&'a str],
}

/// An entry that a walk still has to visit.
#[derive(Drop)]
pub enum WalkEntry<A: Allocator = Global> {
    /// A path that may be a directory. The number is the length, with a slash, of the start of the path that is the
    /// directory passed by the user. Without the number, the user passed the path itself, which may also be a file.
    Directory(Option<usize>, String<A>),
    /// A file in a directory.
    File(String<A>),
    /// A path that isn't UTF-8, with its bytes escaped, and the error to report: `GivenNotUtf8` if the user passed the path or a
    /// file lists it, `PathNotUtf8` if it is in a directory.
    BadPath(String<A>, PathError),
}

/// The next result of a walk.
#[derive(Drop)]
pub enum Visit<A: Allocator = Global> {
    /// A file to read.
    File(String<A>),
    /// A path that the walk can't read, and the reason.
    Failed(String<A>, PathError),
}

/// The reason why a walk ends before all files are visited.
#[derive(Clone, Copy)]
pub enum WalkError {
    /// An allocation failed.
    OutOfMemory,
    /// The walk entered 4,294,967,295 directories without a file between them.
    TooManyDirectories,
}

impl fmt::Display for WalkError {
    ghost use Rattle.std.specs.Prelude.{Some};
    ghost use Rattle.rl_files.specs.Walks.{walk_error_message};

    ghost output = { λ error. Some (walk_error_message error) };

    fn fmt<W: fmt::Write>(&self, f: &mut fmt::Formatter<W>) -> fmt::Result {
        match self {
            WalkError::OutOfMemory => write!(f, "out of memory"),
            WalkError::TooManyDirectories => write!(f, "too many directories"),
        }
    }
}

/// A walk through directories, which returns their files one by one.
#[derive(Drop)]
pub struct Walk<A: Allocator = Global> {
    // The entries that the walk still has to visit, in reverse order.
    pending: Vec<WalkEntry<A>, A>,
}

impl<A: Allocator> Model for Walk<A> {
    ghost use Rattle.std.specs.Prelude.{List, map, reverse};
    ghost use Rattle.rl_files.specs.Walks.{waypoint, Waypoint};

    ghost Value = { List Waypoint };

    ghost view = { λ w. reverse (map waypoint w.pending.items) };
}

/// Whether a name ends with a dot and `extension`.
fn has_extension(extension: &str, name: &[u8]) -> bool
    ensures { result ≡ has_ending extension.now name.now }
{
    let ending = extension.as_bytes();
    name.ends_with(ending) && name[..name.len() - ending.len()].ends_with(b".".as_slice())
}

/// Whether a name ends with a dot and one of the `extensions`.
fn has_one_of(extensions: &[&str], name: &[u8]) -> bool
    ensures { result ≡ has_ending_of (borrowed_texts extensions.now) name.now }
{
    let mut rest = extensions;
    while let [extension, after @ ..] = rest {
        if has_extension(extension, name) {
            return true;
        }
        rest = after;
    }
    false
}

/// Whether the names in a directory include `Cargo.toml`, so that it is a Cargo package.
fn are_of_package<A: Allocator>(names: &[Vec<u8, A>]) -> bool
    ensures { result ≡ of_package (names_bytes names.now) }
{
    let mut rest = names;
    while let [name, after @ ..] = rest {
        if name.as_slice() == b"Cargo.toml".as_slice() {
            return true;
        }
        rest = after;
    }
    false
}

/// Whether a name is left out: a hidden one, and in a Cargo package the directory `target`, into which Cargo builds.
fn is_left_out(in_package: bool, name: &[u8]) -> bool
    ensures { result ≡ left_out in_package name.now }
{
    name.starts_with(b".".as_slice()) || in_package && name == b"target/".as_slice()
}

/// Whether all bytes are ASCII letters.
fn are_letters(bytes: &[u8]) -> bool
    ensures { result ≡ list_all letter bytes.now }
{
    bytes.iter().all(|b| b.is_ascii_alphabetic())
}

/// Whether a name has an extension of ASCII letters: a dot that isn't the first byte, and only letters after the dot.
fn has_letter_extension(name: &[u8]) -> bool
    ensures { result ≡ ends_in_letters name.now }
{
    let mut rest = bytes_from(name, 1);
    while let [byte, after @ ..] = rest {
        if *byte == b'.' && are_letters(after) {
            return true;
        }
        rest = after;
    }
    false
}

/// Whether bytes are UTF-8.
#[tactic(auto, using(crate::proofs::PathTextLemmas::utf8_is, crate::proofs::PathTextLemmas::utf8_is_not))]
fn is_utf8(bytes: &[u8]) -> bool
    ensures { result ≡ utf8 bytes.now }
{
    std::str::from_utf8(bytes).is_ok()
}

/// Whether a name that isn't UTF-8 may be the name of a directory: it has no extension of ASCII letters.
fn may_be_directory(name: &[u8]) -> bool
    ensures { result ≡ maybe_directory name.now }
{
    !is_utf8(name) && !has_letter_extension(name)
}

/// Whether a walk visits a name. Directories and files with a selected extension are visited, unless the name is left out. A name
/// that isn't UTF-8 is visited to be reported, if it may be the name of a directory, or of a file with a selected extension.
fn is_wanted(selection: Selection<'_>, in_package: bool, name: &[u8]) -> bool
    ensures { result ≡ wanted selection.entry in_package name.now }
{
    (selection.all || !is_left_out(in_package, name))
        && (ends_in_slash(name) || has_one_of(selection.extensions, name) || may_be_directory(name))
}

/// Returns the path of a name in a directory.
pub(crate) fn path_in<A: Allocator>(
    alloc: A,
    directory: &str,
    name: &[u8],
) -> Result<Vec<u8, A>, AllocError>
    ensures { IfOk result (λ path. path.items ≡ path_of directory.now name.now) }
{
    let mut path = Vec::new(alloc);
    path.extend_from_slice(directory.as_bytes())?;
    if !ends_in_slash(directory.as_bytes()) {
        path.extend_from_slice(b"/".as_slice())?;
    }
    path.extend_from_slice(name)?;
    Ok(path)
}

/// Whether a path is one that the user passed, so that `from` is `None`, and not the path of a directory below it.
fn is_given(from: Option<usize>) -> bool
    ensures { MatchBool result (from ≡ None) (from ≢ None) }
{
    from.is_none()
}

/// Returns the length, with a slash, of the directory that the user passed. If `from` is `None`, that directory is `path`, else
/// `path` is below it, and `from` is the length.
fn argument_len(from: Option<usize>, path: &str) -> usize
    ensures { result ≡ base from path.now }
{
    match from {
        Some(from) => from,
        None if ends_in_slash(path.as_bytes()) => path.len(),
        None => path.len() + 1,
    }
}

/// Returns the bytes from an offset, or no bytes if the offset is too large.
fn bytes_from(bytes: &[u8], from: usize) -> &[u8]
    ensures { result.now ≡ drop from bytes.now }
{
    if from > bytes.len() {
        return &bytes[bytes.len()..];
    }
    &bytes[from..]
}

/// Whether a pattern of `selection` excludes a path. The first `from` bytes of the path aren't compared.
fn is_pruned(selection: Selection<'_>, from: usize, path: &[u8]) -> bool
    ensures { result ≡ excluded (borrowed_texts selection.entry.excludes.now) (drop from path.now) }
{
    is_excluded(selection.excludes, bytes_from(path, from))
}

/// Returns the entry to visit for a path below the directory that the user passed. `from` is the length of this directory.
#[tactic(auto, using(crate::proofs::PathTextLemmas::utf8_is, crate::proofs::PathTextLemmas::utf8_is_not))]
fn pending_of<A: Allocator>(alloc: A, from: usize, path: &[u8]) -> Result<WalkEntry<A>, AllocError>
    ensures { IfOk result (λ pending. waypoint pending ≡ waypoint_at from path.now) }
{
    let text = match std::str::from_utf8(path) {
        Ok(text) => String::from_str(alloc, text)?,
        Err(_) => {
            return Ok(WalkEntry::BadPath(escaped(alloc, path)?, PathError::PathNotUtf8));
        }
    };
    if ends_in_slash(path) {
        return Ok(WalkEntry::Directory(Some(from), text));
    }
    Ok(WalkEntry::File(text))
}

/// Returns the entry to visit for a path that the user passed.
fn entry_given<A: Allocator>(alloc: A, path: String<A>) -> Result<WalkEntry<A>, AllocError>
    ensures { IfOk result (λ entry. waypoint entry ≡ given_waypoint (string_bytes path)) }
{
    if let Some(shown) = escaped_non_utf8_path(path.as_str()) {
        let path = String::from_str(alloc, shown)?;
        return Ok(WalkEntry::BadPath(path, PathError::GivenNotUtf8));
    }
    Ok(WalkEntry::Directory(None, path))
}

impl<A: Allocator> Walk<A> {
    /// Returns a walk without any entries.
    fn new(alloc: A) -> Walk<A>
        ensures { result ≡ [] }
    {
        Walk {
            pending: Vec::new(alloc),
        }
    }

    /// Adds an entry that is visited next, before the other entries.
    fn push(&mut self, pending: WalkEntry<A>) -> Result<(), AllocError>
        ensures { OnOk result (self.new ≡ waypoint pending ∷ self.old) }
    {
        self.pending.push(pending)?;
        Ok(())
    }

    /// Adds a path that the user passed. It is visited next, before the other entries.
    fn push_given(&mut self, alloc: A, path: String<A>) -> Result<(), AllocError>
        ensures { OnOk result (self.new ≡ given_waypoint (string_bytes path) ∷ self.old) }
    {
        let entry = entry_given(alloc, path)?;
        self.push(entry)
    }

    /// Returns a walk that visits the paths in their order. A path that isn't UTF-8, as `path_text` represents it, is visited to be
    /// reported.
    ///
    /// # Errors
    ///
    /// Returns an error if an allocation fails.
    pub fn of_paths(alloc: A, paths: &mut Vec<String<A>, A>) -> Result<Walk<A>, AllocError>
    where
        A: Copy,
        ensures { IfOk result (λ walk. walk ≡ given_waypoints (string_texts paths.old.items)) }
    {
        let mut walk = Walk::new(alloc);
        while let Some(path) = paths.pop() {
            walk.push_given(alloc, path)?;
        }
        Ok(walk)
    }

    /// Removes and returns the next entry to visit.
    fn take(&mut self) -> Option<WalkEntry<A>>
        ensures { MatchOption result (self.old ≡ []) (λ pending. self.old ≡ waypoint pending ∷ self.new) }
    {
        self.pending.pop()
    }

    /// Adds a name in a directory, if it is selected and not excluded. It is visited next, before the other entries.
    ///
    /// `in_package` tells whether the directory is a Cargo package, and `from` is the length of the directory that the user passed.
    fn push_name(
        &mut self,
        alloc: A,
        selection: Selection<'_>,
        in_package: bool,
        from: usize,
        directory: &str,
        name: &[u8],
    ) -> Result<(), AllocError>
    where
        A: Copy,
        ensures { OnOk result (self.new
            ≡ waypoints_of selection.entry in_package from directory.now name.now ++ self.old) }
    {
        if !is_wanted(selection, in_package, name) {
            return Ok(());
        }
        let path = path_in(alloc, directory, name)?;
        if is_pruned(selection, from, path.as_slice()) {
            return Ok(());
        }
        let pending = pending_of(alloc, from, path.as_slice())?;
        self.push(pending)
    }

    /// Adds the names in a directory that are selected and not excluded. They are visited next, in their order, before the other
    /// entries.
    fn push_names(
        &mut self,
        alloc: A,
        selection: Selection<'_>,
        from: usize,
        directory: &str,
        names: &mut Vec<Vec<u8, A>, A>,
    ) -> Result<(), AllocError>
    where
        A: Copy,
        ensures { OnOk result (self.new
            ≡ waypoints_in selection.entry from directory.now (names_bytes names.old.items) ++ self.old) }
    {
        let in_package = are_of_package(names.as_slice());
        while let Some(name) = names.pop() {
            self.push_name(
                alloc,
                selection,
                in_package,
                from,
                directory,
                name.as_slice(),
            )?;
        }
        Ok(())
    }

    /// Adds the names in a directory that are selected and not excluded. They are visited next, in the order of their bytes, before
    /// the other entries.
    fn enter(
        &mut self,
        alloc: A,
        selection: Selection<'_>,
        from: usize,
        directory: &str,
        names: &mut Vec<Vec<u8, A>, A>,
    ) -> Result<(), AllocError>
    where
        A: Copy,
        ensures { OnOk result
            (EntersInOrder selection.entry from directory.now (names_bytes names.old.items) self.old self.new) }
    {
        names.sort_unstable();
        self.push_names(alloc, selection, from, directory, names)?;
        Ok(())
    }

    /// Returns the next file to read, or the next path that can't be read. At the end the result is `None`.
    ///
    /// # Errors
    ///
    /// Returns an error if an allocation fails, or if the walk enters 4,294,967,295 directories without a result.
    pub fn next<T: Tree>(
        &mut self,
        alloc: A,
        selection: Selection<'_>,
        tree: &T,
    ) -> Result<Option<Visit<A>>, WalkError>
    where
        A: Copy,
        ensures { MatchResult result
            (λ r. MatchOption r (VisitsNone selection.entry (T.holds tree.now) self.old)
            (λ visit. VisitsFirst selection.entry (T.holds tree.now) self.old (visited visit) self.new))
            (EndsEarly selection.entry (T.holds tree.now) self.old) }
    {
        for _ in 0..TURNS {
            let Some(pending) = self.take() else {
                return Ok(None);
            };
            match pending {
                WalkEntry::File(path) => return Ok(Some(Visit::File(path))),
                WalkEntry::BadPath(path, why) => return Ok(Some(Visit::Failed(path, why))),
                WalkEntry::Directory(from, path) => match tree.names(alloc, path.as_str()) {
                    Ok(mut names) => {
                        let base = argument_len(from, path.as_str());
                        match self.enter(alloc, selection, base, path.as_str(), &mut names) {
                            Ok(()) => {}
                            Err(_) => return Err(WalkError::OutOfMemory),
                        }
                    }
                    Err(PathError::NotADirectory) if is_given(from) => {
                        return Ok(Some(Visit::File(path)));
                    }
                    Err(why) => return Ok(Some(Visit::Failed(path, why))),
                },
            }
        }
        Err(WalkError::TooManyDirectories)
    }
}
