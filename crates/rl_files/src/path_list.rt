//! Reads files that list paths.

ghost use Rattle.std.specs.Prelude.{◌≡◌, ◌==◌, ◌++◌, ◌<◌, length, OnOk, IfErr, IfSome};
ghost use Rattle.std.specs.List.{list_any};
ghost use Rattle.rl_files.specs.Trees.{string_texts};
ghost use Rattle.rl_files.specs.Globs.{borrowed_texts};
ghost use Rattle.rl_files.specs.Listed.{AreWithAllListed, AreWithListed, IsFirstUnread, IsUnreadList, listed_name, names_between, separator_of, without_mark};

use crate::path_texts::path_text;
use crate::tree::{PathError, Tree};
use std::alloc::{AllocError, Allocator};

/// A list of paths that can't be read, and the reason.
#[derive(Clone, Copy)]
pub struct Unread<'a> {
    /// The path of the file that lists paths.
    pub file: &'a str,
    /// The reason why the file can't be read.
    pub why: PathError,
}

/// Returns a list without a byte order mark at its start.
fn after_mark(list: &[u8]) -> &[u8]
    ensures { result.now ≡ without_mark list.now }
{
    if list.starts_with(b"\xef\xbb\xbf".as_slice()) {
        return &list[3..];
    }
    list
}

/// Whether a list of paths contains a NUL.
fn has_nul(list: &[u8]) -> bool
    ensures { result ≡ list_any (λ b. b == 0) list.now }
{
    list.contains(&0)
}

/// Returns the byte that ends each path in a list: NUL if the list contains one, else LF.
fn separator(list: &[u8]) -> u8
    ensures { result ≡ separator_of list.now }
{
    if has_nul(list) {
        return 0;
    }
    b'\n'
}

/// Appends the text of the path `name` to `paths`, if it isn't empty.
fn push_name<A: Allocator + Copy>(
    alloc: A,
    paths: &mut Vec<String<A>, A>,
    name: &[u8],
) -> Result<(), AllocError>
    ensures { OnOk result (string_texts paths.new.items ≡ string_texts paths.old.items ++ listed_name name.now) }
{
    if name.is_empty() {
        return Ok(());
    }
    paths.push(path_text(alloc, name)?)?;
    Ok(())
}

/// Whether a byte ends a path.
fn ends_path(byte: u8, between: u8) -> bool
    ensures { result ≡ (byte == between) }
{
    byte == between
}

/// Returns the first path in a list that isn't empty, and the list after it. `between` is the byte that ends each path.
fn split_name(list: &[u8], between: u8) -> (&[u8], &[u8])
    requires { 0 < length list.now }
    ensures names { names_between between list.now ≡ listed_name result.0.now ++ names_between between result.1.now }
    ensures shorter { length result.1.now < length list.now }
{
    for (at, byte) in list.iter().enumerate() {
        if ends_path(*byte, between) {
            return (&list[..at], &list[at + 1..]);
        }
    }
    (list, &[])
}

/// Appends the paths in a list to `paths`. `between` is the byte that ends each path.
fn push_parts<A: Allocator + Copy>(
    alloc: A,
    paths: &mut Vec<String<A>, A>,
    list: &[u8],
    between: u8,
) -> Result<(), AllocError>
    ensures { OnOk result (string_texts paths.new.items ≡ string_texts paths.old.items ++ names_between between list.now) }
{
    let mut rest = list;
    while !rest.is_empty() {
        let (name, after) = split_name(rest, between);
        push_name(alloc, paths, name)?;
        rest = after;
    }
    Ok(())
}

/// Appends the paths that a file lists to `paths`. A byte order mark at the start of the file is skipped. A path that isn't UTF-8
/// is represented as `path_text` represents it.
///
/// # Errors
///
/// Returns the reason why the file can't be read. If an allocation fails, some paths may have been appended.
fn push_listed<A: Allocator + Copy, T: Tree>(
    alloc: A,
    tree: &T,
    file: &str,
    paths: &mut Vec<String<A>, A>,
) -> Result<(), PathError>
    ensures all { OnOk result (IfSome (T.holds tree.now) (λ w.
        AreWithListed w file.now (string_texts paths.old.items) (string_texts paths.new.items))) }
    ensures error { IfErr result (λ why. IfSome (T.holds tree.now) (λ w. IsUnreadList w file.now why)) }
{
    let bytes = match tree.any_bytes(alloc, file) {
        Ok(bytes) => bytes,
        Err(why) => return Err(why),
    };
    let list = after_mark(bytes.as_slice());
    match push_parts(alloc, paths, list, separator(list)) {
        Ok(()) => Ok(()),
        Err(_) => Err(PathError::OutOfMemory),
    }
}

/// Appends the paths that files list to `paths`, one file after another.
///
/// # Errors
///
/// Returns the first file that can't be read, and the reason. The paths in earlier files have been appended then.
pub fn push_listed_paths<'f, A: Allocator + Copy, T: Tree>(
    alloc: A,
    tree: &T,
    files: &[&'f str],
    paths: &mut Vec<String<A>, A>,
) -> Result<(), Unread<'f>>
    ensures all { OnOk result (IfSome (T.holds tree.now) (λ w.
        AreWithAllListed w (borrowed_texts files.now) (string_texts paths.old.items) (string_texts paths.new.items))) }
    ensures error { IfErr result (λ unread. IfSome (T.holds tree.now) (λ w.
        IsFirstUnread w (borrowed_texts files.now) (string_texts paths.old.items) unread.file.now unread.why)) }
{
    let mut rest = files;
    while let [file, after @ ..] = rest {
        match push_listed(alloc, tree, file, paths) {
            Ok(()) => {}
            Err(why) => return Err(Unread { file, why }),
        }
        rest = after;
    }
    Ok(())
}
