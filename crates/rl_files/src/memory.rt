//! Files and directories in memory.

ghost use Rattle.std.specs.Prelude.{◌≡◌, IfOk};
ghost use Rattle.rl_files.specs.Replacements.{replacing, replacement_of, why_unwritable};
ghost use Rattle.rl_files.specs.Trees.{names_bytes};
ghost use Rattle.rl_files.specs.Globs.{borrowed_texts};
ghost use Rattle.rl_files.specs.MemoryTrees.{held, listed, file_at, directory_at};

use crate::replace::Replace;
use crate::tree::{PathError, Tree};
use std::alloc::{AllocError, Allocator, Global};

/// A file in memory: its bytes, or the reason why it can't be read.
#[derive(Clone, Copy)]
pub struct MemoryFile<'a> {
    /// The path of the file.
    pub path: &'a str,
    /// The bytes of the file, or the reason why they can't be read.
    pub bytes: Result<&'a [u8], PathError>,
}

/// A directory in memory: the names in it, as `Tree::names` returns them, or the reason why it can't be read.
#[derive(Clone, Copy)]
pub struct MemoryDirectory<'a> {
    /// The path of the directory.
    pub path: &'a str,
    /// The names in the directory, or the reason why they can't be read.
    pub names: Result<&'a [&'a [u8]], PathError>,
}

/// Files and directories in memory.
#[derive(Clone, Copy)]
pub struct MemoryTree<'a> {
    /// The files of the file tree in memory.
    pub files: &'a [MemoryFile<'a>],
    /// The directories of the file tree in memory.
    pub directories: &'a [MemoryDirectory<'a>],
}

/// Returns the bytes of the first file in the list `files` that has the path `path`.
fn find_file<'a>(files: &[MemoryFile<'a>], path: &str) -> Result<&'a [u8], PathError>
    ensures { held result ≡ file_at files.now path.now }
{
    let mut rest = files;
    while let [file, after @ ..] = rest {
        if file.path == path {
            return file.bytes;
        }
        rest = after;
    }
    Err(PathError::NotFound)
}

/// Returns the names in the first directory in the list that has the path `path`.
fn find_directory<'a>(
    directories: &[MemoryDirectory<'a>],
    path: &str,
) -> Result<&'a [&'a [u8]], PathError>
    ensures { listed result ≡ directory_at directories.now path.now }
{
    let mut rest = directories;
    while let [directory, after @ ..] = rest {
        if directory.path == path {
            return directory.names;
        }
        rest = after;
    }
    Err(PathError::NotADirectory)
}

/// Returns a copy of the bytes `bytes`, in memory from `alloc`.
fn copy_bytes<A: Allocator>(alloc: A, bytes: &[u8]) -> Result<Vec<u8, A>, AllocError>
    ensures { IfOk result (λ copy. copy.items ≡ bytes.now) }
{
    let mut copy = Vec::new(alloc);
    copy.extend_from_slice(bytes)?;
    Ok(copy)
}

/// Returns a copy of the names `names`, in memory from `alloc`.
fn copy_names<A: Allocator + Copy>(
    alloc: A,
    names: &[&[u8]],
) -> Result<Vec<Vec<u8, A>, A>, AllocError>
    ensures { IfOk result (λ copy. names_bytes copy.items ≡ borrowed_texts names.now) }
{
    let mut copy = Vec::new(alloc);
    let mut rest = names;
    while let [name, after @ ..] = rest {
        copy.push(copy_bytes(alloc, name)?)?;
        rest = after;
    }
    Ok(copy)
}

impl Tree for MemoryTree<'_> {
    ghost use Rattle.std.specs.Prelude.{Some};
    ghost use Rattle.rl_files.specs.MemoryTrees.{tree_in_memory};

    ghost holds = { λ t. Some (tree_in_memory t) };

    fn bytes<A: Allocator>(&self, alloc: A, path: &str) -> Result<Vec<u8, A>, PathError> {
        match find_file(self.files, path) {
            Ok(bytes) => match copy_bytes(alloc, bytes) {
                Ok(copy) => Ok(copy),
                Err(_) => Err(PathError::OutOfMemory),
            },
            Err(why) => Err(why),
        }
    }

    fn names<A: Allocator + Copy>(
        &self,
        alloc: A,
        path: &str,
    ) -> Result<Vec<Vec<u8, A>, A>, PathError> {
        match find_directory(self.directories, path) {
            Ok(names) => match copy_names(alloc, names) {
                Ok(copy) => Ok(copy),
                Err(_) => Err(PathError::OutOfMemory),
            },
            Err(why) => Err(why),
        }
    }
}

/// A file in memory that can't be replaced, and the reason.
#[derive(Clone, Copy)]
pub struct Unwritable<'a> {
    /// The path of the file.
    pub path: &'a str,
    /// The reason why the file can't be replaced.
    pub why: PathError,
}

/// A replacement of a file in memory: its bytes before and after.
#[derive(Drop)]
pub struct MemoryReplacement<A: Allocator = Global> {
    /// The file's path.
    pub path: String<A>,
    /// The bytes of the file before the replacement.
    pub old: Vec<u8, A>,
    /// The bytes of the file after the replacement.
    pub new: Vec<u8, A>,
}

/// The replacements of files in memory, and the files that can't be replaced.
#[derive(Drop)]
pub struct MemoryReplacements<'a, A: Allocator = Global> {
    /// The allocator of the list of replacements.
    pub alloc: A,
    /// The files that can't be replaced.
    pub unwritable: &'a [Unwritable<'a>],
    /// The replacements that were made, in order.
    pub handed: Vec<MemoryReplacement<A>, A>,
}

/// Returns the reason why the file at `path` can't be replaced, from the first entry with this path. Returns `None` if it can be
/// replaced.
fn find_unwritable(unwritable: &[Unwritable<'_>], path: &str) -> Option<PathError>
    ensures { result ≡ why_unwritable unwritable.now path.now }
{
    let mut rest = unwritable;
    while let [first, after @ ..] = rest {
        if first.path == path {
            return Some(first.why);
        }
        rest = after;
    }
    None
}

/// Returns a replacement with copies of the path, the old bytes and the new bytes.
fn copy_replacement<A: Allocator + Copy>(
    alloc: A,
    path: &str,
    old: &[u8],
    new: &[u8],
) -> Result<MemoryReplacement<A>, AllocError>
    ensures { IfOk result (λ copy. replacement_of copy ≡ replacing path.now old.now new.now) }
{
    Ok(MemoryReplacement {
        path: String::from_str(alloc, path)?,
        old: copy_bytes(alloc, old)?,
        new: copy_bytes(alloc, new)?,
    })
}

impl<B: Allocator + Copy> Replace for MemoryReplacements<'_, B> {
    ghost use Rattle.std.specs.Prelude.{Some, map};
    ghost use Rattle.rl_files.specs.Replacements.{replacement_of, why_unwritable};

    ghost handed = { λ m. Some (map replacement_of m.handed.items) };

    ghost rejects = { λ m. Some (why_unwritable m.unwritable.now) };

    fn replace<A: Allocator + Copy>(
        &mut self,
        alloc: A,
        path: &str,
        old: &[u8],
        new: &[u8],
    ) -> Result<(), PathError> {
        if let Some(why) = find_unwritable(self.unwritable, path) {
            return Err(why);
        }
        let Ok(copy) = copy_replacement(self.alloc, path, old, new) else {
            return Err(PathError::OutOfMemory);
        };
        match self.handed.push(copy) {
            Ok(()) => Ok(()),
            Err(_) => Err(PathError::OutOfMemory),
        }
    }
}
