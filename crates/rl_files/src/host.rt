//! Files of the operating system.

ghost use Rattle.std.specs.Prelude.{◌≡◌, ◌+◌, ◌++◌, ◌≤◌, ℕ, Bool, List, length, string_bytes, IfOk, IfErr, IfSome, MatchOption};
ghost use Rattle.std.specs.Str.{IsValidUpTo};
ghost use Rattle.rl_files.specs.SystemErrors.{read_error, IsTrueOf};
ghost use Rattle.rl_files.specs.Entries.{is_dots as dots, with_slash as slash_after};

use crate::replace::Replace;
use crate::tree::{PathError, Tree};
use crate::walk::path_in;
use crate::whole_file::replace_file;
use std::alloc::{AllocError, Allocator};
use std::fs::{File, OpenFile};
use std::io::{BufRead, BufReader, ErrorKind, Read};
use std::rt::Files;
use std::{fs, io};

/// The maximum length of a file or of standard input: 1 GiB.
pub const LONGEST: u64 = 1 << 30;

/// The number of bytes that one call of a reader requests. The buffer is filled with zeros for each file.
pub(crate) const PIECE: usize = 4096;

/// The maximum number of calls of a reader.
pub(crate) const TURNS: u32 = u32::MAX;

/// The number of bytes of a text that are tested for UTF-8 first.
const FIRST_TEST: usize = 256 * 1024;

/// The files of the operating system, and standard input at the path `-`. Nothing is proved about their contents.
#[derive(Clone, Copy)]
pub struct Host<'r, R> {
    /// The handle for calls of the operating system.
    pub rt: &'r R,
}

/// Returns the reason why a file or a directory can't be read, for the kind of the standard library's error.
pub(crate) fn error_of(kind: ErrorKind) -> PathError
    ensures table { result ≡ read_error kind }
    ensures read { (is_text : Bool) (all : List ℕ) → IsTrueOf is_text result all }
{
    match kind {
        ErrorKind::NotFound => PathError::NotFound,
        ErrorKind::PermissionDenied => PathError::PermissionDenied,
        ErrorKind::IsADirectory => PathError::IsADirectory,
        ErrorKind::NotADirectory => PathError::NotADirectory,
        ErrorKind::InvalidFilename => PathError::PathTooLong,
        ErrorKind::OutOfMemory => PathError::OutOfMemory,
        _ => PathError::ReadFailed,
    }
}

/// Returns the offset of the first byte that isn't UTF-8, if at least four bytes begin there. A character has at most four bytes,
/// so that more bytes don't make them UTF-8.
fn invalid_at(bytes: &[u8]) -> Option<usize>
    ensures { IfSome result (λ at. IsValidUpTo bytes.now at × (at + 4 ≤ length bytes.now)) }
{
    match std::str::from_utf8(bytes) {
        Err(error) if bytes.len() - error.valid_up_to() >= 4 => Some(error.valid_up_to()),
        _ => None,
    }
}

/// Returns the reason not to read on after the bytes `bytes`, if there is one. If they must be a text, and there are `due` bytes, they
/// are tested for UTF-8.
fn why_stopped(bytes: &[u8], is_text: bool, due: usize) -> Option<PathError>
    ensures { MatchOption result (length bytes.now ≤ LONGEST)
        (λ why. (more : List ℕ) → IsTrueOf is_text why (bytes.now ++ more)) }
{
    if bytes.len() as u64 > LONGEST {
        return Some(PathError::TooLong);
    }
    if !is_text || bytes.len() < due {
        return None;
    }
    match invalid_at(bytes) {
        Some(at) => Some(PathError::NotUtf8(at)),
        None => None,
    }
}

/// Returns the number of bytes at which a text is tested next. It has `len` bytes, and was tested at `due` bytes if it has that many.
fn next_test(due: usize, len: usize) -> usize {
    if len < due {
        return due;
    }
    len.saturating_mul(64)
}

/// Returns all bytes of a reader. The list has room for `room` bytes from the start.
///
/// If they must be a text, they are tested for UTF-8 each time that their number is 64 times that of the last test. So a binary file is
/// not read whole, and the tests take little time.
///
/// # Errors
///
/// Returns `TooLong` if there are more than `LONGEST` bytes, `NotUtf8` if they must be a text and are found not to be one, and else
/// the reason why reading failed.
pub(crate) fn read_all<A: Allocator, R: Read + Drop>(
    alloc: A,
    mut reader: R,
    is_text: bool,
    room: usize,
) -> Result<Vec<u8, A>, PathError>
    ensures bytes { IfOk result (λ bytes. IfSome (R.remaining reader) (λ all. bytes.items ≡ all)) }
    ensures limit { IfOk result (λ bytes. length bytes.items ≤ LONGEST) }
    ensures error { IfErr result (λ error. IfSome (R.remaining reader) (IsTrueOf is_text error)) }
{
    let Ok(mut bytes) = Vec::with_capacity(alloc, room) else {
        return Err(PathError::OutOfMemory);
    };
    let mut piece = [0_u8; PIECE];
    let mut due = FIRST_TEST;
    for _ in 0..TURNS {
        match reader.read(&mut piece) {
            Ok(0) => return Ok(bytes),
            Ok(count) => {
                if bytes.extend_from_slice(&piece[..count]).is_err() {
                    return Err(PathError::OutOfMemory);
                }
                if let Some(why) = why_stopped(bytes.as_slice(), is_text, due) {
                    return Err(why);
                }
                due = next_test(due, bytes.len());
            }
            Err(e) if e.kind() == ErrorKind::Interrupted => {}
            Err(e) => return Err(error_of(e.kind())),
        }
    }
    Err(PathError::ReadFailed)
}

/// Returns all bytes of the file at `path`, as `read_all` does. A file that is too long by its metadata isn't read.
pub(crate) fn read_file<A: Allocator, R: Files>(
    rt: &R,
    alloc: A,
    path: &str,
    is_text: bool,
) -> Result<Vec<u8, A>, PathError> {
    let file = match File::open(rt, path) {
        Ok(file) => file,
        Err(e) => return Err(error_of(e.kind())),
    };
    let room = match file.metadata() {
        Ok(about) if about.len() > LONGEST => return Err(PathError::TooLong),
        Ok(about) => (about.len() as usize).min(FIRST_TEST),
        Err(_) => 0,
    };
    read_all(alloc, file, is_text, room)
}

/// Returns all bytes of standard input, if the path is `-`, or of the file at the path.
fn read_path<A: Allocator, R: Files + Input>(
    rt: &R,
    alloc: A,
    path: &str,
    is_text: bool,
) -> Result<Vec<u8, A>, PathError> {
    if path == "-" {
        return read_all(alloc, rt.reader(), is_text, 0);
    }
    read_file(rt, alloc, path, is_text)
}

/// Returns the path of a directory with a slash at its end, so that the system follows a link to a directory. An empty path stays
/// empty.
fn with_slash<A: Allocator>(alloc: A, path: &str) -> Result<String<A>, AllocError>
    ensures { IfOk result (λ directory. string_bytes directory ≡ slash_after path.now) }
{
    let mut directory = String::from_str(alloc, path)?;
    if !path.is_empty() && !path.as_bytes().ends_with(b"/".as_slice()) {
        directory.push('/')?;
    }
    Ok(directory)
}

/// Whether a name in a directory is `.` or `..`: the directory itself, or the directory that contains it.
fn is_dots(name: &[u8]) -> bool
    ensures { result ≡ dots name.now }
{
    name == b".".as_slice() || name == b"..".as_slice()
}

/// Returns `true` for a directory and `false` for a file. Returns `None` for a link or a device, and for a path that has vanished
/// since it was listed.
fn directory_or_file<R: Files>(rt: &R, path: &str) -> io::Result<Option<bool>> {
    match fs::symlink_metadata(rt, path) {
        Ok(about) if about.is_dir() => Ok(Some(true)),
        Ok(about) if about.is_file() => Ok(Some(false)),
        Ok(_) => Ok(None),
        Err(e) if e.kind() == ErrorKind::NotFound => Ok(None),
        Err(e) => Err(e),
    }
}

/// Appends a name in a directory to `names`, unless it is `.` or `..`, or the name of a link or a device. A slash follows the name of
/// a directory. If the name isn't UTF-8, it is appended unchanged, because the standard library asks the system only about paths
/// that are UTF-8.
fn push_entry<A: Allocator + Copy, R: Files>(
    rt: &R,
    alloc: A,
    directory: &str,
    mut name: Vec<u8, A>,
    names: &mut Vec<Vec<u8, A>, A>,
) -> io::Result<()> {
    if is_dots(name.as_slice()) {
        return Ok(());
    }
    let path = path_in(alloc, directory, name.as_slice())?;
    if let Ok(path) = std::str::from_utf8(path.as_slice()) {
        match directory_or_file(rt, path)? {
            Some(true) => name.push(b'/')?,
            Some(false) => {}
            None => return Ok(()),
        }
    }
    names.push(name)?;
    Ok(())
}

/// Returns the names of the files and directories in a directory. A slash follows the name of a directory, if the name is UTF-8.
///
/// The system returns the names as one text, in which a NUL ends each name. It returns only whole names, so each read needs space for
/// the longest name. A `BufReader` reads 8,192 bytes at once.
fn list_directory<A: Allocator + Copy, R: Files>(
    rt: &R,
    alloc: A,
    path: &str,
) -> io::Result<Vec<Vec<u8, A>, A>> {
    let mut names = Vec::new(alloc);
    let directory = with_slash(alloc, path)?;
    let entries = rt.open_dir(directory.as_str())?;
    for name in BufReader::new(alloc, entries)?.split(alloc, 0) {
        push_entry(rt, alloc, directory.as_str(), name?, &mut names)?;
    }
    Ok(names)
}

impl<R: Files + Input> Tree for Host<'_, R> {
    ghost use Rattle.std.specs.Prelude.{None};

    ghost holds = { λ _. None };

    fn bytes<A: Allocator>(&self, alloc: A, path: &str) -> Result<Vec<u8, A>, PathError> {
        read_path(self.rt, alloc, path, true)
    }

    fn any_bytes<A: Allocator>(&self, alloc: A, path: &str) -> Result<Vec<u8, A>, PathError> {
        read_path(self.rt, alloc, path, false)
    }

    fn names<A: Allocator + Copy>(
        &self,
        alloc: A,
        path: &str,
    ) -> Result<Vec<Vec<u8, A>, A>, PathError> {
        if path == "-" {
            return Err(PathError::NotADirectory);
        }
        match list_directory(self.rt, alloc, path) {
            Ok(names) => Ok(names),
            Err(e) => Err(error_of(e.kind())),
        }
    }
}

impl<R: Files + Alloc> Replace for Host<'_, R> {
    ghost use Rattle.std.specs.Prelude.{None};

    ghost handed = { λ _. None };

    ghost rejects = { λ _. None };

    /// Replaces a file of the operating system. Standard input can't be replaced, since it isn't a file.
    fn replace<A: Allocator + Copy>(
        &mut self,
        alloc: A,
        path: &str,
        old: &[u8],
        new: &[u8],
    ) -> Result<(), PathError> {
        if path == "-" {
            return Err(PathError::NotAFile);
        }
        replace_file(self.rt, alloc, path, old, new)
    }
}
