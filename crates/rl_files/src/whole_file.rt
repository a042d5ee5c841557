//! Replaces a file of the operating system as a whole. After any error, and however the program ends, it has its
//! old or its new bytes.

ghost use Rattle.std.specs.Prelude.{◌≡◌, ◌≢◌, None, Some, IfOk, MatchResult, bit_and, string_bytes};
ghost use Rattle.std.specs.Fs.{permissions_mode};
ghost use Rattle.rl_files.specs.Replacements.{path_beside as beside, is_group_right as group_right, may_have_list as list_possible, why_not_replaced};
ghost use Rattle.rl_files.specs.SystemErrors.{write_error, create_error};

use crate::host::{PIECE, TURNS, error_of, read_file};
use crate::tree::PathError;
use std::alloc::{AllocError, Allocator};
use std::fs::{File, Metadata, OpenFile, OpenOptions, Permissions};
use std::io::{ErrorKind, Read, Write};
use std::os::unix::fs::{MetadataExt, OpenOptionsExt, PermissionsExt, chown};
use std::rt::Files;
use std::{fs, io};

/// The number of names that are tried for a new file.
const TRIES: u32 = 100;

/// The permission bits of a file that its replacement keeps: who may read, write and execute it.
const KEPT: u32 = 0o777;

/// The other permission bits of a file: set-user-ID, set-group-ID and sticky.
const SPECIAL: u32 = 0o7000;

/// The permission bits of a new file before it is filled: only its owner may read and write it.
const OWNERS: u32 = 0o600;

/// Returns the reason why a file can't be written, for the kind of the standard library's error.
fn write_error_of(kind: ErrorKind) -> PathError
    ensures { result ≡ write_error kind }
{
    match kind {
        ErrorKind::StorageFull => PathError::NoRoom,
        ErrorKind::ReadOnlyFilesystem => PathError::ReadOnly,
        _ => match error_of(kind) {
            PathError::ReadFailed => PathError::WriteFailed,
            why => why,
        },
    }
}

/// Returns the reason why a new file can't be created in a directory, for the kind of the standard library's error.
fn create_error_of(kind: ErrorKind) -> PathError
    ensures { result ≡ create_error kind }
{
    match kind {
        ErrorKind::PermissionDenied => PathError::DirectoryDenied,
        _ => write_error_of(kind),
    }
}

/// Returns the path of a new file in the directory of `path`: `path`, `.rl_scan-` and the number.
fn path_beside<A: Allocator>(alloc: A, path: &str, number: u32) -> Result<String<A>, AllocError>
    ensures { IfOk result (λ path_of_new. string_bytes path_of_new ≡ beside path.now number) }
{
    format!(in alloc; "{path}.rl_scan-{number}")
}

/// Whether `error` is the standard library's own error for a path that isn't UTF-8.
fn is_not_utf8(error: &io::Error) -> bool {
    error.kind() == ErrorKind::InvalidFilename && error.raw_os_error().is_none()
}

/// Returns the path of a file: `path`, or the target if `path` is a symbolic link.
fn real_path<A: Allocator, R: Files + Alloc>(
    rt: &R,
    alloc: A,
    path: &str,
) -> io::Result<String<A>> {
    if !fs::symlink_metadata(rt, path)?.is_symlink() {
        return Ok(String::from_str(alloc, path)?);
    }
    let real = fs::canonicalize(rt, path)?;
    Ok(String::from_str(alloc, real.as_str())?)
}

/// Creates a new file in the directory of `path`, and returns the file and its path.
fn open_beside<A: Allocator + Copy, R: Files>(
    rt: &R,
    alloc: A,
    path: &str,
) -> Result<(R::File, String<A>), PathError> {
    for number in 0..TRIES {
        let Ok(beside) = path_beside(alloc, path, number) else {
            return Err(PathError::OutOfMemory);
        };
        match OpenOptions::new()
            .write(true)
            .create_new(true)
            .mode(OWNERS)
            .open(rt, beside.as_str())
        {
            Ok(file) => return Ok((file, beside)),
            Err(e) if e.kind() == ErrorKind::AlreadyExists => {}
            Err(e) => return Err(create_error_of(e.kind())),
        }
    }
    Err(PathError::NamesTaken)
}

/// Writes all bytes of a new file, sets its permissions, and waits until it is stored.
fn fill<F: Write + OpenFile>(
    file: &mut F,
    bytes: &[u8],
    permissions: Permissions,
) -> io::Result<()> {
    file.write_all(bytes)?;
    file.set_permissions(permissions)?;
    file.sync_all()
}

/// The owner and the group of a file.
#[derive(Clone, Copy, PartialEq, Eq)]
struct Owner {
    user: u32,
    group: u32,
}

/// The data of a file that differ after another program has replaced it or has written to it: its number in the file system, its
/// length, and the time of its last change in seconds and nanoseconds.
#[derive(Clone, Copy)]
struct Stamp {
    node: u64,
    len: u64,
    changed: i64,
    nanos: i64,
}

/// Returns an error if the owner or the group of the new file differs from that of the old one.
fn check_owner(old: Owner, made: Owner) -> Result<(), PathError>
    ensures { MatchResult result (λ _. made ≡ old)
        (λ error. (error ≡ PathError.OwnerChanges) × (made ≢ old)) }
{
    if made == old {
        Ok(())
    } else {
        Err(PathError::OwnerChanges)
    }
}

/// Returns an error if the data of a file have changed.
fn check_stamp(before: Stamp, after: Stamp) -> Result<(), PathError>
    ensures { MatchResult result
        (λ _. (after.node ≡ before.node) × (after.len ≡ before.len) × (after.changed ≡ before.changed)
        × (after.nanos ≡ before.nanos))
        (λ error. (error ≡ PathError.Changed) × (after ≢ before)) }
{
    if after.node == before.node
        && after.len == before.len
        && after.changed == before.changed
        && after.nanos == before.nanos
    {
        Ok(())
    } else {
        Err(PathError::Changed)
    }
}

/// Returns the data by which a change of the file at `path` is detected.
fn stamp_of<R: Files>(rt: &R, path: &str) -> Result<Stamp, PathError> {
    match fs::metadata(rt, path) {
        Ok(about) => Ok(Stamp {
            node: about.ino(),
            len: about.len(),
            changed: about.ctime(),
            nanos: about.ctime_nsec(),
        }),
        Err(e) => Err(error_of(e.kind())),
    }
}

/// Returns an error if the program may not write to the file at `path`. The file is opened, and stays as it is.
fn check_writable<R: Files>(rt: &R, path: &str) -> Result<(), PathError> {
    match OpenOptions::new().append(true).open(rt, path) {
        Ok(_) => Ok(()),
        Err(e) => Err(write_error_of(e.kind())),
    }
}

/// Returns an error if the file at `path` doesn't have the bytes `old`. The file is read in pieces.
fn check_unchanged<R: Files>(rt: &R, path: &str, old: &[u8]) -> Result<(), PathError> {
    let mut file = match File::open(rt, path) {
        Ok(file) => file,
        Err(e) => return Err(error_of(e.kind())),
    };
    let mut piece = [0_u8; PIECE];
    let mut rest = old;
    for _ in 0..TURNS {
        match file.read(&mut piece) {
            Ok(0) if rest.is_empty() => return Ok(()),
            Ok(0) => return Err(PathError::Changed),
            Ok(count) => match rest.strip_prefix(&piece[..count]) {
                Some(after) => rest = after,
                None => return Err(PathError::Changed),
            },
            Err(e) if e.kind() == ErrorKind::Interrupted => {}
            Err(e) => return Err(error_of(e.kind())),
        }
    }
    Err(PathError::ReadFailed)
}

/// Writes the new file and renames it to `path`, if the file at `path` still has the bytes `old`.
///
/// The file's number, length and time of change are compared directly before the rename, since another program may write to the file while its bytes are read.
fn fill_and_rename<R: Files>(
    rt: &R,
    file: &mut R::File,
    beside: &str,
    path: &str,
    permissions: Permissions,
    old: &[u8],
    new: &[u8],
) -> Result<(), PathError> {
    if let Err(e) = fill(file, new, permissions) {
        return Err(write_error_of(e.kind()));
    }
    let before = stamp_of(rt, path)?;
    check_unchanged(rt, path, old)?;
    check_stamp(before, stamp_of(rt, path)?)?;
    match fs::rename(rt, beside, path) {
        Ok(()) => Ok(()),
        Err(e) => Err(write_error_of(e.kind())),
    }
}

/// Whether a file's group has a right that others don't have. `group` and `others` are the bits of this right.
fn is_group_right(mode: u32, group: u32, others: u32) -> bool
    ensures { result ≡ group_right mode group others }
{
    mode & group != 0 && mode & others == 0
}

/// Whether an access control list may have set the bits of a file's group: they give the group a right that others don't have, and
/// `usual`, the bits of a new file, don't do so.
///
/// The standard library doesn't tell whether a file has an access control list. If it has one, the bits of the group are the list's
/// mask: the largest rights that the list gives to anybody except the owner and others. Without the list, the group would get them.
fn may_have_list(mode: u32, usual: u32) -> bool
    ensures { result ≡ list_possible mode usual }
{
    is_group_right(mode, 0o040, 0o004) && !is_group_right(usual, 0o040, 0o004)
        || is_group_right(mode, 0o020, 0o002) && !is_group_right(usual, 0o020, 0o002)
        || is_group_right(mode, 0o010, 0o001) && !is_group_right(usual, 0o010, 0o001)
}

/// Returns the permissions that the replacement of a file gets, from the permissions and the number of hard links of the file, and
/// the bits `usual` of a new file. Returns an error if nobody may write the file, or if its replacement could differ from it in more
/// than its bytes.
fn kept_permissions(
    permissions: Permissions,
    links: u64,
    usual: u32,
) -> Result<Permissions, PathError>
    ensures { MatchResult result
        (λ kept. (permissions_mode kept ≡ bit_and (permissions_mode permissions) 0o777)
        × (why_not_replaced (permissions_mode permissions) links usual ≡ None))
        (λ error. why_not_replaced (permissions_mode permissions) links usual ≡ Some error) }
{
    let mode = permissions.mode();
    if mode & 0o222 == 0 {
        return Err(PathError::PermissionDenied);
    }
    if links > 1 {
        return Err(PathError::HardLinks);
    }
    if mode & SPECIAL != 0 || may_have_list(mode, usual) {
        return Err(PathError::RightsChange);
    }
    Ok(Permissions::from_mode(mode & KEPT))
}

/// Returns the permission bits that the umask allows for a new file, from the text of `/proc/self/status`. The umask is on a line of
/// the text: `Umask:`, a tab and digits to the base 8.
fn usual_bits_in(status: &str) -> Option<u32> {
    let (_, line) = status.split_once("\nUmask:\t")?;
    let (digits, _) = line.split_once('\n')?;
    match u32::from_str_radix(digits, 8) {
        Ok(umask) => Some(!umask),
        Err(_) => None,
    }
}

/// Returns the permission bits that the umask allows for a new file, or no bits if the system doesn't tell the umask.
fn usual_bits<A: Allocator, R: Files>(rt: &R, alloc: A) -> u32 {
    let Ok(bytes) = read_file(rt, alloc, "/proc/self/status", true) else {
        return 0;
    };
    match std::str::from_utf8(bytes.as_slice()) {
        Ok(status) => usual_bits_in(status).unwrap_or(0),
        Err(_) => 0,
    }
}

/// Returns the metadata of a file that may be replaced, or an error for a directory, a device or a pipe.
fn metadata_of<R: Files>(rt: &R, path: &str) -> Result<Metadata, PathError> {
    match fs::metadata(rt, path) {
        Ok(about) if about.is_file() => Ok(about),
        Ok(about) if about.is_dir() => Err(PathError::IsADirectory),
        Ok(_) => Err(PathError::NotAFile),
        Err(e) => Err(error_of(e.kind())),
    }
}

/// Returns the owner and the group of a file.
fn owner_of(about: &Metadata) -> Owner {
    Owner {
        user: about.uid(),
        group: about.gid(),
    }
}

/// Sets the group and the owner of a new file to those of the old one. Returns an error if they differ afterwards.
fn keep_owner<R: Files>(rt: &R, path: &str, old: Owner) -> Result<(), PathError> {
    let _ = chown(rt, path, None, Some(old.group));
    let _ = chown(rt, path, Some(old.user), None);
    match fs::metadata(rt, path) {
        Ok(about) => check_owner(old, owner_of(&about)),
        Err(e) => Err(error_of(e.kind())),
    }
}

/// Replaces the file at `path` with the bytes `new`. `old` are the bytes of the file when it was read.
///
/// The bytes are written to a new file in the same directory, which is then renamed to `path`. If `path` is a symbolic link, its
/// target is replaced, and the link stays. The permissions, the owner and the group stay. Other metadata isn't kept.
///
/// # Errors
///
/// Returns the reason why the file can't be replaced. It is `PermissionDenied` if the program may not write to the file. It is
/// `OwnerChanges` if the system doesn't allow that the new file gets the owner and the group of the old one, `HardLinks` if the file
/// has other hard links, and `RightsChange` if it has a permission bit of `SPECIAL` or may have an access control list. The file is
/// unchanged then. The new file is removed, unless that fails too.
pub(crate) fn replace_file<A: Allocator + Copy, R: Files + Alloc>(
    rt: &R,
    alloc: A,
    path: &str,
    old: &[u8],
    new: &[u8],
) -> Result<(), PathError> {
    let real = match real_path(rt, alloc, path) {
        Ok(real) => real,
        Err(e) if is_not_utf8(&e) => return Err(PathError::GivenNotUtf8),
        Err(e) => return Err(error_of(e.kind())),
    };
    let about = metadata_of(rt, real.as_str())?;
    let usual = usual_bits(rt, alloc);
    let permissions = kept_permissions(about.permissions(), about.nlink(), usual)?;
    check_writable(rt, real.as_str())?;
    let (mut file, beside) = open_beside(rt, alloc, real.as_str())?;
    let done = match keep_owner(rt, beside.as_str(), owner_of(&about)) {
        Ok(()) => fill_and_rename(
            rt,
            &mut file,
            beside.as_str(),
            real.as_str(),
            permissions,
            old,
            new,
        ),
        Err(why) => Err(why),
    };
    if done.is_err() {
        let _ = fs::remove_file(rt, beside.as_str());
    }
    done
}
