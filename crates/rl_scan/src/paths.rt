//! The paths that a call reads, and the extensions of the files to read.

use crate::args::Args;
use crate::checks::{extension_in, is_input};
use crate::failure::{Done, Failure};
use crate::style::unread_file;
use rl_files::{Tree, push_listed_paths};
use std::alloc::{AllocError, Allocator};

/// Checks that a call reads standard input at most once: as a source, a list or a style.
fn check_input<A: Allocator + Copy>(alloc: A, args: &Args<'_, A>, paths: &[String<A>]) -> Done<A> {
    let mut count = 0_usize;
    for path in paths {
        if is_input(path.as_str()) {
            count = count.saturating_add(1);
        }
    }
    for given in args.given.as_slice() {
        if (given.name == "--files-from" || given.name == "--style") && is_input(given.value) {
            count = count.saturating_add(1);
        }
    }
    if count > 1 {
        return Err(Failure::said(alloc, "standard input can be read only once: pass - once"));
    }
    Ok(())
}

/// Returns the paths of a call, and those in the files of `--files-from`. Without a path and a list, the result is the current
/// directory if `reads_here`, or else standard input.
///
/// # Errors
///
/// Returns an error if a list can't be read, if standard input would be read twice, or if an allocation fails.
pub(crate) fn paths_of<A: Allocator + Copy, T: Tree>(
    alloc: A,
    args: &Args<'_, A>,
    tree: &T,
    reads_here: bool,
) -> Result<Vec<String<A>, A>, Failure<A>> {
    let mut paths = Vec::new(alloc);
    for path in args.paths.as_slice() {
        paths.push(String::from_str(alloc, path)?)?;
    }
    let lists = args.all(alloc, "--files-from")?;
    if lists.is_empty() && paths.is_empty() {
        paths.push(String::from_str(alloc, if reads_here { "." } else { "-" })?)?;
    }
    if let Err(unread) = push_listed_paths(alloc, tree, lists.as_slice(), &mut paths) {
        return Err(unread_file(alloc, unread.file, unread.why)?);
    }
    check_input(alloc, args, paths.as_slice())?;
    Ok(paths)
}

/// Returns the extensions of the files to read in directories.
pub(crate) fn extensions_of<'a, A: Allocator + Copy>(
    alloc: A,
    args: &Args<'a, A>,
) -> Result<Vec<&'a str, A>, AllocError> {
    let mut extensions = Vec::new(alloc);
    let given = args.all(alloc, "--extension")?;
    for extension in given.as_slice() {
        extensions.push(extension_in(extension))?;
    }
    if extensions.is_empty() {
        extensions.push("rs")?;
    }
    Ok(extensions)
}
