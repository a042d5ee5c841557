//! The check that a setting's path contains no backslash, with the position of the first backslash in the file.

ghost use Rattle.std.specs.Prelude.{◌≡◌, IfOk};
ghost use Rattle.std.specs.List.{position};
ghost use Rattle.rl_attributes.specs.AttributeParsing.{entries_of};
ghost use Rattle.rl_uses.specs.Paths.{IsBackslashOf, IsBackslashSet, IsPathText, is_backslash};

use rl_attributes::{Attrs, Setting, SettingError, read};
use rl_tokens::Span;
use rust_literals::{Lit, LitStr};
use std::alloc::Allocator;

/// The setting `path`, a path without backslashes.
const PATH: Setting = Setting {
    name: "path",
    expected: "a path without backslashes",
};

/// Returns the byte offset of the first backslash in `text`, or `None` if there is none.
fn first_backslash(text: &[u8]) -> Option<usize>
    ensures { result ≡ position is_backslash text.now }
{
    text.iter().position(|b| *b == b'\\')
}

/// Returns the span in the file from which the first backslash in the decoded value of the string literal `literal`
/// comes, or `None` if there is no backslash. The span may be that of an escape.
fn backslash_of<A: Allocator + Copy>(
    alloc: A,
    literal: &LitStr<A>,
) -> Result<Option<Span>, SettingError<A>>
    ensures { IfOk result (IsBackslashOf literal.now) }
{
    let value = literal.value(alloc)?;
    match first_backslash(value.as_bytes()) {
        Some(at) => Ok(Some(literal.span_of(at, at + 1))),
        None => Ok(None),
    }
}

/// Returns the span in the file from which the first backslash of the path comes that the attributes `attrs` set.
/// Returns `None` if there is no backslash, or if `path` isn't set.
fn backslash_set<A: Allocator + Copy>(
    alloc: A,
    attrs: &Attrs<A>,
) -> Result<Option<Span>, SettingError<A>>
    ensures { IfOk result (IsBackslashSet (entries_of attrs.now)) }
{
    match attrs.get(PATH.name) {
        None => Ok(None),
        Some(Lit::Str(literal)) => backslash_of(alloc, literal),
        Some(other) => Err(SettingError::Kind(PATH, other.span())),
    }
}

/// Returns the span in the file from which the first backslash of the path comes that the settings in `text` set.
/// Returns `None` if there is no backslash, or if `path` isn't set.
///
/// # Errors
///
/// Returns the errors of [`read`]. Returns `Kind` at the value of `path` if it isn't a string.
pub fn backslash_in_path<A: Allocator + Copy>(
    alloc: A,
    text: &str,
    file: u32,
) -> Result<Option<Span>, SettingError<A>>
    ensures { IfOk result (IsPathText A text.now file) }
{
    let attrs = read(alloc, text, file)?;
    backslash_set(alloc, &attrs)
}
