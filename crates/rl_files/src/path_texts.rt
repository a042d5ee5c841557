//! Represents paths as texts. A path that isn't UTF-8 is represented by its escaped bytes and a NUL, which no path contains.

ghost use Rattle.std.specs.Prelude.{◌≡◌, ◌++◌, OnOk, IfOk, MatchOption, false, true, string_bytes};
ghost use Rattle.rl_files.specs.PathTexts.{byte_shown, bytes_shown, is_marked as marked, path_text as text_of, unmarked};

use std::alloc::{AllocError, Allocator};

/// Appends a byte of a path: a printable ASCII character other than `\` unchanged, another byte as its escape, as `\xe9`.
fn push_byte<A: Allocator>(out: &mut String<A>, byte: u8) -> Result<(), AllocError>
    ensures { OnOk result (string_bytes out.new ≡ string_bytes out.old ++ byte_shown byte) }
{
    if byte >= b' ' && byte < 127 && byte != b'\\' {
        out.push(char::from(byte))?;
        return Ok(());
    }
    write!(out, "\\x{byte:02x}")
}

/// Returns the escaped bytes of a path that isn't UTF-8.
pub(crate) fn escaped<A: Allocator>(alloc: A, bytes: &[u8]) -> Result<String<A>, AllocError>
    ensures { IfOk result (λ text. string_bytes text ≡ bytes_shown bytes.now) }
{
    let mut text = String::new(alloc);
    let mut rest = bytes;
    while let [byte, after @ ..] = rest {
        push_byte(&mut text, *byte)?;
        rest = after;
    }
    Ok(text)
}

/// Returns the text that represents a path. For a path that isn't UTF-8, it is the escaped bytes and a NUL, as `b\xe9.rs\0`.
///
/// # Errors
///
/// Returns an error if an allocation fails.
#[tactic(auto, using(crate::proofs::PathTextLemmas::text_unchanged, crate::proofs::PathTextLemmas::text_escaped))]
pub fn path_text<A: Allocator>(alloc: A, bytes: &[u8]) -> Result<String<A>, AllocError>
    ensures { IfOk result (λ text. string_bytes text ≡ text_of bytes.now) }
{
    match std::str::from_utf8(bytes) {
        Ok(text) => String::from_str(alloc, text),
        Err(_) => {
            let mut text = escaped(alloc, bytes)?;
            text.push('\0')?;
            Ok(text)
        }
    }
}

/// Returns the escaped bytes if the text represents a path that isn't UTF-8: the text without its NUL. Else the result is `None`.
pub fn escaped_non_utf8_path(text: &str) -> Option<&str>
    ensures { MatchOption result (marked text.now ≡ false)
        (λ shown. (marked text.now ≡ true) × (shown.now ≡ unmarked text.now)) }
{
    let end = text.len();
    if end == 0 || text.as_bytes()[end - 1] != 0 {
        return None;
    }
    Some(&text[..end - 1])
}
