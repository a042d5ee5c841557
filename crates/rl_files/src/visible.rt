//! Writes texts with escapes for control characters and for invisible and bidirectional characters.

ghost use Rattle.std.specs.Prelude.{◌≡◌, ◌++◌, ◌∷◌, ◌==◌, [], cond, take, drop, IfOk, OnOk, IsTrue, string_bytes, encode_utf8_all};
ghost use Rattle.std.specs.List.{flat_map, list_all};
ghost use Rattle.std.specs.Str.{chars, IsCharBoundary};
ghost use Rattle.std.specs.Char.Escape.{escape_default};
ghost use Rattle.rl_files.specs.Visible.{visible_char, visible, visible_in_line, visible_lines, is_printable_byte, is_plain_byte};

use rl_writing::is_control_invisible_or_bidi;
use std::alloc::{AllocError, Allocator};

/// Appends the escape of a character: `\n`, `\r`, `\t`, or its number, as `\u{202e}`.
fn push_escape<A: Allocator>(out: &mut String<A>, c: char) -> Result<(), AllocError>
    ensures { OnOk result (string_bytes out.new
        ≡ string_bytes out.old ++ encode_utf8_all (escape_default c)) }
{
    for piece in c.escape_default() {
        out.push(piece)?;
    }
    Ok(())
}

/// Appends a character, or its escape if it is a control, invisible or bidirectional character.
fn push_visible_char<A: Allocator>(out: &mut String<A>, c: char) -> Result<(), AllocError>
    ensures { OnOk result (string_bytes out.new
        ≡ string_bytes out.old ++ encode_utf8_all (visible_char c)) }
{
    if is_control_invisible_or_bidi(c) {
        return push_escape(out, c);
    }
    out.push(c)?;
    Ok(())
}

/// Whether a byte is printable ASCII.
fn is_printable(byte: u8) -> bool
    ensures { result ≡ is_printable_byte byte }
{
    byte >= b' ' && byte < 127
}

/// Whether all bytes are printable ASCII.
fn are_printable(bytes: &[u8]) -> bool
    ensures { result ≡ list_all is_printable_byte bytes.now }
{
    bytes.iter().all(|byte| is_printable(*byte))
}

/// Appends a text with escapes, as `\n` and `\u{202e}`, for control, invisible and bidirectional characters. Other characters are
/// unchanged.
///
/// # Errors
///
/// Returns an error if an allocation fails. A beginning of the text may have been appended then.
pub fn push_visible<A: Allocator>(out: &mut String<A>, text: &str) -> Result<(), AllocError>
    ensures { OnOk result (chars (string_bytes out.new)
        ≡ chars (string_bytes out.old) ++ visible (chars text.now)) }
{
    if are_printable(text.as_bytes()) {
        out.push_str(text)?;
        return Ok(());
    }
    for c in text.chars() {
        push_visible_char(out, c)?;
    }
    Ok(())
}

/// Appends a character, or its escape if it is a control character other than LF, or an invisible or bidirectional character.
fn push_in_line<A: Allocator>(out: &mut String<A>, c: char) -> Result<(), AllocError>
    ensures { OnOk result (string_bytes out.new
        ≡ string_bytes out.old ++ encode_utf8_all (visible_in_line c)) }
{
    if c == '\n' {
        out.push(c)?;
        return Ok(());
    }
    push_visible_char(out, c)
}

/// Appends lines with escapes for control characters except LF, and for invisible and bidirectional characters.
fn push_visible_lines<A: Allocator>(out: &mut String<A>, lines: &str) -> Result<(), AllocError>
    ensures { OnOk result (chars (string_bytes out.new)
        ≡ chars (string_bytes out.old) ++ visible_lines (chars lines.now)) }
{
    for c in lines.chars() {
        push_in_line(out, c)?;
    }
    Ok(())
}

/// Whether a byte needs no escape in a line: it is printable ASCII or LF.
fn is_plain(byte: u8) -> bool
    ensures { result ≡ is_plain_byte byte }
{
    byte == b'\n' || is_printable(byte)
}

/// Whether no byte needs an escape in a line: all are printable ASCII or LF.
fn are_plain(bytes: &[u8]) -> bool
    ensures { result ≡ list_all is_plain_byte bytes.now }
{
    bytes.iter().all(|byte| is_plain(*byte))
}

/// Replaces control characters except LF, and invisible and bidirectional characters, by escapes. Only the text from the byte
/// offset `from` is changed.
///
/// # Errors
///
/// Returns an error if an allocation fails. A part of the text from `from` may be missing then.
pub fn make_visible<A: Allocator>(
    alloc: A,
    text: &mut String<A>,
    from: usize,
) -> Result<(), AllocError>
    requires { IsCharBoundary (string_bytes text.old) from }
    ensures { OnOk result (chars (string_bytes text.new)
        ≡ chars (take from (string_bytes text.old))
        ++ visible_lines (chars (drop from (string_bytes text.old)))) }
{
    let lines = &text.as_str()[from..];
    if are_plain(lines.as_bytes()) {
        return Ok(());
    }
    let lines = String::from_str(alloc, lines)?;
    text.truncate(from);
    push_visible_lines(text, lines.as_str())
}

/// Returns a copy of a text with escapes for invisible and bidirectional characters.
///
/// # Errors
///
/// Returns an error if an allocation fails.
pub fn visible_text<A: Allocator>(alloc: A, text: &str) -> Result<String<A>, AllocError>
    ensures { IfOk result (λ shown. chars (string_bytes shown) ≡ visible (chars text.now)) }
{
    let mut shown = String::new(alloc);
    push_visible(&mut shown, text)?;
    Ok(shown)
}
