//! Writes characters, texts and numbers into the output: with escapes for invisible characters, for JSON, and for annotations.

use crate::failure::Appended;
use rl_files::is_control_invisible_or_bidi;
use rl_program::need_no_escapes;
use std::alloc::{AllocError, Allocator};

/// The characters before a character in a line of text. A runner of GitHub takes a line for a command if the line contains `##[`,
/// or if it begins with `::` after white space. So the last character of `##[` and of such a `::` is printed as an escape.
#[derive(Clone, Copy)]
pub(crate) enum Before {
    /// Only white space.
    Space,
    /// White space and a colon.
    Colon,
    /// A `#`.
    Hash,
    /// Two `#`.
    Hashes,
    Other,
    /// The start of an annotation, which is a command as it is. A `%` is escaped in it.
    Annotation,
}

impl Before {
    /// Returns the description after one more character.
    fn after(self, c: char) -> Before {
        match (self, c) {
            (Before::Annotation, _) => self,
            (Before::Space, ':') => Before::Colon,
            (Before::Hash | Before::Hashes, '#') => Before::Hashes,
            (_, '#') => Before::Hash,
            (Before::Space, c) if c.is_whitespace() => Before::Space,
            _ => Before::Other,
        }
    }

    /// Whether the character completes the start of a command.
    fn completes_command(self, c: char) -> bool {
        matches!((self, c), (Before::Colon, ':') | (Before::Hashes, '['))
    }
}

/// How the output shows characters that it doesn't show unchanged.
#[derive(Clone, Copy)]
pub(crate) enum Escapes {
    /// As a literal does: `\n`, `\u{202e}`.
    Literal,
    /// As a literal does, except that a tab is unchanged.
    Line,
    /// As numbers: `<U+202E>`. LF, CR and tab are shown as `\n`, `\r` and `\t`.
    Numbers,
    /// As a string of JSON does.
    Json,
}

/// Appends the escape of a character in a JSON string, as one or two code units of UTF-16.
fn push_json_number<A: Allocator>(out: &mut String<A>, c: char) -> Appended {
    let code = c as u32;
    if code < 0x1_0000 {
        return write!(out, "\\u{code:04x}");
    }
    let above = code - 0x1_0000;
    let (high, low) = (0xD800 + above / 0x400, 0xDC00 + above % 0x400);
    write!(out, "\\u{high:04x}\\u{low:04x}")
}

/// Appends a character as an escape.
fn push_hidden<A: Allocator>(out: &mut String<A>, escapes: Escapes, c: char) -> Appended {
    let code = c as u32;
    match (escapes, c) {
        (Escapes::Line, '\t') => out.push(c),
        (_, '\n') => out.push_str("\\n"),
        (_, '\r') => out.push_str("\\r"),
        (_, '\t') => out.push_str("\\t"),
        (Escapes::Numbers, _) => write!(out, "<U+{code:04X}>"),
        (Escapes::Json, _) => push_json_number(out, c),
        (Escapes::Literal | Escapes::Line, _) => write!(out, "\\u{{{code:x}}}"),
    }
}

/// Appends a character, or its escape. `before` describes the characters before it. Returns the description after it.
pub(crate) fn push_char<A: Allocator>(
    out: &mut String<A>,
    escapes: Escapes,
    before: Before,
    c: char,
) -> Result<Before, AllocError> {
    if is_control_invisible_or_bidi(c) {
        push_hidden(out, escapes, c)?;
        return Ok(before.after(c));
    }
    match escapes {
        Escapes::Json => {
            if matches!(c, '"' | '\\') {
                out.push('\\')?;
            }
            out.push(c)?;
        }
        _ if before.completes_command(c) => push_hidden(out, escapes, c)?,
        _ if c == '%' && matches!(before, Before::Annotation) => out.push_str("%25")?,
        _ => out.push(c)?,
    }
    Ok(before.after(c))
}

/// Whether a text has only printable ASCII characters, and no `##[`.
fn is_plain(text: &str) -> bool {
    let mut is_odd = false;
    let mut has_bracket = false;
    for byte in text.as_bytes() {
        is_odd = is_odd | (*byte < b' ') | (*byte > b'~');
        has_bracket = has_bracket | (*byte == b'[');
    }
    !is_odd && !(has_bracket && text.contains("##["))
}

/// Appends a text with escapes. `before` describes the characters before it.
pub(crate) fn push_text<A: Allocator>(
    out: &mut String<A>,
    escapes: Escapes,
    before: Before,
    text: &str,
) -> Appended {
    let needs_none = match (escapes, before) {
        (Escapes::Json, _) => need_no_escapes(text.as_bytes()),
        (_, Before::Annotation) => false,
        (_, Before::Space) => is_plain(text) && !text.contains("::"),
        _ => is_plain(text),
    };
    if needs_none {
        return out.push_str(text);
    }
    let mut last = before;
    for c in text.chars() {
        last = push_char(out, escapes, last, c)?;
    }
    Ok(())
}

fn last_digit(number: usize) -> char {
    char::from(b'0'.wrapping_add((number % 10) as u8))
}

/// Appends a number. `write!` takes three times as many instructions.
pub(crate) fn push_number<A: Allocator>(out: &mut String<A>, number: usize) -> Appended {
    if number > 99_999 {
        return write!(out, "{number}");
    }
    for start in [number / 10_000, number / 1_000, number / 100, number / 10] {
        if start > 0 {
            out.push(last_digit(start))?;
        }
    }
    out.push(last_digit(number))
}

/// Appends a path as the value of a property of an annotation.
pub(crate) fn push_property<A: Allocator>(out: &mut String<A>, path: &str) -> Appended {
    for c in path.chars() {
        match c {
            ':' => out.push_str("%3A")?,
            ',' => out.push_str("%2C")?,
            _ => {
                let _ = push_char(out, Escapes::Literal, Before::Annotation, c)?;
            }
        }
    }
    Ok(())
}
