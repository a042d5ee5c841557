//! Runs the test in a line of input. A line is a test's name, a space, and a text in pairs of hexadecimal digits. Or it is `plain`,
//! a space, and a row of plain text.

use crate::noted::parts_of;
use crate::{Page, answer, plain, streams};
use rl_program::decode_hex;
use std::alloc::{AllocError, Global};

/// Returns the result of the test in a line of input. The line has all bytes up to an LF, also a CR.
pub(crate) fn told(alloc: Global, line: Vec<u8>) -> Result<String, AllocError> {
    let mut out = Page::new(alloc);
    append_line(line.as_slice(), &mut out);
    drop(line);
    out.finish()
}

/// Runs the test in a line of input, and prints its result.
fn append_line(line: &[u8], out: &mut Page) {
    match std::str::from_utf8(line) {
        Ok(row) => append_row(row, out),
        Err(_) => out.put("error: line is not UTF-8\n"),
    }
}

/// Runs the test of a row, and prints its result.
fn append_row(row: &str, out: &mut Page) {
    let (name, rest) = parts_of(row, ' ');
    if name == "plain" {
        plain::told(rest, out)
    } else {
        append_digits(name, rest, out)
    }
}

/// Runs the test `name` on the bytes that pairs of hexadecimal digits encode, and prints its result. Without such pairs, it prints an
/// error.
fn append_digits(name: &str, digits: &str, out: &mut Page) {
    match decode_hex(out.alloc, digits.as_bytes()) {
        Ok(Some(bytes)) => append_bytes(name, bytes.as_slice(), out),
        Ok(None) => out.put("error: input is not hexadecimal\n"),
        Err(_) => out.is_short = true,
    }
}

/// Runs the test `name` on bytes, and prints its result. Most tests need the bytes as text. If the bytes of such a test aren't
/// UTF-8, it prints an error.
fn append_bytes(name: &str, bytes: &[u8], out: &mut Page) {
    let (word, words) = parts_of(name, ':');
    if word == "run" {
        return streams::told(words, bytes, out);
    }
    match std::str::from_utf8(bytes) {
        Ok(text) => answer::told(name, text, out),
        Err(_) => out.put("error: input is not UTF-8\n"),
    }
}
