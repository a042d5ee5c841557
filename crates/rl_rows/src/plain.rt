//! Tests whose rows are plain text: with incomplete and long texts, and with calls whose allocations fail. In the row, characters
//! like `␊` represent control characters.
//!
//! The first word of a row selects the test:
//!
//! - `cut`: each prefix of the text that follows.
//! - `long`: a text of repeated parts.
//! - `names`: attributes with many names. Their number and the start of the names follow.
//! - `lent`: the value of a string, with one allocation. The text that follows is repeated ten thousand times.
//! - `ample`: a call without failures. A type, the name of a function and a text follow.
//! - `run` and `attributes`: a command, whose name and input follow, or the parser of attributes. Each allocation fails in turn.
//! - The name of a type, or `free`: a call, while each allocation fails in turn. The name of a function and a text follow.

use crate::Page;
use crate::hostile::{cuts, long, names};
use crate::memory::rows::{lent, put_ample, put_failures, put_results};
use crate::noted::parts_of;

/// Prints the row of a test, and its result.
pub(crate) fn told(row: &str, out: &mut Page) {
    out.put_with_ending(row, "\n");
    let mut text = Page::new(out.alloc);
    put_unpictured(row, &mut text);
    append(text.text.as_str(), out)
}

/// Prints the result of a row's test.
fn append(row: &str, out: &mut Page) {
    let (of, rest) = parts_of(row, ' ');
    match of {
        "cut" => cuts(rest, out),
        "long" => long(rest, out),
        "names" => names(rest, out),
        _ => append_failing(of, rest, row, out),
    }
}

/// Prints the result of a row's test of a call whose allocations fail.
fn append_failing(of: &str, rest: &str, row: &str, out: &mut Page) {
    match of {
        "lent" => lent(rest, out),
        "ample" => put_ample(rest, out),
        "run" | "attributes" => put_results(row, out),
        _ => put_failures(row, out),
    }
}

/// Appends a text in which characters like `␊` are replaced by the control characters that they represent.
fn put_unpictured(text: &str, out: &mut Page) {
    for c in text.chars() {
        out.put_display(&unpictured(c), "")
    }
}

/// Returns the control character that a character like `␊` represents, and any other character unchanged.
fn unpictured(c: char) -> char {
    match c {
        '␊' => '\n',
        '␍' => '\r',
        '␉' => '\t',
        '␀' => '\0',
        c => c,
    }
}
