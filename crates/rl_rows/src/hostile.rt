//! Tests with incomplete and long texts. Each is passed to `Lit::new`, `skip`, `lex`, `read_all` and `is_token`. Also tests
//! attributes with many names.

use crate::Page;
use crate::literals::{call_literal, put_brief};
use crate::noted::{parts_of, put_places};
use rl_attributes::read;
use rl_grammar::strict;
use rl_program::Rejection;
use rl_tokens::{lex, whitespace};
use rust_literals::{Lit, read_all};

/// The maximum number of literals of a list that are printed.
const MOST: usize = 4;

/// Prints a line for a text: its length, and the results of `skip`, `lex`, `is_token`, `read_all` and `Lit::new`.
fn put_text(text: &str, out: &mut Page) {
    out.put("  ");
    out.put_number(text.len(), ": skip ");
    out.put_number(whitespace::skip(text).len(), "; lex ");
    put_lexed(text, out);
    put_literals(text, out)
}

/// Prints the results of `is_token`, `read_all` and `Lit::new`.
fn put_literals(text: &str, out: &mut Page) {
    if strict::is_token(text) {
        out.put("; token");
    }
    out.put("; read ");
    put_read(text, out);
    out.put("; new ");
    call_literal("brief", text, out);
    out.put("\n")
}

/// Prints the result of `lex`: the number of token trees, or an error and its position.
fn put_lexed(text: &str, out: &mut Page) {
    match lex(out.alloc, text, 0) {
        Ok(stream) => {
            out.put_number(stream.trees().len(), "");
            drop(stream)
        }
        Err(error) => {
            out.put_display(&error.kind, " ");
            out.put_number(error.at, "")
        }
    }
}

/// Prints the result of `read_all`: the number of literals and the first of them with their ranges, or an error and its range.
fn put_read(text: &str, out: &mut Page) {
    match read_all(out.alloc, text, 0) {
        Ok(literals) => {
            put_first(literals.as_slice(), out);
            drop(literals)
        }
        Err(error) => {
            out.put_display(&error, "");
            put_places(" ", error.span, out);
            drop(error)
        }
    }
}

/// Prints the number of literals, and the first of them with their ranges.
fn put_first(literals: &[Lit], out: &mut Page) {
    out.put_number(literals.len(), "");
    for literal in literals.get(..MOST).unwrap_or(literals) {
        out.put(", ");
        put_brief(literal, out);
        put_places(" ", literal.span(), out)
    }
}

/// Prints a line for each prefix of a text, as `put_text`.
pub(crate) fn cuts(text: &str, out: &mut Page) {
    let mut front = Page::new(out.alloc);
    for c in text.chars() {
        put_text(front.text.as_str(), out);
        front.put_display(&c, "")
    }
    put_text(text, out)
}

/// Prints a line for a long text, as `put_text`. The row has the parts of the text, with tabs between. Each part is a number, a
/// space, and a text that is repeated as often.
pub(crate) fn long(row: &str, out: &mut Page) {
    let mut text = Page::new(out.alloc);
    for part in row.split('\t') {
        let (count, piece) = parts_of(part, ' ');
        put_times(number_of(count), piece, &mut text)
    }
    put_text(text.text.as_str(), out)
}

/// Returns the number that `word` is in base ten, or 0.
fn number_of(word: &str) -> usize {
    word.parse::<usize>().unwrap_or(0)
}

/// Appends a text `count` times.
pub(crate) fn put_times(count: usize, piece: &str, text: &mut Page) {
    for _ in 0..count {
        text.put(piece)
    }
}

/// The number in the first attribute's name. All later numbers have as many digits.
const FIRST: usize = 10_000_000;

/// Prints the number of attributes that are parsed from a long list, and then the result for that list with the first name
/// repeated.
///
/// The row has the number of attributes, a space, and the start of their names. A number follows the start in each name.
pub(crate) fn names(row: &str, out: &mut Page) {
    let (count, front) = parts_of(row, ' ');
    let mut text = Page::new(out.alloc);
    for number in FIRST..FIRST.saturating_add(number_of(count)) {
        put_setting(front, number, &mut text)
    }
    put_attributes(text.text.as_str(), out);
    put_setting(front, FIRST, &mut text);
    put_attributes(text.text.as_str(), out)
}

/// Appends an attribute with the value 1. Its name is `front` and the number.
fn put_setting(front: &str, number: usize, text: &mut Page) {
    text.put(front);
    text.put_number(number, "=1,")
}

/// Parses attributes, and prints a line with their number, or with the error.
fn put_attributes(text: &str, out: &mut Page) {
    out.put("  ");
    match read(out.alloc, text, 0) {
        Ok(attrs) => {
            out.put_number(attrs.entries().len(), "\n");
            drop(attrs)
        }
        Err(error) => {
            out.put_display(&Rejection(&error), "\n");
            drop(error)
        }
    }
}
