//! Prints results of several lines: the lines of a command, or the ranges of literals. A line with a full stop ends the result.

use crate::Page;
use crate::noted::noted;
use rl_program::run::run;
use rl_program::{Command, Rejection, label_of};
use rl_tokens::{Error, Literal};
use rust_literals::{Lit, read_all};

/// Runs a command on a text, and prints its output lines, or the line of its error. A line with a full stop follows.
pub(crate) fn put_lines(command: Command, text: &str, out: &mut Page) {
    let mut lines = Vec::new(out.alloc);
    let mut input = text.as_bytes();
    match run(out.alloc, command, &mut input, &mut lines) {
        Ok(()) => put_bytes(lines.as_slice(), out),
        Err(error) => {
            out.put_display(&error, "\n");
            drop(error)
        }
    }
    out.put(".\n")
}

/// Prints bytes as text.
pub(crate) fn put_bytes(bytes: &[u8], out: &mut Page) {
    match std::str::from_utf8(bytes) {
        Ok(text) => out.put(text),
        Err(_) => out.is_short = true,
    }
}

/// Parses a list of literals, and prints the kind, the range and the text of each, one literal a line. If parsing fails, it prints
/// the error. A line with a full stop follows.
pub(crate) fn put_spans(text: &str, out: &mut Page) {
    match read_all(out.alloc, text, 0) {
        Ok(literals) => {
            put_each_span(literals.as_slice(), out);
            drop(literals)
        }
        Err(error) => {
            out.put_display(&Rejection(&error), "\n.\n");
            drop(error)
        }
    }
}

/// Prints the kind, the range and the text of each literal, one literal a line, and a line with a full stop.
fn put_each_span(literals: &[Lit], out: &mut Page) {
    for literal in literals {
        put_span(literal, out);
    }
    out.put(".\n")
}

/// Prints a literal's kind, its range, and its text.
fn put_span(literal: &Lit, out: &mut Page) {
    let span = literal.span();
    out.put_with_ending(label_of(literal.kind()), " ");
    out.put_number(span.lo, "..");
    out.put_number(span.hi, " ");
    put_token(Literal::string(out.alloc, literal.text()), out)
}

/// Prints the text of a token, and a line end.
pub(crate) fn put_token(made: Result<Literal, Error>, out: &mut Page) {
    if let Some(token) = noted(made, out) {
        out.put_with_ending(token.text(), "\n");
        drop(token)
    }
}
