//! Prints the result of a test on a text.

use crate::Page;
use crate::lists::{put_lines, put_spans};
use crate::literals::{call, call_literal};
use crate::pairs::pairs;
use crate::turns::turns;
use crate::values::equal;
use rl_grammar::strict::is_token;
use rl_program::Command;
use rl_tokens::{Error, ErrorKind, Span, whitespace};
use rust_literals::{Lit, LitFloat, LitInt};

/// Prints the result of the test `name` on a text.
///
/// - `text` prints the output line of the literal, and `value` the part of the text that is its value, or `None`.
/// - `int` and `float` print the output line of the number, or `None` for another text, or `TooLarge`.
/// - `skip` prints the number of bytes after white space and comments.
/// - `strict` prints whether the text is a token of Rust.
/// - `read`, `spans` and `attr` print lines, and then a line with a full stop. `read` and `attr` are the commands of `rl_tool`.
/// - `equal`, `pairs` and `turns` are tests of two literals, described with their functions.
///
/// Any other name prints an error.
pub(crate) fn told(name: &str, text: &str, out: &mut Page) {
    match name {
        "text" | "value" => call_literal(name, text, out),
        "int" | "float" => number(name, text, out),
        "skip" => out.put_number(whitespace::skip(text).len(), "\n"),
        "strict" => out.put_bool(is_token(text), "\n"),
        _ => told_of_list(name, text, out),
    }
}

/// Prints the result of a test on a list of literals or attributes, or of two literals.
fn told_of_list(name: &str, text: &str, out: &mut Page) {
    match name {
        "read" => put_lines(Command::Read, text, out),
        "attr" => put_lines(Command::Attr, text, out),
        "spans" => put_spans(text, out),
        _ => told_of_literals(name, text, out),
    }
}

/// Prints the result of a test of two literals.
fn told_of_literals(name: &str, text: &str, out: &mut Page) {
    match name {
        "equal" => equal(text, out),
        "pairs" => pairs(text, out),
        "turns" => turns(text, out),
        _ => out.put("error: no call\n"),
    }
}

/// Parses a text as an integer or as a float, and prints the result.
fn number(name: &str, text: &str, out: &mut Page) {
    if name == "int" {
        put_number(LitInt::new(out.alloc, text, Span::call_site()), out)
    } else {
        put_number(LitFloat::new(out.alloc, text, Span::call_site()), out)
    }
}

/// Prints the output line of a number, or the reason why the text isn't one.
fn put_number<T: Into<Lit> + Drop>(made: Result<T, Error>, out: &mut Page) {
    match made {
        Ok(number) => {
            let literal = number.into();
            call(&literal, "text", out);
            drop(literal)
        }
        Err(error) => put_rejected(error, out),
    }
}

/// Prints the reason why a text isn't a number: `None` for another text, or `TooLarge`.
fn put_rejected(error: Error, out: &mut Page) {
    match &error.kind {
        ErrorKind::NotInteger | ErrorKind::NotFloat => out.put("None\n"),
        ErrorKind::TooLarge => out.put("TooLarge\n"),
        _ => out.is_short = true,
    }
    drop(error)
}
