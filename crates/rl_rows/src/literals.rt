//! Tests that call functions of a literal.

use crate::Page;
use crate::borrowed::put_borrowed;
use crate::noted::{HERE, literal_of, noted, parts_of};
use rl_program::output_line;
use rust_literals::Lit;

/// The maximum length of an output line that is printed by `brief`. A longer line is printed as its length.
const LONGEST: usize = 100;

/// Parses a text as a literal, makes the calls of the test `word` on it, and prints their results.
pub(crate) fn call_literal(word: &str, text: &str, out: &mut Page) {
    if let Some(literal) = literal_of(text, HERE, out) {
        call(&literal, word, out);
        drop(literal)
    }
}

/// Makes the calls of the test `word` on a literal, and prints their results. The words are `text`, `brief` and `value`.
pub(crate) fn call(literal: &Lit, word: &str, out: &mut Page) {
    match word {
        "text" => put_line(literal, out),
        "brief" => put_brief(literal, out),
        _ => put_borrowed(literal, out),
    }
}

/// Prints the output line of a literal.
fn put_line(literal: &Lit, out: &mut Page) {
    if let Some(line) = noted(output_line(out.alloc, literal), out) {
        out.put(line.as_str())
    }
}

/// Prints the output line of a literal without its line end. For a long line it prints the kind and the number of bytes.
pub(crate) fn put_brief(literal: &Lit, out: &mut Page) {
    if let Some(line) = noted(output_line(out.alloc, literal), out) {
        let (line, _) = parts_of(line.as_str(), '\n');
        if line.len() <= LONGEST {
            out.put(line)
        } else {
            let (kind, _) = parts_of(line, ' ');
            out.put_with_ending(kind, " in a line of ");
            out.put_number(line.len(), "")
        }
    }
}
