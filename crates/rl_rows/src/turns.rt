//! Tests two parsers that consume the token trees of one buffer in turn.

use crate::Page;
use crate::noted::noted;
use rl_tokens::{ParseBuffer, Span, lex};
use rust_literals::Lit;

/// Parses the token trees of a text by the parser of literals and by `punct` in turn, and prints the results. Then prints whether
/// the buffer is empty.
pub(crate) fn turns(text: &str, out: &mut Page) {
    if let Some(stream) = noted(lex(out.alloc, text, 0), out) {
        let mut input = ParseBuffer::new(stream.trees(), Span::call_site());
        for _ in stream.trees() {
            if !input.is_empty() {
                put_turn(&mut input, out)
            }
        }
        out.put_bool(input.is_empty(), "\n");
        drop(stream)
    }
}

/// Prints the next literal, and then the result of `punct`: the punctuation character, or `none` without one.
fn put_turn(input: &mut ParseBuffer<'_>, out: &mut Page) {
    if let Some(literal) = noted(input.parse::<Lit>(out.alloc), out) {
        out.put_display(&literal, " ");
        drop(literal)
    }
    match input.punct() {
        Some(mark) => out.put_display(&mark.as_char(), " "),
        None => out.put("none "),
    }
}
