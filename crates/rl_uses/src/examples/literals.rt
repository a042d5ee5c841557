//! Examples of `rust_literals`: functions for literals of any kind, for numbers, and for all literals of a text.

use rl_grammar::{LineEnds, explain_missing_value};
use rl_tokens::{Literal, Span, Tokens};
use rust_literals::{Lit, LitFloat, Literals, push_leading_literal, read_all};
use std::alloc::Global;

/// Returns the value of the byte, character or `bool` literal `text` as a number.
pub fn value_as_number(alloc: Global, text: &str) -> Option<u32> {
    let token = Literal::from_text(alloc, text, Span::call_site()).ok()?;
    match Lit::new(alloc, token).ok()? {
        Lit::Byte(byte) => Some(byte.value() as u32),
        Lit::Char(character) => Some(character.value() as u32),
        Lit::Bool(truth) => Some(truth.value() as u32),
        _ => None,
    }
}

/// Returns the digits of the float literal `text` in base ten, or `text` itself if it isn't a float literal.
pub fn float_digits_or_text(alloc: Global, text: &str) -> Option<String> {
    let token = Literal::from_text(alloc, text, Span::call_site()).ok()?;
    match LitFloat::from_token(alloc, token) {
        Ok(literal) => String::from_str(alloc, literal.base10_digits()).ok(),
        Err(kept) => String::from_str(alloc, kept.value.text()).ok(),
    }
}

/// Returns the reason why the first literal of `text` has no value in Rust, and the byte offset of its invalid part.
/// Returns `None` if the literal has a value.
pub fn first_value_flaw(alloc: Global, text: &str) -> Option<(&'static str, usize)> {
    let literals = read_all(alloc, text, 0).ok()?;
    let literal = literals.as_slice().first()?;
    let flaw = explain_missing_value(literal.text(), LineEnds::Text, true)?;
    Some((flaw.kind.message(), flaw.in_span(literal.span()).lo))
}

/// Returns the text after the literal at the start of `text`.
pub fn text_after_literal(alloc: Global, text: &str) -> Option<&str> {
    let mut tokens = Tokens::new(text);
    let mut list: Vec<Lit> = Vec::new(alloc);
    let is_read = push_leading_literal(alloc, &mut tokens, 0, &mut list).ok()?;
    is_read.then_some(tokens.rest())
}

/// Returns the decoded value of the second literal of `text`, if it is a string.
pub fn second_string(alloc: Global, text: &str) -> Option<String> {
    let mut literals = Literals::new(alloc, text, 0);
    literals.next().ok()?;
    match literals.next().ok()?? {
        Lit::Str(literal) => literal.value(alloc).ok(),
        _ => None,
    }
}
