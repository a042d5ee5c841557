//! Examples of `rl_quoted`: functions for quoted literals and their decoded values.

use rl_quoted::{LitByteStr, LitCStr, LitStr};
use rl_tokens::{ByParse, Span, parse_all};
use rust_literals::Lit;
use std::alloc::Global;

/// Returns the value of the string literal `text`. The literal is decoded only if its value differs from the text
/// between its quotes.
pub fn string_value(alloc: Global, text: &str) -> Option<String> {
    let literal = parse_all::<LitStr, Global>(alloc, text, 0).ok()?;
    match literal.value_ref() {
        Some(value) => String::from_str(alloc, value).ok(),
        None => literal.value(alloc).ok(),
    }
}

/// Returns the text of the string literal that represents `value`.
pub fn string_literal_text(alloc: Global, value: &str) -> Option<String> {
    let literal = LitStr::new(alloc, value, Span::call_site()).ok()?;
    String::from_str(alloc, literal.text()).ok()
}

/// Returns the number of bytes in the value of the byte string literal `text`. The literal is decoded only if its value
/// differs from the text between its quotes.
pub fn byte_string_len(alloc: Global, text: &str) -> Option<usize> {
    let literal = parse_all::<LitByteStr, Global>(alloc, text, 0).ok()?;
    match literal.value_ref() {
        Some(value) => Some(value.len()),
        None => Some(literal.value(alloc).ok()?.len()),
    }
}

/// Returns the number of bytes in the value of the C string literal `text`.
pub fn c_string_len(alloc: Global, text: &str) -> Option<usize> {
    let literal = parse_all::<LitCStr, Global>(alloc, text, 0).ok()?;
    Some(literal.value(alloc).ok()?.as_bytes().len())
}

/// Returns the byte offset in the file from which the first opening brace in the value of the string literal `text`
/// comes.
pub fn brace_offset_in_file(alloc: Global, text: &str) -> Option<usize> {
    let literal = parse_all::<LitStr, Global>(alloc, text, 0).ok()?;
    let value = literal.value(alloc).ok()?;
    let at = value.as_str().find('{')?;
    Some(literal.span_of(at, at + 1).lo())
}

/// Returns the span in the file of the literal inside the string literal `text`, or of the error inside it.
pub fn inner_literal_span(alloc: Global, text: &str) -> Option<Span> {
    let literal = parse_all::<LitStr, Global>(alloc, text, 0).ok()?;
    match literal.parse_in_file(alloc, ByParse::<Lit>::new()) {
        Ok(inner) => Some(inner.span()),
        Err(error) => Some(error.span),
    }
}
