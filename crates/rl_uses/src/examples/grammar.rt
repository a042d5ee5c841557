//! Examples of `rl_grammar`: functions that examine one text. Most of them allocate nothing.

use rl_grammar::strict::{Reading, is_token, read};
use rl_grammar::{
    Kind, LineEnds, SegmentValue, Segments, explain, explain_missing_value, float_parts,
    integer_parts, is_plain, shape, str_of, text_offset,
};
use std::alloc::Global;

/// Returns `true` if `text` is a literal of Rust.
pub fn is_rust_literal(text: &str) -> bool {
    is_token(text)
}

/// Returns the value of the integer literal `text`, by Rust's own grammar.
pub fn integer_value(text: &str) -> Option<u128> {
    match read(text, LineEnds::Text, false) {
        Ok(Reading::Integer(magnitude, _)) => magnitude,
        _ => None,
    }
}

/// Returns the suffix of the literal `text`.
pub fn suffix_of(text: &str) -> Option<&str> {
    Some(shape(text)?.suffix)
}

/// Returns the digits of the hexadecimal integer literal `text`.
pub fn hex_digits(text: &str) -> Option<&str> {
    let parts = integer_parts(text)?;
    (parts.radix == 16).then_some(parts.digits)
}

/// Returns the text after the exponent's letter in the float literal `text`.
pub fn exponent_of(text: &str) -> Option<&str> {
    float_parts(text)?.exponent
}

/// Returns the reason why `text` isn't a literal of Rust.
pub fn why_invalid(text: &str) -> Option<&'static str> {
    Some(explain(text)?.kind.message())
}

/// Returns `true` if `text` is a literal of Rust, or a minus and a number.
pub fn is_signed_literal(text: &str) -> bool {
    read(text, LineEnds::Text, true).is_ok()
}

/// Returns the reason why the literal `text` has no value in Rust.
pub fn why_no_value(text: &str) -> Option<&'static str> {
    let flaw = explain_missing_value(text, LineEnds::Text, true)?;
    Some(flaw.kind.message())
}

/// Returns the reason why `text`, a literal in a file, isn't a literal of Rust. In a file, CR LF counts as LF.
pub fn why_invalid_in_file(text: &str) -> Option<&'static str> {
    match read(text, LineEnds::File, false) {
        Ok(_) => None,
        Err(flaw) => Some(flaw.kind.message()),
    }
}

/// Returns `true` if `text` is a string literal whose decoded value equals the text between its quotes.
pub fn is_plain_string(text: &str) -> bool {
    is_plain(Kind::Str, text)
}

/// Returns the decoded value of the string literal `text`.
pub fn decoded_string(alloc: Global, text: &str) -> Option<String> {
    match shape(text)?.kind {
        Kind::Str => str_of(alloc, text).ok(),
        _ => None,
    }
}

/// Returns the byte offset of the first escape of the quoted literal `text`. A line end of two characters and an
/// escaped line end count as escapes.
pub fn first_escape_offset(text: &str) -> Option<usize> {
    for segment in Segments::of(text)? {
        if !matches!(segment.value, SegmentValue::Text(_)) {
            return Some(segment.lo);
        }
    }
    None
}

/// Returns the byte offset in the quoted literal `text` from which the second byte of its decoded value comes.
pub fn second_value_byte_offset(text: &str) -> Option<usize> {
    text_offset(text, 1)
}
