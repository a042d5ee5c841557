//! Prints the value of a literal if it is a part of the literal's text.

use crate::Page;
use crate::lists::put_token;
use rl_grammar::{Kind, is_plain};
use rl_tokens::Literal;
use rust_literals::Lit;

/// Returns the digits of a number if they are the text before its suffix.
fn borrowed_digits<'a>(kind: Kind, text: &str, digits: &'a str) -> Option<&'a [u8]> {
    if is_plain(kind, text) {
        Some(digits.as_bytes())
    } else {
        None
    }
}

/// Returns the value of a literal if it is a part of the literal's text: the text between the quotes, or the text before a number's
/// suffix.
fn borrowed(literal: &Lit) -> Option<&[u8]> {
    match literal {
        Lit::Str(literal) => match literal.value_ref() {
            Some(value) => Some(value.as_bytes()),
            None => None,
        },
        Lit::ByteStr(literal) => literal.value_ref(),
        Lit::CStr(literal) => literal.value_ref(),
        Lit::Int(literal) => borrowed_digits(Kind::Int, literal.text(), literal.base10_digits()),
        Lit::Float(literal) => borrowed_digits(
            Kind::Float,
            literal.text(),
            literal.base10_digits(),
        ),
        _ => None,
    }
}

/// Prints the value of a literal as a byte string if it is a part of the literal's text, else `None`.
pub(crate) fn put_borrowed(literal: &Lit, out: &mut Page) {
    match borrowed(literal) {
        Some(bytes) => put_token(Literal::byte_string(out.alloc, bytes), out),
        None => out.put("None\n"),
    }
}
