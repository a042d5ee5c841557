//! Functions that tests share.

use crate::Page;
use rl_tokens::{Literal, Span};
use rust_literals::Lit;

/// The span of literals that are created from a text alone.
pub(crate) const HERE: Span = Span {
    file: 7,
    lo: 3,
    hi: 9,
};

/// Splits a text at its first `mark`. Without a mark, the second part is empty.
pub(crate) fn parts_of(text: &str, mark: char) -> (&str, &str) {
    text.split_once(mark).unwrap_or((text, ""))
}

/// Returns the value of a call's result. An error is recorded in `out` like a failed allocation.
pub(crate) fn noted<T, E: Drop>(answer: Result<T, E>, out: &mut Page) -> Option<T> {
    match answer {
        Ok(value) => Some(value),
        Err(_) => {
            out.is_short = true;
            None
        }
    }
}

/// Parses a text as a literal with the span `span`. A failed allocation is recorded in `out`.
pub(crate) fn literal_of(text: &str, span: Span, out: &mut Page) -> Option<Lit> {
    let token = noted(Literal::from_text(out.alloc, text, span), out)?;
    noted(Lit::new(out.alloc, token), out)
}

/// Prints the text `front`, and the byte range of a span.
pub(crate) fn put_places(front: &str, span: Span, out: &mut Page) {
    out.put(front);
    out.put_number(span.lo, "..");
    out.put_number(span.hi, "")
}
