//! Tests of functions that aren't methods.

use crate::Page;
use crate::memory::format_results::format_result;
use crate::memory::trial::{Scarce, Trial};
use rl_grammar::{Kind, bytes_of, digits_of, shape, str_of};
use rl_tokens::lex;
use rust_literals::read_all;

/// Calls the function with the name, and appends its result. The text has the file number 7 in spans.
pub(crate) fn call<A: Scarce>(name: &str, trial: &Trial<A>, text: &str, page: &mut Page) {
    let scant = trial.begins();
    match name {
        "lex" => format_result(lex(scant, text, 7), page),
        "read_all" => format_result(read_all(scant, text, 7), page),
        _ => contents_of(scant, text, page),
    }
}

/// Calls `str_of`, `bytes_of` or `digits_of`, by the kind of the literal, and appends the result.
fn contents_of<A: Scarce>(scant: A, text: &str, page: &mut Page) {
    match shape(text) {
        Some(parts) => match parts.kind {
            Kind::Str => format_result(str_of(scant, text), page),
            Kind::ByteStr | Kind::CStr => format_result(bytes_of(scant, text), page),
            Kind::Int | Kind::Float => format_result(digits_of(scant, parts.kind, text), page),
            _ => page.is_short = true,
        },
        None => page.is_short = true,
    }
}
