//! Tests of calls that create a literal from a value or a token.

use crate::Page;
use crate::memory::format_results::format_result;
use crate::memory::tokens::{c_string_of, first_byte, first_character};
use crate::memory::trial::{Scarce, Trial};
use crate::noted::HERE;
use rust_literals::{Lit, LitByte, LitByteStr, LitCStr, LitChar, LitFloat, LitInt, LitStr};

/// Calls `new` of the type `of`, and appends the result. Its argument is the text, its bytes, its first byte or character, or the
/// text as a token.
pub(crate) fn new<A: Scarce>(of: &str, trial: &Trial<A>, text: &str, page: &mut Page) {
    match of {
        "LitInt" => format_result(LitInt::new(trial.begins(), text, HERE), page),
        "LitFloat" => format_result(LitFloat::new(trial.begins(), text, HERE), page),
        "Lit" => from_token(of, trial, text, page),
        _ => quoted(of, trial.begins(), text, page),
    }
}

/// Calls `new` of a string, a byte string or a C string, and appends the result.
fn quoted<A: Scarce>(of: &str, scant: A, text: &str, page: &mut Page) {
    match of {
        "LitStr" => format_result(LitStr::new(scant, text, HERE), page),
        "LitByteStr" => format_result(LitByteStr::new(scant, text.as_bytes(), HERE), page),
        "LitCStr" => c_string(scant, text, page),
        _ => single(of, scant, text, page),
    }
}

/// Calls `new` of a byte literal or a character literal, and appends the result.
fn single<A: Scarce>(of: &str, scant: A, text: &str, page: &mut Page) {
    match of {
        "LitByte" => format_result(LitByte::new(scant, first_byte(text), HERE), page),
        _ => format_result(LitChar::new(scant, first_character(text), HERE), page),
    }
}

/// Calls `LitCStr::new` with the bytes of the text, and appends the result.
fn c_string<A: Scarce>(scant: A, text: &str, page: &mut Page) {
    if let Some(value) = c_string_of(text, page) {
        format_result(LitCStr::new(scant, &value, HERE), page)
    }
}

/// Calls `from_token` of `LitInt` or `LitFloat`, or `Lit::new`, with the text as a token, and appends the result.
pub(crate) fn from_token<A: Scarce>(of: &str, trial: &Trial<A>, text: &str, page: &mut Page) {
    if let Some(token) = trial.token(text, page) {
        let scant = trial.begins();
        match of {
            "LitInt" => format_result(LitInt::from_token(scant, token), page),
            "LitFloat" => format_result(LitFloat::from_token(scant, token), page),
            _ => format_result(Lit::new(scant, token), page),
        }
    }
}
