//! Tests of the crate `rl_tokens`.

use crate::Page;
use crate::memory::format_results::{format_result, format_trees};
use crate::memory::held::Held;
use crate::memory::trial::{Scarce, Trial, format_borrowed, formatted};
use crate::noted::{HERE, noted};
use rl_tokens::{
    CString, Error, Ident, Literal, ParseBuffer, Span, TokenStream, TokenTree, ident, lex,
};
use rust_literals::Lit;

/// Calls a function of `Literal`, and appends its result.
pub(crate) fn literal_call<A: Scarce>(name: &str, trial: &Trial<A>, text: &str, page: &mut Page) {
    match name {
        "clone" | "behind_minus" => of_token(name, trial, text, page),
        "c_string" => c_string(trial.begins(), text, page),
        _ => format_result(written(name, trial.begins(), text), page),
    }
}

/// Calls a function of `Literal` that creates a token from the text, its bytes, or its first byte or character.
fn written<A: Scarce>(name: &str, scant: A, text: &str) -> Result<Literal<A>, Error<A>> {
    match name {
        "from_text" => Literal::from_text(scant, text, HERE),
        "negative" => Literal::negative(scant, text, HERE),
        "string" => Literal::string(scant, text),
        "byte_string" => Literal::byte_string(scant, text.as_bytes()),
        "byte_character" => Literal::byte_character(scant, first_byte(text)),
        _ => Literal::character(scant, first_character(text)),
    }
}

/// Calls `clone` or `with_minus` on the text as a token, and appends its result. Then appends whether the token is unchanged.
fn of_token<A: Scarce>(name: &str, trial: &Trial<A>, text: &str, page: &mut Page) {
    if let Some(token) = trial.token(text, page) {
        let before = formatted(&token, page);
        let answer = match name {
            "clone" => token.clone(trial.begins()),
            _ => token.with_minus(trial.begins(), HERE),
        };
        format_result(answer, page);
        format_borrowed(&token, &before, page)
    }
}

/// Returns the bytes of the text as a C string, or `None` if an allocation fails or the text contains a NUL.
pub(crate) fn c_string_of(text: &str, page: &mut Page) -> Option<CString> {
    let bytes = noted(Vec::from_slice(page.alloc, text.as_bytes()), page)?;
    noted(CString::new(bytes), page)
}

/// Calls `Literal::c_string` with the bytes of the text, and appends its result.
fn c_string<A: Scarce>(scant: A, text: &str, page: &mut Page) {
    if let Some(value) = c_string_of(text, page) {
        format_result(Literal::c_string(scant, &value), page)
    }
}

/// Returns the first byte of the text, or 0 if it is empty.
pub(crate) fn first_byte(text: &str) -> u8 {
    text.as_bytes().first().copied().unwrap_or(0)
}

/// Returns the first character of the text, or NUL if it is empty.
pub(crate) fn first_character(text: &str) -> char {
    text.chars().next().unwrap_or('\0')
}

/// Calls `Ident::new` with the text, and appends its result.
pub(crate) fn word<A: Scarce>(trial: &Trial<A>, text: &str, page: &mut Page) {
    if ident::xid_ok(text) {
        format_result(Ident::new(trial.begins(), text, HERE), page)
    }
}

/// Calls a function of `TokenStream`, and appends its result.
pub(crate) fn stream_call<A: Scarce>(name: &str, trial: &Trial<A>, text: &str, page: &mut Page) {
    match name {
        "two_files" => two_files(trial, text, page),
        "respan" => respanned(trial, text, page),
        _ => append_last(trial, text, page),
    }
}

/// Calls `TokenStream::respan` on the stream of the text's token trees, and appends them.
fn respanned<A: Scarce>(trial: &Trial<A>, text: &str, page: &mut Page) {
    if let Some(mut stream) = trial.trees(text, page) {
        stream.respan(HERE);
        format_trees(stream.trees(), page);
        drop(stream)
    }
}

/// Parses a literal from a minus in one file and a number in another file, and appends the result.
fn two_files<A: Scarce>(trial: &Trial<A>, number: &str, page: &mut Page) {
    if let Some(mut stream) = noted(lex(trial.begins(), "   -", 0), page) {
        append_number(trial.scant, number, &mut stream, page);
        parsed_of::<Lit<A>, A>("", trial, stream.trees(), page);
        drop(stream)
    }
}

/// Appends the number to a stream, as a token with the file number 1.
fn append_number<A: Scarce>(scant: A, number: &str, stream: &mut TokenStream<A>, page: &mut Page) {
    let span = Span::new(1, 0, number.len());
    if let Some(number) = noted(Literal::from_text(scant, number, span), page) {
        noted(stream.append(TokenTree::Literal(number)), page);
    }
}

/// Calls `TokenStream::append` with a literal on the stream of the text's token trees, and appends its result. Then appends whether
/// the stream is unchanged.
fn append_last<A: Scarce>(trial: &Trial<A>, text: &str, page: &mut Page) {
    if let (Some(mut stream), Some(last)) = (trial.trees(text, page), trial.token("last", page)) {
        let before = formatted(&stream, page);
        trial.begins();
        format_result(stream.append(TokenTree::Literal(last)), page);
        format_borrowed(&stream, &before, page)
    }
}

/// Lexes the text, and calls `parse` of a type or `peek` on its token trees. Appends the result, and the state of the buffer.
pub(crate) fn parsed<T: Held<A> + Drop, A: Scarce>(
    call: &str,
    trial: &Trial<A>,
    text: &str,
    page: &mut Page,
) {
    if let Some(stream) = trial.trees(text, page) {
        parsed_of::<T, A>(call, trial, stream.trees(), page);
        drop(stream)
    }
}

/// Calls `parse` of a type or `peek` on token trees. Appends the result, and the state of the buffer.
fn parsed_of<T: Held<A> + Drop, A: Scarce>(
    call: &str,
    trial: &Trial<A>,
    trees: &[TokenTree<A>],
    page: &mut Page,
) {
    let before = formatted(&trees, page);
    let mut input = ParseBuffer::new(trees, HERE);
    if call == "peek" {
        page.put_bool(input.peek::<T>(), "")
    } else {
        format_result(input.parse::<T>(trial.begins()), page)
    }
    format_borrowed(&input.rest(), &before, page)
}
