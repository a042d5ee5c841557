//! Examples of `rl_tokens`: functions that consume token trees from a parse buffer.

use rl_tokens::{Error, ParseBuffer, Span, ToTokens, TokenStream, attempt, lex, parse_all};
use rust_literals::LitInt;
use std::alloc::Global;

/// Returns the first integer inside the group at the start of `text`.
pub fn first_integer_in_group(alloc: Global, text: &str) -> Option<u64> {
    let stream = lex(alloc, text, 0).ok()?;
    let mut input = ParseBuffer::new(stream.trees(), Span::call_site());
    let mut inside = input.group()?.inside();
    if !inside.peek::<LitInt>() {
        return None;
    }
    let number = inside.parse::<LitInt>(alloc).ok()?;
    number.base10_parse(alloc).ok()
}

/// Returns the punctuation character after the name at the start of `text`.
pub fn punct_after_ident(alloc: Global, text: &str) -> Option<char> {
    let stream = lex(alloc, text, 0).ok()?;
    let mut input = ParseBuffer::new(stream.trees(), Span::call_site());
    input.ident()?;
    Some(input.punct()?.as_char())
}

/// Returns the two integers of a range such as `1..=5` at the start of `text`.
pub fn closed_range(alloc: Global, text: &str) -> Option<(u64, u64)> {
    let stream = lex(alloc, text, 0).ok()?;
    let mut input = ParseBuffer::new(stream.trees(), Span::call_site());
    let first = input.parse::<LitInt>(alloc).ok()?;
    input.joint_puncts("..=")?;
    let last = input.parse::<LitInt>(alloc).ok()?;
    Some((
        first.base10_parse(alloc).ok()?,
        last.base10_parse(alloc).ok()?,
    ))
}

/// Returns the number of token trees after `=` and an integer at the start of `text`, or the number of all token trees
/// if one of the two is missing.
pub fn remaining_tree_count(alloc: Global, text: &str) -> Option<usize> {
    let stream = lex(alloc, text, 0).ok()?;
    let mut input = ParseBuffer::new(stream.trees(), Span::call_site());
    let _taken = attempt(&mut input, |input| {
        input.take_punct('=')?;
        input.parse::<LitInt>(alloc)
    });
    Some(input.rest().len())
}

/// Parses the whole text `text` as a port, an integer of 16 bits.
///
/// # Errors
///
/// Returns the errors of [`parse_all`], or the error of the number type `u16`.
pub fn parse_port(alloc: Global, text: &str) -> Result<u16, Error> {
    parse_all::<LitInt, Global>(alloc, text, 0)?.base10_parse(alloc)
}

/// Returns the number of token trees that are appended to a stream for the integer `text`.
pub fn integer_tree_count(alloc: Global, text: &str) -> Option<usize> {
    let number = LitInt::new(alloc, text, Span::call_site()).ok()?;
    let mut stream = TokenStream::new(alloc);
    number.to_tokens(alloc, &mut stream).ok()?;
    Some(stream.trees().len())
}
