//! Examples of `rl_tokens`: parsers that a caller implements.

use rl_tokens::{Error, Parse, ParseBuffer, Parser, parse_all};
use rust_literals::{LitInt, LitStr};
use std::alloc::Global;

/// An equals sign and an integer literal, as in `= 80`.
#[derive(Drop)]
pub struct Value(LitInt);

impl Parse<Global> for Value {
    ghost use Rattle.std.specs.Prelude.{⊤};

    // The contract promises nothing about the value.
    ghost runs = { λ trees scope answer rest. ⊤ };

    fn parse(alloc: Global, input: &mut ParseBuffer<'_>) -> Result<Value, Error> {
        input.take_punct('=')?;
        let number = input.parse::<LitInt>(alloc)?;
        Ok(Value(number))
    }
}

/// Returns the integer after the equals sign in `text`, as in `= 80`.
///
/// # Errors
///
/// Returns the errors of [`parse_all`], or the error of the number type `u16`.
pub fn value_after_equals(alloc: Global, text: &str) -> Result<u16, Error> {
    let value = parse_all::<Value, Global>(alloc, text, 0)?;
    value.0.base10_parse(alloc)
}

/// A parser of one punctuation character.
#[derive(Drop)]
pub struct Mark;

impl Parser<Global> for Mark {
    ghost use Rattle.std.specs.Prelude.{⊤};

    type Output = char;

    // The contract promises nothing about the character.
    ghost runs = { λ parser trees scope answer rest. ⊤ };

    fn parse(self, _alloc: Global, input: &mut ParseBuffer<'_>) -> Result<char, Error> {
        match input.punct() {
            Some(mark) => Ok(mark.as_char()),
            None => Err(input.error("mark")),
        }
    }
}

/// Returns the punctuation character that is the decoded value of the string literal `text`.
pub fn punct_in_string(alloc: Global, text: &str) -> Option<char> {
    let string = parse_all::<LitStr, Global>(alloc, text, 0).ok()?;
    string.parse_with(alloc, Mark).ok()
}
