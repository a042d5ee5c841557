//! The parser of a text that consists of one number, as the value of a setting.

ghost use Rattle.std.specs.Prelude.{IfOk, IfErr};
ghost use Rattle.rl_uses.specs.Settings.{IsSetTo, RejectsSetting};

use rl_tokens::{Error, parse_all};
use rust_literals::LitInt;
use std::alloc::Allocator;
use std::fmt::Display;
use std::str::FromStr;

/// Parses `text`, which must be one integer literal or a minus and an integer literal, as a value of the number type
/// `N`. White space and plain comments may surround the literal.
///
/// # Errors
///
/// Returns the error of [`parse_all`] if the text isn't one integer literal. Its message names `integer literal`. If
/// the number type rejects the digits, returns `Number` with the type's own message, at the byte range of the literal
/// in the file. If an allocation fails for the message, returns `Memory` at that byte range.
pub fn read_number<N: FromStr, A: Allocator + Copy>(
    alloc: A,
    text: &str,
    file: u32,
) -> Result<N, Error<A>>
where
    N::Err: Display + Drop,
    ensures read { IfOk result (IsSetTo N.from_str_gives text.now file) }
    ensures rejected { IfErr result (RejectsSetting N.from_str_gives N.Err.output text.now file) }
{
    parse_all::<LitInt<A>, A>(alloc, text, file)?.base10_parse(alloc)
}
