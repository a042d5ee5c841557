//! An example of a function that calls `rl_grammar`.

ghost use Rattle.std.specs.Prelude.{IfSome, IfOk, string_bytes};
ghost use Rattle.std.specs.Str.{chars};
ghost use Rattle.rl_syntax.specs.declared.kind.Kind.TheVariants.{Str};
ghost use Rattle.rl_syntax.specs.Reading.{Characters, HasContents};

use rl_grammar::{Kind, shape, str_of};
use rl_tokens::Error;
use std::alloc::Allocator;

/// Returns the decoded value of the string literal `text`, or `None` if `text` isn't a string literal.
///
/// # Errors
///
/// Returns `Memory` if an allocation fails.
pub fn string_lit_value<A: Allocator>(alloc: A, text: &str) -> Result<Option<String<A>>, Error<A>>
    ensures value { IfOk result (λ found. IfSome found
        (λ value. HasContents Str (chars text.now) (Characters (chars (string_bytes value))))) }
{
    match shape(text) {
        Some(parts) if parts.kind == Kind::Str => Ok(Some(str_of(alloc, text)?)),
        _ => Ok(None),
    }
}
