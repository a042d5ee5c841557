//! An example of a function that calls `rl_tokens`.

ghost use Rattle.std.specs.Prelude.{[], IfOk};
ghost use Rattle.std.specs.Str.{chars};
ghost use Rattle.rl_syntax.specs.declared.kind.Kind.TheVariants.{Str};
ghost use Rattle.rl_syntax.specs.Reading.{Characters, Reads};

use rl_tokens::{Error, Literal};
use std::alloc::Allocator;

/// Returns the token of the string literal that represents the text `text`.
///
/// # Errors
///
/// Returns `Memory` if an allocation fails.
pub fn string_literal<A: Allocator>(alloc: A, text: &str) -> Result<Literal<A>, Error<A>>
    ensures reads { IfOk result
        (λ literal. Reads (chars literal.text) Str (Characters (chars text.now)) []) }
{
    Literal::string(alloc, text)
}
