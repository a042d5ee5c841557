//! An example of a function that calls `rust_literals`.

ghost use Rattle.std.specs.Prelude.{◌≡◌, List, IfOk, IfErr, length};
ghost use Rattle.std.specs.Str.{chars};
ghost use Rattle.rust_literals.specs.declared.lit.Lit.{Lit};
ghost use Rattle.rust_literals.specs.Parsing.{AreRead, RejectsText};

use rl_tokens::Error;
use rust_literals::read_all;
use std::alloc::Allocator;

/// Returns the number of literals in `text`, which may contain only literals, white space and plain comments.
///
/// # Errors
///
/// Returns the error of [`read_all`] for the text.
pub fn literal_count<A: Allocator + Copy>(alloc: A, text: &str) -> Result<usize, Error<A>>
    ensures count { IfOk result
        (λ n. (list : List (Lit A)) × AreRead (chars text.now) 0 list × (n ≡ length list)) }
    ensures rejected { IfErr result (RejectsText (chars text.now) 0 (length text.now)) }
{
    let literals = read_all(alloc, text, 0)?;
    Ok(literals.len())
}
