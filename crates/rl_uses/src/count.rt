//! A map from literals to the number of times that they occur in a text.

ghost use Rattle.std.specs.Prelude.{List, IfOk, IfErr};
ghost use Rattle.std.specs.Str.{chars};
ghost use Rattle.rust_literals.specs.declared.lit.Lit.{Lit};
ghost use Rattle.rust_literals.specs.Parsing.{AreRead};
ghost use Rattle.rl_uses.specs.Shortage.{IsShortOf, RejectsTextOrMemory};
ghost use Rattle.rl_uses.specs.Counts.{AreCounts};

use rl_tokens::Error;
use rust_literals::{Lit, read_all};
use std::alloc::Allocator;
use std::collections::HashMap;
use std::hash::{BuildHasherDefault, FoldHasher};

/// A map from each literal of a text to the number of times that the literal occurs in the text.
pub type Counts<A> = HashMap<Lit<A>, usize, BuildHasherDefault<FoldHasher>, A>;

/// Returns a map from each of `literals` to the number of times that it occurs in `literals`.
fn tally<A: Allocator + Copy>(alloc: A, literals: Vec<Lit<A>, A>) -> Result<Counts<A>, Error<A>>
    ensures counts { IfOk result (AreCounts literals.items) }
    ensures memory { IfErr result (IsShortOf literals.items) }
{
    let mut counts = HashMap::new(alloc);
    for literal in literals {
        let before = counts.get(&literal).copied().unwrap_or(0);
        let span = literal.span();
        let Ok(_) = counts.insert(literal, before + 1) else {
            return Err(Error::out_of_memory(span));
        };
    }
    Ok(counts)
}

/// Counts how often each literal occurs in `text`, which may contain only literals, white space and plain comments. Two
/// literals count as the same if their kinds and their texts as written are equal, as `==` compares them.
///
/// # Errors
///
/// Returns the error of [`read_all`] for the text. If an allocation fails for the map, returns `Memory` at the literal
/// for which memory was needed.
pub fn count_literals<A: Allocator + Copy>(
    alloc: A,
    text: &str,
    file: u32,
) -> Result<Counts<A>, Error<A>>
    // On success the text consists of literals, and the map has exactly the literals of the text, each with the number
    // of times that it occurs.
    ensures counts { IfOk result (λ counts. (list : List (Lit A))
        × AreRead (chars text.now) file list × AreCounts list counts) }
    // The returned error is the error of `read_all` for the text, or an allocation failure at one of the literals.
    ensures rejected { IfErr result (RejectsTextOrMemory text.now file) }
{
    let literals = read_all(alloc, text, file)?;
    tally(alloc, literals)
}
