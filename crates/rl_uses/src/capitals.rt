//! A linter that finds the integers of a Rust source that are written with capital letters, as `0xFF`.

ghost use Rattle.std.specs.Prelude.{◌≡◌, IfOk, IfErr, IsTrue, IsFalse};
ghost use Rattle.std.specs.Char.{is_ascii_uppercase};
ghost use Rattle.std.specs.List.{list_any};
ghost use Rattle.std.specs.Str.{chars};
ghost use Rattle.rl_cursors.specs.Linters.{ReportsAll};
ghost use Rattle.rl_uses.specs.Capitals.{IsCapital, place_of, Fails};

use rl_cursors::{SourceStep, next_source_literal};
use rl_lenient::parse_literal;
use rl_lexer::{LexError, Sources};
use rl_syntax::Kind;
use std::alloc::Allocator;

/// A byte range of the source.
#[derive(Clone, Copy)]
pub struct Place {
    /// The offset of the first byte.
    pub lo: usize,
    /// The offset after the last byte.
    pub hi: usize,
}

/// The reason why a source can't be checked.
#[derive(Clone, Copy)]
pub enum LintError {
    /// A quoted literal or a comment isn't closed.
    Source(LexError),
    /// An allocation failed.
    Memory,
}

/// Whether a text contains an ASCII capital letter.
fn has_capital(text: &str) -> bool
    ensures { result ≡ list_any is_ascii_uppercase (chars text.now) }
{
    text.chars().any(|c| c.is_ascii_uppercase())
}

/// Whether a text is an integer with a capital letter in its digits or its suffix.
fn is_capital(text: &str) -> bool
    ensures yes { IsTrue result → IsCapital (chars text.now) }
    ensures no { IsFalse result → IsCapital (chars text.now) → ⊥ }
{
    match parse_literal(text) {
        Some(found) if found.kind == Kind::Int => has_capital(text),
        _ => false,
    }
}

/// Returns the byte ranges of the source's integers with a capital letter.
///
/// # Errors
///
/// Returns `Source` if a quoted literal or a comment isn't closed, and `Memory` if an allocation fails.
pub fn capital_integers<A: Allocator>(alloc: A, source: &str) -> Result<Vec<Place, A>, LintError>
    // The places are those of all such integers and of no other token, in their order.
    ensures found { IfOk result (λ places. ReportsAll IsCapital place_of source.now places.items) }
    ensures failed { IfErr result (Fails source.now) }
{
    let mut places = Vec::new(alloc);
    let mut tokens = Sources::new(source);
    loop {
        match next_source_literal(&mut tokens) {
            SourceStep::Literal(token, _) => {
                if is_capital(token.text) {
                    let place = Place {
                        lo: token.lo,
                        hi: token.hi,
                    };
                    if places.push(place).is_err() {
                        return Err(LintError::Memory);
                    }
                }
            }
            SourceStep::Rejected(error) => return Err(LintError::Source(error)),
            SourceStep::End => return Ok(places),
        }
    }
}
