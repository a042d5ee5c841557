//! A function that returns the next literal of a whole Rust source.

ghost use Rattle.std.specs.Prelude.{◌≡◌, ◌<◌, Option, length};
ghost use Rattle.rl_lexer.specs.declared.sources.SourceToken.{SourceToken};
ghost use Rattle.rl_lenient.specs.declared.found.Found.{Found};
ghost use Rattle.rl_cursors.specs.declared.source_literals.SourceStep.TheVariants.{Literal};
ghost use Rattle.rl_cursors.specs.SourceLiterals.{StepsSource};

use rl_lenient::{Found, parse_literal};
use rl_lexer::{LexError, SourceToken, Sources};

/// The result of [`next_source_literal`], which advances over a Rust source to its next literal.
#[derive(Clone, Copy)]
pub enum SourceStep<'t> {
    /// The end of the source.
    End,
    /// The next literal, which was consumed: its token and its parse result. The token is a literal token, `true` or
    /// `false`. The parse result is `None` if the literal is invalid.
    Literal(SourceToken<'t>, Option<Found>),
    /// An error of the source: a quoted literal or a comment that isn't closed.
    Rejected(LexError),
}

/// Consumes the tokens of a source up to and including the next literal, and returns that literal. If the source ends
/// before a literal, returns the end. If an error comes before a literal, returns the error, and the cursor is before
/// the error. Nothing is allocated.
#[inline(always)]
pub fn next_source_literal<'t>(tokens: &mut Sources<'t>) -> SourceStep<'t>
    ensures steps { StepsSource tokens.old result tokens.new }
    ensures shorter { (token : SourceToken) (found : Option Found) → result ≡ Literal token found
        → length tokens.new.rest < length tokens.old.rest }
{
    match tokens.next_literal() {
        Some(token) => SourceStep::Literal(token, parse_literal(token.text)),
        None => match tokens.error() {
            Some(error) => SourceStep::Rejected(error),
            None => SourceStep::End,
        },
    }
}
