//! An example of a function that calls `rl_strict`.

ghost use Rattle.std.specs.Prelude.{◌≡◌, IfSome, IfNone};
ghost use Rattle.std.specs.Str.{chars};
ghost use Rattle.rl_strict.specs.declared.flaws.Flaw.{Flaw};
ghost use Rattle.rl_strict.specs.StrictFlaws.{ExplainsStrictly};
ghost use Rattle.rl_strict.specs.StrictShapes.{IsToken};

use rl_strict::explain;

/// Returns the byte offset in `text` of the first character that can't continue a literal token, or `None` if `text` is
/// a literal token of Rust.
pub fn first_bad_byte(text: &str) -> Option<usize>
    ensures flaw { IfSome result
        (λ at. (flaw : Flaw) × ExplainsStrictly (chars text.now) flaw × (at ≡ flaw.lo)) }
    ensures token { IfNone result (IsToken (chars text.now)) }
{
    Some(explain(text)?.lo)
}
