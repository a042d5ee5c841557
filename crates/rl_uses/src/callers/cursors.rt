//! An example of a function that calls `rl_cursors`.

ghost use Rattle.std.specs.Prelude.{◌≡◌, ◌<◌, length, IsTrue, IsFalse};
ghost use Rattle.rl_cursors.specs.NextLiterals.{HasNoNextLiteral};

use rl_cursors::next_literal;
use rl_lexer::Tokens;

/// Consumes the next literal of a list, and returns `true`. If the list doesn't continue with a literal, returns `false`,
/// and the cursor is unchanged.
pub fn skip_literal(tokens: &mut Tokens<'_>) -> bool
    ensures shorter { IsTrue result → length tokens.new.rest < length tokens.old.rest }
    ensures none { IsFalse result → HasNoNextLiteral tokens.old }
    ensures stays { IsFalse result → tokens.new ≡ tokens.old }
{
    match next_literal(tokens) {
        Some(_) => true,
        None => false,
    }
}
