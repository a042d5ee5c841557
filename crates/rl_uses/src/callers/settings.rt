//! An example of a function that calls `first_error` of `rl_cursors`.

ghost use Rattle.std.specs.Prelude.{ℕ, IsTrue, IsFalse};
ghost use Rattle.std.specs.Str.{chars};
ghost use Rattle.rl_lexer.specs.Cuts.{HasFirstError};
ghost use Rattle.rl_lexer.specs.declared.lex_error.LexKind.{LexKind};
ghost use Rattle.rl_cursors.specs.WholeCuts.{IsCutWhole};

use rl_cursors::first_error;

/// Returns `true` if `text` can be lexed to its end, with each group closed.
pub fn can_be_lexed(text: &str) -> bool
    ensures whole { IsTrue result → IsCutWhole (chars text.now) }
    ensures error { IsFalse result → (kind : LexKind) × (at : ℕ) × HasFirstError (chars text.now) kind at }
{
    match first_error(text) {
        None => true,
        Some(_) => false,
    }
}
