//! An example of a function that calls `rl_quoted`.

ghost use Rattle.std.specs.Prelude.{◌≡◌, List, ℕ, IfOk, IfErr};
ghost use Rattle.std.specs.Char.{is_control};
ghost use Rattle.std.specs.List.{list_any};
ghost use Rattle.std.specs.Str.{chars};
ghost use Rattle.rl_syntax.specs.declared.kind.Kind.TheVariants.{Str};
ghost use Rattle.rl_syntax.specs.Reading.{Characters, HasContents};
ghost use Rattle.rl_tokens.specs.Errors.{memory_at};

use rl_quoted::LitStr;
use rl_tokens::Error;
use std::alloc::Allocator;

/// Whether `text` contains a control character.
fn holds_control(text: &str) -> bool
    ensures { result ≡ list_any is_control (chars text.now) }
{
    text.chars().any(|c| c.is_control())
}

/// Returns `true` if the decoded value of the string literal `string` contains a control character.
///
/// # Errors
///
/// Returns `Memory` at the literal's span if an allocation fails.
pub fn contains_control<A: Allocator + Copy>(alloc: A, string: &LitStr<A>) -> Result<bool, Error<A>>
    ensures tells { IfOk result (λ answer. (value : List ℕ)
        × HasContents Str (chars string.now.text) (Characters value) × (answer ≡ list_any is_control value)) }
    ensures memory { IfErr result (λ e. e ≡ memory_at string.now.span) }
{
    let value = string.value(alloc)?;
    Ok(holds_control(value.as_str()))
}
