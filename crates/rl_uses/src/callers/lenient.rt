//! An example of a function that calls `rl_lenient`.

ghost use Rattle.std.specs.Prelude.{[], IfSome};
ghost use Rattle.std.specs.Str.{chars};
ghost use Rattle.rl_lenient.specs.Values.{HasIntegerValue};

use rl_lenient::parse_literal;

/// Returns the value of the integer literal `text`. Returns `None` if `text` isn't an integer literal without suffix,
/// or if the integer doesn't fit an `i128`.
pub fn integer_literal_value(text: &str) -> Option<i128>
    ensures value { IfSome result (HasIntegerValue (chars text.now) []) }
{
    let found = parse_literal(text)?;
    if found.has_suffix(text) {
        return None;
    }
    found.signed(text)
}
