//! Tests whether the literals of a whole source may be rewritten.

ghost use Rattle.std.specs.Prelude.{◌≡◌};
ghost use Rattle.std.specs.Str.{chars};
ghost use Rattle.rl_style.specs.Recut.{begins_with_code};

use rl_lexer::without_byte_order_mark;
use rl_syntax::text::begins;

/// Returns `true` if the literals of the source can be rewritten without a change in how its other tokens are lexed.
///
/// The source must not begin with `#!`, unless it begins with an attribute's `#![`. With another `#!`, a comment may begin on
/// the first line, and end at a `*/` inside of a literal of a later line. Then a change of this literal may change whether the
/// first line is an interpreter's line. A byte order mark at the start is ignored.
pub fn is_safe_to_restyle(source: &str) -> bool
    ensures { result ≡ begins_with_code (chars source.now) }
{
    let text = without_byte_order_mark(source);
    !begins(text, "#!") || begins(text, "#![")
}
