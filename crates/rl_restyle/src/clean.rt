//! Tests whether the literals of a source have errors.

ghost use Rattle.std.specs.Prelude.{◌≡◌, ◌↔◌, ℕ, List, IsTrue};
ghost use Rattle.std.specs.Str.{chars};
ghost use Rattle.rl_restyle.specs.Clean.{IsCleanLiteral, ends_with_prefix as ends_with_reserved, may_be_prefix as is_reserved_byte};
ghost use Rattle.rl_restyle.specs.Places.{IsTextBetween};

use crate::slices::between;
use rl_strict::explain;
use rl_style::Restylable;

/// Whether the byte is an ASCII letter, an ASCII digit, `_` or `#`.
fn may_be_prefix(byte: u8) -> bool
    ensures { result ≡ is_reserved_byte byte }
{
    byte.is_ascii_alphanumeric() || matches!(byte, b'_' | b'#')
}

/// Whether the last byte of the text may be part of a prefix that an edition of Rust reserves, as `f` in `f"x"`.
fn ends_with_prefix(front: &str) -> bool
    ensures { result ≡ ends_with_reserved front.now }
{
    match front.as_bytes() {
        [.., last] => may_be_prefix(*last),
        [] => false,
    }
}

/// Whether neither the literal nor a literal before it has an error. `before` is `true` if all literals before it are without errors.
pub(crate) fn clean_after(before: bool, source: &str, literal: Restylable<'_>) -> bool
    requires { (front : List ℕ) × IsTextBetween (chars source.now) 0 literal.token.lo front }
    ensures { IsTrue result ↔ (IsTrue before
        × IsCleanLiteral (chars source.now) literal.entry.token.lo (chars literal.entry.token.text.now)) }
{
    if !before {
        return false;
    }
    if ends_with_prefix(between(source, 0, literal.token.lo)) {
        return false;
    }
    match explain(literal.token.text) {
        None => true,
        Some(_) => false,
    }
}
