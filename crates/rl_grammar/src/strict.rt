//! The strict grammar of literal tokens, which is that of the Rust Reference: functions that parse a text by it, or
//! return the reason why the text isn't a literal token.

ghost use Rattle.std.specs.Prelude.{◌↔◌, IsTrue};
ghost use Rattle.std.specs.Str.{chars};
ghost use Rattle.rl_strict.specs.StrictShapes.{IsToken};

use rl_strict::LineEnds;
pub use rl_strict::{Number, Reading, read};

/// Returns `true` if `text` is a literal token of the strict grammar, which is that of the Rust Reference. The token
/// may be of any kind and have any suffix: `0xFF_u8` is a literal token, and `-1`, `1e` and `r"a"b"` aren't. Nothing is
/// allocated.
///
/// Every literal token of the strict grammar is also a literal of the lenient grammar, which is that of `syn`, except
/// for integers above 128 bits: the strict grammar has no limit for integers. The lenient grammar accepts more texts.
///
/// # Example
///
/// ```
/// use rl_grammar::strict::is_token;
///
/// pub fn is_rust_literal(text: &str) -> bool {
///     is_token(text)
/// }
/// // is_rust_literal("0xFF_u8") == true
/// // is_rust_literal("-1") == false
/// ```
pub fn is_token(text: &str) -> bool
    ensures { IsTrue result ↔ IsToken (chars text.now) }
{
    read(text, LineEnds::Text, false).is_ok()
}
