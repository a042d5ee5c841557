//! An example of a function that calls `rl_style`.

ghost use Rattle.std.specs.Prelude.{◌≤◌, ◌+◌, ◌*◌, IfSome, length, take};
ghost use Rattle.std.specs.Str.{chars};
ghost use Rattle.rl_style.specs.Rewriting.{SameLiteral};

use rl_style::{Case, Style, rewrite_into};

/// Writes the literal token `text` to `out`, with the digits after `0x` in lower case, and returns the new literal's
/// length in bytes. Returns `None` if `text` isn't a literal token.
#[tactic(auto, using(rl_style::proofs::Theorems::a_rewritten_literal_is_the_same))]
pub fn write_lower_hex(text: &str, out: &mut [u8]) -> Option<usize>
    requires { 4 * length text.now + 1 ≤ length out.old }
    ensures same { IfSome result (λ n. SameLiteral (chars text.now) (chars (take n out.new))) }
{
    let style = Style {
        hex_digits: Some(Case::Lower),
        ..Style::KEEP
    };
    match rewrite_into("", text, style, out) {
        Ok(n) => Some(n),
        Err(_) => None,
    }
}
