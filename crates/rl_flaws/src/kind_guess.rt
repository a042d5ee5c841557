//! Guesses the kind of a possibly invalid literal from its beginning.

ghost use Rattle.std.specs.Prelude.{ℕ, ◌≡◌, IfNone, IfSome, List, Option, Some};
ghost use Rattle.std.specs.Str.{chars};
ghost use Rattle.rl_syntax.specs.declared.kind.Kind.{Kind as AnyKind};
ghost use Rattle.rl_syntax.specs.Reading.{Contents};
ghost use Rattle.rl_syntax.specs.Strict.{Strict};
ghost use Rattle.rl_flaws.specs.Looks.{LooksLike, number_kind};

use crate::walks::split_opening_delimiter;
use rl_lenient::bool_of;
use rl_lenient::digit_runs::{after_minus, begins_digit, skip_digits};
use rl_lenient::number_forms::split_radix;
use rl_strict::read_numbers::begins_float;
use rl_syntax::Kind;

/// Returns the kind of a number, which begins with a digit: integer or float.
fn number_kind(digits: &str) -> Kind
    ensures { result ≡ number_kind (chars digits.now) }
{
    let (radix, run) = split_radix(digits);
    if radix != 10 {
        return Kind::Int;
    }
    if begins_float(skip_digits(run).rest) {
        Kind::Float
    } else {
        Kind::Int
    }
}

/// Returns the kind of literal that the text begins as, or `None` if it begins otherwise.
fn front_kind(text: &str) -> Option<Kind>
    ensures some { IfSome result (LooksLike (chars text.now)) }
    ensures none { IfNone result ((kind : AnyKind) → LooksLike (chars text.now) kind → ⊥) }
{
    if let Some((opened, _)) = split_opening_delimiter(text) {
        return Some(opened.kind);
    }
    let digits = after_minus(text);
    if begins_digit(digits) {
        return Some(number_kind(digits));
    }
    match bool_of(text) {
        Some(_) => Some(Kind::Bool),
        None => None,
    }
}

/// Returns the kind of literal that the text begins as, whether or not it is a valid literal.
///
/// A prefix and an opening quote identify a quoted literal. A digit, or a minus and a digit, identify a number. Among other
/// texts only `true` and `false` have a kind.
///
/// For a valid literal token, the result is the token's kind. A number is a float if a dot, `e` or `E` follows its decimal
/// digits, and an integer otherwise. A raw string begins with its prefix, at most 255 hashes, and a quote. Nothing is
/// allocated.
pub fn guess_kind(text: &str) -> Option<Kind>
    ensures some { IfSome result (LooksLike (chars text.now)) }
    ensures none { IfNone result ((kind : AnyKind) → LooksLike (chars text.now) kind → ⊥) }
    ensures token { (kind : AnyKind) (contents : Contents) (suffix : List ℕ) → Strict (chars text.now) kind contents suffix
        → result ≡ Some kind }
{
    front_kind(text)
}
