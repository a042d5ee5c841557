//! Functions that split the text of a number into its parts.

ghost use Rattle.std.specs.Prelude.{◌≡◌, IfNone, IfSome, option_map};
ghost use Rattle.std.specs.Str.{chars};
ghost use Rattle.rl_syntax.specs.declared.kind.Kind.TheVariants.{Int, Float};
ghost use Rattle.rl_syntax.specs.Reading.{ReadsAs};
ghost use Rattle.rl_lenient.specs.Mirrors.NumberAt.{after_digits, digit_run_at};
ghost use Rattle.rl_lenient.specs.PartMirrors.PartsAt.{fraction_at, after_letter};
ghost use Rattle.rl_lenient.specs.NumberParts.{IsFloatOf, IsIntegerOf};

use crate::digit_runs::{after_minus, read_digit_run, skip_digits};
use crate::number_forms::split_radix;
use crate::parse_literal;
use rl_syntax::Kind;
use rl_syntax::text::{before, split_char, strip_byte};

/// The base and the digits of an integer literal.
#[derive(Clone, Copy)]
pub struct IntegerParts<'t> {
    /// The base: 2, 8, 10 or 16.
    pub radix: u32,
    /// The digits and underscores after sign and prefix, as they are written, without the suffix.
    pub digits: &'t str,
}

/// The digits of a float literal before and after its dot, and its exponent, as they are written. Sign and suffix
/// aren't included.
#[derive(Clone, Copy)]
pub struct FloatParts<'t> {
    /// The digits and underscores before the dot, the exponent or the suffix.
    pub integer: &'t str,
    /// The digits and underscores after the dot, perhaps an empty string. `None` if the float has no dot.
    pub fraction: Option<&'t str>,
    /// The text after the exponent's letter, including its sign. `None` if the float has no exponent.
    pub exponent: Option<&'t str>,
}

/// Returns the base and the digits of the integer literal `text`, or `None` if the text isn't an integer literal within
/// 128 bits.
///
/// # Example
///
/// ```
/// use rl_grammar::integer_parts;
///
/// pub fn hex_digits(text: &str) -> Option<&str> {
///     let parts = integer_parts(text)?;
///     (parts.radix == 16).then_some(parts.digits)
/// }
/// // hex_digits("-0xF_F_u8") == Some("F_F_")
/// // hex_digits("255") == None
/// ```
pub fn integer_parts(text: &str) -> Option<IntegerParts<'_>>
    ensures parts { IfSome result (λ p. IsIntegerOf (chars text.now) p.radix (chars p.digits.now)) }
    ensures reads { IfSome result (λ p. ReadsAs Int (chars text.now)) }
    ensures none { IfNone result (ReadsAs Int (chars text.now) → ⊥) }
{
    let found = parse_literal(text)?;
    if !matches!(found.kind, Kind::Int) {
        return None;
    }
    let (radix, run) = split_radix(after_minus(text));
    let digits = before(run, read_digit_run(run, radix).rest);
    Some(IntegerParts { radix, digits })
}

/// Splits the text after the decimal digits and underscores at its start.
fn split_digits(text: &str) -> (&str, &str)
    ensures run { chars result.0.now ≡ digit_run_at 10 (chars text.now) }
    ensures rest { chars result.1.now ≡ after_digits 10 (chars text.now) }
{
    let rest = skip_digits(text).rest;
    (before(text, rest), rest)
}

/// Returns the digits and underscores after the dot at the text's start, and the text after them. If the text doesn't
/// begin with a dot, returns `None` and the text itself.
fn split_fraction(text: &str) -> (Option<&str>, &str)
    ensures { (option_map (λ run. chars run.now) result.0, chars result.1.now) ≡ fraction_at (chars text.now) }
{
    match strip_byte(text, b'.') {
        Some(digits) => {
            let (run, rest) = split_digits(digits);
            (Some(run), rest)
        }
        None => (None, text),
    }
}

/// Returns the text of an exponent after its letter, or `None` if `text` is empty.
fn after_letter(text: &str) -> Option<&str>
    ensures { option_map (λ exponent. chars exponent.now) result ≡ after_letter (chars text.now) }
{
    match split_char(text) {
        Some((_, exponent)) => Some(exponent),
        None => None,
    }
}

/// Returns the parts of the float literal `text`, or `None` if the text isn't a float literal. A decimal integer with a
/// float suffix, as `1f32`, is an integer literal.
///
/// # Example
///
/// ```
/// use rl_grammar::float_parts;
///
/// pub fn exponent_of(text: &str) -> Option<&str> {
///     float_parts(text)?.exponent
/// }
/// // exponent_of("1_0.5E+3f64") == Some("+3")
/// // exponent_of("1.5") == None
/// ```
pub fn float_parts(text: &str) -> Option<FloatParts<'_>>
    ensures parts { IfSome result (λ p. IsFloatOf (chars text.now) (chars p.integer.now)
        (option_map (λ run. chars run.now) p.fraction) (option_map (λ run. chars run.now) p.exponent)) }
    ensures reads { IfSome result (λ p. ReadsAs Float (chars text.now)) }
    ensures none { IfNone result (ReadsAs Float (chars text.now) → ⊥) }
{
    let found = parse_literal(text)?;
    if !matches!(found.kind, Kind::Float) {
        return None;
    }
    let numeral = before(text, found.suffix_in(text));
    let (integer, rest) = split_digits(after_minus(numeral));
    let (fraction, power) = split_fraction(rest);
    Some(FloatParts {
        integer,
        fraction,
        exponent: after_letter(power),
    })
}
