//! Checks whether a decimal number rounds to infinity as an `f32` or `f64`.

ghost use Rattle.std.specs.Prelude.{◌≡◌, ◌==◌, ◌*◌, ◌^◌, ◌≤◌, ◌<◌, ◌⊎◌, ℕ, List, [], ◌∷◌, true, false, cond, nat_lt, IfNone, IfSome, IsTrue, length};
ghost use Rattle.std.specs.Char.{is_ascii_digit};
ghost use Rattle.std.specs.List.{list_any};
ghost use Rattle.std.specs.Str.{chars};
ghost use Rattle.rl_syntax.specs.Texts.{code};
ghost use Rattle.rl_syntax.specs.Numbers.{is_exponent_letter};
ghost use Rattle.rl_syntax.specs.Spelling.{place_value};
ghost use Rattle.rl_flaws.specs.FloatRange.{IsAtLeast, after_point, power_part, decimal_part, digits_only};
ghost use Rattle.rl_flaws.specs.Mirrors.Floats.{IsBound, not_below, without_zeros};
ghost use Rattle.rl_flaws.specs.TypeErrors.{IsInfinite};

use crate::number_types::NumberType;
use rl_syntax::text::{before, split_char};

/// A limit for exponents: an exponent of at least this value exceeds the number of digits in any text.
const HUGE: u128 = 1 << 100;

/// The decimal digits of 2^128 - 2^103, the smallest number that rounds to infinity as an `f32`.
const F32_DIGITS: &str = "340282356779733661637539395458142568448";

/// The decimal digits of 2^1024 - 2^970, the smallest number that rounds to infinity as an `f64`.
const F64_DIGITS: &str =
    "1797693134862315807937289714053034150799341327100378269361737789804449682927647509466\
     4901797758720709633028641669288791094655554785194040263065748867150582068190890200070\
     8383676273854845817711531764475730270069855571366959622842914819860834936475292719074\
     168444365510704342711559699508093042880177904174497792";

/// Whether the character begins an exponent: `e` or `E`.
fn is_exponent_letter(c: char) -> bool
    ensures { result ≡ is_exponent_letter c }
{
    matches!(c, 'e' | 'E')
}

/// Splits a number's text at the letter of its exponent, and returns the text before the letter and the text after it.
fn split_letter(numeral: &str) -> (&str, &str)
    ensures before { chars result.0.now ≡ decimal_part (chars numeral.now) }
    ensures after { chars result.1.now ≡ power_part (chars numeral.now) }
{
    let mut rest = numeral;
    while let Some((c, after)) = split_char(rest) {
        if is_exponent_letter(c) {
            return (before(numeral, rest), after);
        }
        rest = after;
    }
    (numeral, rest)
}

/// Returns the part of the text after its first dot, or an empty text if it has no dot.
fn after_point(text: &str) -> &str
    ensures { chars result.now ≡ after_point (chars text.now) }
{
    let mut rest = text;
    while let Some((c, after)) = split_char(rest) {
        if c == '.' {
            return after;
        }
        rest = after;
    }
    rest
}

/// Whether the text contains a minus.
fn has_minus(text: &str) -> bool
    ensures { result ≡ list_any (λ c. c == code "-") (chars text.now) }
{
    let mut rest = text;
    while let Some((c, after)) = split_char(rest) {
        if c == '-' {
            return true;
        }
        rest = after;
    }
    false
}

/// Returns the first ASCII digit in the text, and the text after this digit.
fn split_digit(text: &str) -> Option<(char, &str)>
    ensures some { IfSome result (λ p. IsTrue (is_ascii_digit p.0)
        × (digits_only (chars text.now) ≡ p.0 ∷ digits_only (chars p.1.now)) × (length p.1.now < length text.now)) }
    ensures none { IfNone result (digits_only (chars text.now) ≡ []) }
{
    let mut rest = text;
    while let Some((c, after)) = split_char(rest) {
        if c.is_ascii_digit() {
            return Some((c, after));
        }
        rest = after;
    }
    None
}

/// Returns the text from its first nonzero digit on. Characters that aren't digits are skipped too.
fn skip_zeros(text: &str) -> &str
    ensures { digits_only (chars result.now) ≡ without_zeros (digits_only (chars text.now)) }
{
    let mut rest = text;
    while let Some(('0', after)) = split_digit(rest) {
        rest = after;
    }
    rest
}

/// Returns the number of ASCII digits in the text.
fn count_digits(text: &str) -> usize
    ensures count { result ≡ length (digits_only (chars text.now)) }
    ensures fits { result < 2 ^ 64 }
{
    let mut count = 0;
    let mut rest = text;
    while let Some((_, after)) = split_digit(rest) {
        count += 1;
        rest = after;
    }
    count
}

/// Returns the number that the decimal digits in the text represent. The number is exact if it is below `HUGE`. Otherwise the
/// result is at least `HUGE`.
fn capped_value(text: &str) -> u128
    ensures value { (result ≡ place_value 10 (digits_only (chars text.now)))
        ⊎ ((HUGE ≤ result) × (HUGE ≤ place_value 10 (digits_only (chars text.now)))) }
    ensures fits { result < 16 * HUGE }
{
    let mut value = 0;
    let mut rest = text;
    while let Some((digit, after)) = split_digit(rest) {
        if value < HUGE {
            value = 10 * value + u128::from(digit as u32 - '0' as u32);
        }
        rest = after;
    }
    value
}

/// Returns the first ASCII digit in the text and the text after it, or `'0'` and an empty text if there is no digit.
fn digit_or_zero(text: &str) -> (char, &str)
    ensures { (b : ℕ) (bs : List ℕ) → not_below (digits_only (chars text.now)) (b ∷ bs)
        ≡ cond (result.0 == b) (not_below (digits_only (chars result.1.now)) bs) (nat_lt b result.0) }
{
    match split_digit(text) {
        Some(parts) => parts,
        None => ('0', ""),
    }
}

/// Whether the number with the digits `digits` is at least the number with the digits `bound`. The first digits of both
/// numbers belong to equal powers of ten: the digits `5` are greater than `12`, as 50 is greater than 12.
fn is_not_below(digits: &str, bound: &str) -> bool
    ensures { result ≡ not_below (digits_only (chars digits.now)) (chars bound.now) }
{
    let mut left = digits;
    let mut rest = bound;
    while let Some((wanted, after)) = split_char(rest) {
        let (digit, more) = digit_or_zero(left);
        if digit != wanted {
            return digit > wanted;
        }
        left = more;
        rest = after;
    }
    true
}

/// Returns `value` if `condition` is true, and 0 otherwise.
fn value_if(condition: bool, value: u128) -> u128
    ensures { result ≡ cond condition value 0 }
{
    if condition { value } else { 0 }
}

/// Whether the decimal number `numeral` is at least the integer that the digits `bound` represent.
fn reaches(bound: &str, numeral: &str) -> bool
    requires bound { IsBound bound.now }
    requires short { length bound.now ≤ 309 }
    ensures yes { result ≡ true → IsAtLeast (place_value 10 bound.now) (chars numeral.now) }
    ensures no { result ≡ false → IsAtLeast (place_value 10 bound.now) (chars numeral.now) → ⊥ }
{
    let (significand, exponent) = split_letter(numeral);
    let digits = skip_zeros(significand);
    let count = count_digits(digits);
    if count == 0 {
        return false;
    }
    let places = count_digits(after_point(significand));
    let power = capped_value(exponent);
    let is_divided = has_minus(exponent);
    let ours = count as u128 + value_if(!is_divided, power);
    let least = bound.len() as u128 + places as u128 + value_if(is_divided, power);
    if ours > least {
        return true;
    }
    if ours < least {
        return false;
    }
    is_not_below(digits, bound)
}

/// Whether the decimal number `numeral` rounds to infinity as the type `ty`. In an integer type the result is `false`.
pub(crate) fn is_infinite(ty: NumberType, numeral: &str) -> bool
    ensures yes { result ≡ true → IsInfinite ty (chars numeral.now) }
    ensures no { result ≡ false → IsInfinite ty (chars numeral.now) → ⊥ }
{
    match ty {
        NumberType::F32 => reaches(F32_DIGITS, numeral),
        NumberType::F64 => reaches(F64_DIGITS, numeral),
        _ => false,
    }
}
