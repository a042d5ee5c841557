//! Functions that parse numbers: integers with their base, floats, and texts that may be either, where an integer takes
//! precedence.

ghost use Rattle.std.specs.Prelude.{◌≡◌, ◌++◌, ◌≤◌, false, IsTrue, IfNone, IfSome, List, Option, option_map, ℕ, ◌∷◌, ◌⊎◌};
ghost use Rattle.std.specs.Char.{is_ascii_digit};
ghost use Rattle.std.specs.Str.{chars};
ghost use Rattle.rl_syntax.specs.declared.kind.Kind.TheVariants.{Int, Float};
ghost use Rattle.rl_syntax.specs.Texts.{IsTail, first_passes, code};
ghost use Rattle.rl_syntax.specs.Reading.{Contents, HasNoInteger, ReadsInt, IsPast, HasNoFloat, HasNoReading, Reads};
ghost use Rattle.rl_lenient.specs.Mirrors.NumberAt.{after_minus, capped_int, ended_at, int_at, IsHead, radix_at, after_exponent, after_fraction, float_at, float_tail_at, power_at};
ghost use Rattle.rl_lenient.specs.NumberShapes.{HasOneInteger, HasOneFloat, ReadsNoNumber};
ghost use Rattle.rl_syntax.specs.Numbers.{FloatReads};
ghost use Rattle.rl_lenient.specs.NumbersRead.{IsNumberOf};

use crate::digit_runs::{
    DigitRun, after_minus, begins_digit, is_exponent_suffix, is_suffix, read_digit_run, skip_digits,
};
use crate::found::{Parts, parse_float_literal, parse_int_literal, parse_unsigned_literal};
use rl_syntax::classes::{CharClass, skip_class};
use rl_syntax::text::{split_ascii, split_char};

/// Returns the base of an integer, and the text after its prefix. The prefix is `0b`, `0o` or `0x`. Without a prefix,
/// the base is 10, and the result contains the text itself.
#[inline(always)]
#[tactic(auto, using(rl_syntax::proofs::TailLemmas::tail_step, rl_syntax::proofs::TailLemmas::tail_self, crate::proofs::AsciiLemmas::no_zero, crate::proofs::AsciiLemmas::no_radix_letter), unfolding(crate::specs::Mirrors::NumberAt::radix_at))]
pub fn split_radix(text: &str) -> (u32, &str)
    ensures value { (result.0, chars result.1.now) ≡ radix_at (chars text.now) }
    ensures within { (2 ≤ result.0) × (result.0 ≤ 16) }
    ensures following { IsTail text.now result.1.now }
{
    if let Some((b'0', letter)) = split_ascii(text) {
        match split_ascii(letter) {
            Some((b'b', digits)) => return (2, digits),
            Some((b'o', digits)) => return (8, digits),
            Some((b'x', digits)) => return (16, digits),
            _ => {}
        }
    }
    (10, text)
}

/// The parsed start of a number: its base, and the sequence of digits after sign and prefix.
#[derive(Clone, Copy)]
pub struct Head<'t> {
    pub radix: u32,
    pub run: DigitRun<'t>,
}

/// Parses the start of a number, its prefix and digits. `unsigned` is the number's text after its sign.
#[inline(always)]
#[tactic(auto, using(rl_syntax::proofs::TailLemmas::tail_step))]
fn head_of(unsigned: &str) -> Head<'_>
    requires { IsTrue (first_passes is_ascii_digit (chars unsigned.now)) }
    ensures head { IsHead (chars unsigned.now) result.radix
        result.run.has_digit result.run.magnitude (chars result.run.rest.now) }
    ensures following { IsTail unsigned.now result.run.rest.now }
{
    let (radix, digits) = split_radix(unsigned);
    let run = read_digit_run(digits, radix);
    Head { radix, run }
}

/// Parses the start of a number: its sign, prefix and digits. Returns `None` if no digit follows the sign.
///
/// The function is inlined, so a text that isn't a number costs no call.
#[inline(always)]
#[tactic(auto, using(rl_syntax::proofs::TailLemmas::tail_step))]
pub(crate) fn read_head(text: &str) -> Option<Head<'_>>
    ensures none { IfNone result
        (first_passes is_ascii_digit (after_minus (chars text.now)) ≡ false) }
    ensures head { IfSome result (λ h. IsHead (after_minus (chars text.now)) h.radix
        h.run.has_digit h.run.magnitude (chars h.run.rest.now)) }
    ensures following { IfSome result (λ h. IsTail text.now h.run.rest.now) }
{
    let unsigned = after_minus(text);
    if begins_digit(unsigned) {
        Some(head_of(unsigned))
    } else {
        None
    }
}

/// A parsed integer literal: its magnitude and its suffix.
#[derive(Clone, Copy)]
pub struct Integer<'t> {
    /// The integer's absolute value, or `None` if it is above 128 bits.
    pub magnitude: Option<u128>,
    pub suffix: &'t str,
}

/// Returns the integer with the parsed start `head`, or `None` if the text after its digits isn't an integer's suffix.
#[inline(always)]
pub(crate) fn integer_of(head: Head<'_>) -> Option<Integer<'_>>
    ensures value { option_map {U = Option ℕ × List ℕ}
        (λ i. (i.magnitude, chars i.suffix.now)) result
        ≡ ended_at head.entry.radix head.entry.run.has_digit head.entry.run.magnitude
        (chars head.entry.run.rest.now) }
    ensures suffix { IfSome result (λ i. i.suffix.now ≡ head.entry.run.rest.now) }
{
    let suffix = head.run.rest;
    let is_integer = head.run.has_digit
        && is_suffix(suffix)
        && (head.radix != 10 || !is_exponent_suffix(suffix));
    if is_integer {
        Some(Integer {
            magnitude: head.run.magnitude,
            suffix,
        })
    } else {
        None
    }
}

/// Parses the text as an integer literal. Returns `None` if it isn't one.
pub fn integer_magnitude_and_suffix(text: &str) -> Option<Integer<'_>>
    ensures value { option_map {U = Option ℕ × List ℕ}
        (λ i. (i.magnitude, chars i.suffix.now)) result
        ≡ capped_int (int_at (chars text.now)) }
    ensures following { IfSome result (λ i. IsTail text.now i.suffix.now) }
{
    match read_head(text) {
        Some(head) => integer_of(head),
        None => None,
    }
}

/// Returns the kind, body and suffix of the integer literal `text`. Returns `None` if the text isn't an integer
/// literal, and `Some(None)` for an integer above 128 bits.
///
/// The body is the text before the suffix, with sign and prefix. Body and suffix are slices of the text.
pub fn int_shape(text: &str) -> Option<Option<Parts<'_>>>
    ensures none { IfNone result (HasNoInteger (chars text.now)) }
    ensures past { IfSome result (λ o. IfNone o (IsPast (chars text.now))) }
    ensures reads { IfSome result (λ o. IfSome o
        (λ p. (v : Contents) × ReadsInt (chars text.now) v (chars p.suffix.now))) }
    ensures kind { IfSome result (λ o. IfSome o (λ p. p.kind ≡ Int)) }
    ensures cut { IfSome result (λ o. IfSome o (λ p. text.now ≡ p.body.now ++ p.suffix.now)) }
    ensures following { IfSome result (λ o. IfSome o (λ p. IsTail text.now p.suffix.now)) }
    ensures once { HasOneInteger (chars text.now) }
{
    match parse_int_literal(text) {
        Some(Some(found)) => Some(Some(found.parts(text))),
        Some(None) => Some(None),
        None => None,
    }
}

/// Returns the text after the fraction at its start, which is a dot and digits. Returns the text itself if it doesn't
/// begin with a dot.
#[inline(always)]
#[tactic(auto, using(rl_syntax::proofs::TailLemmas::tail_step, rl_syntax::proofs::TailLemmas::tail_self))]
fn after_fraction(text: &str) -> &str
    ensures value { chars result.now ≡ after_fraction (chars text.now) }
    ensures following { IsTail text.now result.now }
{
    match split_char(text) {
        Some(('.', digits)) => skip_digits(digits).rest,
        _ => text,
    }
}

/// Returns the text from the digits of an exponent on: after leading underscores and a sign. `text` follows the letter
/// `e` or `E`.
#[inline(always)]
#[tactic(auto, using(rl_syntax::proofs::TailLemmas::tail_step, rl_syntax::proofs::TailLemmas::tail_self), unfolding(crate::specs::Mirrors::NumberAt::power_at))]
fn power_digits(text: &str) -> &str
    ensures value { chars result.now ≡ power_at (chars text.now) }
    ensures following { IsTail text.now result.now }
{
    let signed = skip_class(CharClass::Underscore, text);
    match split_char(signed) {
        Some(('+' | '-', digits)) => digits,
        _ => signed,
    }
}

/// Returns the text after the exponent at its start, as `e+5`, or the text itself if it doesn't begin with an exponent.
#[inline(always)]
#[tactic(auto, using(rl_syntax::proofs::TailLemmas::tail_step, rl_syntax::proofs::TailLemmas::tail_self), unfolding(crate::specs::Mirrors::NumberAt::after_exponent))]
fn after_exponent(text: &str) -> &str
    ensures value { chars result.now ≡ after_exponent (chars text.now) }
    ensures following { IsTail text.now result.now }
{
    if let Some(('e' | 'E', power)) = split_char(text) {
        let run = skip_digits(power_digits(power));
        if run.has_digit {
            return run.rest;
        }
    }
    text
}

/// Returns the suffix of a float, or `None` if the number isn't a float. `text` follows the digits before the float's
/// dot.
#[inline(always)]
#[tactic(auto, using(rl_syntax::proofs::TailLemmas::tail_step, rl_syntax::proofs::TailLemmas::tail_self))]
fn tail_suffix(text: &str) -> Option<&str>
    ensures value { option_map (λ x. chars x.now) result ≡ float_tail_at (chars text.now) }
    ensures following { IfSome result (λ x. IsTail text.now x.now) }
{
    let suffix = after_exponent(after_fraction(text));
    if is_suffix(suffix) {
        Some(suffix)
    } else {
        None
    }
}

/// Returns the suffix of the float literal `text`, or `None` if the text isn't a float literal.
#[tactic(auto, using(rl_syntax::proofs::TailLemmas::tail_step, rl_syntax::proofs::TailLemmas::tail_self), unfolding(crate::specs::Mirrors::NumberAt::float_at))]
pub(crate) fn float_suffix(text: &str) -> Option<&str>
    ensures value { option_map (λ x. chars x.now) result ≡ float_at (chars text.now) }
    ensures following { IfSome result (λ x. IsTail text.now x.now) }
{
    let whole = after_minus(text);
    if !begins_digit(whole) {
        return None;
    }
    tail_suffix(skip_digits(whole).rest)
}

/// Returns the suffix of the float literal `text`, whose start was parsed as `head`, or `None` if the text isn't a
/// float literal.
///
/// If the text begins with a prefix as `0x`, the float's digits before the dot are only the `0`.
#[inline(always)]
pub(crate) fn head_suffix<'t>(text: &'t str, head: Head<'t>) -> Option<&'t str>
    requires head { IsHead (after_minus (chars text.now)) head.radix
        head.run.has_digit head.run.magnitude (chars head.run.rest.now) }
    requires following { IsTail text.now head.run.rest.now }
    ensures value { option_map (λ x. chars x.now) result ≡ float_at (chars text.now) }
    ensures following { IfSome result (λ x. IsTail text.now x.now) }
{
    if head.radix == 10 {
        tail_suffix(head.run.rest)
    } else {
        float_suffix(text)
    }
}

/// Returns the kind, body and suffix of the float literal `text`, or `None` if it isn't one. The text may be an integer
/// literal too.
///
/// The body is the text before the suffix, with the sign. Body and suffix are slices of the text.
pub fn float_shape(text: &str) -> Option<Parts<'_>>
    ensures none { IfNone result (HasNoFloat (chars text.now)) }
    ensures reads { IfSome result
        (λ p. FloatReads (chars text.now) (chars p.body.now) (chars p.suffix.now)) }
    ensures kind { IfSome result (λ p. p.kind ≡ Float) }
    ensures cut { IfSome result (λ p. text.now ≡ p.body.now ++ p.suffix.now) }
    ensures following { IfSome result (λ p. IsTail text.now p.suffix.now) }
    ensures once { HasOneFloat (chars text.now) }
{
    let found = parse_float_literal(text)?;
    Some(found.parts(text))
}

/// A parsed number: an integer within 128 bits, with its magnitude and suffix, or a float, with its suffix. A text that
/// is an integer of any magnitude isn't a float here.
#[derive(Clone, Copy)]
pub enum Number<'t> {
    Integer(u128, &'t str),
    Float(&'t str),
}

/// Parses the text as a number. Returns `None` if it isn't one, or is an integer above 128 bits.
#[inline(always)]
pub(crate) fn read_number(text: &str) -> Option<Number<'_>>
    ensures none { IfNone result (ReadsNoNumber (chars text.now)) }
    ensures reads { IfSome result (IsNumberOf text.now) }
{
    let head = read_head(text)?;
    match integer_of(head) {
        Some(integer) => Some(Number::Integer(integer.magnitude?, integer.suffix)),
        None => Some(Number::Float(head_suffix(text, head)?)),
    }
}

/// Returns the kind, body and suffix of the number that consists of a minus and `text`.
///
/// Returns `Some` exactly if a minus and the text are a literal. That literal is an integer or a float. Body and suffix
/// are slices of the text, without the minus.
pub fn shape_negative(text: &str) -> Option<Parts<'_>>
    ensures none { IfNone result (HasNoReading (code "-" ∷ chars text.now)) }
    ensures reads { IfSome result
        (λ p. (v : Contents) × Reads (code "-" ∷ chars text.now) p.kind v (chars p.suffix.now)) }
    ensures number { IfSome result (λ p. (p.kind ≡ Int) ⊎ (p.kind ≡ Float)) }
    ensures cut { IfSome result (λ p. text.now ≡ p.body.now ++ p.suffix.now) }
{
    let found = parse_unsigned_literal(text)?;
    Some(found.parts(text))
}
