//! Numbers of Rust's grammar, parsed in one pass. The result is the number, or the reason and the position where the text can't
//! continue as a number.

ghost use Rattle.std.specs.Prelude.{◌≡◌, ◌≤◌, ◌||◌, [], IsTrue, IfOk, IfErr};
ghost use Rattle.std.specs.Char.{is_ascii_digit};
ghost use Rattle.rl_strict.specs.StrictShapes.{IsToken};
ghost use Rattle.rl_strict.specs.StrictNumbersRead.{IsNumberRead, IsStop, suffix_of};
ghost use Rattle.std.specs.List.{list_all};
ghost use Rattle.std.specs.Str.{chars};
ghost use Rattle.rl_syntax.specs.Texts.{IsTail, first_passes};
ghost use Rattle.rl_lenient.specs.Mirrors.NumberAt.{after_power_sign, magnitude_at};
ghost use Rattle.rl_syntax.specs.Numbers.{capped};
ghost use Rattle.rl_strict.specs.StrictNumberFlaws.{is_float_mark};
ghost use Rattle.rl_strict.specs.Mirrors.StrictFlawAt.{suffix_rest};
ghost use Rattle.rl_syntax.specs.Mirrors.RunsAt.{is_ascii_id_continue};
ghost use Rattle.rl_strict.specs.Mirrors.NumberRead.{based_read_at, digits_end_at, fraction_end_at, number_outcome, number_read_at, outcome, power_end_at, suffix_end_at, whole_read_at};

use crate::flaws::FlawKind;
use rl_lenient::digit_runs::{DigitRun, begins_digit, read_digit_run, skip_digits};
use rl_lenient::number_forms::split_radix;
use rl_syntax::characters::is_id_start;
use rl_syntax::classes::{CharClass, skip_class};
use rl_syntax::text::{split_ascii, split_char};

/// The reason why parsing a number stopped, and the text that begins where parsing stopped.
#[derive(Clone, Copy)]
pub struct Stop<'t> {
    pub kind: FlawKind,
    pub rest: &'t str,
}

/// A parsed number.
#[derive(Clone, Copy)]
pub enum Number<'t> {
    /// An integer: its magnitude, or `None` above 128 bits, and its suffix.
    Integer(Option<u128>, &'t str),
    /// A float, with its suffix.
    Float(&'t str),
}

/// Returns the text after the identifier at the beginning of `text`, or all of `text` if it doesn't begin with an identifier.
#[inline(always)]
#[tactic(auto, using(rl_syntax::proofs::TailLemmas::tail_step, rl_syntax::proofs::TailLemmas::tail_self), unfolding(crate::specs::Mirrors::StrictFlawAt::suffix_rest))]
pub(crate) fn skip_suffix(text: &str) -> &str
    ensures rest { chars result.now ≡ suffix_rest (chars text.now) }
{
    match split_char(text) {
        Some((first, rest)) if is_id_start(first) => skip_class(CharClass::Continue, rest),
        _ => text,
    }
}

/// Whether each byte is an ASCII letter, an ASCII digit or an underscore.
#[inline(always)]
fn are_suffix_bytes(bytes: &[u8]) -> bool
    ensures { result ≡ list_all is_ascii_id_continue bytes.now }
{
    bytes
        .iter()
        .all(|byte| byte.is_ascii_alphanumeric() || *byte == b'_')
}

/// Whether the text is an ASCII letter, followed by ASCII letters, digits and underscores only.
#[inline(always)]
fn is_ascii_word(text: &str) -> bool
    ensures { IsTrue result → suffix_rest (chars text.now) ≡ [] }
{
    let bytes = text.as_bytes();
    if bytes.is_empty() || !bytes[0].is_ascii_alphabetic() {
        return false;
    }
    are_suffix_bytes(bytes)
}

/// Returns all of `text` as a number's suffix, or a stop at the first character that a suffix can't contain.
#[inline(always)]
#[tactic(auto, using(rl_lenient::proofs::CutLemmas::some_text, rl_syntax::proofs::TailLemmas::tail_self), unfolding(crate::specs::Mirrors::NumberRead::suffix_end_at))]
fn read_suffix(text: &str) -> Result<&str, Stop<'_>>
    ensures value { outcome (λ x. chars x.now) result ≡ suffix_end_at (chars text.now) }
    ensures following { IfOk result (λ x. IsTail text.now x.now) }
{
    if text.is_empty() {
        return Ok(text);
    }
    // Most suffixes are ASCII words, and `is_ascii_word` is inlined.
    if is_ascii_word(text) {
        return Ok(text);
    }
    let rest = skip_suffix(text);
    if rest.is_empty() {
        Ok(text)
    } else {
        Err(Stop {
            kind: FlawKind::BadSuffix,
            rest,
        })
    }
}

/// Returns `text` without the `+` or `-` at its beginning, if it has one.
#[inline(always)]
#[tactic(auto, using(rl_syntax::proofs::TailLemmas::tail_step, rl_syntax::proofs::TailLemmas::tail_self))]
fn after_sign(text: &str) -> &str
    ensures value { chars result.now ≡ after_power_sign (chars text.now) }
    ensures following { IsTail text.now result.now }
{
    match split_ascii(text) {
        Some((b'+' | b'-', rest)) => rest,
        _ => text,
    }
}

/// Parses the text after the letter of a float's exponent, and returns the float's suffix.
#[inline(always)]
#[tactic(auto, using(rl_syntax::proofs::TailLemmas::ok_tail, rl_syntax::proofs::TailLemmas::tail_step, rl_syntax::proofs::TailLemmas::tail_self), unfolding(crate::specs::Mirrors::NumberRead::power_end_at))]
fn read_power(text: &str) -> Result<&str, Stop<'_>>
    ensures value { outcome (λ x. chars x.now) result ≡ power_end_at (chars text.now) }
    ensures following { IfOk result (λ x. IsTail text.now x.now) }
{
    let run = skip_digits(after_sign(text));
    if run.has_digit {
        read_suffix(run.rest)
    } else {
        Err(Stop {
            kind: FlawKind::NoExponentDigit,
            rest: run.rest,
        })
    }
}

/// Parses the text after the digits of a float's fraction, and returns the float's suffix.
#[inline(always)]
#[tactic(auto, using(rl_syntax::proofs::TailLemmas::ok_tail, rl_syntax::proofs::TailLemmas::tail_step, rl_syntax::proofs::TailLemmas::tail_self), unfolding(crate::specs::Mirrors::NumberRead::digits_end_at))]
fn read_exponent(text: &str) -> Result<&str, Stop<'_>>
    ensures value { outcome (λ x. chars x.now) result ≡ digits_end_at (chars text.now) }
    ensures following { IfOk result (λ x. IsTail text.now x.now) }
{
    match split_ascii(text) {
        Some((b'e' | b'E', power)) => read_power(power),
        _ => read_suffix(text),
    }
}

/// Parses the text after a float's dot, and returns the float's suffix.
#[inline(always)]
#[tactic(auto, using(rl_syntax::proofs::TailLemmas::ok_tail, rl_syntax::proofs::TailLemmas::tail_step, rl_syntax::proofs::TailLemmas::tail_self), unfolding(crate::specs::Mirrors::NumberRead::fraction_end_at))]
fn read_fraction(text: &str) -> Result<&str, Stop<'_>>
    ensures value { outcome (λ x. chars x.now) result ≡ fraction_end_at (chars text.now) }
    ensures following { IfOk result (λ x. IsTail text.now x.now) }
{
    if text.is_empty() {
        Ok(text)
    } else if begins_digit(text) {
        read_exponent(skip_digits(text).rest)
    } else {
        Err(Stop {
            kind: FlawKind::NoFractionDigit,
            rest: text,
        })
    }
}

/// Parses a decimal number from the end of its whole part `run` on.
#[inline(always)]
#[tactic(auto, using(rl_syntax::proofs::TailLemmas::ok_tail, rl_syntax::proofs::TailLemmas::tail_step, rl_syntax::proofs::TailLemmas::tail_self), unfolding(crate::specs::Mirrors::NumberRead::whole_read_at))]
fn read_whole(run: DigitRun<'_>) -> Result<Number<'_>, Stop<'_>>
    ensures value { number_outcome result ≡ whole_read_at run.entry.magnitude (chars run.entry.rest.now) }
    ensures following { IfOk result (λ n. IsTail run.entry.rest.now (suffix_of n)) }
{
    match split_ascii(run.rest) {
        Some((b'.', fraction)) => Ok(Number::Float(read_fraction(fraction)?)),
        Some((b'e' | b'E', power)) => Ok(Number::Float(read_power(power)?)),
        _ => Ok(Number::Integer(run.magnitude, read_suffix(run.rest)?)),
    }
}

/// Whether the text begins with a character that only floats have after their whole part: a dot, `e` or `E`.
pub fn begins_float(text: &str) -> bool
    ensures { result ≡ first_passes is_float_mark (chars text.now) }
{
    matches!(split_char(text), Some(('.' | 'e' | 'E', _)))
}

/// Parses the integer after its base prefix. `radix` is the base, other than ten.
#[inline(never)]
#[tactic(auto, using(rl_syntax::proofs::TailLemmas::ok_tail, rl_syntax::proofs::TailLemmas::tail_step, rl_syntax::proofs::TailLemmas::tail_self), unfolding(crate::specs::Mirrors::NumberRead::based_read_at))]
fn read_based(radix: u32, text: &str) -> Result<Number<'_>, Stop<'_>>
    requires { (2 ≤ radix) × (radix ≤ 16) }
    ensures value { number_outcome result ≡ based_read_at radix (chars text.now) }
    ensures following { IfOk result (λ n. IsTail text.now (suffix_of n)) }
{
    let run = read_digit_run(text, radix);
    let rest = run.rest;
    if begins_digit(rest) {
        Err(Stop {
            kind: FlawKind::InvalidDigit,
            rest,
        })
    } else if !run.has_digit {
        Err(Stop {
            kind: FlawKind::NoDigits,
            rest,
        })
    } else if begins_float(rest) {
        Err(Stop {
            kind: FlawKind::BasedFloat,
            rest,
        })
    } else {
        Ok(Number::Integer(run.magnitude, read_suffix(rest)?))
    }
}

/// Parses all of `text`, which begins with a digit, as a number.
#[inline(always)]
#[tactic(auto, using(rl_syntax::proofs::TailLemmas::ok_tail, rl_syntax::proofs::TailLemmas::tail_step), unfolding(crate::specs::Mirrors::NumberRead::number_read_at))]
pub fn parse_number(text: &str) -> Result<Number<'_>, Stop<'_>>
    ensures value { number_outcome result ≡ number_read_at (chars text.now) }
    ensures following { IfOk result (λ n. IsTail text.now (suffix_of n)) }
{
    let (radix, digits) = split_radix(text);
    if radix == 10 {
        read_whole(read_digit_run(digits, 10))
    } else {
        read_based(radix, digits)
    }
}

/// Parses all of `text`, which begins with a digit, as a number. The error is the reason why the text isn't a number, and the
/// text that begins where parsing stopped.
#[inline(always)]
#[tactic(auto, using(crate::proofs::ReadNumbers::read_ok, crate::proofs::ReadNumbers::read_err, crate::proofs::ReadNumbers::read_token))]
pub fn parse_number_token(text: &str) -> Result<Number<'_>, Stop<'_>>
    requires digit { IsTrue (first_passes is_ascii_digit (chars text.now)) }
    ensures token { IfOk result (λ n. IsToken (chars text.now)) }
    ensures number { IfOk result (IsNumberRead (chars text.now)) }
    ensures following { IfOk result (λ n. IsTail text.now (suffix_of n)) }
    ensures stop { IfErr result (λ s. IsStop (chars text.now) s.kind (chars s.rest.now)) }
{
    parse_number(text)
}
