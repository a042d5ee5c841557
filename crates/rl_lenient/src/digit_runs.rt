//! Functions that parse sequences of digits and underscores, the minus before them and the suffix after them. The
//! number that the digits represent is computed within 128 bits.

ghost use Rattle.std.specs.Prelude.{◌≡◌, ◌<◌, ◌≤◌, None, Option, Some, drop, false, nat_lt, if◌then◌else◌, ℕ};
ghost use Rattle.std.specs.Char.{digit_value, is_ascii_digit};
ghost use Rattle.std.specs.Str.{IsCharBoundary, chars};
ghost use Rattle.rl_syntax.specs.Texts.{IsTail, first_passes};
ghost use Rattle.rl_syntax.specs.Numbers.{Minus, NoSign, capped};
ghost use Rattle.rl_lenient.specs.Mirrors.NumberAt.{after_digits, after_minus, append_digit, has_digit_at, is_exponent_suffix, is_suffix, magnitude_at, run_from, sign_at};

use rl_syntax::ident::xid_ok;
use rl_syntax::text::{split_ascii, split_char};
use std::marker::Model;

/// A parsed sequence of digits and underscores: whether it contains a digit, its number, and the text after it.
#[derive(Clone, Copy)]
pub struct DigitRun<'t> {
    pub has_digit: bool,
    /// The number that the digits represent, or `None` if it is above 128 bits.
    pub magnitude: Option<u128>,
    pub rest: &'t str,
}

/// A skipped sequence of digits and underscores: whether it contains a digit, and the text after it. Its number isn't
/// computed.
#[derive(Clone, Copy)]
pub struct Skipped<'t> {
    pub has_digit: bool,
    pub rest: &'t str,
}

/// Returns the value of a digit or a letter in the bases up to 36, where `a` and `A` are 10. For any other byte the
/// result is 36.
fn digit_value(byte: u8) -> u32
    ensures { result ≡ digit_value byte }
{
    let digit = byte.wrapping_sub(b'0');
    if digit < 10 {
        return u32::from(digit);
    }
    match byte {
        b'a'..=b'z' => u32::from(byte - b'a' + 10),
        b'A'..=b'Z' => u32::from(byte - b'A' + 10),
        _ => 36,
    }
}

/// A bound for numbers: a smaller number with one more digit after it still fits 64 bits, in every base up to 36.
const MAY_GROW: u64 = 1 << 58;

/// The first digits of an integer, whose number fits 64 bits.
#[derive(Clone, Copy)]
struct FirstDigits {
    /// The number that the first digits represent.
    spelled: u64,
    /// The byte offset after the first digits.
    end: usize,
}

/// Parses digits in the base `radix` at the start of the text, as long as their number surely fits 64 bits. Returns
/// their number and the byte offset after them.
#[inline(always)]
fn first_digits(text: &str, radix: u32) -> FirstDigits
    requires { (2 ≤ radix) × (radix ≤ 36) }
    ensures goes { run_from radix (nat_lt 0 result.end) (Some result.spelled)
        (drop result.end text.now) ≡ run_from radix false (Some 0) text.now }
    ensures boundary { IsCharBoundary text.now result.end }
    ensures small { result.spelled < 18446744073709551615 }
{
    let bytes = text.as_bytes();
    let mut spelled = 0_u64;
    let mut end = 0;
    while end < bytes.len() && spelled < MAY_GROW {
        let digit = digit_value(bytes[end]);
        if digit >= radix {
            break;
        }
        spelled = spelled * u64::from(radix) + u64::from(digit);
        end += 1;
    }
    FirstDigits { spelled, end }
}

/// Parses the digits in the base `radix` and the underscores at the start of the text.
///
/// The function is inlined, so that a base that is constant in a caller costs no full multiplication.
#[inline(always)]
#[tactic(auto, using(rl_syntax::proofs::Rests::tail_drop))]
fn read_digit_run_in(text: &str, radix: u32) -> DigitRun<'_>
    requires { (2 ≤ radix) × (radix ≤ 36) }
    ensures value { (result.has_digit, result.magnitude, chars result.rest.now)
        ≡ run_from radix false (Some 0) (chars text.now) }
    ensures has_digit { result.has_digit ≡ has_digit_at radix (chars text.now) }
    ensures magnitude { result.magnitude ≡ capped (magnitude_at radix (chars text.now)) }
    ensures rest { chars result.rest.now ≡ after_digits radix (chars text.now) }
    ensures following { IsTail text.now result.rest.now }
{
    let bytes = text.as_bytes();
    let first = first_digits(text, radix);
    let mut has_digit = first.end > 0;
    let mut tally = Tally::of(first.spelled);
    let mut at = first.end;
    while at < bytes.len() {
        let byte = bytes[at];
        let digit = digit_value(byte);
        if digit < radix {
            has_digit = true;
            tally = tally.append_digit(radix, digit);
        } else if byte != b'_' {
            break;
        }
        at += 1;
    }
    DigitRun {
        has_digit,
        magnitude: tally.magnitude(),
        rest: &text[at..],
    }
}

/// Parses the digits in the base `radix` and the underscores at the start of the text. For base ten the loop is
/// compiled separately, with the base as a constant.
#[inline(always)]
pub fn read_digit_run(text: &str, radix: u32) -> DigitRun<'_>
    requires { (2 ≤ radix) × (radix ≤ 36) }
    ensures has_digit { result.has_digit ≡ has_digit_at radix (chars text.now) }
    ensures magnitude { result.magnitude ≡ capped (magnitude_at radix (chars text.now)) }
    ensures rest { chars result.rest.now ≡ after_digits radix (chars text.now) }
    ensures following { IsTail text.now result.rest.now }
{
    if radix == 10 {
        read_digit_run_in(text, 10)
    } else {
        read_digit_run_in(text, radix)
    }
}

/// Returns the number of decimal digits at the start of the text.
#[inline(always)]
fn digits_len(text: &str) -> usize
    ensures goes { run_from 10 (nat_lt 0 result) None (drop result text.now)
        ≡ run_from 10 false None text.now }
    ensures boundary { IsCharBoundary text.now result }
{
    let bytes = text.as_bytes();
    let mut len = 0;
    while len < bytes.len() && bytes[len].is_ascii_digit() {
        len += 1;
    }
    len
}

/// Skips the decimal digits and underscores at the start of the text, without computing their number.
#[inline(always)]
pub fn skip_digits(text: &str) -> Skipped<'_>
    ensures has_digit { result.has_digit ≡ has_digit_at 10 (chars text.now) }
    ensures rest { chars result.rest.now ≡ after_digits 10 (chars text.now) }
    ensures following { IsTail text.now result.rest.now }
{
    let bytes = text.as_bytes();
    let mut at = digits_len(text);
    let mut has_digit = at > 0;
    while at < bytes.len() {
        let byte = bytes[at];
        if byte.is_ascii_digit() {
            has_digit = true;
        } else if byte != b'_' {
            break;
        }
        at += 1;
    }
    Skipped {
        has_digit,
        rest: &text[at..],
    }
}

/// Whether the text may be the suffix of a number: it is empty, or an identifier that doesn't begin with `_`.
#[inline(always)]
pub(crate) fn is_suffix(text: &str) -> bool
    ensures { result ≡ is_suffix (chars text.now) }
{
    match split_char(text) {
        Some((first, _)) => first != '_' && xid_ok(text),
        None => true,
    }
}

/// Whether the text after the digits of a decimal integer is an exponent, as `e5` or `e5f32`, so that the number is a
/// float.
#[tactic(auto, unfolding(crate::specs::Mirrors::NumberAt::is_exponent_suffix))]
pub(crate) fn is_exponent_suffix(text: &str) -> bool
    ensures { result ≡ is_exponent_suffix (chars text.now) }
{
    match split_char(text) {
        Some(('e' | 'E', rest)) => {
            let power = skip_digits(rest);
            power.has_digit && is_suffix(power.rest)
        }
        _ => false,
    }
}

/// Returns `true` if the text begins with a minus.
#[tactic(auto, using(crate::proofs::AsciiLemmas::no_sign))]
pub fn is_negative(text: &str) -> bool
    ensures { sign_at (chars text.now) ≡ (if result then Minus else NoSign) }
{
    matches!(split_ascii(text), Some((b'-', _)))
}

/// Returns the text after the minus at its start, or the text itself if it doesn't begin with a minus.
#[tactic(auto, using(crate::proofs::AsciiLemmas::no_minus))]
pub fn after_minus(text: &str) -> &str
    ensures value { chars result.now ≡ after_minus (chars text.now) }
    ensures following { IsTail text.now result.now }
{
    match split_ascii(text) {
        Some((b'-', rest)) => rest,
        _ => text,
    }
}

/// Returns `true` if the text begins with a decimal digit.
#[tactic(auto, using(crate::proofs::AsciiLemmas::no_decimal))]
pub fn begins_digit(text: &str) -> bool
    ensures { result ≡ first_passes is_ascii_digit (chars text.now) }
{
    match split_ascii(text) {
        Some((first, _)) => (first as char).is_ascii_digit(),
        None => false,
    }
}

/// The number of a sequence of digits that are appended one by one, if it fits 128 bits. Digits are collected in 64
/// bits, and added to the number of 128 bits only when the 64 bits are full.
#[derive(Drop)]
pub struct Tally {
    /// The number that all digits except the last ones represent, or `None` if it is above 128 bits.
    front: Option<u128>,
    /// The number that the last digits represent, which are collected in 64 bits.
    last: u64,
    /// The number of all digits is `front * scale + last`, and `last` is below `scale`. Once `front` isn't 0, `scale`
    /// is the base to the power of the count of the last digits.
    scale: u64,
}

impl Model for Tally {
    ghost use Rattle.std.specs.Prelude.{Option, ℕ, ◌<◌};
    ghost use Rattle.rl_lenient.specs.Mirrors.NumberAt.{append_digit};

    ghost Value = { Option ℕ };

    ghost view = { λ t. append_digit t.scale t.front t.last };

    ghost invariant = { λ t. t.last < t.scale };
}

impl Tally {
    /// Creates the [`Tally`] of digits that represent the number `spelled`.
    pub(crate) fn of(spelled: u64) -> Tally
        requires { spelled < 18446744073709551615 }
        ensures { result ≡ Some spelled }
    {
        Tally {
            front: Some(0),
            last: spelled,
            scale: spelled + 1,
        }
    }

    /// Returns the [`Tally`] of the digits with one more digit in the base `radix`, which is `digit`.
    #[inline(always)]
    pub(crate) fn append_digit(self, radix: u32, digit: u32) -> Tally
        requires { (2 ≤ radix) × (digit < radix) }
        ensures { result ≡ append_digit radix self digit }
    {
        match self.scale.checked_mul(u64::from(radix)) {
            Some(scale) => Tally {
                front: self.front,
                last: self.last * u64::from(radix) + u64::from(digit),
                scale,
            },
            None => Tally {
                front: self.magnitude(),
                last: u64::from(digit),
                scale: u64::from(radix),
            },
        }
    }

    /// Returns the number that the digits represent, or `None` if it is above 128 bits.
    pub fn magnitude(&self) -> Option<u128>
        ensures { result ≡ self.now }
    {
        if self.front == Some(0) {
            return Some(u128::from(self.last));
        }
        self.front?
            .checked_mul(u128::from(self.scale))?
            .checked_add(u128::from(self.last))
    }
}
