//! Tests of whether a number's body already is its digits, and a function that writes a float's digits into a slice of
//! the caller's.

ghost use Rattle.std.specs.Prelude.{◌≡◌, ◌≤◌, ◌+◌, ◌++◌, encode_utf8, encode_utf8_all, length, take, [], ◌∷◌};
ghost use Rattle.std.specs.Char.{is_ascii_digit};
ghost use Rattle.std.specs.List.{list_all};
ghost use Rattle.std.specs.Str.{chars, IsUtf8};
ghost use Rattle.rl_syntax.specs.Numbers.{float_digits};
ghost use Rattle.rl_lenient.specs.Mirrors.PlainAt.{is_plain_digits, is_plain_float, is_plain_integer};

use crate::digit_runs::after_minus;
use rl_syntax::scan::{Marks, split_after_mark};
use rl_syntax::slice_writer::{put_byte, put_char};
use rl_syntax::text::split_char;

/// The characters of a float literal that its digits don't contain: `_` and `+` are dropped, and `E` becomes `e`.
const CHANGED: Marks = Marks {
    first: b'_',
    second: b'+',
    third: b'E',
    fourth: b'E',
};

/// Whether all bytes are ASCII decimal digits.
fn are_digits(bytes: &[u8]) -> bool
    ensures { result ≡ list_all is_ascii_digit bytes.now }
{
    bytes.iter().all(u8::is_ascii_digit)
}

/// Whether all characters of the text are ASCII decimal digits.
fn all_digits(text: &str) -> bool
    ensures { result ≡ list_all is_ascii_digit (chars text.now) }
{
    are_digits(text.as_bytes())
}

/// Whether the text is a number in base ten, without a needless leading zero. The zero is tested before the digits.
#[tactic(auto, using(crate::proofs::CutLemmas::some_text))]
fn is_plain_digits(text: &str) -> bool
    ensures { result ≡ is_plain_digits (chars text.now) }
{
    match split_char(text) {
        Some((first, rest)) => (first != '0' || rest.is_empty()) && all_digits(text),
        None => false,
    }
}

/// Returns `true` if an integer literal's body is a number in base ten without underscores and without a needless
/// leading zero, perhaps after a minus.
pub fn is_plain_integer(body: &str) -> bool
    ensures { result ≡ is_plain_integer (chars body.now) }
{
    is_plain_digits(after_minus(body))
}

/// Whether the digits of a float literal are its body as written. `numeral` is the text before the suffix.
pub(crate) fn is_plain_float(numeral: &str) -> bool
    ensures { result ≡ is_plain_float (chars numeral.now) }
{
    match split_after_mark(CHANGED, numeral) {
        Some(_) => false,
        None => true,
    }
}

/// Writes the character `c` of a float literal as it is in the float's digits, after the first `at` bytes of the slice
/// `out`. Returns the offset after the written bytes.
///
/// Underscores and plus signs are dropped, and `E` becomes `e`. An ASCII character is written as a byte.
#[inline(always)]
#[tactic(auto, using(std::proofs::lemmas::Str::encode_ascii))]
fn put_digit(out: &mut [u8], at: usize, c: char) -> usize
    requires { at + length (encode_utf8 c) ≤ length out.old }
    ensures end { result ≤ at + length (encode_utf8 c) }
    ensures bytes { take result out.new
        ≡ take at out.old ++ encode_utf8_all (float_digits (c ∷ [])) }
    ensures len { length out.new ≡ length out.old }
{
    match c {
        '_' | '+' => at,
        'E' => put_byte(out, at, b'e'),
        _ if c.is_ascii() => put_byte(out, at, c as u8),
        _ => put_char(out, at, c),
    }
}

/// Writes the digits of a float literal to the start of `out`, and returns their length in bytes. `numeral` is the
/// literal's text before its suffix.
///
/// The digits are that text without underscores and plus signs, and with `e` for `E`. Nothing is allocated.
pub fn float_digits_into(numeral: &str, out: &mut [u8]) -> usize
    requires { length numeral.now ≤ length out.old }
    ensures digits { chars (take result out.new) ≡ float_digits (chars numeral.now) }
    ensures utf8 { IsUtf8 (take result out.new) }
    ensures within { result ≤ length numeral.now }
    ensures len { length out.new ≡ length out.old }
{
    let mut at = 0;
    let mut rest = numeral;
    while let Some((c, after)) = split_char(rest) {
        at = put_digit(out, at, c);
        rest = after;
    }
    at
}
