//! Rewrites integers and floats by a style.

ghost use Rattle.std.specs.Prelude.{◌≡◌, ◌≤◌, ◌+◌, ◌++◌, ℕ, List, [], codes, if◌then◌else◌, length, take, encode_utf8_all, IsTrue, ◌*◌, ◌==◌, true};
ghost use Rattle.std.specs.Str.{chars, IsUtf8};
ghost use Rattle.rl_syntax.specs.Texts.{IsTail, first_passes};
ghost use Rattle.rl_syntax.specs.Reading.{Contents};
ghost use Rattle.rl_syntax.specs.Strict.{StrictFloat, StrictInt};
ghost use Rattle.rl_strict.specs.StrictNumbersRead.{IsNumberRead, suffix_of};
ghost use Rattle.rl_syntax.specs.Classes.{after_run};
ghost use Rattle.std.specs.Char.{is_ascii_digit};
ghost use Rattle.rl_style.specs.Cases.{drops_underscores, drops_zeros, is_padding, kept_digits, kept_run, number_character, separator, significant, trimmed, trims_by};
ghost use Rattle.rl_style.specs.Groups.{after_dot, fraction_in_groups, least_by, regrouped, size_by};
ghost use Rattle.rl_style.specs.Rewriting.{Rewrites, RewritesFloat, RewritesInt};

use crate::characters::{Manner, begins_base_letter, put_numeral};
use crate::groups::{group_size, put_digit_run};
use crate::mistyped::{contains_either, is_mistyped, is_mistyped_float};
use crate::style::{Separator, Style};
use rl_lenient::number_forms::split_radix;
use rl_strict::Number;
use rl_syntax::classes::{CharClass, skip_class};
use rl_syntax::slice_writer::{put_byte, put_text};
use rl_syntax::text::{after_prefix, before, split_char};

/// Whether the style drops the underscores of a number with the given suffix.
fn drops_underscores(style: Style, suffix: &str) -> bool
    ensures { result ≡ drops_underscores style (chars suffix.now) }
{
    style.underscores && !begins_base_letter(suffix)
}

/// Returns the text after the zeros and underscores at its beginning.
pub(crate) fn skip_padding(text: &str) -> &str
    ensures rest { chars result.now ≡ after_run is_padding (chars text.now) }
    ensures shorter { length result.now ≤ length text.now }
{
    let mut rest = text;
    while let Some(('0' | '_', after)) = split_char(rest) {
        rest = after;
    }
    rest
}

/// Returns the digits without leading zeros, or `0` if they are all zeros.
fn significant(digits: &str) -> &str
    requires { IsTrue (first_passes is_ascii_digit (chars digits.now)) }
    ensures digits { chars result.now ≡ significant (chars digits.now) }
    ensures shorter { length result.now ≤ length digits.now }
{
    let rest = skip_padding(digits);
    match split_char(rest) {
        Some(_) => rest,
        None => "0",
    }
}

/// Whether the style drops the leading zeros of an integer with the given base and suffix.
fn drops_zeros(style: Style, base: u32, suffix: &str) -> bool
    ensures { result ≡ drops_zeros style base (chars suffix.now) }
{
    style.leading_zeros && base == 10 && !begins_base_letter(suffix)
}

/// Returns the digits `run` of an integer, without leading zeros if the style drops them. Digits that are all octal keep the
/// zeros: `0123` may be meant as an octal number.
fn kept_digits<'t>(style: Style, base: u32, suffix: &str, run: &'t str) -> &'t str
    requires { IsTrue (drops_zeros style base (chars suffix.now))
        → IsTrue (first_passes is_ascii_digit (chars run.now)) }
    ensures kept { chars result.now ≡ kept_digits style base (chars suffix.now) (chars run.now) }
    ensures shorter { length result.now ≤ length run.now }
{
    if drops_zeros(style, base, suffix) && contains_either(run, '8', '9') {
        significant(run)
    } else {
        run
    }
}

/// Returns the text without the underscores at its end.
fn trimmed(text: &str) -> &str
    ensures kept { chars result.now ≡ trimmed (chars text.now) }
    ensures shorter { length result.now ≤ length text.now }
{
    let mut rest = text;
    let mut tail = text;
    while let Some((c, after)) = split_char(rest) {
        if c != '_' {
            tail = after;
        }
        rest = after;
    }
    before(text, tail)
}

/// Whether the style drops the underscores directly before a number's suffix.
fn trims(style: Style, suffix: &str) -> bool
    ensures { result ≡ trims_by style.suffix_separator (chars suffix.now) }
{
    match style.suffix_separator {
        None => false,
        Some(Separator::Nothing) => !begins_base_letter(suffix),
        Some(Separator::Underscore) => true,
    }
}

/// Returns a number's text before its suffix, without the underscores at its end if the style drops them.
fn kept_run<'t>(style: Style, suffix: &str, numeral: &'t str) -> &'t str
    ensures kept { chars result.now ≡ kept_run style (chars suffix.now) (chars numeral.now) }
    ensures shorter { length result.now ≤ length numeral.now }
{
    if trims(style, suffix) {
        trimmed(numeral)
    } else {
        numeral
    }
}

/// Whether the style writes an underscore before the number's suffix.
fn is_separated(style: Style, suffix: &str) -> bool
    ensures { (if result then codes "_" else []) ≡ separator style (chars suffix.now) }
{
    match style.suffix_separator {
        Some(Separator::Underscore) => split_char(suffix).is_some(),
        _ => false,
    }
}

/// Writes a number's suffix, with an underscore before it if the style requires one.
fn put_suffix(out: &mut [u8], at: usize, style: Style, suffix: &str) -> usize
    requires { at + (length suffix.now + 1) ≤ length out.old }
    ensures end { result ≤ at + (length suffix.now + 1) }
    ensures bytes { take result out.new
        ≡ take at out.old ++ (encode_utf8_all (separator style (chars suffix.now)) ++ suffix.now) }
    ensures len { length out.new ≡ length out.old }
{
    if is_separated(style, suffix) {
        let end = put_byte(out, at, b'_');
        return put_text(out, end, suffix);
    }
    put_text(out, at, suffix)
}

/// Returns the options for rewriting a number with the given base and suffix.
fn number_style(style: Style, base: u32, suffix: &str) -> Manner
    ensures style { result.style ≡ style }
    ensures drops { result.drops ≡ drops_underscores style (chars suffix.now) }
    ensures hex { result.hex ≡ (base == 16) }
    ensures size { result.size ≡ size_by style.digit_groups base (chars suffix.now) }
{
    Manner {
        style,
        drops: drops_underscores(style, suffix),
        hex: base == 16,
        size: group_size(style, base, suffix),
    }
}

/// Writes the new form of an integer. `text` is its whole text, and `suffix` its suffix. If the suffix may be mistyped, the
/// new form is `text`.
fn write_integer(text: &str, suffix: &str, style: Style, out: &mut [u8]) -> usize
    requires following { IsTail text.now suffix.now }
    requires integer { (v : Contents) × StrictInt (chars text.now) v (chars suffix.now) }
    requires room { 2 * length text.now + 1 ≤ length out.old }
    ensures written { RewritesInt style (chars text.now) (chars (take result out.new)) }
    ensures utf8 { IsUtf8 (take result out.new) }
    ensures within { result ≤ 2 * length text.now + 1 }
{
    if is_mistyped(suffix, text) {
        return put_text(out, 0, text);
    }
    let (base, digits) = split_radix(text);
    let whole = kept_run(style, suffix, before(digits, suffix));
    let run = kept_digits(style, base, suffix, whole);
    let at = put_text(out, 0, before(text, digits));
    let at = put_digit_run(out, at, number_style(style, base, suffix), false, run);
    put_suffix(out, at, style, suffix)
}

/// Writes the zero after a float that ends with its dot, if the style requires one.
fn put_zero(out: &mut [u8], at: usize, style: Style) -> usize
    requires { at + 1 ≤ length out.old }
    ensures end { result ≤ at + 1 }
    ensures bytes { take result out.new
        ≡ take at out.old ++ encode_utf8_all (if style.float_zero then codes "0" else []) }
    ensures len { length out.new ≡ length out.old }
{
    if style.float_zero {
        return put_byte(out, at, b'0');
    }
    at
}

/// Writes the new form of the text after a float's dot.
fn put_after_dot(out: &mut [u8], at: usize, manner: Manner, fraction: &str) -> usize
    requires { at + (2 * length fraction.now + 1) ≤ length out.old }
    ensures end { result ≤ at + (2 * length fraction.now + 1) }
    ensures bytes { take result out.new ≡ take at out.old
        ++ encode_utf8_all (after_dot manner.style.float_zero
        (number_character manner.style manner.drops manner.hex)
        (regrouped true manner.size (least_by manner.style.digit_groups)) (chars fraction.now)) }
    ensures len { length out.new ≡ length out.old }
{
    match split_char(fraction) {
        Some(_) => {
            let exponent = skip_class(CharClass::Numeral, fraction);
            let at = put_digit_run(out, at, manner, true, before(fraction, exponent));
            put_numeral(out, at, manner, exponent)
        }
        None => put_zero(out, at, manner.style),
    }
}

/// Writes the new form of the text after a float's whole part.
fn put_fraction(out: &mut [u8], at: usize, manner: Manner, rest: &str) -> usize
    requires { at + 2 * length rest.now ≤ length out.old }
    ensures end { result ≤ at + 2 * length rest.now }
    ensures bytes { take result out.new ≡ take at out.old
        ++ encode_utf8_all (fraction_in_groups manner.style.float_zero
        (number_character manner.style manner.drops manner.hex)
        (regrouped true manner.size (least_by manner.style.digit_groups)) (chars rest.now)) }
    ensures len { length out.new ≡ length out.old }
{
    match after_prefix(".", rest) {
        Some(fraction) => {
            let at = put_byte(out, at, b'.');
            put_after_dot(out, at, manner, fraction)
        }
        None => put_numeral(out, at, manner, rest),
    }
}

/// Writes the new form of a float. `text` is its whole text, and `suffix` its suffix. If the suffix may be mistyped, the new
/// form is `text`.
fn write_float(text: &str, suffix: &str, style: Style, out: &mut [u8]) -> usize
    requires following { IsTail text.now suffix.now }
    requires float { (v : Contents) × StrictFloat (chars text.now) v (chars suffix.now) }
    requires room { 2 * length text.now + 1 ≤ length out.old }
    ensures written { RewritesFloat style (chars text.now) (chars (take result out.new)) }
    ensures utf8 { IsUtf8 (take result out.new) }
    ensures within { result ≤ 2 * length text.now + 1 }
{
    if is_mistyped_float(suffix, text) {
        return put_text(out, 0, text);
    }
    let manner = number_style(style, 10, suffix);
    let numeral = kept_run(style, suffix, before(text, suffix));
    let rest = skip_class(CharClass::Numeral, numeral);
    let at = put_digit_run(out, 0, manner, false, before(numeral, rest));
    let at = put_fraction(out, at, manner, rest);
    put_suffix(out, at, style, suffix)
}

/// Writes the new form of a number. `text` is its text, and `number` its parse result.
pub(crate) fn write_number(text: &str, number: Number<'_>, style: Style, out: &mut [u8]) -> usize
    requires number { IsNumberRead (chars text.now) number }
    requires following { IsTail text.now (suffix_of number) }
    requires room { 2 * length text.now + 1 ≤ length out.old }
    ensures written { (front : List ℕ) → Rewrites style front (chars text.now) (chars (take result out.new)) }
    ensures utf8 { IsUtf8 (take result out.new) }
    ensures within { result ≤ 2 * length text.now + 1 }
{
    match number {
        Number::Integer(_, suffix) => write_integer(text, suffix, style, out),
        Number::Float(suffix) => write_float(text, suffix, style, out),
    }
}
