//! Functions that lex numbers.
#![tactic(auto, using(rl_syntax::proofs::TailLemmas::tail_step))]

ghost use Rattle.std.specs.Prelude.{◌≡◌, ◌<◌, ◌==◌, ◌||◌, not, length, IsTrue, IfSome, IfNone};
ghost use Rattle.std.specs.Char.{is_ascii_digit};
ghost use Rattle.std.specs.Str.{chars};
ghost use Rattle.rl_syntax.specs.Texts.{code, first_passes, IsTail};
ghost use Rattle.rl_lexer.specs.Lexemes.{begins_dot};
ghost use Rattle.rl_syntax.specs.Texts.{is_start};
ghost use Rattle.rl_lexer.specs.Mirrors.LexemeAt.{after_lexed_fraction, after_lexed_exponent, after_decimal, after_sign};
ghost use Rattle.rl_syntax.specs.Classes.{after_run};

use super::suffix::after_suffix;
use rl_syntax::characters::is_id_start;
use rl_syntax::classes::{CharClass, skip_class};
use rl_syntax::text::{split_ascii, split_char, without_first_char};

/// Returns the text after a decimal number, where `text` begins after one or more of the digits before the number's
/// dot.
#[inline(never)]
pub(crate) fn after_decimal(text: &str) -> &str
    ensures rest { chars result.now ≡ after_decimal (chars text.now) }
    ensures following { IsTail text.now result.now }
{
    after_suffix(after_exponent(after_fraction(skip_class(CharClass::Numeral, text))))
}

/// Returns `text` without the decimal digits at its start. If `text` begins with another character, the result is
/// `text` itself.
#[inline(always)]
pub(crate) fn after_digits(text: &str) -> &str
    ensures rest { chars result.now ≡ after_run is_ascii_digit (chars text.now) }
    ensures following { IsTail text.now result.now }
{
    let mut rest = text;
    while let Some(following) = without_digit(rest) {
        rest = following;
    }
    rest
}

/// Returns `text` without its first character, or `None` if this character isn't a decimal digit.
#[inline(always)]
#[tactic(auto, using(rl_syntax::proofs::TailLemmas::tail_step, crate::proofs::NumberEnds::no_digit))]
fn without_digit(text: &str) -> Option<&str>
    ensures some { IfSome result (λ rest. after_run is_ascii_digit (chars text.now)
        ≡ after_run is_ascii_digit (chars rest.now)) }
    ensures none { IfNone result (after_run is_ascii_digit (chars text.now) ≡ chars text.now) }
    ensures following { IfSome result (λ rest. IsTail text.now rest.now) }
    ensures shorter { IfSome result (λ rest. length rest.now < length text.now) }
{
    match split_ascii(text) {
        Some((byte, following)) if (byte as char).is_ascii_digit() => Some(following),
        _ => None,
    }
}

/// Whether the text begins with an ASCII character that doesn't continue a number.
#[inline(always)]
pub(crate) fn ends_number(text: &str) -> bool
    ensures { IsTrue result
        → IsTrue (first_passes (λ c. not (c == code "." || is_start c)) (chars text.now)) }
{
    match split_ascii(text) {
        Some((byte, _)) => !(byte == b'.' || is_id_start(byte as char)),
        None => false,
    }
}

/// Returns the text after a number's dot and the digits after the dot. If the text doesn't begin with a dot of a
/// number, the result is the text itself.
fn after_fraction(text: &str) -> &str
    ensures rest { chars result.now ≡ after_lexed_fraction (chars text.now) }
    ensures following { IsTail text.now result.now }
{
    if begins_dot(text) {
        skip_class(CharClass::Numeral, without_first_char(text))
    } else {
        text
    }
}

/// Whether the text begins with a dot of a number: neither another dot nor an identifier follows the dot.
fn begins_dot(text: &str) -> bool
    ensures { result ≡ begins_dot (chars text.now) }
{
    match split_char(text) {
        Some(('.', following)) => match split_char(following) {
            Some((next, _)) => !(next == '.' || is_id_start(next)),
            None => true,
        },
        _ => false,
    }
}

/// Returns the text after a number's exponent, as `e+5`. If the text doesn't begin with an exponent, the result is the
/// text itself.
fn after_exponent(text: &str) -> &str
    ensures rest { chars result.now ≡ after_lexed_exponent (chars text.now) }
    ensures following { IsTail text.now result.now }
{
    if let Some(('e' | 'E', following)) = split_char(text) {
        let digits = after_sign(following);
        if let Some((d, _)) = split_char(skip_class(CharClass::Underscore, digits)) {
            if d.is_ascii_digit() {
                return skip_class(CharClass::Numeral, digits);
            }
        }
    }
    text
}

/// Returns `text` without the `+` or `-` at its start, or `text` itself if it begins with neither.
fn after_sign(text: &str) -> &str
    ensures rest { chars result.now ≡ after_sign (chars text.now) }
    ensures following { IsTail text.now result.now }
{
    match split_char(text) {
        Some(('+' | '-', following)) => following,
        _ => text,
    }
}
