//! Functions that return the digits of an integer or float literal as a new string.

ghost use Rattle.std.specs.Prelude.{◌≡◌, ◌++◌, IfErr, IfOk, OnOk, string_bytes};
ghost use Rattle.std.specs.Fmt.{decimal};
ghost use Rattle.std.specs.Str.{chars};
ghost use Rattle.rl_tokens.specs.Errors.{memory_at};
ghost use Rattle.rl_syntax.specs.Spans.{nowhere};
ghost use Rattle.rl_syntax.specs.Numbers.{float_digits, sign_text};
ghost use Rattle.rl_lenient.specs.Mirrors.NumberAt.{sign_at};
ghost use Rattle.rl_lenient.specs.Founds.{IsFoundNumber};
ghost use Rattle.rl_lenient.specs.NumberShapes.{AreDigits, IsNumber};

use rl_lenient::digit_runs::is_negative;
use rl_lenient::found::parse_known_literal;
use rl_lenient::{Found, float_digits_into, parse_float_literal};
use rl_tokens::{Error, Kind};
use std::alloc::{AllocError, Allocator};

/// The number of characters of a minus and the 39 decimal digits of the greatest 128-bit magnitude.
const INTEGER_DIGITS: usize = 40;

/// Returns the digits of the integer or float literal `text` in base ten, as a new string.
///
/// An integer's digits are its magnitude in base ten, after a minus if the text begins with one. A float's digits are
/// everything before its suffix, without underscores and pluses and with `E` as `e`.
///
/// `text` must be a number of the kind `kind`. For `Kind::Int` it is an integer within 128 bits. For `Kind::Float` it
/// is a float, even if the text is an integer too.
///
/// # Errors
///
/// Returns `Memory` at `Span::call_site` if an allocation fails.
pub fn digits_of<A: Allocator>(alloc: A, kind: Kind, text: &str) -> Result<String<A>, Error<A>>
    requires reads { IsNumber kind (chars text.now) }
    ensures value { IfOk result (λ s. AreDigits kind (chars text.now) (chars (string_bytes s))) }
    ensures memory { IfErr result (λ e. e ≡ memory_at nowhere) }
{
    digits_of_found(alloc, text, found_number(kind, text))
}

/// Returns the parse result of `text`, which must be a number of the kind `kind`.
fn found_number(kind: Kind, text: &str) -> Found
    requires { IsNumber kind (chars text.now) }
    ensures found { IsFoundNumber text.now result }
    ensures kind { result.kind ≡ kind }
{
    match kind {
        Kind::Int => parse_known_literal(text),
        _ => match parse_float_literal(text) {
            Some(found) => found,
            None => unreachable!(),
        },
    }
}

/// Returns the digits of the integer or float literal `text` in base ten, from the literal's parse result `found`. The
/// digits are those that [`digits_of`] returns. The text isn't parsed again. Digits that are already in their final
/// form are copied, and otherwise an integer's magnitude is written.
///
/// # Errors
///
/// Returns `Memory` at `Span::call_site` if an allocation fails.
pub fn digits_of_found<A: Allocator>(
    alloc: A,
    text: &str,
    found: Found,
) -> Result<String<A>, Error<A>>
    requires { IsFoundNumber text.now found }
    ensures value { IfOk result
        (λ s. AreDigits found.kind (chars text.now) (chars (string_bytes s))) }
    ensures memory { IfErr result (λ e. e ≡ memory_at nowhere) }
{
    Ok(found_digits(alloc, text, found)?)
}

/// Returns the digits of the integer or float literal `text` in base ten, from the literal's parse result `found`.
fn found_digits<A: Allocator>(alloc: A, text: &str, found: Found) -> Result<String<A>, AllocError>
    requires { IsFoundNumber text.now found }
    ensures { IfOk result (λ s. AreDigits found.kind (chars text.now) (chars (string_bytes s))) }
{
    let body = found.body_in(text);
    if found.body.plain {
        return String::from_str(alloc, body);
    }
    match found.kind {
        Kind::Int => signed_decimal(alloc, text, found.magnitude),
        _ => plain_numeral(alloc, body),
    }
}

/// Returns `magnitude` in base ten, after a minus if `text` begins with one.
fn signed_decimal<A: Allocator>(
    alloc: A,
    text: &str,
    magnitude: u128,
) -> Result<String<A>, AllocError>
    ensures { IfOk result
        (λ s. string_bytes s ≡ sign_text (sign_at (chars text.now)) ++ decimal magnitude) }
{
    let mut digits = String::with_capacity(alloc, INTEGER_DIGITS)?;
    push_sign(&mut digits, text)?;
    push_decimal(&mut digits, magnitude)?;
    Ok(digits)
}

/// Appends a minus to `digits` if `text` begins with one.
fn push_sign<A: Allocator>(digits: &mut String<A>, text: &str) -> Result<(), AllocError>
    ensures { OnOk result
        (string_bytes digits.new ≡ string_bytes digits.old
        ++ sign_text (sign_at (chars text.now))) }
{
    if is_negative(text) {
        digits.push('-')
    } else {
        Ok(())
    }
}

/// Appends `number` in base ten to `digits`. A number that fits 64 bits is divided with 64-bit arithmetic.
fn push_decimal<A: Allocator>(digits: &mut String<A>, number: u128) -> Result<(), AllocError>
    ensures { OnOk result (string_bytes digits.new ≡ string_bytes digits.old ++ decimal number) }
{
    let written = match u64::try_from(number) {
        Ok(small) => write!(digits, "{small}"),
        Err(_) => write!(digits, "{number}"),
    };
    match written {
        Ok(()) => Ok(()),
        Err(_) => Err(AllocError),
    }
}

/// Returns the float `numeral` without its underscores and pluses, and with `E` as `e`.
fn plain_numeral<A: Allocator>(alloc: A, numeral: &str) -> Result<String<A>, AllocError>
    ensures { IfOk result (λ s. chars (string_bytes s) ≡ float_digits (chars numeral.now)) }
{
    let mut digits = vec![in alloc; 0; numeral.len()]?;
    let len = float_digits_into(numeral, digits.as_mut_slice());
    digits.truncate(len);
    // SAFETY: it is proved that the digits are UTF-8.
    Ok(unsafe { String::from_utf8_unchecked(digits) })
}
