//! Writes the output line of a literal from its parse result, without a `Lit` and without a copy of the text.

ghost use Rattle.std.specs.Prelude.{◌≡◌, ◌⊎◌, OnOk, IfOk, IfNone, IfSome, string_bytes};
ghost use Rattle.std.specs.Str.{chars};
ghost use Rattle.rl_syntax.specs.declared.kind.Kind.TheVariants.{Str, ByteStr, CStr, Int, Float};
ghost use Rattle.rl_syntax.specs.Reading.{HasNoReading, HasSuffix, truth_text};
ghost use Rattle.rl_lenient.specs.Founds.{IsFound};
ghost use Rattle.rl_program.specs.FoundLines.{IsShownOf};
ghost use Rattle.rl_program.specs.Lines.{Appends, IsLineOf, IsLineOfKind};

use crate::line::{push_line_of_kind, push_text, push_verbatim_line};
use rl_fronts::{bytes_of_body, digits_of_found, str_of_body};
use rl_lenient::Found;
use rl_tokens::{CString, Error, Kind, Literal};
use std::alloc::{AllocError, Allocator};

/// Appends the output line of `text`, a literal of the kind `kind`. `shown` is its value as the line has it, and `suffix` its
/// suffix.
fn push_shown<A: Allocator>(
    out: &mut String<A>,
    kind: Kind,
    text: &str,
    shown: &str,
    suffix: &str,
) -> Result<(), AllocError>
    requires shown { IsShownOf kind (chars text.now) (chars shown.now) }
    requires suffix { HasSuffix kind (chars text.now) (chars suffix.now) }
    ensures { OnOk result (Appends (IsLineOfKind kind (chars text.now))
        (chars (string_bytes out.old)) (chars (string_bytes out.new))) }
{
    push_line_of_kind(out, kind, shown, suffix)
}

/// Appends the output line of `text`, a literal of the kind `kind`. `written` is its value as a literal, or the failed allocation
/// that is returned. `suffix` is its suffix.
fn push_written<A: Allocator>(
    out: &mut String<A>,
    kind: Kind,
    text: &str,
    written: Result<Literal<A>, Error<A>>,
    suffix: &str,
) -> Result<(), AllocError>
    requires shown { IfOk written (λ l. IsShownOf kind (chars text.now) (chars l.text)) }
    requires suffix { HasSuffix kind (chars text.now) (chars suffix.now) }
    ensures { OnOk result (Appends (IsLineOfKind kind (chars text.now))
        (chars (string_bytes out.old)) (chars (string_bytes out.new))) }
{
    match written {
        Ok(shown) => push_shown(out, kind, text, shown.text(), suffix),
        Err(_) => Err(AllocError),
    }
}

/// Appends the output line of the string literal `text`, from its parse result `found`.
///
/// The value is copied only if it differs from the text between the quotes.
fn push_string<A: Allocator>(
    alloc: A,
    out: &mut String<A>,
    text: &str,
    found: &Found,
    suffix: &str,
) -> Result<(), AllocError>
    requires found { IsFound text.now found.now }
    requires kind { found.now.kind ≡ Str }
    requires suffix { HasSuffix Str (chars text.now) (chars suffix.now) }
    ensures { OnOk result (Appends (IsLineOfKind Str (chars text.now))
        (chars (string_bytes out.old)) (chars (string_bytes out.new))) }
{
    let body = found.body_in(text);
    if found.body.plain {
        return push_text(out, body, suffix);
    }
    match str_of_body(alloc, body, found.body.plain) {
        Ok(value) => push_text(out, value.as_str(), suffix),
        Err(_) => Err(AllocError),
    }
}

/// Returns the value of the byte string literal `text` as a newly written literal. `found` is the parse result of `text`.
///
/// The value is copied only if it differs from the text between the quotes.
fn written_byte_string<A: Allocator + Copy>(
    alloc: A,
    text: &str,
    found: &Found,
) -> Result<Literal<A>, Error<A>>
    requires found { IsFound text.now found.now }
    requires kind { found.now.kind ≡ ByteStr }
    ensures { IfOk result (λ l. IsShownOf found.now.kind (chars text.now) (chars l.text)) }
{
    let body = found.body_in(text);
    if found.body.plain {
        return Literal::byte_string(alloc, body.as_bytes());
    }
    let value = bytes_of_body(alloc, found.kind, body, found.body.plain)?;
    Literal::byte_string(alloc, value.as_slice())
}

/// Returns the value of the C string literal `text` as a newly written literal. `found` is the parse result of `text`.
fn written_c_string<A: Allocator + Copy>(
    alloc: A,
    text: &str,
    found: &Found,
) -> Result<Literal<A>, Error<A>>
    requires found { IsFound text.now found.now }
    requires kind { found.now.kind ≡ CStr }
    ensures { IfOk result (λ l. IsShownOf found.now.kind (chars text.now) (chars l.text)) }
{
    let value = bytes_of_body(alloc, found.kind, found.body_in(text), found.body.plain)?;
    Literal::c_string(alloc, &CString::new(value).unwrap())
}

/// Appends the output line of the number `text`, from its parse result `found`.
///
/// The digits are copied only if they differ from the text before the suffix.
fn push_number<A: Allocator>(
    alloc: A,
    out: &mut String<A>,
    text: &str,
    found: &Found,
    suffix: &str,
) -> Result<(), AllocError>
    requires found { IsFound text.now found.now }
    requires kind { (found.now.kind ≡ Int) ⊎ (found.now.kind ≡ Float) }
    requires suffix { HasSuffix found.now.kind (chars text.now) (chars suffix.now) }
    ensures { OnOk result (Appends (IsLineOfKind found.now.kind (chars text.now))
        (chars (string_bytes out.old)) (chars (string_bytes out.new))) }
{
    if found.body.plain {
        return push_shown(out, found.kind, text, found.body_in(text), suffix);
    }
    match digits_of_found(alloc, text, *found) {
        Ok(digits) => push_shown(out, found.kind, text, digits.as_str(), suffix),
        Err(_) => Err(AllocError),
    }
}

/// Returns `true` or `false` as text.
pub fn bool_word(value: bool) -> &'static str
    ensures { result.now ≡ truth_text value }
{
    if value { "true" } else { "false" }
}

/// Appends the output line of the literal `text`, from its parse result `found`. `suffix` is the literal's suffix.
fn push_read<A: Allocator + Copy>(
    alloc: A,
    out: &mut String<A>,
    text: &str,
    found: &Found,
    suffix: &str,
) -> Result<(), AllocError>
    requires found { IsFound text.now found.now }
    requires suffix { HasSuffix found.now.kind (chars text.now) (chars suffix.now) }
    ensures { OnOk result (Appends (IsLineOfKind found.now.kind (chars text.now))
        (chars (string_bytes out.old)) (chars (string_bytes out.new))) }
{
    match found.kind {
        Kind::Str => push_string(alloc, out, text, found, suffix),
        Kind::ByteStr => {
            let written = written_byte_string(alloc, text, found);
            push_written(out, found.kind, text, written, suffix)
        }
        Kind::CStr => {
            let written = written_c_string(alloc, text, found);
            push_written(out, found.kind, text, written, suffix)
        }
        Kind::Byte => {
            let written = Literal::byte_character(alloc, found.unit as u8);
            push_written(out, found.kind, text, written, suffix)
        }
        Kind::Char => {
            let written = Literal::character(alloc, char::from_u32(found.unit).unwrap());
            push_written(out, found.kind, text, written, suffix)
        }
        Kind::Int | Kind::Float => push_number(alloc, out, text, found, suffix),
        Kind::Bool => push_shown(out, found.kind, text, bool_word(found.truth), suffix),
    }
}

/// Appends the output line of `text`, which is a literal or an invalid literal.
///
/// `found` is the parse result that `parse_literal` of `rl_grammar` returns for `text`, or `None` for an invalid literal.
///
/// # Errors
///
/// Returns an error if an allocation fails. The error is the standard library's. A part of the line may have been appended then.
pub fn push_found_line<A: Allocator + Copy>(
    alloc: A,
    out: &mut String<A>,
    text: &str,
    found: Option<Found>,
) -> Result<(), AllocError>
    requires none { IfNone found (HasNoReading (chars text.now)) }
    requires found { IfSome found (IsFound text.now) }
    ensures { OnOk result (Appends (IsLineOf (chars text.now))
        (chars (string_bytes out.old)) (chars (string_bytes out.new))) }
{
    match found {
        Some(found) => push_read(alloc, out, text, &found, found.suffix_in(text)),
        None => push_verbatim_line(out, text),
    }
}
