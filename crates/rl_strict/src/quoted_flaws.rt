//! The flaws of invalid escapes and invalid characters in quoted literals.

ghost use Rattle.std.specs.Prelude.{◌≡◌, drop};
ghost use Rattle.std.specs.Str.{chars, IsCharBoundary};
ghost use Rattle.rl_strict.specs.Mirrors.UnitFlawAt.{character_flaw_of, code_flaw_of, code_flaw_at, escape_flaw_at, first_digit_flaw_at, found_flaw, hex_flaw_at, is_code, low_digit_flaw_at};
ghost use Rattle.rl_lenient.specs.Mirrors.UnitAt.{code_digits};

use crate::flaws::{FlawAt, FlawKind, make_flaw};
use rl_lenient::units::{CodeDigits, allows_code, allows_unicode_escapes, parse_code_digits};
use rl_syntax::Kind;
use rl_syntax::text::split_char;

/// Returns the flaw of an invalid `\x` escape after its first digit. `text` begins at the second digit. If the second digit is
/// valid, the flaw is a NUL, which is `\x00` in a C string.
fn low_digit_flaw(text: &str) -> FlawAt<'_>
    ensures { found_flaw result.kind (chars result.rest.now) ≡ low_digit_flaw_at (chars text.now) }
{
    match split_char(text) {
        None => make_flaw(FlawKind::Unclosed, text),
        Some((c, _)) if c.is_ascii_hexdigit() => make_flaw(FlawKind::Nul, text),
        Some(_) => make_flaw(FlawKind::NoHexDigit, text),
    }
}

/// Returns the first flaw after `\x` in a literal of the kind `kind`.
#[tactic(auto, unfolding(crate::specs::Mirrors::UnitFlawAt::hex_flaw_at))]
fn hex_flaw(kind: Kind, text: &str) -> FlawAt<'_>
    ensures { found_flaw result.kind (chars result.rest.now) ≡ hex_flaw_at kind (chars text.now) }
{
    let Some((first, rest)) = split_char(text) else {
        return make_flaw(FlawKind::Unclosed, text);
    };
    match first.to_digit(16) {
        Some(high) if kind.decodes_to_chars() && high > 7 => make_flaw(
            FlawKind::HexEscapeOutOfRange,
            text,
        ),
        Some(_) => low_digit_flaw(rest),
        None => make_flaw(FlawKind::NoHexDigit, text),
    }
}

/// Whether a literal of the kind `kind` can contain the character with the code point `code`.
fn is_code(kind: Kind, code: u32) -> bool
    ensures { result ≡ is_code kind code }
{
    char::from_u32(code).is_some() && allows_code(kind, code)
}

/// Returns the reason why a literal can't contain the character with the code point `code`.
fn code_flaw(code: u32) -> FlawKind
    ensures { result ≡ code_flaw_of code }
{
    if code > 0x10FFFF {
        FlawKind::UnicodeEscapeOutOfRange
    } else if code == 0 {
        FlawKind::Nul
    } else {
        FlawKind::Surrogate
    }
}

/// Returns the flaw of a `\u{..}` escape with the digits `digits`: a flaw of the code point that they represent, or the
/// first flaw after them.
fn digits_flaw(kind: Kind, text: &str, digits: CodeDigits) -> FlawAt<'_>
    requires last { IsCharBoundary text.now digits.last }
    requires end { IsCharBoundary text.now digits.end }
    ensures { found_flaw result.kind (chars result.rest.now)
        ≡ code_flaw_at kind (code_digits digits.value digits.count (chars (drop digits.last text.now))
        (chars (drop digits.end text.now))) }
{
    if digits.count == 6 && !is_code(kind, digits.value) {
        return make_flaw(code_flaw(digits.value), &text[digits.last..]);
    }
    let rest = &text[digits.end..];
    match split_char(rest) {
        None => make_flaw(FlawKind::Unclosed, rest),
        Some(('}', _)) => make_flaw(code_flaw(digits.value), rest),
        Some((next, _)) if next.is_ascii_hexdigit() => make_flaw(FlawKind::TooManyDigits, rest),
        Some(_) => make_flaw(FlawKind::NoHexDigit, rest),
    }
}

/// Returns the first flaw after `\u{`.
#[tactic(auto, unfolding(crate::specs::Mirrors::UnitFlawAt::first_digit_flaw_at))]
fn first_digit_flaw(kind: Kind, text: &str) -> FlawAt<'_>
    ensures { found_flaw result.kind (chars result.rest.now)
        ≡ first_digit_flaw_at kind (chars text.now) }
{
    if let Some(digits) = parse_code_digits(text, 0) {
        return digits_flaw(kind, text, digits);
    }
    match split_char(text) {
        None => make_flaw(FlawKind::Unclosed, text),
        Some(('}', _)) => make_flaw(FlawKind::EmptyBraces, text),
        Some(_) => make_flaw(FlawKind::NoHexDigit, text),
    }
}

/// Returns the first flaw after a backslash.
#[tactic(auto, unfolding(crate::specs::Mirrors::UnitFlawAt::escape_flaw_at, crate::specs::Mirrors::UnitFlawAt::unicode_flaw_at))]
pub(crate) fn escape_flaw(kind: Kind, text: &str) -> FlawAt<'_>
    ensures { found_flaw result.kind (chars result.rest.now)
        ≡ escape_flaw_at kind (chars text.now) }
{
    match split_char(text) {
        None => make_flaw(FlawKind::Unclosed, text),
        Some(('x', digits)) => hex_flaw(kind, digits),
        Some(('u', braces)) => {
            if !allows_unicode_escapes(kind) {
                return make_flaw(FlawKind::NoUnicode, text);
            }
            match split_char(braces) {
                None => make_flaw(FlawKind::Unclosed, braces),
                Some(('{', inside)) => first_digit_flaw(kind, inside),
                Some(_) => make_flaw(FlawKind::NoBrace, braces),
            }
        }
        Some(('0', _)) => make_flaw(FlawKind::Nul, text),
        Some(_) => make_flaw(FlawKind::UnknownEscape, text),
    }
}

/// Returns the reason why the character `c` isn't allowed unescaped.
pub(crate) fn character_flaw(c: char) -> FlawKind
    ensures { result ≡ character_flaw_of c }
{
    match c {
        '\0' => FlawKind::Nul,
        '\'' => FlawKind::NoCharacter,
        c if c.is_ascii() => FlawKind::MustEscape,
        _ => FlawKind::NotAscii,
    }
}
