//! Rewrites quoted literals with escapes, one character or escape at a time.

ghost use Rattle.std.specs.Prelude.{◌≡◌, ◌<◌, ◌≤◌, ◌+◌, ◌*◌, ◌++◌, ◌∷◌, [], ◌||◌, ◌&&◌, ◌==◌, not, true, nat_lt, if◌then◌else◌, List, length, take, encode_utf8_all, IsFalse};
ghost use Rattle.std.specs.Str.{chars, IsUtf8};
ghost use Rattle.rl_syntax.specs.Texts.{code, first_passes};
ghost use Rattle.rl_syntax.specs.Strict.{StrictUnit};
ghost use Rattle.rl_syntax.specs.Written.{closer};
ghost use Rattle.rl_lenient.specs.Mirrors.UnitAt.{piece_value, unit_at};
ghost use Rattle.rl_style.specs.Mirrors.{AreUnits, CookedParts, ascii_in, lettered, number_text, restyled_text, represents_digit, visible_text};
ghost use Rattle.rl_style.specs.Rewriting.{RewritesCooked, gets_letter, grown, is_visible, letter_of, restyled_inside};

use crate::codes::put_digits;
use crate::hidden::put_itself;
use crate::style::Style;
use rl_lenient::units::{Piece, parse_char_or_escape};
use rl_syntax::Kind;
use rl_syntax::slice_writer::{put_byte, put_char, put_text};
use rl_syntax::text::{before, split_char, strip_byte};

/// Whether the character is a single or a double quote.
fn is_quote(c: char) -> bool
    ensures { result ≡ (c == code "'" || c == code "\"") }
{
    matches!(c, '\'' | '"')
}

/// Whether the character begins a numeric escape: `x` or `u`.
fn begins_number(c: char) -> bool
    ensures { result ≡ (c == code "x" || c == code "u") }
{
    matches!(c, 'x' | 'u')
}

/// Whether the style drops the backslash before the quote `quote` in a literal of the kind `kind`.
fn loses_backslash(style: Style, kind: Kind, quote: char) -> bool
    ensures { result ≡ (style.quote_escapes && not (quote == closer kind)) }
{
    style.quote_escapes && quote != kind.quote()
}

/// Returns the number as a byte if it is below 128, and 128 otherwise.
fn ascii_or(code: u32) -> u8
    ensures value { result ≡ (if nat_lt code 128 then code else 128) }
    ensures small { result ≤ 128 }
{
    if code < 128 { code as u8 } else { 128 }
}

/// Returns the value of a character or escape if it is ASCII, and 128 otherwise.
fn ascii_of(kind: Kind, piece: Piece) -> u8
    ensures value { result ≡ ascii_in (piece_value kind piece) }
    ensures small { result ≤ 128 }
{
    match piece {
        Piece::Character(c) => ascii_or(c as u32),
        Piece::Byte(byte) => ascii_or(byte as u32),
        Piece::Nothing => 128,
    }
}

/// Returns `byte`, but 128 for a NUL if `zero` is false: this NUL may not be written as `\0`.
fn lettered(zero: bool, byte: u8) -> u8
    requires { byte ≤ 128 }
    ensures value { result ≡ lettered zero byte }
    ensures small { result ≤ 128 }
{
    if zero || byte != 0 { byte } else { 128 }
}

/// Whether the character or escape at the beginning of the text represents a decimal digit.
fn represents_digit(kind: Kind, text: &str) -> bool
    ensures { result ≡ represents_digit (unit_at kind (chars text.now)) }
{
    match parse_char_or_escape(kind, text) {
        Some((piece, _)) => ascii_of(kind, piece).is_ascii_digit(),
        None => false,
    }
}

/// Whether the style replaces a numeric escape of the character `byte` by the character itself.
fn is_visible(style: Style, byte: u8) -> bool
    ensures { result ≡ (style.ascii_escapes && is_visible byte) }
{
    style.ascii_escapes && matches!(byte, b'!'..=b'~')
}

/// Whether the style replaces a numeric escape of the character `byte` by an escape with a letter: `\n`, `\r`, `\t` or `\0`.
fn has_letter(style: Style, byte: u8) -> bool
    ensures { result ≡ (style.named_escapes && gets_letter true byte) }
{
    style.named_escapes && matches!(byte, b'\n' | b'\r' | b'\t' | 0)
}

/// Returns the letter of the escape for LF, CR, TAB or NUL: `n`, `r`, `t` or `0`.
fn letter_of(byte: u8) -> u8
    ensures value { result ≡ letter_of byte }
    ensures ascii { result < 128 }
{
    match byte {
        b'\n' => b'n',
        b'\r' => b'r',
        b'\t' => b't',
        _ => b'0',
    }
}

/// Writes a backslash and the character `byte`. Returns the index after the written bytes.
pub(crate) fn put_pair(out: &mut [u8], at: usize, byte: u8) -> usize
    requires room { at + 2 ≤ length out.old }
    requires ascii { byte < 128 }
    ensures end { result ≡ at + 2 }
    ensures bytes { take result out.new ≡ take at out.old ++ encode_utf8_all (code "\\" ∷ byte ∷ []) }
    ensures len { length out.new ≡ length out.old }
{
    let end = put_byte(out, at, b'\\');
    put_byte(out, end, byte)
}

/// Writes a visible ASCII character into a literal of the kind `kind`. The literal's closing quote and a backslash get a
/// backslash before them.
fn put_visible(out: &mut [u8], at: usize, kind: Kind, byte: u8) -> usize
    requires room { at + 2 ≤ length out.old }
    requires ascii { byte < 128 }
    ensures end { result ≤ at + 2 }
    ensures bytes { take result out.new ≡ take at out.old ++ encode_utf8_all (visible_text kind byte) }
    ensures len { length out.new ≡ length out.old }
{
    if byte as char == kind.quote() || byte == b'\\' {
        return put_pair(out, at, byte);
    }
    put_byte(out, at, byte)
}

/// Writes the new form of a numeric escape. `byte` is the escape's value if it is ASCII, and 128 otherwise. `byte` is also
/// 128 for a NUL that may not be written as `\0`.
fn put_number(out: &mut [u8], at: usize, kind: Kind, style: Style, unit: &str, byte: u8) -> usize
    requires room { at + length unit.now ≤ length out.old }
    requires two { 2 ≤ length unit.now }
    requires small { byte ≤ 128 }
    ensures end { result ≤ at + length unit.now }
    ensures bytes { take result out.new
        ≡ take at out.old ++ encode_utf8_all (number_text style kind byte (chars unit.now)) }
    ensures len { length out.new ≡ length out.old }
{
    if is_visible(style, byte) {
        return put_visible(out, at, kind, byte);
    }
    if has_letter(style, byte) {
        return put_pair(out, at, letter_of(byte));
    }
    put_digits(out, at, style, unit)
}

/// Writes the new form of an escape. `unit` is the text of the escape, `escape` this text without the backslash, and `byte` the
/// escape's value if it is ASCII, or 128.
fn put_escape(
    out: &mut [u8],
    at: usize,
    kind: Kind,
    style: Style,
    unit: &str,
    escape: &str,
    byte: u8,
) -> usize
    requires text { chars unit.now ≡ code "\\" ∷ chars escape.now }
    requires room { at + length unit.now ≤ length out.old }
    requires shorter { length escape.now < length unit.now }
    requires small { byte ≤ 128 }
    ensures end { result ≤ at + length unit.now }
    ensures bytes { take result out.new
        ≡ take at out.old ++ encode_utf8_all (restyled_text style kind byte (chars unit.now)) }
    ensures len { length out.new ≡ length out.old }
{
    let Some((first, _)) = split_char(escape) else {
        return put_text(out, at, unit);
    };
    if is_quote(first) {
        if loses_backslash(style, kind, first) {
            return put_text(out, at, escape);
        }
        return put_text(out, at, unit);
    }
    if begins_number(first) {
        return put_number(out, at, kind, style, unit, byte);
    }
    put_text(out, at, unit)
}

/// Writes the new form of an unescaped character, or of a CR LF that is one character.
fn put_plain(out: &mut [u8], at: usize, kind: Kind, style: Style, unit: &str, byte: u8) -> usize
    requires room { at + 4 * length unit.now ≤ length out.old }
    requires plain { IsFalse (first_passes (λ c. c == code "\\") (chars unit.now)) }
    ensures end { result ≤ at + 4 * length unit.now }
    ensures bytes { take result out.new
        ≡ take at out.old ++ encode_utf8_all (restyled_text style kind byte (chars unit.now)) }
    ensures len { length out.new ≡ length out.old }
{
    match split_char(unit) {
        Some((c, rest)) => {
            let end = put_itself(out, at, style, byte == 0, c);
            put_text(out, end, rest)
        }
        None => at,
    }
}

/// Writes the new form of an unescaped character, or of a CR LF that is one character. Only a style that escapes invisible characters
/// changes it.
fn put_unescaped(out: &mut [u8], at: usize, kind: Kind, style: Style, unit: &str, byte: u8) -> usize
    requires room { at + grown style (length unit.now) ≤ length out.old }
    requires plain { IsFalse (first_passes (λ c. c == code "\\") (chars unit.now)) }
    ensures end { result ≤ at + grown style (length unit.now) }
    ensures bytes { take result out.new
        ≡ take at out.old ++ encode_utf8_all (restyled_text style kind byte (chars unit.now)) }
    ensures len { length out.new ≡ length out.old }
{
    if !style.hidden {
        return put_text(out, at, unit);
    }
    put_plain(out, at, kind, style, unit, byte)
}

/// Writes the new form of one character or escape: at most four bytes for each byte of its text, and at most its length if the
/// style doesn't escape invisible characters.
///
/// `byte` is the value if it is ASCII, and 128 otherwise. `byte` is also 128 for a NUL that may not be written as `\0`.
fn put_unit(out: &mut [u8], at: usize, kind: Kind, style: Style, unit: &str, byte: u8) -> usize
    requires room { at + grown style (length unit.now) ≤ length out.old }
    requires small { byte ≤ 128 }
    ensures end { result ≤ at + grown style (length unit.now) }
    ensures bytes { take result out.new
        ≡ take at out.old ++ encode_utf8_all (restyled_text style kind byte (chars unit.now)) }
    ensures len { length out.new ≡ length out.old }
{
    match strip_byte(unit, b'\\') {
        Some(escape) => put_escape(out, at, kind, style, unit, escape, byte),
        None => put_unescaped(out, at, kind, style, unit, byte),
    }
}

/// Writes the new form of each character and escape of a literal's body.
fn put_units(out: &mut [u8], at: usize, kind: Kind, style: Style, inside: &str) -> usize
    requires { at + grown style (length inside.now) ≤ length out.old }
    ensures end { result ≤ at + grown style (length inside.now) }
    ensures bytes { (us : List StrictUnit) → AreUnits kind us (chars inside.now) → take result out.new
        ≡ take at out.old ++ encode_utf8_all (restyled_inside style kind us) }
    ensures len { length out.new ≡ length out.old }
{
    let mut end = at;
    let mut rest = inside;
    while let Some((piece, after)) = parse_char_or_escape(kind, rest) {
        let byte = lettered(!represents_digit(kind, after), ascii_of(kind, piece));
        end = put_unit(out, end, kind, style, before(rest, after), byte);
        rest = after;
    }
    end
}

/// Writes the new form of a quoted literal with escapes, whose body is `inside`.
pub(crate) fn write_cooked(
    text: &str,
    kind: Kind,
    style: Style,
    inside: &str,
    suffix: &str,
    out: &mut [u8],
) -> usize
    requires parts { CookedParts kind (chars text.now) (chars inside.now) (chars suffix.now) }
    requires room { grown style (length text.now) ≤ length out.old }
    ensures written { RewritesCooked style (chars text.now) (chars (take result out.new)) }
    ensures utf8 { IsUtf8 (take result out.new) }
    ensures within { result ≤ grown style (length text.now) }
{
    let at = put_text(out, 0, kind.opener());
    let at = put_units(out, at, kind, style, inside);
    let at = put_char(out, at, kind.quote());
    put_text(out, at, suffix)
}
