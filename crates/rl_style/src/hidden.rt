//! Writes invisible and bidirectional characters as numeric escapes.

ghost use Rattle.std.specs.Prelude.{◌≡◌, ◌<◌, ◌≤◌, ◌+◌, ◌*◌, ◌/◌, ◌%◌, ◌++◌, ◌∷◌, [], ◌&&◌, length, take, encode_utf8, encode_utf8_all};
ghost use Rattle.std.specs.List.{list_any};
ghost use Rattle.std.specs.Str.{chars};
ghost use Rattle.rl_syntax.specs.Texts.{code};
ghost use Rattle.rl_style.specs.Mirrors.{code_text, digits_text, hidden_text, itself_text};
ghost use Rattle.rl_style.specs.Rewriting.{needs_number as wants_number, lower_digit};

use crate::codes::put_digits;
use crate::style::Style;
use rl_syntax::slice_writer::{put_byte, put_char, put_text};
use rl_syntax::text::split_char;
use rl_writing::{is_control_invisible_or_bidi, put_unicode_escape};

/// Whether the character must be written as a numeric escape: it is invisible, bidirectional or a control character other than
/// LF, CR and TAB.
fn needs_number(c: char) -> bool
    ensures { result ≡ wants_number c }
{
    is_control_invisible_or_bidi(c) && !matches!(c, '\n' | '\r' | '\t')
}

/// Whether the text contains a character that must be written as a numeric escape: an invisible or bidirectional one, or a
/// control character other than LF, CR and TAB.
pub(crate) fn holds_hidden(text: &str) -> bool
    ensures { result ≡ list_any wants_number (chars text.now) }
{
    let mut rest = text;
    while let Some((c, after)) = split_char(rest) {
        if needs_number(c) {
            return true;
        }
        rest = after;
    }
    false
}

/// Returns the hexadecimal digit for a number below 16, in lower case.
fn lower_digit(digit: u32) -> u8
    requires { digit < 16 }
    ensures value { result ≡ lower_digit digit }
    ensures ascii { result < 128 }
{
    let digit = digit as u8;
    if digit < 10 {
        b'0' + digit
    } else {
        b'a' + (digit - 10)
    }
}

/// Writes an ASCII character as `\x` and two lower-case digits.
fn put_two(out: &mut [u8], at: usize, c: char) -> usize
    requires room { at + 4 ≤ length out.old }
    requires ascii { c < 128 }
    ensures end { result ≡ at + 4 }
    ensures bytes { take result out.new
        ≡ take at out.old ++ code "\\" ∷ code "x" ∷ lower_digit (c / 16) ∷ lower_digit (c % 16) ∷ [] }
    ensures len { length out.new ≡ length out.old }
{
    let number = c as u32;
    let end = put_byte(out, at, b'\\');
    let end = put_byte(out, end, b'x');
    let end = put_byte(out, end, lower_digit(number / 16));
    put_byte(out, end, lower_digit(number % 16))
}

/// Writes the numeric escape of a character: `\x` for ASCII, and otherwise `\u{..}` with the fewest digits. The digits are in
/// lower case.
fn put_code(out: &mut [u8], at: usize, c: char) -> usize
    requires { at + length (code_text c) ≤ length out.old }
    ensures end { result ≡ at + length (code_text c) }
    ensures bytes { take result out.new ≡ take at out.old ++ code_text c }
    ensures len { length out.new ≡ length out.old }
{
    if c < '\u{80}' {
        return put_two(out, at, c);
    }
    put_unicode_escape(out, at, c)
}

/// Writes the numeric escape of a character, with its digits as the style requires.
fn put_styled_code(out: &mut [u8], at: usize, style: Style, c: char) -> usize
    requires { at + 4 * length (encode_utf8 c) ≤ length out.old }
    ensures end { result ≤ at + 4 * length (encode_utf8 c) }
    ensures bytes { take result out.new ≡ take at out.old ++ encode_utf8_all (digits_text style (code_text c)) }
    ensures len { length out.new ≡ length out.old }
{
    let mut room = [0; 10];
    let end = put_code(&mut room, 0, c);
    match std::str::from_utf8(&room[..end]) {
        Ok(escape) => put_digits(out, at, style, escape),
        Err(_) => unreachable!(),
    }
}

/// Writes the escape of an invisible or bidirectional character. NUL may be written as `\0` if `zero` is true.
fn put_hidden(out: &mut [u8], at: usize, style: Style, zero: bool, c: char) -> usize
    requires { at + 4 * length (encode_utf8 c) ≤ length out.old }
    ensures end { result ≤ at + 4 * length (encode_utf8 c) }
    ensures bytes { take result out.new ≡ take at out.old ++ encode_utf8_all (hidden_text style zero c) }
    ensures len { length out.new ≡ length out.old }
{
    if style.named_escapes && zero && c == '\0' {
        return put_text(out, at, "\\0");
    }
    put_styled_code(out, at, style, c)
}

/// Writes the new form of an unescaped character: at most four bytes for each byte of the character. NUL may be written as
/// `\0` if `zero` is true.
pub(crate) fn put_itself(out: &mut [u8], at: usize, style: Style, zero: bool, c: char) -> usize
    requires { at + 4 * length (encode_utf8 c) ≤ length out.old }
    ensures end { result ≤ at + 4 * length (encode_utf8 c) }
    ensures bytes { take result out.new ≡ take at out.old ++ encode_utf8_all (itself_text style zero c) }
    ensures len { length out.new ≡ length out.old }
{
    if style.hidden && needs_number(c) {
        return put_hidden(out, at, style, zero, c);
    }
    put_char(out, at, c)
}
