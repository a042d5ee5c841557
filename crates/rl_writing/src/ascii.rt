//! Functions that write string and character literals in ASCII, with `\u{..}` for each non-ASCII character.

ghost use Rattle.std.specs.Prelude.{◌≡◌, ◌+◌, ◌*◌, ◌∷◌, ◌++◌, ◌≤◌, [], IsTrue, length, take};
ghost use Rattle.std.specs.Str.{chars, IsUtf8};
ghost use Rattle.rl_syntax.specs.declared.kind.Kind.TheVariants.{Char, Str};
ghost use Rattle.rl_syntax.specs.Quoted.{decodes_to_chars};
ghost use Rattle.rl_writing.specs.AsciiStrings.{ascii_text, unicode_escape, IsAsciiForm};

use crate::numerals::{put_digits_reversed, put_grouped};
use rl_syntax::Kind;
use rl_syntax::slice_writer::{put, put_byte, put_text};
use rl_syntax::text::split_char;
use rl_syntax::written_unit::escape;

/// Writes the escape `\u{..}` of the character `c` after the first `at` bytes of the slice `out`, and returns the offset
/// after the escape. The character's code point is in base 16, in lower case.
pub fn put_unicode_escape(out: &mut [u8], at: usize, c: char) -> usize
    requires { at + length (unicode_escape c) ≤ length out.old }
    ensures end { result ≡ at + length (unicode_escape c) }
    ensures bytes { take result out.new ≡ take at out.old ++ unicode_escape c }
    ensures len { length out.new ≡ length out.old }
{
    let mut room = [0; 21];
    let count = put_digits_reversed(u128::from(c), 16, false, &mut room);
    let at = put(out, at, b"\\u{");
    let at = put_grouped(out, at, &room[..count], 0);
    put_byte(out, at, b'}')
}

/// Writes the character `c` in ASCII, as in a literal of the kind, after the first `at` bytes of the slice `out`.
/// Returns the offset after the written bytes.
fn put_ascii(out: &mut [u8], at: usize, kind: Kind, c: char) -> usize
    requires kind { IsTrue (decodes_to_chars kind) }
    requires room { at + length (ascii_text kind c) ≤ length out.old }
    ensures end { result ≡ at + length (ascii_text kind c) }
    ensures bytes { take result out.new ≡ take at out.old ++ ascii_text kind c }
    ensures len { length out.new ≡ length out.old }
{
    if c >= '\u{80}' {
        return put_unicode_escape(out, at, c);
    }
    match escape(kind, c, &mut [0; 4]) {
        Some(text) => put_text(out, at, text),
        None => put_byte(out, at, c as u8),
    }
}

/// Writes an ASCII string literal whose value is `value` to the start of `out`, and returns its length in bytes.
///
/// The literal is the one that `write_str_into` of `rl_syntax` writes, except that each non-ASCII character is written as
/// `\u{..}`. The literal is at most four bytes long for each byte of `value`, plus two. `out` must have room for this length.
pub fn write_str_ascii_into(value: &str, out: &mut [u8]) -> usize
    requires { 4 * length value.now + 2 ≤ length out.old }
    ensures written { IsAsciiForm Str (chars value.now) (chars (take result out.new)) }
    ensures utf8 { IsUtf8 (take result out.new) }
    ensures within { result ≤ 4 * length value.now + 2 }
{
    let mut at = put_text(out, 0, Kind::Str.opener());
    let mut rest = value;
    while let Some((c, after)) = split_char(rest) {
        at = put_ascii(out, at, Kind::Str, c);
        rest = after;
    }
    put_byte(out, at, b'"')
}

/// Writes an ASCII character literal whose value is `value` to the start of `out`, and returns its length in bytes, at
/// most twelve. `out` must have room for twelve.
pub fn write_char_ascii_into(value: char, out: &mut [u8]) -> usize
    requires { 12 ≤ length out.old }
    ensures written { IsAsciiForm Char (value ∷ []) (chars (take result out.new)) }
    ensures utf8 { IsUtf8 (take result out.new) }
    ensures within { result ≤ 12 }
{
    let at = put_text(out, 0, Kind::Char.opener());
    let at = put_ascii(out, at, Kind::Char, value);
    put_byte(out, at, b'\'')
}
