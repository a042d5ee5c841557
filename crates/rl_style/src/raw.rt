//! Rewrites raw strings by a style.

ghost use Rattle.std.specs.Prelude.{◌≡◌, ◌≤◌, ◌+◌, ◌*◌, ◌++◌, ◌||◌, ◌==◌, not, length, take, encode_utf8, encode_utf8_all, IsFalse, IsTrue};
ghost use Rattle.std.specs.List.{list_all};
ghost use Rattle.std.specs.Str.{chars, IsUtf8};
ghost use Rattle.rl_syntax.specs.Texts.{code};
ghost use Rattle.rl_style.specs.Around.{may_precede_quote};
ghost use Rattle.rl_style.specs.Mirrors.{RawParts, raw_character, raw_inside};
ghost use Rattle.rl_style.specs.Rewriting.{RewritesRaw, grown, loses_raw, may_lose_r, needs_backslash, unraw_text};

use crate::cooked::put_pair;
use crate::hidden::{holds_hidden, put_itself};
use crate::style::Style;
use rl_lenient::digit_runs::begins_digit;
use rl_syntax::Kind;
use rl_syntax::slice_writer::{put_byte, put_text};
use rl_syntax::text::split_char;
use rl_writing::{min_raw_hashes, write_raw_into};

/// Whether the byte is a hash or a dot.
fn is_hash_or_dot(byte: u8) -> bool
    ensures { result ≡ (byte == code "#" || byte == code ".") }
{
    matches!(byte, b'#' | b'.')
}

/// Whether the text doesn't end with a hash or a dot, so that a string without a prefix may follow it.
fn may_precede_quote(front: &str) -> bool
    ensures { result ≡ may_precede_quote (chars front.now) }
{
    match front.as_bytes() {
        [.., last] => !is_hash_or_dot(*last),
        [] => true,
    }
}

/// Whether a raw string of the kind may lose its `r`, where `front` is the text before it. After a hash or a dot, a raw string
/// without `b` or `c` keeps its `r`.
fn may_lose_r(kind: Kind, front: &str) -> bool
    ensures { result ≡ may_lose_r kind (chars front.now) }
{
    match kind {
        Kind::Str => may_precede_quote(front),
        _ => true,
    }
}

/// Whether the character must be escaped in a string with escapes: a double quote or a backslash.
fn needs_backslash(c: char) -> bool
    ensures { result ≡ needs_backslash c }
{
    matches!(c, '"' | '\\')
}

/// Whether the text contains neither a double quote nor a backslash.
fn is_bare(text: &str) -> bool
    ensures { result ≡ list_all (λ c. not (needs_backslash c)) (chars text.now) }
{
    let mut rest = text;
    while let Some((c, after)) = split_char(rest) {
        if needs_backslash(c) {
            return false;
        }
        rest = after;
    }
    true
}

/// Whether the style replaces a raw string by a string with escapes. `front` is the text before the raw string, and `inside`
/// its content.
fn loses_raw(style: Style, kind: Kind, front: &str, inside: &str) -> bool
    ensures { result ≡ loses_raw style kind (chars front.now) (chars inside.now) }
{
    may_lose_r(kind, front)
        && (style.raw && is_bare(inside) || style.hidden && holds_hidden(inside))
}

/// Writes a character of a raw string into a string with escapes. NUL may be written as `\0` if `zero` is true.
fn put_raw_character(out: &mut [u8], at: usize, style: Style, zero: bool, c: char) -> usize
    requires { at + 4 * length (encode_utf8 c) ≤ length out.old }
    ensures end { result ≤ at + 4 * length (encode_utf8 c) }
    ensures bytes { take result out.new ≡ take at out.old ++ encode_utf8_all (raw_character style zero c) }
    ensures len { length out.new ≡ length out.old }
{
    if needs_backslash(c) {
        return put_pair(out, at, c as u8);
    }
    put_itself(out, at, style, zero, c)
}

/// Writes the content of a raw string as the body of a string with escapes.
fn put_raw_inside(out: &mut [u8], at: usize, style: Style, inside: &str) -> usize
    requires { at + 4 * length inside.now ≤ length out.old }
    ensures end { result ≤ at + 4 * length inside.now }
    ensures bytes { take result out.new
        ≡ take at out.old ++ encode_utf8_all (raw_inside style (chars inside.now)) }
    ensures len { length out.new ≡ length out.old }
{
    let mut end = at;
    let mut rest = inside;
    while let Some((c, after)) = split_char(rest) {
        end = put_raw_character(out, end, style, !begins_digit(after), c);
        rest = after;
    }
    end
}

/// Writes the content of a raw string as the body of a string with escapes. Only a style that escapes invisible characters changes
/// it.
fn put_inside(out: &mut [u8], at: usize, style: Style, inside: &str) -> usize
    requires room { at + grown style (length inside.now) ≤ length out.old }
    requires bare { IsFalse style.hidden → IsTrue (list_all (λ c. not (needs_backslash c)) (chars inside.now)) }
    ensures end { result ≤ at + grown style (length inside.now) }
    ensures bytes { take result out.new
        ≡ take at out.old ++ encode_utf8_all (raw_inside style (chars inside.now)) }
    ensures len { length out.new ≡ length out.old }
{
    if !style.hidden {
        return put_text(out, at, inside);
    }
    put_raw_inside(out, at, style, inside)
}

/// Writes a raw string as a string with escapes. `inside` is its content.
fn write_unraw(
    text: &str,
    kind: Kind,
    style: Style,
    inside: &str,
    suffix: &str,
    out: &mut [u8],
) -> usize
    requires parts { RawParts kind (chars text.now) (chars inside.now) (chars suffix.now) }
    requires room { grown style (length text.now) ≤ length out.old }
    requires bare { IsFalse style.hidden → IsTrue (list_all (λ c. not (needs_backslash c)) (chars inside.now)) }
    ensures written { chars (take result out.new) ≡ unraw_text style kind (chars inside.now) (chars suffix.now) }
    ensures utf8 { IsUtf8 (take result out.new) }
    ensures within { result ≤ grown style (length text.now) }
{
    let at = put_text(out, 0, kind.opener());
    let at = put_inside(out, at, style, inside);
    let at = put_byte(out, at, b'"');
    put_text(out, at, suffix)
}

/// Writes the new form of a raw string. `front` is the text before it, and `inside` its content.
pub(crate) fn write_raw(
    front: &str,
    text: &str,
    kind: Kind,
    style: Style,
    inside: &str,
    suffix: &str,
    out: &mut [u8],
) -> usize
    requires parts { RawParts kind (chars text.now) (chars inside.now) (chars suffix.now) }
    requires room { grown style (length text.now) + 1 ≤ length out.old }
    ensures written { RewritesRaw style (chars front.now) (chars text.now) (chars (take result out.new)) }
    ensures utf8 { IsUtf8 (take result out.new) }
    ensures within { result ≤ grown style (length text.now) + 1 }
{
    if loses_raw(style, kind, front, inside) {
        return write_unraw(text, kind, style, inside, suffix, out);
    }
    if !style.raw_hashes {
        return put_text(out, 0, text);
    }
    let Some(hashes) = min_raw_hashes(kind, inside) else {
        unreachable!()
    };
    let at = write_raw_into(kind, hashes, inside, out);
    put_text(out, at, suffix)
}
