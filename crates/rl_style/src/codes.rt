//! Rewrites the digits of numeric escapes: `\x` and `\u{..}`.

ghost use Rattle.std.specs.Prelude.{◌≡◌, ◌≤◌, ◌+◌, ◌++◌, ◌==◌, length, map, take, encode_utf8_all};
ghost use Rattle.std.specs.Str.{chars};
ghost use Rattle.rl_syntax.specs.Texts.{code, first_passes};
ghost use Rattle.rl_syntax.specs.Spelling.{without_underscores};
ghost use Rattle.rl_style.specs.Cases.{cased};
ghost use Rattle.rl_style.specs.Mirrors.{digits_text, fewest_text};

use crate::case::{cased, put_cased};
use crate::numbers::skip_padding;
use crate::style::{Case, Style};
use rl_syntax::slice_writer::{put_byte, put_char, put_text};
use rl_syntax::text::{after_prefix, split_char};

/// Writes the text without underscores, with its hexadecimal digits in the given case. Returns the index after the written
/// bytes.
fn put_bare(out: &mut [u8], at: usize, case: Option<Case>, text: &str) -> usize
    requires { at + length text.now ≤ length out.old }
    ensures end { result ≤ at + length text.now }
    ensures bytes { take result out.new
        ≡ take at out.old ++ encode_utf8_all (map (cased case) (without_underscores (chars text.now))) }
    ensures len { length out.new ≡ length out.old }
{
    let mut end = at;
    let mut rest = text;
    while let Some((c, after)) = split_char(rest) {
        if c != '_' {
            end = put_char(out, end, cased(case, c));
        }
        rest = after;
    }
    end
}

/// Whether the text begins with `}`.
fn begins_close(text: &str) -> bool
    ensures { result ≡ first_passes (λ c. c == code "}") (chars text.now) }
{
    matches!(split_char(text), Some(('}', _)))
}

/// Writes the digits of a `\u{..}` escape without leading zeros and underscores, and its closing brace. `inside` is the text
/// after `\u{`.
fn put_code(out: &mut [u8], at: usize, case: Option<Case>, inside: &str) -> usize
    requires { at + length inside.now ≤ length out.old }
    ensures end { result ≤ at + length inside.now }
    ensures bytes { take result out.new
        ≡ take at out.old ++ encode_utf8_all (map (cased case) (fewest_text (chars inside.now))) }
    ensures len { length out.new ≡ length out.old }
{
    let Some(('0' | '_', after)) = split_char(inside) else {
        return put_bare(out, at, case, inside);
    };
    let rest = skip_padding(after);
    if begins_close(rest) {
        let end = put_byte(out, at, b'0');
        return put_bare(out, end, case, rest);
    }
    put_bare(out, at, case, rest)
}

/// Writes a numeric escape (`\x` or `\u{..}`) with its digits as the style requires.
pub(crate) fn put_digits(out: &mut [u8], at: usize, style: Style, unit: &str) -> usize
    requires { at + length unit.now ≤ length out.old }
    ensures end { result ≤ at + length unit.now }
    ensures bytes { take result out.new ≡ take at out.old ++ encode_utf8_all (digits_text style (chars unit.now)) }
    ensures len { length out.new ≡ length out.old }
{
    if !style.code_digits {
        return put_cased(out, at, style.escape_digits, unit);
    }
    match after_prefix("\\u{", unit) {
        Some(inside) => {
            let end = put_text(out, at, "\\u{");
            put_code(out, end, style.escape_digits, inside)
        }
        None => put_cased(out, at, style.escape_digits, unit),
    }
}
