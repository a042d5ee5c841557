//! Converts hexadecimal digits to lower or upper case.

ghost use Rattle.std.specs.Prelude.{◌≡◌, ◌≤◌, ◌+◌, ◌++◌, length, map, take, encode_utf8, encode_utf8_all};
ghost use Rattle.std.specs.Str.{chars};
ghost use Rattle.rl_style.specs.Cases.{cased};

use crate::style::Case;
use rl_syntax::slice_writer::put_char;
use rl_syntax::text::split_char;

/// Returns `c` in the given case if it is a hexadecimal digit, and `c` unchanged otherwise.
pub(crate) fn cased(case: Option<Case>, c: char) -> char
    ensures value { result ≡ cased case c }
    ensures len { length (encode_utf8 result) ≡ length (encode_utf8 c) }
{
    match case {
        Some(Case::Lower) => match c {
            'A'..='F' => (c as u8 + 32) as char,
            _ => c,
        },
        Some(Case::Upper) => match c {
            'a'..='f' => (c as u8 - 32) as char,
            _ => c,
        },
        None => c,
    }
}

/// Writes `text` to `out` from the index `at` on, with its hexadecimal digits in the given case. Returns the index after the
/// written bytes.
pub(crate) fn put_cased(out: &mut [u8], at: usize, case: Option<Case>, text: &str) -> usize
    requires { at + length text.now ≤ length out.old }
    ensures end { result ≡ at + length text.now }
    ensures bytes { take result out.new
        ≡ take at out.old ++ encode_utf8_all (map (cased case) (chars text.now)) }
    ensures len { length out.new ≡ length out.old }
{
    let mut end = at;
    let mut rest = text;
    while let Some((c, after)) = split_char(rest) {
        end = put_char(out, end, cased(case, c));
        rest = after;
    }
    end
}
