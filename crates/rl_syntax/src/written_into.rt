//! Functions that write values as literals into a slice of the caller's. The literals have the written forms of
//! docs/GRAMMAR.md, as those of the module `writer` of `rl_tokens` do. Nothing is allocated.

ghost use Rattle.std.specs.Prelude.{◌≡◌, ◌⊎◌, ◌≤◌, ◌<◌, ◌+◌, ◌*◌, ◌++◌, [], ◌∷◌, IsTrue, length, take, encode_utf8_all};
ghost use Rattle.std.specs.Str.{chars, IsUtf8};
ghost use Rattle.rl_syntax.specs.Quoted.{decodes_to_chars, unit_text};
ghost use Rattle.rl_syntax.specs.Written.{written_unit, IsWrittenForm};
ghost use Rattle.rl_syntax.specs.Agreeing.{AreBytesOf};

use crate::kind::Kind;
use crate::slice_writer::{put_char, put_text};
use crate::text::split_char;
use crate::written_unit::escape;

/// Writes the character or byte `c` as in a literal of the kind, after the first `at` bytes of the slice `out`. Returns
/// the offset after the written bytes.
fn put_written(out: &mut [u8], at: usize, kind: Kind, c: char) -> usize
    requires kind { IsTrue (decodes_to_chars kind) ⊎ (c < 256) }
    requires room { at + 4 ≤ length out.old }
    ensures end { result ≤ at + 4 }
    ensures bytes { take result out.new
        ≡ take at out.old ++ encode_utf8_all (unit_text (written_unit kind c)) }
    ensures utf8 { IsUtf8 (take at out.old) → IsUtf8 (take result out.new) }
    ensures len { length out.new ≡ length out.old }
{
    match escape(kind, c, &mut [0; 4]) {
        Some(text) => put_text(out, at, text),
        None => put_char(out, at, c),
    }
}

/// Writes the string literal whose value is `value` to the start of `out`, and returns its number of bytes.
///
/// The escapes are those of the table of docs/GRAMMAR.md. The literal is at most four bytes long for each byte of
/// `value`, plus three. `out` must have room for this length.
pub fn write_str_into(value: &str, out: &mut [u8]) -> usize
    requires { 4 * length value.now + 3 ≤ length out.old }
    ensures written { IsWrittenForm Kind.Str (chars value.now) (chars (take result out.new)) }
    ensures utf8 { IsUtf8 (take result out.new) }
    ensures within { result ≤ 4 * length value.now + 3 }
{
    let mut at = put_text(out, 0, Kind::Str.opener());
    let mut rest = value;
    while let Some((c, after)) = split_char(rest) {
        at = put_written(out, at, Kind::Str, c);
        rest = after;
    }
    put_char(out, at, Kind::Str.quote())
}

/// Writes the literal of the kind whose value is the bytes `value` to the start of `out`, and returns its number of
/// bytes.
///
/// The kind is `ByteStr`; `CStr`, if no byte is 0; or `Byte`, if `value` is one byte. The escapes are those of the
/// table of docs/GRAMMAR.md. The literal is at most four bytes long for each byte of `value`, plus three. `out` must
/// have room for this length.
pub fn write_bytes_into(kind: Kind, value: &[u8], out: &mut [u8]) -> usize
    requires bytes { AreBytesOf kind value.now }
    requires room { 4 * length value.now + 3 ≤ length out.old }
    ensures written { IsWrittenForm kind value.now (chars (take result out.new)) }
    ensures utf8 { IsUtf8 (take result out.new) }
    ensures within { result ≤ 4 * length value.now + 3 }
{
    let mut at = put_text(out, 0, kind.opener());
    for byte in value {
        at = put_written(out, at, kind, char::from(*byte));
    }
    put_char(out, at, kind.quote())
}

/// Writes the character literal whose value is `value` to the start of `out`, and returns its number of bytes, at most
/// seven. `out` must have room for seven. The escapes are those of the table of docs/GRAMMAR.md.
pub fn write_char_into(value: char, out: &mut [u8]) -> usize
    requires { 7 ≤ length out.old }
    ensures written { IsWrittenForm Kind.Char (value ∷ []) (chars (take result out.new)) }
    ensures utf8 { IsUtf8 (take result out.new) }
    ensures within { result ≤ 7 }
{
    let at = put_text(out, 0, Kind::Char.opener());
    let at = put_written(out, at, Kind::Char, value);
    put_char(out, at, Kind::Char.quote())
}
