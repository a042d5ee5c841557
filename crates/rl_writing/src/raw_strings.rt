//! Functions that write raw string literals, as `r#"a"#`, with the fewest hashes.

ghost use Rattle.std.specs.Prelude.{◌≡◌, ◌+◌, ◌*◌, ◌++◌, ◌≤◌, ℕ, List, IfNone, IfSome, IsFalse, IsTrue, encode_utf8_all, length, replicate, take};
ghost use Rattle.std.specs.Str.{all_scalars, chars, IsUtf8};
ghost use Rattle.rl_syntax.specs.Texts.{code};
ghost use Rattle.rl_syntax.specs.Quoted.{decodes_to_chars, is_string, raw_opener};
ghost use Rattle.rl_syntax.specs.Reading.{Bytes};
ghost use Rattle.rl_writing.specs.Mirrors.RawSteps.{hashes_opened, raw_may_contain};
ghost use Rattle.rl_writing.specs.RawStrings.{raw_contents, raw_text, HasFewestHashes, HasNoRaw};

use rl_syntax::Kind;
use rl_syntax::slice_writer::{put_byte, put_text};
use rl_syntax::text::split_char;

/// Whether a raw string of the kind may contain the character `c`.
fn raw_may_contain(kind: Kind, c: char) -> bool
    ensures { result ≡ raw_may_contain kind c }
{
    match kind {
        Kind::ByteStr => c != '\r' && c < '\u{80}',
        Kind::CStr => c != '\r' && c != '\0',
        _ => c != '\r',
    }
}

/// Returns the number of hashes that a raw string needs so that it doesn't end after the character `c`. After a quote, the
/// number is 1. After a hash that directly follows a quote or its hashes, the number is one more than before the hash.
/// Otherwise the number is 0. `opened` is the number for the character before `c`.
fn hashes_opened(opened: usize, c: char) -> usize
    requires { opened + 1 ≤ usize.MAX }
    ensures { result ≡ hashes_opened opened c }
{
    match c {
        '"' => 1,
        '#' if opened > 0 => opened + 1,
        _ => 0,
    }
}

/// Returns the fewest hashes with which a raw string of the kind can contain `text`: 0 if the text contains no quote,
/// and otherwise one more than the longest sequence of hashes after a quote.
///
/// Returns `None` if no raw string of the kind can contain the text: if it contains a CR, in a byte string a non-ASCII
/// character, in a C string a NUL, or if it needs more than 255 hashes (the Rust Reference, sections Raw string
/// literals, Raw byte string literals, Raw C string literals).
pub fn min_raw_hashes(kind: Kind, text: &str) -> Option<usize>
    requires { IsTrue (is_string kind) }
    ensures some { IfSome result (HasFewestHashes kind (chars text.now)) }
    ensures none { IfNone result (HasNoRaw kind (chars text.now)) }
{
    let mut needed: usize = 0;
    let mut opened = 0;
    let mut rest = text;
    while let Some((c, after)) = split_char(rest) {
        if !raw_may_contain(kind, c) {
            return None;
        }
        opened = hashes_opened(opened, c);
        needed = needed.max(opened);
        rest = after;
    }
    if needed < 256 { Some(needed) } else { None }
}

/// Returns the text between the quotes of the raw byte string or raw C string whose value is the bytes `value`, and the fewest
/// hashes for it, as [`min_raw_hashes`] returns them.
///
/// Returns `None` if no raw string has this value. Either the bytes aren't UTF-8, and can't be in a literal, or
/// `min_raw_hashes` returns `None` for them.
pub fn raw_text_and_hashes(kind: Kind, value: &[u8]) -> Option<(&str, usize)>
    requires string { IsTrue (is_string kind) }
    requires bytes { IsFalse (decodes_to_chars kind) }
    ensures text { IfSome result (λ form. form.0.now ≡ value.now) }
    ensures some { IfSome result (λ form. HasFewestHashes kind (chars form.0.now) form.1) }
    ensures holds { IfSome result (λ form. raw_contents kind (chars form.0.now) ≡ Bytes value.now) }
    ensures none { IfNone result ((inside : List ℕ) → IsTrue (all_scalars inside)
        → encode_utf8_all inside ≡ value.now → HasNoRaw kind inside) }
{
    let Ok(text) = std::str::from_utf8(value) else {
        return None;
    };
    match min_raw_hashes(kind, text) {
        Some(hashes) => Some((text, hashes)),
        None => None,
    }
}

/// Writes `hashes` hashes after the first `at` bytes of the slice `out`, and returns the offset after them.
fn put_hashes(out: &mut [u8], at: usize, hashes: usize) -> usize
    requires { at + hashes ≤ length out.old }
    ensures end { result ≡ at + hashes }
    ensures bytes { take result out.new ≡ take at out.old ++ replicate hashes (code "#") }
    ensures len { length out.new ≡ length out.old }
{
    let mut end = at;
    for _ in 0..hashes {
        end = put_byte(out, end, b'#');
    }
    end
}

/// Returns the prefix of a raw string of the kind, before its hashes: `r`, `br` or `cr`.
fn raw_opener(kind: Kind) -> &'static str
    requires { IsTrue (is_string kind) }
    ensures text { result.now ≡ raw_opener kind }
    ensures short { length result.now ≤ 2 }
{
    match kind {
        Kind::Str => "r",
        Kind::ByteStr => "br",
        Kind::CStr => "cr",
        _ => unreachable!(),
    }
}

/// Writes the raw string of the kind that contains `text`, with `hashes` hashes, to the start of `out`. [`min_raw_hashes`]
/// returns the fewest hashes for a text.
///
/// Returns the literal's length in bytes: at most the length of `text`, plus two for each hash, plus four. `out` must have
/// room for this length.
pub fn write_raw_into(kind: Kind, hashes: usize, text: &str, out: &mut [u8]) -> usize
    requires kind { IsTrue (is_string kind) }
    requires room { length text.now + 2 * hashes + 4 ≤ length out.old }
    ensures written { chars (take result out.new) ≡ raw_text kind hashes (chars text.now) }
    ensures utf8 { IsUtf8 (take result out.new) }
    ensures within { result ≤ length text.now + 2 * hashes + 4 }
{
    let at = put_text(out, 0, raw_opener(kind));
    let at = put_hashes(out, at, hashes);
    let at = put_byte(out, at, b'"');
    let at = put_text(out, at, text);
    let at = put_byte(out, at, b'"');
    put_hashes(out, at, hashes)
}
