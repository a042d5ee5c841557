//! Functions that decode quoted literals into a slice of the caller's, and functions that test whether a literal's body
//! is its value, byte for byte.

ghost use Rattle.std.specs.Prelude.{◌≡◌, ◌≢◌, ◌↔◌, ◌⊎◌, ◌≤◌, ◌+◌, ◌++◌, [], ◌∷◌, ℕ, List, false, take, length, IsTrue};
ghost use Rattle.std.specs.Str.{chars, IsUtf8};
ghost use Rattle.rl_syntax.specs.Quoted.{is_string};
ghost use Rattle.rl_syntax.specs.Reading.{Characters, Bytes, ReadsAs, HasContents};
ghost use Rattle.rl_lenient.specs.Bodies.{HasSingleBody, IsStringBody, IsSingleBody, SingleRepresents, Represents};
ghost use Rattle.rl_lenient.specs.Founds.{IsUnitOf};
ghost use Rattle.rl_lenient.specs.WholeShapes.{IsPlain};
ghost use Rattle.rl_syntax.specs.declared.kind.Kind.TheVariants.{Float};
ghost use Rattle.rl_lenient.specs.Decoded.{piece_bytes};
ghost use Rattle.rl_lenient.specs.Mirrors.Decodes.{Decodes};

use crate::found::{parse_float_literal, parse_known_literal, parse_literal};
use crate::units::{Piece, parse_char_or_escape, piece_code, split_plain};
use rl_syntax::Kind;
use rl_syntax::slice_writer::{put, put_byte, put_char};

/// Writes the value of one character or escape after the first `at` bytes of the slice `out`, and returns the offset
/// after the written bytes. A character is written as its UTF-8 bytes.
#[inline(always)]
fn put_piece(out: &mut [u8], at: usize, piece: Piece) -> usize
    requires { at + length (piece_bytes piece) ≤ length out.old }
    ensures end { result ≡ at + length (piece_bytes piece) }
    ensures bytes { take result out.new ≡ take at out.old ++ piece_bytes piece }
    ensures len { length out.new ≡ length out.old }
{
    match piece {
        Piece::Character(c) => put_char(out, at, c),
        Piece::Byte(b) => put_byte(out, at, b),
        Piece::Nothing => at,
    }
}

/// Writes the characters `run` after the first `at` bytes of the slice `out`, and returns the offset after them.
/// Between two escapes, `run` is often empty.
#[inline(always)]
fn put_run(out: &mut [u8], at: usize, run: &str) -> usize
    requires { at + length run.now ≤ length out.old }
    ensures end { result ≡ at + length run.now }
    ensures bytes { take result out.new ≡ take at out.old ++ run.now }
    ensures len { length out.new ≡ length out.old }
{
    if run.is_empty() {
        return at;
    }
    put(out, at, run.as_bytes())
}

/// Decodes the characters and escapes at the start of `text`, as in a string literal of the kind, and writes the
/// decoded bytes to the start of `out`. Returns their number, which is at most the length of `text`.
///
/// Decoding ends at the end of `text`, or at a character that isn't allowed or an invalid escape. A sequence of plain
/// characters is copied at once.
pub fn decode_string_content_into(kind: Kind, text: &str, out: &mut [u8]) -> usize
    requires string { IsTrue (is_string kind) }
    requires room { length text.now ≤ length out.old }
    ensures decodes { Decodes kind (chars text.now) (take result out.new) }
    ensures within { result ≤ length text.now }
    ensures len { length out.new ≡ length out.old }
{
    let mut at = 0;
    let mut rest = text;
    loop {
        let (run, later) = split_plain(kind, rest);
        at = put_run(out, at, run);
        let Some((piece, after)) = parse_char_or_escape(kind, later) else {
            return at;
        };
        at = put_piece(out, at, piece);
        rest = after;
    }
}

/// Decodes the body of a string literal into `out`, and returns the length of the decoded value in bytes. The body is
/// the text between the quotes.
///
/// The body must contain an escape or a line end CR LF, and not be that of a raw literal. Any other body is the value
/// itself, and its [`Body::plain`](crate::Body::plain) is `true`. Nothing is allocated.
pub fn decode_str_into(body: &str, out: &mut [u8]) -> usize
    requires body { IsStringBody Kind.Str body.now false }
    requires room { length body.now ≤ length out.old }
    ensures value { Represents Kind.Str body.now false (Characters (chars (take result out.new))) }
    ensures utf8 { IsUtf8 (take result out.new) }
    ensures within { result ≤ length body.now }
    ensures len { length out.new ≡ length out.old }
{
    decode_string_content_into(Kind::Str, body, out)
}

/// Decodes the body of a byte string or C string literal into `out`, and returns the length of the decoded value in
/// bytes. The body is the text between the quotes.
///
/// The body must contain an escape or a line end CR LF, and not be that of a raw literal. Any other body is the value
/// itself, and its [`Body::plain`](crate::Body::plain) is `true`. Nothing is allocated.
pub fn decode_bytes_into(kind: Kind, body: &str, out: &mut [u8]) -> usize
    requires kind { kind ≡ Kind.ByteStr ⊎ kind ≡ Kind.CStr }
    requires body { IsStringBody kind body.now false }
    requires room { length body.now ≤ length out.old }
    ensures value { Represents kind body.now false (Bytes (take result out.new)) }
    ensures within { result ≤ length body.now }
    ensures len { length out.new ≡ length out.old }
{
    decode_string_content_into(kind, body, out)
}

/// Returns the value of a character or byte literal as a number, from the text between its quotes.
fn body_unit(kind: Kind, body: &str) -> u32
    requires { IsSingleBody kind body.now }
    ensures { (text : List ℕ) → HasSingleBody kind text body.now → IsUnitOf kind text result }
{
    let Some((piece, _)) = parse_char_or_escape(kind, body) else {
        unreachable!()
    };
    piece_code(kind, piece)
}

/// Returns the value of the byte literal `text`. The text must be a byte literal: [`shape`](crate::shape) returns the
/// kind `Byte` for it.
pub fn byte_of(text: &str) -> u8
    requires { ReadsAs Kind.Byte (chars text.now) }
    ensures reads { HasContents Kind.Byte (chars text.now) (Bytes (result ∷ [])) }
{
    parse_known_literal(text).unit as u8
}

/// Returns the value of the character literal `text`. The text must be a character literal: [`shape`](crate::shape)
/// returns the kind `Char` for it.
pub fn char_of(text: &str) -> char
    requires { ReadsAs Kind.Char (chars text.now) }
    ensures reads { HasContents Kind.Char (chars text.now) (Characters (result ∷ [])) }
{
    match char::from_u32(parse_known_literal(text).unit) {
        Some(c) => c,
        None => unreachable!(),
    }
}

/// Returns the value of a byte literal, from the text between its quotes.
pub fn byte_of_body(body: &str) -> u8
    requires { IsSingleBody Kind.Byte body.now }
    ensures { SingleRepresents Kind.Byte body.now (Bytes (result ∷ [])) }
{
    body_unit(Kind::Byte, body) as u8
}

/// Returns the value of a character literal, from the text between its quotes.
pub fn char_of_body(body: &str) -> char
    requires { IsSingleBody Kind.Char body.now }
    ensures { SingleRepresents Kind.Char body.now (Characters (result ∷ [])) }
{
    match char::from_u32(body_unit(Kind::Char, body)) {
        Some(c) => c,
        None => unreachable!(),
    }
}

/// Returns `true` if the text is a literal of the kind, and its body is its value, byte for byte. The value is a
/// string's decoded value, or a number's digits in base ten. Nothing is allocated.
///
/// A string literal has this property if it is raw, or contains neither an escape nor a line end CR LF. An integer
/// within 128 bits has it if it is in base ten, and contains neither an underscore nor a needless leading zero. A float
/// has it if it contains no underscore, no plus and no `E`. Whether a text is a float is decided by the rule for floats
/// alone, even if the text is an integer too. Characters, bytes and booleans don't have the property.
///
/// # Example
///
/// ```
/// use rl_grammar::{Kind, is_plain};
///
/// pub fn is_plain_string(text: &str) -> bool {
///     is_plain(Kind::Str, text)
/// }
/// // is_plain_string("\"a\"") == true
/// // is_plain_string("\"\\n\"") == false
/// ```
pub fn is_plain(kind: Kind, text: &str) -> bool
    ensures { IsTrue result ↔ IsPlain kind text.now }
{
    match kind {
        Kind::Float => float_is_plain(text),
        _ => reads_plain(kind, text),
    }
}

/// Whether the text is a literal of the kind, which isn't `Float`, and its body is its value, byte for byte.
fn reads_plain(kind: Kind, text: &str) -> bool
    requires { kind ≢ Float }
    ensures { IsTrue result ↔ IsPlain kind text.now }
{
    match parse_literal(text) {
        Some(found) => found.body.plain && found.kind == kind,
        None => false,
    }
}

/// Whether the text is a float literal whose body is the digits of its value, byte for byte. The text may be an integer
/// literal too.
fn float_is_plain(text: &str) -> bool
    ensures { IsTrue result ↔ IsPlain Float text.now }
{
    match parse_float_literal(text) {
        Some(found) => found.body.plain,
        None => false,
    }
}
