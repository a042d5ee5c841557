//! Functions that parse quoted literals, and return the byte offsets of their parts.

ghost use Rattle.std.specs.Prelude.{◌≡◌, ◌≢◌, ◌==◌, ◌∷◌, ◌++◌, ◌+◌, ℕ, List, None, option_map, IfSome, IfNone, IsTrue, ◌≤◌, ◌<◌, length, not, slice_index, false};
ghost use Rattle.std.specs.List.{list_all};
ghost use Rattle.std.specs.Str.{chars};
ghost use Rattle.rl_syntax.specs.Texts.{IsTail, code};
ghost use Rattle.rl_syntax.specs.Quoted.{is_string, is_raw, opener};
ghost use Rattle.rl_syntax.specs.Written.{closer};
ghost use Rattle.rl_lenient.specs.Mirrors.UnitAt.{unit_at};
ghost use Rattle.rl_lenient.specs.Founds.{IsFound, IsQuotedAt, IsBodyWithin, body_in, suffix_in, is_quoted};
ghost use Rattle.rl_lenient.specs.UnitRuns.{BeginsRun};
ghost use Rattle.rl_lenient.specs.Mirrors.OpenerAt.{found_opener, string_opener_at, byte_opener_at, opener_at};
ghost use Rattle.rl_syntax.specs.Reading.{HasNoReading};
ghost use Rattle.rl_syntax.specs.Classes.{after_run, is_hash};

use crate::found::{Body, Found};
use crate::units::{is_ascii, parse_char_or_escape, piece_code, split_plain};
use rl_syntax::Kind;
use rl_syntax::classes::skip_hashes;
use rl_syntax::text::{after_prefix, before, split_ascii};

/// The forms of quoted literals: strings with escapes, raw strings, and single characters or bytes between `'`.
#[derive(Clone, Copy)]
pub enum QuotedForm {
    Cooked,
    Raw,
    Single,
}

/// Selects the form of a string literal of the kind by the first character of `text`: `"` for a string with escapes,
/// `r` for a raw string. Returns the form, the kind, and the text after this character. Returns `None` if the text
/// begins otherwise.
#[inline(always)]
#[tactic(auto, using(crate::proofs::AsciiLemmas::no_string_opener))]
fn split_string_opener(kind: Kind, text: &str) -> Option<(QuotedForm, Kind, &str)>
    requires { IsTrue (is_string kind) }
    ensures { option_map (λ p. (p.0, p.1, chars p.2.now)) result
        ≡ string_opener_at kind (chars text.now) }
{
    match split_ascii(text) {
        Some((first, rest)) if first as char == kind.quote() => {
            Some((QuotedForm::Cooked, kind, rest))
        }
        Some((b'r', rest)) => Some((QuotedForm::Raw, kind, rest)),
        _ => None,
    }
}

/// Returns the form and the kind of a literal with the prefix `b`, and the text after its quote, or after the `r` of
/// `br`. `text` is the text after the `b`. Returns `None` if the text begins otherwise.
#[tactic(auto, using(crate::proofs::AsciiLemmas::no_byte_opener))]
fn split_byte_opener(text: &str) -> Option<(QuotedForm, Kind, &str)>
    ensures { option_map (λ p. (p.0, p.1, chars p.2.now)) result ≡ byte_opener_at (chars text.now) }
{
    match split_ascii(text) {
        Some((first, rest)) if first as char == Kind::Byte.quote() => {
            Some((QuotedForm::Single, Kind::Byte, rest))
        }
        _ => split_string_opener(Kind::ByteStr, text),
    }
}

/// Returns the form and the kind of the quoted literal that the text begins like, and the text after its opening
/// quote. For a raw literal, the result has the text after its `r` instead. Returns `None` if the text begins like no
/// quoted literal.
#[inline(always)]
#[tactic(auto, unfolding(crate::specs::Mirrors::OpenerAt::opener_at), using(crate::proofs::AsciiLemmas::no_opener))]
pub fn split_opener(text: &str) -> Option<(QuotedForm, Kind, &str)>
    ensures { option_map (λ p. (p.0, p.1, chars p.2.now)) result ≡ opener_at (chars text.now) }
{
    let (first, rest) = split_ascii(text)?;
    match first {
        b'\'' => Some((QuotedForm::Single, Kind::Char, rest)),
        // Byte literals and byte strings begin with the same letter.
        b'b' => split_byte_opener(rest),
        b'c' => split_string_opener(Kind::CStr, rest),
        _ => split_string_opener(Kind::Str, text),
    }
}

/// Returns the text after the characters and escapes at its start that a string literal of the kind may contain. For
/// `Str` the loop is compiled separately, with the kind as a constant.
#[inline(never)]
pub fn skip_string_content(kind: Kind, text: &str) -> &str
    requires { IsTrue (is_string kind) }
    ensures run { (v : List ℕ) × BeginsRun kind (chars text.now) v (chars result.now) }
    ensures stuck { unit_at kind (chars result.now) ≡ None }
{
    match kind {
        Kind::Str => skip_units_of(Kind::Str, text),
        _ => skip_units_of(kind, text),
    }
}

/// Returns the text after the characters and escapes at its start that a string literal of the kind may contain. The
/// function is inlined, so a kind that is constant in a caller is constant in the loop.
#[inline(always)]
fn skip_units_of(kind: Kind, text: &str) -> &str
    requires { IsTrue (is_string kind) }
    ensures run { (v : List ℕ) × BeginsRun kind (chars text.now) v (chars result.now) }
    ensures stuck { unit_at kind (chars result.now) ≡ None }
{
    let mut rest = text;
    while let Some((_, after)) = parse_char_or_escape(kind, rest) {
        let (_, following) = split_plain(kind, after);
        rest = following;
    }
    rest
}

/// Splits the text at its last `"`, and returns the text before it and the text after it, or `None` if there is no `"`.
pub fn split_last_quote(text: &str) -> Option<(&str, &str)>
    ensures some { IfSome result (λ p. (chars text.now ≡ chars p.0.now ++ (code "\"" ∷ chars p.1.now))
        × IsTrue (list_all (λ c. not (c == code "\"")) (chars p.1.now))) }
    ensures none { IfNone result (IsTrue (list_all (λ c. not (c == code "\"")) (chars text.now))) }
{
    text.rsplit_once('"')
}

/// Whether the text contains the character NUL.
pub(crate) fn has_nul(text: &str) -> bool
    ensures { not result ≡ list_all (λ c. not (c == code "\0")) (chars text.now) }
{
    text.as_bytes().contains(&b'\0')
}

/// Returns the text after the quote at its start, or `None` if it doesn't begin with the quote of the kind: `'` for
/// characters and bytes, `"` for strings.
#[inline(always)]
#[tactic(auto, using(crate::proofs::AsciiLemmas::no_quote))]
pub fn strip_quote(kind: Kind, text: &str) -> Option<&str>
    requires { IsTrue (is_quoted kind) }
    ensures some { IfSome result (λ rest. chars text.now ≡ closer kind ∷ chars rest.now) }
    ensures none { IfNone result ((x : List ℕ) → chars text.now ≢ closer kind ∷ x) }
    ensures following { IfSome result (λ rest. IsTail text.now rest.now) }
{
    match split_ascii(text) {
        Some((first, rest)) if first as char == kind.quote() => Some(rest),
        _ => None,
    }
}

/// Returns the byte offsets of the parts of the quoted literal `text`. `opened` is the end of `text` from the body on,
/// `closer` is the end of `text` from the closing quote on, and `suffix` is the suffix.
#[inline(always)]
pub fn part_offsets(text: &str, opened: &str, closer: &str, suffix: &str, plain: bool) -> Body
    requires opened { IsTail text.now opened.now }
    requires closer { IsTail opened.now closer.now }
    requires suffix { IsTail closer.now suffix.now }
    ensures stands { IsBodyWithin text.now result }
    ensures body { chars opened.now ≡ chars (body_in text.now result) ++ chars closer.now }
    ensures suffix { suffix_in text.now result ≡ suffix.now }
    ensures plain { result.plain ≡ plain }
    ensures lo { result.lo + length opened.now ≡ length text.now }
{
    Body {
        lo: text.len() - opened.len(),
        hi: text.len() - closer.len(),
        suffix_at: text.len() - suffix.len(),
        plain,
    }
}

/// Creates the parse result of a quoted literal of the kind, from the byte offsets `body` of its parts. `unit` is the
/// value of a character or byte literal, and 0 for a string.
#[inline(always)]
fn quoted(kind: Kind, body: Body, unit: u32) -> Found
    ensures { result ≡ record {
      magnitude = 0;
      body = body;
      kind = kind;
      truth = false;
      unit = unit;
    } }
{
    Found {
        kind,
        body,
        magnitude: 0,
        truth: false,
        unit,
    }
}

/// Parses `text` as a string literal of the kind, with escapes, where `inside` is the text after its opening quote.
/// Returns `None` if it isn't one.
#[inline(always)]
#[tactic(auto, using(crate::proofs::PlaceLemmas::opened))]
pub(crate) fn find_cooked(kind: Kind, text: &str, inside: &str) -> Option<Found>
    requires { opener_at (chars text.now) ≡ found_opener QuotedForm.Cooked kind (chars inside.now) }
    ensures none { IfNone result (HasNoReading (chars text.now)) }
    ensures found { IfSome result (IsFound text.now) }
{
    // Each string literal ends with `"`. Naming the kind `Str` makes this quote a constant for the compiler.
    let (_, following) = split_plain(kind, inside);
    if let Some(suffix) = strip_quote(Kind::Str, following) {
        return Some(quoted(kind, part_offsets(text, inside, following, suffix, true), 0));
    }
    let closer = skip_string_content(kind, following);
    let suffix = strip_quote(Kind::Str, closer)?;
    Some(quoted(kind, part_offsets(text, inside, closer, suffix, false), 0))
}

/// Parses `text` as a raw string literal of the kind, where `inside` is the text after its `r`. Returns the byte
/// offsets of its parts, or `None` if it isn't one.
#[inline(never)]
#[tactic(auto, using(rl_syntax::proofs::Rests::tail_drop))]
fn raw_places(kind: Kind, text: &str, inside: &str) -> Option<Body>
    requires { opener_at (chars text.now) ≡ found_opener QuotedForm.Raw kind (chars inside.now) }
    ensures none { IfNone result (HasNoReading (chars text.now)) }
    ensures some { IfSome result (IsQuotedAt kind text.now) }
{
    let rest = skip_hashes(inside);
    let hashes = before(inside, rest);
    let opened = strip_quote(Kind::Str, rest)?;
    let (body, after) = split_last_quote(opened)?;
    let suffix = after_prefix(hashes, after)?;
    if !holds_all(kind, body) {
        return None;
    }
    let closer = &opened[body.len()..];
    Some(part_offsets(text, opened, closer, suffix, true))
}

/// Parses `text` as a raw string literal of the kind, where `inside` is the text after its `r`. Returns `None` if it
/// isn't one.
#[inline(always)]
pub(crate) fn find_raw(kind: Kind, text: &str, inside: &str) -> Option<Found>
    requires { opener_at (chars text.now) ≡ found_opener QuotedForm.Raw kind (chars inside.now) }
    ensures none { IfNone result (HasNoReading (chars text.now)) }
    ensures found { IfSome result (IsFound text.now) }
{
    // `raw_places` returns only byte offsets, since a whole parse result would be copied once more.
    let body = raw_places(kind, text, inside)?;
    Some(quoted(kind, body, 0))
}

/// Whether a raw string of the kind may contain each character of the text.
fn holds_all(kind: Kind, text: &str) -> bool
    ensures { result ≡ list_all (is_raw kind) (chars text.now) }
{
    match kind {
        Kind::ByteStr => is_ascii(text),
        Kind::CStr => !has_nul(text),
        _ => true,
    }
}

/// Parses `text` as a character or byte literal, where `inside` is the text after its opening quote. Returns `None` if
/// it isn't one.
#[inline(always)]
#[tactic(auto, using(crate::proofs::PlaceLemmas::opened))]
pub(crate) fn find_single(kind: Kind, text: &str, inside: &str) -> Option<Found>
    requires { opener_at (chars text.now) ≡ found_opener QuotedForm.Single kind (chars inside.now) }
    ensures none { IfNone result (HasNoReading (chars text.now)) }
    ensures found { IfSome result (IsFound text.now) }
{
    let (piece, closer) = parse_char_or_escape(kind, inside)?;
    let suffix = strip_quote(Kind::Char, closer)?;
    let body = part_offsets(text, inside, closer, suffix, false);
    Some(quoted(kind, body, piece_code(kind, piece)))
}

/// Whether the text begins with `'`, and has the three bytes that a character literal has at least.
#[inline(always)]
pub(crate) fn begins_character(text: &str) -> bool
    ensures long { IsTrue result → 3 ≤ length text.now }
    ensures quote { IsTrue result → slice_index text.now 0 ≡ code "'" }
{
    let bytes = text.as_bytes();
    bytes.len() >= 3 && bytes[0] == b'\''
}

/// Parses an ASCII character between single quotes, except a backslash, as `'a'`. Returns `None` if the text begins
/// otherwise. The text must begin with `'` and have at least three bytes.
#[inline(always)]
pub(crate) fn find_bare_character(text: &str) -> Option<Found>
    requires long { 3 ≤ length text.now }
    requires quote { slice_index text.now 0 ≡ code "'" }
    ensures { IfSome result (IsFound text.now) }
{
    let bytes = text.as_bytes();
    if bytes[2] as char != Kind::Char.quote() || bytes[1] == b'\\' || bytes[1] >= 128 {
        return None;
    }
    let body = Body {
        lo: 1,
        hi: 2,
        suffix_at: 3,
        plain: false,
    };
    Some(quoted(Kind::Char, body, bytes[1] as u32))
}

/// Parses a text that begins with `'` as a character literal. Returns `None` if it isn't one.
#[inline(never)]
pub(crate) fn find_character(text: &str) -> Option<Found>
    requires { slice_index text.now 0 ≡ code "'" }
    ensures none { IfNone result (HasNoReading (chars text.now)) }
    ensures found { IfSome result (IsFound text.now) }
{
    find_single(Kind::Char, text, &text[1..])
}
