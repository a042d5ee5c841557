//! Parses a text as one literal token of Rust's grammar, or returns its flaw.

ghost use Rattle.std.specs.Prelude.{◌≡◌, ◌≢◌, ◌≤◌, ◌==◌, ◌∷◌, Bool, None, ℕ, drop, false, true, length, IsTrue, IsFalse, IfOk, IfErr, IfSome, IfNone};
ghost use Rattle.std.specs.Char.{is_ascii_digit};
ghost use Rattle.std.specs.Str.{chars};
ghost use Rattle.rl_syntax.specs.declared.kind.Kind.TheVariants.{Char, Str};
ghost use Rattle.rl_syntax.specs.Reading.{truth_text};
ghost use Rattle.rl_syntax.specs.Texts.{IsTail, code, first_passes};
ghost use Rattle.rl_lenient.specs.Mirrors.OpenerAt.{opener_at};
ghost use Rattle.rl_strict.specs.StrictShapes.{IsToken};
ghost use Rattle.rl_strict.specs.StrictFlaws.{ExplainsStrictly};
ghost use Rattle.rl_strict.specs.SignedFlaws.{ExplainsSigned, IsSignedToken};
ghost use Rattle.rl_strict.specs.StrictNumbersRead.{suffix_of};
ghost use Rattle.rl_strict.specs.declared.line_ends.LineEnds.{LineEnds};
ghost use Rattle.rl_strict.specs.declared.strict_reading.Reading.TheVariants.{Text, Unit};
ghost use Rattle.rl_strict.specs.Fronts.{IsBare, BeginsAs};
ghost use Rattle.rl_strict.specs.LineEnds.{IsRestOf, read_of};
ghost use Rattle.rl_strict.specs.Readings.{ExplainsOf, IsFlawOf, IsPlaceAfter, IsReadingOf, IsRestPlace, IsTokenIf};
ghost use Rattle.rl_strict.specs.StrictRead.{IsStrictReading, IsSignedRead, placed_in};

use crate::flaws::{Flaw, FlawAt, FlawKind, flaw_at_end_or_before, make_flaw, non_literal_flaw};
use crate::line_ends::LineEnds;
use crate::read_numbers::{Number, parse_number};
use crate::read_quoted::{Single, quoted_at, text_at, unit_at};
use crate::walk_units::split_first_char;
use rl_lenient::digit_runs::begins_digit;
use rl_lenient::quoted_forms::split_opener;
use rl_lenient::units::is_allowed_in_single_quotes;
use rl_lenient::{Body, bool_of};
use rl_syntax::Kind;
use rl_syntax::text::{ascii_at, begins_with_char, strip_byte};

/// The parse result of a literal token. Offsets are in bytes of the token's text as written.
///
/// For a text in a file, `plain` is always false: it isn't known whether the body is the literal's value.
#[derive(Clone, Copy)]
pub enum Reading {
    /// A string of this kind, and the byte offsets of its parts.
    Text(Kind, Body),
    /// A character or byte literal, the byte offsets of its parts, and its value.
    Unit(Kind, Body, u32),
    /// An integer: its magnitude, or `None` above 128 bits, and the byte offset of its suffix. Without a suffix, this is the
    /// text's end.
    Integer(Option<u128>, usize),
    /// A float, and the byte offset of its suffix.
    Float(usize),
    /// The literal `true` or `false`.
    Truth(bool),
}

/// How a text begins. The first bytes identify most literals, and the function that parses each of them.
#[derive(Clone, Copy)]
pub enum Front<'t> {
    /// The text begins with `"`, and this field is the text after the `"`. [`read_string`] parses the text.
    Quote(&'t str),
    /// The text is this ASCII character, unescaped, between single quotes, for example `'a'`.
    Bare(u8),
    /// The text begins with `'`, and this field is the text after the `'`. [`read_character`] parses the text.
    Apostrophe(&'t str),
    /// The text begins with a digit. [`read_unsigned_number`] parses the text.
    Digit,
    /// The text is empty, or begins with a character other than a quote and a digit. [`read_non_digit_start`] parses the
    /// text.
    Other,
}

/// Returns the character if the text is one unescaped ASCII character between single quotes, for example `'a'`.
#[inline(always)]
fn bare_of(text: &str) -> Option<u8>
    ensures some { IfSome result (IsBare text.now) }
    ensures none { IfNone result ((c : ℕ) → IsBare text.now c → ⊥) }
{
    let bytes = text.as_bytes();
    if bytes.len() != 3 || bytes[0] != b'\'' || bytes[2] != b'\'' || bytes[1] >= 128 {
        return None;
    }
    if is_allowed_in_single_quotes(bytes[1] as char) {
        Some(bytes[1])
    } else {
        None
    }
}

/// Returns how the text begins.
#[inline(always)]
pub fn classify_start(text: &str) -> Front<'_>
    ensures { BeginsAs text.now result }
{
    match ascii_at(text, 0) {
        Some((b'"', at)) => Front::Quote(&text[at..]),
        Some((b'\'', at)) => match bare_of(text) {
            Some(c) => Front::Bare(c),
            None => Front::Apostrophe(&text[at..]),
        },
        Some((b'0'..=b'9', _)) => Front::Digit,
        _ => Front::Other,
    }
}

/// Converts a parsed number, whose suffix is the end of `text`, to a `Reading` with the suffix's byte offset in `text`.
#[inline(always)]
pub fn reading_of_number(text: &str, number: Number<'_>) -> Reading
    requires { IsTail text.now (suffix_of number) }
    ensures { result ≡ placed_in text.now number.entry }
{
    match number {
        Number::Integer(magnitude, suffix) => {
            Reading::Integer(magnitude, text.len() - suffix.len())
        }
        Number::Float(suffix) => Reading::Float(text.len() - suffix.len()),
    }
}

/// Parses all of `text`, which begins with a digit, as a number.
#[inline(always)]
fn number_at(text: &str) -> Result<Reading, FlawAt<'_>>
    requires { IsTrue (first_passes is_ascii_digit (chars text.now)) }
    ensures reads { IfOk result (λ r. (ends : LineEnds) → IsReadingOf ends false text.now r) }
    ensures token { IfOk result (λ r. (ends : LineEnds) → IsToken (read_of ends (chars text.now))) }
    ensures flaw { IfErr result (λ f. (ends : LineEnds)
        → IsFlawOf ends false (chars text.now) f.kind (chars f.piece.now) (chars f.rest.now)) }
{
    match parse_number(text) {
        Ok(number) => Ok(reading_of_number(text, number)),
        Err(stop) => Err(FlawAt {
            kind: stop.kind,
            piece: text,
            rest: stop.rest,
        }),
    }
}

/// Parses a negative number. `number` is the part of `text` after the minus.
#[inline(always)]
fn negative_at<'t>(text: &'t str, number: &'t str) -> Result<Reading, FlawAt<'t>>
    requires text { chars text.now ≡ code "-" ∷ chars number.now }
    requires following { IsTail text.now number.now }
    ensures reads { IfOk result (λ r. (ends : LineEnds) → IsReadingOf ends true text.now r) }
    ensures token { IfOk result (λ r. (ends : LineEnds) → IsSignedToken (read_of ends (chars text.now))) }
    ensures flaw { IfErr result (λ f. (ends : LineEnds)
        → IsFlawOf ends true (chars text.now) f.kind (chars f.piece.now) (chars f.rest.now)) }
{
    if begins_digit(number) {
        match parse_number(number) {
            Ok(read) => Ok(reading_of_number(text, read)),
            Err(stop) => Err(FlawAt {
                kind: stop.kind,
                piece: text,
                rest: stop.rest,
            }),
        }
    } else {
        let flaw = flaw_at_end_or_before(FlawKind::UnexpectedEnd, FlawKind::NoNumber, number);
        Err(FlawAt {
            kind: flaw.kind,
            piece: text,
            rest: flaw.rest,
        })
    }
}

/// Returns the flaw of a text that begins neither with a digit nor as a quoted literal, and isn't `true` or `false`.
fn word_flaw(text: &str) -> FlawAt<'_>
    requires no_number { IsFalse (first_passes is_ascii_digit (chars text.now)) }
    requires no_opener { opener_at (chars text.now) ≡ None }
    requires no_truth { (truth : Bool) → chars text.now ≢ truth_text truth }
    ensures { (ends : LineEnds)
        → IsFlawOf ends false (chars text.now) result.kind (chars result.piece.now) (chars result.rest.now) }
{
    if begins_with_char(text, '-') {
        make_flaw(FlawKind::Minus, text)
    } else {
        non_literal_flaw(text).with_piece(text)
    }
}

/// Parses a text that doesn't begin with a digit as a literal token.
#[inline(always)]
fn other_at(ends: LineEnds, text: &str) -> Result<Reading, FlawAt<'_>>
    requires { IsFalse (first_passes is_ascii_digit (chars text.now)) }
    ensures reads { IfOk result (IsReadingOf ends false text.now) }
    ensures token { IfOk result (λ r. IsToken (read_of ends (chars text.now))) }
    ensures flaw { IfErr result (λ f. IsFlawOf ends false (chars text.now) f.kind (chars f.piece.now) (chars f.rest.now)) }
{
    match split_opener(text) {
        Some((form, kind, inside)) => quoted_at(ends, form, kind, text, inside),
        None => match bool_of(text) {
            Some(truth) => Ok(Reading::Truth(truth)),
            None => Err(word_flaw(text)),
        },
    }
}

/// Parses a text that doesn't begin with a digit as a literal token. Each value of `ends` has its own compiled copy of the
/// code.
#[inline(never)]
fn read_rare(ends: LineEnds, text: &str) -> Result<Reading, FlawAt<'_>>
    requires { IsFalse (first_passes is_ascii_digit (chars text.now)) }
    ensures reads { IfOk result (IsReadingOf ends false text.now) }
    ensures token { IfOk result (λ r. IsToken (read_of ends (chars text.now))) }
    ensures flaw { IfErr result (λ f. IsFlawOf ends false (chars text.now) f.kind (chars f.piece.now) (chars f.rest.now)) }
{
    match ends {
        LineEnds::Text => other_at(LineEnds::Text, text),
        LineEnds::File => other_at(LineEnds::File, text),
    }
}

/// Parses the text as a literal token. The error contains the kind of flaw, the text that begins at the flaw, and the text
/// that begins with the text to show. The caller converts the two texts to byte offsets.
#[inline(always)]
fn read_at(ends: LineEnds, text: &str) -> Result<Reading, FlawAt<'_>>
    ensures reads { IfOk result (IsReadingOf ends false text.now) }
    ensures token { IfOk result (λ r. IsToken (read_of ends (chars text.now))) }
    ensures flaw { IfErr result (λ f. IsFlawOf ends false (chars text.now) f.kind (chars f.piece.now) (chars f.rest.now)) }
{
    match classify_start(text) {
        Front::Quote(inside) => match text_at(ends, Kind::Str, text, inside) {
            Ok(body) => Ok(Reading::Text(Kind::Str, body)),
            Err(flaw) => Err(flaw),
        },
        Front::Bare(c) => {
            let body = Body {
                lo: 1,
                hi: 2,
                suffix_at: 3,
                plain: false,
            };
            Ok(Reading::Unit(Kind::Char, body, c as u32))
        }
        Front::Apostrophe(inside) => match unit_at(ends, Kind::Char, text, inside) {
            Ok(single) => Ok(Reading::Unit(Kind::Char, single.body, single.unit)),
            Err(flaw) => Err(flaw),
        },
        Front::Digit => match number_at(text) {
            Ok(reading) => Ok(reading),
            Err(flaw) => Err(flaw),
        },
        Front::Other => read_rare(ends, text),
    }
}

/// Returns the text after its minus if `signed` is true and the text begins with one.
#[inline(always)]
fn after_minus(signed: bool, text: &str) -> Option<&str>
    ensures some { IfSome result (λ number. IsTrue signed × (chars text.now ≡ code "-" ∷ chars number.now)) }
    ensures none { IfNone result (IsTrue signed → IsFalse (first_passes (λ c. c == code "-") (chars text.now))) }
    ensures following { IfSome result (λ number. IsTail text.now number.now) }
{
    if signed { strip_byte(text, b'-') } else { None }
}

/// Parses the text as a literal token, or as a minus and a number if `signed` is true. The error contains the kind of flaw,
/// the text that begins at the flaw, and the text that begins with the text to show. The caller converts the two texts to
/// byte offsets.
#[inline(always)]
fn signed_at(text: &str, ends: LineEnds, signed: bool) -> Result<Reading, FlawAt<'_>>
    ensures reads { IfOk result (IsReadingOf ends signed text.now) }
    ensures token { IfOk result (λ r. IsTokenIf signed (read_of ends (chars text.now))) }
    ensures flaw { IfErr result (λ f. IsFlawOf ends signed (chars text.now) f.kind (chars f.piece.now) (chars f.rest.now)) }
{
    match after_minus(signed, text) {
        Some(number) => match negative_at(text, number) {
            Ok(reading) => Ok(reading),
            Err(flaw) => Err(flaw),
        },
        None => match read_at(ends, text) {
            Ok(reading) => Ok(reading),
            Err(flaw) => Err(flaw),
        },
    }
}

/// Returns `text` without its first character, or an empty text if `text` is empty. In a file, a CR LF is one character.
#[tactic(auto, using(rl_syntax::proofs::TailLemmas::tail_step, rl_syntax::proofs::TailLemmas::tail_self))]
pub fn skip_first_char(ends: LineEnds, text: &str) -> &str
    ensures rest { IsRestOf ends (chars text.now) (chars result.now) }
    ensures read { read_of ends (chars result.now) ≡ drop 1 (read_of ends (chars text.now)) }
    ensures following { IsTail text.now result.now }
    ensures shorter { length result.now ≤ length text.now }
{
    match split_first_char(ends, text) {
        Some((_, rest)) => rest,
        None => text,
    }
}

/// Converts a flaw to byte offsets in `text` as written. In a file, a CR LF at the flaw's position is one character.
pub fn flaw_with_offsets(ends: LineEnds, found: FlawAt<'_>, text: &str) -> Flaw
    requires piece { IsRestOf ends (chars text.now) (chars found.piece.now) }
    requires rest { IsRestOf ends (chars text.now) (chars found.rest.now) }
    ensures kind { result.kind ≡ found.entry.kind }
    ensures from { IsRestPlace ends (chars text.now) (chars found.entry.piece.now) result.from }
    ensures lo { IsRestPlace ends (chars text.now) (chars found.entry.rest.now) result.lo }
    ensures hi { IsPlaceAfter ends (chars text.now) (chars found.entry.rest.now) result.hi }
    ensures ordered { result.lo ≤ result.hi }
{
    let after = skip_first_char(ends, found.rest);
    Flaw {
        kind: found.kind,
        from: text.len() - found.piece.len(),
        lo: text.len() - found.rest.len(),
        hi: text.len() - after.len(),
    }
}

/// Parses all of `text` as a string literal, and returns the byte offsets of its parts. `inside` is the text after the opening
/// `"`.
///
/// # Errors
///
/// Returns the flaw if the text isn't a string literal.
#[inline(always)]
pub fn read_string(text: &str, inside: &str) -> Result<Body, Flaw>
    requires { chars text.now ≡ code "\"" ∷ chars inside.now }
    ensures reads { IfOk result (λ body. IsStrictReading text.now (Text Str body)) }
    ensures token { IfOk result (λ b. IsToken (chars text.now)) }
    ensures flaw { IfErr result (ExplainsStrictly (chars text.now)) }
{
    match text_at(LineEnds::Text, Kind::Str, text, inside) {
        Ok(body) => Ok(body),
        Err(found) => Err(flaw_with_offsets(LineEnds::Text, found, text)),
    }
}

/// Parses all of `text` as a character literal. `inside` is the text after the opening `'`.
///
/// # Errors
///
/// Returns the flaw if the text isn't a character literal.
#[inline(always)]
pub fn read_character(text: &str, inside: &str) -> Result<Single, Flaw>
    requires { chars text.now ≡ code "'" ∷ chars inside.now }
    ensures reads { IfOk result (λ single. IsStrictReading text.now (Unit Char single.body single.unit)) }
    ensures token { IfOk result (λ s. IsToken (chars text.now)) }
    ensures flaw { IfErr result (ExplainsStrictly (chars text.now)) }
{
    match unit_at(LineEnds::Text, Kind::Char, text, inside) {
        Ok(single) => Ok(single),
        Err(found) => Err(flaw_with_offsets(LineEnds::Text, found, text)),
    }
}

/// Parses all of `text`, which begins with a digit, as a number.
///
/// # Errors
///
/// Returns the flaw if the text isn't a number.
#[inline(always)]
pub fn read_unsigned_number(text: &str) -> Result<Reading, Flaw>
    requires { IsTrue (first_passes is_ascii_digit (chars text.now)) }
    ensures reads { IfOk result (IsStrictReading text.now) }
    ensures token { IfOk result (λ r. IsToken (chars text.now)) }
    ensures flaw { IfErr result (ExplainsStrictly (chars text.now)) }
{
    match number_at(text) {
        Ok(reading) => Ok(reading),
        Err(found) => Err(flaw_with_offsets(LineEnds::Text, found, text)),
    }
}

/// Parses all of `text`, which doesn't begin with a digit, as a literal token, or as a minus and a number.
///
/// # Errors
///
/// Returns the flaw if the text is neither a literal token nor a minus and a number.
#[inline(never)]
pub fn read_non_digit_start(text: &str) -> Result<Reading, Flaw>
    requires { IsFalse (first_passes is_ascii_digit (chars text.now)) }
    ensures reads { IfOk result (IsSignedRead text.now) }
    ensures token { IfOk result (λ r. IsSignedToken (chars text.now)) }
    ensures flaw { IfErr result (ExplainsSigned (chars text.now)) }
{
    match strip_byte(text, b'-') {
        Some(number) => match negative_at(text, number) {
            Ok(reading) => Ok(reading),
            Err(found) => Err(flaw_with_offsets(LineEnds::Text, found, text)),
        },
        None => match other_at(LineEnds::Text, text) {
            Ok(reading) => Ok(reading),
            Err(found) => Err(flaw_with_offsets(LineEnds::Text, found, text)),
        },
    }
}

/// Parses all of `text` as one literal token of Rust's grammar. Nothing is allocated.
///
/// If `signed` is true, a minus is allowed directly before a number: `-1.5`.
///
/// With `LineEnds::File`, the text is the text of a literal in a file, where rustc reads CR LF as LF. The result is that of the
/// text without each CR before an LF. Byte offsets count the bytes of the text as written, and none is between a CR and its LF:
/// an offset of an LF is that of its CR.
///
/// Integers of any size are tokens. The magnitude of an integer above 128 bits is `None`.
///
/// # Errors
///
/// Returns the flaw if the text isn't a literal token, nor a minus and a number where `signed` is true. The text before the
/// flaw's `lo` is the longest prefix that can still become a valid text: some ending completes it, and with the text's next
/// character no ending does.
///
/// # Example
///
/// ```
/// use rl_grammar::LineEnds;
/// use rl_grammar::strict::{Reading, read};
///
/// pub fn integer_value(text: &str) -> Option<u128> {
///     match read(text, LineEnds::Text, false) {
///         Ok(Reading::Integer(magnitude, _)) => magnitude,
///         _ => None,
///     }
/// }
/// // integer_value("0x1F_u8") == Some(31)
/// // integer_value("1.5") == None
/// ```
#[inline(always)]
pub fn read(text: &str, ends: LineEnds, signed: bool) -> Result<Reading, Flaw>
    ensures reads { IfOk result (IsReadingOf ends signed text.now) }
    ensures token { IfOk result (λ r. IsTokenIf signed (read_of ends (chars text.now))) }
    ensures flaw { IfErr result (ExplainsOf ends signed (chars text.now)) }
{
    match signed_at(text, ends, signed) {
        Ok(reading) => Ok(reading),
        Err(found) => Err(flaw_with_offsets(ends, found, text)),
    }
}
