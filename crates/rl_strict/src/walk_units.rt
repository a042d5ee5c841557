//! Skips the characters and escapes of a quoted literal, where a CR LF may be read as LF.

ghost use Rattle.std.specs.Prelude.{◌≡◌, ◌≤◌, ◌<◌, ◌∷◌, List, [], ℕ, None, MatchOption, IfNone, IfSome, IsTrue, IsFalse, drop, length, option_map, ◌+◌};
ghost use Rattle.std.specs.Str.{chars, IsCharBoundary};
ghost use Rattle.rl_syntax.specs.Quoted.{is_string};
ghost use Rattle.rl_syntax.specs.Strict.{Itself, is_strict_unit};
ghost use Rattle.rl_lenient.specs.StrictUnits.{BeginsStrictUnits};
ghost use Rattle.rl_strict.specs.Mirrors.StrictAt.{escape_rest, unit_rest};
ghost use Rattle.rl_syntax.specs.Classes.{after_run};
ghost use Rattle.rl_syntax.specs.Texts.{IsTail, code, first_passes, is_dropped_blank};
ghost use Rattle.rl_strict.specs.declared.line_ends.LineEnds.TheVariants.{File, Text};
ghost use Rattle.rl_strict.specs.LineEnds.{IsRestOf, drops, is_dropped, read_of};

use crate::line_ends::LineEnds;
use rl_lenient::units::{parse_escape, split_plain};
use rl_syntax::Kind;
use rl_syntax::classes::{CharClass, skip_class};
use rl_syntax::text::{ascii_at, split_char, strip_byte};

/// Returns the text after a CR LF at the beginning of `text`, or `None` if `text` doesn't begin with CR LF.
#[inline(always)]
fn after_cr_lf(text: &str) -> Option<&str>
    ensures some { IfSome result (λ rest. chars text.now ≡ code "\r" ∷ code "\n" ∷ chars rest.now) }
    ensures none { IfNone result ((c : ℕ) (following : List ℕ) → chars text.now ≡ c ∷ following
        → IsFalse (is_dropped c following)) }
    ensures following { IfSome result (λ rest. IsTail text.now rest.now) }
    ensures shorter { IfSome result (λ rest. length rest.now < length text.now) }
{
    let line_feed = strip_byte(text, b'\r')?;
    strip_byte(line_feed, b'\n')
}

/// Returns the text after a CR LF at the beginning of `text`. Returns `None` if `text` isn't from a file, or doesn't begin
/// with CR LF.
#[inline(always)]
fn after_line_end(ends: LineEnds, text: &str) -> Option<&str>
    ensures read { IfSome result (λ rest. read_of ends (chars text.now) ≡ code "\n" ∷ read_of ends (chars rest.now)) }
    ensures rest { IfSome result (λ rest. IsRestOf ends (chars text.now) (chars rest.now)) }
    ensures none { IfNone result ((c : ℕ) (following : List ℕ) → chars text.now ≡ c ∷ following
        → IsFalse (drops ends c following)) }
    ensures following { IfSome result (λ rest. IsTail text.now rest.now) }
    ensures shorter { IfSome result (λ rest. length rest.now < length text.now) }
{
    match ends {
        LineEnds::Text => None,
        LineEnds::File => match after_cr_lf(text) {
            Some(rest) => Some(rest),
            None => None,
        },
    }
}

/// Returns the first character of the text and the text after it, or `None` at the end. In a file the first character of a CR
/// LF is LF.
#[inline(always)]
pub fn split_first_char(ends: LineEnds, text: &str) -> Option<(char, &str)>
    ensures chars { MatchOption result (chars text.now ≡ [])
        (λ p. read_of ends (chars text.now) ≡ p.0 ∷ read_of ends (chars p.1.now)) }
    ensures rest { IfSome result (λ p. IsRestOf ends (chars text.now) (chars p.1.now)) }
    ensures following { IfSome result (λ p. IsTail text.now p.1.now) }
    ensures shorter { IfSome result (λ p. length p.1.now < length text.now) }
{
    match after_line_end(ends, text) {
        Some(rest) => Some(('\n', rest)),
        None => {
            let (first, rest) = split_char(text)?;
            Some((first, rest))
        }
    }
}

/// Returns the text after the white space that an escaped line end skips. `text` is the text after the line end.
fn skip_blanks(ends: LineEnds, text: &str) -> &str
    ensures read { read_of ends (chars result.now) ≡ after_run is_dropped_blank (read_of ends (chars text.now)) }
    ensures rest { IsRestOf ends (chars text.now) (chars result.now) }
    ensures shorter { length result.now ≤ length text.now }
{
    let mut rest = skip_class(CharClass::StrictBlank, text);
    while let Some(after) = after_line_end(ends, rest) {
        rest = skip_class(CharClass::StrictBlank, after);
    }
    rest
}

/// Returns the text after an escape in a literal of the kind `kind`. `at` is the byte offset after the backslash.
///
/// Except for escaped line ends, `syn` and rustc accept the same escapes.
#[inline(always)]
fn skip_escape(ends: LineEnds, kind: Kind, text: &str, at: usize) -> Option<&str>
    requires string { IsTrue (is_string kind) }
    requires place { IsCharBoundary text.now at }
    ensures value { option_map (λ r. read_of ends (chars r.now)) result ≡ escape_rest kind (read_of ends (chars (drop at text.now))) }
    ensures rest { IfSome result (λ r. IsRestOf ends (code "\\" ∷ chars (drop at text.now)) (chars r.now)) }
    ensures shorter { IfSome result (λ r. length r.now + at < length text.now) }
{
    let (first, after) = ascii_at(text, at)?;
    if first == b'\n' {
        return Some(skip_blanks(ends, &text[after..]));
    }
    if first == b'\r' {
        let blanks = after_line_end(ends, &text[at..])?;
        return Some(skip_blanks(ends, blanks));
    }
    let (_, rest) = parse_escape(kind, text, at)?;
    Some(rest)
}

/// Skips an escape at the beginning of the text, or a CR LF in a file, and returns the text after it. The result is `None`
/// if the text begins with neither.
#[inline(always)]
fn skip_escaped(ends: LineEnds, kind: Kind, text: &str) -> Option<&str>
    requires string { IsTrue (is_string kind) }
    requires escaped { IsFalse (first_passes (λ c. is_strict_unit kind (Itself c)) (chars text.now)) }
    ensures value { option_map (λ r. read_of ends (chars r.now)) result ≡ unit_rest kind (read_of ends (chars text.now)) }
    ensures rest { IfSome result (λ r. IsRestOf ends (chars text.now) (chars r.now)) }
    ensures shorter { IfSome result (λ r. length r.now < length text.now) }
{
    let (first, at) = ascii_at(text, 0)?;
    if first == b'\\' {
        return skip_escape(ends, kind, text, at);
    }
    match after_line_end(ends, text) {
        Some(rest) => Some(rest),
        None => None,
    }
}

/// Skips the unescaped characters at the beginning of the text that a string of the kind `kind` may contain, and returns the
/// text after them.
#[inline(always)]
fn skip_bare(ends: LineEnds, kind: Kind, text: &str) -> &str
    requires { IsTrue (is_string kind) }
    ensures run { BeginsStrictUnits kind (read_of ends (chars text.now)) (read_of ends (chars result.now)) }
    ensures rest { IsRestOf ends (chars text.now) (chars result.now) }
    ensures stops { IsFalse (first_passes (λ c. is_strict_unit kind (Itself c)) (chars result.now)) }
    ensures shorter { length result.now ≤ length text.now }
{
    let (_, rest) = split_plain(kind, text);
    rest
}

/// Skips the characters and escapes at the beginning of the text, and returns the text after them. If the caller passes a
/// constant kind, the loop is compiled for that kind.
#[inline(always)]
fn skip_units_of(ends: LineEnds, kind: Kind, text: &str) -> &str
    requires { IsTrue (is_string kind) }
    ensures run { BeginsStrictUnits kind (read_of ends (chars text.now)) (read_of ends (chars result.now)) }
    ensures rest { IsRestOf ends (chars text.now) (chars result.now) }
    ensures stuck { unit_rest kind (read_of ends (chars result.now)) ≡ None }
{
    let mut rest = skip_bare(ends, kind, text);
    while let Some(after) = skip_escaped(ends, kind, rest) {
        rest = skip_bare(ends, kind, after);
    }
    rest
}

/// Skips the characters and escapes at the beginning of a text that isn't from a file, and returns the text after them.
/// Plain strings have their own loop, compiled for their kind.
#[inline(never)]
fn skip_text_units(kind: Kind, text: &str) -> &str
    requires { IsTrue (is_string kind) }
    ensures run { BeginsStrictUnits kind (chars text.now) (chars result.now) }
    ensures rest { IsRestOf Text (chars text.now) (chars result.now) }
    ensures stuck { unit_rest kind (chars result.now) ≡ None }
{
    match kind {
        Kind::Str => skip_units_of(LineEnds::Text, Kind::Str, text),
        _ => skip_units_of(LineEnds::Text, kind, text),
    }
}

/// Skips the characters and escapes at the beginning of a text from a file, and returns the text after them.
#[inline(never)]
fn skip_file_units(kind: Kind, text: &str) -> &str
    requires { IsTrue (is_string kind) }
    ensures run { BeginsStrictUnits kind (read_of File (chars text.now)) (read_of File (chars result.now)) }
    ensures rest { IsRestOf File (chars text.now) (chars result.now) }
    ensures stuck { unit_rest kind (read_of File (chars result.now)) ≡ None }
{
    skip_units_of(LineEnds::File, kind, text)
}

/// Skips the characters and escapes at the beginning of the text, and returns the text after them. Each value of `ends` has
/// its own compiled loop.
#[inline(always)]
pub(crate) fn skip_units(ends: LineEnds, kind: Kind, text: &str) -> &str
    requires { IsTrue (is_string kind) }
    ensures run { BeginsStrictUnits kind (read_of ends (chars text.now)) (read_of ends (chars result.now)) }
    ensures rest { IsRestOf ends (chars text.now) (chars result.now) }
    ensures stuck { unit_rest kind (read_of ends (chars result.now)) ≡ None }
{
    match ends {
        LineEnds::Text => skip_text_units(kind, text),
        LineEnds::File => skip_file_units(kind, text),
    }
}
