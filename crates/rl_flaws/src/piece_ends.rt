//! Finds the end of an invalid character or escape in a quoted literal.

ghost use Rattle.std.specs.Prelude.{◌≡◌, ◌||◌};
ghost use Rattle.std.specs.Str.{chars};
ghost use Rattle.rl_syntax.specs.Texts.{IsTail, is_underscore};
ghost use Rattle.rl_syntax.specs.Quoted.{is_hex_digit};
ghost use Rattle.rl_flaws.specs.BadPieces.{after_brace, after_code_digits, after_escape, after_hex, after_one, after_bad_piece, after_unicode, is_flaw_after_quote, is_flaw_of_unit};
ghost use Rattle.rl_strict.specs.LineEnds.{IsRestOf, read_of};

use rl_strict::walk_units::split_first_char;
use rl_strict::{FlawKind, LineEnds};

/// Returns the text without its first character, or all of the text if this character is a backslash or the quote `quote`.
#[tactic(auto, using(rl_syntax::proofs::TailLemmas::tail_self, rl_syntax::proofs::TailLemmas::tail_step, rl_strict::proofs::EndLemmas::self_in, rl_strict::proofs::EndLemmas::step_in))]
fn after_one(ends: LineEnds, quote: char, text: &str) -> &str
    ensures read { read_of ends (chars result.now) ≡ after_one quote (read_of ends (chars text.now)) }
    ensures rest { IsRestOf ends (chars text.now) (chars result.now) }
    ensures following { IsTail text.now result.now }
{
    match split_first_char(ends, text) {
        Some((c, rest)) if c != '\\' && c != quote => rest,
        _ => text,
    }
}

/// Returns the text after an invalid `\x` escape. `text` begins after `\x`.
#[tactic(auto, using(rl_syntax::proofs::TailLemmas::tail_self, rl_syntax::proofs::TailLemmas::tail_step, rl_strict::proofs::EndLemmas::self_in, rl_strict::proofs::EndLemmas::step_in))]
fn after_hex(ends: LineEnds, quote: char, text: &str) -> &str
    ensures read { read_of ends (chars result.now) ≡ after_hex quote (read_of ends (chars text.now)) }
    ensures rest { IsRestOf ends (chars text.now) (chars result.now) }
    ensures following { IsTail text.now result.now }
{
    match split_first_char(ends, text) {
        Some((c, rest)) if c.is_ascii_hexdigit() => after_one(ends, quote, rest),
        _ => after_one(ends, quote, text),
    }
}

/// Whether the character may occur between the braces of `\u{..}`: a hexadecimal digit or an underscore.
fn is_code_part(c: char) -> bool
    ensures { result ≡ (is_hex_digit c || is_underscore c) }
{
    c.is_ascii_hexdigit() || c == '_'
}

/// Returns the text after an invalid `\u{..}` escape. `text` begins after the escape's first digit. The function skips digits
/// and underscores, and then one character that isn't a backslash or the quote.
#[tactic(auto, using(rl_syntax::proofs::TailLemmas::tail_self, rl_syntax::proofs::TailLemmas::tail_step, rl_strict::proofs::EndLemmas::self_in, rl_strict::proofs::EndLemmas::step_in))]
fn after_code_digits(ends: LineEnds, quote: char, text: &str) -> &str
    ensures read { read_of ends (chars result.now) ≡ after_code_digits quote (read_of ends (chars text.now)) }
    ensures rest { IsRestOf ends (chars text.now) (chars result.now) }
    ensures following { IsTail text.now result.now }
{
    let mut rest = text;
    while let Some((c, following)) = split_first_char(ends, rest) {
        if !is_code_part(c) {
            return after_one(ends, quote, rest);
        }
        rest = following;
    }
    rest
}

/// Returns the text after an invalid `\u{..}` escape. `text` begins after `\u{`.
#[tactic(auto, using(rl_syntax::proofs::TailLemmas::tail_self, rl_syntax::proofs::TailLemmas::tail_step, rl_strict::proofs::EndLemmas::self_in, rl_strict::proofs::EndLemmas::step_in))]
fn after_brace(ends: LineEnds, quote: char, text: &str) -> &str
    ensures read { read_of ends (chars result.now) ≡ after_brace quote (read_of ends (chars text.now)) }
    ensures rest { IsRestOf ends (chars text.now) (chars result.now) }
    ensures following { IsTail text.now result.now }
{
    match split_first_char(ends, text) {
        Some((c, rest)) if c.is_ascii_hexdigit() => after_code_digits(ends, quote, rest),
        _ => after_one(ends, quote, text),
    }
}

/// Returns the text after an invalid `\u` escape. `text` begins after `\u`.
#[tactic(auto, using(rl_syntax::proofs::TailLemmas::tail_self, rl_syntax::proofs::TailLemmas::tail_step, rl_strict::proofs::EndLemmas::self_in, rl_strict::proofs::EndLemmas::step_in))]
fn after_unicode(ends: LineEnds, quote: char, text: &str) -> &str
    ensures read { read_of ends (chars result.now) ≡ after_unicode quote (read_of ends (chars text.now)) }
    ensures rest { IsRestOf ends (chars text.now) (chars result.now) }
    ensures following { IsTail text.now result.now }
{
    match split_first_char(ends, text) {
        Some(('{', rest)) => after_brace(ends, quote, rest),
        _ => after_one(ends, quote, text),
    }
}

/// Returns the text after an invalid escape. `text` begins after the escape's backslash.
#[tactic(auto, using(rl_syntax::proofs::TailLemmas::tail_self, rl_syntax::proofs::TailLemmas::tail_step, rl_strict::proofs::EndLemmas::self_in, rl_strict::proofs::EndLemmas::step_in))]
fn after_escape(ends: LineEnds, quote: char, text: &str) -> &str
    ensures read { read_of ends (chars result.now) ≡ after_escape quote (read_of ends (chars text.now)) }
    ensures rest { IsRestOf ends (chars text.now) (chars result.now) }
    ensures following { IsTail text.now result.now }
{
    match split_first_char(ends, text) {
        Some(('x', rest)) => after_hex(ends, quote, rest),
        Some(('u', rest)) => after_unicode(ends, quote, rest),
        Some((_, rest)) => rest,
        None => text,
    }
}

/// Returns the text after the invalid escape or character with which the given text begins. The parsing of a string continues
/// at the returned text.
#[tactic(auto, using(rl_syntax::proofs::TailLemmas::tail_self, rl_syntax::proofs::TailLemmas::tail_step, rl_strict::proofs::EndLemmas::self_in, rl_strict::proofs::EndLemmas::step_in))]
pub fn after_bad_piece(ends: LineEnds, quote: char, text: &str) -> &str
    ensures read { read_of ends (chars result.now) ≡ after_bad_piece quote (read_of ends (chars text.now)) }
    ensures rest { IsRestOf ends (chars text.now) (chars result.now) }
    ensures following { IsTail text.now result.now }
{
    match split_first_char(ends, text) {
        Some(('\\', rest)) => after_escape(ends, quote, rest),
        Some((_, rest)) => rest,
        None => text,
    }
}

/// Returns `true` if a flaw of this kind is an invalid character or an invalid escape between the quotes of a literal.
pub fn is_flaw_of_unit(kind: FlawKind) -> bool
    ensures { result ≡ is_flaw_of_unit kind }
{
    matches!(
        kind,
        FlawKind::UnknownEscape
            | FlawKind::NoUnicode
            | FlawKind::NoHexDigit
            | FlawKind::NoBrace
            | FlawKind::EmptyBraces
            | FlawKind::TooManyDigits
            | FlawKind::HexEscapeOutOfRange
            | FlawKind::UnicodeEscapeOutOfRange
            | FlawKind::Surrogate
            | FlawKind::Nul
            | FlawKind::NotAscii
            | FlawKind::MustEscape
            | FlawKind::CarriageReturn
    )
}

/// Returns `true` if a flaw of this kind is after the closing quote of a literal.
pub fn is_flaw_after_quote(kind: FlawKind) -> bool
    ensures { result ≡ is_flaw_after_quote kind }
{
    matches!(
        kind,
        FlawKind::TextAfterQuote
            | FlawKind::ExtraHash
            | FlawKind::UnderscoreSuffix
            | FlawKind::BadSuffix
    )
}
