//! Parses a quoted literal of Rust's grammar in one pass, in a separate text or in a file. The result is the range of its valid
//! content and its suffix, or its flaw.

ghost use Rattle.std.specs.Prelude.{◌≡◌, ◌≢◌, ◌≤◌, ◌<◌, ◌∷◌, ◌++◌, ℕ, List, [], None, Some, MatchOption, IfErr, IfOk, IfSome, IsTrue, length, replicate};
ghost use Rattle.std.specs.List.{list_all};
ghost use Rattle.std.specs.Str.{chars};
ghost use Rattle.rl_syntax.specs.Texts.{IsTail, code};
ghost use Rattle.rl_syntax.specs.Quoted.{is_plain, is_single, is_string};
ghost use Rattle.rl_lenient.specs.Mirrors.UnitAt.{piece_value, unit_at};
ghost use Rattle.rl_lenient.specs.StrictUnits.{BeginsStrictUnits};
ghost use Rattle.rl_strict.specs.Mirrors.StrictAt.{is_strict_suffix, unit_rest};
ghost use Rattle.rl_strict.specs.StrictShapes.{ClosesForm};
ghost use Rattle.rl_strict.specs.LineEnds.{IsGoodUnit, IsOfStretch, IsRestOf, StopsAsRead, read_of};
ghost use Rattle.rl_strict.specs.Mirrors.StrictFlawAt.{raw_stop};

use crate::flaws::{FlawAt, FlawKind, flaw_at_end_or_before, make_flaw};
use crate::line_ends::LineEnds;
use crate::read_quoted::{parse_strict_char_or_escape, suffix_flaw};
use crate::strict::{after_closer, is_raw_character, skip_raw_characters};
use crate::strict_quoted_flaws::{raw_character_flaw, unit_flaw};
use crate::walk_units::{skip_units, split_first_char};
use rl_lenient::quoted_forms::{QuotedForm, strip_quote};
use rl_lenient::units::{Piece, split_plain};
use rl_syntax::Kind;
use rl_syntax::text::{before, split_char};

/// The end of a quoted literal's valid content, and the literal's suffix or flaw.
#[derive(Clone, Copy)]
pub struct QuotedContent<'t> {
    /// The text from the closing quote on, or from the first character or escape on that isn't allowed.
    pub closing: &'t str,
    /// Whether the text before `closing` is known to contain no escapes. Outside files, a text without escapes is the literal's
    /// value.
    pub plain: bool,
    pub end: Result<&'t str, FlawAt<'t>>,
}

/// Parses the text after the opening quote of a string with escapes.
#[inline(always)]
pub fn parse_cooked_content(ends: LineEnds, kind: Kind, text: &str) -> QuotedContent<'_>
    requires { IsTrue (is_string kind) }
    ensures run { BeginsStrictUnits kind (read_of ends (chars text.now)) (read_of ends (chars result.closing.now)) }
    ensures rest { IsRestOf ends (chars text.now) (chars result.closing.now) }
    ensures stuck { unit_rest kind (read_of ends (chars result.closing.now)) ≡ None }
    ensures at { IfErr result.end (IsOfStretch QuotedForm.Cooked result.closing.now) }
    ensures suffix { IfOk result.end (λ suffix. IsTail result.closing.now suffix.now) }
    ensures quote { IfOk result.end (λ suffix. chars result.closing.now ≡ code "\"" ∷ chars suffix.now) }
    ensures strict { IfOk result.end (λ suffix. IsTrue (is_strict_suffix (read_of ends (chars suffix.now)))) }
    ensures plain { IfOk result.end (λ suffix. (body : List ℕ) → chars text.now ≡ body ++ chars result.closing.now
        → result.plain ≡ list_all (is_plain kind) body) }
    ensures closes { IfOk result.end (λ suffix. ClosesForm QuotedForm.Cooked kind (read_of ends (chars text.now))) }
    ensures stops { IfErr result.end (λ f. StopsAsRead ends QuotedForm.Cooked kind f.kind (read_of ends (chars text.now))
        (chars text.now) (chars f.piece.now) (chars f.rest.now)) }
{
    let (_, following) = split_plain(kind, text);
    if let Some(suffix) = strip_quote(Kind::Str, following) {
        return match suffix_flaw(QuotedForm::Cooked, following, suffix) {
            None => QuotedContent {
                closing: following,
                plain: true,
                end: Ok(suffix),
            },
            Some(flaw) => QuotedContent {
                closing: following,
                plain: true,
                end: Err(flaw),
            },
        };
    }
    let closing = skip_units(ends, kind, following);
    match strip_quote(Kind::Str, closing) {
        Some(suffix) => match suffix_flaw(QuotedForm::Cooked, closing, suffix) {
            None => QuotedContent {
                closing,
                plain: false,
                end: Ok(suffix),
            },
            Some(flaw) => QuotedContent {
                closing,
                plain: false,
                end: Err(flaw),
            },
        },
        None => QuotedContent {
            closing,
            plain: false,
            end: Err(unit_flaw(kind, closing).with_piece(closing)),
        },
    }
}

/// The end of a character or byte literal's content, and either the content and the suffix, or the flaw.
#[derive(Clone, Copy)]
pub struct UnitStretch<'t> {
    /// The text from the closing quote on, or all of the text after the opening quote if the content isn't one character or
    /// escape.
    pub closing: &'t str,
    pub end: Result<(Piece, &'t str), FlawAt<'t>>,
}

/// Parses the text after the opening quote of a character or byte literal.
#[inline(always)]
pub fn parse_single_unit(ends: LineEnds, kind: Kind, text: &str) -> UnitStretch<'_>
    requires { IsTrue (is_single kind) }
    ensures rest { IsRestOf ends (chars text.now) (chars result.closing.now) }
    ensures good { IsGoodUnit kind (chars text.now) (chars result.closing.now) }
    ensures at { IfErr result.end (IsOfStretch QuotedForm.Single result.closing.now) }
    ensures suffix { IfOk result.end (λ p. IsTail result.closing.now p.1.now) }
    ensures unit { IfOk result.end (λ p. unit_at kind (chars text.now) ≡ Some (piece_value kind p.0, chars result.closing.now)) }
    ensures left { IfOk result.end (λ p. unit_rest kind (chars text.now) ≡ Some (chars result.closing.now)) }
    ensures quote { IfOk result.end (λ p. chars result.closing.now ≡ code "'" ∷ chars p.1.now) }
    ensures closes { IfOk result.end (λ p. ClosesForm QuotedForm.Single kind (read_of ends (chars text.now))) }
    ensures whole { IfOk result.end (λ p. ClosesForm QuotedForm.Single kind (chars text.now)) }
    ensures stops { IfErr result.end (λ f. StopsAsRead ends QuotedForm.Single kind f.kind (read_of ends (chars text.now))
        (chars text.now) (chars f.piece.now) (chars f.rest.now)) }
{
    let Some((unit, closing)) = parse_strict_char_or_escape(kind, text) else {
        return UnitStretch {
            closing: text,
            end: Err(unit_flaw(kind, text).with_piece(text)),
        };
    };
    match strip_quote(Kind::Char, closing) {
        Some(suffix) => match suffix_flaw(QuotedForm::Single, closing, suffix) {
            None => UnitStretch {
                closing,
                end: Ok((unit, suffix)),
            },
            Some(flaw) => UnitStretch {
                closing,
                end: Err(flaw),
            },
        },
        None => UnitStretch {
            closing: text,
            end: Err(flaw_at_end_or_before(
                FlawKind::Unclosed,
                FlawKind::TwoCharacters,
                closing,
            ).with_piece(text)),
        },
    }
}

/// Parses the text after the opening quote of a raw string. `hashes` are the hashes before the opening quote.
#[inline(always)]
pub fn parse_raw_content<'t>(
    ends: LineEnds,
    kind: Kind,
    hashes: &str,
    text: &'t str,
) -> QuotedContent<'t>
    requires string { IsTrue (is_string kind) }
    requires hashes { (n : ℕ) × (n ≤ 255) × (chars hashes.now ≡ replicate n (code "#")) }
    ensures stop { read_of ends (chars result.closing.now) ≡ raw_stop kind (chars hashes.now) (read_of ends (chars text.now)) }
    ensures rest { IsRestOf ends (chars text.now) (chars result.closing.now) }
    ensures at { IfErr result.end (IsOfStretch QuotedForm.Raw result.closing.now) }
    ensures plain { IsTrue result.plain }
    ensures quote { IfOk result.end (λ suffix. read_of ends (chars result.closing.now)
        ≡ code "\"" ∷ (chars hashes.now ++ read_of ends (chars suffix.now))) }
    ensures suffix { IfOk result.end (λ suffix. IsTrue (is_strict_suffix (read_of ends (chars suffix.now)))) }
    ensures left { IfOk result.end (λ suffix. IsRestOf ends (chars result.closing.now) (chars suffix.now)) }
    ensures closes { IfOk result.end (λ suffix. ClosesForm QuotedForm.Raw kind
        (chars hashes.now ++ (code "\"" ∷ read_of ends (chars text.now)))) }
    ensures stops { IfErr result.end (λ f. StopsAsRead ends QuotedForm.Raw kind f.kind
        (chars hashes.now ++ (code "\"" ∷ read_of ends (chars text.now))) (chars text.now) (chars f.piece.now)
        (chars f.rest.now)) }
{
    let plain = true;
    let mut closing = skip_raw_characters(kind, text);
    while let Some((c, after)) = split_first_char(ends, closing) {
        if let Some(suffix) = after_closer(hashes, c, after) {
            return match suffix_flaw(QuotedForm::Raw, closing, suffix) {
                None => QuotedContent {
                    closing,
                    plain,
                    end: Ok(suffix),
                },
                Some(flaw) => QuotedContent {
                    closing,
                    plain,
                    end: Err(flaw),
                },
            };
        }
        if !is_raw_character(kind, c) {
            return QuotedContent {
                closing,
                plain,
                end: Err(make_flaw(raw_character_flaw(kind, c), closing)),
            };
        }
        closing = skip_raw_characters(kind, after);
    }
    QuotedContent {
        closing,
        plain,
        end: Err(make_flaw(FlawKind::Unclosed, closing)),
    }
}

/// Returns a raw string's hashes and the text after its opening quote, or its flaw. `inside` is the text that begins with the
/// hashes.
#[inline(always)]
pub fn split_raw_opening(kind: Kind, inside: &str) -> Result<(&str, &str), FlawAt<'_>>
    requires { IsTrue (is_string kind) }
    ensures hashes { IfOk result (λ p. (n : ℕ) × (n ≤ 255) × (chars p.0.now ≡ replicate n (code "#"))) }
    ensures opened { IfOk result (λ p. chars inside.now ≡ chars p.0.now ++ (code "\"" ∷ chars p.1.now)) }
    ensures unopened { IfErr result (λ f. (n : ℕ) (opened : List ℕ) → n ≤ 255
        → chars inside.now ≢ replicate n (code "#") ++ (code "\"" ∷ opened)) }
    ensures stops { IfErr result (λ f. (ends : LineEnds) → StopsAsRead ends QuotedForm.Raw kind f.kind
        (read_of ends (chars inside.now)) (chars inside.now) (chars f.piece.now) (chars f.rest.now)) }
{
    let mut rest = inside;
    let mut count = 0_u32;
    while let Some((first, after)) = split_char(rest) {
        if first == '"' {
            return Ok((before(inside, rest), after));
        }
        if first != '#' {
            return Err(make_flaw(FlawKind::NoQuote, rest));
        }
        if count == 255 {
            return Err(make_flaw(FlawKind::TooManyHashes, rest).with_piece(inside));
        }
        rest = after;
        count += 1;
    }
    Err(make_flaw(FlawKind::UnexpectedEnd, rest))
}
