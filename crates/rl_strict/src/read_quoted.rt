//! Parses a quoted literal of Rust's grammar. The result is the byte offsets of the literal's parts and its value, or its flaw.

ghost use Rattle.std.specs.Prelude.{◌≡◌, ◌≤◌, ◌∷◌, ◌++◌, ℕ, Some, false, option_map, replicate, IsTrue, IfOk, IfErr, IfSome};
ghost use Rattle.std.specs.Str.{chars};
ghost use Rattle.rl_syntax.specs.Texts.{code};
ghost use Rattle.rl_syntax.specs.Quoted.{is_single};
ghost use Rattle.rl_lenient.specs.Mirrors.UnitAt.{piece_value, unit_at as unit_found};
ghost use Rattle.rl_lenient.specs.Mirrors.OpenerAt.{found_opener, opener_at};
ghost use Rattle.rl_strict.specs.LineEnds.{read_of};
ghost use Rattle.rl_strict.specs.Mirrors.StrictAt.{unit_rest};
ghost use Rattle.rl_strict.specs.Mirrors.SuffixRead.{is_lone_underscore, suffix_read_at};
ghost use Rattle.rl_strict.specs.Mirrors.UnitFlawAt.{found_flaw};
ghost use Rattle.rl_strict.specs.Readings.{IsFlawOf, IsReadingOf, plain_of};
ghost use Rattle.rl_strict.specs.StrictFlawKinds.{suffix_piece};
ghost use Rattle.rl_strict.specs.StrictShapes.{IsToken};
ghost use Rattle.rl_strict.specs.declared.strict_reading.Reading.TheVariants.{Text, Unit};

use crate::flaws::{FlawAt, FlawKind, make_flaw};
use crate::line_ends::LineEnds;
use crate::read_numbers::skip_suffix;
use crate::strict_quoted_flaws::{begins_hash, quote_of};
use crate::strict_reading::Reading;
use crate::walk::{parse_cooked_content, parse_raw_content, parse_single_unit, split_raw_opening};
use rl_lenient::Body;
use rl_lenient::quoted_forms::{QuotedForm, part_offsets};
use rl_lenient::units::{Piece, is_allowed_in_single_quotes, parse_char_or_escape, piece_code};
use rl_syntax::Kind;
use rl_syntax::text::split_char;

/// Whether the text is a single underscore.
#[tactic(auto, using(rl_lenient::proofs::CutLemmas::some_text))]
fn is_lone_underscore(text: &str) -> bool
    ensures { result ≡ is_lone_underscore (chars text.now) }
{
    match split_char(text) {
        Some((first, rest)) => rest.is_empty() && first == '_',
        None => false,
    }
}

/// Returns the flaw after the closing quote, unless the text there is a suffix. `closing` is the text that begins with the
/// closing quote, and `suffix` is the text after the closing delimiter. `suffix` isn't empty.
#[inline(never)]
#[tactic(auto, unfolding(crate::specs::Mirrors::SuffixRead::suffix_read_at))]
fn some_suffix_flaw<'t>(form: QuotedForm, closing: &'t str, suffix: &'t str) -> Option<FlawAt<'t>>
    ensures flaw { option_map (λ f. found_flaw f.kind (chars f.rest.now)) result ≡ suffix_read_at form (chars suffix.now) }
    ensures piece { IfSome result (λ f. chars f.piece.now ≡ suffix_piece f.kind (chars closing.now) (chars suffix.now)) }
{
    if begins_hash(form, suffix) {
        return Some(make_flaw(FlawKind::ExtraHash, suffix).with_piece(closing));
    }
    let rest = skip_suffix(suffix);
    match split_char(rest) {
        None => {
            if is_lone_underscore(suffix) {
                Some(make_flaw(FlawKind::UnderscoreSuffix, rest).with_piece(suffix))
            } else {
                None
            }
        }
        Some((c, _)) if c == quote_of(form) => {
            Some(make_flaw(FlawKind::TextAfterQuote, rest).with_piece(closing))
        }
        Some(_) => Some(make_flaw(FlawKind::BadSuffix, rest).with_piece(suffix)),
    }
}

/// Returns the flaw after the closing quote, unless the text there is a suffix or empty. `closing` is the text that begins with
/// the closing quote, and `suffix` is the text after the closing delimiter. Most literals have no suffix, and return here at
/// once.
#[inline(always)]
#[tactic(auto, using(rl_lenient::proofs::CutLemmas::some_text), unfolding(crate::specs::Mirrors::SuffixRead::suffix_read_at, crate::specs::Mirrors::StrictFlawAt::suffix_rest))]
pub fn suffix_flaw<'t>(form: QuotedForm, closing: &'t str, suffix: &'t str) -> Option<FlawAt<'t>>
    ensures flaw { option_map (λ f. found_flaw f.kind (chars f.rest.now)) result ≡ suffix_read_at form (chars suffix.now) }
    ensures piece { IfSome result (λ f. chars f.piece.now ≡ suffix_piece f.kind (chars closing.now) (chars suffix.now)) }
{
    if suffix.is_empty() {
        return None;
    }
    some_suffix_flaw(form, closing, suffix)
}

/// Whether the body is known to be the literal's value, byte for byte. In a file the result is `false`, since a CR LF in the
/// body would be read as LF.
#[inline(always)]
fn plain_of(ends: LineEnds, plain: bool) -> bool
    ensures { result ≡ plain_of ends plain }
{
    match ends {
        LineEnds::Text => plain,
        LineEnds::File => false,
    }
}

/// Parses a string with escapes, and returns the byte offsets of its parts, or its flaw. `inside` is the text after the opening
/// quote.
#[inline(always)]
pub(crate) fn text_at<'t>(
    ends: LineEnds,
    kind: Kind,
    text: &'t str,
    inside: &'t str,
) -> Result<Body, FlawAt<'t>>
    requires { opener_at (chars text.now) ≡ found_opener QuotedForm.Cooked kind (chars inside.now) }
    ensures reads { IfOk result (λ body. IsReadingOf ends false text.now (Text kind body)) }
    ensures token { IfOk result (λ b. IsToken (read_of ends (chars text.now))) }
    ensures flaw { IfErr result (λ f. IsFlawOf ends false (chars text.now) f.kind (chars f.piece.now) (chars f.rest.now)) }
{
    let stretch = parse_cooked_content(ends, kind, inside);
    match stretch.end {
        Ok(suffix) => Ok(part_offsets(
            text,
            inside,
            stretch.closing,
            suffix,
            plain_of(ends, stretch.plain),
        )),
        Err(flaw) => Err(flaw),
    }
}

/// A parsed character or byte literal: the byte offsets of its parts, and its value.
#[derive(Clone, Copy)]
pub struct Single {
    pub body: Body,
    pub unit: u32,
}

/// Returns the character or escape at the beginning of `text`, and the text after the character or escape. `text` begins
/// after the opening quote of a character or byte literal.
#[inline(always)]
pub fn parse_strict_char_or_escape(kind: Kind, text: &str) -> Option<(Piece, &str)>
    requires { IsTrue (is_single kind) }
    ensures rest { option_map (λ p. chars p.1.now) result ≡ unit_rest kind (chars text.now) }
    ensures value { IfSome result (λ p. unit_found kind (chars text.now) ≡ Some (piece_value kind p.0, chars p.1.now)) }
{
    match split_char(text) {
        None => None,
        Some(('\\', _)) => parse_char_or_escape(kind, text),
        Some((first, _)) => {
            if is_allowed_in_single_quotes(first) {
                parse_char_or_escape(kind, text)
            } else {
                None
            }
        }
    }
}

/// Parses a character or byte literal, and returns the byte offsets of its parts and its value, or its flaw. `inside` is the
/// text after the opening quote.
#[inline(always)]
pub(crate) fn unit_at<'t>(
    ends: LineEnds,
    kind: Kind,
    text: &'t str,
    inside: &'t str,
) -> Result<Single, FlawAt<'t>>
    requires { opener_at (chars text.now) ≡ found_opener QuotedForm.Single kind (chars inside.now) }
    ensures reads { IfOk result (λ s. IsReadingOf ends false text.now (Unit kind s.body s.unit)) }
    ensures token { IfOk result (λ s. IsToken (read_of ends (chars text.now))) }
    ensures flaw { IfErr result (λ f. IsFlawOf ends false (chars text.now) f.kind (chars f.piece.now) (chars f.rest.now)) }
{
    let stretch = parse_single_unit(ends, kind, inside);
    match stretch.end {
        Ok((piece, suffix)) => Ok(Single {
            body: part_offsets(text, inside, stretch.closing, suffix, false),
            unit: piece_code(kind, piece),
        }),
        Err(flaw) => Err(flaw),
    }
}

/// Parses a raw string, and returns the byte offsets of its parts, or its flaw. `inside` is the text that begins with the
/// hashes.
fn raw_at<'t>(
    ends: LineEnds,
    kind: Kind,
    text: &'t str,
    inside: &'t str,
) -> Result<Body, FlawAt<'t>>
    requires { opener_at (chars text.now) ≡ found_opener QuotedForm.Raw kind (chars inside.now) }
    ensures reads { IfOk result (λ body. IsReadingOf ends false text.now (Text kind body)) }
    ensures token { IfOk result (λ b. IsToken (read_of ends (chars text.now))) }
    ensures flaw { IfErr result (λ f. IsFlawOf ends false (chars text.now) f.kind (chars f.piece.now) (chars f.rest.now)) }
{
    match split_raw_opening(kind, inside) {
        Ok((hashes, opened)) => {
            let stretch = parse_raw_content(ends, kind, hashes, opened);
            match stretch.end {
                Ok(suffix) => Ok(part_offsets(
                    text,
                    opened,
                    stretch.closing,
                    suffix,
                    plain_of(ends, stretch.plain),
                )),
                Err(flaw) => Err(flaw),
            }
        }
        Err(flaw) => Err(flaw),
    }
}

/// Parses a quoted literal of the form `form` and the kind `kind`, or returns its flaw. `inside` is the text after the opening
/// delimiter.
#[inline(always)]
pub(crate) fn quoted_at<'t>(
    ends: LineEnds,
    form: QuotedForm,
    kind: Kind,
    text: &'t str,
    inside: &'t str,
) -> Result<Reading, FlawAt<'t>>
    requires { opener_at (chars text.now) ≡ found_opener form kind (chars inside.now) }
    ensures reads { IfOk result (IsReadingOf ends false text.now) }
    ensures token { IfOk result (λ r. IsToken (read_of ends (chars text.now))) }
    ensures flaw { IfErr result (λ f. IsFlawOf ends false (chars text.now) f.kind (chars f.piece.now) (chars f.rest.now)) }
{
    match form {
        QuotedForm::Cooked => match text_at(ends, kind, text, inside) {
            Ok(body) => Ok(Reading::Text(kind, body)),
            Err(flaw) => Err(flaw),
        },
        QuotedForm::Single => match unit_at(ends, kind, text, inside) {
            Ok(single) => Ok(Reading::Unit(kind, single.body, single.unit)),
            Err(flaw) => Err(flaw),
        },
        QuotedForm::Raw => match raw_at(ends, kind, text, inside) {
            Ok(body) => Ok(Reading::Text(kind, body)),
            Err(flaw) => Err(flaw),
        },
    }
}
