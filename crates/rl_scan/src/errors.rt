//! Finds the literals of a source that Rust rejects, and what ends the source early.

ghost use Rattle.std.specs.Prelude.{◌≡◌, ◌⊎◌, ◌<◌, ℕ, Bool, false, None, drop, length, slice_range, IfNone, IfOk, IfSome, IsTrue, OnOk};
ghost use Rattle.std.specs.Str.{chars, IsCharBoundary};
ghost use Rattle.rl_lexer.specs.Sources.{BeginsNoSource, IsLiteralText, PassesTo, TakesLiteralAfter, TakesSource, source_view};
ghost use Rattle.rl_strict.specs.FlawWords.{flaw_id};
ghost use Rattle.rl_strict.specs.Limits.{IsFloatBySuffix};
ghost use Rattle.rl_strict.specs.LineEnds.{read_of};
ghost use Rattle.rl_strict.specs.Readings.{IsReadingOf, IsTokenIf};
ghost use Rattle.rl_strict.specs.declared.line_ends.LineEnds.TheVariants.{File as InFile};
ghost use Rattle.rl_strict.specs.declared.strict_reading.Reading.TheVariants.{Integer};
ghost use Rattle.rl_flaws.specs.Before.{may_negate};
ghost use Rattle.rl_flaws.specs.TypeErrors.{HasType, HasTypeError};
ghost use Rattle.rl_scan.specs.Accepted.{Allows, AreAccepted, BeginsSuffix, HasAllowedPrefix, HasTypeBy, HasTypeErrorBy, IsAcceptedLiteral, IsIdOfTypeError, IsTyped, end_id, is_since_2021};

use crate::failure::Failure;
use crate::finding::{Fault, Finding, Place};
use crate::follower::Follower;
use crate::job::Job;
use crate::print::Page;
use rl_flaws::{
    Edition, Flaws, InvalidPiece, TypeError, first_reserving_edition, is_flaw_of_unit,
    may_be_negated, type_error_of,
};
use rl_lexer::{LexError, LexKind, SourceForm, SourceToken, Sources};
use rl_strict::limits::flaw_if_above_128_bits;
use rl_strict::{LineEnds, Reading, read};
use rl_syntax::Kind;
use rl_syntax::text::begins;
use std::alloc::Allocator;
use std::io::Write;

/// Whether both are true.
pub(crate) fn both(a: bool, b: bool) -> bool
    ensures { IsTrue result → IsTrue a × IsTrue b }
{
    a && b
}

/// Returns the next token, or the next literal if only literals are needed.
#[inline(always)]
pub(crate) fn next_token<'t>(tokens: &mut Sources<'t>, all: bool) -> Option<SourceToken<'t>>
    ensures next { IfSome result
        (λ token. TakesSource tokens.old token tokens.new ⊎ TakesLiteralAfter tokens.old token tokens.new) }
    ensures shorter { IfSome result (λ token. length tokens.new.rest < length tokens.old.rest) }
    ensures passed { IfNone result ((tokens.new ≡ tokens.old) ⊎ PassesTo tokens.old tokens.new) }
    ensures none { IfNone result (BeginsNoSource (chars tokens.new.rest)) }
{
    if all {
        tokens.next()
    } else {
        tokens.next_literal()
    }
}

/// Reports an error. Returns whether the call allows it.
fn report_fault<A: Allocator + Copy, W: Write>(
    page: &mut Page<'_, '_, A, W>,
    job: Job<'_>,
    place: Place,
    fault: Fault<'_>,
) -> Result<bool, Failure<A>>
    ensures { IfOk result (λ allowed. IsTrue allowed → Allows job.entry fault.entry.id.now) }
{
    let allowed = job.allows_error(fault.id);
    page.report_finding(place, Finding::Error(fault))?;
    Ok(allowed)
}

/// Returns the identifier of an error that isn't in a literal.
fn end_id(kind: LexKind) -> &'static str
    ensures { result.now ≡ end_id kind }
{
    match kind {
        LexKind::UnclosedQuote => "unclosed-quote",
        LexKind::UnclosedComment => "unclosed-comment",
        _ => "stray-character",
    }
}

/// Reports an error that isn't in a literal. `piece` is the text to show. Returns whether the call allows the error.
fn report_lex_error<A: Allocator + Copy, W: Write>(
    page: &mut Page<'_, '_, A, W>,
    job: Job<'_>,
    kind: LexKind,
    place: Place,
    piece: &str,
) -> Result<bool, Failure<A>>
    ensures { IfOk result (λ allowed. IsTrue allowed → Allows job.entry (end_id kind)) }
{
    let fault = Fault {
        id: end_id(kind),
        message: kind.message(),
        piece,
        literal: None,
    };
    report_fault(page, job, place, fault)
}

/// Reports the error that ends a source. Returns whether the call allows the error.
pub(crate) fn report_end<A: Allocator + Copy, W: Write>(
    page: &mut Page<'_, '_, A, W>,
    job: Job<'_>,
    error: LexError,
) -> Result<bool, Failure<A>>
    ensures { IfOk result (λ allowed. IsTrue allowed → Allows job.entry (end_id error.kind)) }
{
    let (lo, hi) = (error.at, error.at);
    report_lex_error(page, job, error.kind, Place { lo, hi }, "")
}

fn is_of_word(c: char) -> bool {
    c.is_ascii_alphanumeric() || c == '_'
}

/// Returns the byte offset where the reserved prefix of a literal begins. `before` is the text before the literal.
fn prefix_start(before: &str, text: &str) -> usize {
    let front = before.trim_end_matches('#');
    match first_reserving_edition(before, text) {
        Some(Edition::E2021) => front.trim_end_matches(is_of_word).len(),
        _ => front.len(),
    }
}

/// Returns the type error of a literal whose suffix is at the byte offset `suffix_at`. `before` is the text before the literal.
#[tactic(auto, using(rl_syntax::proofs::Rests::tail_drop))]
fn type_error_at(
    before: &str,
    text: &str,
    kind: Kind,
    magnitude: u128,
    suffix_at: usize,
) -> Option<TypeError>
    requires { IsCharBoundary text.now suffix_at }
    ensures none { IfNone result (HasType kind (chars text.now) magnitude (may_negate before.now) (drop suffix_at text.now)) }
    ensures some { IfSome result (λ error. HasTypeError error kind (chars text.now) magnitude (may_negate before.now) (drop suffix_at text.now)) }
{
    let (suffix, negated) = (&text[suffix_at..], may_be_negated(before));
    type_error_of(kind, text, magnitude, suffix, negated)
}

/// Whether a literal of the kind isn't a float and has no suffix: no text follows the byte offset `at`. Then it has a type.
#[inline(always)]
fn has_no_suffix(text: &str, kind: Kind, at: usize) -> bool
    ensures { IsTrue result → (magnitude : ℕ) (negated : Bool) → HasType kind (chars text.now) magnitude negated (drop at text.now) }
{
    at == text.len() && !matches!(kind, Kind::Float)
}

/// Whether a literal with the given parse result isn't a float and has no suffix. Then it has a type.
#[inline(always)]
fn is_bare(text: &str, reading: &Reading) -> bool
    ensures { IsTrue result → (negated : Bool) → HasTypeBy text.now negated reading.now }
{
    match reading {
        Reading::Text(kind, body) => has_no_suffix(text, *kind, body.suffix_at),
        Reading::Unit(kind, body, _) => has_no_suffix(text, *kind, body.suffix_at),
        Reading::Integer(Some(_), at) => has_no_suffix(text, Kind::Int, *at),
        _ => false,
    }
}

/// Returns the reason why Rust has no type for a literal. `before` is the text before the literal.
#[inline(always)]
fn type_error_in(before: &str, text: &str, reading: &Reading) -> Option<TypeError>
    requires limit { (at : ℕ) → reading.now ≡ Integer None at → IsFloatBySuffix (chars text.now) }
    requires begins { BeginsSuffix text.now reading.now }
    ensures none { IfNone result (HasTypeBy text.now (may_negate before.now) reading.now) }
    ensures some { IfSome result (λ error. HasTypeErrorBy error text.now (may_negate before.now) reading.now) }
{
    match reading {
        Reading::Text(kind, body) => type_error_at(before, text, *kind, 0, body.suffix_at),
        Reading::Unit(kind, body, _) => type_error_at(before, text, *kind, 0, body.suffix_at),
        Reading::Integer(Some(m), at) => type_error_at(before, text, Kind::Int, *m, *at),
        Reading::Float(at) => type_error_at(before, text, Kind::Float, 0, *at),
        Reading::Integer(None, _) | Reading::Truth(_) => None,
    }
}

/// Returns the range, the identifier and the message of the type error of a literal. `before` is the text before the literal.
fn type_words(
    before: &str,
    text: &str,
    reading: &Reading,
) -> Option<(Place, &'static str, &'static str)>
    requires reads { IsReadingOf InFile false text.now reading.now }
    requires token { IsTokenIf false (read_of InFile (chars text.now)) }
    ensures none { IfNone result (HasTypeBy text.now (may_negate before.now) reading.now) }
    ensures some { IfSome result (λ p. IsIdOfTypeError p.1.now text.now (may_negate before.now) reading.now) }
{
    if let Some(flaw) = flaw_if_above_128_bits(text, *reading) {
        let (lo, hi) = (flaw.lo, flaw.hi);
        return Some((Place { lo, hi }, flaw.kind.id(), flaw.kind.message()));
    }
    let (lo, hi) = (0, text.len());
    match type_error_in(before, text, reading) {
        Some(error) => Some((Place { lo, hi }, error.id(), error.message())),
        None => None,
    }
}

/// Reports that Rust has no type for a literal. Returns whether the literal is accepted.
#[inline(always)]
fn report_type<'t, A: Allocator + Copy, W: Write>(
    page: &mut Page<'_, '_, A, W>,
    follower: &mut Follower<'t>,
    job: Job<'_>,
    token: SourceToken<'t>,
    reading: &Reading,
) -> Result<bool, Failure<A>>
    requires reads { IsReadingOf InFile false token.text.now reading.now }
    requires token { IsTokenIf false (read_of InFile (chars token.text.now)) }
    ensures accepted { IfOk result (λ accepted. IsTrue accepted
        → IsTyped job.entry follower.old token.entry.lo token.entry.text.now reading.now) }
    ensures same { OnOk result (follower.new ≡ follower.old) }
{
    let Some(before) = follower.text_before(token.lo) else {
        return Ok(false);
    };
    let Some((place, id, message)) = type_words(before, token.text, reading) else {
        return Ok(true);
    };
    if job.follows && follower.is_in_call_at(token.lo) {
        return Ok(true);
    }
    let fault = Fault {
        id,
        message,
        piece: token.text,
        literal: Some(token.text),
    };
    report_fault(page, job, place.after(token.lo), fault)
}

/// Reports the reserved prefix of a literal. Returns whether the call allows it, or `None` if the literal has none.
#[inline(always)]
fn report_prefix<A: Allocator + Copy, W: Write>(
    page: &mut Page<'_, '_, A, W>,
    follower: &Follower<'_>,
    job: Job<'_>,
    token: SourceToken<'_>,
) -> Result<Option<bool>, Failure<A>>
    ensures { IfOk result (λ prefix. IfSome prefix (λ allowed. IsTrue allowed
        → HasAllowedPrefix job.entry (slice_range follower.now 0 token.entry.lo) token.entry.text.now)) }
{
    let source = page.source;
    // A reserved prefix ends with a word or a hash. Most literals follow neither.
    let last = source.as_bytes().get(token.lo.wrapping_sub(1));
    if !last.is_some_and(|b| matches!(*b, b'#' | b'_') || b.is_ascii_alphanumeric()) {
        return Ok(None);
    }
    let Some(before) = follower.text_before(token.lo) else {
        return Ok(Some(false));
    };
    if !job.edition.reserves(before, token.text) {
        return Ok(None);
    }
    let (lo, hi) = (prefix_start(before, token.text), token.hi);
    let piece = source.get(lo..hi).unwrap_or(token.text);
    let fault = Fault {
        id: "reserved-prefix",
        message: "reserved prefix",
        piece,
        literal: Some(piece),
    };
    let is_allowed = report_fault(page, job, Place { lo, hi }, fault)?;
    Ok(Some(is_allowed))
}

/// Reports a flaw of a literal. Returns whether the call allows the flaw.
fn report_flaw<A: Allocator + Copy, W: Write>(
    page: &mut Page<'_, '_, A, W>,
    job: Job<'_>,
    token: SourceToken<'_>,
    bad: InvalidPiece,
) -> Result<bool, Failure<A>>
    ensures { IfOk result (λ allowed. IsTrue allowed → Allows job.entry (flaw_id bad.flaw.kind)) }
{
    let (text, flaw) = (token.text, bad.flaw);
    let piece = if is_flaw_of_unit(flaw.kind) {
        text.get(flaw.from..bad.end).unwrap_or(text)
    } else {
        text
    };
    let (lo, hi) = (flaw.lo, flaw.hi);
    let fault = Fault {
        id: flaw.kind.id(),
        message: flaw.kind.message(),
        piece,
        literal: Some(text),
    };
    report_fault(page, job, Place { lo, hi }.after(token.lo), fault)
}

/// Reports the flaws of a literal that the cursor returns. Returns whether the call allows all of them.
fn report_later_flaws<A: Allocator + Copy, W: Write>(
    page: &mut Page<'_, '_, A, W>,
    job: Job<'_>,
    token: SourceToken<'_>,
    mut flaws: Flaws<'_>,
) -> Result<bool, Failure<A>> {
    let mut are_allowed = true;
    for _ in 0..u64::MAX {
        let Some(bad) = flaws.next() else {
            break;
        };
        are_allowed = both(report_flaw(page, job, token, bad)?, are_allowed);
    }
    Ok(are_allowed)
}

/// Whether the text may be several tokens before 2021: `c"a"` is an identifier and a string there, and `'r#a'` a lifetime and more.
fn is_literal_since_2021(text: &str) -> bool
    ensures { result ≡ is_since_2021 (chars text.now) }
{
    begins(text, "c\"") || begins(text, "cr") || begins(text, "'r#")
}

/// Reports the errors of a literal. Returns whether it is accepted.
#[inline(always)]
fn report_literal<'t, A: Allocator + Copy, W: Write>(
    page: &mut Page<'_, '_, A, W>,
    follower: &mut Follower<'t>,
    job: Job<'_>,
    token: SourceToken<'t>,
) -> Result<bool, Failure<A>>
    ensures accepted { IfOk result (λ accepted. IsTrue accepted
        → IsAcceptedLiteral job.entry follower.old token.entry.lo token.entry.text.now) }
    ensures same { OnOk result (follower.new ≡ follower.old) }
{
    if job.edition.year() < 2021 && is_literal_since_2021(token.text) {
        return Ok(true);
    }
    match read(token.text, LineEnds::File, false) {
        Ok(reading) => {
            if let Some(is_allowed) = report_prefix(page, follower, job, token)? {
                return Ok(is_allowed);
            }
            if job.any_suffix {
                return Ok(true);
            }
            if is_bare(token.text, &reading) {
                return Ok(true);
            }
            report_type(page, follower, job, token, &reading)
        }
        Err(flaw) => {
            let (first, later) = Flaws::after(token.text, LineEnds::File, flaw);
            let is_allowed = report_flaw(page, job, token, first)?;
            Ok(both(is_allowed, report_later_flaws(page, job, token, later)?))
        }
    }
}

/// Reports the errors of a token. Returns whether it is accepted.
fn report_token<'t, A: Allocator + Copy, W: Write>(
    page: &mut Page<'_, '_, A, W>,
    follower: &mut Follower<'t>,
    job: Job<'_>,
    token: SourceToken<'t>,
) -> Result<bool, Failure<A>>
    ensures accepted { IfOk result (λ accepted. IsTrue accepted
        → IsLiteralText (source_view token.entry.form) (chars token.entry.text.now)
        → IsAcceptedLiteral job.entry follower.old token.entry.lo token.entry.text.now) }
    ensures same { OnOk result (follower.new ≡ follower.old) }
{
    // Without `strays`, every token is a literal.
    if job.strays && !token.is_literal() {
        if !matches!(token.form, SourceForm::Stray) {
            return Ok(true);
        }
        let (kind, lo, hi) = (LexKind::StrayCharacter, token.lo, token.hi);
        return report_lex_error(page, job, kind, Place { lo, hi }, token.text);
    }
    report_literal(page, follower, job, token)
}

/// Reports the errors of a source. Returns whether all its literals are accepted.
pub(crate) fn report_errors<A: Allocator + Copy, W: Write>(
    page: &mut Page<'_, '_, A, W>,
    job: Job<'_>,
) -> Result<bool, Failure<A>>
    ensures { IfOk result (λ accepted. IsTrue accepted → AreAccepted job.entry page.old.source.now) }
{
    let mut tokens = Sources::new(page.source);
    let mut follower = Follower::new(page.source);
    let mut are_accepted = true;
    while let Some(token) = next_token(&mut tokens, job.strays) {
        let is_accepted = report_token(page, &mut follower, job, token)?;
        are_accepted = both(is_accepted, are_accepted);
    }
    match tokens.error() {
        Some(error) => Ok(both(report_end(page, job, error)?, are_accepted)),
        None => Ok(are_accepted),
    }
}
