//! Iterates over all flaws in the text of a literal.

ghost use Rattle.std.specs.Prelude.{◌≡◌, ◌&&◌, ◌<◌, [], false, not, IfSome};
ghost use Rattle.std.specs.Str.{chars};
ghost use Rattle.rl_syntax.specs.Quoted.{is_single, is_string};
ghost use Rattle.rl_strict.specs.Readings.{ExplainsOf};
ghost use Rattle.rl_flaws.specs.BadPieces.{is_flaw_after_quote, is_flaw_of_unit};
ghost use Rattle.rl_flaws.specs.declared.flaws.Left.TheVariants.{Inside, Closed, Nothing};
ghost use Rattle.rl_flaws.specs.Flawed.{AreFlawsOf, FlawsState, GivesFlaw, TakesFlaw, left_count};
ghost use Rattle.rl_flaws.specs.Left.{IsLeft, IsLeftAfter, IsSameLiteral, StaysOpen, state_of};
ghost use Rattle.rl_flaws.specs.PiecesLeft.{IsGoodLeft};

use crate::closings::closing_quote;
use crate::invalid_piece::{InvalidPiece, end_of, invalid_piece_with_offsets};
use crate::piece_ends::{after_bad_piece, is_flaw_after_quote, is_flaw_of_unit};
use crate::walks::{Opened, parse_quoted_content, split_opening_delimiter};
use rl_lenient::quoted_forms::QuotedForm;
use rl_strict::read_quoted::suffix_flaw;
use rl_strict::{Flaw, FlawKind, LineEnds};
use rl_syntax::Kind;
use rl_syntax::text::{before, without_first_char};
use std::marker::Model;

/// The part of a text that is still to be checked for flaws.
#[derive(Clone, Copy)]
pub enum Left<'t> {
    /// The text after a quoted literal's opening delimiter, or after an invalid character or escape inside the literal.
    Inside(Opened<'t>, &'t str),
    /// The text that begins at the closing quote of a character or byte literal, after a flaw before that quote.
    Closed(Kind, &'t str),
    /// Nothing: all of the text is checked.
    Nothing,
}

/// Returns the part of the text to check after a flaw of the kind `flaw`. The flaw was found in the text `inside`, and
/// `piece` is the end of `inside` that begins with the flaw's piece. After a flaw in a character or byte literal, the
/// returned part begins at the closing quote. If no quote closes the literal, nothing is left to check.
fn left_after<'t>(
    ends: LineEnds,
    opened: Opened<'t>,
    inside: &'t str,
    flaw: FlawKind,
    piece: &'t str,
) -> Left<'t>
    ensures { IsLeftAfter (is_string opened.entry.kind && is_flaw_of_unit flaw)
        (is_single opened.entry.kind && not (is_flaw_after_quote flaw)) ends opened.entry inside.now piece.now result }
{
    if opened.kind.is_string() && is_flaw_of_unit(flaw) {
        Left::Inside(opened, after_bad_piece(ends, opened.kind.quote(), piece))
    } else if matches!(opened.kind, Kind::Byte | Kind::Char) && !is_flaw_after_quote(flaw) {
        match closing_quote(ends, inside) {
            Some(closing) => Left::Closed(opened.kind, closing),
            None => Left::Nothing,
        }
    } else {
        Left::Nothing
    }
}

/// The result of one search for a flaw: the valid text before the flaw, the flaw, and the part of the text still to check.
#[derive(Clone, Copy)]
pub struct NextFlaw<'t> {
    /// The valid content of a quoted literal before the flaw or the closing delimiter.
    pub good: &'t str,
    /// The byte offset where `good` ends.
    pub end: usize,
    pub bad: Option<InvalidPiece>,
    pub left: Left<'t>,
}

/// Returns the next flaw inside a quoted literal, or after its closing quote.
pub fn next_flaw_inside<'t>(
    ends: LineEnds,
    len: usize,
    opened: Opened<'t>,
    rest: &'t str,
) -> NextFlaw<'t>
    requires { IsLeft len (Inside opened rest) }
    ensures gives { GivesFlaw (state_of ends len (Inside opened.entry rest.entry)) result.bad (state_of ends len result.left) }
    ensures less { IfSome result.bad (λ bad. left_count (state_of ends len result.left)
        < left_count (state_of ends len (Inside opened.entry rest.entry))) }
    ensures left { IsLeft len result.left }
    ensures same { StaysOpen opened.entry result.left }
    ensures good { IsGoodLeft ends len (Inside opened.entry rest.entry) result.good.now result.end }
{
    let stretch = parse_quoted_content(ends, opened, rest);
    let good = before(rest, stretch.closing);
    let end = len - stretch.closing.len();
    match stretch.end {
        Ok(_) => NextFlaw {
            good,
            end,
            bad: None,
            left: Left::Nothing,
        },
        Err(found) => NextFlaw {
            good,
            end,
            bad: Some(invalid_piece_with_offsets(ends, len, opened.kind.quote(), found)),
            left: left_after(ends, opened, rest, found.kind, found.piece),
        },
    }
}

/// Returns the flaw after a character or byte literal. `closing` is the text that begins with its closing quote.
fn judge_closed<'t>(ends: LineEnds, len: usize, kind: Kind, closing: &'t str) -> NextFlaw<'t>
    requires { IsLeft len (Closed kind closing) }
    ensures gives { GivesFlaw (state_of ends len (Closed kind closing.entry)) result.bad
        (state_of ends len result.left) }
    ensures left { result.left ≡ Nothing }
    ensures good { result.good.now ≡ [] }
{
    let suffix = without_first_char(closing);
    match suffix_flaw(QuotedForm::Single, closing, suffix) {
        None => NextFlaw {
            good: "",
            end: 0,
            bad: None,
            left: Left::Nothing,
        },
        Some(found) => NextFlaw {
            good: "",
            end: 0,
            bad: Some(invalid_piece_with_offsets(ends, len, '\'', found)),
            left: Left::Nothing,
        },
    }
}

/// Returns the next flaw in the part `left` of a text of `len` bytes.
pub fn next_flaw<'t>(ends: LineEnds, len: usize, left: Left<'t>) -> NextFlaw<'t>
    requires { IsLeft len left }
    ensures gives { GivesFlaw (state_of ends len left.entry) result.bad (state_of ends len result.left) }
    ensures less { IfSome result.bad (λ bad. left_count (state_of ends len result.left) < left_count (state_of ends len left.entry)) }
    ensures left { IsLeft len result.left }
    ensures same { IsSameLiteral left.entry result.left }
    ensures good { IsGoodLeft ends len left.entry result.good.now result.end }
{
    match left {
        Left::Inside(opened, rest) => next_flaw_inside(ends, len, opened, rest),
        Left::Closed(kind, closing) => judge_closed(ends, len, kind, closing),
        Left::Nothing => NextFlaw {
            good: "",
            end: 0,
            bad: None,
            left: Left::Nothing,
        },
    }
}

/// A cursor over the flaws in the text of a literal, after the first one. A valid literal token has no flaw. Nothing is
/// allocated.
///
/// The first flaw is the error that [`read`](rl_strict::read) returns with `signed = false`. After an invalid character or
/// escape in a string, the search continues inside the string. After a flaw before the closing quote of a character or byte
/// literal, only the suffix is checked. Any other flaw is the last one. Offsets are in bytes of the text as written. In a
/// file, where CR LF is read as LF, no offset is between the CR and the LF.
#[derive(Clone, Drop)]
pub struct Flaws<'t> {
    ends: LineEnds,
    len: usize,
    left: Left<'t>,
}

impl<'t> Model for Flaws<'t> {
    ghost use Rattle.rl_flaws.specs.Flawed.{FlawsState};
    ghost use Rattle.rl_flaws.specs.Left.{IsLeft, state_of};

    ghost Value = { FlawsState };

    ghost view = { λ s. state_of s.ends s.len s.left };

    ghost invariant = { λ s. IsLeft s.len s.left };
}

impl<'t> Flaws<'t> {
    /// Returns the first flaw of `text` with its piece, and the cursor after this flaw. `flaw` is the error that
    /// [`read`](rl_strict::read) returned for `text` and `ends` with `signed = false`.
    pub fn after(text: &'t str, ends: LineEnds, flaw: Flaw) -> (InvalidPiece, Flaws<'t>)
        requires { ExplainsOf ends false (chars text.now) flaw }
        ensures flaw { result.0.flaw ≡ flaw }
        ensures first { (start : FlawsState) × AreFlawsOf ends text.now start × TakesFlaw start result.0 result.1 }
    {
        let len = text.len();
        match split_opening_delimiter(text) {
            Some((opened, inside)) => {
                let piece = &text[flaw.from..];
                let end = end_of(ends, len, opened.kind.quote(), flaw, piece);
                let left = left_after(ends, opened, inside, flaw.kind, piece);
                (InvalidPiece { flaw, end }, Flaws { ends, len, left })
            }
            None => {
                let left = Left::Nothing;
                (
                    InvalidPiece { flaw, end: flaw.hi },
                    Flaws { ends, len, left },
                )
            }
        }
    }

    /// Returns the next flaw and its piece, or `None` if the unchecked text has no flaw.
    pub fn next(&mut self) -> Option<InvalidPiece>
        ensures gives { GivesFlaw self.old result self.new }
        ensures less { IfSome result (λ bad. left_count self.new < left_count self.old) }
    {
        let judged = next_flaw(self.ends, self.len, self.left);
        self.left = judged.left;
        judged.bad
    }
}
