//! Splits a quoted literal into its valid segments and its invalid pieces.

ghost use Rattle.std.specs.Prelude.{◌≡◌, ◌-◌, ◌⊎◌, length, IfSome, IfNone};
ghost use Rattle.std.specs.Str.{chars};
ghost use Rattle.rl_syntax.specs.declared.kind.Kind.{Kind as AnyKind};
ghost use Rattle.rl_strict.specs.StrictFlawKinds.{is_raw_form};

use crate::flaws::{Left, next_flaw, next_flaw_inside};
use crate::invalid_piece::InvalidPiece;
use crate::walks::split_opening_delimiter;
use rl_cursors::{Segment, split_segment};
use rl_lenient::quoted_forms::QuotedForm;
use rl_strict::LineEnds;
use rl_syntax::Kind;
use std::marker::Model;

/// A part of a quoted literal: a valid segment or an invalid piece.
#[derive(Clone, Copy)]
pub enum Piece<'t> {
    /// A valid segment: its range, and its decoded value.
    Good(Segment<'t>),
    /// A flaw, and the end of the piece to show for it.
    Bad(InvalidPiece),
}

/// Whether the form is a raw string.
fn is_raw(form: QuotedForm) -> bool
    ensures { result ≡ is_raw_form form }
{
    matches!(form, QuotedForm::Raw)
}

/// A cursor over the pieces of a quoted literal that may be invalid, from its opening delimiter on. The pieces are the valid
/// segments, and the flaws between them. In a file, CR LF is read as LF. Nothing is allocated.
///
/// The invalid pieces are all flaws that a [`Flaws`](crate::Flaws) cursor finds in the text. A valid literal token has only
/// valid pieces, its segments.
#[derive(Clone, Drop)]
pub struct Pieces<'t> {
    ends: LineEnds,
    kind: Kind,
    plain: bool,
    // The byte offset where `good`, the valid text before the next flaw, ends.
    end: usize,
    good: &'t str,
    bad: Option<InvalidPiece>,
    len: usize,
    left: Left<'t>,
}

impl<'t> Model for Pieces<'t> {
    ghost use Rattle.rl_flaws.specs.PiecesLeft.{ArePiecesLeft, pieces_of};
    ghost use Rattle.rl_flaws.specs.Pieces.{PiecesState};

    ghost Value = { PiecesState };

    ghost view = { λ s. pieces_of s.ends s.kind s.plain s.end s.good.now s.bad s.len s.left };

    ghost invariant = { λ s. ArePiecesLeft s.kind s.plain s.end s.good.now s.len s.left };
}

impl<'t> Pieces<'t> {
    ghost use Rattle.rl_flaws.specs.Flawed.{AreFlawsOf, FlawsState};
    ghost use Rattle.rl_flaws.specs.Looks.{OpensSingle, OpensString};
    ghost use Rattle.rl_flaws.specs.Pieces.{BeginsPart, GivesPiece};

    /// Creates a cursor over the pieces of `text`, or returns `None` if `text` doesn't begin as a quoted literal.
    pub fn of(text: &'t str, ends: LineEnds) -> Option<Pieces<'t>>
        ensures some { IfSome result (λ s. (flaws : FlawsState) × AreFlawsOf ends text.now flaws × BeginsPart flaws s) }
        ensures none { IfNone result ((kind : AnyKind) → OpensString kind (chars text.now) ⊎ OpensSingle kind (chars text.now) → ⊥) }
    {
        match split_opening_delimiter(text) {
            Some((opened, inside)) => {
                let judged = next_flaw_inside(ends, text.len(), opened, inside);
                Some(Pieces {
                    ends,
                    kind: opened.kind,
                    plain: is_raw(opened.form),
                    end: judged.end,
                    good: judged.good,
                    bad: judged.bad,
                    len: text.len(),
                    left: judged.left,
                })
            }
            None => None,
        }
    }

    /// Returns the next piece, or `None` at the end.
    pub fn next(&mut self) -> Option<Piece<'t>>
        ensures { GivesPiece self.old result self.new }
    {
        if !self.good.is_empty() {
            let lo = self.end - self.good.len();
            let (value, after) = split_segment(self.kind, self.plain, self.good);
            let hi = self.end - after.len();
            self.good = after;
            return Some(Piece::Good(Segment { lo, hi, value }));
        }
        let Some(bad) = self.bad else {
            return None;
        };
        let judged = next_flaw(self.ends, self.len, self.left);
        self.end = judged.end;
        self.good = judged.good;
        self.bad = judged.bad;
        self.left = judged.left;
        Some(Piece::Bad(bad))
    }
}
