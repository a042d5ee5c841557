//! A flaw, and the range of text to show for it.

ghost use Rattle.std.specs.Prelude.{◌≡◌, ◌≤◌, ◌+◌, drop, length};
ghost use Rattle.std.specs.Str.{chars};
ghost use Rattle.rl_strict.specs.LineEnds.{read_of};
ghost use Rattle.rl_flaws.specs.BadPieces.{after_bad_piece, is_flaw_of_unit};
ghost use Rattle.rl_flaws.specs.Flawed.{EndsWhere, ReadsFrom};

use crate::piece_ends::{after_bad_piece, is_flaw_of_unit};
use rl_strict::flaws::FlawAt;
use rl_strict::strict_reading::skip_first_char;
use rl_strict::{Flaw, LineEnds};

/// A flaw, and the end of its piece: the range of text to show for the flaw.
#[derive(Clone, Copy, PartialEq, Eq, Debug)]
pub struct InvalidPiece {
    /// The flaw. Its piece begins at the byte offset `flaw.from`.
    pub flaw: Flaw,
    /// The byte offset after the piece. For an invalid escape or character, it is the byte offset where parsing
    /// continues. For any other flaw, it is the flaw's `hi`.
    pub end: usize,
}

/// Returns the byte offset after the flaw's piece. The text `piece` begins with this piece.
pub fn end_of(ends: LineEnds, len: usize, quote: char, flaw: Flaw, piece: &str) -> usize
    requires { length piece.now ≤ len }
    ensures { EndsWhere (is_flaw_of_unit flaw.kind) (ReadsFrom ends len (chars piece.now)
        (after_bad_piece quote (read_of ends (chars piece.now)))) flaw.hi result }
{
    if is_flaw_of_unit(flaw.kind) {
        len - after_bad_piece(ends, quote, piece).len()
    } else {
        flaw.hi
    }
}

/// Converts a flaw that was found inside a literal to byte offsets. The input text has `len` bytes. `found` has ends of the
/// input text in place of byte offsets.
pub fn invalid_piece_with_offsets(
    ends: LineEnds,
    len: usize,
    quote: char,
    found: FlawAt<'_>,
) -> InvalidPiece
    requires piece { length found.piece.now ≤ len }
    requires rest { length found.rest.now ≤ len }
    ensures kind { result.flaw.kind ≡ found.entry.kind }
    ensures from { result.flaw.from + length found.entry.piece.now ≡ len }
    ensures lo { result.flaw.lo + length found.entry.rest.now ≡ len }
    ensures hi { ReadsFrom ends len (chars found.entry.rest.now) (drop 1 (read_of ends (chars found.entry.rest.now)))
        result.flaw.hi }
    ensures end { EndsWhere (is_flaw_of_unit result.flaw.kind) (ReadsFrom ends len (chars found.entry.piece.now)
        (after_bad_piece quote (read_of ends (chars found.entry.piece.now)))) result.flaw.hi result.end }
{
    let flaw = Flaw {
        kind: found.kind,
        from: len - found.piece.len(),
        lo: len - found.rest.len(),
        hi: len - skip_first_char(ends, found.rest).len(),
    };
    InvalidPiece {
        flaw,
        end: end_of(ends, len, quote, flaw, found.piece),
    }
}
