//! A function that returns the range of a quoted literal's text that encodes a range of the literal's decoded value.

ghost use Rattle.std.specs.Str.{chars};
ghost use Rattle.rl_lenient.specs.Founds.{IsQuotedAt};
ghost use Rattle.rl_cursors.specs.Ranges.{IsRangeOf};

use crate::segments::Segments;
use rl_lenient::Body;
use rl_syntax::Kind;

/// Returns the byte range of a quoted literal's text that encodes the bytes from `lo` up to `hi` of its decoded value.
/// In `"\x41b"`, the range from 1 up to 6 encodes the value's bytes from 0 up to 2.
///
/// A byte of a plain character encodes itself, and an escape as a whole encodes its value. The range begins where the
/// range of the byte `lo` begins, and ends where the range of the last byte, `hi - 1`, ends. An escaped line end after
/// the last byte isn't included. If `lo` isn't below `hi`, the result is empty, and begins where the range of the byte
/// `lo` begins.
///
/// `body` contains the byte offsets of the literal's parts, as [`parse_literal`](rl_lenient::parse_literal) returns them.
pub fn text_range(kind: Kind, text: &str, body: &Body, lo: usize, hi: usize) -> (usize, usize)
    requires { IsQuotedAt kind text.now body.now }
    ensures { IsRangeOf kind (chars text.now) lo hi result.0 result.1 }
{
    let first = Segments::of_body(kind, text, body).text_offset(lo);
    if lo < hi {
        (
            first,
            Segments::of_body(kind, text, body).text_offset_after(hi - 1),
        )
    } else {
        (first, first)
    }
}
