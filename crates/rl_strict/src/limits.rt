//! Integers above 128 bits, which are literal tokens without a value.

ghost use Rattle.std.specs.Prelude.{◌≡◌, ◌↔◌, Bool, IfNone, IfSome, IsTrue, drop};
ghost use Rattle.std.specs.Str.{chars, IsCharBoundary};
ghost use Rattle.rl_syntax.specs.Reading.{IsPast};
ghost use Rattle.rl_strict.specs.Limits.{ExplainsLimit, IsFloatBySuffix, IsLimitFlaw, suffix_at_if_above_128_bits};
ghost use Rattle.rl_strict.specs.LineEnds.{read_of};
ghost use Rattle.rl_strict.specs.Readings.{HasValueOf, IsReadingOf, IsTokenIf};
ghost use Rattle.rl_strict.specs.declared.line_ends.LineEnds.{LineEnds as AnyEnds};

use crate::flaws::{Flaw, FlawKind, make_flaw};
use crate::line_ends::LineEnds;
use crate::strict_reading::{Reading, flaw_with_offsets};
use rl_lenient::digit_runs::{after_minus, begins_digit, skip_digits};

/// Returns the byte offset of the suffix if `reading` is an integer above 128 bits, and `None` otherwise.
pub fn suffix_at_if_above_128_bits(reading: Reading) -> Option<usize>
    ensures { result ≡ suffix_at_if_above_128_bits reading }
{
    match reading {
        Reading::Integer(None, suffix_at) => Some(suffix_at),
        _ => None,
    }
}

/// Returns `true` if Rust reads the text as a float because of its suffix: decimal digits, optionally after a minus, and `f32`
/// or `f64`.
///
/// A float because of its suffix may be above 128 bits, as in rustc: `340282366920938463463374607431768211456f64` is valid.
pub fn is_float_by_suffix(text: &str) -> bool
    ensures { IsTrue result ↔ IsFloatBySuffix (chars text.now) }
{
    let number = after_minus(text);
    if begins_digit(number) {
        matches!(skip_digits(number).rest, "f32" | "f64")
    } else {
        false
    }
}

/// Returns the flaw of an integer above 128 bits, whose suffix begins at the byte offset `suffix_at`. The text to show for
/// the flaw begins at the start of `text`.
pub fn flaw_above_128_bits(text: &str, suffix_at: usize) -> Flaw
    requires boundary { IsCharBoundary text.now suffix_at }
    requires past { (past : IsPast (chars text.now)) × (past.suffix ≡ chars (drop suffix_at text.now)) }
    ensures { IsLimitFlaw (chars text.now) result }
{
    let found = make_flaw(FlawKind::TooLarge, &text[suffix_at..]).with_piece(text);
    flaw_with_offsets(LineEnds::Text, found, text)
}

/// Returns the flaw of `text` if `reading`, its parse result, is an integer above 128 bits that its suffix doesn't make a
/// float.
pub fn flaw_if_above_128_bits(text: &str, reading: Reading) -> Option<Flaw>
    requires { (ends : AnyEnds) × (signed : Bool) × IsReadingOf ends signed text.now reading
        × IsTokenIf signed (read_of ends (chars text.now)) }
    ensures none { IfNone result ((ends : AnyEnds) (signed : Bool) → IsReadingOf ends signed text.now reading
        → IsTokenIf signed (read_of ends (chars text.now)) → HasValueOf ends (chars text.now)) }
    ensures some { IfSome result (ExplainsLimit (chars text.now)) }
{
    match suffix_at_if_above_128_bits(reading) {
        Some(suffix_at) => {
            if is_float_by_suffix(text) {
                None
            } else {
                Some(flaw_above_128_bits(text, suffix_at))
            }
        }
        None => None,
    }
}
