//! Returns the flaw of a text that isn't a literal token, or has no value.

ghost use Rattle.std.specs.Prelude.{IfNone, IfSome};
ghost use Rattle.std.specs.Str.{chars};
ghost use Rattle.rl_strict.specs.LineEnds.{read_of};
ghost use Rattle.rl_strict.specs.Readings.{ExplainsValueOf, HasValueOf, IsTokenIf};
ghost use Rattle.rl_strict.specs.StrictFlaws.{ExplainsStrictly};
ghost use Rattle.rl_strict.specs.StrictShapes.{IsToken};

use crate::flaws::Flaw;
use crate::limits::flaw_if_above_128_bits;
use crate::line_ends::LineEnds;
use crate::strict_reading::read;

/// Returns the flaw that explains why `text` isn't a literal token of Rust's grammar, or `None` if it is one.
///
/// The flaw is the error that [`read`] returns. A minus is a token of its own, so the text of a negative number has a flaw. An
/// integer above 128 bits is a token, and [`explain_missing_value`] reports it. Nothing is allocated.
///
/// # Example
///
/// ```
/// use rl_grammar::explain;
///
/// pub fn why_invalid(text: &str) -> Option<&'static str> {
///     Some(explain(text)?.kind.message())
/// }
/// // why_invalid("\"a\\q\"") == Some("unknown escape")
/// // why_invalid("0b102") == Some("invalid digit for this base")
/// // why_invalid("0b101") == None
/// ```
pub fn explain(text: &str) -> Option<Flaw>
    ensures none { IfNone result (IsToken (chars text.now)) }
    ensures some { IfSome result (ExplainsStrictly (chars text.now)) }
{
    match read(text, LineEnds::Text, false) {
        Ok(_) => None,
        Err(flaw) => Some(flaw),
    }
}

/// Returns the flaw that explains why `text` has no value in Rust, or `None` if it has one.
///
/// The flaw is the error that [`read`] returns, or [`flaw_above_128_bits`](crate::flaw_above_128_bits) for an integer above 128
/// bits. A text that is a float because of its suffix ([`is_float_by_suffix`](crate::is_float_by_suffix)) has a value. Nothing
/// is allocated.
///
/// # Example
///
/// ```
/// use rl_grammar::{LineEnds, explain_missing_value};
///
/// pub fn why_no_value(text: &str) -> Option<&'static str> {
///     let flaw = explain_missing_value(text, LineEnds::Text, true)?;
///     Some(flaw.kind.message())
/// }
/// // why_no_value("-340282366920938463463374607431768211456") == Some("integer above 128 bits")
/// // why_no_value("-1e") == Some("no digit in the exponent")
/// // why_no_value("-1") == None
/// ```
pub fn explain_missing_value(text: &str, ends: LineEnds, signed: bool) -> Option<Flaw>
    ensures token { IfNone result (IsTokenIf signed (read_of ends (chars text.now))) }
    ensures none { IfNone result (HasValueOf ends (chars text.now)) }
    ensures some { IfSome result (ExplainsValueOf ends signed (chars text.now)) }
{
    match read(text, ends, signed) {
        Ok(reading) => flaw_if_above_128_bits(text, reading),
        Err(flaw) => Some(flaw),
    }
}
