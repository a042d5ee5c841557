//! Rewrites a literal of any kind by a style.

ghost use Rattle.std.specs.Prelude.{◌≡◌, ◌≤◌, ◌+◌, ◌*◌, ℕ, List, length, take, IfOk, IfErr, IsTrue};
ghost use Rattle.std.specs.Char.{is_ascii_digit};
ghost use Rattle.std.specs.Str.{chars, IsUtf8};
ghost use Rattle.rl_syntax.specs.Texts.{first_passes};
ghost use Rattle.rl_lenient.specs.Founds.{IsQuotedAt};
ghost use Rattle.rl_lenient.specs.Mirrors.OpenerAt.{found_opener, opener_at};
ghost use Rattle.rl_strict.specs.StrictShapes.{IsToken};
ghost use Rattle.rl_strict.specs.StrictFlaws.{ExplainsStrictly};
ghost use Rattle.rl_strict.specs.StrictRead.{IsStrictReading};
ghost use Rattle.rl_style.specs.Mirrors.{OpensAs};
ghost use Rattle.rl_style.specs.Rewriting.{Rewrites, growth, grown, room_for};

use crate::cooked::write_cooked;
use crate::numbers::write_number;
use crate::raw::write_raw;
use crate::style::Style;
use rl_lenient::Body;
use rl_lenient::digit_runs::begins_digit;
use rl_lenient::quoted_forms::{QuotedForm, split_opener};
use rl_strict::read_numbers::parse_number_token;
use rl_strict::{Flaw, LineEnds, Reading, explain, read};
use rl_syntax::Kind;
use rl_syntax::slice_writer::put_text;

/// Returns the byte offsets of the parts of a quoted literal, whose parse result is `reading`.
fn body_of(text: &str, form: QuotedForm, kind: Kind, reading: Reading) -> Body
    requires token { IsToken (chars text.now) }
    requires begins { OpensAs form kind (chars text.now) }
    requires reads { IsStrictReading text.now reading }
    ensures { IsQuotedAt kind text.now result }
{
    match reading {
        Reading::Text(_, body) => body,
        Reading::Unit(_, body, _) => body,
        _ => unreachable!(),
    }
}

/// Writes the new form of a quoted literal. `front` is the text before it, and `reading` its parse result.
fn write_quoted(
    front: &str,
    text: &str,
    form: QuotedForm,
    kind: Kind,
    reading: Reading,
    style: Style,
    out: &mut [u8],
) -> usize
    requires token { IsToken (chars text.now) }
    requires begins { OpensAs form kind (chars text.now) }
    requires reads { IsStrictReading text.now reading }
    requires room { grown style (length text.now) + 1 ≤ length out.old }
    ensures written { Rewrites style (chars front.now) (chars text.now) (chars (take result out.new)) }
    ensures utf8 { IsUtf8 (take result out.new) }
    ensures within { result ≤ grown style (length text.now) + 1 }
{
    let body = body_of(text, form, kind, reading);
    let inside = &text[body.lo..body.hi];
    let suffix = &text[body.suffix_at..];
    match form {
        QuotedForm::Raw => write_raw(front, text, kind, style, inside, suffix, out),
        _ => write_cooked(text, kind, style, inside, suffix, out),
    }
}

/// Writes the new form of a number. Returns the number of written bytes, or the flaw if the text isn't a number.
fn rewrite_number(text: &str, style: Style, out: &mut [u8]) -> Result<usize, Flaw>
    requires digit { IsTrue (first_passes is_ascii_digit (chars text.now)) }
    requires room { 2 * length text.now + 1 ≤ length out.old }
    ensures written { IfOk result (λ n. (front : List ℕ) → Rewrites style front (chars text.now) (chars (take n out.new))) }
    ensures utf8 { IfOk result (λ n. IsUtf8 (take n out.new)) }
    ensures within { IfOk result (λ n. n ≤ 2 * length text.now + 1) }
    ensures flaw { IfErr result (ExplainsStrictly (chars text.now)) }
{
    match parse_number_token(text) {
        Ok(number) => Ok(write_number(text, number, style, out)),
        Err(_) => match explain(text) {
            Some(flaw) => Err(flaw),
            None => unreachable!(),
        },
    }
}

/// Returns a factor for the length of the buffer of [`rewrite_within`]. The new text of the literal `text` has at most this many bytes
/// for each byte of `text`, and one more byte.
pub fn growth(style: Style, text: &str) -> usize
    ensures { result ≡ growth style (chars text.now) }
{
    if begins_digit(text) {
        2
    } else if style.hidden {
        4
    } else {
        1
    }
}

/// Writes the literal token `text`, rewritten by `style`, to the start of `out`, as [`rewrite_into`] does. But `out` may be shorter: it
/// must only be longer than `text` times [`growth`].
///
/// # Errors
///
/// Returns the flaw of [`explain`](rl_strict::explain) if `text` isn't a literal token.
pub fn rewrite_within(front: &str, text: &str, style: Style, out: &mut [u8]) -> Result<usize, Flaw>
    requires { room_for style text.now ≤ length out.old }
    ensures written { IfOk result
        (λ n. Rewrites style (chars front.now) (chars text.now) (chars (take n out.new))) }
    ensures utf8 { IfOk result (λ n. IsUtf8 (take n out.new)) }
    ensures within { IfOk result (λ n. n ≤ room_for style text.now) }
    ensures flaw { IfErr result (ExplainsStrictly (chars text.now)) }
{
    if begins_digit(text) {
        return rewrite_number(text, style, out);
    }
    let reading = read(text, LineEnds::Text, false)?;
    match split_opener(text) {
        Some((form, kind, _)) => Ok(write_quoted(front, text, form, kind, reading, style, out)),
        None => Ok(put_text(out, 0, text)),
    }
}

/// Writes the literal token `text`, rewritten by `style`, to the start of `out`, and returns the number of written bytes.
/// This number is at most four times the length of `text`, plus one.
///
/// The literal's kind, value and suffix don't change, except that [`Style::float_zero`] adds a zero to `1.`. Each part for
/// which the style has no rule is unchanged.
///
/// `front` is the text before the literal, and may be empty. Only its last character matters: after a hash or a dot, a raw
/// string keeps its `r`.
///
/// # Errors
///
/// Returns the flaw of [`explain`](rl_strict::explain) if `text` isn't a literal token.
pub fn rewrite_into(front: &str, text: &str, style: Style, out: &mut [u8]) -> Result<usize, Flaw>
    requires { 4 * length text.now + 1 ≤ length out.old }
    ensures written { IfOk result
        (λ n. Rewrites style (chars front.now) (chars text.now) (chars (take n out.new))) }
    ensures utf8 { IfOk result (λ n. IsUtf8 (take n out.new)) }
    ensures within { IfOk result (λ n. n ≤ 4 * length text.now + 1) }
    ensures flaw { IfErr result (ExplainsStrictly (chars text.now)) }
{
    rewrite_within(front, text, style, out)
}
