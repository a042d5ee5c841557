//! A function that writes an integer literal, and the style in which it writes.

ghost use Rattle.std.specs.Prelude.{◌≡◌, ◌≤◌, length, take};
ghost use Rattle.std.specs.Str.{chars, IsUtf8};
ghost use Rattle.rl_writing.specs.Integers.{suffix_text};
ghost use Rattle.rl_writing.specs.WrittenIntegers.{IsWrittenInteger};

use crate::base::Base;
use crate::numerals::{digit_group_size, put_digits_reversed, put_grouped};
use rl_syntax::IntegerType;
use rl_syntax::slice_writer::put_text;

/// The style of a written integer literal: its base, the case of its letters, and its underscores.
#[derive(Clone, Copy)]
pub struct IntegerStyle {
    /// The base of the digits, which also determines the literal's prefix, as `0x`.
    pub base: Base,
    /// `true` for upper-case letters as digits, as in `0xFF`, and `false` for lower-case ones, as in `0xff`.
    pub upper: bool,
    /// The number of digits between two underscores, counted from the last digit. With 3, one thousand is `1_000`. With
    /// 0, no underscores are written.
    pub group: usize,
    /// The fewest digits that get underscores. With 5 here and groups of 3, `1000` has no underscore, and `10_000` has
    /// one.
    pub least: usize,
}

/// Returns the name of the integer type as a suffix, or an empty string for `None`.
fn suffix_of(suffix: Option<IntegerType>) -> &'static str
    ensures text { result.now ≡ suffix_text suffix }
    ensures short { length result.now ≤ 5 }
{
    match suffix {
        Some(name) => name.name(),
        None => "",
    }
}

/// Writes the integer literal of `value` to the start of `out`, in the style and with the suffix, and returns its
/// length in bytes, at most 262. `out` must have room for 262.
///
/// The literal has no sign. Its grammar is that of the Rust Reference, section Integer literals.
pub fn write_integer_into(
    value: u128,
    style: IntegerStyle,
    suffix: Option<IntegerType>,
    out: &mut [u8],
) -> usize
    requires { 262 ≤ length out.old }
    ensures written { IsWrittenInteger value style suffix (chars (take result out.new)) }
    ensures utf8 { IsUtf8 (take result out.new) }
    ensures within { result ≤ 262 }
{
    let mut room = [0; 128];
    let count = put_digits_reversed(value, style.base.radix(), style.upper, &mut room);
    let at = put_text(out, 0, style.base.prefix());
    let size = digit_group_size(style.group, style.least, count);
    let at = put_grouped(out, at, &room[..count], size);
    put_text(out, at, suffix_of(suffix))
}
