//! Rewrites the digits of numbers in groups, with underscores between the groups.

ghost use Rattle.std.specs.Prelude.{◌≡◌, ◌≤◌, ◌+◌, ◌*◌, ◌++◌, if◌then◌else◌, [], codes, length, not, ◌==◌, take, encode_utf8, encode_utf8_all, IsTrue};
ghost use Rattle.std.specs.List.{flat_map, list_all};
ghost use Rattle.std.specs.Str.{chars};
ghost use Rattle.rl_syntax.specs.Texts.{code};
ghost use Rattle.rl_syntax.specs.Spelling.{without_underscores};
ghost use Rattle.rl_style.specs.Cases.{number_character};
ghost use Rattle.rl_style.specs.Groups.{ends, in_groups, ending, least_by, regrouped, size_by, base_group};

use crate::characters::{Manner, begins_base_letter, put_character, put_numeral};
use crate::style::{DigitGroups, Style};
use rl_syntax::slice_writer::put_byte;
use rl_syntax::text::split_char;
use rl_writing::{digit_group_size, is_digit_group_end};

/// Returns the number of digits in a group, for numbers of the base `base`.
fn base_group(groups: DigitGroups, base: u32) -> usize
    ensures { result ≡ base_group groups base }
{
    match base {
        2 => groups.binary,
        8 => groups.octal,
        16 => groups.hexadecimal,
        _ => groups.decimal,
    }
}

/// Returns the number of digits in a group, for a number of the base `base` with the suffix `suffix`. 0 means that the number's
/// digit groups stay unchanged.
pub(crate) fn group_size(style: Style, base: u32, suffix: &str) -> usize
    ensures { result ≡ size_by style.digit_groups base (chars suffix.now) }
{
    match style.digit_groups {
        Some(groups) if !begins_base_letter(suffix) => base_group(groups, base),
        _ => 0,
    }
}

/// Returns the smallest number of digits that the style divides into groups.
fn least_digits(style: Style) -> usize
    ensures { result ≡ least_by style.digit_groups }
{
    match style.digit_groups {
        Some(groups) => groups.least,
        None => 0,
    }
}

/// Whether the style writes an underscore after a digit. The sequence has `count` digits, and `left` of them follow the
/// digit. Groups are counted from the first digit if `from_first` is true, and from the last one otherwise.
fn ends(from_first: bool, size: usize, count: usize, left: usize) -> bool
    requires { left ≤ count }
    ensures { result ≡ ends from_first size count left }
{
    if from_first {
        left > 0 && is_digit_group_end(size, count - left)
    } else {
        is_digit_group_end(size, left)
    }
}

/// Returns the number of digits in a sequence of digits and underscores.
fn count_digits(run: &str) -> usize
    ensures digits { result ≡ length (without_underscores (chars run.now)) }
    ensures within { result ≤ length run.now }
{
    let mut count = 0;
    let mut rest = run;
    while let Some((c, after)) = split_char(rest) {
        if c != '_' {
            count += 1;
        }
        rest = after;
    }
    count
}

/// Writes the new form of a digit. If `ends` is true, the digit's group ends, and an underscore is written after the digit.
fn put_digit(out: &mut [u8], at: usize, manner: Manner, digit: char, ends: bool) -> usize
    requires { at + 2 * length (encode_utf8 digit) ≤ length out.old }
    ensures end { result ≤ at + 2 * length (encode_utf8 digit) }
    ensures bytes { take result out.new ≡ take at out.old
        ++ encode_utf8_all (number_character manner.style manner.drops manner.hex digit
        ++ (if ends then codes "_" else [])) }
    ensures len { length out.new ≡ length out.old }
{
    let end = put_character(out, at, manner, digit);
    if ends {
        return put_byte(out, end, b'_');
    }
    end
}

/// Writes a sequence of digits and underscores with its digits in groups. Underscores at its end are kept, unless the style
/// drops them.
fn put_grouped(out: &mut [u8], at: usize, manner: Manner, from_first: bool, run: &str) -> usize
    requires room { at + 2 * length run.now ≤ length out.old }
    requires no_plus { IsTrue (list_all (λ c. not (c == code "+")) (chars run.now)) }
    ensures end { result ≤ at + 2 * length run.now }
    ensures bytes { let new = flat_map (number_character manner.style manner.drops manner.hex) (chars run.now) in
        take result out.new ≡ take at out.old
        ++ encode_utf8_all (in_groups from_first manner.size (least_by manner.style.digit_groups)
        (without_underscores new) ++ ending new) }
    ensures len { length out.new ≡ length out.old }
{
    let count = count_digits(run);
    let size = digit_group_size(manner.size, least_digits(manner.style), count);
    let mut left = count;
    let mut end = at;
    let mut rest = run;
    while let Some((c, after)) = split_char(rest) {
        if c != '_' {
            left -= 1;
            end = put_digit(out, end, manner, c, ends(from_first, size, count, left));
        } else if left == 0 {
            end = put_character(out, end, manner, '_');
        }
        rest = after;
    }
    end
}

/// Writes the new form of a sequence of digits and underscores, with its digits in groups unless the group size is 0.
pub(crate) fn put_digit_run(
    out: &mut [u8],
    at: usize,
    manner: Manner,
    from_first: bool,
    run: &str,
) -> usize
    requires room { at + 2 * length run.now ≤ length out.old }
    requires no_plus { IsTrue (list_all (λ c. not (c == code "+")) (chars run.now)) }
    ensures end { result ≤ at + 2 * length run.now }
    ensures bytes { take result out.new ≡ take at out.old
        ++ encode_utf8_all (regrouped from_first manner.size (least_by manner.style.digit_groups)
        (flat_map (number_character manner.style manner.drops manner.hex) (chars run.now))) }
    ensures len { length out.new ≡ length out.old }
{
    if manner.size == 0 {
        return put_numeral(out, at, manner, run);
    }
    put_grouped(out, at, manner, from_first, run)
}
