//! Functions that write the digits of a number in a base, with or without underscores.

ghost use Rattle.std.specs.Prelude.{◌≡◌, ◌+◌, ◌/◌, ◌%◌, ◌^◌, ◌++◌, ◌<◌, ◌≤◌, length, reverse, take};
ghost use Rattle.std.specs.Fmt.{digit_glyph};
ghost use Rattle.rl_writing.specs.Integers.{is_digit_group_end, group_size, grouped, numeral};

use rl_syntax::slice_writer::put_byte;

/// Returns the digit of the value `value` as an ASCII byte. A letter is in upper case if `upper` is `true`.
fn digit(value: u8, upper: bool) -> u8
    requires { value < 16 }
    ensures { result ≡ digit_glyph upper value }
{
    if value < 10 {
        b'0' + value
    } else if upper {
        b'A' + (value - 10)
    } else {
        b'a' + (value - 10)
    }
}

/// Returns the quotient and the remainder of `number / by`. A number of 64 bits is divided as a `u64`, which takes a
/// fraction of the time.
fn divided(number: u128, by: u8) -> (u128, u8)
    requires { 0 < by }
    ensures quotient { result.0 ≡ number / by }
    ensures rest { result.1 ≡ number % by }
{
    match u64::try_from(number) {
        Ok(short) => {
            let by = u64::from(by);
            (u128::from(short / by), (short % by) as u8)
        }
        Err(_) => {
            let by = u128::from(by);
            (number / by, (number % by) as u8)
        }
    }
}

/// Writes the digits of `value` in the base `radix` to the start of `room`, the last digit first, and returns the number of
/// digits. The value must fit as many bits as `room` has bytes.
pub fn put_digits_reversed(value: u128, radix: u8, upper: bool, room: &mut [u8]) -> usize
    requires low { 2 ≤ radix }
    requires high { radix ≤ 16 }
    requires some { 0 < length room.old }
    requires room { value < 2 ^ length room.old }
    ensures digits { reverse (take result room.new) ≡ numeral radix upper value }
    ensures within { result ≤ length room.new }
    ensures len { length room.new ≡ length room.old }
{
    let mut left = value;
    let mut count = 0;
    loop {
        let (rest, last) = divided(left, radix);
        count = put_byte(room, count, digit(last, upper));
        left = rest;
        if left == 0 {
            return count;
        }
    }
}

/// Returns the size of the groups in which `count` digits are written: 0, which means no groups, if `count` is below
/// `least`, and otherwise `group`.
pub fn digit_group_size(group: usize, least: usize, count: usize) -> usize
    ensures { result ≡ group_size group least count }
{
    if count < least { 0 } else { group }
}

/// Returns `true` if an underscore separates `digits` digits from the next digit of a number that is written in groups of
/// `group` digits. The digits are counted from the end of the number at which the groups begin, for an integer from the last
/// digit. If `digits` or `group` is 0, the result is `false`.
pub fn is_digit_group_end(group: usize, digits: usize) -> bool
    ensures { result ≡ is_digit_group_end group digits }
{
    group > 0 && digits > 0 && digits % group == 0
}

/// Writes digits after the first `at` bytes of the slice `out`, with an underscore between groups of `group` digits,
/// and returns the offset after the written bytes. `digits` contains the last digit first. With `group` 0, no
/// underscores are written.
pub fn put_grouped(out: &mut [u8], at: usize, digits: &[u8], group: usize) -> usize
    requires { at + length (grouped group (reverse digits.now)) ≤ length out.old }
    ensures end { result ≡ at + length (grouped group (reverse digits.now)) }
    ensures bytes { take result out.new ≡ take at out.old ++ grouped group (reverse digits.now) }
    ensures len { length out.new ≡ length out.old }
{
    let mut end = at;
    let mut left = digits.len();
    while left > 0 {
        left -= 1;
        end = put_byte(out, end, digits[left]);
        if is_digit_group_end(group, left) {
            end = put_byte(out, end, b'_');
        }
    }
    end
}
