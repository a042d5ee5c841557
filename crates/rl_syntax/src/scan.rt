//! Searches for the next delimiter in bytes: the first byte that is one of up to four given bytes. Eight, sixteen or
//! sixty-four bytes are tested at once.

ghost use Rattle.std.specs.Prelude.{◌≡◌, ◌+◌, ◌<◌, ◌≤◌, ◌++◌, length, drop, map, IfOk, IfErr, IfSome, IfNone, IsTrue, IsFalse};
ghost use Rattle.std.specs.List.{list_all, prefix_len};
ghost use Rattle.std.specs.Simd.Lanes.{chunk, mask_l};
ghost use Rattle.std.specs.Str.{chars};
ghost use Rattle.rl_syntax.specs.Texts.{first_passes, IsTail};
ghost use Rattle.rl_syntax.specs.Scanning.{is_ascii_other, is_other, AreAscii, IsNextMark};
ghost use Rattle.rl_syntax.specs.Mirrors.StopsAt.{goes_on, stops};

use crate::text::split_ascii;
use std::simd::prelude::*;

/// The delimiters that a search looks for, at most four bytes. A search for fewer delimiters repeats one of them. In a
/// search of a text, the delimiters must be ASCII.
#[derive(Clone, Copy)]
pub struct Marks {
    /// The first of the four bytes that a search looks for.
    pub first: u8,
    /// The second of the four bytes that a search looks for.
    pub second: u8,
    /// The third of the four bytes that a search looks for.
    pub third: u8,
    /// The fourth of the four bytes that a search looks for.
    pub fourth: u8,
}

impl Marks {
    /// Creates the delimiters for a search that looks for `first` and `second`.
    #[inline(always)]
    pub fn from_two_bytes(first: u8, second: u8) -> Marks
        ensures { result
            ≡ record { first = first; second = second; third = second; fourth = second } }
    {
        Marks {
            first,
            second,
            third: second,
            fourth: second,
        }
    }
}

/// Returns a bit for each of the `N` bytes from the offset `at` on. A bit is set where the byte is one of the
/// delimiters `marks`, and if `HIGH` is `true`, also where it is non-ASCII.
#[inline(always)]
fn stops_among<const HIGH: bool, const N: usize>(marks: Marks, bytes: &[u8], at: usize) -> u64
    requires { (N ≤ 64) × (at + N ≤ length bytes.now) }
    ensures { result ≡ mask_l (map (stops HIGH marks) (chunk at N bytes.now)) }
{
    let lanes = Simd::<u8, N>::from_slice(&bytes[at..]);
    let first = lanes.simd_eq(Simd::splat(marks.first));
    let second = lanes.simd_eq(Simd::splat(marks.second));
    let third = lanes.simd_eq(Simd::splat(marks.third));
    let fourth = lanes.simd_eq(Simd::splat(marks.fourth));
    let among = first | second | third | fourth;
    if HIGH {
        (lanes.simd_ge(Simd::splat(128)) | among).to_bitmask()
    } else {
        among.to_bitmask()
    }
}

/// Whether a search stops at `byte`, because it is one of the delimiters `marks`. If `HIGH` is `true`, a search stops
/// at each non-ASCII byte too.
#[inline(always)]
fn is_stop<const HIGH: bool>(marks: Marks, byte: u8) -> bool
    ensures { result ≡ stops HIGH marks byte }
{
    let is_mark = byte == marks.first
        || byte == marks.second
        || byte == marks.third
        || byte == marks.fourth;
    HIGH && byte >= 128 || is_mark
}

/// Returns the byte offset of the first delimiter at `from` or later, or the length of `bytes`. If `HIGH` is `true`, a
/// non-ASCII byte counts as a delimiter. Bytes are tested one by one.
fn stop_by_byte<const HIGH: bool>(marks: Marks, bytes: &[u8], from: usize) -> usize
    requires { from ≤ length bytes.now }
    ensures { result ≡ from + prefix_len (goes_on HIGH marks) (drop from bytes.now) }
{
    let mut at = from;
    while at < bytes.len() && !is_stop::<HIGH>(marks, bytes[at]) {
        at += 1;
    }
    at
}

/// Returns the byte offset of the first delimiter at `from` or later, tested `N` bytes at a time. If `HIGH` is `true`,
/// a non-ASCII byte counts as a delimiter.
///
/// # Errors
///
/// Returns an error if no delimiter was found while `N` bytes were left. The error is the offset from which fewer than
/// `N` bytes are left.
#[inline(always)]
fn stop_by<const HIGH: bool, const N: usize>(
    marks: Marks,
    bytes: &[u8],
    from: usize,
) -> Result<usize, usize>
    requires { (0 < N) × (N ≤ 64) × (from ≤ length bytes.now) }
    ensures stop { IfOk result
        (λ at. at ≡ from + prefix_len (goes_on HIGH marks) (drop from bytes.now)) }
    ensures left { IfErr result (λ at. (at ≤ length bytes.now)
        × (at + prefix_len (goes_on HIGH marks) (drop at bytes.now)
        ≡ from + prefix_len (goes_on HIGH marks) (drop from bytes.now))) }
{
    let mut at = from;
    while bytes.len() - at >= N {
        let found = stops_among::<HIGH, N>(marks, bytes, at);
        if found != 0 {
            return Ok(at + found.trailing_zeros() as usize);
        }
        at += N;
    }
    Err(at)
}

/// Returns the byte offset of the first delimiter at `from` or later, or the length of `bytes`. If `HIGH` is `true`, a
/// non-ASCII byte counts as a delimiter. Eight bytes are tested at once, and the last seven or fewer one by one.
#[inline(always)]
pub(crate) fn stop_by_eight<const HIGH: bool>(marks: Marks, bytes: &[u8], from: usize) -> usize
    requires { from ≤ length bytes.now }
    ensures { result ≡ from + prefix_len (goes_on HIGH marks) (drop from bytes.now) }
{
    match stop_by::<HIGH, 8>(marks, bytes, from) {
        Ok(at) => at,
        Err(from) => stop_by_byte::<HIGH>(marks, bytes, from),
    }
}

/// Returns the byte offset of the first delimiter at `from` or later, or the length of `bytes`. If `HIGH` is `true`, a
/// non-ASCII byte counts as a delimiter. Sixteen bytes are tested at once while sixteen are left.
#[inline(always)]
fn stop_by_sixteen<const HIGH: bool>(marks: Marks, bytes: &[u8], from: usize) -> usize
    requires { from ≤ length bytes.now }
    ensures { result ≡ from + prefix_len (goes_on HIGH marks) (drop from bytes.now) }
{
    match stop_by::<HIGH, 16>(marks, bytes, from) {
        Ok(at) => at,
        Err(from) => stop_by_eight::<HIGH>(marks, bytes, from),
    }
}

/// Returns the number of bytes before the first delimiter, or the number of all bytes if there is no delimiter. If
/// `HIGH` is `true`, a non-ASCII byte counts as a delimiter. Sixty-four bytes are tested at once while sixty-four are
/// left.
#[inline(never)]
fn stop_by_sixty_four<const HIGH: bool>(marks: Marks, bytes: &[u8]) -> usize
    ensures { result ≡ prefix_len (goes_on HIGH marks) bytes.now }
{
    match stop_by::<HIGH, 64>(marks, bytes, 0) {
        Ok(at) => at,
        Err(from) => stop_by_sixteen::<HIGH>(marks, bytes, from),
    }
}

/// The argument `BY_BYTE` of all searches. `tools/render` makes it `true` in code without optimization, where a vector
/// costs more than its bytes.
const UNOPTIMIZED: bool = false;

/// Returns the number of bytes before the first delimiter, or the number of all bytes if there is no delimiter. If
/// `HIGH` is `true`, a non-ASCII byte counts as a delimiter. If `BY_BYTE` is `true`, bytes are tested one by one. The
/// function is inlined, so for short texts `marks` is a constant in each caller.
#[inline(always)]
fn stop<const BY_BYTE: bool, const HIGH: bool>(marks: Marks, bytes: &[u8]) -> usize
    ensures { result ≡ prefix_len (goes_on HIGH marks) bytes.now }
{
    if BY_BYTE {
        return stop_by_byte::<HIGH>(marks, bytes, 0);
    }
    if bytes.len() < 16 {
        return stop_by_eight::<HIGH>(marks, bytes, 0);
    }
    stop_by_sixty_four::<HIGH>(marks, bytes)
}

/// Returns the number of bytes before the first delimiter, or the number of all bytes if there is no delimiter. The
/// function is inlined, so `marks` is a constant in each caller.
#[inline(always)]
pub fn len_before_mark(marks: Marks, bytes: &[u8]) -> usize
    ensures { result ≡ prefix_len (is_other marks) bytes.now }
{
    stop::<UNOPTIMIZED, false>(marks, bytes)
}

/// Returns the number of bytes before the first delimiter, or the number of all bytes if there is no delimiter. It is
/// for a delimiter that is probably near the start, as in the tokens of a source: sixteen bytes are tested at once,
/// where [`len_before_mark`] tests sixty-four.
#[inline(always)]
pub fn len_before_near_mark(marks: Marks, bytes: &[u8]) -> usize
    ensures { result ≡ prefix_len (is_other marks) bytes.now }
{
    stop_by_sixteen::<false>(marks, bytes, 0)
}

/// Returns the number of bytes before the first delimiter or non-ASCII byte, or the number of all bytes if there is
/// neither. The function is inlined, so `marks` is a constant in each caller.
#[inline(always)]
pub fn ascii_len_before_mark(marks: Marks, bytes: &[u8]) -> usize
    ensures { result ≡ prefix_len (is_ascii_other marks) bytes.now }
{
    stop::<UNOPTIMIZED, true>(marks, bytes)
}

/// Splits the text before its first delimiter. If it has no delimiter, the first part is the whole text.
#[inline(always)]
pub fn split_before_mark(marks: Marks, text: &str) -> (&str, &str)
    requires { AreAscii marks }
    ensures cut { chars text.now ≡ chars result.0.now ++ chars result.1.now }
    ensures others { IsTrue (list_all (is_other marks) (chars result.0.now)) }
    ensures stops { IsFalse (first_passes (is_other marks) (chars result.1.now)) }
    ensures following { IsTail text.now result.1.now }
    ensures shorter { length result.1.now ≤ length text.now }
{
    text.split_at(len_before_near_mark(marks, text.as_bytes()))
}

/// Returns the first delimiter in the text and the text after it, or `None` if the text has no delimiter.
#[inline(always)]
pub fn split_after_mark(marks: Marks, text: &str) -> Option<(u8, &str)>
    requires { AreAscii marks }
    ensures some { IfSome result (λ p. IsNextMark marks (chars text.now) p.0 (chars p.1.now)) }
    ensures none { IfNone result (IsTrue (list_all (is_other marks) (chars text.now))) }
    ensures following { IfSome result (λ p. IsTail text.now p.1.now) }
    ensures shorter { IfSome result (λ p. length p.1.now < length text.now) }
{
    let (_, from) = split_before_mark(marks, text);
    split_ascii(from)
}
