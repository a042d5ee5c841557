//! Searches in bytes, sixteen at a time: for the end of a sequence of identifier characters or white space, for the
//! next byte that may begin a literal, and for a line feed.

ghost use Rattle.std.specs.Prelude.{◌≡◌, ◌||◌, ◌+◌, ◌<◌, ◌≤◌, length, drop, map, slice_index};
ghost use Rattle.std.specs.List.{prefix_len};
ghost use Rattle.std.specs.Simd.Lanes.{chunk, mask_l};
ghost use Rattle.rl_syntax.specs.Scanning.{is_one_of, is_other, line_ends};
ghost use Rattle.rl_syntax.specs.Mirrors.RunsAt.{is_run_byte, is_ascii_id_continue, ends_run};
ghost use Rattle.rl_syntax.specs.Mirrors.RunsAt.{has_bit};
ghost use Rattle.rl_syntax.specs.Mirrors.UnlikelyAt.{is_likely_mark, is_likely_head, may_begin_at, around, literal_free_prefix_len, byte_before};

use crate::scan::{Marks, stop_by_eight};
use std::simd::prelude::*;

/// The number of bytes that a search tests at once.
const LANES: usize = 16;

/// Returns a bit for each of the sixteen bytes from the offset `at` on. If `WORD` is `true`, the bit of each byte that
/// isn't an ASCII identifier character is set. If `WORD` is `false`, the bit of each byte that isn't ASCII white space
/// is set.
#[inline(always)]
fn ends_among<const WORD: bool>(bytes: &[u8], at: usize) -> u64
    requires { at + LANES ≤ length bytes.now }
    ensures { result ≡ mask_l (map (ends_run WORD) (chunk at LANES bytes.now)) }
{
    let lanes = u8x16::from_slice(&bytes[at..]);
    if WORD {
        let letters = (lanes | u8x16::splat(32)) - u8x16::splat(b'a');
        let digits = lanes - u8x16::splat(b'0');
        let no_letters = letters.simd_ge(u8x16::splat(26));
        let no_digits = digits.simd_ge(u8x16::splat(10));
        let no_underscores = lanes.simd_ne(u8x16::splat(b'_'));
        (no_letters & no_digits & no_underscores).to_bitmask()
    } else {
        let controls = lanes - u8x16::splat(9);
        let no_controls = controls.simd_ge(u8x16::splat(5));
        let no_spaces = lanes.simd_ne(u8x16::splat(b' '));
        (no_controls & no_spaces).to_bitmask()
    }
}

/// Returns `true` if the byte is an ASCII character that continues an identifier.
#[inline(always)]
pub fn is_ascii_id_continue(byte: u8) -> bool
    ensures { result ≡ is_ascii_id_continue byte }
{
    byte.is_ascii_alphanumeric() || byte == b'_'
}

/// If `WORD` is `true`, returns whether `byte` is an ASCII identifier character. If `WORD` is `false`, returns whether
/// `byte` is ASCII white space.
#[inline(always)]
fn is_run_byte<const WORD: bool>(byte: u8) -> bool
    ensures { result ≡ is_run_byte WORD byte }
{
    if WORD {
        is_ascii_id_continue(byte)
    } else {
        byte == b' ' || 8 < byte && byte < 14
    }
}

/// Returns the byte offset where the sequence of bytes that begins at `from` ends, tested byte by byte. If `WORD` is
/// `true`, the sequence consists of ASCII identifier characters. If `WORD` is `false`, the sequence consists of ASCII
/// white space.
#[inline(never)]
fn run_end_by_byte<const WORD: bool>(bytes: &[u8], from: usize) -> usize
    requires { from ≤ length bytes.now }
    ensures { result ≡ from + prefix_len (is_run_byte WORD) (drop from bytes.now) }
{
    let mut at = from;
    while at < bytes.len() && is_run_byte::<WORD>(bytes[at]) {
        at += 1;
    }
    at
}

/// Returns the byte offset where the sequence of bytes that begins at `from` ends. If `WORD` is `true`, the sequence
/// consists of ASCII identifier characters. If `WORD` is `false`, the sequence consists of ASCII white space. Sixteen
/// bytes are tested at once while sixteen are left.
#[inline(never)]
fn run_end<const WORD: bool>(bytes: &[u8], from: usize) -> usize
    requires { from ≤ length bytes.now }
    ensures { result ≡ from + prefix_len (is_run_byte WORD) (drop from bytes.now) }
{
    let mut at = from;
    while bytes.len() - at >= LANES {
        let found = ends_among::<WORD>(bytes, at);
        if found != 0 {
            return at + found.trailing_zeros() as usize;
        }
        at += LANES;
    }
    run_end_by_byte::<WORD>(bytes, at)
}

/// Returns the number of leading bytes of one class: ASCII identifier characters if `WORD` is `true`, ASCII white
/// space if `WORD` is `false`.
///
/// The first sixteen bytes are tested at once, and most sequences end there.
#[inline(always)]
pub(crate) fn run_len<const WORD: bool>(bytes: &[u8]) -> usize
    ensures { result ≡ prefix_len (is_run_byte WORD) bytes.now }
{
    if bytes.len() >= LANES {
        let found = ends_among::<WORD>(bytes, 0);
        if found != 0 {
            return found.trailing_zeros() as usize;
        }
    }
    run_end::<WORD>(bytes, 0)
}

/// Whether `byte` may begin a literal or a comment, if no identifier character precedes it: a quote, a slash, a digit,
/// a non-ASCII byte, or the first letter of a literal's prefix, of `true` or of `false`.
#[inline(always)]
fn is_likely(byte: u8) -> bool
    ensures { result ≡ (is_likely_mark byte || is_likely_head byte) }
{
    if byte < 64 {
        has_bit(0x03ff_8084_0000_0000, byte)
    } else if byte < 128 {
        has_bit(0x0014_004c_0000_0000, byte - 64)
    } else {
        true
    }
}

/// Returns `true` if bit number `place` of `bits` is set. Bit 0 is the lowest.
#[inline(always)]
pub fn has_bit(bits: u64, place: u8) -> bool
    requires { place < 64 }
    ensures { result ≡ has_bit bits place }
{
    (bits >> place) & 1 == 1
}

/// Returns a bit for each of the sixteen bytes from the offset `at` on, set where a literal or a comment may begin.
///
/// A letter's or a digit's bit is set only if no ASCII identifier character precedes it. A letter's bit is set only if
/// the next byte continues a literal's prefix, `true` or `false`. The slice has at least one byte before the sixteen,
/// and at least one after them.
#[inline(always)]
fn likely_among(bytes: &[u8], at: usize) -> u64
    requires { (0 < at) × (at + LANES < length bytes.now) }
    ensures { result ≡ mask_l (map may_begin_at (chunk at LANES (around 0 bytes.now))) }
{
    let near = &bytes[at - 1..at + LANES + 1];
    let before = u8x16::from_slice(near);
    let lanes = u8x16::from_slice(&near[1..]);
    let next = u8x16::from_slice(&near[2..]);
    let quotes = next.simd_eq(u8x16::splat(b'"'));
    let letters = next.simd_eq(u8x16::splat(b'r'));
    let words = lanes.simd_eq(u8x16::splat(b't')) & letters
        | lanes.simd_eq(u8x16::splat(b'f')) & next.simd_eq(u8x16::splat(b'a'));
    let raw = lanes.simd_eq(u8x16::splat(b'r')) & (quotes | next.simd_eq(u8x16::splat(b'#')));
    let c_strings = lanes.simd_eq(u8x16::splat(b'c')) & (quotes | letters);
    let bytes = lanes.simd_eq(u8x16::splat(b'b'))
        & (quotes | letters | next.simd_eq(u8x16::splat(b'\'')));
    let digits = u8x16::splat(9).simd_ge(lanes - u8x16::splat(b'0'));
    let no_letters = ((before | u8x16::splat(32)) - u8x16::splat(b'a')).simd_ge(u8x16::splat(26));
    let no_digits = (before - u8x16::splat(b'0')).simd_ge(u8x16::splat(10));
    let no_words = no_letters & no_digits & before.simd_ne(u8x16::splat(b'_'));
    let marks = lanes.simd_eq(u8x16::splat(b'"'))
        | lanes.simd_eq(u8x16::splat(b'\''))
        | lanes.simd_eq(u8x16::splat(b'/'))
        | lanes.simd_ge(u8x16::splat(128));
    (marks | no_words & (digits | bytes | c_strings | raw | words)).to_bitmask()
}

/// Returns a number of leading bytes that can be skipped in a search for literals: neither a literal nor a comment
/// begins at one of them. Sixteen bytes are tested at once. The search stops where sixteen bytes or fewer are left.
#[inline(never)]
pub fn literal_free_prefix_len(bytes: &[u8]) -> usize
    ensures { result ≤ literal_free_prefix_len bytes.now }
{
    if bytes.is_empty() || is_likely(bytes[0]) {
        return 0;
    }
    let mut at = 1;
    while bytes.len() - at > LANES {
        let found = likely_among(bytes, at);
        if found != 0 {
            return at + found.trailing_zeros() as usize;
        }
        at += LANES;
    }
    at
}

/// Returns a bit for each of the sixteen bytes from the offset `at` on, set where the byte is a line feed.
#[inline(always)]
fn line_ends_among(bytes: &[u8], at: usize) -> u64
    requires { at + LANES ≤ length bytes.now }
    ensures { result ≡ mask_l (map (is_one_of line_ends) (chunk at LANES bytes.now)) }
{
    u8x16::from_slice(&bytes[at..])
        .simd_eq(u8x16::splat(b'\n'))
        .to_bitmask()
}

/// Returns the number of bytes before the first line feed, or the number of all bytes if no byte is a line feed.
/// Sixteen bytes are tested at once.
#[inline(never)]
pub fn line_len(bytes: &[u8]) -> usize
    ensures { result ≡ prefix_len (is_other line_ends) bytes.now }
{
    let mut at = 0;
    while bytes.len() - at >= LANES {
        let found = line_ends_among(bytes, at);
        if found != 0 {
            return at + found.trailing_zeros() as usize;
        }
        at += LANES;
    }
    stop_by_eight::<false>(Marks::from_two_bytes(b'\n', b'\n'), bytes, at)
}

/// Returns the byte at the offset `at`, or 0 if `at` isn't below the length.
#[inline(always)]
pub fn byte_at(bytes: &[u8], at: usize) -> u8
    ensures { result ≡ slice_index bytes.now at }
{
    if at < bytes.len() { bytes[at] } else { 0 }
}

/// Returns the byte before the offset `at`, or 0 if `at` is 0.
#[inline(always)]
pub fn byte_before(bytes: &[u8], at: usize) -> u8
    requires { at ≤ length bytes.now }
    ensures { result ≡ byte_before bytes.now at }
{
    if at == 0 { 0 } else { bytes[at - 1] }
}
