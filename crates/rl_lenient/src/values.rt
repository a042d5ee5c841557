//! Functions that return the value of an integer literal with its sign, decode a string literal, and test for a suffix.

ghost use Rattle.std.specs.Prelude.{◌≡◌, ◌≢◌, ◌≤◌, ◌<◌, ◌^◌, [], ℕ, List, IfSome, IfNone, MatchBool, length, take, if◌then◌else◌};
ghost use Rattle.std.specs.Str.{chars, IsUtf8};
ghost use Rattle.rl_syntax.specs.declared.kind.Kind.TheVariants.{Int, Str};
ghost use Rattle.rl_syntax.specs.Reading.{Characters, Reads};
ghost use Rattle.rl_syntax.specs.Numbers.{NoSign, Minus};
ghost use Rattle.rl_lenient.specs.Founds.{IsFound, IsBodyWithin, body_in, suffix_in};
ghost use Rattle.rl_lenient.specs.Values.{HasIntegerValue, HasNoValue, IsPastSigned, signed};

use crate::contents::decode_str_into;
use crate::digit_runs::is_negative;
use crate::found::Found;
use rl_syntax::Kind;
use rl_syntax::slice_writer::put;

/// The greatest `i128`, as a `u128`.
const GREATEST: u128 = 0x7fff_ffff_ffff_ffff_ffff_ffff_ffff_ffff;

/// The absolute value of the least `i128`.
const LEAST: u128 = 0x8000_0000_0000_0000_0000_0000_0000_0000;

/// Returns the signed number with the absolute value `magnitude`, which must be below 2^127.
fn number(magnitude: u128, negative: bool) -> i128
    requires { magnitude < 2 ^ 127 }
    ensures { result ≡ signed (if negative then Minus else NoSign) magnitude }
{
    let number = magnitude as i128;
    if negative { 0 - number } else { number }
}

/// Returns the signed number with the absolute value `magnitude`, or `None` if it doesn't fit an `i128`.
fn number_of(magnitude: u128, negative: bool) -> Option<i128>
    ensures some { IfSome result
        (λ value. value ≡ signed (if negative then Minus else NoSign) magnitude) }
    ensures none { IfNone result (IsPastSigned (if negative then Minus else NoSign) magnitude) }
{
    if magnitude <= GREATEST {
        Some(number(magnitude, negative))
    } else if negative && magnitude == LEAST {
        Some(i128::MIN)
    } else {
        None
    }
}

/// Returns the value of a parsed integer literal, negative if `negative` is `true`. Returns `None` if the literal isn't
/// an integer, or its value doesn't fit an `i128`.
pub fn number_found(found: &Found, negative: bool) -> Option<i128>
    ensures kind { IfSome result (λ value. found.now.kind ≡ Int) }
    ensures some { IfSome result (λ value. value
        ≡ signed (if negative then Minus else NoSign) found.now.magnitude) }
    ensures none { IfNone result (found.now.kind ≡ Int
        → IsPastSigned (if negative then Minus else NoSign) found.now.magnitude) }
{
    if found.kind != Kind::Int {
        return None;
    }
    number_of(found.magnitude, negative)
}

impl Found {
    /// Returns `true` if the literal has a suffix. `text` must be the literal's text, which was parsed.
    pub fn has_suffix(&self, text: &str) -> bool
        requires { IsBodyWithin text.now self.now.body }
        ensures { MatchBool result (chars (suffix_in text.now self.now.body) ≢ [])
            (chars (suffix_in text.now self.now.body) ≡ []) }
    {
        !self.suffix_in(text).is_empty()
    }

    /// Decodes a string literal, writes its value to the start of `out`, and returns the value's length in bytes. The
    /// length is at most that of the literal's body. `text` must be the literal's text, which was parsed.
    pub fn decode_str_into(&self, text: &str, out: &mut [u8]) -> usize
        requires found { IsFound text.now self.now }
        requires kind { self.now.kind ≡ Str }
        requires room { length (body_in text.now self.now.body) ≤ length out.old }
        ensures reads { Reads (chars text.now) Str (Characters (chars (take result out.new)))
            (chars (suffix_in text.now self.now.body)) }
        ensures utf8 { IsUtf8 (take result out.new) }
        ensures within { result ≤ length (body_in text.now self.now.body) }
        ensures len { length out.new ≡ length out.old }
    {
        let body = self.body_in(text);
        if self.body.plain {
            put(out, 0, body.as_bytes())
        } else {
            decode_str_into(body, out)
        }
    }

    /// Returns the value of an integer literal with its sign, whatever its suffix. Returns `None` for any other
    /// literal, and for an integer that doesn't fit an `i128`. `text` must be the literal's text, which was parsed.
    pub fn signed(&self, text: &str) -> Option<i128>
        requires { IsFound text.now self.now }
        ensures some { IfSome result
            (HasIntegerValue (chars text.now) (chars (suffix_in text.now self.now.body))) }
        ensures none { IfNone result ((suffix : List ℕ) → HasNoValue (chars text.now) suffix) }
    {
        number_found(self, is_negative(text))
    }
}
