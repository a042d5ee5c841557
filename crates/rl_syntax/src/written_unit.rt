//! The written form of characters and bytes in literals: which ones are escaped, and how.

ghost use Rattle.std.specs.Prelude.{◌≡◌, ◌⊎◌, ◌<◌, ◌/◌, ◌%◌, ◌∷◌, [], ◌≤◌, length, IsTrue, if◌then◌else◌, IfSome, IfNone, encode_utf8_all};
ghost use Rattle.rl_syntax.specs.Texts.{code};
ghost use Rattle.rl_syntax.specs.Quoted.{Hex, Plain, decodes_to_chars, unit_text};
ghost use Rattle.rl_syntax.specs.Written.{own_quote, upper_digit, is_written_as_number, written_unit};

use crate::kind::Kind;

/// Returns the escape of the quote that ends a literal of the kind: `\'` or `\"`.
fn escaped_closer(kind: Kind) -> &'static str
    ensures { result.now ≡ unit_text (own_quote kind) }
{
    match kind {
        Kind::Byte | Kind::Char => "\\'",
        _ => "\\\"",
    }
}

/// Returns the escape of the character or byte `c` in a literal of the kind, if it is a backslash and one character, as
/// `\n`. Returns `None` for every other `c`.
#[inline(always)]
#[tactic(auto, unfolding(crate::specs::Written::written_unit))]
fn named_escape(kind: Kind, c: char) -> Option<&'static str>
    ensures some { IfSome result
        (λ text. text.now ≡ encode_utf8_all (unit_text (written_unit kind c))) }
    ensures two { IfSome result (λ text. length text.now ≡ 2) }
    ensures none { IfNone result (written_unit kind c
        ≡ (if is_written_as_number kind c then Hex (upper_digit (c / 16)) (upper_digit (c % 16)) else Plain c)) }
{
    match c {
        '\0' => Some("\\0"),
        '\t' => Some("\\t"),
        '\n' => Some("\\n"),
        '\r' => Some("\\r"),
        '\\' => Some("\\\\"),
        _ if c == kind.quote() => Some(escaped_closer(kind)),
        _ => None,
    }
}

/// Whether the character or byte `c` is written by its number, as `\x7F`, unless it has a shorter escape: a character
/// below U+0020, U+007F, and in literals of bytes every byte above 127.
fn is_written_as_number(kind: Kind, c: char) -> bool
    ensures { result ≡ is_written_as_number kind c }
{
    c < ' ' || c == '\u{7f}' || ('\u{7f}' < c && !kind.decodes_to_chars())
}

/// Returns the hexadecimal digit of the value `digit`, in upper case.
fn upper_digit(digit: u32) -> u8
    requires { digit < 16 }
    ensures value { result ≡ upper_digit digit }
    ensures ascii { result < 128 }
{
    let digit = digit as u8;
    if digit < 10 {
        b'0' + digit
    } else {
        b'A' + (digit - 10)
    }
}

/// Writes the escape of the number `c`, as `\x7F`, to `room`, and returns it as a text.
fn number(c: u32, room: &mut [u8; 4]) -> &str
    requires { c < 256 }
    ensures { result.now
        ≡ code "\\" ∷ code "x" ∷ upper_digit (c / 16) ∷ upper_digit (c % 16) ∷ [] }
{
    *room = [b'\\', b'x', upper_digit(c / 16), upper_digit(c % 16)];
    match std::str::from_utf8(room) {
        Ok(text) => text,
        Err(_) => unreachable!(),
    }
}

/// Returns the escape of the character or byte `c` in a literal of the kind, or `None` if `c` is written as itself. An
/// escape by number, as `\x7F`, is written to `room`.
#[inline(always)]
pub fn escape(kind: Kind, c: char, room: &mut [u8; 4]) -> Option<&str>
    requires { IsTrue (decodes_to_chars kind) ⊎ (c < 256) }
    ensures some { IfSome result
        (λ text. text.now ≡ encode_utf8_all (unit_text (written_unit kind c))) }
    ensures short { IfSome result (λ text. length text.now ≤ 4) }
    ensures none { IfNone result (written_unit kind c ≡ Plain c) }
{
    match named_escape(kind, c) {
        Some(text) => Some(text),
        None if is_written_as_number(kind, c) => Some(number(c as u32, room)),
        None => None,
    }
}
