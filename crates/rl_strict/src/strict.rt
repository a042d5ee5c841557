//! The characters that raw strings of Rust's grammar may contain, and their closing delimiter.

ghost use Rattle.std.specs.Prelude.{IsTrue, ◌≡◌, ◌≤◌, IfSome, length, ◌==◌, ◌&&◌, ◌++◌, IfNone, IsFalse, List, ℕ};
ghost use Rattle.std.specs.Str.{chars};
ghost use Rattle.std.specs.List.{list_all};
ghost use Rattle.rl_strict.specs.Mirrors.StrictAt.{is_inside, is_raw_character};
ghost use Rattle.rl_syntax.specs.Texts.{begins, code};

use rl_lenient::units::split_before_mark_or_non_ascii;
use rl_syntax::Kind;
use rl_syntax::scan::{Marks, split_before_mark};
use rl_syntax::text::after_prefix;

/// The characters at which the search in a raw string or raw byte string stops: `"`, which may close it, and CR, which it can't
/// contain.
const INSIDE_STRING: Marks = Marks {
    first: b'"',
    second: b'\r',
    third: b'\r',
    fourth: b'\r',
};

/// The characters at which the search in a raw C string stops: `"`, which may close it, and CR and NUL, which it can't contain.
const INSIDE_C_STRING: Marks = Marks {
    first: b'"',
    second: b'\r',
    third: 0,
    fourth: 0,
};

/// Returns `true` if a raw string of the kind `kind` may contain the character `c`.
pub fn is_raw_character(kind: Kind, c: char) -> bool
    ensures { result ≡ is_raw_character kind c }
{
    match kind {
        Kind::Str => c != '\r',
        Kind::ByteStr => c.is_ascii() && c != '\r',
        Kind::CStr => c != '\0' && c != '\r',
        _ => false,
    }
}

/// Returns the text after a raw string's closing delimiter. The result is `None` if `c` and the first characters of `after`
/// aren't the closing delimiter, `"` and the hashes `hashes`.
pub fn after_closer<'t>(hashes: &str, c: char, after: &'t str) -> Option<&'t str>
    ensures some { IfSome result
        (λ r. (c ≡ code "\"") × (chars after.now ≡ chars hashes.now ++ chars r.now)) }
    ensures none { IfNone result
        (IsFalse (c == code "\"" && begins (chars hashes.now) (chars after.now))) }
{
    if c == '"' {
        after_prefix(hashes, after)
    } else {
        None
    }
}

/// Skips all characters at the beginning of the text that a raw string of the kind `kind` may contain, except quotes, and
/// returns the text after them.
#[inline(always)]
pub fn skip_raw_characters(kind: Kind, text: &str) -> &str
    ensures run { (run : List ℕ) × (chars text.now ≡ run ++ chars result.now)
        × IsTrue (list_all (is_inside kind) run) }
    ensures shorter { length result.now ≤ length text.now }
{
    match kind {
        Kind::Str => split_before_mark(INSIDE_STRING, text).1,
        Kind::ByteStr => split_before_mark_or_non_ascii(INSIDE_STRING, text).1,
        Kind::CStr => split_before_mark(INSIDE_C_STRING, text).1,
        _ => text,
    }
}
