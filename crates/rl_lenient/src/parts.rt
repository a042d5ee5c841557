//! The parts of a quoted literal, by the byte offsets of its parse result.

ghost use Rattle.std.specs.Prelude.{◌≡◌, IfNone, IfSome, IsFalse, IsTrue, MatchBool};
ghost use Rattle.std.specs.Str.{chars};
ghost use Rattle.rl_lenient.specs.Founds.{IsBodyWithin, IsQuotedAt, body_in, suffix_in};
ghost use Rattle.rl_lenient.specs.Raws.{HasHashCount, IsRawText};

use crate::found::Body;
use rl_syntax::Kind;

/// Returns the suffix of a literal.
#[inline]
pub fn suffix_of<'t>(text: &'t str, body: &Body) -> &'t str
    requires { IsBodyWithin text.now body.now }
    ensures { result.now ≡ suffix_in text.now body.now }
{
    let end = text.len();
    if body.suffix_at == end {
        &text[end..]
    } else {
        &text[body.suffix_at..]
    }
}

/// Returns the text between the quotes of a literal.
#[inline]
pub fn body_of<'t>(text: &'t str, body: &Body) -> &'t str
    requires { IsBodyWithin text.now body.now }
    ensures { result.now ≡ body_in text.now body.now }
{
    &text[body.lo..body.hi]
}

/// Returns the text between the quotes of a string, if it is the string's value byte for byte.
#[inline]
pub fn plain_body_of<'t>(text: &'t str, body: &Body) -> Option<&'t str>
    requires { IsBodyWithin text.now body.now }
    ensures some { IfSome result (λ b. (b.now ≡ body_in text.now body.now) × IsTrue body.now.plain) }
    ensures none { IfNone result (IsFalse body.now.plain) }
{
    if body.plain {
        Some(body_of(text, body))
    } else {
        None
    }
}

/// Returns `true` if a literal of the kind with these offsets is raw.
#[inline]
pub fn is_raw(kind: Kind, text: &str, body: &Body) -> bool
    requires { IsQuotedAt kind text.now body.now }
    ensures { MatchBool result (IsRawText kind (chars text.now)) (IsRawText kind (chars text.now) → ⊥) }
{
    body.lo > kind.opener().len()
}

/// Returns the number of hashes of a raw literal, or 0.
#[inline]
pub fn hashes(kind: Kind, text: &str, body: &Body) -> usize
    requires { IsQuotedAt kind text.now body.now }
    ensures { HasHashCount kind (chars text.now) result }
{
    let opener = kind.opener().len();
    if body.lo > opener {
        body.lo - opener - 1
    } else {
        0
    }
}
