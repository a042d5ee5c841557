//! Functions that return the value of an integer literal of a list, with the sign. Another function tests whether a
//! literal has a suffix.

ghost use Rattle.std.specs.Prelude.{◌≡◌, ◌≢◌, [], ℕ, List, IfSome, IfNone, MatchBool, false, length, if◌then◌else◌};
ghost use Rattle.std.specs.Str.{chars, IsUtf8};
ghost use Rattle.rl_syntax.specs.declared.kind.Kind.{Kind as AnyKind};
ghost use Rattle.rl_syntax.specs.Reading.{Contents, HasNoReading, Reads};
ghost use Rattle.rl_syntax.specs.Numbers.{NoSign, Minus};
ghost use Rattle.rl_lenient.specs.Mirrors.NumberAt.{sign_at};
ghost use Rattle.rl_lenient.specs.Values.{HasIntegerValue, HasNoValue};
ghost use Rattle.rl_cursors.specs.NextLiterals.{IsReadLiteral, whole_text, with_minus};

use crate::next_literals::NextLiteral;
use rl_lenient::digit_runs::is_negative;
use rl_lenient::values::number_found;

/// Whether the byte offset `at` is the end of a literal. `text` is the literal's token without its minus. If `minus_at`
/// is `Some`, a minus precedes the token, and `at` counts from the minus.
fn ends_at(text: &str, minus_at: Option<usize>, at: usize) -> bool
    ensures ends { MatchBool result (at ≡ length (with_minus minus_at text.now))
        (at ≢ length (with_minus minus_at text.now)) }
    ensures utf8 { IsUtf8 (with_minus minus_at text.now) }
{
    match minus_at {
        Some(_) => at == text.len() + 1,
        None => at == text.len(),
    }
}

impl NextLiteral<'_> {
    /// Whether the literal is a number after a minus.
    fn is_minus(&self) -> bool
        ensures { sign_at (chars (whole_text self.now)) ≡ (if result then Minus else NoSign) }
    {
        match self.minus_at {
            Some(_) => true,
            None => is_negative(self.token.text),
        }
    }

    /// Returns `true` if the literal has a suffix. For a literal token without a parse result, which is invalid, it
    /// returns `false`.
    pub fn has_suffix(&self) -> bool
        requires { IsReadLiteral self.now }
        ensures reads { (kind : AnyKind) (contents : Contents) (suffix : List ℕ)
            → Reads (chars (whole_text self.now)) kind contents suffix
            → MatchBool result (suffix ≢ []) (suffix ≡ []) }
        ensures unread { HasNoReading (chars (whole_text self.now)) → result ≡ false }
    {
        match self.found {
            Some(found) => !ends_at(self.token.text, self.minus_at, found.body.suffix_at),
            None => false,
        }
    }

    /// Returns the value of an integer literal with its sign, whatever its suffix. Returns `None` for any other
    /// literal, and for an integer that doesn't fit an `i128`.
    pub fn signed(&self) -> Option<i128>
        requires { IsReadLiteral self.now }
        ensures some { IfSome result
            (λ value. (suffix : List ℕ) × HasIntegerValue (chars (whole_text self.now)) suffix value) }
        ensures none { IfNone result ((suffix : List ℕ) → HasNoValue (chars (whole_text self.now)) suffix) }
    {
        match self.found {
            Some(found) => number_found(&found, self.is_minus()),
            None => None,
        }
    }

    /// Returns the value of an integer literal without a suffix, with its sign. Returns `None` for any other literal,
    /// and for an integer that doesn't fit an `i128`.
    pub fn value_if_unsuffixed(&self) -> Option<i128>
        requires { IsReadLiteral self.now }
        ensures some { IfSome result (HasIntegerValue (chars (whole_text self.now)) []) }
        ensures none { IfNone result (HasNoValue (chars (whole_text self.now)) []) }
    {
        if self.has_suffix() {
            return None;
        }
        self.signed()
    }
}
