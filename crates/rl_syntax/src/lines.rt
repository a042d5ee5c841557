//! Functions that find where a line of a text ends.

ghost use Rattle.std.specs.Prelude.{◌≡◌, ◌<◌, ◌≤◌, ◌++◌, length, IfSome, IfNone, IsTrue, IsFalse};
ghost use Rattle.std.specs.List.{list_all};
ghost use Rattle.std.specs.Str.{chars};
ghost use Rattle.rl_syntax.specs.Texts.{first_passes, IsTail};
ghost use Rattle.rl_syntax.specs.Scanning.{is_other, line_ends, IsNextMark};

use crate::lanes::line_len;
use crate::text::split_ascii;

/// Splits the text before its first line feed. If it has no line feed, the first part is the whole text.
#[inline(always)]
pub fn split_line(text: &str) -> (&str, &str)
    ensures cut { chars text.now ≡ chars result.0.now ++ chars result.1.now }
    ensures others { IsTrue (list_all (is_other line_ends) (chars result.0.now)) }
    ensures stops { IsFalse (first_passes (is_other line_ends) (chars result.1.now)) }
    ensures following { IsTail text.now result.1.now }
    ensures shorter { length result.1.now ≤ length text.now }
{
    text.split_at(line_len(text.as_bytes()))
}

/// Returns the text after its first line feed, or `None` if it has no line feed.
#[inline(always)]
pub fn after_first_line_feed(text: &str) -> Option<&str>
    ensures some { IfSome result (λ rest. IsNextMark line_ends (chars text.now) 10 (chars rest.now)) }
    ensures none { IfNone result (IsTrue (list_all (is_other line_ends) (chars text.now))) }
    ensures following { IfSome result (λ rest. IsTail text.now rest.now) }
    ensures shorter { IfSome result (λ rest. length rest.now < length text.now) }
{
    let (_, from) = split_line(text);
    let (_, following) = split_ascii(from)?;
    Some(following)
}
