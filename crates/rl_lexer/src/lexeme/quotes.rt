//! Functions that find the end of a string, character, byte or raw literal.
#![tactic(auto, using(rl_syntax::proofs::TailLemmas::tail_step))]

ghost use Rattle.std.specs.Prelude.{◌≡◌, option_map, IfSome, IsTrue, length};
ghost use Rattle.std.specs.List.{list_all};
ghost use Rattle.std.specs.Str.{chars};
ghost use Rattle.rl_syntax.specs.Texts.{IsTail};
ghost use Rattle.rl_lexer.specs.Mirrors.LexemeAt.{after_quote, after_raw, after_apostrophe, after_single, quoted_at, raw_at, single_at, begins_hashed_quote};
ghost use Rattle.rl_syntax.specs.Classes.{is_hash};

use super::suffix::after_suffix;
use rl_syntax::classes::skip_hashes;
use rl_syntax::scan::{Marks, split_after_mark};
use rl_syntax::text::{after_prefix, before, begins_with_char, split_char, without_first_char};

/// Returns the text after a string literal and its suffix, where `text` follows the opening `"`. Returns `None` if the
/// literal isn't closed.
pub(crate) fn after_quoted(text: &str) -> Option<&str>
    ensures rest { option_map (λ rest. chars rest.now) result ≡ quoted_at (chars text.now) }
    ensures following { IfSome result (λ rest. IsTail text.now rest.now) }
{
    let rest = after_quote(text)?;
    Some(after_suffix(rest))
}

/// Returns the text after a character or byte literal and its suffix, where `text` follows the opening `'`. Returns
/// `None` if no `'` follows the one character or the escape.
pub(crate) fn after_character(text: &str) -> Option<&str>
    ensures rest { option_map (λ rest. chars rest.now) result ≡ single_at (chars text.now) }
    ensures following { IfSome result (λ rest. IsTail text.now rest.now) }
{
    let rest = after_single(text)?;
    Some(after_suffix(rest))
}

/// Returns the text after a raw literal and its suffix, where `text` follows the literal's `r`. Returns `None` if the
/// literal isn't closed.
#[tactic(auto, using(crate::proofs::HashLemmas::hashes_alone, crate::proofs::HashLemmas::hashes_counted))]
pub(crate) fn after_raw_literal(text: &str) -> Option<&str>
    ensures rest { option_map (λ rest. chars rest.now) result ≡ raw_at (chars text.now) }
    ensures following { IfSome result (λ rest. IsTail text.now rest.now) }
{
    let opener = skip_hashes(text);
    let rest = after_raw(before(text, opener), without_first_char(opener))?;
    Some(after_suffix(rest))
}

/// Whether the text begins with any number of hashes and a `"`.
pub(crate) fn begins_hashed_quote(text: &str) -> bool
    ensures { result ≡ begins_hashed_quote (chars text.now) }
{
    begins_with_char(skip_hashes(text), '"')
}

/// Returns the text after the `"` that closes a string literal, where `text` follows the opening `"`. A `"` after a
/// backslash doesn't close the literal. Returns `None` if the literal isn't closed.
#[inline(never)]
fn after_quote(text: &str) -> Option<&str>
    ensures rest { option_map (λ rest. chars rest.now) result ≡ after_quote (chars text.now) }
    ensures following { IfSome result (λ rest. IsTail text.now rest.now) }
{
    let mut rest = text;
    while let Some((mark, following)) = split_after_mark(Marks::from_two_bytes(b'"', b'\\'), rest) {
        if mark == b'"' {
            return Some(following);
        }
        let (_, more) = split_char(following)?;
        rest = more;
    }
    None
}

/// Returns the text after the `"` and the hashes that close a raw literal, where `text` follows the opening `"`.
/// `hashes` are the hashes before that quote. Returns `None` if the literal isn't closed.
#[inline(never)]
fn after_raw<'t>(hashes: &str, text: &'t str) -> Option<&'t str>
    requires { IsTrue (list_all is_hash (chars hashes.now)) }
    ensures rest { option_map (λ rest. chars rest.now) result
        ≡ after_raw (length (chars hashes.now)) (chars text.now) }
    ensures following { IfSome result (λ rest. IsTail text.now rest.now) }
{
    let mut rest = text;
    while let Some((_, following)) = split_after_mark(Marks::from_two_bytes(b'"', b'"'), rest) {
        if let Some(end) = after_prefix(hashes, following) {
            return Some(end);
        }
        rest = following;
    }
    None
}

/// Returns the text after the `'` that closes a character literal, where `text` follows the opening `'`. Returns `None`
/// if no `'` follows the one character or the escape.
fn after_single(text: &str) -> Option<&str>
    ensures rest { option_map (λ rest. chars rest.now) result ≡ after_single (chars text.now) }
    ensures following { IfSome result (λ rest. IsTail text.now rest.now) }
{
    let (c, following) = split_char(text)?;
    let (second, more) = split_char(following)?;
    if c == '\\' {
        after_apostrophe(more)
    } else if second == '\'' {
        Some(more)
    } else {
        None
    }
}

/// Returns the text after the `'` that closes a character literal with an escape, where `text` follows the backslash
/// and one more character. Returns `None` if an LF or the end of the text comes first.
fn after_apostrophe(text: &str) -> Option<&str>
    ensures rest { option_map (λ rest. chars rest.now) result ≡ after_apostrophe (chars text.now) }
    ensures following { IfSome result (λ rest. IsTail text.now rest.now) }
{
    let mut rest = text;
    while let Some((c, following)) = split_char(rest) {
        if c == '\'' {
            return Some(following);
        }
        if c == '\n' {
            return None;
        }
        rest = following;
    }
    None
}
