//! Functions that skip white space and plain comments. Plain comments are those that aren't doc comments.

ghost use Rattle.std.specs.Prelude.{◌≡◌, option_map, IfSome, IsFalse};
ghost use Rattle.std.specs.Str.{chars};
ghost use Rattle.rl_syntax.specs.Texts.{is_white, first_passes, IsTail};
ghost use Rattle.rl_syntax.specs.Trivia.{is_comment_line, is_comment_block};
ghost use Rattle.rl_lexer.specs.Skipping.{Skipped, OneRest};
ghost use Rattle.rl_lexer.specs.Mirrors.SkippedAt.{after_line, after_block, after_comment};

use rl_syntax::classes::skip_white;
use rl_syntax::lanes::byte_at;
use rl_syntax::lines::after_first_line_feed;
use rl_syntax::scan::{Marks, len_before_near_mark};
use rl_syntax::text::{begins_with_char, split_ascii, strip_byte};

/// Returns `text` without the white space and plain comments at its start, as a slice.
///
/// The result begins with the first character that is neither white space nor part of a plain comment. Doc comments
/// aren't skipped, and neither are block comments that aren't closed. If the text ends in a line comment, the result is
/// empty.
///
/// # Example
///
/// ```
/// use rl_tokens::whitespace;
///
/// pub fn after_comments(text: &str) -> &str {
///     whitespace::skip(text)
/// }
/// // after_comments("/* one */ two") == "two"
/// ```
#[inline(always)]
pub fn skip(text: &str) -> &str
    // The characters of the result are those of `text` after all leading white space and plain comments.
    ensures skipped { Skipped (chars text.now) (chars result.now) }
    // The result is a slice at the end of the text.
    ensures following { IsTail text.now result.now }
    // The text after leading white space and plain comments is unique. A second call doesn't change the result.
    ensures only { OneRest }
    ensures again { Skipped (chars result.now) (chars result.now) }
{
    let rest = skip_white(text);
    let Some(_) = strip_byte(rest, b'/') else {
        return rest;
    };
    skip_comments(rest)
}

/// Returns `text` without the plain comments at its start, and without the white space after each of them. The text
/// must not begin with white space.
#[inline(never)]
fn skip_comments(text: &str) -> &str
    requires { IsFalse (first_passes is_white (chars text.now)) }
    ensures skipped { Skipped (chars text.now) (chars result.now) }
    ensures following { IsTail text.now result.now }
{
    let mut rest = text;
    while let Some(inside) = strip_byte(rest, b'/') {
        let Some(following) = after_comment(inside) else {
            return rest;
        };
        rest = skip_white(following);
    }
    rest
}

/// Returns the text after a plain comment, where `text` follows the first slash. Returns `None` if the slash begins no
/// plain comment, and if a block comment isn't closed.
#[inline(always)]
#[tactic(auto, using(crate::proofs::CommentBytes::wide_comment, rl_syntax::proofs::TailLemmas::tail_step, rl_syntax::proofs::TailLemmas::some_tail))]
fn after_comment(text: &str) -> Option<&str>
    ensures rest { option_map (λ rest. chars rest.now) result ≡ after_comment (chars text.now) }
    ensures following { IfSome result (λ rest. IsTail text.now rest.now) }
{
    let Some((second, following)) = split_ascii(text) else {
        return None;
    };
    if second == b'/' && is_comment_line(following) {
        Some(after_line(following))
    } else if second == b'*' && is_comment_block(following) {
        after_block(following)
    } else {
        None
    }
}

/// Whether a line comment is plain, and not a doc comment. `body` is the text after the `//` of the comment.
#[inline(always)]
#[tactic(auto, using(crate::proofs::CommentBytes::wide_line))]
pub(crate) fn is_comment_line(body: &str) -> bool
    ensures { result ≡ is_comment_line (chars body.now) }
{
    match split_ascii(body) {
        Some((first, following)) => first != b'!'
            && (first != b'/' || begins_with_char(following, '/')),
        None => true,
    }
}

/// Whether a block comment is plain, and not a doc comment. `inside` is the text after the `/*` of the comment.
#[inline(always)]
#[tactic(auto, using(crate::proofs::CommentBytes::wide_block))]
pub(crate) fn is_comment_block(inside: &str) -> bool
    ensures { result ≡ is_comment_block (chars inside.now) }
{
    match split_ascii(inside) {
        Some((first, following)) => {
            first != b'!'
                && (first != b'*'
                    || begins_with_char(following, '/')
                    || begins_with_char(following, '*'))
        }
        None => true,
    }
}

/// Returns the text after the LF that ends a line comment, or an empty text if the comment is at the end of the text.
pub(crate) fn after_line(text: &str) -> &str
    ensures rest { chars result.now ≡ after_line (chars text.now) }
    ensures following { IsTail text.now result.now }
{
    after_first_line_feed(text).unwrap_or("")
}

/// Returns the text after a block comment, where `text` follows the `/*` of the comment. Returns `None` if the comment
/// isn't closed.
///
/// The loop is over bytes, from one `*` or `/` to the next. The loop counts the nested block comments that are open.
#[inline(always)]
pub(crate) fn after_block(text: &str) -> Option<&str>
    ensures rest { option_map (λ rest. chars rest.now) result ≡ after_block 0 (chars text.now) }
    ensures following { IfSome result (λ rest. IsTail text.now rest.now) }
{
    let bytes = text.as_bytes();
    let mut depth: usize = 0;
    let mut at: usize = 0;
    while at < bytes.len() {
        let byte = bytes[at];
        at += 1;
        if byte == b'*' {
            if byte_at(bytes, at) == b'/' {
                at += 1;
                if depth == 0 {
                    return Some(&text[at..]);
                }
                depth -= 1;
            }
        } else if byte == b'/' {
            if byte_at(bytes, at) == b'*' {
                at += 1;
                depth += 1;
            }
        } else {
            at += len_before_near_mark(Marks::from_two_bytes(b'*', b'/'), &bytes[at..]);
        }
    }
    None
}
