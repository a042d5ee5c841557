//! Finds the position where lexing resumes after an error.
#![tactic(auto, using(rl_syntax::proofs::TailLemmas::tail_step))]

ghost use Rattle.std.specs.Prelude.{◌≡◌, ◌<◌, ◌==◌, ◌&&◌, false, not, codes, length, option_map, IfSome};
ghost use Rattle.std.specs.Str.{chars};
ghost use Rattle.rl_syntax.specs.Texts.{code, IsTail};
ghost use Rattle.rl_cursors.specs.Recoveries.{begins_character, from_line_end, lines_after};

use rl_syntax::text::{begins, begins_with_char, split_char};

/// Returns the text from the position where lexing resumes after the error at the start of the given text, or `None` if lexing
/// doesn't resume.
///
/// Lexing resumes at the LF that ends the line of an unclosed quote. After an unclosed block comment it doesn't resume. After
/// the quote of an unclosed character or byte literal, an escaped line end continues the line.
pub(crate) fn lines_after(text: &str) -> Option<&str>
    ensures lines { option_map (λ lines. chars lines.now) result ≡ lines_after (chars text.now) }
    ensures following { IfSome result (λ lines. IsTail text.now lines.now) }
    ensures shorter { IfSome result (λ lines. length lines.now < length text.now) }
{
    if begins(text, "/*") {
        return None;
    }
    let (_, following) = split_char(text)?;
    from_line_end(begins_character(text), following)
}

/// Returns the text from the LF at the end of its first line on, or `None` if it has one line only. If `joins` is true, a
/// backslash skips the character after it, even an LF.
fn from_line_end(joins: bool, text: &str) -> Option<&str>
    ensures lines { option_map (λ lines. chars lines.now) result
        ≡ from_line_end joins false (chars text.now) }
    ensures following { IfSome result (λ lines. IsTail text.now lines.now) }
{
    let mut rest = text;
    let mut is_escaped = false;
    while let Some((c, following)) = split_char(rest) {
        if ends_line(c, is_escaped) {
            return Some(rest);
        }
        is_escaped = escapes_next(joins, c, is_escaped);
        rest = following;
    }
    None
}

/// Whether the character `c` ends a line: an LF that isn't escaped.
fn ends_line(c: char, is_escaped: bool) -> bool
    ensures { result ≡ (c == code "\n" && not is_escaped) }
{
    c == '\n' && !is_escaped
}

/// Whether the character `c` escapes the next one: an unescaped backslash, if `joins` is true.
fn escapes_next(joins: bool, c: char, is_escaped: bool) -> bool
    ensures { result ≡ (joins && c == code "\\" && not is_escaped) }
{
    joins && c == '\\' && !is_escaped
}

/// Whether the text begins with the opening quote of a character or byte literal: `'` or `b'`.
fn begins_character(text: &str) -> bool
    ensures { result ≡ begins_character (chars text.now) }
{
    match split_char(text) {
        Some(('\'', _)) => true,
        Some(('b', following)) => begins_with_char(following, '\''),
        _ => false,
    }
}
