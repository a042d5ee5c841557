//! Finds the closing quote of an invalid character or byte literal, as rustc does.

ghost use Rattle.std.specs.Prelude.{◌≡◌, ◌≢◌, ◌≤◌, ◌==◌, ◌&&◌, ◌||◌, ◌∷◌, ◌↔◌, ℕ, List, not, length, IfNone, IfSome, IsTrue};
ghost use Rattle.std.specs.Str.{chars};
ghost use Rattle.rl_syntax.specs.Texts.{IsTail, begins_char, code, first_passes};
ghost use Rattle.rl_lexer.specs.Sources.{is_apostrophe};
ghost use Rattle.rl_strict.specs.LineEnds.{IsRestOf, read_of};
ghost use Rattle.rl_flaws.specs.Closings.{IsClosedBy, ReachesQuote};

use rl_strict::LineEnds;
use rl_strict::walk_units::split_first_char;
use rl_syntax::text::{begins_with_char, strip_byte};

/// Whether the search for a closing quote ends at `c`: at a slash, or at an LF that a quote doesn't follow directly.
fn ends_search(c: char, following: &str) -> bool
    ensures { result ≡ (c == code "/" || (c == code "\n" && not (begins_char (code "'") (chars following.now)))) }
{
    c == '/' || (c == '\n' && !begins_with_char(following, '\''))
}

/// Returns the text after the character `c`, or `None` if the search for a closing quote ends at `c`. If `c` is a backslash,
/// the character after it is skipped too.
fn after_part(ends: LineEnds, c: char, following: &str) -> Option<&str>
    requires { c ≢ code "'" }
    ensures some { IfSome result (λ rest. (closing : List ℕ)
        → ReachesQuote (c ∷ read_of ends (chars following.now)) closing ↔ ReachesQuote (read_of ends (chars rest.now)) closing) }
    ensures none { IfNone result ((closing : List ℕ) → ReachesQuote (c ∷ read_of ends (chars following.now)) closing → ⊥) }
    ensures rest { IfSome result (λ rest. IsRestOf ends (chars following.now) (chars rest.now)) }
    ensures following { IfSome result (λ rest. IsTail following.now rest.now) }
    ensures shorter { IfSome result (λ rest. length rest.now ≤ length following.now) }
{
    if c == '\\' {
        let (_, more) = split_first_char(ends, following)?;
        return Some(more);
    }
    if ends_search(c, following) {
        None
    } else {
        Some(following)
    }
}

/// Returns the text that begins at the next `'`, or `None` if a slash, an LF that a quote doesn't follow, or the text's end
/// comes first.
fn next_quote(ends: LineEnds, text: &str) -> Option<&str>
    ensures some { IfSome result (λ quote. ReachesQuote (read_of ends (chars text.now)) (read_of ends (chars quote.now))) }
    ensures none { IfNone result ((closing : List ℕ) → ReachesQuote (read_of ends (chars text.now)) closing → ⊥) }
    ensures rest { IfSome result (λ quote. IsRestOf ends (chars text.now) (chars quote.now)) }
    ensures following { IfSome result (λ quote. IsTail text.now quote.now) }
{
    let mut rest = text;
    while let Some((c, following)) = split_first_char(ends, rest) {
        if c == '\'' {
            return Some(rest);
        }
        rest = after_part(ends, c, following)?;
    }
    None
}

/// Returns the text that begins at the closing quote of a character or byte literal, or `None` if the literal isn't closed.
/// `text` is the text after the opening quote. If `text` begins with two quotes, the second one is the closing quote.
pub fn closing_quote(ends: LineEnds, text: &str) -> Option<&str>
    ensures some { IfSome result (λ quote. IsClosedBy (read_of ends (chars text.now)) (read_of ends (chars quote.now))) }
    ensures none { IfNone result ((closing : List ℕ) → IsClosedBy (read_of ends (chars text.now)) closing → ⊥) }
    ensures quote { IfSome result (λ quote. IsTrue (first_passes is_apostrophe (chars quote.now))) }
    ensures rest { IfSome result (λ quote. IsRestOf ends (chars text.now) (chars quote.now)) }
    ensures following { IfSome result (λ quote. IsTail text.now quote.now) }
{
    let Some(second) = strip_byte(text, b'\'') else {
        return next_quote(ends, text);
    };
    if begins_with_char(second, '\'') {
        Some(second)
    } else {
        next_quote(ends, text)
    }
}
