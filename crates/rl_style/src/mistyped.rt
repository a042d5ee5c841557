//! Recognizes numbers whose suffix may be mistyped: `2_32` may be meant as `2_i32`.

ghost use Rattle.std.specs.Prelude.{◌≡◌, ◌||◌, ◌==◌};
ghost use Rattle.std.specs.List.{list_any};
ghost use Rattle.std.specs.Str.{chars};
ghost use Rattle.rl_style.specs.Mistyped.{ends_with_width, is_mistyped, is_mistyped_float, is_width};

use rl_syntax::text::split_char;

/// Whether the text contains one of two characters.
pub(crate) fn contains_either(text: &str, first: char, second: char) -> bool
    ensures { result ≡ list_any (λ c. c == first || c == second) (chars text.now) }
{
    let mut rest = text;
    while let Some((c, after)) = split_char(rest) {
        if c == first || c == second {
            return true;
        }
        rest = after;
    }
    false
}

/// Whether the text is the width of a number type: `8`, `16`, `32` or `64`.
fn is_width(text: &str) -> bool
    ensures { result ≡ is_width (chars text.now) }
{
    match split_char(text) {
        Some((c, after)) => match split_char(after) {
            Some((d, rest)) => {
                matches!((c, d), ('1', '6') | ('3', '2') | ('6', '4')) && split_char(rest).is_none()
            }
            None => c == '8',
        },
        None => false,
    }
}

/// Whether the text ends with an underscore and the width of a number type.
fn ends_with_width(text: &str) -> bool
    ensures { result ≡ ends_with_width (chars text.now) }
{
    let mut rest = text;
    while let Some((c, after)) = split_char(rest) {
        if c == '_' && is_width(after) {
            return true;
        }
        rest = after;
    }
    false
}

/// Whether the suffix of an integer may be mistyped: `2_32` may be meant as `2_i32`. `text` is the integer's whole text, and
/// `suffix` its suffix.
pub(crate) fn is_mistyped(suffix: &str, text: &str) -> bool
    ensures { result ≡ is_mistyped (chars suffix.now) (chars text.now) }
{
    split_char(suffix).is_none() && ends_with_width(text)
}

/// Whether the suffix of a float may be mistyped: `1e5_32` may be meant as `1e5_f32`. `text` is the float's whole text, and
/// `suffix` its suffix.
pub(crate) fn is_mistyped_float(suffix: &str, text: &str) -> bool
    ensures { result ≡ is_mistyped_float (chars suffix.now) (chars text.now) }
{
    is_mistyped(suffix, text) && contains_either(text, 'e', 'E')
}
