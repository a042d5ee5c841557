//! Converts a literal of a configuration to the value of a rule.

ghost use Rattle.std.specs.Prelude.{◌≡◌, option_map};
ghost use Rattle.rl_restyle.specs.Values.{word_of as word_in, size_of as size_in, truth_word, case_word, separator_word, value_of as value_in, IsOfText};

use crate::style_error::Expected;
use rl_cursors::NextLiteral;
use rl_style::{Case, Separator};
use rl_syntax::Kind;

/// The value of a rule in a configuration.
#[derive(Clone, Copy)]
pub(crate) enum Value {
    Truth(bool),
    Size(usize),
    CaseOf(Case),
    SeparatorOf(Separator),
}

/// Returns the body of a string literal that has no suffix, or `None` for any other literal.
fn word_of<'t>(literal: &NextLiteral<'t>) -> Option<&'t str>
    requires { IsOfText literal.now }
    ensures { option_map (λ word. word.now) result ≡ word_in literal.now }
{
    if literal.minus_at.is_some() {
        return None;
    }
    let found = literal.found?;
    let text = literal.token.text;
    if matches!(found.kind, Kind::Str) && found.suffix_in(text).len() == 0 {
        Some(found.body_in(text))
    } else {
        None
    }
}

/// Converts an integer literal that fits `usize`. Its suffix must be `usize` or empty.
fn usize_of(literal: &NextLiteral<'_>) -> Option<Value>
    requires { IsOfText literal.now }
    ensures { result ≡ size_in literal.now }
{
    if literal.minus_at.is_some() {
        return None;
    }
    let found = literal.found?;
    let suffix = found.suffix_in(literal.token.text);
    if !matches!(found.kind, Kind::Int) || !(suffix == "" || suffix == "usize") {
        return None;
    }
    match usize::try_from(found.magnitude) {
        Ok(size) => Some(Value::Size(size)),
        Err(_) => None,
    }
}

/// Converts the text `true` or `false` to a rule's value.
fn bool_of(text: &str) -> Option<Value>
    ensures { result ≡ truth_word text.now }
{
    match text {
        "true" => Some(Value::Truth(true)),
        "false" => Some(Value::Truth(false)),
        _ => None,
    }
}

/// Returns the case that the text names: `lower` or `upper`.
fn case_of(word: &str) -> Option<Value>
    ensures { result ≡ case_word word.now }
{
    match word {
        "lower" => Some(Value::CaseOf(Case::Lower)),
        "upper" => Some(Value::CaseOf(Case::Upper)),
        _ => None,
    }
}

/// Returns the separator that the text names: an empty text or `_`.
fn separator_of(word: &str) -> Option<Value>
    ensures { result ≡ separator_word word.now }
{
    match word {
        "" => Some(Value::SeparatorOf(Separator::Nothing)),
        "_" => Some(Value::SeparatorOf(Separator::Underscore)),
        _ => None,
    }
}

/// Converts a literal to the value of a rule, or returns `None` if it isn't one of the values `expected`.
pub(crate) fn value_of(expected: Expected, literal: &NextLiteral<'_>) -> Option<Value>
    requires { IsOfText literal.now }
    ensures { result ≡ value_in expected literal.now }
{
    match expected {
        Expected::Truth => bool_of(literal.token.text),
        Expected::Size => usize_of(literal),
        Expected::Case => case_of(word_of(literal)?),
        Expected::Separator => separator_of(word_of(literal)?),
    }
}
