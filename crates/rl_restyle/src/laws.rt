//! Theorems about the definitions. Each function here does nothing: its contract states the theorem.

ghost use Rattle.rl_restyle.specs.Clean.{KeepsTheCleanSource};
ghost use Rattle.rl_restyle.specs.Edits.{HasOneText, KeepsTheWholeSource};
ghost use Rattle.rl_restyle.specs.SameTokens.{KeepsEachLiteral};

/// A rewritten source is lexed into the old number of tokens, of the old kinds. Each token is the old one, or its new text.
/// The source must contain no bad quotes (for example `'ab'`) and no stray characters (for example `€`).
pub fn only_rewritten_tokens_change()
    ensures { KeepsTheWholeSource }
{}

/// If [`is_clean`](crate::Restyled::is_clean) is `true`, the rewritten source is lexed into the old number of tokens, of the old
/// kinds. Each token is the old one, or its new text.
pub fn only_rewritten_tokens_of_a_clean_source_change()
    ensures { KeepsTheCleanSource }
{}

/// If [`is_clean`](crate::Restyled::is_clean) is `true`, each token of the rewritten source is the old one, or a literal with
/// its kind, value and suffix. The style must not have the rule `float_zero`, which writes `1.` as `1.0`.
pub fn each_literal_keeps_its_value()
    ensures { KeepsEachLiteral }
{}

/// A source has exactly one new text in a style. [`rewrite_source`](crate::rewrite_source) returns it.
pub fn a_source_has_one_text_in_a_style()
    ensures { HasOneText }
{}
