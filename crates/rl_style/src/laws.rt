//! Theorems about the definitions. Each function here does nothing: its contract states the theorem.

ghost use Rattle.rl_style.specs.Around.{StaysAround, StaysBeforeQuote, KeepsItsEnds};
ghost use Rattle.rl_style.specs.Recut.{KeepsTheTokens, KeepsTheTokensUnraw, KeepsTheSource};
ghost use Rattle.rl_style.specs.Restyled.{KeepsTheTokensOfEdits, KeepsTheEditedSource, KeepsTheTokensAroundARestyledLiteral, KeepsTheSourceAroundARestyledLiteral};
ghost use Rattle.rl_style.specs.Laws.{ARewrittenLiteralIsTheSame, ARewrittenLiteralIsTheSameExceptFloatZero, ARewrittenTextStays, ALiteralHasOneTextInAStyle, NoRuleChangesNothing, TheSameLiteralReadsAlike, TheSameLiteralIsStrictAlike};

/// If the style doesn't add a zero after a float's dot, a rewritten literal has the kind, the value and the suffix of the old
/// literal.
pub fn a_rewritten_literal_is_the_same()
    ensures { ARewrittenLiteralIsTheSame }
{}

/// In any style, a rewritten literal has the kind, the value and the suffix of the old one, except that a float which ends with
/// its dot may get a zero: `1.0` for `1.`.
pub fn a_rewritten_literal_is_the_same_except_float_zero()
    ensures { ARewrittenLiteralIsTheSameExceptFloatZero }
{}

/// If the kinds, values and suffixes of two literals are equal, their parse results are equal, and both or neither are valid
/// in Rust. An integer above 128 bits has no parse result by `syn`'s grammar.
pub fn equal_literals_have_equal_readings()
    ensures reads { TheSameLiteralReadsAlike }
    ensures strict { TheSameLiteralIsStrictAlike }
{}

/// Rewriting a literal twice in one style changes nothing the second time.
pub fn rewriting_twice_changes_nothing_more()
    ensures { ARewrittenTextStays }
{}

/// A literal has exactly one new text in a style: the one that [`rewrite_into`](crate::rewrite_into) writes.
pub fn a_literal_has_one_text_in_a_style()
    ensures { ALiteralHasOneTextInAStyle }
{}

/// A style in which no rule is set, as `Style::KEEP`, changes nothing.
pub fn no_rule_changes_nothing()
    ensures { NoRuleChangesNothing }
{}

/// If a new literal begins as the old literal does and replaces it, the token before the literal is lexed as before. This token
/// must be neither a bad quote (for example `'ab'`) nor a stray character (for example `€`).
pub fn tokens_before_a_rewritten_literal_stay()
    ensures { StaysAround }
{}

/// Let a well-formed literal replace a literal with an equal kind, prefix and suffix. Let both literals be raw strings, or
/// neither. The only exception is a raw string with the prefix `b` or `c`, which may also become a string with escapes. If the
/// old literal is a token where a certain text follows it, the new literal is a token where the same text follows it. The new
/// literal begins as the old literal does.
pub fn new_literals_are_tokens()
    ensures { KeepsItsEnds }
{}

/// If one literal of a text is rewritten, all other tokens of the text are lexed as before. The tokens before the literal
/// must contain no bad quotes and no stray characters.
pub fn the_tokens_are_kept()
    ensures { KeepsTheTokens }
{}

/// If one literal of a source is rewritten, all other tokens of the source are lexed as before. The tokens before the literal
/// must contain no bad quotes and no stray characters. The source must not begin with `#!`, unless it begins with an
/// attribute's `#![` ([`is_safe_to_restyle`](crate::is_safe_to_restyle)). With another `#!`, a comment may begin on the first
/// line, and end at a `*/` inside of a literal of a later line. Then a change of this literal may change whether the first
/// line is an interpreter's line.
pub fn the_tokens_of_a_source_are_kept()
    ensures { KeepsTheSource }
{}

/// If a literal of a text is rewritten in a style, all other tokens of the text are lexed as before. The tokens before the
/// literal must contain no bad quotes and no stray characters. [`rewrite_into`](crate::rewrite_into) writes one token,
/// with the form of the old literal.
pub fn the_tokens_around_a_restyled_literal_are_kept()
    ensures { KeepsTheTokensAroundARestyledLiteral }
{}

/// If a literal of a source is rewritten in a style, all other tokens of the source are lexed as before. The tokens before
/// the literal must contain no bad quotes and no stray characters. The source must not begin with `#!`, unless it begins
/// with an attribute's `#![`.
pub fn the_source_tokens_around_a_restyled_literal_are_kept()
    ensures { KeepsTheSourceAroundARestyledLiteral }
{}

/// If any literals of a text are rewritten in a style, the new text has as many tokens as the old text, and their kinds are
/// equal. Each token is the old one, or a rewritten literal. The old text must contain no bad quotes and no stray characters.
pub fn the_tokens_of_edits_are_kept()
    ensures { KeepsTheTokensOfEdits }
{}

/// If any literals of a source are rewritten in a style, the new source has as many tokens as the old source, and their kinds
/// are equal. The old source must contain no bad quotes and no stray characters. It must not begin with `#!`, unless it
/// begins with an attribute's `#![`.
pub fn the_tokens_of_an_edited_source_are_kept()
    ensures { KeepsTheEditedSource }
{}

/// If a string with escapes replaces a raw string, the token before the string is lexed as before. The text between the token
/// and the string must end with neither a hash nor a dot.
pub fn tokens_before_a_replaced_raw_string_stay()
    ensures { StaysBeforeQuote }
{}

/// If a string with escapes replaces a raw string of a text, all other tokens of the text are lexed as before. The tokens
/// before the string must contain no bad quotes and no stray characters. The text before the string must end with neither
/// a hash nor a dot.
pub fn the_tokens_around_a_replaced_raw_string_are_kept()
    ensures { KeepsTheTokensUnraw }
{}
