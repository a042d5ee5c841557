//! The rules of a style by their names in configurations.

ghost use Rattle.std.specs.Prelude.{◌≡◌, ◌<◌, IfSome, IfNone};
ghost use Rattle.rl_restyle.specs.declared.rule.Rule.{Rule as AnyRule};
ghost use Rattle.rl_restyle.specs.Rules.{rule_name, rule_number, expected_of as may_be, settable_rules as all_settable};

use crate::style_error::Expected;

/// The number of rules that a configuration can set.
pub const RULES: usize = 20;

/// A rule that a configuration can set: a rule of a style, or one part of its rule for digit groups.
#[derive(Clone, Copy)]
pub enum Rule {
    /// The case of the digits of hexadecimal integers.
    HexDigits,
    /// Drops the underscores in numbers.
    DropUnderscores,
    /// Drops the leading zeros of decimal integers.
    DropLeadingZeros,
    /// The separator between a number and its suffix.
    SuffixSeparator,
    /// The group size of binary integers.
    BinaryGroups,
    /// The group size of octal integers.
    OctalGroups,
    /// The group size of decimal integers and floats.
    DecimalGroups,
    /// The group size of hexadecimal integers.
    HexadecimalGroups,
    /// The smallest number of digits that is divided into groups.
    MinDigits,
    /// Writes a zero after a dot at the end of a float.
    FloatZero,
    /// The case of the letter before the exponent of a float.
    ExponentLetter,
    /// Drops the plus of the exponent of a float.
    DropExponentPlus,
    /// The case of the hexadecimal digits of escapes.
    EscapeDigits,
    /// Drops the leading zeros and the underscores in `\u{..}` escapes.
    FewestEscapeDigits,
    /// Writes visible ASCII characters in place of their numeric escapes.
    DropAsciiEscapes,
    /// Writes `\n`, `\r`, `\t` and `\0` in place of numeric escapes.
    NamedEscapes,
    /// Drops the backslash before a quote that doesn't close the literal.
    DropQuoteEscapes,
    /// Writes raw strings with the fewest hashes.
    FewestHashes,
    /// Drops the `r` and the hashes of raw strings that contain no backslash and no quote.
    DropRaw,
    /// Writes escapes in place of invisible and bidirectional characters.
    EscapeInvisible,
}

/// Returns all rules that a configuration can set, in the order of the variants of [`Rule`].
pub fn settable_rules() -> &'static [Rule]
    ensures { result.now ≡ all_settable }
{
    &[
        Rule::HexDigits,
        Rule::DropUnderscores,
        Rule::DropLeadingZeros,
        Rule::SuffixSeparator,
        Rule::BinaryGroups,
        Rule::OctalGroups,
        Rule::DecimalGroups,
        Rule::HexadecimalGroups,
        Rule::MinDigits,
        Rule::FloatZero,
        Rule::ExponentLetter,
        Rule::DropExponentPlus,
        Rule::EscapeDigits,
        Rule::FewestEscapeDigits,
        Rule::DropAsciiEscapes,
        Rule::NamedEscapes,
        Rule::DropQuoteEscapes,
        Rule::FewestHashes,
        Rule::DropRaw,
        Rule::EscapeInvisible,
    ]
}

impl Rule {
    /// Returns the rule's name in configurations, for example `decimal_groups`.
    pub fn name(self) -> &'static str
        ensures { result.now ≡ rule_name self }
    {
        match self {
            Rule::HexDigits => "hex_digits",
            Rule::DropUnderscores => "drop_underscores",
            Rule::DropLeadingZeros => "drop_leading_zeros",
            Rule::SuffixSeparator => "suffix_separator",
            Rule::BinaryGroups => "binary_groups",
            Rule::OctalGroups => "octal_groups",
            Rule::DecimalGroups => "decimal_groups",
            Rule::HexadecimalGroups => "hexadecimal_groups",
            Rule::MinDigits => "min_digits",
            Rule::FloatZero => "float_zero",
            Rule::ExponentLetter => "exponent_letter",
            Rule::DropExponentPlus => "drop_exponent_plus",
            Rule::EscapeDigits => "escape_digits",
            Rule::FewestEscapeDigits => "fewest_escape_digits",
            Rule::DropAsciiEscapes => "drop_ascii_escapes",
            Rule::NamedEscapes => "named_escapes",
            Rule::DropQuoteEscapes => "drop_quote_escapes",
            Rule::FewestHashes => "fewest_hashes",
            Rule::DropRaw => "drop_raw",
            Rule::EscapeInvisible => "escape_invisible",
        }
    }
}

/// Returns the rule with the name `name`, or `None` if no rule has it.
pub(crate) fn rule_of(name: &str) -> Option<Rule>
    ensures known { IfSome result (λ rule. name.now ≡ rule_name rule) }
    ensures unknown { IfNone result ((rule : AnyRule) → name.now ≡ rule_name rule → ⊥) }
{
    match name {
        "hex_digits" => Some(Rule::HexDigits),
        "drop_underscores" => Some(Rule::DropUnderscores),
        "drop_leading_zeros" => Some(Rule::DropLeadingZeros),
        "suffix_separator" => Some(Rule::SuffixSeparator),
        "binary_groups" => Some(Rule::BinaryGroups),
        "octal_groups" => Some(Rule::OctalGroups),
        "decimal_groups" => Some(Rule::DecimalGroups),
        "hexadecimal_groups" => Some(Rule::HexadecimalGroups),
        "min_digits" => Some(Rule::MinDigits),
        "float_zero" => Some(Rule::FloatZero),
        "exponent_letter" => Some(Rule::ExponentLetter),
        "drop_exponent_plus" => Some(Rule::DropExponentPlus),
        "escape_digits" => Some(Rule::EscapeDigits),
        "fewest_escape_digits" => Some(Rule::FewestEscapeDigits),
        "drop_ascii_escapes" => Some(Rule::DropAsciiEscapes),
        "named_escapes" => Some(Rule::NamedEscapes),
        "drop_quote_escapes" => Some(Rule::DropQuoteEscapes),
        "fewest_hashes" => Some(Rule::FewestHashes),
        "drop_raw" => Some(Rule::DropRaw),
        "escape_invisible" => Some(Rule::EscapeInvisible),
        _ => None,
    }
}

/// Returns the index of a rule in the list of [`settable_rules`].
pub fn number_of(rule: Rule) -> usize
    ensures number { result ≡ rule_number rule }
    ensures within { result < 20 }
{
    match rule {
        Rule::HexDigits => 0,
        Rule::DropUnderscores => 1,
        Rule::DropLeadingZeros => 2,
        Rule::SuffixSeparator => 3,
        Rule::BinaryGroups => 4,
        Rule::OctalGroups => 5,
        Rule::DecimalGroups => 6,
        Rule::HexadecimalGroups => 7,
        Rule::MinDigits => 8,
        Rule::FloatZero => 9,
        Rule::ExponentLetter => 10,
        Rule::DropExponentPlus => 11,
        Rule::EscapeDigits => 12,
        Rule::FewestEscapeDigits => 13,
        Rule::DropAsciiEscapes => 14,
        Rule::NamedEscapes => 15,
        Rule::DropQuoteEscapes => 16,
        Rule::FewestHashes => 17,
        Rule::DropRaw => 18,
        Rule::EscapeInvisible => 19,
    }
}

/// Returns the values that a rule may have in a configuration.
pub(crate) fn expected_of(rule: Rule) -> Expected
    ensures { result ≡ may_be rule }
{
    match rule {
        Rule::HexDigits | Rule::ExponentLetter | Rule::EscapeDigits => Expected::Case,
        Rule::SuffixSeparator => Expected::Separator,
        Rule::BinaryGroups
        | Rule::OctalGroups
        | Rule::DecimalGroups
        | Rule::HexadecimalGroups
        | Rule::MinDigits => Expected::Size,
        _ => Expected::Truth,
    }
}
