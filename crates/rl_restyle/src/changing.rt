//! Finds the rules of a style that change a literal.

ghost use Rattle.std.specs.Prelude.{◌≡◌, ◌≤◌, ◌+◌, ◌*◌, IfOk, MatchBool, OnOk, length, option_map};
ghost use Rattle.std.specs.Str.{chars};
ghost use Rattle.rl_style.specs.Rewriting.{room_for};
ghost use Rattle.rl_restyle.specs.Changing.{AreChangingRules, ChangesAlone, TakesRule, is_set as set_in, own_groups as groups_of, rule_alone as alone, style_rule as rule_in_style};

use crate::rule::{Rule, settable_rules};
use crate::texts::{SHORT, buffer_len};
use rl_style::{DigitGroups, Rule as StyleRule, Style, is_changed_by_style};
use std::alloc::{AllocError, Allocator};

/// Returns the rule of a style that a rule of a configuration sets, or sets a part of.
fn style_rule(rule: Rule) -> StyleRule
    ensures { result ≡ rule_in_style rule }
{
    match rule {
        Rule::HexDigits => StyleRule::HexDigits,
        Rule::DropUnderscores => StyleRule::Underscores,
        Rule::DropLeadingZeros => StyleRule::LeadingZeros,
        Rule::SuffixSeparator => StyleRule::SuffixSeparator,
        Rule::BinaryGroups
        | Rule::OctalGroups
        | Rule::DecimalGroups
        | Rule::HexadecimalGroups
        | Rule::MinDigits => StyleRule::DigitGroups,
        Rule::FloatZero => StyleRule::FloatZero,
        Rule::ExponentLetter => StyleRule::ExponentLetter,
        Rule::DropExponentPlus => StyleRule::ExponentPlus,
        Rule::EscapeDigits => StyleRule::EscapeDigits,
        Rule::FewestEscapeDigits => StyleRule::CodeDigits,
        Rule::DropAsciiEscapes => StyleRule::AsciiEscapes,
        Rule::NamedEscapes => StyleRule::NamedEscapes,
        Rule::DropQuoteEscapes => StyleRule::QuoteEscapes,
        Rule::FewestHashes => StyleRule::RawHashes,
        Rule::DropRaw => StyleRule::Raw,
        Rule::EscapeInvisible => StyleRule::Hidden,
    }
}

/// Returns the part of the digit groups that a rule sets: the group size of one base, with `min_digits`.
fn own_groups(rule: Rule, groups: DigitGroups) -> DigitGroups
    ensures { result ≡ groups_of rule groups }
{
    let none = DigitGroups {
        binary: 0,
        octal: 0,
        decimal: 0,
        hexadecimal: 0,
        least: groups.least,
    };
    match rule {
        Rule::BinaryGroups => DigitGroups {
            binary: groups.binary,
            ..none
        },
        Rule::OctalGroups => DigitGroups {
            octal: groups.octal,
            ..none
        },
        Rule::DecimalGroups => DigitGroups {
            decimal: groups.decimal,
            ..none
        },
        Rule::HexadecimalGroups => DigitGroups {
            hexadecimal: groups.hexadecimal,
            ..none
        },
        _ => none,
    }
}

/// Returns the part of the digit groups that a rule sets, if the style has digit groups.
fn groups_alone(rule: Rule, groups: Option<DigitGroups>) -> Option<DigitGroups>
    ensures { result ≡ option_map (groups_of rule) groups }
{
    match groups {
        Some(groups) => Some(own_groups(rule, groups)),
        None => None,
    }
}

/// Returns the style that has the rule `rule` with its value in `style`, and no other rule. A rule for digit groups is combined
/// with `min_digits`.
fn rule_alone(style: Style, rule: Rule) -> Style
    ensures { result ≡ alone style rule }
{
    let only = style.only(style_rule(rule));
    Style {
        digit_groups: groups_alone(rule, only.digit_groups),
        ..only
    }
}

/// Whether the style sets a rule. For a rule for digit groups, this is the case if the style has any digit groups.
fn is_set(style: Style, rule: Rule) -> bool
    ensures { result ≡ set_in style rule }
{
    match rule {
        Rule::HexDigits => style.hex_digits.is_some(),
        Rule::DropUnderscores => style.underscores,
        Rule::DropLeadingZeros => style.leading_zeros,
        Rule::SuffixSeparator => style.suffix_separator.is_some(),
        Rule::BinaryGroups
        | Rule::OctalGroups
        | Rule::DecimalGroups
        | Rule::HexadecimalGroups
        | Rule::MinDigits => style.digit_groups.is_some(),
        Rule::FloatZero => style.float_zero,
        Rule::ExponentLetter => style.exponent_letter.is_some(),
        Rule::DropExponentPlus => style.exponent_plus,
        Rule::EscapeDigits => style.escape_digits.is_some(),
        Rule::FewestEscapeDigits => style.code_digits,
        Rule::DropAsciiEscapes => style.ascii_escapes,
        Rule::NamedEscapes => style.named_escapes,
        Rule::DropQuoteEscapes => style.quote_escapes,
        Rule::FewestHashes => style.raw_hashes,
        Rule::DropRaw => style.raw,
        Rule::EscapeInvisible => style.hidden,
    }
}

/// Whether the rule alone changes the literal `text`, with its value in the style. `front` is the text before the literal, and
/// `out` a buffer.
fn is_changed_alone(style: Style, rule: Rule, front: &str, text: &str, out: &mut [u8]) -> bool
    requires { room_for style text.now ≤ length out.old }
    ensures { MatchBool result (ChangesAlone style (chars front.now) (chars text.now) rule)
        (ChangesAlone style (chars front.now) (chars text.now) rule → ⊥) }
{
    match is_changed_by_style(front, text, rule_alone(style, rule), out) {
        Ok(is_changed) => is_changed,
        Err(_) => false,
    }
}

/// Appends the rule if it alone changes the literal `text`, with its value in the style. `front` is the text before the literal,
/// and `out` a buffer.
fn push_if_changing<A: Allocator>(
    rules: &mut Vec<Rule, A>,
    style: Style,
    rule: Rule,
    front: &str,
    text: &str,
    out: &mut [u8],
) -> Result<(), AllocError>
    requires { room_for style text.now ≤ length out.old }
    ensures { OnOk result (TakesRule style (chars front.now) (chars text.now) rule rules.old.items rules.new.items) }
{
    if !is_set(style, rule) {
        return Ok(());
    }
    if !is_changed_alone(style, rule, front, text, out) {
        return Ok(());
    }
    rules.push(rule)?;
    Ok(())
}

/// Returns the rules each of which alone changes the literal `text`, with its value in the style. `out` is a buffer.
fn changing_rules_in<A: Allocator>(
    alloc: A,
    style: Style,
    front: &str,
    text: &str,
    out: &mut [u8],
) -> Result<Vec<Rule, A>, AllocError>
    requires { room_for style text.now ≤ length out.old }
    ensures { IfOk result (λ rules. AreChangingRules style (chars front.now) (chars text.now) rules.items) }
{
    let mut rules = Vec::new(alloc);
    let mut rest = settable_rules();
    while let Some((rule, after)) = rest.split_first() {
        push_if_changing(&mut rules, style, *rule, front, text, out)?;
        rest = after;
    }
    Ok(rules)
}

/// Returns the rules each of which alone changes the literal `text`, with its value in the style. The rules are in the order of
/// [`settable_rules`]. `front` is the text before the literal.
///
/// A rule for digit groups is combined with `min_digits`, which changes nothing alone.
///
/// # Errors
///
/// Returns an error if an allocation fails.
pub fn changing_rules<A: Allocator + Copy>(
    alloc: A,
    style: Style,
    front: &str,
    text: &str,
) -> Result<Vec<Rule, A>, AllocError>
    ensures { IfOk result (λ rules. AreChangingRules style (chars front.now) (chars text.now) rules.items) }
{
    let room = buffer_len(style, text)?;
    if room <= SHORT {
        return changing_rules_in(alloc, style, front, text, &mut [0; SHORT]);
    }
    let mut bytes = vec![in alloc; 0; room]?;
    changing_rules_in(alloc, style, front, text, bytes.as_mut_slice())
}
