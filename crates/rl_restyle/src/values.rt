//! The values of a style's rules in a configuration.

ghost use Rattle.std.specs.Prelude.{◌≡◌, ◌==◌, None, Some, if◌then◌else◌};
ghost use Rattle.rl_restyle.specs.declared.rule.Rule.{Rule as AnyRule};
ghost use Rattle.rl_restyle.specs.Rules.{rule_number};
ghost use Rattle.rl_restyle.specs.Styles.{truth_in, size_in, case_in, separator_in, some_groups, groups_set_by, style_set_by};
ghost use Rattle.rl_restyle.specs.Held.{value_at};

use crate::rule::{RULES, Rule, number_of};
use crate::value::Value;
use rl_style::{Case, DigitGroups, Separator, Style};

/// The rules' values: `None` for each rule that isn't set.
#[derive(Drop)]
pub(crate) struct Values {
    values: [Option<Value>; RULES],
}

/// Returns `groups`, the sizes of digit groups, or `None` if all of its numbers are 0.
fn groups_if_any(groups: DigitGroups) -> Option<DigitGroups>
    ensures { result ≡ some_groups groups }
{
    if groups.binary == 0
        && groups.octal == 0
        && groups.decimal == 0
        && groups.hexadecimal == 0
        && groups.least == 0
    {
        None
    } else {
        Some(groups)
    }
}

impl Values {
    /// Creates the values of a style's rules, of which none is set.
    pub(crate) fn new() -> Values
        ensures { (rule : AnyRule) → value_at result rule ≡ None }
    {
        Values {
            values: [None; RULES],
        }
    }

    /// Returns the value of a rule, or `None` if the rule isn't set.
    pub(crate) fn get(&self, rule: Rule) -> Option<Value>
        ensures { result ≡ value_at self.now rule }
    {
        self.values[number_of(rule)]
    }

    /// Sets the value of a rule.
    pub(crate) fn set(&mut self, rule: Rule, value: Value)
        ensures { (other : AnyRule) → value_at self.new other
            ≡ (if rule_number rule == rule_number other then Some value else value_at self.old other) }
    {
        self.values[number_of(rule)] = Some(value);
    }

    /// Returns whether the rule is set to `true`.
    fn truth(&self, rule: Rule) -> bool
        ensures { result ≡ truth_in (value_at self.now rule) }
    {
        match self.get(rule) {
            Some(Value::Truth(truth)) => truth,
            _ => false,
        }
    }

    /// Returns the number that the rule is set to, or 0.
    fn size(&self, rule: Rule) -> usize
        ensures { result ≡ size_in (value_at self.now rule) }
    {
        match self.get(rule) {
            Some(Value::Size(size)) => size,
            _ => 0,
        }
    }

    /// Returns the case that the rule is set to, or `None`.
    fn case(&self, rule: Rule) -> Option<Case>
        ensures { result ≡ case_in (value_at self.now rule) }
    {
        match self.get(rule) {
            Some(Value::CaseOf(case)) => Some(case),
            _ => None,
        }
    }

    /// Returns the separator that the rule is set to, or `None`.
    fn separator(&self, rule: Rule) -> Option<Separator>
        ensures { result ≡ separator_in (value_at self.now rule) }
    {
        match self.get(rule) {
            Some(Value::SeparatorOf(separator)) => Some(separator),
            _ => None,
        }
    }

    /// Returns the sizes of digit groups, or `None` if no size and no `min_digits` above 0 is set.
    fn groups(&self) -> Option<DigitGroups>
        ensures { result ≡ groups_set_by (value_at self.now) }
    {
        groups_if_any(DigitGroups {
            binary: self.size(Rule::BinaryGroups),
            octal: self.size(Rule::OctalGroups),
            decimal: self.size(Rule::DecimalGroups),
            hexadecimal: self.size(Rule::HexadecimalGroups),
            least: self.size(Rule::MinDigits),
        })
    }

    /// Returns the style with the rules' values.
    pub(crate) fn style(&self) -> Style
        ensures { result ≡ style_set_by (value_at self.now) }
    {
        Style {
            hex_digits: self.case(Rule::HexDigits),
            underscores: self.truth(Rule::DropUnderscores),
            leading_zeros: self.truth(Rule::DropLeadingZeros),
            suffix_separator: self.separator(Rule::SuffixSeparator),
            digit_groups: self.groups(),
            float_zero: self.truth(Rule::FloatZero),
            exponent_letter: self.case(Rule::ExponentLetter),
            exponent_plus: self.truth(Rule::DropExponentPlus),
            escape_digits: self.case(Rule::EscapeDigits),
            code_digits: self.truth(Rule::FewestEscapeDigits),
            ascii_escapes: self.truth(Rule::DropAsciiEscapes),
            named_escapes: self.truth(Rule::NamedEscapes),
            quote_escapes: self.truth(Rule::DropQuoteEscapes),
            raw_hashes: self.truth(Rule::FewestHashes),
            raw: self.truth(Rule::DropRaw),
            hidden: self.truth(Rule::EscapeInvisible),
        }
    }
}
