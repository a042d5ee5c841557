//! The rules of a style, each by its name.

ghost use Rattle.std.specs.Prelude.{◌≡◌, ◌≤◌, ◌+◌, ◌*◌, ◌↔◌, length, IfOk, IfErr, IsTrue};
ghost use Rattle.std.specs.Str.{chars};
ghost use Rattle.rl_strict.specs.StrictFlaws.{ExplainsStrictly};
ghost use Rattle.rl_style.specs.Rewriting.{room_for};
ghost use Rattle.rl_style.specs.Rules.{Changes, all_rules as all_of_them, only as style_of, rule_label};

use crate::rewrite::rewrite_within;
use crate::style::Style;
use rl_strict::Flaw;

/// A rule of a style. Each variant is named after a field of [`Style`].
#[derive(Clone, Copy, PartialEq, Eq, Debug)]
pub enum Rule {
    HexDigits,
    Underscores,
    LeadingZeros,
    SuffixSeparator,
    DigitGroups,
    FloatZero,
    ExponentLetter,
    ExponentPlus,
    EscapeDigits,
    CodeDigits,
    AsciiEscapes,
    NamedEscapes,
    QuoteEscapes,
    RawHashes,
    Raw,
    Hidden,
}

/// Returns all rules, in the order of the fields of [`Style`].
pub fn all_rules() -> &'static [Rule]
    ensures { result.now ≡ all_of_them }
{
    &[
        Rule::HexDigits,
        Rule::Underscores,
        Rule::LeadingZeros,
        Rule::SuffixSeparator,
        Rule::DigitGroups,
        Rule::FloatZero,
        Rule::ExponentLetter,
        Rule::ExponentPlus,
        Rule::EscapeDigits,
        Rule::CodeDigits,
        Rule::AsciiEscapes,
        Rule::NamedEscapes,
        Rule::QuoteEscapes,
        Rule::RawHashes,
        Rule::Raw,
        Rule::Hidden,
    ]
}

impl Rule {
    /// Returns the rule's name in configurations and in the package's setters, for example `drop_underscores`.
    pub fn name(self) -> &'static str
        ensures { result.now ≡ rule_label self }
    {
        match self {
            Rule::HexDigits => "hex_digits",
            Rule::Underscores => "drop_underscores",
            Rule::LeadingZeros => "drop_leading_zeros",
            Rule::SuffixSeparator => "suffix_separator",
            Rule::DigitGroups => "digit_groups",
            Rule::FloatZero => "float_zero",
            Rule::ExponentLetter => "exponent_letter",
            Rule::ExponentPlus => "drop_exponent_plus",
            Rule::EscapeDigits => "escape_digits",
            Rule::CodeDigits => "fewest_escape_digits",
            Rule::AsciiEscapes => "drop_ascii_escapes",
            Rule::NamedEscapes => "named_escapes",
            Rule::QuoteEscapes => "drop_quote_escapes",
            Rule::RawHashes => "fewest_hashes",
            Rule::Raw => "drop_raw",
            Rule::Hidden => "escape_invisible",
        }
    }
}

impl Style {
    /// Returns a style that has the rule `rule` as this style has it, and no other rule.
    pub fn only(self, rule: Rule) -> Style
        ensures { result ≡ style_of self rule }
    {
        let keep = Style::KEEP;
        match rule {
            Rule::HexDigits => Style {
                hex_digits: self.hex_digits,
                ..keep
            },
            Rule::Underscores => Style {
                underscores: self.underscores,
                ..keep
            },
            Rule::LeadingZeros => Style {
                leading_zeros: self.leading_zeros,
                ..keep
            },
            Rule::SuffixSeparator => Style {
                suffix_separator: self.suffix_separator,
                ..keep
            },
            Rule::DigitGroups => Style {
                digit_groups: self.digit_groups,
                ..keep
            },
            Rule::FloatZero => Style {
                float_zero: self.float_zero,
                ..keep
            },
            Rule::ExponentLetter => Style {
                exponent_letter: self.exponent_letter,
                ..keep
            },
            Rule::ExponentPlus => Style {
                exponent_plus: self.exponent_plus,
                ..keep
            },
            Rule::EscapeDigits => Style {
                escape_digits: self.escape_digits,
                ..keep
            },
            Rule::CodeDigits => Style {
                code_digits: self.code_digits,
                ..keep
            },
            Rule::AsciiEscapes => Style {
                ascii_escapes: self.ascii_escapes,
                ..keep
            },
            Rule::NamedEscapes => Style {
                named_escapes: self.named_escapes,
                ..keep
            },
            Rule::QuoteEscapes => Style {
                quote_escapes: self.quote_escapes,
                ..keep
            },
            Rule::RawHashes => Style {
                raw_hashes: self.raw_hashes,
                ..keep
            },
            Rule::Raw => Style {
                raw: self.raw,
                ..keep
            },
            Rule::Hidden => Style {
                hidden: self.hidden,
                ..keep
            },
        }
    }
}

/// Returns `true` if the style changes the literal token `text`. `front` is the text before the literal. [`rewrite_within`]
/// writes the new text to the start of `out`.
///
/// # Errors
///
/// Returns the flaw of [`explain`](rl_strict::explain) if `text` isn't a literal token.
pub fn is_changed_by_style(
    front: &str,
    text: &str,
    style: Style,
    out: &mut [u8],
) -> Result<bool, Flaw>
    requires { room_for style text.now ≤ length out.old }
    ensures change { IfOk result (λ is. IsTrue is ↔ Changes style (chars front.now) (chars text.now)) }
    ensures flaw { IfErr result (ExplainsStrictly (chars text.now)) }
{
    let len = rewrite_within(front, text, style, out)?;
    let is_same = &out[..len] == text.as_bytes();
    Ok(!is_same)
}
