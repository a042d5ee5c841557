//! The type of settings, the check that names are known and values have no suffix, and the type of errors.

ghost use Rattle.std.specs.Prelude.{◌≡◌, ◌≢◌, [], All, IfErr, IsOk, IsTrue, OnOk, MatchBool, string_bytes};
ghost use Rattle.std.specs.Str.{chars};
ghost use Rattle.rust_literals.specs.LitParts.{HasLitSuffix};
ghost use Rattle.rl_attributes.specs.AttributeParsing.{entries_of};
ghost use Rattle.rl_attributes.specs.Settings.{knows, HasSomeLitSuffix, IsAccepted, IsRejectedEntry, RejectsFirst, span_of};
ghost use Rattle.rl_attributes.specs.TextSettings.{HaveBareTexts, AreNamedOf, list_of, setting_names};

use crate::attributes::{Attrs, Entry};
use rl_tokens::{Error, Span};
use rust_literals::Lit;
use std::alloc::{AllocError, Allocator, Global};
use std::fmt;

/// A setting that a program accepts, as the program describes it in error messages: its name, and its expected value.
#[derive(Clone, Copy, PartialEq, Eq, Debug)]
pub struct Setting {
    /// The setting's name.
    pub name: &'static str,
    /// The setting's expected value, as text for messages. An example is `an integer from 0 to 65535`.
    pub expected: &'static str,
}

/// Writes the setting's name and its expected value, as in `port: expected an integer`.
impl fmt::Display for Setting {
    ghost use Rattle.std.specs.Prelude.{Some};
    ghost use Rattle.rl_attributes.specs.Settings.{expectation};

    ghost output = { λ setting. Some (expectation setting) };

    fn fmt<W: fmt::Write>(&self, f: &mut fmt::Formatter<W>) -> fmt::Result {
        let name = self.name;
        let expected = self.expected;
        write!(f, "{name}: expected {expected}")
    }
}

/// An error of settings. `Display` prints the message. [`SettingError::span`] returns the position.
#[derive(Drop)]
pub enum SettingError<A: Allocator = Global> {
    /// The text isn't a list of attributes, or an allocation failed.
    Text(Error<A>),
    /// The name of an attribute is unknown. The field is the name's span.
    Unknown(Span),
    /// The value of an attribute has a suffix. The field is the value's span.
    Suffix(Span),
    /// The value of a setting is a literal of another kind than the expected one, or an integer out of the range that
    /// [`Attrs::unsigned`] expects. The fields are the setting and the value's span.
    Kind(Setting, Span),
    /// The value of a setting isn't a valid literal, or is an integer above 128 bits. The fields are the setting and
    /// the value's span. `explain_missing_value` of `rl_grammar` returns the reason for the literal's text.
    Malformed(Setting, Span),
    /// The number type of a setting rejected the value. The fields are the setting and the error, which `base10_parse`
    /// returned.
    Value(Setting, Error<A>),
    /// A setting is required, and no attribute has its name. The fields are the setting and a span, the end of the
    /// settings.
    Missing(Setting, Span),
}

impl<A: Allocator> SettingError<A> {
    /// Returns the error's span, a byte range of the text.
    pub fn span(&self) -> Span
        ensures { result ≡ span_of self.now }
    {
        match self {
            SettingError::Text(error) => error.span,
            SettingError::Unknown(span) => *span,
            SettingError::Suffix(span) => *span,
            SettingError::Kind(_, span) => *span,
            SettingError::Malformed(_, span) => *span,
            SettingError::Value(_, error) => error.span,
            SettingError::Missing(_, span) => *span,
        }
    }
}

impl<A: Allocator> fmt::Display for SettingError<A> {
    ghost use Rattle.std.specs.Prelude.{Some};
    ghost use Rattle.rl_attributes.specs.Settings.{setting_message};

    ghost output = { λ error. Some (setting_message error) };

    fn fmt<W: fmt::Write>(&self, f: &mut fmt::Formatter<W>) -> fmt::Result {
        match self {
            SettingError::Text(error) => write!(f, "{error}"),
            SettingError::Unknown(_) => f.write_str("unknown name"),
            SettingError::Suffix(_) => f.write_str("unexpected suffix"),
            SettingError::Kind(setting, _) => write!(f, "{setting}"),
            SettingError::Malformed(setting, _) => {
                let name = setting.name;
                write!(f, "{name}: malformed literal")
            }
            SettingError::Value(setting, error) => write!(f, "{setting}: {error}"),
            SettingError::Missing(setting, _) => write!(f, "missing {setting}"),
        }
    }
}

/// Converts an error of [`crate::read`] to `Text`.
impl<A: Allocator> From<Error<A>> for SettingError<A> {
    ghost use Rattle.std.specs.Prelude.{◌≡◌};
    ghost use Rattle.rl_attributes.specs.declared.settings.SettingError.TheVariants.{Text};

    ghost from_gives = { λ error setting. setting ≡ Text error };

    fn from(error: Error<A>) -> SettingError<A> {
        SettingError::Text(error)
    }
}

/// Converts std's error for an allocation failure, which has no position, to `Text` with `Memory` at
/// [`Span::call_site`].
impl<A: Allocator> From<AllocError> for SettingError<A> {
    ghost use Rattle.std.specs.Prelude.{◌≡◌};
    ghost use Rattle.rl_tokens.specs.Errors.{memory_at};
    ghost use Rattle.rl_syntax.specs.Spans.{nowhere};
    ghost use Rattle.rl_attributes.specs.declared.settings.SettingError.TheVariants.{Text};

    ghost from_gives = { λ failed setting. setting ≡ Text (memory_at nowhere) };

    fn from(_failed: AllocError) -> SettingError<A> {
        SettingError::Text(Error::out_of_memory(Span::call_site()))
    }
}

/// Whether one of `settings` has the name `name`.
fn is_known(settings: &[Setting], name: &str) -> bool
    ensures { result ≡ knows settings.now name.now }
{
    settings.iter().any(|setting| setting.name == name)
}

/// Whether `text` isn't empty.
fn is_some(text: &str) -> bool
    ensures { MatchBool result (chars text.now ≢ []) (chars text.now ≡ []) }
{
    !text.is_empty()
}

/// Whether `literal` has a suffix.
fn has_suffix<A: Allocator>(literal: &Lit<A>) -> bool
    ensures { MatchBool result (HasSomeLitSuffix literal.now) (HasLitSuffix literal.now []) }
{
    is_some(literal.suffix())
}

/// Checks that one of `settings` has the name of the attribute `entry`, and that the attribute's value has no suffix.
fn check_entry<A: Allocator>(entry: &Entry<A>, settings: &[Setting]) -> Result<(), SettingError<A>>
    ensures accepted { OnOk result (IsAccepted settings.now entry.now) }
    ensures rejected { IfErr result (IsRejectedEntry settings.now entry.now) }
{
    if !is_known(settings, entry.name.as_str()) {
        Err(SettingError::Unknown(entry.span))
    } else if has_suffix(&entry.value) {
        Err(SettingError::Suffix(entry.value.span()))
    } else {
        Ok(())
    }
}

impl<A: Allocator> Attrs<A> {
    /// Checks that each attribute has the name of one of `settings`, and that no value has a suffix. Nothing is changed
    /// or allocated.
    ///
    /// # Errors
    ///
    /// Returns the error of the first attribute with an unknown name or a suffix. The error is `Unknown` at the
    /// attribute's name if the name is unknown. Otherwise it is `Suffix` at the attribute's value.
    pub fn check(&self, settings: &[Setting]) -> Result<(), SettingError<A>>
        // On success every attribute's name is known, and no attribute's value has a suffix.
        ensures known { OnOk result (All (λ entry. IsTrue (knows settings.now (string_bytes entry.name)))
            (entries_of self.now)) }
        ensures bare { OnOk result
            (All (λ entry. HasLitSuffix entry.value []) (entries_of self.now)) }
        // On success each attribute's name in the text is known, and the text of no attribute's value has a suffix.
        // Conversely, if all attributes have both properties, the check succeeds.
        ensures names { OnOk result (AreNamedOf (setting_names settings.now) (list_of self.now)) }
        ensures bare_texts { OnOk result (HaveBareTexts (list_of self.now)) }
        ensures exactly { AreNamedOf (setting_names settings.now) (list_of self.now)
            → HaveBareTexts (list_of self.now) → IsOk result }
        // The returned error is the error for the first attribute that isn't accepted.
        ensures first { IfErr result (RejectsFirst settings.now (entries_of self.now)) }
    {
        for entry in self.entries() {
            check_entry(entry, settings)?;
        }
        Ok(())
    }
}
