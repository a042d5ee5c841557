//! Functions that return the value of a setting as a string, a number, an unsigned integer or a `bool`.

ghost use Rattle.std.specs.Prelude.{◌≡◌, ℕ, List, Bool, Some, None, Ok, IfOk, IfErr, IfSome, IfNone, IsOkAnd, MatchOption, string_bytes};
ghost use Rattle.rl_attributes.specs.AttributeParsing.{entries_of, attrs_end};
ghost use Rattle.rl_attributes.specs.Settings.{
  IsSetAs,
  IsStringSet,
  IsTruthSet,
  IsUnsigned,
  IsUnsignedSet,
  IsNumberSet,
  IsOtherKind,
  RejectsSetValue,
  RejectsString,
  RejectsTruth,
  RejectsUnsigned,
  RejectsNumber,
};
ghost use Rattle.rl_attributes.specs.TextSettings.{AreDigitsAt, IsNumberAt, IsSomeNumberOrRejected, IsSomeStringOrMemory, IsStringAt, IsTruthAt, IsUnset, IsUnsignedAt, list_of};
ghost use Rattle.rl_attributes.specs.declared.settings.SettingError.TheVariants.{Missing};

use crate::attributes::Attrs;
use crate::settings::{Setting, SettingError};
use rl_lenient::parse_int_literal;
use rl_syntax::text::begins_with_char;
use rust_literals::Lit;
use std::alloc::Allocator;
use std::fmt::Display;
use std::str::FromStr;

/// Returns the error for a setting whose value is of another kind than expected: `Kind` at the value, or `Malformed` if
/// the value isn't a valid literal or is an integer above 128 bits.
fn other_kind<A: Allocator>(setting: Setting, value: &Lit<A>) -> SettingError<A>
    ensures { IsOtherKind setting value.now result }
{
    match value {
        Lit::Verbatim(literal) => SettingError::Malformed(setting, literal.span()),
        other => SettingError::Kind(setting, other.span()),
    }
}

/// Returns the decoded value of `value`, the literal that the setting `setting` is set to, which must be a string
/// literal.
fn string_of<A: Allocator>(
    alloc: A,
    setting: Setting,
    value: &Lit<A>,
) -> Result<String<A>, SettingError<A>>
    ensures read { IfOk result (IsStringSet value.now) }
    ensures rejected { IfErr result (RejectsString setting value.now) }
{
    match value {
        Lit::Str(literal) => Ok(literal.value(alloc)?),
        other => Err(other_kind(setting, other)),
    }
}

/// Returns the `bool` that the literal `value` represents. `value` is the value of the setting `setting`, and must be a
/// `bool` literal.
fn bool_of<A: Allocator>(setting: Setting, value: &Lit<A>) -> Result<bool, SettingError<A>>
    ensures read { IfOk result (IsTruthSet value.now) }
    ensures rejected { IfErr result (RejectsTruth setting value.now) }
{
    match value {
        Lit::Bool(literal) => Ok(literal.value()),
        other => Err(other_kind(setting, other)),
    }
}

/// Returns the value of the integer literal `text`, or `None` if it is negative or above `most`.
fn unsigned_value(text: &str, most: u64) -> Option<u64>
    ensures some { IfSome result (λ value. IsUnsigned most value text.now) }
    ensures none { IfNone result ((value : ℕ) → IsUnsigned most value text.now → ⊥) }
{
    if begins_with_char(text, '-') {
        return None;
    }
    let found = parse_int_literal(text)??;
    if found.magnitude > most as u128 {
        return None;
    }
    Some(found.magnitude as u64)
}

/// Returns the value of the literal `value`, which is the value of the setting `setting`, and must be an integer literal
/// from 0 to `most`.
fn unsigned_of<A: Allocator>(
    setting: Setting,
    most: u64,
    value: &Lit<A>,
) -> Result<u64, SettingError<A>>
    ensures read { IfOk result (IsUnsignedSet most value.now) }
    ensures rejected { IfErr result (RejectsUnsigned most setting value.now) }
{
    match value {
        Lit::Int(literal) => match unsigned_value(literal.text(), most) {
            Some(number) => Ok(number),
            None => Err(SettingError::Kind(setting, literal.span())),
        },
        other => Err(other_kind(setting, other)),
    }
}

/// Returns the number that the literal `value` represents, as the number type `N` parses it. `value` is the value of
/// the setting `setting`, and must be an integer or float literal.
fn number_of<N: FromStr, A: Allocator>(
    alloc: A,
    setting: Setting,
    value: &Lit<A>,
) -> Result<N, SettingError<A>>
where
    N::Err: Display + Drop,
    ensures read { IfOk result (IsNumberSet N.from_str_gives value.now) }
    ensures rejected { IfErr result
        (RejectsNumber N.from_str_gives N.Err.output setting value.now) }
{
    let parsed = match value {
        Lit::Int(literal) => literal.base10_parse(alloc),
        Lit::Float(literal) => literal.base10_parse(alloc),
        other => return Err(other_kind(setting, other)),
    };
    match parsed {
        Ok(number) => Ok(number),
        Err(error) => Err(SettingError::Value(setting, error)),
    }
}

impl<A: Allocator> Attrs<A> {
    /// Returns the decoded string that the setting `setting` is set to, or `None` if no attribute has the setting's
    /// name.
    fn found_string(&self, alloc: A, setting: Setting) -> Result<Option<String<A>>, SettingError<A>>
        ensures set { IfOk result (IsSetAs setting (entries_of self.now) IsStringSet) }
        ensures rejected { IfErr result
            (RejectsSetValue setting (entries_of self.now) (RejectsString setting)) }
    {
        let Some(value) = self.get(setting.name) else {
            return Ok(None);
        };
        match string_of(alloc, setting, value) {
            Ok(text) => Ok(Some(text)),
            Err(error) => Err(error),
        }
    }

    /// Returns the number that the setting `setting` is set to, or `None` if no attribute has the setting's name.
    fn found_number<N: FromStr>(
        &self,
        alloc: A,
        setting: Setting,
    ) -> Result<Option<N>, SettingError<A>>
    where
        N::Err: Display + Drop,
        ensures set { IfOk result
            (IsSetAs setting (entries_of self.now) (IsNumberSet N.from_str_gives)) }
        ensures rejected { IfErr result (RejectsSetValue setting (entries_of self.now)
            (RejectsNumber N.from_str_gives N.Err.output setting)) }
    {
        let Some(value) = self.get(setting.name) else {
            return Ok(None);
        };
        match number_of(alloc, setting, value) {
            Ok(number) => Ok(Some(number)),
            Err(error) => Err(error),
        }
    }

    /// Returns the integer that the setting `setting` is set to, from 0 to `most`, or `None` if no attribute has the
    /// setting's name.
    fn found_unsigned(&self, setting: Setting, most: u64) -> Result<Option<u64>, SettingError<A>>
        ensures set { IfOk result (IsSetAs setting (entries_of self.now) (IsUnsignedSet most)) }
        ensures rejected { IfErr result
            (RejectsSetValue setting (entries_of self.now) (RejectsUnsigned most setting)) }
    {
        let Some(value) = self.get(setting.name) else {
            return Ok(None);
        };
        match unsigned_of(setting, most, value) {
            Ok(number) => Ok(Some(number)),
            Err(error) => Err(error),
        }
    }

    /// Returns the `bool` that the setting `setting` is set to, or `None` if no attribute has the setting's name.
    fn found_truth(&self, setting: Setting) -> Result<Option<bool>, SettingError<A>>
        ensures set { IfOk result (IsSetAs setting (entries_of self.now) IsTruthSet) }
        ensures rejected { IfErr result
            (RejectsSetValue setting (entries_of self.now) (RejectsTruth setting)) }
    {
        let Some(value) = self.get(setting.name) else {
            return Ok(None);
        };
        match bool_of(setting, value) {
            Ok(truth) => Ok(Some(truth)),
            Err(error) => Err(error),
        }
    }
}

impl<A: Allocator> Attrs<A> {
    /// Returns the decoded string that the setting `setting` is set to, or `None` if no attribute has the setting's
    /// name.
    ///
    /// # Errors
    ///
    /// Returns `Malformed` at a value that isn't a valid literal or is an integer above 128 bits. Returns `Kind` at any
    /// other literal that isn't a string. Returns `Text` with `Memory` at the value if an allocation fails.
    ///
    /// # Example
    ///
    /// ```
    /// use rl_attributes::{Setting, read};
    /// use std::alloc::Global;
    ///
    /// pub fn optional_host(alloc: Global, text: &str) -> Option<String> {
    ///     let host = Setting {
    ///         name: "host",
    ///         expected: "a string",
    ///     };
    ///     let attrs = read(alloc, text, 0).ok()?;
    ///     attrs.string(alloc, host).ok()?
    /// }
    /// // optional_host(alloc, "host = \"a\", port = 80") == Some("a")
    /// ```
    pub fn string(&self, alloc: A, setting: Setting) -> Result<Option<String<A>>, SettingError<A>>
        ensures set { IfOk result (IsSetAs setting (entries_of self.now) IsStringSet) }
        ensures rejected { IfErr result
            (RejectsSetValue setting (entries_of self.now) (RejectsString setting)) }
        // If the result is a string, the text sets the setting's name to that string. If it is `None`, no attribute in
        // the text has the name. Conversely, a string in the text is returned unless an allocation fails, and a missing
        // name gives `None`.
        ensures text { IfOk result (λ found. MatchOption found (IsUnset setting.name.now (list_of self.now))
            (λ text. IsStringAt setting.name.now (string_bytes text) (list_of self.now))) }
        ensures exactly { (value : List ℕ) → IsStringAt setting.name.now value (list_of self.now)
            → IsSomeStringOrMemory value result }
        ensures unset { IsUnset setting.name.now (list_of self.now) → IsOkAnd result (λ found. found ≡ None) }
    {
        self.found_string(alloc, setting)
    }

    /// Returns the number that the setting `setting` is set to, or `None` if no attribute has the setting's name. The
    /// number type `N` parses the digits of the value in base ten: `0x50` as a `u16` is 80.
    ///
    /// # Errors
    ///
    /// Returns `Malformed` at a value that isn't a valid literal or is an integer above 128 bits. Returns `Kind` at any
    /// other literal that is neither an integer nor a float. Returns `Value` with the error of `base10_parse` if the
    /// number type rejects the value.
    ///
    /// See the example of [`Attrs::string`].
    pub fn number<N: FromStr>(
        &self,
        alloc: A,
        setting: Setting,
    ) -> Result<Option<N>, SettingError<A>>
    where
        N::Err: Display + Drop,
        ensures set { IfOk result
            (IsSetAs setting (entries_of self.now) (IsNumberSet N.from_str_gives)) }
        ensures rejected { IfErr result (RejectsSetValue setting (entries_of self.now)
            (RejectsNumber N.from_str_gives N.Err.output setting)) }
        // If the result is a number, the text sets the setting's name to a literal from whose digits the number type
        // parses that number. If it is `None`, no attribute in the text has the name. Conversely, a number in the text
        // is returned unless its type rejects it, and a missing name gives `None`.
        ensures text { IfOk result (λ found. MatchOption found (IsUnset setting.name.now (list_of self.now))
            (λ number. IsNumberAt N.from_str_gives setting.name.now number (list_of self.now))) }
        ensures exactly { (digits : List ℕ) → AreDigitsAt setting.name.now digits (list_of self.now)
            → IsSomeNumberOrRejected N.from_str_gives digits result }
        ensures unset { IsUnset setting.name.now (list_of self.now) → IsOkAnd result (λ found. found ≡ None) }
    {
        self.found_number(alloc, setting)
    }

    /// Returns the integer that the setting `setting` is set to, or `None` if no attribute has the setting's name. The
    /// integer must be from 0 to `most`. Its suffix is ignored: [`Attrs::check`] rejects suffixes. Nothing is allocated.
    ///
    /// # Errors
    ///
    /// Returns `Malformed` at a value that isn't a valid literal or is an integer above 128 bits. Returns `Kind` at any
    /// other literal that isn't an integer, and at an integer with a minus or above `most`.
    ///
    /// See the example of [`Attrs::unsigned_or`].
    pub fn unsigned(&self, setting: Setting, most: u64) -> Result<Option<u64>, SettingError<A>>
        ensures set { IfOk result (IsSetAs setting (entries_of self.now) (IsUnsignedSet most)) }
        ensures rejected { IfErr result
            (RejectsSetValue setting (entries_of self.now) (RejectsUnsigned most setting)) }
        // If the result is an integer, the text sets the setting's name to that integer. If it is `None`, no attribute
        // in the text has the name. Conversely, an integer from 0 to `most` in the text is returned, and a missing name
        // gives `None`.
        ensures text { IfOk result (λ found. MatchOption found (IsUnset setting.name.now (list_of self.now))
            (λ value. IsUnsignedAt setting.name.now most value (list_of self.now))) }
        ensures exactly { (value : ℕ) → IsUnsignedAt setting.name.now most value (list_of self.now)
            → result ≡ Ok (Some value) }
        ensures unset { IsUnset setting.name.now (list_of self.now) → IsOkAnd result (λ found. found ≡ None) }
    {
        self.found_unsigned(setting, most)
    }

    /// Returns the `bool` that the setting `setting` is set to, or `None` if no attribute has the setting's name.
    /// Nothing is allocated.
    ///
    /// # Errors
    ///
    /// Returns `Malformed` at a value that isn't a valid literal or is an integer above 128 bits. Returns `Kind` at any
    /// other literal that is neither `true` nor `false`.
    ///
    /// See the example of [`Attrs::string`].
    pub fn bool(&self, setting: Setting) -> Result<Option<bool>, SettingError<A>>
        ensures set { IfOk result (IsSetAs setting (entries_of self.now) IsTruthSet) }
        ensures rejected { IfErr result
            (RejectsSetValue setting (entries_of self.now) (RejectsTruth setting)) }
        // If the result is a `bool`, the text sets the setting's name to that `bool`. If it is `None`, no attribute in
        // the text has the name. Conversely, a `bool` in the text is returned, and a missing name gives `None`.
        ensures text { IfOk result (λ found. MatchOption found (IsUnset setting.name.now (list_of self.now))
            (λ truth. IsTruthAt setting.name.now truth (list_of self.now))) }
        ensures exactly { (value : Bool) → IsTruthAt setting.name.now value (list_of self.now)
            → result ≡ Ok (Some value) }
        ensures unset { IsUnset setting.name.now (list_of self.now) → IsOkAnd result (λ found. found ≡ None) }
    {
        self.found_truth(setting)
    }

    /// Returns the error `Missing` for the required setting `setting`, at the end of the settings. A caller that
    /// requires a setting returns this error if the setting's value is `None`.
    ///
    /// # Example
    ///
    /// ```
    /// use rl_attributes::{Setting, read};
    /// use std::alloc::Global;
    ///
    /// pub fn missing_host_offset(alloc: Global, text: &str) -> Option<usize> {
    ///     let host = Setting {
    ///         name: "host",
    ///         expected: "a string",
    ///     };
    ///     let attrs = read(alloc, text, 0).ok()?;
    ///     match attrs.get(host.name) {
    ///         Some(_) => None,
    ///         None => Some(attrs.missing_error(host).span().lo),
    ///     }
    /// }
    /// // missing_host_offset(alloc, "port = 80") == Some(9)
    /// ```
    pub fn missing_error(&self, setting: Setting) -> SettingError<A>
        ensures { result ≡ Missing setting (attrs_end self.now) }
    {
        SettingError::Missing(setting, self.end_span())
    }
}
