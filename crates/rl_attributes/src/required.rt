//! Functions that return the value of a required setting, or of a setting with a default.

ghost use Rattle.std.specs.Prelude.{◌≡◌, ◌≤◌, ℕ, List, Bool, IfOk, IfErr, Ok, string_bytes};
ghost use Rattle.rl_attributes.specs.AttributeParsing.{entries_of};
ghost use Rattle.rl_attributes.specs.Settings.{RejectsSetValue, RejectsString, RejectsTruth, RejectsUnsigned, RejectsNumber};
ghost use Rattle.rl_attributes.specs.TextSettings.{AreDigitsAt, IsNumberAt, IsNumberOrRejected, IsStringAt, IsStringOrMemory, IsTruthAt, IsTruthOr, IsUnsignedAt, IsUnsignedOr, RejectsRequired, list_of};

use crate::attributes::Attrs;
use crate::settings::{Setting, SettingError};
use std::alloc::Allocator;
use std::fmt::Display;
use std::str::FromStr;

impl<A: Allocator> Attrs<A> {
    /// Returns the decoded string that the setting `setting` is set to. The setting is required.
    ///
    /// # Errors
    ///
    /// Returns the errors of [`Attrs::string`]. Returns `Missing` at the end of the settings if no attribute has the
    /// setting's name.
    ///
    /// # Example
    ///
    /// ```
    /// use rl_attributes::{Setting, read};
    /// use std::alloc::Global;
    ///
    /// pub fn required_host(alloc: Global, text: &str) -> Option<String> {
    ///     let host = Setting {
    ///         name: "host",
    ///         expected: "a string",
    ///     };
    ///     read(alloc, text, 0).ok()?.required_string(alloc, host).ok()
    /// }
    /// // required_host(alloc, "host = \"a\", port = 80") == Some("a")
    /// ```
    pub fn required_string(&self, alloc: A, setting: Setting) -> Result<String<A>, SettingError<A>>
        ensures set { IfOk result
            (λ text. IsStringAt setting.name.now (string_bytes text) (list_of self.now)) }
        ensures exactly { (value : List ℕ) → IsStringAt setting.name.now value (list_of self.now)
            → IsStringOrMemory value result }
        ensures rejected { IfErr result (RejectsRequired setting self.now (RejectsString setting)) }
    {
        match self.string(alloc, setting) {
            Ok(Some(text)) => Ok(text),
            Ok(None) => Err(self.missing_error(setting)),
            Err(error) => Err(error),
        }
    }

    /// Returns the number that the setting `setting` is set to. The setting is required.
    ///
    /// # Errors
    ///
    /// Returns the errors of [`Attrs::number`]. Returns `Missing` at the end of the settings if no attribute has the
    /// setting's name.
    ///
    /// See the example of [`Attrs::required_string`].
    pub fn required_number<N: FromStr>(
        &self,
        alloc: A,
        setting: Setting,
    ) -> Result<N, SettingError<A>>
    where
        N::Err: Display + Drop,
        ensures set { IfOk result
            (λ number. IsNumberAt N.from_str_gives setting.name.now number (list_of self.now)) }
        ensures exactly { (digits : List ℕ) → AreDigitsAt setting.name.now digits (list_of self.now)
            → IsNumberOrRejected N.from_str_gives digits result }
        ensures rejected { IfErr result (RejectsRequired setting self.now
            (RejectsNumber N.from_str_gives N.Err.output setting)) }
    {
        match self.number::<N>(alloc, setting) {
            Ok(Some(number)) => Ok(number),
            Ok(None) => Err(self.missing_error(setting)),
            Err(error) => Err(error),
        }
    }

    /// Returns the integer that the setting `setting` is set to. The setting is required, and the integer must be from 0 to
    /// `most`.
    ///
    /// # Errors
    ///
    /// Returns the errors of [`Attrs::unsigned`]. Returns `Missing` at the end of the settings if no attribute has the
    /// setting's name.
    ///
    /// See the example of [`Attrs::unsigned_or`].
    pub fn required_unsigned(&self, setting: Setting, most: u64) -> Result<u64, SettingError<A>>
        ensures set { IfOk result (λ value. IsUnsignedAt setting.name.now most value (list_of self.now)) }
        ensures exactly { (value : ℕ) → IsUnsignedAt setting.name.now most value (list_of self.now)
            → result ≡ Ok value }
        ensures rejected { IfErr result (RejectsRequired setting self.now (RejectsUnsigned most setting)) }
    {
        match self.unsigned(setting, most) {
            Ok(Some(value)) => Ok(value),
            Ok(None) => Err(self.missing_error(setting)),
            Err(error) => Err(error),
        }
    }

    /// Returns the integer that the setting `setting` is set to, or `default` if no attribute has the setting's name. A set
    /// integer must be from 0 to `most`.
    ///
    /// # Errors
    ///
    /// Returns the errors of [`Attrs::unsigned`].
    ///
    /// # Example
    ///
    /// ```
    /// use rl_attributes::{Setting, read};
    /// use std::alloc::Global;
    ///
    /// pub fn port_or_80(alloc: Global, text: &str) -> Option<u64> {
    ///     let port = Setting {
    ///         name: "port",
    ///         expected: "an integer from 0 to 65535",
    ///     };
    ///     read(alloc, text, 0).ok()?.unsigned_or(port, 65535, 80).ok()
    /// }
    /// // port_or_80(alloc, "port = 8080") == Some(8080)
    /// // port_or_80(alloc, "host = \"a\"") == Some(80)
    /// // port_or_80(alloc, "port = 65536") == None
    /// ```
    pub fn unsigned_or(
        &self,
        setting: Setting,
        most: u64,
        default: u64,
    ) -> Result<u64, SettingError<A>>
        ensures set { IfOk result (λ value. IsUnsignedOr setting.name.now most default value (list_of self.now)) }
        ensures exactly { (value : ℕ) → IsUnsignedOr setting.name.now most default value (list_of self.now)
            → result ≡ Ok value }
        ensures within { default ≤ most → IfOk result (λ value. value ≤ most) }
        ensures rejected { IfErr result
            (RejectsSetValue setting (entries_of self.now) (RejectsUnsigned most setting)) }
    {
        let found = self.unsigned(setting, most);
        match found {
            Ok(value) => Ok(value.unwrap_or(default)),
            Err(error) => Err(error),
        }
    }

    /// Returns the `bool` that the setting `setting` is set to. The setting is required.
    ///
    /// # Errors
    ///
    /// Returns the errors of [`Attrs::bool`]. Returns `Missing` at the end of the settings if no attribute has the
    /// setting's name.
    ///
    /// See the example of [`Attrs::required_string`].
    pub fn required_bool(&self, setting: Setting) -> Result<bool, SettingError<A>>
        ensures set { IfOk result (λ truth. IsTruthAt setting.name.now truth (list_of self.now)) }
        ensures exactly { (value : Bool) → IsTruthAt setting.name.now value (list_of self.now)
            → result ≡ Ok value }
        ensures rejected { IfErr result (RejectsRequired setting self.now (RejectsTruth setting)) }
    {
        match self.bool(setting) {
            Ok(Some(truth)) => Ok(truth),
            Ok(None) => Err(self.missing_error(setting)),
            Err(error) => Err(error),
        }
    }

    /// Returns the `bool` that the setting `setting` is set to, or `default` if no attribute has the setting's name.
    ///
    /// # Errors
    ///
    /// Returns the errors of [`Attrs::bool`].
    ///
    /// See the example of [`Attrs::required_string`].
    pub fn bool_or(&self, setting: Setting, default: bool) -> Result<bool, SettingError<A>>
        ensures set { IfOk result (λ truth. IsTruthOr setting.name.now default truth (list_of self.now)) }
        ensures exactly { (value : Bool) → IsTruthOr setting.name.now default value (list_of self.now)
            → result ≡ Ok value }
        ensures rejected { IfErr result
            (RejectsSetValue setting (entries_of self.now) (RejectsTruth setting)) }
    {
        let found = self.bool(setting);
        match found {
            Ok(found) => Ok(found.unwrap_or(default)),
            Err(error) => Err(error),
        }
    }
}
