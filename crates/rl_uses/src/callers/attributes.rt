//! An example of a function that calls `rl_attributes`.

ghost use Rattle.std.specs.Prelude.{List, IfOk, codes, string_bytes};
ghost use Rattle.std.specs.Str.{chars};
ghost use Rattle.rl_attributes.specs.Attributes.{Attribute, AreAttributesOf};
ghost use Rattle.rl_attributes.specs.TextSettings.{IsStringAt};

use rl_attributes::{Setting, SettingError, read};
use std::alloc::Allocator;

/// The setting `path`, the directory where files are searched for.
const PATH: Setting = Setting {
    name: "path",
    expected: "a path",
};

/// Returns the string that the settings in `text` set `path` to.
///
/// # Errors
///
/// Returns the error of [`read`] if the text isn't settings. Otherwise returns the error at the value of `path`, or
/// that `path` is missing.
pub fn path_setting<A: Allocator + Copy>(alloc: A, text: &str) -> Result<String<A>, SettingError<A>>
    ensures set { IfOk result (λ path. (list : List Attribute)
        × AreAttributesOf (chars text.now) 0 list × IsStringAt (codes "path") (string_bytes path) list) }
{
    let attrs = read(alloc, text, 0)?;
    attrs.required_string(alloc, PATH)
}
