//! Parsers of single literals by the lenient grammar, which is that of `syn`. Other functions decode a string into a
//! slice that the caller passes, or return the parts of a number.
//!
//! The parsers follow the module `value` in `src/lit.rs` of the crate `syn` 3.0.9. Nothing is allocated.
//!
//! # Example
//!
//! ```
//! ghost use Rattle.std.specs.Prelude.{[], IfSome};
//! ghost use Rattle.std.specs.Str.{chars};
//! ghost use Rattle.rl_lenient.specs.Values.{HasIntegerValue};
//!
//! use rl_lenient::parse_literal;
//!
//! pub fn integer_literal_value(text: &str) -> Option<i128>
//!     ensures value { IfSome result (HasIntegerValue (chars text.now) []) }
//! {
//!     let found = parse_literal(text)?;
//!     if found.has_suffix(text) {
//!         return None;
//!     }
//!     found.signed(text)
//! }
//! // integer_literal_value("-0x1F") == Some(-31)
//! ```
#![tactic(auto)]

pub mod contents;
pub mod digit_runs;
mod digits;
pub mod found;
mod integers;
pub mod laws;
pub mod number_forms;
mod numbers;
pub mod parts;
pub mod quoted_forms;
pub mod units;
pub mod values;

pub use crate::contents::{
    byte_of, byte_of_body, char_of, char_of_body, decode_bytes_into, decode_str_into, is_plain,
};
pub use crate::digits::{float_digits_into, is_plain_integer};
pub use crate::found::{
    Body, Found, Parts, bool_of, parse_float_literal, parse_int_literal, parse_literal,
    parse_with_added_minus, shape,
};
pub use crate::integers::{Integer, ValueFlaw, integer_value, is_signed};
pub use crate::number_forms::{float_shape, int_shape, shape_negative};
pub use crate::numbers::{FloatParts, IntegerParts, float_parts, integer_parts};
