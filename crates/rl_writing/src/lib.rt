//! Functions that write literals in other forms than those of `rl_syntax`: integers in a style, raw strings, and
//! strings and characters in ASCII. Other functions test for invisible and bidirectional characters.
//!
//! Each written text is a single literal token, and its parsed value is the value that was written. Nothing is
//! allocated.
//!
//! # Example
//!
//! ```
//! ghost use Rattle.std.specs.Prelude.{◌≤◌, ◌+◌, ◌*◌, [], length, take};
//! ghost use Rattle.std.specs.Str.{chars};
//! ghost use Rattle.rl_syntax.specs.declared.kind.Kind.TheVariants.{Str};
//! ghost use Rattle.rl_syntax.specs.Reading.{Characters, Reads};
//!
//! use rl_writing::write_str_ascii_into;
//!
//! pub fn write_ascii_string_literal(text: &str, out: &mut [u8]) -> usize
//!     requires { 4 * length text.now + 2 ≤ length out.old }
//!     ensures reads { Reads (chars (take result out.new)) Str (Characters (chars text.now)) [] }
//! {
//!     write_str_ascii_into(text, out)
//! }
//! // write_ascii_string_literal("é", &mut [0; 64]) == 8
//! ```
#![tactic(auto)]

mod ascii;
mod base;
mod hiding;
mod integers;
pub mod laws;
mod numerals;
mod raw_strings;

pub use crate::ascii::{put_unicode_escape, write_char_ascii_into, write_str_ascii_into};
pub use crate::base::Base;
pub use crate::hiding::{is_control_invisible_or_bidi, is_invisible_or_bidi};
pub use crate::integers::{IntegerStyle, write_integer_into};
pub use crate::numerals::{digit_group_size, is_digit_group_end};
pub use crate::raw_strings::{min_raw_hashes, raw_text_and_hashes, write_raw_into};
