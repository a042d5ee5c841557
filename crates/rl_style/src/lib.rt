//! Rewrites literals by a style, such as the case of hexadecimal digits. A rewritten literal has the kind, the value and the
//! suffix of the old one, except that `1.` may become `1.0`. Nothing is allocated.
//!
//! # Example
//!
//! ```
//! ghost use Rattle.std.specs.Prelude.{◌≤◌, ◌+◌, ◌*◌, IfSome, length, take};
//! ghost use Rattle.std.specs.Str.{chars};
//! ghost use Rattle.rl_style.specs.Rewriting.{SameLiteral};
//!
//! use rl_style::{Case, Style, rewrite_into};
//!
//! #[tactic(auto, using(rl_style::proofs::Theorems::a_rewritten_literal_is_the_same))]
//! pub fn write_lower_hex(text: &str, out: &mut [u8]) -> Option<usize>
//!     requires { 4 * length text.now + 1 ≤ length out.old }
//!     ensures same { IfSome result (λ n. SameLiteral (chars text.now) (chars (take n out.new))) }
//! {
//!     let style = Style {
//!         hex_digits: Some(Case::Lower),
//!         ..Style::KEEP
//!     };
//!     match rewrite_into("", text, style, out) {
//!         Ok(n) => Some(n),
//!         Err(_) => None,
//!     }
//! }
//! // write_lower_hex("0xAB_u8", &mut [0; 64]) == Some(7)
//! ```
#![tactic(auto)]

mod calls;
mod case;
mod characters;
mod codes;
mod cooked;
mod groups;
mod hidden;
pub mod laws;
mod mistyped;
mod numbers;
mod raw;
mod restylable;
mod rewrite;
mod rules;
mod style;
mod whole;

pub use crate::calls::{Calls, advance_calls, is_in_call};
pub use crate::restylable::{Restylable, Restylables};
pub use crate::rewrite::{growth, rewrite_into, rewrite_within};
pub use crate::rules::{Rule, all_rules, is_changed_by_style};
pub use crate::style::{Case, DigitGroups, Separator, Style};
pub use crate::whole::is_safe_to_restyle;
