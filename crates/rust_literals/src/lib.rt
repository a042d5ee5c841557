//! The types of Rust's literals: `Lit` with its nine variants, and the types of numbers and of `bool`. Functions that
//! read all literals of a text. The crate is modelled on `src/lit.rs` of the crate `syn` 3.0.9.
//!
//! # Example
//!
//! ```
//! use rust_literals::{Lit, Literals};
//! use std::alloc::Global;
//!
//! pub fn second_string(alloc: Global, text: &str) -> Option<String> {
//!     let mut literals = Literals::new(alloc, text, 0);
//!     literals.next().ok()?;
//!     match literals.next().ok()?? {
//!         Lit::Str(literal) => literal.value(alloc).ok(),
//!         _ => None,
//!     }
//! }
//! // second_string(alloc, "1 \"a\" 'b'") == Some("a")
//! ```
#![tactic(auto)]

mod flat;
pub mod laws;
mod lit;
mod lit_bool;
mod lit_float;
mod lit_int;
mod literals;
mod number;
mod read;

pub use crate::flat::push_leading_literal;
pub use crate::lit::Lit;
pub use crate::lit_bool::LitBool;
pub use crate::lit_float::{FloatKind, LitFloat};
pub use crate::lit_int::{IntKind, LitInt};
pub use crate::literals::Literals;
pub use crate::number::{Number, NumberKind};
pub use crate::read::read_all;
pub use rl_quoted::{LitByte, LitByteStr, LitCStr, LitChar, LitStr};
