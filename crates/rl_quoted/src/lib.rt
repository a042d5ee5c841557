//! The types of quoted literals: strings, byte strings, C strings, bytes and characters. The crate is modelled on
//! `src/lit.rs` of the crate `syn` 3.0.9.
//!
//! # Example
//!
//! ```
//! use rl_quoted::LitStr;
//! use rl_tokens::Span;
//! use std::alloc::Global;
//!
//! pub fn string_literal_text(alloc: Global, value: &str) -> Option<String> {
//!     let literal = LitStr::new(alloc, value, Span::call_site()).ok()?;
//!     String::from_str(alloc, literal.text()).ok()
//! }
//! // string_literal_text(alloc, "a\tb") == Some("\"a\\tb\"")
//! ```
#![tactic(auto)]

mod inside;
mod lit_byte;
mod lit_byte_str;
mod lit_c_str;
mod lit_char;
mod lit_str;
mod quoted;
mod written;

pub use crate::lit_byte::{ByteKind, LitByte};
pub use crate::lit_byte_str::{ByteStrKind, LitByteStr};
pub use crate::lit_c_str::{CStrKind, LitCStr};
pub use crate::lit_char::{CharKind, LitChar};
pub use crate::lit_str::{LitStr, StrKind};
pub use crate::quoted::{Quoted, QuotedKind};
