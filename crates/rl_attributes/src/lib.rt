//! A parser of settings: `name = literal`, with commas between the settings. The crate is built on the public functions
//! of the crates of literals only.
//!
//! # Example
//!
//! ```
//! use rl_attributes::{Setting, read};
//! use std::alloc::Global;
//!
//! pub fn required_host(alloc: Global, text: &str) -> Option<String> {
//!     let host = Setting {
//!         name: "host",
//!         expected: "a string",
//!     };
//!     read(alloc, text, 0).ok()?.required_string(alloc, host).ok()
//! }
//! // required_host(alloc, "host = \"a\", port = 80") == Some("a")
//! ```
#![tactic(auto)]

mod attributes;
pub mod laws;
mod required;
mod settings;
mod values;

pub use crate::attributes::{Attrs, Entry, read};
pub use crate::settings::{Setting, SettingError};
