//! The examples in the documentation of the libraries' public items. Each example is a whole function. The stored tests
//! of the crate `rl_rows` have the results for short texts.

pub mod attributes;
pub mod buffers;
pub mod grammar;
pub mod literals;
pub mod own;
pub mod quoted;
pub mod tokens;
