//! Attributes, as `rl_attributes` parses them.

pub use rl_attributes::{Attrs, Entry, read};
