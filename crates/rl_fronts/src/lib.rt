//! Functions that return the values of literals in allocated memory (decoded values, digits and tables of spans), and
//! the parser of the literal at the start of a parse buffer.
#![tactic(auto)]

pub mod contents;
pub mod digits;
pub mod front;
pub mod laws;
pub mod span_table;

pub use crate::contents::{bytes_of, bytes_of_body, str_of, str_of_body};
pub use crate::digits::{digits_of, digits_of_found};
pub use crate::front::{Front, Negative, begins_with_kind, take_literal_of_kind};
pub use crate::span_table::value_byte_spans;
