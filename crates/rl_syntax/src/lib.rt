//! Definitions and functions that `syn`'s and Rust's grammars of literals share: characters and their classes, searches
//! for bytes, spans, the kinds of literals, the integer types, and writers into a slice. The definitions of the two
//! grammars, of written forms and of printed token lists are in `specs/`, with their laws. Nothing is allocated.
#![tactic(auto)]

pub mod characters;
pub mod classes;
pub mod ident;
mod integer_type;
pub mod kind;
pub mod lanes;
pub mod laws;
pub mod lines;
pub mod scan;
pub mod slice_writer;
mod span;
pub mod text;
mod written_into;
pub mod written_unit;

pub use crate::integer_type::IntegerType;
pub use crate::kind::Kind;
pub use crate::span::Span;
pub use crate::written_into::{write_bytes_into, write_char_into, write_str_into};
