//! Tokens of Rust's literals, token trees, the lexer, parse buffers, the traits of parsers, functions that write values
//! as literals, and errors. The crate is modelled on `src/whitespace.rs` and the parsers of the crate `syn` 3.0.9. The
//! items that don't allocate are defined in the crates `rl_lexer` and `rl_syntax`, and are re-exported here.
//!
//! # Example
//!
//! ```
//! use rl_tokens::{ParseBuffer, Span, lex};
//! use std::alloc::Global;
//!
//! pub fn punct_after_ident(alloc: Global, text: &str) -> Option<char> {
//!     let stream = lex(alloc, text, 0).ok()?;
//!     let mut input = ParseBuffer::new(stream.trees(), Span::call_site());
//!     input.ident()?;
//!     Some(input.punct()?.as_char())
//! }
//! // punct_after_ident(alloc, "port = 80") == Some('=')
//! ```
#![tactic(auto)]

mod appending;
mod buffer;
mod c_string;
mod error;
pub mod ident;
mod kept;
pub mod laws;
mod lexer;
mod literal;
mod nest;
mod parse;
mod punct;
mod rewind;
mod token;
mod whole;
mod writer;

pub use crate::appending::{append_ident, append_literal};
pub use crate::buffer::ParseBuffer;
pub use crate::c_string::{CString, NulError};
pub use crate::error::{Error, ErrorKind};
pub use crate::ident::Ident;
pub use crate::kept::Kept;
pub use crate::lexer::lex;
pub use crate::literal::Literal;
pub use crate::parse::{ByParse, Parse, Parser, ToTokens, Token};
pub use crate::punct::Punct;
pub use crate::rewind::{Rewind, attempt};
pub use crate::token::{Delimiter, Group, TokenStream, TokenTree};
pub use crate::whole::{lex_for_parsing, parse_all};
pub use crate::writer::{push_str_literal, write_str_list};
pub use rl_lexer::{
    Form, LexError, LexKind, Lexeme, SourceForm, SourceToken, Sources, Tokens, whitespace,
};
pub use rl_syntax::{
    Kind, Span, characters, classes, scan, slice_writer, text, write_bytes_into, write_char_into,
    write_str_into,
};
