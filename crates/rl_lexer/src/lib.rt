//! The lexer: it splits a text (`Tokens`) or a whole Rust source (`Sources`) into tokens, one at a time. It returns an
//! error where no token begins. Nothing is allocated.
#![tactic(auto)]

mod cursor;
pub mod laws;
mod lex_error;
mod lexeme;
mod no_token;
mod source;
mod sources;
pub mod whitespace;

pub use crate::cursor::{Lexeme, Tokens};
pub use crate::lex_error::{LexError, LexKind};
pub use crate::lexeme::{Form, is_opener};
pub use crate::no_token::source_error_kind;
pub use crate::source::{SourceForm, first_source_token, without_byte_order_mark};
pub use crate::sources::{SourceToken, Sources};
