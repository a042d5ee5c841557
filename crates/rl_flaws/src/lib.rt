//! Finds every flaw of a possibly invalid literal, in a separate text or in a file. The crate also guesses the kind of an
//! invalid literal, and splits a quoted literal into its valid and invalid pieces. For valid literals, it checks Rust's rules
//! beyond the grammar: the suffix, the range, and the text directly before the literal. Nothing is allocated.
#![tactic(auto)]

mod before;
mod closings;
pub mod flaws;
mod float_range;
mod invalid_piece;
mod kind_guess;
pub mod laws;
mod number_types;
mod piece_ends;
pub mod pieces;
mod type_errors;
mod walks;

pub use crate::before::{Edition, first_reserving_edition, may_be_negated};
pub use crate::flaws::Flaws;
pub use crate::invalid_piece::InvalidPiece;
pub use crate::kind_guess::guess_kind;
pub use crate::number_types::{NumberType, max_integer, type_named};
pub use crate::piece_ends::is_flaw_of_unit;
pub use crate::pieces::{Piece, Pieces};
pub use crate::type_errors::{TypeError, type_error, type_error_of};
