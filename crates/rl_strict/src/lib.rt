//! Literal tokens by the Rust Reference: parses a text as one literal token, or returns the reason why the text isn't a literal
//! token or has no value.
//!
//! Reasons have byte offsets. The text is read as it is, or as the text of a literal in a file, where rustc reads CR LF as LF.
//! Nothing is allocated.
//!
//! # Example
//!
//! ```
//! ghost use Rattle.std.specs.Prelude.{◌≡◌, IfSome, IfNone};
//! ghost use Rattle.std.specs.Str.{chars};
//! ghost use Rattle.rl_strict.specs.declared.flaws.Flaw.{Flaw};
//! ghost use Rattle.rl_strict.specs.StrictFlaws.{ExplainsStrictly};
//! ghost use Rattle.rl_strict.specs.StrictShapes.{IsToken};
//!
//! use rl_strict::explain;
//!
//! pub fn first_bad_byte(text: &str) -> Option<usize>
//!     ensures flaw { IfSome result
//!         (λ at. (flaw : Flaw) × ExplainsStrictly (chars text.now) flaw × (at ≡ flaw.lo)) }
//!     ensures token { IfNone result (IsToken (chars text.now)) }
//! {
//!     Some(explain(text)?.lo)
//! }
//! // first_bad_byte("0b102") == Some(4)
//! ```
#![tactic(auto)]

pub mod flaws;
pub mod laws;
pub mod limits;
pub mod line_ends;
mod quoted_flaws;
pub mod read_numbers;
pub mod read_quoted;
pub mod reasons;
pub mod strict;
pub mod strict_quoted_flaws;
pub mod strict_reading;
pub mod walk;
pub mod walk_units;

pub use crate::flaws::{Flaw, FlawKind};
pub use crate::limits::{flaw_above_128_bits, is_float_by_suffix};
pub use crate::line_ends::LineEnds;
pub use crate::read_numbers::Number;
pub use crate::reasons::{explain, explain_missing_value};
pub use crate::strict_reading::{Reading, read};
