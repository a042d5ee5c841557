//! Functions that advance over literals: to the next segment of a literal's body, to the next literal of a list or a Rust
//! source, and to the next setting (`name = literal`, separated by commas or line ends). Others return the literal at the
//! start of a text, the literals and the errors of a source, or the range of a literal's text that encodes a range of its
//! decoded value.
//!
//! `rl_lenient` parses each literal, and `rl_lexer` splits texts into tokens. Nothing is allocated.
#![tactic(auto)]

mod entries;
mod groups;
pub mod laws;
mod leading;
mod lines;
mod lists;
mod next_literals;
mod openers;
mod ranges;
mod recovery;
mod segments;
mod settings;
mod source_literals;
mod syntax_error;
mod unclosed;
mod values;

pub use crate::entries::{DottedName, EntryRejection, EntryStep, NextEntry, next_config_entry};
pub use crate::groups::first_error;
pub use crate::leading::{LeadingLiteral, leading_literal, leading_signed_literal};
pub use crate::lists::ListLiterals;
pub use crate::next_literals::{
    ListStep, NextLiteral, Rejection, RejectionKind, next_list_literal, next_literal,
};
pub use crate::ranges::text_range;
pub use crate::recovery::{Recovery, next_recovered_literal};
pub use crate::segments::{Segment, SegmentValue, Segments, split_segment, text_offset};
pub use crate::settings::{NextSetting, SettingRejection, SettingStep, next_setting};
pub use crate::source_literals::{SourceStep, next_source_literal};
pub use crate::syntax_error::{Part, SyntaxError, SyntaxErrorKind, lexer_error, list_error};
