//! Rewrites all literals of a source by a style. Parses styles from configurations too.
#![tactic(auto)]

mod changing;
mod clean;
mod draft;
mod edit;
pub mod laws;
mod rule;
mod slices;
mod style_error;
mod styles;
mod texts;
mod value;
mod values;
mod whole;

pub use crate::changing::changing_rules;
pub use crate::edit::{Choice, Macros, RestyleError, Restyled};
pub use crate::rule::{RULES, Rule, number_of, settable_rules};
pub use crate::slices::between;
pub use crate::style_error::{Expected, StyleError, StyleErrorKind};
pub use crate::styles::{default_style, parse_style};
pub use crate::whole::rewrite_source;
