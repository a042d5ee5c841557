//! Tests of calls whose allocations fail.

mod format_results;
mod free;
mod held;
mod inside;
mod made;
pub(crate) mod rows;
mod runs;
mod tokens;
mod trial;
