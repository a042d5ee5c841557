//! The examples of the pages `CALLING.md`, one for each library. Each file is a whole module that can be pasted into a
//! crate. The contracts use only definitions of the libraries and of std. Only the example of `rl_style` needs a proof file.

pub mod attributes;
pub mod cursors;
pub mod grammar;
pub mod lenient;
pub mod literals;
pub mod quoted;
pub mod recovery;
pub mod settings;
pub mod strict;
pub mod style;
pub mod tokens;
pub mod writing;
