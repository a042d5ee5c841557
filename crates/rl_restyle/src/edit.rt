//! A rewritten source, the choice of its literals, and the reasons why a source isn't rewritten.

use rl_lexer::LexError;
use rl_syntax::Kind;
use std::alloc::{Allocator, Global};

/// Selects whether literals inside macro calls, `macro_rules!` definitions and attributes are rewritten. A macro may depend on
/// a literal's text.
#[derive(Clone, Copy)]
pub enum Macros {
    /// Literals inside macro calls, `macro_rules!` definitions and attributes aren't rewritten.
    Skip,
    /// Literals inside macro calls, `macro_rules!` definitions and attributes are rewritten like all others.
    All,
}

/// Selects the literals that are rewritten.
#[derive(Clone, Copy)]
pub struct Choice<'a> {
    /// Whether literals inside macro calls, `macro_rules!` definitions and attributes are rewritten.
    pub macros: Macros,
    /// The kinds of the literals that are rewritten, or `None` for all literals. `syn`'s grammar determines a literal's kind. In the
    /// list, `None` represents the literals that `syn`'s grammar doesn't accept.
    pub kinds: Option<&'a [Option<Kind>]>,
}

/// A rewritten source.
#[derive(Drop)]
pub struct Restyled<A: Allocator = Global> {
    /// The new text of the whole source.
    pub text: String<A>,
    /// `true` if the old text has none of these: a stray character, which begins no token (for example `€`), a literal that Rust's
    /// grammar doesn't accept, and a literal directly after an ASCII letter, an ASCII digit, `_` or `#`, such as `f"x"`. Some of
    /// these are errors from Rust 2021 on.
    pub is_clean: bool,
}

/// The reason why a source isn't rewritten.
#[derive(Clone, Copy)]
pub enum RestyleError {
    /// The source begins with `#!` but not with `#![`. So its first line is an interpreter's line, or looks like one.
    Script,
    /// The source contains a quote or a comment that isn't closed.
    Source(LexError),
    /// An allocation of memory failed.
    Memory,
}
