//! The findings of a source.

use crate::hidden::character_id;
use crate::literal::Literal;
use rl_restyle::Rule;

/// A range of a source or of a literal, in bytes.
#[derive(Clone, Copy)]
pub(crate) struct Place {
    pub lo: usize,
    pub hi: usize,
}

impl Place {
    /// Returns the range in a source, for a range in a literal that begins at the byte offset `at`.
    pub(crate) fn after(self, at: usize) -> Place {
        Place {
            lo: at.saturating_add(self.lo),
            hi: at.saturating_add(self.hi),
        }
    }
}

/// An error in a literal, or between literals.
#[derive(Clone, Copy)]
pub(crate) struct Fault<'t> {
    pub id: &'static str,
    pub message: &'static str,
    /// The text to show. It is empty where a source ends early.
    pub piece: &'t str,
    /// The literal that contains the error.
    pub literal: Option<&'t str>,
}

/// A finding of a source.
#[derive(Drop)]
pub(crate) enum Finding<'t> {
    Literal(Literal<'t>),
    Error(Fault<'t>),
    /// An invisible or bidirectional character.
    Hidden(char),
    /// The change of a literal, and the rules each of which changes it.
    Change {
        old: &'t str,
        new: &'t str,
        rules: &'t [Rule],
    },
}

impl<'t> Finding<'t> {
    pub(crate) fn id(&self) -> &'static str {
        match self {
            Finding::Literal(_) => "literal",
            Finding::Error(fault) => fault.id,
            Finding::Hidden(c) => character_id(*c),
            Finding::Change { .. } => "style",
        }
    }
}
