//! The errors of the lexer.

ghost use Rattle.std.specs.Prelude.{◌≡◌, Some};
ghost use Rattle.std.specs.Fmt.{padded};
ghost use Rattle.rl_lexer.specs.LexErrors.{lex_message};

use std::fmt;

/// An error of the lexer, which splits a text into token trees: its kind, and its byte offset in the text.
///
/// See the example of [`Tokens::error`].
#[derive(Clone, Copy, PartialEq, Eq, Debug)]
pub struct LexError {
    /// The kind of the error.
    pub kind: LexKind,
    /// The byte offset of the error in the text.
    pub at: usize,
}

/// A kind of error of the lexer. Each variant's comment names the byte whose offset the error has. docs/ERRORS.md has
/// an example text for each kind, and a remedy.
///
/// See the example of [`Tokens::error`].
#[derive(Clone, Copy, PartialEq, Eq, Debug)]
pub enum LexKind {
    /// A doc comment, closed or not. The error is at its first slash.
    DocComment,
    /// A block comment that isn't closed. The error is at its first slash.
    UnclosedComment,
    /// A quoted or raw literal that isn't closed. The error is at its first byte.
    UnclosedQuote,
    /// A lifetime. The error is at its apostrophe.
    Lifetime,
    /// A raw identifier. The error is at its `r`.
    RawIdentifier,
    /// A character that begins no token. The error is at that character.
    StrayCharacter,
    /// A closing delimiter that doesn't match the innermost open group. The error is at that delimiter.
    UnmatchedClose,
    /// A group that isn't closed before the text ends. The error is at the innermost opening delimiter.
    UnclosedGroup,
    /// An opening delimiter inside 128 open groups. The error is at that delimiter.
    TooDeep,
    /// A failed allocation. The error is at the first byte of the token for which memory was needed.
    Memory,
}

impl LexError {
    /// Creates an error of the kind at the byte offset `at`.
    #[inline(always)]
    pub fn new(kind: LexKind, at: usize) -> LexError
        ensures { result ≡ record { kind = kind; at = at } }
    {
        LexError { kind, at }
    }
}

impl LexKind {
    /// Returns the error message of the kind.
    pub fn message(self) -> &'static str
        ensures { result.now ≡ lex_message self }
    {
        match self {
            LexKind::DocComment => "doc comment is not carried",
            LexKind::UnclosedComment => "unclosed block comment",
            LexKind::UnclosedQuote => "unclosed quote",
            LexKind::Lifetime => "lifetime is not carried",
            LexKind::RawIdentifier => "raw identifier is not carried",
            LexKind::StrayCharacter => "stray character",
            LexKind::UnmatchedClose => "unmatched closing delimiter",
            LexKind::UnclosedGroup => "unclosed group",
            LexKind::TooDeep => "groups nested too deep",
            LexKind::Memory => "out of memory",
        }
    }
}

impl fmt::Display for LexKind {
    ghost output = { λ kind. Some (lex_message kind) };

    ghost styled_output = { λ kind spec. Some (padded spec (lex_message kind)) };

    fn fmt<W: fmt::Write>(&self, f: &mut fmt::Formatter<W>) -> fmt::Result {
        f.pad(self.message())
    }
}

impl std::error::Error for LexKind {}
