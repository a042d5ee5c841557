//! Errors of lexing and parsing: the kind of an error, and the span of the rejected text.

ghost use Rattle.std.specs.Prelude.{◌≡◌, Some};
ghost use Rattle.rl_tokens.specs.Errors.{message_of};

use rl_lexer::LexKind;
use rl_syntax::Span;
use std::alloc::{AllocError, AllocFailed, Allocator, Global};
use std::fmt;

/// An error: its kind, and the span of the rejected text. `Display` prints the message of the kind only. A caller can
/// use the span to show the rejected text.
///
/// See the example of [`parse_all`].
#[derive(Drop)]
#[derive_where(PartialEq, Eq, Debug)]
pub struct Error<A: Allocator = Global> {
    /// The span of the rejected text or token tree.
    pub span: Span,
    /// The kind of the error.
    pub kind: ErrorKind<A>,
}

/// The kind of an error. A program should match the kind, since the messages of errors are written for people.
///
/// See the example of [`parse_all`].
#[derive(Drop)]
#[derive_where(PartialEq, Eq, Debug)]
pub enum ErrorKind<A: Allocator = Global> {
    /// The next token isn't the expected one. The field is the expected token's name in the message, as in
    /// ``expected `=` ``.
    Expected(&'static str),
    /// The token trees end where another token was expected. The field is the expected token's name in the message.
    EndOfInput(&'static str),
    /// A token follows the end of the parsed value.
    Unexpected,
    /// The text can't be lexed. The field is the lexer's reason.
    Lex(LexKind),
    /// A string literal has a suffix where no suffix is allowed. The field is the suffix.
    Suffix(String<A>),
    /// The text isn't an integer.
    NotInteger,
    /// The text is an integer with a magnitude above 128 bits.
    TooLarge,
    /// The text isn't a float.
    NotFloat,
    /// A name occurs for the second time where each name may occur only once.
    Repeated,
    /// The number type to which a literal's digits were converted rejected the digits. The field is the type's message.
    Number(String<A>),
    /// An allocation failed.
    Memory,
}

impl<A: Allocator> Error<A> {
    ghost use Rattle.rl_tokens.specs.Errors.{memory_at, lex_rejection};

    /// Creates an error with the kind `kind` and the span `span`.
    pub fn new(span: Span, kind: ErrorKind<A>) -> Error<A>
        ensures { result ≡ record { span = span; kind = kind } }
    {
        Error { span, kind }
    }

    /// Creates the error for an allocation failure, with the span `span`.
    pub fn out_of_memory(span: Span) -> Error<A>
        ensures { result ≡ memory_at span }
    {
        Error {
            span,
            kind: ErrorKind::Memory,
        }
    }

    /// Creates an error with the span `span` from the lexer's error `kind`. The lexer's `Memory` becomes
    /// [`ErrorKind::Memory`], and any other kind becomes [`ErrorKind::Lex`].
    pub fn of_lexer(kind: LexKind, span: Span) -> Error<A>
        ensures { result ≡ lex_rejection kind span }
    {
        match kind {
            LexKind::Memory => Error::out_of_memory(span),
            kind => Error {
                span,
                kind: ErrorKind::Lex(kind),
            },
        }
    }
}

/// Converts std's error for an allocation failure, which has no position, to `Memory` at [`Span::call_site`].
impl<A: Allocator> From<AllocError> for Error<A> {
    ghost use Rattle.std.specs.Prelude.{◌≡◌};
    ghost use Rattle.rl_tokens.specs.Errors.{memory_at};
    ghost use Rattle.rl_syntax.specs.Spans.{nowhere};

    ghost from_gives = { λ rejected error. error ≡ memory_at nowhere };

    fn from(_failure: AllocError) -> Error<A> {
        Error::out_of_memory(Span::call_site())
    }
}

/// Converts std's error of a method as `Vec::push`, which returns the value that it couldn't store, to `Memory` at
/// [`Span::call_site`]. The value is dropped.
impl<T: Drop, A: Allocator> From<AllocFailed<T>> for Error<A> {
    ghost use Rattle.std.specs.Prelude.{◌≡◌};
    ghost use Rattle.rl_tokens.specs.Errors.{memory_at};
    ghost use Rattle.rl_syntax.specs.Spans.{nowhere};

    ghost from_gives = { λ failed error. error ≡ memory_at nowhere };

    fn from(_failed: AllocFailed<T>) -> Error<A> {
        Error::out_of_memory(Span::call_site())
    }
}

impl<A: Allocator> fmt::Display for ErrorKind<A> {
    ghost output = { λ kind. Some (message_of kind) };

    fn fmt<W: fmt::Write>(&self, f: &mut fmt::Formatter<W>) -> fmt::Result {
        match self {
            ErrorKind::Expected(word) => write!(f, "expected {word}"),
            ErrorKind::EndOfInput(word) => write!(f, "unexpected end of input, expected {word}"),
            ErrorKind::Unexpected => f.write_str("unexpected token"),
            ErrorKind::Lex(error) => f.write_str(error.message()),
            ErrorKind::Suffix(suffix) => write!(
                f,
                "unexpected suffix `{suffix}` on string literal"
            ),
            ErrorKind::NotInteger => f.write_str("not an integer literal"),
            ErrorKind::TooLarge => f.write_str("integer literal past 128 bits"),
            ErrorKind::NotFloat => f.write_str("not a float literal"),
            ErrorKind::Repeated => f.write_str("repeated name"),
            ErrorKind::Number(words) => f.write_str(words.as_str()),
            ErrorKind::Memory => f.write_str("out of memory"),
        }
    }
}

impl<A: Allocator> fmt::Display for Error<A> {
    ghost output = { λ error. Some (message_of error.kind) };

    fn fmt<W: fmt::Write>(&self, f: &mut fmt::Formatter<W>) -> fmt::Result {
        let kind = &self.kind;
        write!(f, "{kind}")
    }
}

impl<A: Allocator> std::error::Error for ErrorKind<A> {}

impl<A: Allocator> std::error::Error for Error<A> {}
