//! The type of byte literals.

ghost use Rattle.std.specs.Prelude.{◌≡◌, ◌∷◌, [], IfOk, IfErr};
ghost use Rattle.std.specs.Str.{chars};
ghost use Rattle.rl_syntax.specs.declared.kind.Kind.TheVariants.{Byte};
ghost use Rattle.rl_tokens.specs.Errors.{memory_at};
ghost use Rattle.rl_syntax.specs.Reading.{Bytes, HasContents};
ghost use Rattle.rl_syntax.specs.Written.{IsWrittenForm};

use crate::quoted::{Quoted, QuotedKind};
use rl_lenient::byte_of_body;
use rl_syntax::Kind;
use rl_tokens::{Error, Literal, Span};
use std::alloc::{Allocator, Global};

/// The type that represents the kind of bytes. It makes `LitByte` a type of its own among the quoted literals.
pub struct ByteKind;

impl QuotedKind for ByteKind {
    ghost KIND = { Byte };

    const KIND: Kind = Kind::Byte;
}

/// A byte literal: `b'a'`.
///
/// See the example of [`Lit`].
pub type LitByte<A = Global> = Quoted<ByteKind, A>;

impl<A: Allocator> LitByte<A> {
    /// Creates the byte literal that represents the byte `value`, without a suffix, at the span `span`.
    ///
    /// # Errors
    ///
    /// Returns `Memory` at `span` if an allocation fails.
    pub fn new(alloc: A, value: u8, span: Span) -> Result<LitByte<A>, Error<A>>
        ensures text { IfOk result (λ l. IsWrittenForm Byte (value ∷ []) (chars l.text)) }
        ensures span { IfOk result (λ l. l.span ≡ span) }
        ensures memory { IfErr result (λ e. e ≡ memory_at span) }
    {
        match Literal::byte_character(alloc, value) {
            Ok(token) => Ok(Quoted::written(token, &[value], span)),
            Err(_) => Err(Error::out_of_memory(span)),
        }
    }

    /// Returns the byte that the byte literal represents. Nothing is allocated.
    ///
    /// See the example of [`Lit`].
    pub fn value(&self) -> u8
        ensures { HasContents Byte (chars self.now.text) (Bytes (result ∷ [])) }
    {
        byte_of_body(self.single_body())
    }
}
