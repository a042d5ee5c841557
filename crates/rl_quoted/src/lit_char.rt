//! The type of character literals.

ghost use Rattle.std.specs.Prelude.{◌≡◌, ◌∷◌, [], IfOk, IfErr};
ghost use Rattle.std.specs.Str.{chars};
ghost use Rattle.rl_syntax.specs.declared.kind.Kind.TheVariants.{Char};
ghost use Rattle.rl_tokens.specs.Errors.{memory_at};
ghost use Rattle.rl_syntax.specs.Reading.{Characters, HasContents};
ghost use Rattle.rl_syntax.specs.Written.{IsWrittenForm};

use crate::quoted::{Quoted, QuotedKind};
use rl_lenient::char_of_body;
use rl_syntax::Kind;
use rl_tokens::{Error, Literal, Span};
use std::alloc::{Allocator, Global};

/// The type that represents the kind of characters. It makes `LitChar` a type of its own among the quoted literals.
pub struct CharKind;

impl QuotedKind for CharKind {
    ghost KIND = { Char };

    const KIND: Kind = Kind::Char;
}

/// A character literal: `'a'`.
///
/// See the example of [`Lit`].
pub type LitChar<A = Global> = Quoted<CharKind, A>;

impl<A: Allocator> LitChar<A> {
    /// Creates the character literal that represents the character `value`, without a suffix, at the span `span`.
    ///
    /// # Errors
    ///
    /// Returns `Memory` at `span` if an allocation fails.
    pub fn new(alloc: A, value: char, span: Span) -> Result<LitChar<A>, Error<A>>
        ensures text { IfOk result (λ l. IsWrittenForm Char (value ∷ []) (chars l.text)) }
        ensures span { IfOk result (λ l. l.span ≡ span) }
        ensures memory { IfErr result (λ e. e ≡ memory_at span) }
    {
        match Literal::character(alloc, value) {
            Ok(token) => Ok(Quoted::written(
                token,
                value.encode_utf8(&mut [0; 4]).as_bytes(),
                span,
            )),
            Err(_) => Err(Error::out_of_memory(span)),
        }
    }

    /// Returns the character that the character literal represents. Nothing is allocated.
    ///
    /// See the example of [`Lit`].
    pub fn value(&self) -> char
        ensures { HasContents Char (chars self.now.text) (Characters (result ∷ [])) }
    {
        char_of_body(self.single_body())
    }
}
