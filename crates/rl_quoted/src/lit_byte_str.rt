//! The type of byte string literals.

ghost use Rattle.std.specs.Prelude.{◌≡◌, IfOk, IfErr, IfSome, OnSome, IfNone};
ghost use Rattle.std.specs.Str.{chars};
ghost use Rattle.rl_syntax.specs.declared.kind.Kind.TheVariants.{ByteStr};
ghost use Rattle.rl_tokens.specs.Errors.{memory_at};
ghost use Rattle.rl_syntax.specs.Reading.{Bytes, HasContents};
ghost use Rattle.rl_syntax.specs.Written.{IsWrittenForm};
ghost use Rattle.rl_lenient.specs.WholeShapes.{IsPlain};

use crate::quoted::{Quoted, QuotedKind};
use rl_fronts::bytes_of_body;
use rl_syntax::Kind;
use rl_tokens::{Error, Literal, Span};
use std::alloc::{Allocator, Global};

/// The type that represents the kind of byte strings. It makes `LitByteStr` a type of its own among the quoted
/// literals.
pub struct ByteStrKind;

impl QuotedKind for ByteStrKind {
    ghost KIND = { ByteStr };

    const KIND: Kind = Kind::ByteStr;
}

/// A byte string literal: `b"bytes"`, `br"bytes"`.
///
/// # Example
///
/// ```
/// use rl_quoted::LitByteStr;
/// use rl_tokens::parse_all;
/// use std::alloc::Global;
///
/// pub fn byte_string_len(alloc: Global, text: &str) -> Option<usize> {
///     let literal = parse_all::<LitByteStr, Global>(alloc, text, 0).ok()?;
///     match literal.value_ref() {
///         Some(value) => Some(value.len()),
///         None => Some(literal.value(alloc).ok()?.len()),
///     }
/// }
/// // byte_string_len(alloc, "b\"a\\xFF\"") == Some(2)
/// ```
pub type LitByteStr<A = Global> = Quoted<ByteStrKind, A>;

impl<A: Allocator> LitByteStr<A> {
    /// Creates the byte string literal that represents the bytes `value`, without a suffix, at the span `span`.
    ///
    /// # Errors
    ///
    /// Returns `Memory` at `span` if an allocation fails.
    pub fn new(alloc: A, value: &[u8], span: Span) -> Result<LitByteStr<A>, Error<A>>
        ensures text { IfOk result (λ l. IsWrittenForm ByteStr value.now (chars l.text)) }
        ensures span { IfOk result (λ l. l.span ≡ span) }
        ensures memory { IfErr result (λ e. e ≡ memory_at span) }
    {
        match Literal::byte_string(alloc, value) {
            Ok(token) => Ok(Quoted::written(token, value, span)),
            Err(_) => Err(Error::out_of_memory(span)),
        }
    }

    /// Returns a copy of the bytes that the byte string literal represents.
    ///
    /// See the example of [`LitByteStr`].
    ///
    /// # Errors
    ///
    /// Returns `Memory` at the literal's span if an allocation fails.
    pub fn value<B: Allocator>(&self, alloc: B) -> Result<Vec<u8, B>, Error<B>>
        ensures value { IfOk result
            (λ v. HasContents ByteStr (chars self.now.text) (Bytes v.items)) }
        ensures memory { IfErr result (λ e. e ≡ memory_at self.now.span) }
    {
        let (body, plain) = self.body();
        match bytes_of_body(alloc, Kind::ByteStr, body, plain) {
            Ok(value) => Ok(value),
            Err(_) => Err(Error::out_of_memory(self.token.span())),
        }
    }

    /// Returns the bytes that the byte string literal represents, borrowed, or `None` if they differ from the text
    /// between the quotes. They differ if the literal isn't raw and contains an escape or a line end of two characters.
    /// Nothing is allocated.
    ///
    /// See the example of [`LitByteStr`].
    pub fn value_ref(&self) -> Option<&[u8]>
        ensures some { IfSome result
            (λ v. HasContents ByteStr (chars self.now.text) (Bytes v.now)) }
        ensures plain { OnSome result (IsPlain ByteStr self.now.text) }
        ensures none { IfNone result (IsPlain ByteStr self.now.text → ⊥) }
    {
        let (body, plain) = self.body();
        if plain { Some(body.as_bytes()) } else { None }
    }
}
