//! The type of C string literals.

ghost use Rattle.std.specs.Prelude.{◌≡◌, IfOk, IfErr, IfSome, OnSome, IfNone};
ghost use Rattle.std.specs.Str.{chars};
ghost use Rattle.rl_syntax.specs.declared.kind.Kind.TheVariants.{CStr};
ghost use Rattle.rl_tokens.specs.Errors.{memory_at};
ghost use Rattle.rl_syntax.specs.Reading.{Bytes, HasContents};
ghost use Rattle.rl_syntax.specs.Written.{IsWrittenForm};
ghost use Rattle.rl_lenient.specs.WholeShapes.{IsPlain};

use crate::quoted::{Quoted, QuotedKind};
use rl_fronts::bytes_of_body;
use rl_syntax::Kind;
use rl_tokens::{CString, Error, Literal, Span};
use std::alloc::{Allocator, Global};

/// The type that represents the kind of C strings. It makes `LitCStr` a type of its own among the quoted literals.
pub struct CStrKind;

impl QuotedKind for CStrKind {
    ghost KIND = { CStr };

    const KIND: Kind = Kind::CStr;
}

/// A C string literal: `c"text"`, `cr"text"`.
///
/// # Example
///
/// ```
/// use rl_quoted::LitCStr;
/// use rl_tokens::parse_all;
/// use std::alloc::Global;
///
/// pub fn c_string_len(alloc: Global, text: &str) -> Option<usize> {
///     let literal = parse_all::<LitCStr, Global>(alloc, text, 0).ok()?;
///     Some(literal.value(alloc).ok()?.as_bytes().len())
/// }
/// // c_string_len(alloc, "c\"a\\n\"") == Some(2)
/// ```
pub type LitCStr<A = Global> = Quoted<CStrKind, A>;

impl<A: Allocator> LitCStr<A> {
    /// Creates the C string literal that represents the bytes of `value`, without a suffix, at the span `span`.
    ///
    /// # Errors
    ///
    /// Returns `Memory` at `span` if an allocation fails.
    pub fn new<C: Allocator>(
        alloc: A,
        value: &CString<C>,
        span: Span,
    ) -> Result<LitCStr<A>, Error<A>>
        ensures text { IfOk result (λ l. IsWrittenForm CStr value.now (chars l.text)) }
        ensures span { IfOk result (λ l. l.span ≡ span) }
        ensures memory { IfErr result (λ e. e ≡ memory_at span) }
    {
        match Literal::c_string(alloc, value) {
            Ok(token) => Ok(Quoted::written(token, value.as_bytes(), span)),
            Err(_) => Err(Error::out_of_memory(span)),
        }
    }

    /// Returns a copy of the bytes that the C string literal represents. Characters are in UTF-8, and there is no zero
    /// at the end.
    ///
    /// See the example of [`LitCStr`].
    ///
    /// # Errors
    ///
    /// Returns `Memory` at the literal's span if an allocation fails.
    pub fn value<B: Allocator>(&self, alloc: B) -> Result<CString<B>, Error<B>>
        ensures value { IfOk result (λ v. HasContents CStr (chars self.now.text) (Bytes v)) }
        ensures memory { IfErr result (λ e. e ≡ memory_at self.now.span) }
    {
        let (body, plain) = self.body();
        match bytes_of_body(alloc, Kind::CStr, body, plain) {
            Ok(bytes) => Ok(CString::new(bytes).unwrap()),
            Err(_) => Err(Error::out_of_memory(self.token.span())),
        }
    }

    /// Returns the bytes that the C string literal represents, borrowed, or `None` if they differ from the text between
    /// the quotes. They differ if the literal isn't raw and contains an escape or a line end of two characters.
    pub fn value_ref(&self) -> Option<&[u8]>
        ensures some { IfSome result (λ v. HasContents CStr (chars self.now.text) (Bytes v.now)) }
        ensures plain { OnSome result (IsPlain CStr self.now.text) }
        ensures none { IfNone result (IsPlain CStr self.now.text → ⊥) }
    {
        let (body, plain) = self.body();
        if plain { Some(body.as_bytes()) } else { None }
    }
}
