//! The type of string literals.

ghost use Rattle.std.specs.Prelude.{◌≡◌, IfOk, IfErr, IfSome, OnSome, IfNone, string_bytes};
ghost use Rattle.std.specs.Str.{chars};
ghost use Rattle.rl_syntax.specs.declared.kind.Kind.TheVariants.{Str};
ghost use Rattle.rl_tokens.specs.Errors.{memory_at};
ghost use Rattle.rl_syntax.specs.Reading.{Characters, HasContents};
ghost use Rattle.rl_syntax.specs.Written.{IsWrittenForm};
ghost use Rattle.rl_lenient.specs.WholeShapes.{IsPlain};

use crate::quoted::{Quoted, QuotedKind};
use rl_fronts::str_of_body;
use rl_syntax::Kind;
use rl_tokens::{Error, Literal, Span};
use std::alloc::{Allocator, Global};

/// The type that represents the kind of strings. It makes `LitStr` a type of its own among the quoted literals.
pub struct StrKind;

impl QuotedKind for StrKind {
    ghost KIND = { Str };

    const KIND: Kind = Kind::Str;
}

/// A string literal: `"text"`, `r"text"`.
///
/// # Example
///
/// ```
/// use rl_quoted::LitStr;
/// use rl_tokens::parse_all;
/// use std::alloc::Global;
///
/// pub fn string_value(alloc: Global, text: &str) -> Option<String> {
///     let literal = parse_all::<LitStr, Global>(alloc, text, 0).ok()?;
///     match literal.value_ref() {
///         Some(value) => String::from_str(alloc, value).ok(),
///         None => literal.value(alloc).ok(),
///     }
/// }
/// // string_value(alloc, "\"a\\x41\"") == Some("aA")
/// ```
pub type LitStr<A = Global> = Quoted<StrKind, A>;

impl<A: Allocator> LitStr<A> {
    /// Creates the string literal that represents the text `value`, without a suffix, at the span `span`. The literal
    /// has escapes for `"`, `\` and the control characters of ASCII. All other characters are unchanged.
    ///
    /// # Errors
    ///
    /// Returns `Memory` at `span` if an allocation fails.
    ///
    /// # Example
    ///
    /// ```
    /// use rl_quoted::LitStr;
    /// use rl_tokens::Span;
    /// use std::alloc::Global;
    ///
    /// pub fn string_literal_text(alloc: Global, value: &str) -> Option<String> {
    ///     let literal = LitStr::new(alloc, value, Span::call_site()).ok()?;
    ///     String::from_str(alloc, literal.text()).ok()
    /// }
    /// // string_literal_text(alloc, "a\tb") == Some("\"a\\tb\"")
    /// ```
    pub fn new(alloc: A, value: &str, span: Span) -> Result<LitStr<A>, Error<A>>
        ensures text { IfOk result (λ l. IsWrittenForm Str (chars value.now) (chars l.text)) }
        ensures span { IfOk result (λ l. l.span ≡ span) }
        ensures memory { IfErr result (λ e. e ≡ memory_at span) }
    {
        match Literal::string(alloc, value) {
            Ok(token) => Ok(Quoted::written(token, value.as_bytes(), span)),
            Err(_) => Err(Error::out_of_memory(span)),
        }
    }

    /// Returns a copy of the text that the string literal represents, without the suffix. Unless the literal is raw,
    /// escapes are decoded, and CR LF becomes LF.
    ///
    /// See the example of [`LitStr`].
    ///
    /// # Errors
    ///
    /// Returns `Memory` at the literal's span if an allocation fails.
    pub fn value<B: Allocator>(&self, alloc: B) -> Result<String<B>, Error<B>>
        ensures value { IfOk result
            (λ v. HasContents Str (chars self.now.text) (Characters (chars (string_bytes v)))) }
        ensures memory { IfErr result (λ e. e ≡ memory_at self.now.span) }
    {
        let (body, plain) = self.body();
        match str_of_body(alloc, body, plain) {
            Ok(value) => Ok(value),
            Err(_) => Err(Error::out_of_memory(self.token.span())),
        }
    }

    /// Returns the text that the string literal represents, borrowed, or `None` if it differs from the text between the
    /// quotes. It differs if the literal isn't raw and contains an escape or a line end of two characters. Nothing is
    /// allocated.
    ///
    /// See the example of [`LitStr`].
    pub fn value_ref(&self) -> Option<&str>
        ensures some { IfSome result
            (λ v. HasContents Str (chars self.now.text) (Characters (chars v.now))) }
        ensures plain { OnSome result (IsPlain Str self.now.text) }
        ensures none { IfNone result (IsPlain Str self.now.text → ⊥) }
    {
        let (body, plain) = self.body();
        if plain { Some(body) } else { None }
    }
}
