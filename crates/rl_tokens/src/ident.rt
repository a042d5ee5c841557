//! Identifier tokens.

ghost use Rattle.std.specs.Prelude.{◌≡◌, IsTrue, IfOk, IfErr, string_bytes};
ghost use Rattle.std.specs.Str.{chars};
ghost use Rattle.rl_syntax.specs.Texts.{xid_ok};
ghost use Rattle.rl_tokens.specs.Errors.{memory_at};

use crate::error::Error;
use rl_syntax::Span;
pub use rl_syntax::ident::xid_ok;
use std::alloc::{Allocator, Global};
use std::marker::Model;

/// An identifier token, with its span. `true` and `false` are lexed as identifiers too.
///
/// See the example of [`Punct`].
#[derive(Drop)]
pub struct Ident<A: Allocator = Global> {
    text: String<A>,
    span: Span,
}

impl<A: Allocator> Model for Ident<A> {
    ghost use Rattle.std.specs.Prelude.{string_bytes, IsTrue};
    ghost use Rattle.std.specs.Str.{chars};
    ghost use Rattle.rl_tokens.specs.Texts.{xid_ok, SpannedText};

    ghost Value = { SpannedText };

    ghost view = { λ ident. record { text = string_bytes ident.text; span = ident.span } };

    ghost invariant = { λ ident. IsTrue (xid_ok (chars (string_bytes ident.text))) };
}

impl<A: Allocator> Ident<A> {
    /// Creates the identifier token with the text `text` and the span `span`. The text must be an identifier:
    /// [`xid_ok`] must be `true` for it.
    ///
    /// # Errors
    ///
    /// Returns `Memory` at `span` if an allocation fails.
    pub fn new(alloc: A, text: &str, span: Span) -> Result<Ident<A>, Error<A>>
        requires { IsTrue (xid_ok (chars text.now)) }
        ensures ok { IfOk result (λ i. i ≡ record { text = text.now; span = span }) }
        ensures memory { IfErr result (λ e. e ≡ memory_at span) }
    {
        match String::from_str(alloc, text) {
            Ok(text) => Ok(Ident { text, span }),
            Err(_) => Err(Error::out_of_memory(span)),
        }
    }

    /// Creates the identifier token from the string `text`, which must be an identifier, and the span `span`. Nothing
    /// is allocated.
    pub(crate) fn of_string(text: String<A>, span: Span) -> Ident<A>
        requires { IsTrue (xid_ok (chars (string_bytes text))) }
        ensures { result ≡ record { text = string_bytes text; span = span } }
    {
        Ident { text, span }
    }

    /// Returns the identifier's text, borrowed. [`xid_ok`] is `true` for it.
    pub fn text(&self) -> &str
        ensures text { result.now ≡ self.now.text }
        ensures identifier { IsTrue (xid_ok (chars result.now)) }
    {
        self.text.as_str()
    }

    /// Returns the identifier's span: a file, and a range of bytes in that file.
    pub fn span(&self) -> Span
        ensures { result ≡ self.now.span }
    {
        self.span
    }

    /// Returns a copy of the identifier token, in memory from `alloc`.
    ///
    /// # Errors
    ///
    /// Returns `Memory` at the token's span if an allocation fails.
    pub fn clone<B: Allocator>(&self, alloc: B) -> Result<Ident<B>, Error<B>>
        ensures ok { IfOk result (λ i. i ≡ self.now) }
        ensures memory { IfErr result (λ e. e ≡ memory_at self.now.span) }
    {
        Ident::new(alloc, self.text(), self.span)
    }

    /// Sets the identifier token's span to `span`, and leaves its text unchanged.
    pub fn set_span(&mut self, span: Span)
        ensures { self.new ≡ record self.old { span = span } }
    {
        self.span = span;
    }
}
