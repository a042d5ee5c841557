//! Literal tokens.

ghost use Rattle.std.specs.Prelude.{◌≡◌, ◌∷◌, IfOk, IfErr, Some, string_bytes};
ghost use Rattle.std.specs.Fmt.{padded};
ghost use Rattle.rl_syntax.specs.Texts.{code};
ghost use Rattle.rl_tokens.specs.Errors.{memory_at};

use crate::error::Error;
use rl_syntax::Span;
use std::alloc::{AllocError, Allocator, Global};
use std::fmt;
use std::marker::Model;

/// A literal token: a text, with its span. The text may be an invalid literal. The crate `rl_grammar` checks whether a
/// text is a literal, and `Lit::new` of the crate `rust_literals` parses the token.
///
/// # Example
///
/// ```
/// use rl_tokens::{Literal, Span};
/// use rust_literals::Lit;
/// use std::alloc::Global;
///
/// pub fn value_as_number(alloc: Global, text: &str) -> Option<u32> {
///     let token = Literal::from_text(alloc, text, Span::call_site()).ok()?;
///     match Lit::new(alloc, token).ok()? {
///         Lit::Byte(byte) => Some(byte.value() as u32),
///         Lit::Char(character) => Some(character.value() as u32),
///         Lit::Bool(truth) => Some(truth.value() as u32),
///         _ => None,
///     }
/// }
/// // value_as_number(alloc, "b'a'") == Some(97)
/// // value_as_number(alloc, "true") == Some(1)
/// ```
#[derive(Drop)]
pub struct Literal<A: Allocator = Global> {
    text: String<A>,
    span: Span,
}

impl<A: Allocator> Model for Literal<A> {
    ghost use Rattle.std.specs.Prelude.{string_bytes};
    ghost use Rattle.rl_syntax.specs.Texts.{SpannedText};

    ghost Value = { SpannedText };

    ghost view = { λ literal. record { text = string_bytes literal.text; span = literal.span } };
}

impl<A: Allocator> Literal<A> {
    /// Creates a literal token with the text `text` and the span `span`. The text isn't checked.
    ///
    /// # Errors
    ///
    /// Returns `Memory` at `span` if an allocation fails.
    pub fn from_text(alloc: A, text: &str, span: Span) -> Result<Literal<A>, Error<A>>
        ensures ok { IfOk result (λ l. l ≡ record { text = text.now; span = span }) }
        ensures memory { IfErr result (λ e. e ≡ memory_at span) }
    {
        match String::from_str(alloc, text) {
            Ok(text) => Ok(Literal { text, span }),
            Err(_) => Err(Error::out_of_memory(span)),
        }
    }

    /// Creates a literal token whose text is a minus and `text`, with the span `span`. The text isn't checked.
    ///
    /// # Errors
    ///
    /// Returns `Memory` at `span` if an allocation fails.
    pub fn negative(alloc: A, text: &str, span: Span) -> Result<Literal<A>, Error<A>>
        ensures ok { IfOk result (λ l. l ≡ record { text = code "-" ∷ text.now; span = span }) }
        ensures memory { IfErr result (λ e. e ≡ memory_at span) }
    {
        let Ok(text) = text_after_minus(alloc, text) else {
            return Err(Error::out_of_memory(span));
        };
        Ok(Literal { text, span })
    }

    /// Creates a literal token from the string `text` and the span `span`. Nothing is allocated, and the text isn't
    /// checked.
    pub(crate) fn of_string(text: String<A>, span: Span) -> Literal<A>
        ensures { result ≡ record { text = string_bytes text; span = span } }
    {
        Literal { text, span }
    }

    /// Returns the literal token's text as written, with its quotes and its suffix.
    pub fn text(&self) -> &str
        ensures { result.now ≡ self.now.text }
    {
        self.text.as_str()
    }

    /// Returns the literal token's span: a file, and a range of bytes in that file.
    pub fn span(&self) -> Span
        ensures { result ≡ self.now.span }
    {
        self.span
    }

    /// Returns a copy of the literal token, in memory from `alloc`.
    ///
    /// # Errors
    ///
    /// Returns `Memory` at the token's span if an allocation fails.
    pub fn clone<B: Allocator>(&self, alloc: B) -> Result<Literal<B>, Error<B>>
        ensures ok { IfOk result (λ l. l ≡ self.now) }
        ensures memory { IfErr result (λ e. e ≡ memory_at self.now.span) }
    {
        Literal::from_text(alloc, self.text(), self.span)
    }

    /// Returns a new literal token whose text is a minus and this token's text, with the span `span`.
    ///
    /// # Errors
    ///
    /// Returns `Memory` at `span` if an allocation fails.
    pub fn with_minus<B: Allocator>(&self, alloc: B, span: Span) -> Result<Literal<B>, Error<B>>
        ensures ok { IfOk result (λ l. l ≡ record { text = code "-" ∷ self.now.text; span = span }) }
        ensures memory { IfErr result (λ e. e ≡ memory_at span) }
    {
        Literal::negative(alloc, self.text(), span)
    }

    /// Sets the literal token's span to `span`, and leaves its text unchanged.
    pub fn set_span(&mut self, span: Span)
        ensures { self.new ≡ record self.old { span = span } }
    {
        self.span = span;
    }
}

/// Returns a new string of a minus and `text`.
fn text_after_minus<A: Allocator>(alloc: A, text: &str) -> Result<String<A>, AllocError>
    ensures { IfOk result (λ s. string_bytes s ≡ code "-" ∷ text.now) }
{
    let mut joined = String::with_capacity(alloc, text.len() + 1)?;
    joined.push('-')?;
    joined.push_str(text)?;
    Ok(joined)
}

/// Writes the literal token's text as written.
impl<A: Allocator> fmt::Display for Literal<A> {
    ghost output = { λ literal. Some literal.text };

    ghost styled_output = { λ literal spec. Some (padded spec literal.text) };

    fn fmt<W: fmt::Write>(&self, f: &mut fmt::Formatter<W>) -> fmt::Result {
        f.pad(self.text.as_str())
    }
}
