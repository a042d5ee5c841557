//! The type of the literals `true` and `false`.

ghost use Rattle.std.specs.Prelude.{◌≡◌, IfOk, IfErr};
ghost use Rattle.rl_tokens.specs.Errors.{memory_at};
ghost use Rattle.rl_syntax.specs.Reading.{truth_text};

mod copies;

use rl_fronts::{Front, begins_with_kind};
use rl_syntax::Kind;
use rl_tokens::{Error, Ident, Parse, ParseBuffer, Span, Token};
use std::alloc::Allocator;

/// A `bool` literal: `true` or `false`. The type needs no allocation.
///
/// See the example of [`Lit`].
#[derive(Drop)]
pub struct LitBool {
    /// The literal's value.
    pub value: bool,
    /// The literal's span.
    pub span: Span,
}

/// Returns the text `true` or `false` for the value `value`.
pub(crate) fn word(value: bool) -> &'static str
    ensures { result.now ≡ truth_text value }
{
    if value { "true" } else { "false" }
}

impl LitBool {
    /// Creates the `bool` literal of the value `value`, with the span `span`. Nothing is allocated.
    pub fn new(value: bool, span: Span) -> LitBool
        ensures { result ≡ record { value = value; span = span } }
    {
        LitBool { value, span }
    }

    /// Returns the value of the `bool` literal, as the field `value` does.
    pub fn value(&self) -> bool
        ensures { result ≡ self.now.value }
    {
        self.value
    }

    /// Returns the literal's span: a file, and a range of bytes in that file.
    pub fn span(&self) -> Span
        ensures { result ≡ self.now.span }
    {
        self.span
    }

    /// Sets the literal's span to `span`.
    pub fn set_span(&mut self, span: Span)
        ensures { self.new ≡ record self.old { span = span } }
    {
        *self = LitBool::new(self.value, span);
    }

    /// Returns the literal as a new identifier token `true` or `false`, with the literal's span.
    ///
    /// # Errors
    ///
    /// Returns `Memory` at the literal's span if an allocation fails.
    pub fn token<A: Allocator>(&self, alloc: A) -> Result<Ident<A>, Error<A>>
        ensures ok { IfOk result
            (λ i. i ≡ record { text = truth_text self.now.value; span = self.now.span }) }
        ensures memory { IfErr result (λ e. e ≡ memory_at self.now.span) }
    {
        Ident::new(alloc, word(self.value), self.span)
    }
}

/// Parses the `bool` literal at the start of a buffer, which is an identifier or a literal token with the text `true`
/// or `false`. The errors are those of `rl_grammar::take_literal_of_kind`. Nothing is allocated.
impl<A: Allocator> Parse<A> for LitBool {
    ghost use Rattle.rust_literals.specs.Parsing.{RunsTruth};

    ghost runs = { RunsTruth };

    fn parse(_alloc: A, input: &mut ParseBuffer<'_, A>) -> Result<LitBool, Error<A>> {
        let mut ahead = input.fork();
        let Some(front) = Front::take(&mut ahead) else {
            return Err(input.error("boolean literal"));
        };
        let Some(value) = front.bool_value() else {
            let error = input.error("boolean literal");
            *input = ahead;
            return Err(error);
        };
        *input = ahead;
        Ok(LitBool::new(value, front.span()))
    }
}

/// `peek` returns `true` exactly if the parser would succeed.
impl Token for LitBool {
    ghost use Rattle.std.specs.Prelude.{codes};
    ghost use Rattle.rl_syntax.specs.declared.kind.Kind.TheVariants.{Bool as BoolKind};
    ghost use Rattle.rl_fronts.specs.Fronts.{HasFrontOf};

    ghost peeks = { HasFrontOf BoolKind };

    ghost shown = { codes "boolean literal" };

    fn peek<B: Allocator>(input: &ParseBuffer<'_, B>) -> bool {
        begins_with_kind(input, Kind::Bool)
    }

    fn display() -> &'static str {
        "boolean literal"
    }
}
