//! The literal at the start of a parse buffer: a literal token, `true` or `false`, or a minus and a number.

ghost use Rattle.std.specs.Prelude.{◌≡◌, [], ◌∷◌, IsTrue, ◌↔◌, IfOk, IfErr, IfSome, IfNone};
ghost use Rattle.std.specs.Result.{result_map_both};
ghost use Rattle.std.specs.Str.{chars};
ghost use Rattle.rl_syntax.specs.declared.kind.Kind.TheVariants.{Bool as BoolKind};
ghost use Rattle.rl_tokens.specs.Errors.{memory_at};
ghost use Rattle.rl_tokens.specs.Trees.{IdentTree};
ghost use Rattle.rl_syntax.specs.Reading.{Reads, ReadsAs, Truth, truth_text, HasNoReading};
ghost use Rattle.rl_tokens.specs.Buffers.{trees_in, scope_of, IsRest};
ghost use Rattle.rl_fronts.specs.Fronts.{IsFront, HasNoFront, HasFrontOf, RunsAs, joined, joined_span};
ghost use Rattle.rl_lenient.specs.Founds.{IsFound};
ghost use Rattle.rl_fronts.specs.FrontTokens.{HasNoWord, HasNoMinus};

use rl_lenient::{Found, bool_of, parse_literal, parse_with_added_minus};
use rl_tokens::{Error, Ident, Kind, Literal, ParseBuffer, Punct, Span};
use std::alloc::Allocator;
use std::marker::Model;

/// A minus token and the number token after it, which together are one literal, and the literal's parse result.
#[derive(Drop)]
pub struct Negative<'a, A: Allocator> {
    minus: &'a Punct,
    number: &'a Literal<A>,
    found: Found,
}

/// The value of a [`Negative`] in contracts is the minus and the number token. The byte offsets of its parse result
/// count from the minus.
impl<'a, A: Allocator> Model for Negative<'a, A> {
    ghost use Rattle.std.specs.Prelude.{◌∷◌};
    ghost use Rattle.rl_tokens.specs.Puncts.{Mark};
    ghost use Rattle.rl_syntax.specs.Texts.{SpannedText, code};
    ghost use Rattle.rl_lenient.specs.Founds.{IsFound};

    ghost Value = { Mark × SpannedText };

    ghost view = { λ n. (n.minus.now, n.number.now) };

    ghost invariant = { λ n. IsFound (code "-" ∷ n.number.now.text) n.found };
}

/// The literal at the start of a sequence of token trees, as the one or two tokens that it consists of.
#[derive(Drop)]
pub enum Front<'a, A: Allocator> {
    /// A literal token. Its text isn't checked.
    Literal(&'a Literal<A>),
    /// The identifier `true` or `false`.
    Word(&'a Ident<A>),
    /// A minus and a number token, which together are one literal.
    Negative(Negative<'a, A>),
}

/// Consumes the next token tree of `input` if it is the identifier `true` or `false`, and returns the identifier.
/// Otherwise the result is `None` and the buffer is unchanged.
fn take_word<'a, A: Allocator>(input: &mut ParseBuffer<'a, A>) -> Option<&'a Ident<A>>
    ensures taken { IfSome result
        (λ i. (trees_in input.old ≡ IdentTree i.now ∷ trees_in input.new)
        × ReadsAs BoolKind (chars i.now.text)) }
    ensures none { IfNone result (HasNoWord (trees_in input.old)) }
    ensures left { IfNone result (trees_in input.new ≡ trees_in input.old) }
    ensures scope { scope_of input.new ≡ scope_of input.old }
{
    let mut ahead = input.fork();
    let word = ahead.ident()?;
    bool_of(word.text())?;
    *input = ahead;
    Some(word)
}

/// Consumes the next two token trees of `input` if they are a minus and a number token, which together are one literal.
/// Otherwise the result is `None` and the buffer is unchanged.
fn take_negative<'a, A: Allocator>(input: &mut ParseBuffer<'a, A>) -> Option<Negative<'a, A>>
    ensures taken { IfSome result
        (λ n. IsFront (trees_in input.old) (joined n.0 n.1) (trees_in input.new)) }
    ensures none { IfNone result (HasNoMinus (trees_in input.old)) }
    ensures left { IfNone result (trees_in input.new ≡ trees_in input.old) }
    ensures scope { scope_of input.new ≡ scope_of input.old }
{
    let mut ahead = input.fork();
    let minus = ahead.punct()?;
    if minus.as_char() != '-' {
        return None;
    }
    let number = ahead.literal()?;
    let found = parse_with_added_minus(number.text())?;
    *input = ahead;
    Some(Negative {
        minus,
        number,
        found,
    })
}

/// Returns the span of a negative number, from the span of its minus to the span of the number token. If the two spans
/// aren't in one file, the result is the span of the minus.
fn joined_span(minus: Span, number: Span) -> Span
    ensures { result ≡ joined_span minus number }
{
    match minus.join(number) {
        Some(span) => span,
        None => minus,
    }
}

impl<'a, A: Allocator> Front<'a, A> {
    ghost use Rattle.rl_fronts.specs.FrontTokens.{front_token};

    /// Consumes the literal at the start of `input`: a literal token with any text, the identifier `true` or `false`,
    /// or a minus and a number token that together are one literal. If `input` doesn't begin with a literal, the result
    /// is `None` and the buffer is unchanged.
    #[inline(always)]
    pub fn take(input: &mut ParseBuffer<'a, A>) -> Option<Front<'a, A>>
        ensures taken { IfSome result
            (λ f. IsFront (trees_in input.old) (front_token f) (trees_in input.new)) }
        ensures none { IfNone result (HasNoFront (trees_in input.old)) }
        ensures left { IfNone result (trees_in input.new ≡ trees_in input.old) }
        ensures rest { IsRest (trees_in input.old) (trees_in input.new) }
        ensures scope { scope_of input.new ≡ scope_of input.old }
    {
        if let Some(token) = input.literal() {
            return Some(Front::Literal(token));
        }
        if let Some(word) = take_word(input) {
            return Some(Front::Word(word));
        }
        let negative = take_negative(input)?;
        Some(Front::Negative(negative))
    }

    /// Returns the literal's parse result, or `None` if the text of the literal token isn't a valid literal or is an
    /// integer above 128 bits. The byte offsets in the result count from the start of the literal's text, which
    /// includes a minus.
    pub fn parse_result(&self) -> Option<Found>
        ensures none { IfNone result (HasNoReading (chars (front_token self.now).text)) }
        ensures found { IfSome result (IsFound (front_token self.now).text) }
    {
        match self {
            Front::Literal(token) => parse_literal(token.text()),
            Front::Word(word) => parse_literal(word.text()),
            Front::Negative(negative) => Some(negative.found),
        }
    }

    /// Returns the literal's kind, or `None` if the text of the literal token isn't a valid literal or is an integer
    /// above 128 bits.
    pub fn kind(&self) -> Option<Kind>
        ensures some { IfSome result (λ k. ReadsAs k (chars (front_token self.now).text)) }
        ensures none { IfNone result (HasNoReading (chars (front_token self.now).text)) }
    {
        let found = self.parse_result()?;
        Some(found.kind)
    }

    /// Returns the literal's parse result if the literal is valid and of the kind `kind`, and otherwise `None`.
    fn find_of_kind(&self, kind: Kind) -> Option<Found>
        ensures found { IfSome result (IsFound (front_token self.now).text) }
        ensures kind { IfSome result (λ f. f.kind ≡ kind) }
        ensures none { IfNone result (ReadsAs kind (chars (front_token self.now).text) → ⊥) }
    {
        let found = self.parse_result()?;
        if found.kind == kind {
            Some(found)
        } else {
            None
        }
    }

    /// Whether the literal is valid and of the kind `kind`. Nothing is allocated.
    fn is_of_kind(&self, kind: Kind) -> bool
        ensures { IsTrue result ↔ ReadsAs kind (chars (front_token self.now).text) }
    {
        self.find_of_kind(kind).is_some()
    }

    /// Returns the value of a literal `true` or `false`, or `None` for any other literal.
    pub fn bool_value(&self) -> Option<bool>
        ensures some { IfSome result
            (λ b. Reads (chars (front_token self.now).text) BoolKind (Truth b) []) }
        ensures bytes { IfSome result (λ b. (front_token self.now).text ≡ truth_text b) }
        ensures none { IfNone result (ReadsAs BoolKind (chars (front_token self.now).text) → ⊥) }
    {
        match self {
            Front::Literal(token) => bool_of(token.text()),
            Front::Word(word) => bool_of(word.text()),
            Front::Negative(_) => None,
        }
    }

    /// Returns the literal's span. The span of a negative number is from its minus to its number token if both are in
    /// one file, and otherwise the span of the minus.
    pub fn span(&self) -> Span
        ensures { result ≡ (front_token self.now).span }
    {
        match self {
            Front::Literal(token) => token.span(),
            Front::Word(word) => word.span(),
            Front::Negative(negative) => joined_span(negative.minus.span(), negative.number.span()),
        }
    }

    /// Returns the literal as one new token. The text of a negative number's token is `-` followed by the number's
    /// text.
    ///
    /// # Errors
    ///
    /// Returns `Memory` at the literal's span if an allocation fails.
    pub fn token<B: Allocator>(&self, alloc: B) -> Result<Literal<B>, Error<B>>
        ensures ok { IfOk result (λ l. l ≡ front_token self.now) }
        ensures memory { IfErr result (λ e. e ≡ memory_at (front_token self.now).span) }
    {
        match self {
            Front::Literal(token) => Literal::clone(token, alloc),
            Front::Word(word) => Literal::from_text(alloc, word.text(), word.span()),
            Front::Negative(negative) => negative.number.with_minus(alloc, self.span()),
        }
    }
}

/// Returns `true` if `input` begins with a valid literal of the kind `kind`. Nothing is consumed or allocated.
pub fn begins_with_kind<A: Allocator>(input: &ParseBuffer<'_, A>, kind: Kind) -> bool
    ensures { IsTrue result ↔ HasFrontOf kind (trees_in input.now) }
{
    let mut ahead = input.fork();
    match Front::take(&mut ahead) {
        Some(front) => front.is_of_kind(kind),
        None => false,
    }
}

/// Consumes the literal at the start of `input`, which must be valid and of the kind `kind`. Returns the literal as one
/// new token, and its parse result.
///
/// # Errors
///
/// Returns `Expected(word)` if `input` doesn't begin with a literal of the kind `kind`, or `EndOfInput(word)` if all
/// token trees have been consumed. In this case a literal of another kind is consumed, and otherwise the buffer is
/// unchanged.
///
/// Returns `Memory` at the literal if an allocation fails. The buffer is unchanged then.
pub fn take_literal_of_kind<A: Allocator>(
    alloc: A,
    input: &mut ParseBuffer<'_, A>,
    kind: Kind,
    word: &'static str,
) -> Result<(Literal<A>, Found), Error<A>>
    ensures runs { RunsAs kind word.now (trees_in input.old) (scope_of input.old)
        (result_map_both (λ p. p.0) (λ e. e) result) (trees_in input.new) }
    ensures found { IfOk result (λ p. IsFound p.0.text p.1) }
    ensures kind { IfOk result (λ p. p.1.kind ≡ kind) }
    ensures rest { IsRest (trees_in input.old) (trees_in input.new) }
    ensures scope { scope_of input.new ≡ scope_of input.old }
{
    let mut ahead = input.fork();
    let Some(front) = Front::take(&mut ahead) else {
        return Err(input.error(word));
    };
    let Some(found) = front.find_of_kind(kind) else {
        let error = input.error(word);
        *input = ahead;
        return Err(error);
    };
    match front.token(alloc) {
        Ok(token) => {
            *input = ahead;
            Ok((token, found))
        }
        Err(error) => Err(Error::new(input.span(), error.kind)),
    }
}
