//! The type `Number`, of which `LitInt` and `LitFloat` are instances: a token, its digits in base ten, and the byte
//! offset of its suffix.

ghost use Rattle.std.specs.Fmt.{padded};
ghost use Rattle.std.specs.Prelude.{◌≡◌, ◌⊎◌, OnOk, IfOk, IfErr, Some, option_map, string_bytes};
ghost use Rattle.std.specs.Str.{chars};
ghost use Rattle.rl_syntax.specs.declared.kind.Kind.{Kind};
ghost use Rattle.rl_syntax.specs.declared.kind.Kind.TheVariants.{Float, Int};
ghost use Rattle.rl_tokens.specs.Errors.{memory_at};
ghost use Rattle.rl_lenient.specs.Founds.{IsFoundNumber};
ghost use Rattle.rl_lenient.specs.NumberShapes.{IsNumber};
ghost use Rattle.rl_lenient.specs.WholeShapes.{IsPlain};
ghost use Rattle.rust_literals.specs.Held.{HasDigits, HasOwnSuffix, HoldsNumber, digits_in};
ghost use Rattle.rust_literals.specs.Rejections.{IsNoNumber, IsRejectedAs};

mod base10;
mod copies;

use rl_fronts::{begins_with_kind, digits_of_found, take_literal_of_kind};
use rl_lenient::Found;
use rl_syntax::Kind;
use rl_tokens::{Error, ErrorKind, Kept, Literal, Parse, ParseBuffer, Span, Token};
use std::alloc::{Allocator, Global};
use std::fmt;
use std::marker::{Model, PhantomData};

/// A type that represents a kind of numbers. The two implementations are `IntKind` and `FloatKind`. Callers need no
/// others.
pub trait NumberKind {
    ghost KIND: { Kind };

    /// The kind of literals that the type represents.
    const KIND: Kind;

    /// Parses `text` as a number of the kind: an integer or a float.
    ///
    /// # Errors
    ///
    /// For integers, returns `NotInteger` if the text isn't an integer, and `TooLarge` if the integer is above 128
    /// bits. For floats, returns `NotFloat` if the text isn't a float.
    fn find<A: Allocator>(text: &str) -> Result<Found, ErrorKind<A>>
        ensures found { IfOk result (IsFoundNumber text.now) }
        ensures kind { IfOk result (λ f. f.kind ≡ Self.KIND) }
        ensures err { IfErr result (IsNoNumber Self.KIND (chars text.now)) };

    ghost is_number: { (KIND ≡ Int) ⊎ (KIND ≡ Float) };
}

/// Returns the digits in base ten of the number `text`, whose parse result is `found`, as a new string. The result is
/// `None` if the digits equal the text before the suffix.
#[inline(always)]
fn own_digits<A: Allocator>(
    alloc: A,
    text: &str,
    found: Found,
) -> Result<Option<String<A>>, Error<A>>
    requires { IsFoundNumber text.now found }
    ensures held { IfOk result (λ d. HoldsNumber found.kind text.now
        (digits_in (option_map string_bytes d) text.now found.body.suffix_at)
        found.body.suffix_at) }
    ensures borrowed { IfErr result (λ e. IsPlain found.kind text.now → ⊥) }
    ensures number { IsNumber found.kind (chars text.now) }
{
    if found.body.plain {
        return Ok(None);
    }
    Ok(Some(digits_of_found(alloc, text, found)?))
}

/// A number literal of the kind `K`. Programs use it under the name [`LitInt`](crate::LitInt) or
/// [`LitFloat`](crate::LitFloat).
#[derive(Drop)]
pub struct Number<K: NumberKind, A: Allocator = Global> {
    token: Literal<A>,
    /// The number's digits in base ten, or `None` if they equal the text before the suffix, from which they are
    /// borrowed then. An empty string could represent that case too, but then each function that uses this field would
    /// have to know that every number has digits. `None` takes only one machine word in each number.
    digits: Option<String<A>>,
    suffix_at: usize,
    of: PhantomData<K>,
}

/// The value of a [`Number`] in contracts is its token. The invariant: the token's text is a number of the kind `K`,
/// with the stored digits and suffix.
impl<K: NumberKind, A: Allocator> Model for Number<K, A> {
    ghost use Rattle.std.specs.Prelude.{string_bytes, option_map};
    ghost use Rattle.rl_syntax.specs.Texts.{SpannedText};
    ghost use Rattle.rust_literals.specs.Held.{HoldsNumber, digits_in};

    ghost Value = { SpannedText };

    ghost view = { λ l. l.token };

    ghost invariant = { λ l. HoldsNumber K.KIND l.token.text
        (digits_in (option_map string_bytes l.digits) l.token.text l.suffix_at) l.suffix_at };
}

impl<K: NumberKind, A: Allocator + Copy> Number<K, A> {
    /// Parses `repr` as a number of the kind `K`, with the span `span`.
    ///
    /// # Errors
    ///
    /// Returns an error at `span`. For [`LitInt`](crate::LitInt) it is `NotInteger` if the text isn't an integer, and
    /// `TooLarge` if the text is an integer above 128 bits. For [`LitFloat`](crate::LitFloat) it is `NotFloat` if the
    /// text isn't a float. An integer with a suffix as `f64` counts as a float too. The error is `Memory` if an
    /// allocation fails.
    pub fn new(alloc: A, repr: &str, span: Span) -> Result<Number<K, A>, Error<A>>
        ensures ok { IfOk result (λ l. l ≡ record { text = repr.now; span = span }) }
        ensures reads { OnOk result (IsNumber K.KIND (chars repr.now)) }
        ensures err { IfErr result
            (λ e. (e.span ≡ span) × IsRejectedAs K.KIND (chars repr.now) e.kind) }
    {
        let found = match K::find(repr) {
            Ok(found) => found,
            Err(kind) => return Err(Error { span, kind }),
        };
        let token = match Literal::from_text(alloc, repr, span) {
            Ok(token) => token,
            Err(error) => return Err(error),
        };
        match Number::of_found(alloc, token, found) {
            Ok(literal) => Ok(literal),
            Err(Kept { error, .. }) => Err(error),
        }
    }
}

impl<K: NumberKind, A: Allocator> Number<K, A> {
    /// Parses the text of the literal token `token` as a number of the kind `K`. On an error the unchanged token is
    /// returned with the error.
    ///
    /// # Errors
    ///
    /// Returns the errors of [`new`](Number::new), at the token's span. `Memory` occurs only if the number's digits in
    /// base ten differ from the text before its suffix.
    pub fn from_token(alloc: A, token: Literal<A>) -> Result<Number<K, A>, Kept<Literal<A>, A>>
        ensures ok { IfOk result (λ l. l ≡ token) }
        ensures reads { OnOk result (IsNumber K.KIND (chars token.text)) }
        ensures kept { IfErr result (λ k. k.value ≡ token) }
        ensures err { IfErr result
            (λ k. (k.error.span ≡ token.span)
            × IsRejectedAs K.KIND (chars token.text) k.error.kind) }
        ensures borrowed { IfErr result (λ k. IsPlain K.KIND token.text → ⊥) }
    {
        match K::find(token.text()) {
            Ok(found) => Number::of_found(alloc, token, found),
            Err(kind) => {
                let error = Error {
                    span: token.span(),
                    kind,
                };
                Err(Kept {
                    value: token,
                    error,
                })
            }
        }
    }

    /// Creates the number of the literal token `token` from the parse result `found` of the token's text. Memory is
    /// needed only if the number's digits in base ten differ from the text before its suffix. If an allocation fails,
    /// the error is at the token's span, and the token is returned with the error.
    #[inline(always)]
    pub(crate) fn of_found(
        alloc: A,
        token: Literal<A>,
        found: Found,
    ) -> Result<Number<K, A>, Kept<Literal<A>, A>>
        requires found { IsFoundNumber token.text found }
        requires kind { found.kind ≡ K.KIND }
        ensures ok { IfOk result (λ l. l ≡ token) }
        ensures kept { IfErr result (λ k. k.value ≡ token) }
        ensures memory { IfErr result (λ k. k.error ≡ memory_at token.span) }
        ensures borrowed { IfErr result (λ k. IsPlain K.KIND token.text → ⊥) }
        ensures number { IsNumber K.KIND (chars token.text) }
    {
        match own_digits(alloc, token.text(), found) {
            Ok(digits) => Ok(Number {
                token,
                digits,
                suffix_at: found.body.suffix_at,
                of: PhantomData,
            }),
            Err(_) => {
                let error = Error::out_of_memory(token.span());
                Err(Kept {
                    value: token,
                    error,
                })
            }
        }
    }

    /// Returns the number's digits in base ten. An integer's digits are its magnitude without leading zeros, after a
    /// minus if the text begins with one. A float's digits are the text before the suffix, without underscores and
    /// pluses, and with `E` as `e`.
    ///
    /// The digits are borrowed from the number's text if they equal the text before the suffix.
    ///
    /// See the example of [`LitFloat`].
    pub fn base10_digits(&self) -> &str
        ensures { HasDigits K.KIND (chars self.now.text) (chars result.now) }
    {
        match &self.digits {
            Some(digits) => digits.as_str(),
            None => &self.token.text()[..self.suffix_at],
        }
    }

    /// Returns the number's suffix, borrowed: an identifier, or an empty string.
    pub fn suffix(&self) -> &str
        ensures { HasOwnSuffix K.KIND (chars self.now.text) (chars result.now) }
    {
        &self.token.text()[self.suffix_at..]
    }

    /// Returns the number's text as written, with its sign, prefix, underscores and suffix.
    pub fn text(&self) -> &str
        ensures { result.now ≡ self.now.text }
    {
        self.token.text()
    }

    /// Returns the number's span: a file, and a range of bytes in that file.
    pub fn span(&self) -> Span
        ensures { result ≡ self.now.span }
    {
        self.token.span()
    }

    /// Sets the number's span to `span`. The number's text is unchanged.
    pub fn set_span(&mut self, span: Span)
        ensures { self.new ≡ record self.old { span = span } }
    {
        self.token.set_span(span);
    }
}

/// Writes the number's text as written. A width in the format pads the text, as it pads a `str`.
impl<K: NumberKind, A: Allocator> fmt::Display for Number<K, A> {
    ghost output = { λ l. Some l.text };

    ghost styled_output = { λ l spec. Some (padded spec l.text) };

    fn fmt<W: fmt::Write>(&self, f: &mut fmt::Formatter<W>) -> fmt::Result {
        f.pad(self.token.text())
    }
}

/// Parses the number at the start of a buffer, which must be of the type's kind. The errors are those of [`take_literal_of_kind`].
impl<K: NumberKind, A: Allocator + Copy> Parse<A> for Number<K, A> {
    ghost use Rattle.rl_fronts.specs.Fronts.{RunsAs};
    ghost use Rattle.rl_syntax.specs.Words.{kind_word};

    ghost runs = { RunsAs K.KIND (kind_word K.KIND) };

    fn parse(alloc: A, input: &mut ParseBuffer<'_, A>) -> Result<Number<K, A>, Error<A>> {
        let before = input.fork();
        let (token, found) = match take_literal_of_kind(
            alloc,
            input,
            K::KIND,
            K::KIND.description(),
        ) {
            Ok(taken) => taken,
            Err(error) => return Err(error),
        };
        match Number::of_found(alloc, token, found) {
            Ok(literal) => Ok(literal),
            Err(_) => {
                *input = before;
                Err(Error::out_of_memory(input.span()))
            }
        }
    }
}

/// `peek` returns `true` exactly if the type's parser would succeed, provided that no allocation fails.
impl<K: NumberKind, A: Allocator> Token for Number<K, A> {
    ghost use Rattle.rl_fronts.specs.Fronts.{HasFrontOf};
    ghost use Rattle.rl_syntax.specs.Words.{kind_shown};

    ghost peeks = { HasFrontOf K.KIND };

    ghost shown = { kind_shown K.KIND };

    fn peek<B: Allocator>(input: &ParseBuffer<'_, B>) -> bool {
        begins_with_kind(input, K::KIND)
    }

    fn display() -> &'static str {
        K::KIND.display_name()
    }
}
