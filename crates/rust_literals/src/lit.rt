//! The type `Lit` of literals of any kind.

ghost use Rattle.std.specs.Prelude.{◌≡◌, IfOk, IfErr, IfSome, IfNone, Some};
ghost use Rattle.std.specs.Str.{chars};
ghost use Rattle.rl_tokens.specs.Errors.{memory_at};
ghost use Rattle.rl_syntax.specs.Reading.{HasNoReading, HasSuffix};
ghost use Rattle.rl_lenient.specs.Founds.{IsFound};
ghost use Rattle.rl_fronts.specs.FrontTokens.{front_token};
ghost use Rattle.rust_literals.specs.Held.{HasOwnSuffix};
ghost use Rattle.rust_literals.specs.Literals.{IsReadFrom};

mod copies;

use crate::lit_bool::{LitBool, word};
use crate::lit_float::LitFloat;
use crate::lit_int::LitInt;
use crate::number::{Number, NumberKind};
use rl_fronts::Front;
use rl_lenient::{Found, parse_literal};
use rl_quoted::{LitByte, LitByteStr, LitCStr, LitChar, LitStr, Quoted, QuotedKind};
use rl_syntax::Kind;
use rl_tokens::{Error, Kept, Literal, Parse, ParseBuffer, Span, Token};
use std::alloc::{Allocator, Global};

/// A literal of Rust of any kind: a token, and its parsed parts.
///
/// # Example
///
/// ```
/// use rl_tokens::{Literal, Span};
/// use rust_literals::Lit;
/// use std::alloc::Global;
///
/// pub fn value_as_number(alloc: Global, text: &str) -> Option<u32> {
///     let token = Literal::from_text(alloc, text, Span::call_site()).ok()?;
///     match Lit::new(alloc, token).ok()? {
///         Lit::Byte(byte) => Some(byte.value() as u32),
///         Lit::Char(character) => Some(character.value() as u32),
///         Lit::Bool(truth) => Some(truth.value() as u32),
///         _ => None,
///     }
/// }
/// // value_as_number(alloc, "b'a'") == Some(97)
/// // value_as_number(alloc, "true") == Some(1)
/// ```
#[derive(Drop)]
pub enum Lit<A: Allocator = Global> {
    /// A string literal: `"foo"`, `r"foo"`.
    Str(LitStr<A>),
    /// A byte string literal: `b"foo"`, `br"foo"`.
    ByteStr(LitByteStr<A>),
    /// A C string literal: `c"foo"`, `cr"foo"`.
    CStr(LitCStr<A>),
    /// A byte literal: `b'f'`.
    Byte(LitByte<A>),
    /// A character literal: `'a'`.
    Char(LitChar<A>),
    /// An integer literal: `1`, `1u16`. `1f64` is an integer literal too, with the suffix `f64`.
    Int(LitInt<A>),
    /// A float literal: `1.0e10f64`. A text that is also an integer of any magnitude isn't a float literal, so `1f64`
    /// isn't one. The size of a float isn't checked.
    Float(LitFloat<A>),
    /// A `bool` literal: `true`, `false`.
    Bool(LitBool),
    /// A token that isn't a literal of the other eight kinds, for example an integer above 128 bits.
    Verbatim(Literal<A>),
}

/// The parts that literals of every kind have: kind, text, suffix and span. The kind of `Lit::Verbatim` is `None`.
#[derive(Clone, Copy)]
struct View<'a> {
    kind: Option<Kind>,
    text: &'a str,
    suffix: &'a str,
    span: Span,
}

impl<'a> View<'a> {
    /// Returns the kind, text, suffix and span of a quoted literal.
    #[inline(always)]
    fn of_quoted<K: QuotedKind, A: Allocator>(literal: &'a Quoted<K, A>) -> View<'a>
        ensures kind { result.kind ≡ Some K.KIND }
        ensures text { result.text.now ≡ literal.now.text }
        ensures suffix { HasSuffix K.KIND (chars literal.now.text) (chars result.suffix.now) }
        ensures span { result.span ≡ literal.now.span }
    {
        View {
            kind: Some(K::KIND),
            text: literal.text(),
            suffix: literal.suffix(),
            span: literal.span(),
        }
    }

    /// Returns the kind, text, suffix and span of an integer or float literal.
    #[inline(always)]
    fn of_number<K: NumberKind, A: Allocator>(literal: &'a Number<K, A>) -> View<'a>
        ensures kind { result.kind ≡ Some K.KIND }
        ensures text { result.text.now ≡ literal.now.text }
        ensures suffix { HasOwnSuffix K.KIND (chars literal.now.text) (chars result.suffix.now) }
        ensures span { result.span ≡ literal.now.span }
    {
        View {
            kind: Some(K::KIND),
            text: literal.text(),
            suffix: literal.suffix(),
            span: literal.span(),
        }
    }
}

impl<A: Allocator> Lit<A> {
    ghost use Rattle.rust_literals.specs.Literals.{IsReadFrom};
    ghost use Rattle.rust_literals.specs.LitParts.{ReadsAsNumber, ReadsPlain, KeepsStrict, KeepsStrictAfterMinus, AgreesWithStrict};
    ghost use Rattle.rl_lenient.specs.StrictBytes.{KeepsBytesStrict};

    /// Parses the text of the literal token `token`. The result is `Verbatim` exactly if the text isn't a valid literal
    /// or is an integer above 128 bits. The literal keeps the token's text and span unchanged.
    ///
    /// The parser agrees with Rust's own grammar. If the text is a literal by Rust's grammar, and an integer isn't
    /// above 128 bits, the literal has the kind, decoded value and suffix that Rust's grammar gives the text
    /// (`strict_found`, `strict`). This holds also for a minus and a number of Rust's grammar (`strict_after_minus`). A
    /// text without CR is parsed as a byte, or as a byte string with escapes, with an empty suffix or an identifier as
    /// suffix, exactly if it is such a literal by Rust's grammar (`strict_bytes`).
    ///
    /// See the example of [`Lit`].
    ///
    /// # Errors
    ///
    /// Returns an error only if an allocation fails: `Memory` at the token's span, with the token. Memory is needed
    /// only for a number whose digits in base ten differ from the text before its suffix.
    pub fn new(alloc: A, token: Literal<A>) -> Result<Lit<A>, Kept<Literal<A>, A>>
        ensures strict_found { IfOk result (AgreesWithStrict (chars token.text)) }
        ensures reads { IfOk result (IsReadFrom token) }
        ensures kept { IfErr result (λ k. k.value ≡ token) }
        ensures memory { IfErr result (λ k. k.error ≡ memory_at token.span) }
        ensures numbers_alone { IfErr result (λ k. ReadsAsNumber (chars token.text)) }
        ensures borrowed { IfErr result (λ k. ReadsPlain token.text → ⊥) }
        ensures strict { KeepsStrict (chars token.text) }
        ensures strict_after_minus { KeepsStrictAfterMinus (chars token.text) }
        ensures strict_bytes { KeepsBytesStrict (chars token.text) }
    {
        let found = parse_literal(token.text());
        Lit::of_found(alloc, token, found)
    }

    /// Creates the literal of the literal token `token` from the parse result `found` of the token's text. If `found`
    /// is `None`, the literal is `Verbatim`.
    #[inline(always)]
    pub(crate) fn of_found(
        alloc: A,
        token: Literal<A>,
        found: Option<Found>,
    ) -> Result<Lit<A>, Kept<Literal<A>, A>>
        requires none { IfNone found (HasNoReading (chars token.text)) }
        requires found { IfSome found (IsFound token.text) }
        ensures reads { IfOk result (IsReadFrom token) }
        ensures kept { IfErr result (λ k. k.value ≡ token) }
        ensures memory { IfErr result (λ k. k.error ≡ memory_at token.span) }
        ensures numbers_alone { IfErr result (λ k. ReadsAsNumber (chars token.text)) }
        ensures borrowed { IfErr result (λ k. ReadsPlain token.text → ⊥) }
    {
        let Some(found) = found else {
            return Ok(Lit::Verbatim(token));
        };
        match found.kind {
            Kind::Str => Ok(Lit::Str(LitStr::of_found(token, found))),
            Kind::ByteStr => Ok(Lit::ByteStr(LitByteStr::of_found(token, found))),
            Kind::CStr => Ok(Lit::CStr(LitCStr::of_found(token, found))),
            Kind::Byte => Ok(Lit::Byte(LitByte::of_found(token, found))),
            Kind::Char => Ok(Lit::Char(LitChar::of_found(token, found))),
            Kind::Int => Ok(Lit::Int(LitInt::of_found(alloc, token, found)?)),
            Kind::Float => Ok(Lit::Float(LitFloat::of_found(alloc, token, found)?)),
            Kind::Bool => Ok(Lit::Bool(LitBool::new(found.truth, token.span()))),
        }
    }
}

impl<A: Allocator> Lit<A> {
    ghost use Rattle.rust_literals.specs.LitParts.{HasLitSuffix, IsSameAt, lit_span};
    ghost use Rattle.rust_literals.specs.Literals.{kind_of, token_of};

    /// Returns the kind, text, suffix and span of the literal, for each of its variants.
    #[inline(always)]
    fn view(&self) -> View<'_>
        ensures kind { result.kind ≡ kind_of self.now }
        ensures text { result.text.now ≡ (token_of self.now).text }
        ensures suffix { HasLitSuffix self.now (chars result.suffix.now) }
        ensures span { result.span ≡ lit_span self.now }
    {
        match self {
            Lit::Str(literal) => View::of_quoted(literal),
            Lit::ByteStr(literal) => View::of_quoted(literal),
            Lit::CStr(literal) => View::of_quoted(literal),
            Lit::Byte(literal) => View::of_quoted(literal),
            Lit::Char(literal) => View::of_quoted(literal),
            Lit::Int(literal) => View::of_number(literal),
            Lit::Float(literal) => View::of_number(literal),
            Lit::Bool(literal) => View {
                kind: Some(Kind::Bool),
                text: word(literal.value),
                suffix: "",
                span: literal.span,
            },
            Lit::Verbatim(token) => View {
                kind: None,
                text: token.text(),
                suffix: "",
                span: token.span(),
            },
        }
    }

    /// Returns the literal's kind, or `None` if the literal is `Verbatim`.
    pub fn kind(&self) -> Option<Kind>
        ensures { result ≡ kind_of self.now }
    {
        self.view().kind
    }

    /// Returns the literal's text as written, with its suffix. The text of a `bool` is `true` or `false`. The text of a
    /// number after a minus is shorter than its span if white space or comments are between the minus and the number.
    pub fn text(&self) -> &str
        ensures { result.now ≡ (token_of self.now).text }
    {
        self.view().text
    }

    /// Returns the literal's suffix, borrowed. The suffix of a `bool` or a `Verbatim` literal is empty.
    pub fn suffix(&self) -> &str
        ensures { HasLitSuffix self.now (chars result.now) }
    {
        self.view().suffix
    }

    /// Returns the literal's span: the span of its token, or the one that was set last.
    pub fn span(&self) -> Span
        ensures { result ≡ lit_span self.now }
    {
        self.view().span
    }

    /// Sets the literal's span to `span`. Kind and text are unchanged.
    pub fn set_span(&mut self, span: Span)
        ensures { IsSameAt self.old span self.new }
    {
        match self {
            Lit::Str(literal) => literal.set_span(span),
            Lit::ByteStr(literal) => literal.set_span(span),
            Lit::CStr(literal) => literal.set_span(span),
            Lit::Byte(literal) => literal.set_span(span),
            Lit::Char(literal) => literal.set_span(span),
            Lit::Int(literal) => literal.set_span(span),
            Lit::Float(literal) => literal.set_span(span),
            Lit::Bool(literal) => literal.set_span(span),
            Lit::Verbatim(token) => token.set_span(span),
        }
    }
}

/// Returns the literal that consists of the tokens of `front`, or `None` if an allocation fails. A `bool` literal needs
/// no allocation.
fn of_front<A: Allocator + Copy>(alloc: A, front: &Front<'_, A>) -> Option<Lit<A>>
    ensures { IfSome result (IsReadFrom (front_token front.now)) }
{
    if let Some(value) = front.bool_value() {
        return Some(Lit::Bool(LitBool::new(value, front.span())));
    }
    let Ok(token) = front.token(alloc) else {
        return None;
    };
    match Lit::of_found(alloc, token, front.parse_result()) {
        Ok(literal) => Some(literal),
        Err(_) => None,
    }
}

/// Parses the literal of any kind at the start of a buffer: a literal token, the identifier `true` or `false`, or a
/// minus and a number token that together are one literal. A literal token with an invalid text, or with an integer
/// above 128 bits, becomes `Verbatim`. If the buffer doesn't begin with a literal, the error's message names `literal`.
/// On an error the buffer is unchanged.
impl<A: Allocator + Copy> Parse<A> for Lit<A> {
    ghost use Rattle.rust_literals.specs.Parsing.{RunsLit};

    ghost runs = { RunsLit };

    fn parse(alloc: A, input: &mut ParseBuffer<'_, A>) -> Result<Lit<A>, Error<A>> {
        let mut ahead = input.fork();
        let Some(front) = Front::take(&mut ahead) else {
            return Err(input.error("literal"));
        };
        match of_front(alloc, &front) {
            Some(literal) => {
                *input = ahead;
                Ok(literal)
            }
            None => Err(Error::out_of_memory(input.span())),
        }
    }
}

/// `peek` returns `true` exactly if the parser would succeed, provided that no allocation fails.
impl<A: Allocator> Token for Lit<A> {
    ghost use Rattle.std.specs.Prelude.{codes};
    ghost use Rattle.rl_fronts.specs.Fronts.{HasFront};

    ghost peeks = { HasFront };

    ghost shown = { codes "literal" };

    fn peek<B: Allocator>(input: &ParseBuffer<'_, B>) -> bool {
        let mut ahead = input.fork();
        match Front::take(&mut ahead) {
            Some(_) => true,
            None => false,
        }
    }

    fn display() -> &'static str {
        "literal"
    }
}

impl<A: Allocator> From<LitStr<A>> for Lit<A> {
    ghost use Rattle.std.specs.Prelude.{◌≡◌};
    ghost use Rattle.rust_literals.specs.declared.lit.Lit.TheVariants.{Str};

    ghost from_gives = { λ literal lit. lit ≡ Str literal };

    fn from(literal: LitStr<A>) -> Lit<A> {
        Lit::Str(literal)
    }
}

impl<A: Allocator> From<LitByteStr<A>> for Lit<A> {
    ghost use Rattle.std.specs.Prelude.{◌≡◌};
    ghost use Rattle.rust_literals.specs.declared.lit.Lit.TheVariants.{ByteStr};

    ghost from_gives = { λ literal lit. lit ≡ ByteStr literal };

    fn from(literal: LitByteStr<A>) -> Lit<A> {
        Lit::ByteStr(literal)
    }
}

impl<A: Allocator> From<LitCStr<A>> for Lit<A> {
    ghost use Rattle.std.specs.Prelude.{◌≡◌};
    ghost use Rattle.rust_literals.specs.declared.lit.Lit.TheVariants.{CStr};

    ghost from_gives = { λ literal lit. lit ≡ CStr literal };

    fn from(literal: LitCStr<A>) -> Lit<A> {
        Lit::CStr(literal)
    }
}

impl<A: Allocator> From<LitByte<A>> for Lit<A> {
    ghost use Rattle.std.specs.Prelude.{◌≡◌};
    ghost use Rattle.rust_literals.specs.declared.lit.Lit.TheVariants.{Byte};

    ghost from_gives = { λ literal lit. lit ≡ Byte literal };

    fn from(literal: LitByte<A>) -> Lit<A> {
        Lit::Byte(literal)
    }
}

impl<A: Allocator> From<LitChar<A>> for Lit<A> {
    ghost use Rattle.std.specs.Prelude.{◌≡◌};
    ghost use Rattle.rust_literals.specs.declared.lit.Lit.TheVariants.{Char};

    ghost from_gives = { λ literal lit. lit ≡ Char literal };

    fn from(literal: LitChar<A>) -> Lit<A> {
        Lit::Char(literal)
    }
}

impl<A: Allocator> From<LitInt<A>> for Lit<A> {
    ghost use Rattle.std.specs.Prelude.{◌≡◌};
    ghost use Rattle.rust_literals.specs.declared.lit.Lit.TheVariants.{Int};

    ghost from_gives = { λ literal lit. lit ≡ Int literal };

    fn from(literal: LitInt<A>) -> Lit<A> {
        Lit::Int(literal)
    }
}

impl<A: Allocator> From<LitFloat<A>> for Lit<A> {
    ghost use Rattle.std.specs.Prelude.{◌≡◌};
    ghost use Rattle.rust_literals.specs.declared.lit.Lit.TheVariants.{Float};

    ghost from_gives = { λ literal lit. lit ≡ Float literal };

    fn from(literal: LitFloat<A>) -> Lit<A> {
        Lit::Float(literal)
    }
}

impl<A: Allocator> From<LitBool> for Lit<A> {
    ghost use Rattle.std.specs.Prelude.{◌≡◌};
    ghost use Rattle.rust_literals.specs.declared.lit.Lit.TheVariants.{Bool};

    ghost from_gives = { λ literal lit. lit ≡ Bool literal };

    fn from(literal: LitBool) -> Lit<A> {
        Lit::Bool(literal)
    }
}
