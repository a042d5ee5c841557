//! Traits of types whose values are parsed from a parse buffer, found at its start without parsing, or appended to a
//! token stream.

ghost use Rattle.std.specs.Prelude.{◌≡◌, List, ℕ, Result, ◌↔◌, ◌++◌, IsTrue, IfErr, OnOk, OnErr};
ghost use Rattle.rl_syntax.specs.declared.span.Span.{Span};
ghost use Rattle.rl_tokens.specs.declared.error.Error.{Error};
ghost use Rattle.rl_tokens.specs.declared.error.ErrorKind.TheVariants.{Memory};
ghost use Rattle.rl_tokens.specs.Trees.{Tree, stream_view};
ghost use Rattle.rl_tokens.specs.Buffers.{trees_in, scope_of, IsRest, StaysRest};

use crate::buffer::ParseBuffer;
use crate::error::Error;
use crate::token::TokenStream;
use std::alloc::Allocator;
use std::marker::PhantomData;

/// A type whose values can be parsed from the start of a parse buffer.
///
/// The member `runs` of the contract is the meaning of an implementation. It relates four things: the token trees
/// before the call, the buffer's scope, the result, and the token trees that remain after the call.
///
/// # Example
///
/// ```
/// use rl_tokens::{Error, Parse, ParseBuffer, parse_all};
/// use rust_literals::LitInt;
/// use std::alloc::Global;
///
/// #[derive(Drop)]
/// pub struct Value(LitInt);
///
/// impl Parse<Global> for Value {
///     ghost use Rattle.std.specs.Prelude.{⊤};
///
///     // The contract says nothing of the value.
///     ghost runs = { λ trees scope answer rest. ⊤ };
///
///     fn parse(alloc: Global, input: &mut ParseBuffer<'_>) -> Result<Value, Error> {
///         input.take_punct('=')?;
///         let number = input.parse::<LitInt>(alloc)?;
///         Ok(Value(number))
///     }
/// }
///
/// pub fn value_after_equals(alloc: Global, text: &str) -> Result<u16, Error> {
///     let value = parse_all::<Value, Global>(alloc, text, 0)?;
///     value.0.base10_parse(alloc)
/// }
/// // value_after_equals(alloc, "= 80") == Ok(80)
/// ```
pub trait Parse<A: Allocator>: Sized {
    ghost runs: { List Tree → Span → Result Self (Error A) → List Tree → Type 0 };

    /// Parses a value from the start of `input`. The implementation determines how many token trees are consumed, also
    /// on an error. The remaining token trees are always the end of those before the call, and the buffer's scope is
    /// unchanged.
    ///
    /// # Errors
    ///
    /// Returns the implementation's own error, as its `runs` describes. A literal type as `LitInt` returns `Expected`
    /// or `EndOfInput` with the name of the type if the next token isn't a literal of the type. It returns an
    /// allocation failure at the buffer's span, and leaves the buffer unchanged then.
    fn parse(alloc: A, input: &mut ParseBuffer<'_, A>) -> Result<Self, Error<A>>
        ensures runs { runs (trees_in input.old) (scope_of input.old) result (trees_in input.new) }
        ensures rest { IsRest (trees_in input.old) (trees_in input.new) }
        ensures scope { scope_of input.new ≡ scope_of input.old };
}

/// A parser as a value, which is used up by one call of `parse`. `LitStr::parse_with` runs a `Parser` on the tokens
/// inside a string literal. The member `runs` of the contract is the parser's meaning, as that of [`Parse`].
///
/// # Example
///
/// ```
/// use rl_tokens::{Error, ParseBuffer, Parser, parse_all};
/// use rust_literals::LitStr;
/// use std::alloc::Global;
///
/// #[derive(Drop)]
/// pub struct Mark;
///
/// impl Parser<Global> for Mark {
///     ghost use Rattle.std.specs.Prelude.{⊤};
///
///     type Output = char;
///
///     // The contract says nothing of the mark.
///     ghost runs = { λ parser trees scope answer rest. ⊤ };
///
///     fn parse(self, _alloc: Global, input: &mut ParseBuffer<'_>) -> Result<char, Error> {
///         match input.punct() {
///             Some(mark) => Ok(mark.as_char()),
///             None => Err(input.error("mark")),
///         }
///     }
/// }
///
/// pub fn punct_in_string(alloc: Global, text: &str) -> Option<char> {
///     let string = parse_all::<LitStr, Global>(alloc, text, 0).ok()?;
///     string.parse_with(alloc, Mark).ok()
/// }
/// // punct_in_string(alloc, "\"+\"") == Some('+')
/// ```
pub trait Parser<A: Allocator>: Sized {
    /// The type of the value that the parser returns.
    type Output;

    ghost runs: { Self → List Tree → Span → Result Self.Output (Error A) → List Tree → Type 0 };

    /// Parses a value from the start of `input`. The implementation determines how many token trees are consumed, also
    /// on an error. The remaining token trees are always the end of those before the call, and the buffer's scope is
    /// unchanged.
    ///
    /// # Errors
    ///
    /// Returns the implementation's own error, as its `runs` describes.
    fn parse(self, alloc: A, input: &mut ParseBuffer<'_, A>) -> Result<Self::Output, Error<A>>
        ensures runs { runs self (trees_in input.old) (scope_of input.old) result
            (trees_in input.new) }
        ensures rest { IsRest (trees_in input.old) (trees_in input.new) }
        ensures scope { scope_of input.new ≡ scope_of input.old };
}

/// The [`Parser`] that calls `T::parse`, for a type `T` that implements [`Parse`].
#[derive(Drop)]
pub struct ByParse<T> {
    parsed: PhantomData<T>,
}

impl<T> ByParse<T> {
    /// Creates the [`Parser`] that calls `T::parse`. The parser has no data.
    pub fn new() -> ByParse<T> {
        ByParse {
            parsed: PhantomData,
        }
    }
}

impl<A: Allocator, T: Parse<A>> Parser<A> for ByParse<T> {
    type Output = T;

    ghost runs = { λ parser. T.runs };

    fn parse(self, alloc: A, input: &mut ParseBuffer<'_, A>) -> Result<T, Error<A>> {
        T::parse(alloc, input)
    }
}

/// A type of which [`ParseBuffer::peek`] can tell, without parsing, whether a value begins a parse buffer.
///
/// The member `peeks` of the contract is the condition on the token trees for `peek` to return `true`. The member
/// `shown` is the text that `display` returns.
///
/// See the example of [`ParseBuffer`].
pub trait Token {
    ghost peeks: { List Tree → Type 0 };

    ghost shown: { List ℕ };

    /// Returns `true` if the token trees of `input` begin with a value of the type. Nothing is consumed or allocated.
    fn peek<A: Allocator>(input: &ParseBuffer<'_, A>) -> bool
        ensures { IsTrue result ↔ peeks (trees_in input.now) };

    /// Returns the name of the type's tokens in error messages, for example `string literal`.
    fn display() -> &'static str
        ensures { result.now ≡ shown };
}

/// A value that can be appended to a token stream as token trees. The member `appends` of the contract is the list of
/// these token trees.
///
/// # Example
///
/// ```
/// use rl_tokens::{Span, ToTokens, TokenStream};
/// use rust_literals::LitInt;
/// use std::alloc::Global;
///
/// pub fn integer_tree_count(alloc: Global, text: &str) -> Option<usize> {
///     let number = LitInt::new(alloc, text, Span::call_site()).ok()?;
///     let mut stream = TokenStream::new(alloc);
///     number.to_tokens(alloc, &mut stream).ok()?;
///     Some(stream.trees().len())
/// }
/// // integer_tree_count(alloc, "12") == Some(1)
/// ```
pub trait ToTokens {
    ghost appends: { Self → List Tree };

    /// Appends the value's token trees to the stream `tokens`.
    ///
    /// # Errors
    ///
    /// Returns `Memory` if an allocation fails. The stream is unchanged then.
    fn to_tokens<A: Allocator>(&self, alloc: A, tokens: &mut TokenStream<A>) -> Result<(), Error<A>>
        ensures ok { OnOk result
            (stream_view tokens.new ≡ stream_view tokens.old ++ appends self.now) }
        ensures unchanged { OnErr result (stream_view tokens.new ≡ stream_view tokens.old) }
        ensures memory { IfErr result (λ e. e.kind ≡ Memory) };
}

impl<'a, A: Allocator> ParseBuffer<'a, A> {
    /// Parses a value of the type `T`, which implements [`Parse`], from the start of the buffer.
    ///
    /// See the example of [`ParseBuffer`].
    ///
    /// # Errors
    ///
    /// Returns the error of `T::parse`. `T::parse` also determines how many token trees are consumed.
    #[tactic(auto, using(crate::proofs::TreeRests::rest_step))]
    pub fn parse<T: Parse<A>>(&mut self, alloc: A) -> Result<T, Error<A>>
        ensures runs { T.runs (trees_in self.old) (scope_of self.old) result (trees_in self.new) }
        ensures rest { IsRest (trees_in self.old) (trees_in self.new) }
        ensures onward { StaysRest (trees_in self.old) (trees_in self.new) }
        ensures scope { scope_of self.new ≡ scope_of self.old }
    {
        T::parse(alloc, self)
    }

    /// Returns `true` if the buffer begins with a value of the type `T`. Nothing is consumed or allocated. For a
    /// literal type as `LitInt` the result is `true` exactly if `parse` would succeed, provided that no allocation
    /// fails.
    ///
    /// See the example of [`ParseBuffer`].
    pub fn peek<T: Token>(&self) -> bool
        ensures { IsTrue result ↔ T.peeks (trees_in self.now) }
    {
        T::peek(self)
    }
}
