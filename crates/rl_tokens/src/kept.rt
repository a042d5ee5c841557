//! A value that a function was given, returned with the error if the function fails.

use crate::error::Error;
use std::alloc::{Allocator, Global};

/// The error type of functions that take ownership of a value: the unchanged value, and the error. `?` converts a
/// `Kept` to its [`Error`], and drops the value.
///
/// # Example
///
/// ```
/// use rl_tokens::{Literal, Span};
/// use rust_literals::LitFloat;
/// use std::alloc::Global;
///
/// pub fn float_digits_or_text(alloc: Global, text: &str) -> Option<String> {
///     let token = Literal::from_text(alloc, text, Span::call_site()).ok()?;
///     match LitFloat::from_token(alloc, token) {
///         Ok(literal) => String::from_str(alloc, literal.base10_digits()).ok(),
///         Err(kept) => String::from_str(alloc, kept.value.text()).ok(),
///     }
/// }
/// // float_digits_or_text(alloc, "1_0.5e3_f64") == Some("10.5e3")
/// // float_digits_or_text(alloc, "abc") == Some("abc")
/// ```
#[derive(Drop)]
#[derive_where(Debug; T)]
pub struct Kept<T, A: Allocator = Global> {
    /// The value that was passed to the failed function.
    pub value: T,
    /// The error that the failed function returns.
    pub error: Error<A>,
}

/// Converts a [`Kept`] to its error, and drops the value in it.
impl<T: Drop, A: Allocator> From<Kept<T, A>> for Error<A> {
    ghost use Rattle.std.specs.Prelude.{◌≡◌};

    ghost from_gives = { λ kept error. error ≡ kept.error };

    fn from(kept: Kept<T, A>) -> Error<A> {
        kept.error
    }
}
