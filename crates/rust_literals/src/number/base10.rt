//! The conversion of a number literal to a value of a Rust type as `u8` or `f64`.

ghost use Rattle.std.specs.Prelude.{IfOk, IfErr};
ghost use Rattle.rust_literals.specs.Base10.{AreBase10Digits, IsMadeOf, IsRejectedBy, IsReported};

use crate::number::{Number, NumberKind};
use rl_tokens::{Error, ErrorKind, Span};
use std::alloc::Allocator;
use std::fmt::Display;
use std::str::FromStr;

/// Returns an error at `span` whose message is that of a number type's own error, `error`. If an allocation fails for
/// the message, the result is `Memory` at `span`.
fn reported<F: Display, B: Allocator>(alloc: B, error: &F, span: Span) -> Error<B>
    ensures { IsReported (F.output error.now) span result }
{
    match format!(in alloc; "{error}") {
        Ok(words) => Error {
            span,
            kind: ErrorKind::Number(words),
        },
        Err(_) => Error::out_of_memory(span),
    }
}

impl<K: NumberKind, A: Allocator> Number<K, A> {
    /// Converts the number to a value of the type `N`: `N::from_str` parses the number's digits in base ten. `0xFF` as
    /// a `u8` is 255.
    ///
    /// See the example of [`parse_all`].
    ///
    /// # Errors
    ///
    /// Returns the error of `N::from_str` at the number's span, as `ErrorKind::Number` with the error's own message. If
    /// an allocation fails for the message, the result is `Memory` at the number's span. If the error can't be
    /// displayed, the result is an error at that span too.
    pub fn base10_parse<N: FromStr, B: Allocator>(&self, alloc: B) -> Result<N, Error<B>>
    where
        N::Err: Display + Drop,
        ensures ok { IfOk result
            (IsMadeOf N.from_str_gives (AreBase10Digits K.KIND self.now.text)) }
        ensures rejected { IfErr result
            (IsRejectedBy N.from_str_gives N.Err.output (AreBase10Digits K.KIND self.now.text)
            self.now.span) }
    {
        match N::from_str(self.base10_digits()) {
            Ok(number) => Ok(number),
            Err(error) => Err(reported(alloc, &error, self.span())),
        }
    }
}
