//! A function that runs a parser and puts the buffer back to its old position if the parser fails.

ghost use Rattle.std.specs.Prelude.{OnOk, OnErr};
ghost use Rattle.std.specs.Fn.{FnOnceReturnsAtMut};

use crate::buffer::ParseBuffer;
use std::alloc::Allocator;

/// A parse buffer whose position can be saved and restored. [`ParseBuffer`] implements the trait.
///
/// The member `same` of the contract relates two buffers that are at the same position.
pub trait Rewind: Sized {
    ghost same: { Self → Self → Type 0 };

    /// Returns a copy of the buffer at its current position. [`attempt`] uses the copy to restore the position after an
    /// error.
    fn here(&self) -> Self
        ensures { same self.now result };
}

impl<'a, A: Allocator> Rewind for ParseBuffer<'a, A> {
    ghost use Rattle.rl_tokens.specs.Buffers.{IsPutBack};

    ghost same = { IsPutBack };

    #[tactic(auto, using(crate::proofs::TreeRests::rest_none))]
    fn here(&self) -> ParseBuffer<'a, A> {
        self.fork()
    }
}

/// Runs `parser` on `input`, and returns the parser's result. The parser determines the position of `input` afterwards.
fn ran<B, T, E, F: FnOnce(&mut B) -> Result<T, E>>(input: &mut B, parser: F) -> Result<T, E>
    requires { F.IsAlwaysCallable parser }
    ensures { FnOnceReturnsAtMut F.FnOnce parser input.old result input.new }
{
    parser(input)
}

/// Runs `parser`, which may have several steps, on the buffer `input`. If the parser fails, the buffer is put back to
/// the position that it had before the call.
///
/// # Errors
///
/// Returns the parser's error. The buffer is then at its old position.
///
/// # Example
///
/// ```
/// use rl_tokens::{ParseBuffer, Span, attempt, lex};
/// use rust_literals::LitInt;
/// use std::alloc::Global;
///
/// pub fn remaining_tree_count(alloc: Global, text: &str) -> Option<usize> {
///     let stream = lex(alloc, text, 0).ok()?;
///     let mut input = ParseBuffer::new(stream.trees(), Span::call_site());
///     let _taken = attempt(&mut input, |input| {
///         input.take_punct('=')?;
///         input.parse::<LitInt>(alloc)
///     });
///     Some(input.rest().len())
/// }
/// // remaining_tree_count(alloc, "= 80") == Some(0)
/// // remaining_tree_count(alloc, "= a") == Some(2)
/// ```
pub fn attempt<B: Rewind + Drop, T, E, F: FnOnce(&mut B) -> Result<T, E>>(
    input: &mut B,
    parser: F,
) -> Result<T, E>
    requires { F.IsAlwaysCallable parser }
    // On success the result and the position of the buffer are those of the parser.
    ensures parsed { OnOk result (FnOnceReturnsAtMut F.FnOnce parser input.old result input.new) }
    // The returned error is the parser's error. The position at which the parser left the buffer doesn't matter.
    ensures rejected { OnErr result
        ((following : _) × FnOnceReturnsAtMut F.FnOnce parser input.old result following) }
    // On an error the buffer is at the position that it had before the call.
    ensures left { OnErr result (B.same input.old input.new) }
{
    let before = input.here();
    match ran(input, parser) {
        Ok(value) => Ok(value),
        Err(error) => {
            *input = before;
            Err(error)
        }
    }
}
