//! The line by which programs report an error of the library.

use rl_tokens::Error;
use std::alloc::{Allocator, Global};
use std::fmt;

/// A borrowed error that is displayed as the programs report it, with its position in bytes and its message.
#[derive(Drop)]
pub struct Rejection<'a, A: Allocator = Global>(pub &'a Error<A>);

impl<A: Allocator> fmt::Display for Rejection<'_, A> {
    ghost use Rattle.std.specs.Prelude.{Some};
    ghost use Rattle.rl_program.specs.Rejections.{rejection_line};

    ghost output = { λ rejection. Some (rejection_line rejection.0.now) };

    fn fmt<W: fmt::Write>(&self, f: &mut fmt::Formatter<W>) -> fmt::Result {
        let error = self.0;
        let lo = error.span.lo;
        let hi = error.span.hi;
        write!(f, "error at {lo}..{hi}: {error}")
    }
}
