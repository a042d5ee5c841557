//! The type of integer literals.

ghost use Rattle.std.specs.Prelude.{◌≡◌, IfOk, IfErr, refl};
ghost use Rattle.std.proofs.Common.{inl};
ghost use Rattle.std.specs.Str.{chars};
ghost use Rattle.rl_syntax.specs.declared.kind.Kind.TheVariants.{Int};
ghost use Rattle.rl_lenient.specs.Founds.{IsFoundNumber};
ghost use Rattle.rust_literals.specs.Rejections.{IsNoNumber};

use crate::number::{Number, NumberKind};
use rl_lenient::{Found, parse_int_literal};
use rl_syntax::Kind;
use rl_tokens::ErrorKind;
use std::alloc::{Allocator, Global};

/// The type that represents the kind of integers. The type makes `LitInt` and `LitFloat` different types.
pub struct IntKind;

/// An integer literal: `1`, `-0x1F`, `1_000u16`. The greatest magnitude is 2 to the 128th power, less 1.
///
/// See the example of [`parse_all`].
pub type LitInt<A = Global> = Number<IntKind, A>;

impl NumberKind for IntKind {
    ghost KIND = { Int };

    ghost is_number = { inl refl };

    const KIND: Kind = Kind::Int;

    fn find<A: Allocator>(text: &str) -> Result<Found, ErrorKind<A>>
        ensures found { IfOk result (IsFoundNumber text.now) }
        ensures kind { IfOk result (λ f. f.kind ≡ Int) }
        ensures err { IfErr result (IsNoNumber Int (chars text.now)) }
    {
        match parse_int_literal(text) {
            Some(Some(found)) => Ok(found),
            Some(None) => Err(ErrorKind::TooLarge),
            None => Err(ErrorKind::NotInteger),
        }
    }
}
