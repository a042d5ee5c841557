//! The type of float literals.

ghost use Rattle.std.specs.Prelude.{◌≡◌, IfOk, IfErr, refl};
ghost use Rattle.std.proofs.Common.{inr};
ghost use Rattle.std.specs.Str.{chars};
ghost use Rattle.rl_syntax.specs.declared.kind.Kind.TheVariants.{Float};
ghost use Rattle.rl_lenient.specs.Founds.{IsFoundNumber};
ghost use Rattle.rust_literals.specs.Rejections.{IsNoNumber};

use crate::number::{Number, NumberKind};
use rl_lenient::{Found, parse_float_literal};
use rl_syntax::Kind;
use rl_tokens::ErrorKind;
use std::alloc::{Allocator, Global};

/// The type that represents the kind of floats. The type makes `LitFloat` and `LitInt` different types.
pub struct FloatKind;

/// A float literal: `1.5`, `1e5`, `2.0f32`. The number's size isn't checked.
///
/// `LitFloat::new` parses a text by the rule for floats only. So it accepts `1f64` too, which `Lit::new` parses as an
/// integer with the suffix `f64`.
///
/// # Example
///
/// ```
/// use rl_tokens::{Literal, Span};
/// use rust_literals::LitFloat;
/// use std::alloc::Global;
///
/// pub fn float_digits_or_text(alloc: Global, text: &str) -> Option<String> {
///     let token = Literal::from_text(alloc, text, Span::call_site()).ok()?;
///     match LitFloat::from_token(alloc, token) {
///         Ok(literal) => String::from_str(alloc, literal.base10_digits()).ok(),
///         Err(kept) => String::from_str(alloc, kept.value.text()).ok(),
///     }
/// }
/// // float_digits_or_text(alloc, "1_0.5e3_f64") == Some("10.5e3")
/// // float_digits_or_text(alloc, "abc") == Some("abc")
/// ```
pub type LitFloat<A = Global> = Number<FloatKind, A>;

impl NumberKind for FloatKind {
    ghost KIND = { Float };

    ghost is_number = { inr refl };

    const KIND: Kind = Kind::Float;

    fn find<A: Allocator>(text: &str) -> Result<Found, ErrorKind<A>>
        ensures found { IfOk result (IsFoundNumber text.now) }
        ensures kind { IfOk result (λ f. f.kind ≡ Float) }
        ensures err { IfErr result (IsNoNumber Float (chars text.now)) }
    {
        match parse_float_literal(text) {
            Some(found) => Ok(found),
            None => Err(ErrorKind::NotFloat),
        }
    }
}
