//! Functions that append a token to a token stream.

ghost use Rattle.std.specs.Prelude.{◌≡◌, ◌++◌, ◌∷◌, [], OnOk, OnErr, IfErr};
ghost use Rattle.rl_tokens.specs.Errors.{memory_at};
ghost use Rattle.rl_tokens.specs.Trees.{IdentTree, LiteralTree, stream_view};

use crate::error::Error;
use crate::ident::Ident;
use crate::kept::Kept;
use crate::literal::Literal;
use crate::token::{TokenStream, TokenTree};
use std::alloc::Allocator;

/// Appends a copy of the literal token `token` to the stream `tokens`.
///
/// # Errors
///
/// Returns `Memory` at the token's span if an allocation fails. The stream is unchanged then.
pub fn append_literal<A: Allocator, B: Allocator>(
    alloc: B,
    token: &Literal<A>,
    tokens: &mut TokenStream<B>,
) -> Result<(), Error<B>>
    ensures ok { OnOk result
        (stream_view tokens.new ≡ stream_view tokens.old ++ LiteralTree token.now ∷ []) }
    ensures unchanged { OnErr result (stream_view tokens.new ≡ stream_view tokens.old) }
    ensures memory { IfErr result (λ e. e ≡ memory_at token.now.span) }
{
    let copy = token.clone(alloc)?;
    tokens.append(TokenTree::Literal(copy))?;
    Ok(())
}

/// Appends the identifier token `ident` to the stream `tokens`.
///
/// # Errors
///
/// Returns `Memory` at the identifier's span if an allocation fails. The stream is unchanged then, and the error
/// contains the identifier.
pub fn append_ident<A: Allocator>(
    ident: Ident<A>,
    tokens: &mut TokenStream<A>,
) -> Result<(), Kept<Ident<A>, A>>
    ensures ok { OnOk result
        (stream_view tokens.new ≡ stream_view tokens.old ++ IdentTree ident ∷ []) }
    ensures unchanged { OnErr result (stream_view tokens.new ≡ stream_view tokens.old) }
    ensures kept { IfErr result (λ kept. kept.value ≡ ident) }
    ensures memory { IfErr result (λ kept. kept.error ≡ memory_at ident.span) }
{
    let Err(Kept { value, error }) = tokens.append(TokenTree::Ident(ident)) else {
        return Ok(());
    };
    match value {
        TokenTree::Ident(value) => Err(Kept { value, error }),
        _ => unreachable!(),
    }
}
