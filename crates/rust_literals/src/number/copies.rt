//! Methods of `Number` that copy a number or its token, compare, hash and print it, and append it to a token stream.

ghost use Rattle.std.specs.Prelude.{◌≡◌, ◌==◌, ◌++◌, ◌∷◌, [], IfOk, IfErr, OnOk, OnErr, Some, codes, option_map, string_bytes};
ghost use Rattle.std.specs.Cmp.{partial_equiv_from_equiv, on_equiv};
ghost use Rattle.std.specs.Cmp.Lexicographic.{pointwise, nat_list_eq_equiv};
ghost use Rattle.std.specs.Cmp.Rules.{hashing};
ghost use Rattle.std.specs.Hash as fed;
ghost use Rattle.std.specs.Ordering.{on};
ghost use Rattle.std.proofs.Common.{rules};
ghost use Rattle.rl_tokens.specs.Errors.{memory_at};
ghost use Rattle.rl_tokens.specs.Trees.{LiteralTree, stream_view};
ghost use Rattle.rl_syntax.specs.Words.{kind_name};

use crate::number::{Number, NumberKind};
use rl_tokens::{Error, Literal, ToTokens, TokenStream, append_literal};
use std::alloc::{AllocError, Allocator};
use std::fmt;
use std::hash::{Hash, Hasher};
use std::marker::PhantomData;

/// Returns a copy of the string in `text`, or `None` if `text` is `None`.
fn copy_of<A: Allocator, B: Allocator>(
    alloc: B,
    text: &Option<String<A>>,
) -> Result<Option<String<B>>, AllocError>
    ensures { IfOk result
        (λ copy. option_map string_bytes copy ≡ option_map string_bytes text.now) }
{
    match text {
        Some(text) => Ok(Some(String::from_str(alloc, text.as_str())?)),
        None => Ok(None),
    }
}

impl<K: NumberKind, A: Allocator> Number<K, A> {
    /// Returns a new literal token with the number's text and span.
    ///
    /// # Errors
    ///
    /// Returns `Memory` at the number's span if an allocation fails.
    pub fn token<B: Allocator>(&self, alloc: B) -> Result<Literal<B>, Error<B>>
        ensures ok { IfOk result (λ l. l ≡ self.now) }
        ensures memory { IfErr result (λ e. e ≡ memory_at self.now.span) }
    {
        self.token.clone(alloc)
    }

    /// Returns a copy of the number, in memory from `alloc`. Memory is needed for the token, and for the digits in base
    /// ten unless they are borrowed from the token's text.
    ///
    /// # Errors
    ///
    /// Returns `Memory` at the literal's span if an allocation fails.
    pub fn clone<B: Allocator + Copy>(&self, alloc: B) -> Result<Number<K, B>, Error<B>>
        ensures ok { IfOk result (λ l. l ≡ self.now) }
        ensures memory { IfErr result (λ e. e ≡ memory_at self.now.span) }
    {
        let token = match self.token.clone(alloc) {
            Ok(token) => token,
            Err(error) => return Err(error),
        };
        match copy_of(alloc, &self.digits) {
            Ok(digits) => Ok(Number {
                token,
                digits,
                suffix_at: self.suffix_at,
                of: PhantomData,
            }),
            Err(_) => Err(Error::out_of_memory(self.token.span())),
        }
    }
}

/// Two number literals are equal if their texts as written are equal: `0xF` isn't equal to `15`, and `1.0` isn't equal
/// to `1.00`. Spans are ignored.
impl<K: NumberKind, A: Allocator> PartialEq for Number<K, A> {
    ghost eq = { on (λ l. l.text) (pointwise ◌==◌) };

    ghost laws = { partial_equiv_from_equiv (on_equiv (λ l. l.text) nat_list_eq_equiv) };

    fn eq(&self, other: &Self) -> bool {
        self.token.text() == other.token.text()
    }
}

impl<K: NumberKind, A: Allocator> Eq for Number<K, A> {
    ghost laws = { on_equiv (λ l. l.text) nat_list_eq_equiv };
}

/// The hash of a number depends on its text only.
impl<K: NumberKind, A: Allocator> Hash for Number<K, A> {
    ghost hash_input = { λ l. fed.str l.text };

    ghost respects_eq = { Prim.search (hashing, rules) };

    fn hash<H: Hasher>(&self, state: &mut H) {
        self.token.text().hash(state);
    }
}

/// Writes the type's name, and the number's text in braces, as in `LitInt { token: 1 }`.
impl<K: NumberKind, A: Allocator> fmt::Debug for Number<K, A> {
    ghost debug_output = { λ l. Some (kind_name K.KIND ++ codes " { token: " ++ l.text
        ++ codes " }") };

    fn fmt<W: fmt::Write>(&self, f: &mut fmt::Formatter<W>) -> fmt::Result {
        let name = K::KIND.struct_name();
        let text = self.token.text();
        write!(f, "{name} {{ token: {text} }}")
    }
}

/// Appends the number's token to a token stream.
impl<K: NumberKind, A: Allocator> ToTokens for Number<K, A> {
    ghost appends = { λ l. LiteralTree l ∷ [] };

    fn to_tokens<B: Allocator>(&self, alloc: B, tokens: &mut TokenStream<B>) -> Result<(), Error<B>>
        ensures ok { OnOk result
            (stream_view tokens.new ≡ stream_view tokens.old ++ LiteralTree self.now ∷ []) }
        ensures unchanged { OnErr result (stream_view tokens.new ≡ stream_view tokens.old) }
        ensures memory { IfErr result (λ e. e ≡ memory_at self.now.span) }
    {
        append_literal(alloc, &self.token, tokens)
    }
}
