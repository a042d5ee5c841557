//! Methods of `Lit` that copy, compare, hash and print a literal, and append it to a token stream.

ghost use Rattle.std.specs.Fmt.{padded};
ghost use Rattle.std.specs.Prelude.{◌≡◌, ◌++◌, ◌∷◌, [], IfOk, IfErr, OnOk, OnErr, Some};
ghost use Rattle.std.specs.Cmp.{partial_equiv_from_equiv};
ghost use Rattle.std.specs.Cmp.Rules.{hashing};
ghost use Rattle.std.specs.Hash as fed;
ghost use Rattle.std.proofs.Common.{rules};
ghost use Rattle.rl_tokens.specs.Errors.{memory_at};
ghost use Rattle.rl_tokens.specs.Trees.{LiteralTree, stream_view};
ghost use Rattle.rust_literals.specs.Copies.{
  IsCopyOf,
  variant_of,
  text_of,
  is_equal,
  is_equal_equiv,
  debug_text,
  tree_of,
};
ghost use Rattle.rust_literals.specs.Literals.{kind_of};
ghost use Rattle.rust_literals.specs.LitParts.{lit_span};

use crate::lit::Lit;
use rl_syntax::Kind;
use rl_tokens::{Error, Kept, Literal, Span, ToTokens, TokenStream, TokenTree};
use std::alloc::Allocator;
use std::fmt;
use std::hash::{Hash, Hasher};

impl<A: Allocator> Lit<A> {
    /// Returns a copy of the literal, in memory from `alloc`.
    ///
    /// # Errors
    ///
    /// Returns `Memory` at the literal's span if an allocation fails.
    pub fn clone<B: Allocator + Copy>(&self, alloc: B) -> Result<Lit<B>, Error<B>>
        ensures ok { IfOk result (IsCopyOf self.now) }
        ensures memory { IfErr result (λ e. e ≡ memory_at (lit_span self.now)) }
    {
        Ok(match self {
            Lit::Str(literal) => Lit::Str(literal.clone(alloc)?),
            Lit::ByteStr(literal) => Lit::ByteStr(literal.clone(alloc)?),
            Lit::CStr(literal) => Lit::CStr(literal.clone(alloc)?),
            Lit::Byte(literal) => Lit::Byte(literal.clone(alloc)?),
            Lit::Char(literal) => Lit::Char(literal.clone(alloc)?),
            Lit::Int(literal) => Lit::Int(literal.clone(alloc)?),
            Lit::Float(literal) => Lit::Float(literal.clone(alloc)?),
            Lit::Bool(literal) => Lit::Bool(literal.clone(alloc)?),
            Lit::Verbatim(token) => Lit::Verbatim(token.clone(alloc)?),
        })
    }

    /// Returns the index of the literal's variant in `Lit`, counted from 0.
    fn variant(&self) -> u8
        ensures { result ≡ variant_of self.now }
    {
        match self.kind() {
            Some(kind) => kind as u8,
            None => 8,
        }
    }
}

/// Two literals are equal if their kinds and their texts as written are equal: `0xF` isn't equal to `15`, and `1f64` as
/// an integer isn't equal to `1f64` as a float. Spans are ignored.
impl<A: Allocator> PartialEq for Lit<A> {
    ghost eq = { is_equal };

    ghost laws = { partial_equiv_from_equiv is_equal_equiv };

    fn eq(&self, other: &Self) -> bool {
        self.variant() == other.variant() && self.text() == other.text()
    }
}

impl<A: Allocator> Eq for Lit<A> {
    ghost laws = { is_equal_equiv };
}

/// The hash of a literal depends on its kind and its text.
impl<A: Allocator> Hash for Lit<A> {
    ghost hash_input = { λ l. fed.u8 (variant_of l) ++ fed.str (text_of l) };

    ghost respects_eq = { Prim.search (hashing, rules) };

    fn hash<H: Hasher>(&self, state: &mut H) {
        state.write_u8(self.variant());
        self.text().hash(state);
    }
}

/// Writes the literal's text as written. A width in the format pads the text, as it pads a `str`.
impl<A: Allocator> fmt::Display for Lit<A> {
    ghost output = { λ l. Some (text_of l) };

    ghost styled_output = { λ l spec. Some (padded spec (text_of l)) };

    fn fmt<W: fmt::Write>(&self, f: &mut fmt::Formatter<W>) -> fmt::Result {
        f.pad(self.text())
    }
}

/// Writes the debug output of the variant's own type, for example of `LitStr`. For `Verbatim` the output is the name
/// `Verbatim`, and the token's text in braces.
impl<A: Allocator> fmt::Debug for Lit<A> {
    ghost debug_output = { λ l. Some (debug_text (kind_of l) (text_of l)) };

    fn fmt<W: fmt::Write>(&self, f: &mut fmt::Formatter<W>) -> fmt::Result {
        let text = self.text();
        match self.kind() {
            Some(Kind::Bool) => write!(f, "LitBool {{ value: {text} }}"),
            Some(kind) => {
                let name = kind.struct_name();
                write!(f, "{name} {{ token: {text} }}")
            }
            None => write!(f, "Verbatim {{ token: {text} }}"),
        }
    }
}

/// Appends a literal token with the text `text` and the span `span` to the stream `tokens`. If an allocation fails, the
/// stream is unchanged, and the error is at the span.
fn append_text<A: Allocator>(
    alloc: A,
    text: &str,
    span: Span,
    tokens: &mut TokenStream<A>,
) -> Result<(), Error<A>>
    ensures ok { OnOk result (stream_view tokens.new
        ≡ stream_view tokens.old ++ LiteralTree (record { text = text.now; span = span }) ∷ []) }
    ensures unchanged { OnErr result (stream_view tokens.new ≡ stream_view tokens.old) }
    ensures memory { IfErr result (λ e. e ≡ memory_at span) }
{
    let token = Literal::from_text(alloc, text, span)?;
    match tokens.append(TokenTree::Literal(token)) {
        Ok(()) => Ok(()),
        Err(Kept { error, .. }) => Err(error),
    }
}

/// Appends the literal's token to a token stream. The token of a `bool` literal is the identifier `true` or `false`.
impl<A: Allocator> ToTokens for Lit<A> {
    ghost appends = { λ l. tree_of l ∷ [] };

    fn to_tokens<B: Allocator>(&self, alloc: B, tokens: &mut TokenStream<B>) -> Result<(), Error<B>>
        ensures ok { OnOk result
            (stream_view tokens.new ≡ stream_view tokens.old ++ tree_of self.now ∷ []) }
        ensures unchanged { OnErr result (stream_view tokens.new ≡ stream_view tokens.old) }
        ensures memory { IfErr result (λ e. e ≡ memory_at (lit_span self.now)) }
    {
        match self {
            Lit::Bool(literal) => literal.to_tokens(alloc, tokens),
            _ => append_text(alloc, self.text(), self.span(), tokens),
        }
    }
}
