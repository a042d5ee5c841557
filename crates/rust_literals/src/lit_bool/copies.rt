//! Methods of `LitBool` that copy, compare, hash and print a literal, and append it to a token stream.

ghost use Rattle.std.specs.Fmt.{padded};
ghost use Rattle.std.specs.Prelude.{◌≡◌, ◌++◌, ◌∷◌, [], Ok, IfErr, OnOk, OnErr, Some, codes};
ghost use Rattle.std.specs.Cmp.{partial_equiv_from_equiv, on_equiv, bool_eq_equiv};
ghost use Rattle.std.specs.Cmp.Rules.{hashing};
ghost use Rattle.std.specs.Hash as fed;
ghost use Rattle.std.specs.Ordering.{on};
ghost use Rattle.std.specs.Bool.{beq};
ghost use Rattle.std.proofs.Common.{rules};
ghost use Rattle.rl_tokens.specs.Errors.{memory_at};
ghost use Rattle.rl_syntax.specs.Reading.{truth_text};
ghost use Rattle.rl_tokens.specs.Trees.{IdentTree, stream_view};

use crate::lit_bool::{LitBool, word};
use rl_tokens::{Error, ToTokens, TokenStream, append_ident};
use std::alloc::Allocator;
use std::fmt;
use std::hash::{Hash, Hasher};

impl LitBool {
    /// Returns a copy of the literal. Nothing is allocated, so the function never fails.
    ///
    /// # Errors
    ///
    /// Returns no error: the result is always `Ok`.
    pub fn clone<B: Allocator>(&self, _alloc: B) -> Result<LitBool, Error<B>>
        ensures { result ≡ Ok self.now }
    {
        Ok(LitBool {
            value: self.value,
            span: self.span,
        })
    }
}

/// Two `bool` literals are equal if their values are equal. Spans are ignored.
impl PartialEq for LitBool {
    ghost eq = { on (λ l. l.value) beq };

    ghost laws = { partial_equiv_from_equiv (on_equiv (λ l. l.value) bool_eq_equiv) };

    fn eq(&self, other: &Self) -> bool {
        self.value == other.value
    }
}

impl Eq for LitBool {
    ghost laws = { on_equiv (λ l. l.value) bool_eq_equiv };
}

/// The hash of a `bool` literal depends on its value only.
impl Hash for LitBool {
    ghost hash_input = { λ l. fed.bool l.value };

    ghost respects_eq = { Prim.search (hashing, rules) };

    fn hash<H: Hasher>(&self, state: &mut H) {
        self.value.hash(state);
    }
}

/// Writes `true` or `false`. A width in the format pads the text, as it pads a `str`.
impl fmt::Display for LitBool {
    ghost output = { λ l. Some (truth_text l.value) };

    ghost styled_output = { λ l spec. Some (padded spec (truth_text l.value)) };

    fn fmt<W: fmt::Write>(&self, f: &mut fmt::Formatter<W>) -> fmt::Result {
        f.pad(word(self.value))
    }
}

/// Writes the type's name, and the value in braces: `LitBool { value: true }`.
impl fmt::Debug for LitBool {
    ghost debug_output = { λ l. Some (codes "LitBool { value: " ++ truth_text l.value
        ++ codes " }") };

    fn fmt<W: fmt::Write>(&self, f: &mut fmt::Formatter<W>) -> fmt::Result {
        let word = word(self.value);
        write!(f, "LitBool {{ value: {word} }}")
    }
}

/// Appends the identifier `true` or `false` to a token stream.
impl ToTokens for LitBool {
    ghost appends = { λ l. IdentTree (record { text = truth_text l.value; span = l.span }) ∷ [] };

    fn to_tokens<B: Allocator>(&self, alloc: B, tokens: &mut TokenStream<B>) -> Result<(), Error<B>>
        ensures ok { OnOk result
            (stream_view tokens.new ≡ stream_view tokens.old
            ++ IdentTree (record { text = truth_text self.now.value; span = self.now.span }) ∷ []) }
        ensures unchanged { OnErr result (stream_view tokens.new ≡ stream_view tokens.old) }
        ensures memory { IfErr result (λ e. e ≡ memory_at self.now.span) }
    {
        append_ident(self.token(alloc)?, tokens)?;
        Ok(())
    }
}
