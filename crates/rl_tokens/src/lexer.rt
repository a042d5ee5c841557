//! The lexer, which turns a text into token trees.

ghost use Rattle.std.specs.Prelude.{List, ℕ, ◌≡◌, IfOk, IfErr, MatchResult};
ghost use Rattle.std.specs.Str.{chars};
ghost use Rattle.rl_lexer.specs.declared.lex_error.LexKind.{LexKind};
ghost use Rattle.rl_tokens.specs.Lexing.{Lexes, OneList, NeverBoth};
ghost use Rattle.rl_lexer.specs.Cuts.{Rejects, OneError};
ghost use Rattle.rl_syntax.specs.Printed.{Entry, Printed};
ghost use Rattle.rl_lexer.specs.PrintedTokens.{Reprinted};
ghost use Rattle.rl_tokens.specs.PrintedTrees.{printed_trees};
ghost use Rattle.rl_tokens.specs.Trees.{Tree, stream_view};

use crate::nest::TreeBuilder;
use crate::token::TokenStream;
use rl_lexer::{LexError, Tokens};
use std::alloc::Allocator;

/// Lexes a text into token trees.
///
/// The span of a token is `file` and the token's byte range in the text. A group's span is from its opening delimiter
/// to its closing one.
///
/// White space and plain comments are dropped. Escapes aren't checked: a literal token may be invalid.
///
/// See the example of [`TokenTree`].
///
/// # Errors
///
/// Lexing ends at the first error. [`LexKind`] describes each error's byte offset. At most 128 groups may be open at
/// once. An allocation failure is `Memory`, at the first byte of the token for which memory was needed.
///
/// [`LexKind`]: crate::LexKind
pub fn lex<A: Allocator + Copy>(alloc: A, text: &str, file: u32) -> Result<TokenStream<A>, LexError>
    // The whole text is lexed into the returned token trees.
    ensures trees { IfOk result (λ trees. Lexes (chars text.now) file (stream_view trees)) }
    // The returned error is the text's first error, or an allocation failure at the start of a token.
    ensures rejected { IfErr result (λ e. Rejects (chars text.now) e.kind e.at) }
    // If the text is lexed into token trees, these are returned, or an allocation failed.
    ensures exactly { (trees : List Tree) → Lexes (chars text.now) file trees
        → MatchResult result (λ s. stream_view s ≡ trees) (λ e. e.kind ≡ LexKind.Memory) }
    // A text is lexed into at most one list of token trees, has at most one first error, and never has both.
    ensures one_list { OneList }
    ensures one_error { OneError }
    ensures never_both { NeverBoth }
    // If the text is a printed list (literals that Rust's grammar accepts, with separators between them), `lex` returns
    // exactly the token trees of the list's items, or an allocation failed.
    ensures printed { (entries : List Entry) (last : List ℕ)
        → Printed (chars text.now) entries last
        → IfOk result (λ trees. stream_view trees ≡ printed_trees file 0 entries)
        × IfErr result (λ e. e.kind ≡ LexKind.Memory) }
    // If the text is a printed list of literals that were lexed from any text, with separators between them that aren't
    // empty, `lex` returns exactly the token trees of the list's items, or an allocation failed.
    ensures reprinted { (entries : List Entry) (last : List ℕ)
        → Reprinted (chars text.now) entries last
        → IfOk result (λ trees. stream_view trees ≡ printed_trees file 0 entries)
        × IfErr result (λ e. e.kind ≡ LexKind.Memory) }
{
    trees_of(alloc, text, file)
}

/// Returns the token trees of a text, or the first error of the text if it can't be lexed.
#[inline(always)]
fn trees_of<A: Allocator + Copy>(
    alloc: A,
    text: &str,
    file: u32,
) -> Result<TokenStream<A>, LexError>
    ensures trees { IfOk result (λ trees. Lexes (chars text.now) file (stream_view trees)) }
    ensures rejected { IfErr result (λ e. Rejects (chars text.now) e.kind e.at) }
{
    let mut nest = TreeBuilder::new(alloc, file);
    let mut tokens = Tokens::new(text);
    while let Some(token) = tokens.next() {
        nest.add(token.form, token.text, token.lo, token.hi)?;
    }
    match tokens.error() {
        Some(error) => Err(error),
        None => nest.finish(),
    }
}
