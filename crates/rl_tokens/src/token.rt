//! Token trees, the result of lexing a text.

ghost use Rattle.std.specs.Prelude.{◌≡◌, ◌++◌, ◌∷◌, [], map, OnOk, OnErr, IfErr};

use crate::buffer::ParseBuffer;
use crate::error::Error;
use crate::ident::Ident;
use crate::kept::Kept;
use crate::literal::Literal;
use crate::punct::Punct;
use rl_syntax::Span;
use std::alloc::{AllocFailed, Allocator, Global};

/// The pair of delimiters around a group of token trees.
///
/// See the example of [`TokenTree`].
#[derive(Clone, Copy, PartialEq, Eq, Debug)]
pub enum Delimiter {
    /// Parentheses: `( .. )`.
    Parenthesis,
    /// Braces: `{ .. }`.
    Brace,
    /// Square brackets: `[ .. ]`.
    Bracket,
}

/// A token other than a delimiter, or a group with everything inside it. [`lex`](crate::lex) returns a sequence of
/// token trees.
///
/// # Example
///
/// ```
/// use rl_tokens::{Delimiter, TokenTree, lex};
/// use std::alloc::Global;
///
/// pub fn first_delimiter(alloc: Global, text: &str) -> Option<Delimiter> {
///     let stream = lex(alloc, text, 0).ok()?;
///     match stream.trees().first()? {
///         TokenTree::Group(group) => Some(group.delimiter()),
///         _ => None,
///     }
/// }
/// // first_delimiter(alloc, "[1, 2]") == Some(Bracket)
/// ```
#[derive(Drop)]
#[cycle(tree)]
pub enum TokenTree<A: Allocator = Global> {
    /// A group: token trees between an opening and a closing delimiter.
    Group(Group<A>),
    /// An identifier token.
    Ident(Ident<A>),
    /// A token of one punctuation character.
    Punct(Punct),
    /// A literal token.
    Literal(Literal<A>),
}

/// A group: token trees between an opening and a closing delimiter, with its span.
///
/// See the example of [`ParseBuffer`].
#[derive(Drop)]
#[cycle(tree)]
pub struct Group<A: Allocator = Global> {
    delimiter: Delimiter,
    stream: TokenStream<A>,
    span: Span,
}

/// A sequence of token trees, to which token trees can be appended. Its memory comes from the allocator that it was
/// created with.
///
/// See the example of [`ToTokens`].
#[derive(Drop)]
#[cycle(tree)]
pub struct TokenStream<A: Allocator = Global> {
    trees: Vec<TokenTree<A>, A>,
}

impl<A: Allocator> TokenTree<A> {
    ghost use Rattle.rl_tokens.specs.Trees.{token_tree_span, tree_view, with_span, respanned, relocated};

    /// Returns the token tree's span. A group's span is from its opening delimiter to its closing one.
    pub fn span(&self) -> Span
        ensures { result ≡ token_tree_span self.now }
    {
        match self {
            TokenTree::Group(group) => group.span(),
            TokenTree::Ident(ident) => ident.span(),
            TokenTree::Punct(punct) => punct.span(),
            TokenTree::Literal(literal) => literal.span(),
        }
    }

    /// Sets the token tree's own span to `span`. The spans of token trees inside a group are unchanged.
    pub fn set_span(&mut self, span: Span)
        ensures { tree_view self.new ≡ with_span span (tree_view self.old) }
    {
        match self {
            TokenTree::Group(group) => group.set_span(span),
            TokenTree::Ident(ident) => ident.set_span(span),
            TokenTree::Punct(punct) => punct.set_span(span),
            TokenTree::Literal(literal) => literal.set_span(span),
        }
    }

    /// Sets the token tree's span, and the span of every token tree inside a group, to `span`.
    #[cycle(respan)]
    #[tactic(auto, using(crate::proofs::TreeLemmas::respanned_group))]
    fn respan(&mut self, span: Span)
        ensures { tree_view self.new ≡ respanned span (tree_view self.old) }
    {
        match self {
            TokenTree::Group(group) => group.respan(span),
            other => other.set_span(span),
        }
    }

    /// Replaces the token tree's span, and the span of every token tree inside a group, by the span that `table` gives
    /// for it, as [`TokenStream::map_by_byte_spans`] does.
    #[cycle(map_by_byte_spans)]
    #[tactic(auto, using(crate::proofs::TreeLemmas::relocated_group))]
    fn map_by_byte_spans(&mut self, table: &[Span])
        ensures { tree_view self.new ≡ relocated table.now (tree_view self.old) }
    {
        match self {
            TokenTree::Group(group) => group.map_by_byte_spans(table),
            other => {
                let span = other.span();
                other.set_span(span.mapped_by_byte_spans(table));
            }
        }
    }
}

impl<A: Allocator> Group<A> {
    ghost use Rattle.rl_tokens.specs.Trees.{
      delimiter_of,
      stream_of,
      group_span,
      closer_span,
      stream_view,
      respanned,
      relocated,
      group_tree,
    };
    ghost use Rattle.rl_tokens.specs.Buffers.{trees_in, scope_of};

    /// Creates a group with the delimiters `delimiter`, the token trees of `stream` inside, and the span `span`.
    pub fn new(delimiter: Delimiter, stream: TokenStream<A>, span: Span) -> Group<A>
        ensures delimiter { delimiter_of result ≡ delimiter }
        ensures stream { stream_of result ≡ stream }
        ensures span { group_span result ≡ span }
    {
        Group {
            delimiter,
            stream,
            span,
        }
    }

    /// Returns the group's pair of delimiters.
    pub fn delimiter(&self) -> Delimiter
        ensures { result ≡ delimiter_of self.now }
    {
        self.delimiter
    }

    /// Returns the token trees inside the group, borrowed.
    pub fn stream(&self) -> &TokenStream<A>
        ensures { result.now ≡ stream_of self.now }
    {
        &self.stream
    }

    /// Returns a parse buffer of the token trees inside the group. The buffer's scope is the last byte of the group's
    /// span, which is the closing delimiter.
    pub fn inside(&self) -> ParseBuffer<'_, A>
        ensures trees { trees_in result ≡ stream_view (stream_of self.now) }
        ensures scope { scope_of result ≡ closer_span (group_span self.now) }
    {
        let hi = self.span.hi();
        let closer = Span::new(self.span.file(), hi.saturating_sub(1), hi);
        ParseBuffer::new(self.stream.trees(), closer)
    }

    /// Returns the group's span, from its opening delimiter to its closing one.
    pub fn span(&self) -> Span
        ensures { result ≡ group_span self.now }
    {
        self.span
    }

    /// Sets the group's own span to `span`. The spans of the token trees inside the group are unchanged.
    pub fn set_span(&mut self, span: Span)
        ensures delimiter { delimiter_of self.new ≡ delimiter_of self.old }
        ensures stream { stream_of self.new ≡ stream_of self.old }
        ensures span { group_span self.new ≡ span }
    {
        self.span = span;
    }

    /// Sets the group's span, and the span of every token tree inside the group, to `span`.
    #[cycle(respan)]
    fn respan(&mut self, span: Span)
        ensures delimiter { delimiter_of self.new ≡ delimiter_of self.old }
        ensures inside { stream_view (stream_of self.new)
            ≡ map (respanned span) (stream_view (stream_of self.old)) }
        ensures span { group_span self.new ≡ span }
    {
        self.set_span(span);
        self.stream.respan(span);
    }

    /// Replaces the group's span, and the span of every token tree inside the group, by the span that `table` gives for
    /// it, as [`TokenStream::map_by_byte_spans`] does.
    #[cycle(map_by_byte_spans)]
    #[tactic(auto, using(crate::proofs::TreeLemmas::relocated_parts))]
    fn map_by_byte_spans(&mut self, table: &[Span])
        ensures { group_tree self.new ≡ relocated table.now (group_tree self.old) }
    {
        let span = self.span();
        self.set_span(span.mapped_by_byte_spans(table));
        self.stream.map_by_byte_spans(table);
    }
}

impl<A: Allocator> TokenStream<A> {
    ghost use Rattle.rl_tokens.specs.Errors.{memory_at};
    ghost use Rattle.rl_tokens.specs.Trees.{trees_of, token_tree_span, stream_view, respanned, relocated};

    /// Creates an empty stream, whose memory comes from `alloc`.
    pub fn new(alloc: A) -> TokenStream<A>
        ensures { trees_of result ≡ [] }
    {
        TokenStream {
            trees: Vec::new(alloc),
        }
    }

    /// Appends the token tree `tree` to the stream.
    ///
    /// # Errors
    ///
    /// Returns `Memory` at the token tree's span if an allocation fails. The stream is unchanged then, and the error
    /// contains the token tree.
    pub fn append(&mut self, tree: TokenTree<A>) -> Result<(), Kept<TokenTree<A>, A>>
        ensures ok { OnOk result (trees_of self.new ≡ trees_of self.old ++ tree ∷ []) }
        ensures unchanged { OnErr result (trees_of self.new ≡ trees_of self.old) }
        ensures kept { IfErr result (λ kept. kept.value ≡ tree) }
        ensures memory { IfErr result (λ kept. kept.error ≡ memory_at (token_tree_span tree)) }
    {
        match self.push(tree) {
            Ok(()) => Ok(()),
            Err(failed) => {
                let value = failed.value;
                let error = Error::out_of_memory(value.span());
                Err(Kept { value, error })
            }
        }
    }

    /// Appends the token tree `tree` to the stream. If an allocation fails, the stream is unchanged, and the error
    /// contains the token tree.
    pub(crate) fn push(&mut self, tree: TokenTree<A>) -> Result<(), AllocFailed<TokenTree<A>>>
        ensures ok { OnOk result (trees_of self.new ≡ trees_of self.old ++ tree ∷ []) }
        ensures unchanged { OnErr result (trees_of self.new ≡ trees_of self.old) }
        ensures kept { IfErr result (λ failed. failed.value ≡ tree) }
    {
        self.trees.push(tree)
    }

    /// Returns the stream's token trees, in their order, borrowed.
    pub fn trees(&self) -> &[TokenTree<A>]
        ensures { result.now ≡ trees_of self.now }
    {
        self.trees.as_slice()
    }

    /// Sets the span of every token tree of the stream, also inside groups, to `span`.
    #[cycle(respan)]
    pub fn respan(&mut self, span: Span)
        ensures { stream_view self.new ≡ map (respanned span) (stream_view self.old) }
    {
        for at in 0..self.trees.len() {
            self.trees[at].respan(span);
        }
    }

    /// Maps the span of every token tree of the stream, also inside groups, from the lexed text into a file.
    ///
    /// `table` contains a span for each byte of the lexed text: the position in the file that the byte comes from. For
    /// a byte after the end of `table`, the last span of `table` counts. A token tree's new span begins where the span
    /// of its first byte begins, and ends where the span of its last byte ends.
    #[cycle(map_by_byte_spans)]
    pub fn map_by_byte_spans(&mut self, table: &[Span])
        ensures { stream_view self.new
            ≡ map (relocated table.now) (stream_view self.old) }
    {
        for at in 0..self.trees.len() {
            self.trees[at].map_by_byte_spans(table);
        }
    }
}
