//! The buffer of token trees that parsers consume.

ghost use Rattle.std.specs.Prelude.{◌≡◌, ◌∷◌, [], List, map, IsTrue, IsFalse, ◌↔◌, IfSome, IfNone, OnOk, OnErr, IfOk, IfErr};

use crate::error::{Error, ErrorKind};
use crate::ident::Ident;
use crate::literal::Literal;
use crate::punct::{Punct, word_of};
use crate::token::{Group, TokenTree};
use rl_syntax::Span;
use rl_syntax::text::split_char;
use std::alloc::{Allocator, Global};

/// A sequence of borrowed token trees from which parsers consume, and a scope: the span of an error at the end of the
/// token trees.
///
/// Parsers consume token trees from the start of the buffer. The owner of the token trees keeps them, and may make any
/// number of buffers of them.
///
/// # Example
///
/// ```
/// use rl_tokens::{ParseBuffer, Span, lex};
/// use rust_literals::LitInt;
/// use std::alloc::Global;
///
/// pub fn first_integer_in_group(alloc: Global, text: &str) -> Option<u64> {
///     let stream = lex(alloc, text, 0).ok()?;
///     let mut input = ParseBuffer::new(stream.trees(), Span::call_site());
///     let mut inside = input.group()?.inside();
///     if !inside.peek::<LitInt>() {
///         return None;
///     }
///     let number = inside.parse::<LitInt>(alloc).ok()?;
///     number.base10_parse(alloc).ok()
/// }
/// // first_integer_in_group(alloc, "(0x10, 2)") == Some(16)
/// ```
#[derive(Drop)]
pub struct ParseBuffer<'a, A: Allocator = Global> {
    trees: &'a [TokenTree<A>],
    scope: Span,
}

impl<'a, A: Allocator> ParseBuffer<'a, A> {
    ghost use Rattle.rl_tokens.specs.Trees.{
      GroupTree,
      IdentTree,
      PunctTree,
      LiteralTree,
      delimiter_of,
      stream_of,
      group_span,
      stream_view,
      inside_of,
      tree_view,
    };
    ghost use Rattle.rl_tokens.specs.Buffers.{
      trees_in,
      scope_of,
      first_span,
      begins_literal,
      begins_ident,
      begins_punct,
      begins_group,
      begins_mark,
      IsAfterMark,
      IsAfterMarks,
      start_of,
      IsRejection,
      IsRest,
      StaysRest,
    };
    ghost use Rattle.rl_lexer.specs.Lexemes.{is_punct};
    ghost use Rattle.rl_tokens.specs.Puncts.{mark_word};
    ghost use Rattle.rl_tokens.specs.Trees.{Tree};
    ghost use Rattle.rl_syntax.specs.declared.span.Span.{Span as SpanValue};
    ghost use Rattle.std.specs.Str.{chars};

    /// Creates a buffer of the token trees `trees`, with the scope `scope`. The best scope is the end of the token
    /// trees: the text's end, or a group's closing delimiter.
    pub fn new(trees: &'a [TokenTree<A>], scope: Span) -> ParseBuffer<'a, A>
        ensures trees { trees_in result ≡ map tree_view trees.now }
        ensures scope { scope_of result ≡ scope }
    {
        ParseBuffer { trees, scope }
    }

    /// Returns `true` if all token trees of the buffer have been consumed.
    pub fn is_empty(&self) -> bool
        ensures { IsTrue result ↔ (trees_in self.now ≡ []) }
    {
        self.trees.is_empty()
    }

    /// Returns the span of the next token tree, or the buffer's scope if all token trees have been consumed. The span
    /// of a group includes its delimiters.
    pub fn span(&self) -> Span
        ensures { result ≡ first_span (trees_in self.now) (scope_of self.now) }
    {
        match self.trees.first() {
            Some(tree) => tree.span(),
            None => self.scope,
        }
    }

    /// Returns a second buffer with the same remaining token trees and the same scope, to look ahead with. Consuming
    /// from the second buffer doesn't change the first. No token tree is copied.
    pub fn fork(&self) -> ParseBuffer<'a, A>
        ensures trees { trees_in result ≡ trees_in self.now }
        ensures scope { scope_of result ≡ scope_of self.now }
    {
        ParseBuffer {
            trees: self.trees,
            scope: self.scope,
        }
    }

    /// Returns the token trees that haven't been consumed yet, in their order, borrowed.
    pub fn rest(&self) -> &'a [TokenTree<A>]
        ensures { map tree_view result.now ≡ trees_in self.now }
    {
        &self.trees[..]
    }

    /// Consumes the next token tree if it is a literal token, and returns the token, borrowed. Otherwise the result is
    /// `None` and the buffer is unchanged. `true` and `-1` aren't literal tokens: the parser of `Lit` accepts them.
    pub fn literal(&mut self) -> Option<&'a Literal<A>>
        ensures taken { IfSome result
            (λ x. trees_in self.old ≡ LiteralTree x.now ∷ trees_in self.new) }
        ensures left { IfNone result (trees_in self.new ≡ trees_in self.old) }
        ensures other { IfNone result (IsFalse (begins_literal (trees_in self.old))) }
        ensures rest { IsRest (trees_in self.old) (trees_in self.new) }
        ensures onward { StaysRest (trees_in self.old) (trees_in self.new) }
        ensures scope { scope_of self.new ≡ scope_of self.old }
    {
        let (first, rest) = self.trees.split_first()?;
        match first {
            TokenTree::Literal(literal) => {
                self.trees = rest;
                Some(literal)
            }
            _ => None,
        }
    }

    /// Consumes the next token tree if it is an identifier, and returns the token, borrowed. Otherwise the result is
    /// `None` and the buffer is unchanged.
    pub fn ident(&mut self) -> Option<&'a Ident<A>>
        ensures taken { IfSome result
            (λ x. trees_in self.old ≡ IdentTree x.now ∷ trees_in self.new) }
        ensures left { IfNone result (trees_in self.new ≡ trees_in self.old) }
        ensures other { IfNone result (IsFalse (begins_ident (trees_in self.old))) }
        ensures rest { IsRest (trees_in self.old) (trees_in self.new) }
        ensures onward { StaysRest (trees_in self.old) (trees_in self.new) }
        ensures scope { scope_of self.new ≡ scope_of self.old }
    {
        let (first, rest) = self.trees.split_first()?;
        match first {
            TokenTree::Ident(ident) => {
                self.trees = rest;
                Some(ident)
            }
            _ => None,
        }
    }

    /// Consumes the next token tree if it is a punctuation character, and returns the token, borrowed. Otherwise the
    /// result is `None` and the buffer is unchanged.
    pub fn punct(&mut self) -> Option<&'a Punct>
        ensures taken { IfSome result
            (λ x. trees_in self.old ≡ PunctTree x.now ∷ trees_in self.new) }
        ensures left { IfNone result (trees_in self.new ≡ trees_in self.old) }
        ensures other { IfNone result (IsFalse (begins_punct (trees_in self.old))) }
        ensures rest { IsRest (trees_in self.old) (trees_in self.new) }
        ensures onward { StaysRest (trees_in self.old) (trees_in self.new) }
        ensures scope { scope_of self.new ≡ scope_of self.old }
    {
        let (first, rest) = self.trees.split_first()?;
        match first {
            TokenTree::Punct(punct) => {
                self.trees = rest;
                Some(punct)
            }
            _ => None,
        }
    }

    /// Returns `true` if the next token tree is the punctuation character `ch`. Nothing is consumed.
    #[tactic(auto, using(crate::proofs::MarkLemmas::no_mark))]
    pub fn peek_punct(&self, ch: char) -> bool
        ensures { result ≡ begins_mark ch (trees_in self.now) }
    {
        match self.fork().punct() {
            Some(punct) => punct.as_char() == ch,
            None => false,
        }
    }

    /// Consumes the next token tree if it is the punctuation character `ch`, and otherwise returns an error. The consumed
    /// token is returned, borrowed. [`Punct::is_char`] must be `true` for `ch`.
    ///
    /// # Errors
    ///
    /// Returns `Expected` at the next token tree's span if that isn't the character `ch`, and `EndOfInput` at the
    /// buffer's scope if all token trees have been consumed. The message contains the character between backticks, as
    /// in ``expected `=` ``. The buffer is unchanged on an error.
    pub fn take_punct(&mut self, ch: char) -> Result<&'a Punct, Error<A>>
        requires { IsTrue (is_punct ch) }
        ensures taken { OnOk result (IsAfterMark ch (trees_in self.old) (trees_in self.new)) }
        ensures borrowed { IfOk result
            (λ x. trees_in self.old ≡ PunctTree x.now ∷ trees_in self.new) }
        ensures left { OnErr result (trees_in self.new ≡ trees_in self.old) }
        ensures other { OnErr result (IsFalse (begins_mark ch (trees_in self.old))) }
        ensures rejected { IfErr result
            (IsRejection (trees_in self.old) (scope_of self.old) (mark_word ch)) }
        ensures rest { IsRest (trees_in self.old) (trees_in self.new) }
        ensures onward { StaysRest (trees_in self.old) (trees_in self.new) }
        ensures scope { scope_of self.new ≡ scope_of self.old }
    {
        match self.mark(ch) {
            Some(punct) => Ok(punct),
            None => Err(self.error(word_of(ch))),
        }
    }

    /// Consumes the next token tree if it is the punctuation character `ch`, and returns the token, borrowed. Otherwise
    /// the result is `None` and the buffer is unchanged.
    #[tactic(auto, using(crate::proofs::MarkLemmas::no_mark))]
    fn mark(&mut self, ch: char) -> Option<&'a Punct>
        ensures taken { IfSome result
            (λ x. (trees_in self.old ≡ PunctTree x.now ∷ trees_in self.new) × (x.now.ch ≡ ch)) }
        ensures left { IfNone result (trees_in self.new ≡ trees_in self.old) }
        ensures other { IfNone result (IsFalse (begins_mark ch (trees_in self.old))) }
        ensures rest { IsRest (trees_in self.old) (trees_in self.new) }
        ensures onward { StaysRest (trees_in self.old) (trees_in self.new) }
        ensures scope { scope_of self.new ≡ scope_of self.old }
    {
        if !self.peek_punct(ch) {
            return None;
        }
        self.punct()
    }

    /// Consumes the next token trees if they are the punctuation characters of `marks`, for example `..=`, and nothing is
    /// between the characters. Returns the span of the characters. Otherwise the result is `None`, and the buffer is
    /// unchanged. [`ParseBuffer::error`] creates the error.
    ///
    /// The token tree after the characters doesn't matter: `..` is also consumed from `..=`, as by `syn`'s `Token![..]`.
    ///
    /// # Example
    ///
    /// ```
    /// use rl_tokens::{ParseBuffer, Span, lex};
    /// use rust_literals::LitInt;
    /// use std::alloc::Global;
    ///
    /// pub fn closed_range(alloc: Global, text: &str) -> Option<(u64, u64)> {
    ///     let stream = lex(alloc, text, 0).ok()?;
    ///     let mut input = ParseBuffer::new(stream.trees(), Span::call_site());
    ///     let first = input.parse::<LitInt>(alloc).ok()?;
    ///     input.joint_puncts("..=")?;
    ///     let last = input.parse::<LitInt>(alloc).ok()?;
    ///     Some((
    ///         first.base10_parse(alloc).ok()?,
    ///         last.base10_parse(alloc).ok()?,
    ///     ))
    /// }
    /// // closed_range(alloc, "1..=5") == Some((1, 5))
    /// // closed_range(alloc, "1 .. = 5") == None
    /// ```
    pub fn joint_puncts(&mut self, marks: &str) -> Option<Span>
        ensures taken { IfSome result (λ span. IsAfterMarks (chars marks.now)
            (start_of (first_span (trees_in self.old) (scope_of self.old))) (trees_in self.old) span (trees_in self.new)) }
        ensures left { IfNone result (trees_in self.new ≡ trees_in self.old) }
        ensures other { IfNone result ((span : SpanValue) (rest : List Tree) → IsAfterMarks (chars marks.now)
            (start_of (first_span (trees_in self.old) (scope_of self.old))) (trees_in self.old) span rest → ⊥) }
        ensures rest { IsRest (trees_in self.old) (trees_in self.new) }
        ensures onward { StaysRest (trees_in self.old) (trees_in self.new) }
        ensures scope { scope_of self.new ≡ scope_of self.old }
    {
        let Span { file, lo, .. } = self.span();
        let mut ahead = self.fork();
        let Some(span) = ahead.next_puncts(marks, Span { file, lo, hi: lo }) else {
            return None;
        };
        self.trees = ahead.trees;
        Some(span)
    }

    /// Consumes the next token trees if they are the punctuation characters of `marks`, the first begins where the span
    /// `before` ends, and nothing is between the characters. Returns the span `before`, continued to the end of the last
    /// character. If the result is `None`, some of the characters may have been consumed.
    fn next_puncts(&mut self, marks: &str, before: Span) -> Option<Span>
        ensures taken { IfSome result
            (λ span. IsAfterMarks (chars marks.now) before (trees_in self.old) span (trees_in self.new)) }
        ensures other { IfNone result ((span : SpanValue) (rest : List Tree)
            → IsAfterMarks (chars marks.now) before (trees_in self.old) span rest → ⊥) }
    {
        let Some((ch, more)) = split_char(marks) else {
            return Some(before);
        };
        let at = self.mark(ch)?.span();
        if at.file != before.file || at.lo != before.hi {
            return None;
        }
        let mut joined = before;
        joined.hi = at.hi;
        self.next_puncts(more, joined)
    }

    /// Consumes the next token tree if it is a group, and returns the group, borrowed. Otherwise the result is `None`
    /// and the buffer is unchanged. [`Group::inside`] returns a buffer of the group's token trees.
    pub fn group(&mut self) -> Option<&'a Group<A>>
        ensures taken { IfSome result
            (λ x. trees_in self.old
            ≡ GroupTree (delimiter_of x.now) (inside_of (stream_view (stream_of x.now)))
            (group_span x.now)
            ∷ trees_in self.new) }
        ensures left { IfNone result (trees_in self.new ≡ trees_in self.old) }
        ensures other { IfNone result (IsFalse (begins_group (trees_in self.old))) }
        ensures rest { IsRest (trees_in self.old) (trees_in self.new) }
        ensures onward { StaysRest (trees_in self.old) (trees_in self.new) }
        ensures scope { scope_of self.new ≡ scope_of self.old }
    {
        let (first, rest) = self.trees.split_first()?;
        match first {
            TokenTree::Group(group) => {
                self.trees = rest;
                Some(group)
            }
            _ => None,
        }
    }

    /// Returns the error for a parser that expected something else than the next token tree: `Expected(word)` at the
    /// next token tree's span, or `EndOfInput(word)` at the buffer's scope if all token trees have been consumed.
    /// Nothing is allocated.
    pub fn error(&self, word: &'static str) -> Error<A>
        ensures { IsRejection (trees_in self.now) (scope_of self.now) word.now result }
    {
        let span = self.span();
        let kind = if self.trees.is_empty() {
            ErrorKind::EndOfInput(word)
        } else {
            ErrorKind::Expected(word)
        };
        Error { span, kind }
    }
}
