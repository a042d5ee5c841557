//! The builder that collects tokens into token trees while a text is lexed.

ghost use Rattle.std.specs.Prelude.{◌≡◌, ◌≤◌, ◌+◌, [], vec_len, OnOk, IfErr, IfOk};
ghost use Rattle.rl_lexer.specs.Cursors.{form_view};
ghost use Rattle.rl_tokens.specs.Lexing.{delimiter_for};

use crate::ident::Ident;
use crate::literal::Literal;
use crate::punct::Punct;
use crate::token::{Delimiter, Group, TokenStream, TokenTree};
use rl_lexer::{Form, LexError, LexKind, is_opener};
use rl_syntax::Span;
use std::alloc::Allocator;
use std::mem;

/// The greatest number of groups that may be open at once while a text is lexed.
const MAX_OPEN: usize = 128;

/// An open group: the lexer has found its opening delimiter, and not yet its closing one.
#[derive(Drop)]
pub(crate) struct GroupBuilder<A: Allocator> {
    delimiter: Delimiter,
    // The byte offset of the group's opening delimiter in the text.
    at: usize,
    // The token trees before this group, in the group or the text that contains it.
    before: TokenStream<A>,
}

/// A builder of the token trees of one text: the token trees so far, and the groups that are open.
#[derive(Drop)]
pub(crate) struct TreeBuilder<A: Allocator> {
    alloc: A,
    file: u32,
    // The open groups, from the outermost to the innermost.
    opened: Vec<GroupBuilder<A>, A>,
    // The token trees of the innermost open group so far, or of the text if no group is open.
    trees: TokenStream<A>,
    ghost shallow: { vec_len opened ≤ 128 },
}

impl<A: Allocator + Copy> TreeBuilder<A> {
    ghost use Rattle.rl_tokens.specs.Trees.{stream_view, flat_trees};
    ghost use Rattle.rl_lexer.specs.Cuts.{EndsInGroup};
    ghost use Rattle.rl_tokens.specs.Mirrors.TreeBuilders.{groups_of, flat_builder, IsFitting, TakesToken, TakesTree, OpensGroup, ClosesGroup, RejectsForm, RejectsOpener, RejectsCloser};

    /// Creates an empty builder. The spans of its token trees get the file number `file`.
    pub(crate) fn new(alloc: A, file: u32) -> TreeBuilder<A>
        ensures groups { groups_of result ≡ [] }
        ensures flat { flat_builder result ≡ [] }
        ensures file { result.file ≡ file }
    {
        TreeBuilder {
            alloc,
            file,
            opened: Vec::new(alloc),
            trees: TokenStream::new(alloc),
        }
    }

    /// Adds a token with the form `form`, the text `text` and the byte range from `lo` to `hi`. The error of a
    /// delimiter that doesn't fit, or of an allocation failure, is at the byte offset `lo`.
    pub(crate) fn add(
        &mut self,
        form: Form,
        text: &str,
        lo: usize,
        hi: usize,
    ) -> Result<(), LexError>
        requires { IsFitting (form_view form) text.now lo hi }
        ensures ok { OnOk result (TakesToken self.old self.new (form_view form) text.now lo hi) }
        ensures at { IfErr result (λ e. e.at ≡ lo) }
        ensures kind { IfErr result
            (λ e. RejectsForm (groups_of self.old) (form_view form) e.kind) }
    {
        let span = Span::new(self.file, lo, hi);
        match form {
            Form::Literal => match String::from_str(self.alloc, text) {
                Ok(text) => self.append(TokenTree::Literal(Literal::of_string(text, span)), lo),
                Err(_) => Err(LexError::new(LexKind::Memory, lo)),
            },
            Form::Identifier => match String::from_str(self.alloc, text) {
                Ok(text) => self.append(TokenTree::Ident(Ident::of_string(text, span)), lo),
                Err(_) => Err(LexError::new(LexKind::Memory, lo)),
            },
            Form::Mark(c) => self.append(TokenTree::Punct(Punct::new(c, span)), lo),
            Form::Delimiter(c) => {
                if is_opener(c) {
                    self.open_group(delimiter_for(c), lo)
                } else {
                    self.close_group(delimiter_for(c), lo, hi)
                }
            }
        }
    }

    /// Returns the token trees of the whole text. If a group is still open, the result is the error `UnclosedGroup` at
    /// the opening delimiter of the innermost open group.
    pub(crate) fn finish(self) -> Result<TokenStream<A>, LexError>
        ensures none_open { IfOk result (λ trees. groups_of self ≡ []) }
        ensures flat { IfOk result (λ trees. flat_trees (stream_view trees) ≡ flat_builder self) }
        ensures err { IfErr result (EndsInGroup (groups_of self)) }
    {
        let TreeBuilder {
            mut opened,
            trees,
            ..
        } = self;
        match opened.pop() {
            Some(innermost) => Err(LexError::new(LexKind::UnclosedGroup, innermost.at)),
            None => Ok(trees),
        }
    }

    /// Appends the token tree `tree` to the innermost open group, or to the text if no group is open. An allocation
    /// failure is reported at the byte offset `at`.
    #[inline(always)]
    fn append(&mut self, tree: TokenTree<A>, at: usize) -> Result<(), LexError>
        ensures ok { OnOk result (TakesTree self.old self.new tree) }
        ensures err { IfErr result (λ e. e ≡ record { kind = LexKind.Memory; at = at }) }
    {
        if let Err(_failure) = self.trees.push(tree) {
            return Err(LexError::new(LexKind::Memory, at));
        }
        Ok(())
    }

    /// Opens a group with the delimiters `delimiter`. Its opening delimiter is at the byte offset `at`, where errors
    /// are reported.
    #[inline(never)]
    fn open_group(&mut self, delimiter: Delimiter, at: usize) -> Result<(), LexError>
        ensures ok { OnOk result (OpensGroup self.old self.new delimiter at) }
        ensures at { IfErr result (λ e. e.at ≡ at) }
        ensures kind { IfErr result (λ e. RejectsOpener (groups_of self.old) e.kind) }
    {
        if self.opened.len() >= MAX_OPEN {
            return Err(LexError::new(LexKind::TooDeep, at));
        }
        let before = mem::replace(&mut self.trees, TokenStream::new(self.alloc));
        let opened = GroupBuilder {
            delimiter,
            at,
            before,
        };
        if let Err(_failure) = self.opened.push(opened) {
            return Err(LexError::new(LexKind::Memory, at));
        }
        Ok(())
    }

    /// Closes the innermost open group, which must have the delimiters `delimiter`, and appends it to the group or text
    /// around it. The closing delimiter's byte range is from `lo` to `hi`, and errors are reported at `lo`.
    #[inline(never)]
    fn close_group(&mut self, delimiter: Delimiter, lo: usize, hi: usize) -> Result<(), LexError>
        requires { hi ≡ lo + 1 }
        ensures ok { OnOk result (ClosesGroup self.old self.new delimiter lo hi) }
        ensures at { IfErr result (λ e. e.at ≡ lo) }
        ensures kind { IfErr result (λ e. RejectsCloser (groups_of self.old) delimiter e.kind) }
    {
        let Some(open) = self.opened.pop() else {
            return Err(LexError::new(LexKind::UnmatchedClose, lo));
        };
        if open.delimiter != delimiter {
            return Err(LexError::new(LexKind::UnmatchedClose, lo));
        }
        let inside = mem::replace(&mut self.trees, open.before);
        let span = Span::new(self.file, open.at, hi);
        self.append(TokenTree::Group(Group::new(delimiter, inside, span)), lo)
    }
}

/// Returns the pair of delimiters that the opening or closing delimiter `c` belongs to.
fn delimiter_for(c: char) -> Delimiter
    ensures { result ≡ delimiter_for c }
{
    match c {
        '(' | ')' => Delimiter::Parenthesis,
        '[' | ']' => Delimiter::Bracket,
        _ => Delimiter::Brace,
    }
}
