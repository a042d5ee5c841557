//! Formats the results of calls, and the state of borrowed values.

use crate::Page;
use crate::noted::put_places;
use rl_attributes::Attrs;
use rl_program::ProgramError;
use rl_quoted::{Quoted, QuotedKind};
use rl_tokens::{CString, Error, Ident, Kept, LexError, Literal, Span, TokenStream, TokenTree};
use rust_literals::{Lit, LitBool, Number, NumberKind};
use std::alloc::Allocator;

/// A result that can be printed, with its spans.
pub(crate) trait FormatResult {
    /// Appends the printed form of the result.
    fn append_result(&self, page: &mut Page);
}

/// Appends the printed form of a call's value or error.
pub(crate) fn format_result<T: FormatResult + Drop, E: FormatResult + Drop>(
    answer: Result<T, E>,
    page: &mut Page,
) {
    match answer {
        Ok(value) => value.append_result(page),
        Err(error) => error.append_result(page),
    }
}

/// Appends a span: its file and its range.
fn format_span(span: Span, page: &mut Page) {
    page.put(" ");
    page.put_display(&span.file, "");
    put_places(":", span, page)
}

/// Appends a token's text in backticks, and its span.
fn format_token(text: &str, span: Span, page: &mut Page) {
    page.put("`");
    page.put_with_ending(text, "`");
    format_span(span, page)
}

impl FormatResult for () {
    fn append_result(&self, page: &mut Page) {
        page.put("done")
    }
}

impl FormatResult for i8 {
    fn append_result(&self, page: &mut Page) {
        page.put_display(self, "")
    }
}

impl<A: Allocator> FormatResult for String<A> {
    fn append_result(&self, page: &mut Page) {
        page.put(self.as_str())
    }
}

impl<A: Allocator> FormatResult for Vec<u8, A> {
    fn append_result(&self, page: &mut Page) {
        page.put_debug(&self.as_slice(), "")
    }
}

impl<A: Allocator> FormatResult for CString<A> {
    fn append_result(&self, page: &mut Page) {
        page.put_debug(&self.as_bytes(), "")
    }
}

impl<A: Allocator> FormatResult for Literal<A> {
    fn append_result(&self, page: &mut Page) {
        format_token(self.text(), self.span(), page)
    }
}

impl<A: Allocator> FormatResult for Ident<A> {
    fn append_result(&self, page: &mut Page) {
        format_token(self.text(), self.span(), page)
    }
}

impl<K: QuotedKind, A: Allocator> FormatResult for Quoted<K, A> {
    fn append_result(&self, page: &mut Page) {
        page.put_debug(self, "");
        format_span(self.span(), page)
    }
}

impl<K: NumberKind, A: Allocator> FormatResult for Number<K, A> {
    fn append_result(&self, page: &mut Page) {
        page.put_debug(self, "");
        format_span(self.span(), page)
    }
}

impl FormatResult for LitBool {
    fn append_result(&self, page: &mut Page) {
        page.put_debug(self, "");
        format_span(self.span(), page)
    }
}

impl<A: Allocator> FormatResult for Lit<A> {
    fn append_result(&self, page: &mut Page) {
        page.put_debug(self, "");
        format_span(self.span(), page)
    }
}

impl<A: Allocator> FormatResult for Vec<Lit<A>, A> {
    fn append_result(&self, page: &mut Page) {
        for literal in self.as_slice() {
            literal.append_result(page);
            page.put(", ")
        }
    }
}

impl<A: Allocator> FormatResult for Error<A> {
    fn append_result(&self, page: &mut Page) {
        page.put_display(self, "");
        format_span(self.span, page)
    }
}

impl FormatResult for LexError {
    fn append_result(&self, page: &mut Page) {
        page.put_display(&self.kind, " ");
        page.put_number(self.at, "")
    }
}

impl<A: Allocator> FormatResult for ProgramError<A> {
    fn append_result(&self, page: &mut Page) {
        page.put_display(self, "")
    }
}

impl<T: FormatResult, A: Allocator> FormatResult for Kept<T, A> {
    fn append_result(&self, page: &mut Page) {
        self.error.append_result(page);
        page.put(", back ");
        self.value.append_result(page)
    }
}

/// Appends the token trees, each after a space. The token trees in a group follow it.
pub(crate) fn format_trees<A: Allocator>(trees: &[TokenTree<A>], page: &mut Page) {
    for tree in trees {
        page.put(" ");
        format_tree(tree, page);
        if let TokenTree::Group(group) = tree {
            page.put(" of");
            format_trees(group.stream().trees(), page);
            page.put(" end")
        }
    }
}

/// Appends a token tree. A group is only its delimiter and its span.
fn format_tree<A: Allocator>(tree: &TokenTree<A>, page: &mut Page) {
    match tree {
        TokenTree::Group(group) => {
            page.put_debug(&group.delimiter(), "");
            format_span(group.span(), page)
        }
        TokenTree::Ident(ident) => {
            page.put("ident ");
            format_token(ident.text(), ident.span(), page)
        }
        TokenTree::Punct(punct) => {
            page.put_display(&punct.as_char(), "");
            format_span(punct.span(), page)
        }
        TokenTree::Literal(literal) => format_token(literal.text(), literal.span(), page),
    }
}

impl<A: Allocator> FormatResult for TokenTree<A> {
    fn append_result(&self, page: &mut Page) {
        format_tree(self, page)
    }
}

impl<A: Allocator> FormatResult for Attrs<A> {
    fn append_result(&self, page: &mut Page) {
        page.put_number(self.entries().len(), "")
    }
}

impl<A: Allocator> FormatResult for TokenStream<A> {
    fn append_result(&self, page: &mut Page) {
        format_trees(self.trees(), page)
    }
}

impl<A: Allocator> FormatResult for &[TokenTree<A>] {
    fn append_result(&self, page: &mut Page) {
        format_trees(self, page)
    }
}
