//! Tests of calls that borrow a literal or a token.

use crate::Page;
use crate::memory::format_results::{FormatResult, format_result};
use crate::memory::inside;
use crate::memory::rows::Row;
use crate::memory::trial::{Scarce, Trial, format_borrowed, formatted};
use crate::noted::{HERE, noted};
use rl_quoted::{Quoted, QuotedKind};
use rl_tokens::{Parse, ParseBuffer, ToTokens, Token, TokenStream};
use rust_literals::{Lit, LitBool, Number, NumberKind};

/// A literal that the called functions borrow.
pub(crate) trait Held<A: Scarce>: Parse<A> + Token + FormatResult {
    /// Parses the text as a value of the type that implements the trait. Returns `None`, which `page` records, if an allocation
    /// fails or the text is invalid.
    fn of_text(trial: &Trial<A>, text: &str, page: &mut Page) -> Option<Self>;

    /// Calls the function with the name, and appends its result.
    fn call(&self, name: &str, trial: &Trial<A>, page: &mut Page);
}

/// Parses the text of a row, calls the row's function on the value, and appends its result. Then appends whether the value is
/// unchanged.
pub(crate) fn run_held<T: Held<A> + Drop, A: Scarce>(
    row: &Row<'_>,
    trial: &Trial<A>,
    page: &mut Page,
) {
    if let Some(value) = T::of_text(trial, row.text, page) {
        let before = formatted(&value, page);
        value.call(row.call, trial, page);
        format_borrowed(&value, &before, page)
    }
}

/// Parses token trees as a value, with `HERE` as the span of each.
fn first_of<T: Parse<A> + Drop, A: Scarce>(
    trees: TokenStream<A>,
    scant: A,
    page: &mut Page,
) -> Option<T> {
    let mut stream = trees;
    stream.respan(HERE);
    let mut input = ParseBuffer::new(stream.trees(), HERE);
    let parsed = noted(input.parse::<T>(scant), page);
    drop(stream);
    parsed
}

impl<K: QuotedKind, A: Scarce> Held<A> for Quoted<K, A> {
    fn of_text(trial: &Trial<A>, text: &str, page: &mut Page) -> Option<Quoted<K, A>> {
        let stream = trial.trees(text, page)?;
        first_of(stream, trial.scant, page)
    }

    fn call(&self, name: &str, trial: &Trial<A>, page: &mut Page) {
        match name {
            "clone" => format_result(self.clone(trial.begins()), page),
            "token" => format_result(self.token(trial.begins()), page),
            _ => appended(self, name, trial, page),
        }
    }
}

impl<K: NumberKind, A: Scarce> Held<A> for Number<K, A> {
    fn of_text(trial: &Trial<A>, text: &str, page: &mut Page) -> Option<Number<K, A>> {
        let token = trial.token(text, page)?;
        noted(Number::from_token(trial.scant, token), page)
    }

    fn call(&self, name: &str, trial: &Trial<A>, page: &mut Page) {
        match name {
            "clone" => format_result(self.clone(trial.begins()), page),
            "token" => format_result(self.token(trial.begins()), page),
            "base10_parse" => format_result(self.base10_parse::<i8, A>(trial.begins()), page),
            _ => appended(self, name, trial, page),
        }
    }
}

/// Returns the `bool` literal `true` if the text is `true`, else `false`.
impl<A: Scarce> Held<A> for LitBool {
    fn of_text(_trial: &Trial<A>, text: &str, _page: &mut Page) -> Option<LitBool> {
        Some(LitBool::new(text == "true", HERE))
    }

    fn call(&self, name: &str, trial: &Trial<A>, page: &mut Page) {
        match name {
            "clone" => format_result(self.clone(trial.begins()), page),
            "token" => format_result(self.token(trial.begins()), page),
            _ => appended(self, name, trial, page),
        }
    }
}

impl<A: Scarce> Held<A> for Lit<A> {
    fn of_text(trial: &Trial<A>, text: &str, page: &mut Page) -> Option<Lit<A>> {
        let token = trial.token(text, page)?;
        noted(Lit::new(trial.scant, token), page)
    }

    fn call(&self, name: &str, trial: &Trial<A>, page: &mut Page) {
        match name {
            "clone" => format_result(self.clone(trial.begins()), page),
            "to_tokens" => appended(self, name, trial, page),
            _ => inside::call(self, name, trial.begins(), page),
        }
    }
}

/// A text with as many token trees as a stream stores before it must grow.
const FULL: &str = "(1) a 2 +";

/// Calls `to_tokens`, and appends the result. Then appends whether the stream of token trees is unchanged. If the name is
/// `to_tokens`, the stream has no space for another token tree, else it is empty.
fn appended<T: ToTokens, A: Scarce>(literal: &T, name: &str, trial: &Trial<A>, page: &mut Page) {
    let trees = if name == "to_tokens" { FULL } else { "" };
    if let Some(mut stream) = trial.trees(trees, page) {
        let before = formatted(&stream, page);
        format_result(literal.to_tokens(trial.begins(), &mut stream), page);
        format_borrowed(&stream, &before, page);
        drop(stream)
    }
}
