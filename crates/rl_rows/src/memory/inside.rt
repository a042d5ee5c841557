//! Tests of `value` and `parse` of strings, byte strings and C strings.

use crate::Page;
use crate::memory::format_results::{format_result, format_trees};
use crate::memory::trial::Scarce;
use rl_attributes::Attrs;
use rl_tokens::{Error, Literal, ParseBuffer, Parser};
use rust_literals::{Lit, LitInt, LitStr};
use std::alloc::Allocator;

/// A parser that returns a copy of the next literal token. If an allocation fails, the error has the token's span, and the parser
/// has consumed the token.
#[derive(Drop)]
struct CopyOfToken;

impl<A: Allocator> Parser<A> for CopyOfToken {
    ghost use Rattle.std.specs.Prelude.{⊤};

    type Output = Literal<A>;

    ghost runs = { λ parser trees scope answer rest. ⊤ };

    fn parse(self, scant: A, input: &mut ParseBuffer<'_, A>) -> Result<Literal<A>, Error<A>> {
        match input.literal() {
            Some(token) => token.clone(scant),
            None => Err(input.error("token")),
        }
    }
}

/// A parser of one group that prints the group.
#[derive(Drop)]
struct GroupTold {
    page: Page,
}

impl<A: Allocator> Parser<A> for GroupTold {
    ghost use Rattle.std.specs.Prelude.{⊤};

    type Output = String;

    ghost runs = { λ parser trees scope answer rest. ⊤ };

    fn parse(self, _scant: A, input: &mut ParseBuffer<'_, A>) -> Result<String, Error<A>> {
        let trees = input.rest();
        let mut page = self.page;
        match input.group() {
            Some(_) => {
                format_trees(trees, &mut page);
                Ok(page.text)
            }
            None => Err(input.error("group")),
        }
    }
}

/// Calls the function with the name on a string, byte string or C string, and appends its result.
pub(crate) fn call<A: Scarce>(literal: &Lit<A>, name: &str, scant: A, page: &mut Page) {
    match literal {
        Lit::Str(string) => in_string(string, name, scant, page),
        Lit::ByteStr(string) => format_result(string.value(scant), page),
        Lit::CStr(string) => format_result(string.value(scant), page),
        _ => page.is_short = true,
    }
}

/// Calls the function with the name on a string, and appends its result.
fn in_string<A: Scarce>(string: &LitStr<A>, name: &str, scant: A, page: &mut Page) {
    match name {
        "value" => format_result(string.value(scant), page),
        "parse_group" => group_of(string, scant, page),
        "parse_with" => format_result(string.parse_with(scant, CopyOfToken), page),
        "parse_in_file" => format_result(string.parse_in_file(scant, CopyOfToken), page),
        _ => parse_as(string, name, scant, page),
    }
}

/// Calls `parse` on a string, with the type that the name selects, and appends its result.
fn parse_as<A: Scarce>(string: &LitStr<A>, name: &str, scant: A, page: &mut Page) {
    match name {
        "parse_int" => format_result(string.parse::<LitInt<A>, _>(scant), page),
        "parse_attrs" => format_result(string.parse::<Attrs<A>, _>(scant), page),
        _ => format_result(string.parse::<Lit<A>, _>(scant), page),
    }
}

/// Calls `parse_with` on a string, with a parser of one group, and appends its result.
fn group_of<A: Scarce>(string: &LitStr<A>, scant: A, page: &mut Page) {
    let parser = GroupTold {
        page: Page::new(page.alloc),
    };
    format_result(string.parse_with(scant, parser), page)
}
