//! A list of strings as a text: one string literal on each line is written, and any list of string literals is read.

ghost use Rattle.std.specs.Prelude.{◌≡◌, ℕ, List, [], IfOk, IfErr, string_bytes};
ghost use Rattle.std.specs.Str.{chars};
ghost use Rattle.rl_syntax.specs.declared.kind.Kind.TheVariants.{Str};
ghost use Rattle.rl_syntax.specs.Reading.{Characters};
ghost use Rattle.rl_tokens.specs.WrittenLists.{characters_of};
ghost use Rattle.rust_literals.specs.Literals.{IsLitOf};
ghost use Rattle.rust_literals.specs.ReadBack.{AreStrings};
ghost use Rattle.rl_uses.specs.Strings.{AreValuesOrMemory, IsListOf, IsMemory, RejectsListText, RejectsLiteral, RejectsLiterals};

use rl_tokens::{Error, Span, write_str_list};
use rust_literals::{Lit, read_all};
use std::alloc::{Allocator, Global};

/// The reason why a text isn't a list of strings.
#[derive(Drop)]
pub enum ListError<A: Allocator = Global> {
    /// The text isn't a list of literals, or an allocation failed.
    Text(Error<A>),
    /// The literal at this span isn't a string without a suffix.
    NoString(Span),
}

/// Returns the decoded value of a string literal without a suffix.
fn string_of<A: Allocator + Copy>(alloc: A, literal: &Lit<A>) -> Result<String<A>, ListError<A>>
    ensures set { IfOk result (λ v. IsLitOf Str (Characters (chars (string_bytes v))) [] literal.now) }
    ensures rejected { IfErr result (RejectsLiteral literal.now) }
{
    match literal {
        Lit::Str(string) => {
            if string.has_suffix() {
                return Err(ListError::NoString(string.span()));
            }
            match string.value(alloc) {
                Ok(value) => Ok(value),
                Err(error) => Err(ListError::Text(error)),
            }
        }
        _ => Err(ListError::NoString(literal.span())),
    }
}

/// Returns the decoded values of literals, each of which must be a string without a suffix.
fn strings_of<A: Allocator + Copy>(
    alloc: A,
    literals: &[Lit<A>],
) -> Result<Vec<String<A>, A>, ListError<A>>
    ensures set { IfOk result (λ values. AreStrings literals.now (characters_of values.items)) }
    ensures rejected { IfErr result (RejectsLiterals literals.now) }
{
    let mut values = Vec::new(alloc);
    for literal in literals {
        let value = match string_of(alloc, literal) {
            Ok(value) => value,
            Err(error) => return Err(error),
        };
        if values.push(value).is_err() {
            return Err(ListError::Text(Error::out_of_memory(literal.span())));
        }
    }
    Ok(values)
}

/// Returns the strings of the text `text`, which must be a list of string literals without suffixes.
///
/// # Errors
///
/// Returns `Text` with the error of [`read_all`], and `NoString` at the first literal that isn't a string without a suffix.
pub fn read_list<A: Allocator + Copy>(
    alloc: A,
    text: &str,
    file: u32,
) -> Result<Vec<String<A>, A>, ListError<A>>
    // The text is a list of string literals without suffixes, and the result has their values.
    ensures set { IfOk result (λ values. IsListOf A text.now file (characters_of values.items)) }
    // If the text is such a list, the result has its values, or an allocation failed.
    ensures exactly { (values : List (List ℕ)) → IsListOf A text.now file values → AreValuesOrMemory values result }
    ensures rejected { IfErr result (RejectsListText text.now file) }
{
    match read_all(alloc, text, file) {
        Ok(literals) => strings_of(alloc, literals.as_slice()),
        Err(error) => Err(ListError::Text(error)),
    }
}

/// Writes the strings `values` as a list, and reads them from it.
///
/// # Errors
///
/// Returns an error only if an allocation fails.
pub fn round_trip<A: Allocator + Copy>(
    alloc: A,
    values: &[String<A>],
) -> Result<Vec<String<A>, A>, ListError<A>>
    ensures same { IfOk result (λ copies. characters_of copies.items ≡ characters_of values.now) }
    ensures memory { IfErr result IsMemory }
{
    match write_str_list(alloc, values) {
        Ok(text) => read_list(alloc, text.as_str(), 0),
        Err(_) => Err(ListError::Text(Error::out_of_memory(Span::call_site()))),
    }
}
