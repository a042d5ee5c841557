//! The parser of an attribute `name = "value"`, which sets a name to a string.

ghost use Rattle.std.specs.Prelude.{◌≡◌, IfOk, IfErr};
ghost use Rattle.rl_tokens.specs.Buffers.{trees_in, scope_of, IsRest, StaysRest};
ghost use Rattle.rl_uses.specs.Attributes.{IsAttributeValue, RejectsValue, IsStringAttribute, RejectsAttribute, RunsAttribute};
ghost use Rattle.rl_tokens.specs.Whole.{ParsesAll, RejectsAll};

use rl_quoted::LitStr;
use rl_tokens::{Error, Ident, Parse, ParseBuffer, attempt, parse_all};
use std::alloc::{Allocator, Global};

/// An attribute `name = "value"`: its name and its string literal, as tokens.
#[derive(Drop)]
pub struct Attribute<A: Allocator = Global> {
    /// The attribute's name.
    pub name: Ident<A>,
    /// The string literal that the name is set to.
    pub value: LitStr<A>,
}

/// Consumes `=` and a string literal at the start of `input`, and returns the string literal. On an error, tokens may
/// have been consumed.
fn parse_value<A: Allocator>(
    alloc: A,
    input: &mut ParseBuffer<'_, A>,
) -> Result<LitStr<A>, Error<A>>
    ensures ok { IfOk result (λ v. IsAttributeValue (trees_in input.old) v (trees_in input.new)) }
    ensures rejected { IfErr result (RejectsValue (trees_in input.old) (scope_of input.old)) }
    ensures onward { StaysRest (trees_in input.old) (trees_in input.new) }
    ensures scope { scope_of input.new ≡ scope_of input.old }
{
    input.take_punct('=')?;
    input.parse::<LitStr<A>>(alloc)
}

/// Consumes an attribute `name = "value"` at the start of `input`. On an error, tokens may have been consumed.
fn parse_attribute<A: Allocator + Copy>(
    alloc: A,
    input: &mut ParseBuffer<'_, A>,
) -> Result<Attribute<A>, Error<A>>
    ensures ok { IfOk result
        (λ a. IsStringAttribute (trees_in input.old) a.name a.value (trees_in input.new)) }
    ensures rejected { IfErr result (RejectsAttribute (trees_in input.old) (scope_of input.old)) }
    ensures rest { IsRest (trees_in input.old) (trees_in input.new) }
    ensures scope { scope_of input.new ≡ scope_of input.old }
{
    let Some(name) = input.ident() else {
        return Err(input.error("identifier"));
    };
    let name = name.clone(alloc)?;
    let value = parse_value(alloc, input)?;
    Ok(Attribute { name, value })
}

/// Parses an attribute at the start of a buffer: an identifier, `=` and a string literal. The error's message names the
/// first of these that is missing: `identifier`, `` `=` `` or `string literal`. An allocation failure is reported at
/// the token for which memory was needed. On an error the buffer is unchanged.
impl<A: Allocator + Copy> Parse<A> for Attribute<A> {
    ghost use Rattle.rl_uses.specs.Attributes.{RunsAttribute};

    ghost runs = { RunsAttribute };

    fn parse(alloc: A, input: &mut ParseBuffer<'_, A>) -> Result<Attribute<A>, Error<A>> {
        let attribute = attempt(input, |input| parse_attribute(alloc, input))?;
        Ok(attribute)
    }
}

/// Parses the whole text `text` as one attribute `name = "value"`.
///
/// # Errors
///
/// Returns the errors of [`parse_all`] for the parser of [`Attribute`].
pub fn read_attribute<A: Allocator + Copy>(
    alloc: A,
    text: &str,
    file: u32,
) -> Result<Attribute<A>, Error<A>>
    ensures read { IfOk result (ParsesAll RunsAttribute text.now file) }
    ensures rejected { IfErr result (RejectsAll RunsAttribute text.now file) }
{
    parse_all::<Attribute<A>, A>(alloc, text, file)
}
