//! The parser of a list of integers and strings in square brackets.

ghost use Rattle.std.specs.Prelude.{◌≡◌, ◌∷◌, [], ◌<◌, length, OnOk, OnErr, IfOk, IfErr, codes};
ghost use Rattle.rl_tokens.specs.declared.token.Delimiter.TheVariants.{Bracket};
ghost use Rattle.rl_tokens.specs.Trees.{GroupTree, inside_of, stream_of, stream_view, group_span};
ghost use Rattle.rl_tokens.specs.Buffers.{trees_in, scope_of, IsRest, IsRejection};
ghost use Rattle.rl_uses.specs.Lists.{IsListed, RejectsListed, Lists, RejectsItems, HasNoList, IsItemList, RejectsList};

use rl_quoted::LitStr;
use rl_tokens::{Delimiter, Error, Group, Parse, ParseBuffer, attempt};
use rust_literals::LitInt;
use std::alloc::{Allocator, Global};

/// An item of a list: an integer or a string literal.
#[derive(Drop)]
pub enum Item<A: Allocator = Global> {
    /// An integer literal.
    Int(LitInt<A>),
    /// A string literal.
    Str(LitStr<A>),
}

/// Parses the integer or string literal at the start of a buffer. If another token is next, the error's message is
/// `expected integer literal or string literal`. On an error the buffer is unchanged.
impl<A: Allocator + Copy> Parse<A> for Item<A> {
    ghost use Rattle.rl_uses.specs.Lists.{RunsItem};

    ghost runs = { RunsItem };

    fn parse(alloc: A, input: &mut ParseBuffer<'_, A>) -> Result<Item<A>, Error<A>> {
        if input.peek::<LitInt<A>>() {
            let literal = input.parse::<LitInt<A>>(alloc)?;
            return Ok(Item::Int(literal));
        }
        if input.peek::<LitStr<A>>() {
            let literal = input.parse::<LitStr<A>>(alloc)?;
            return Ok(Item::Str(literal));
        }
        Err(input.error("integer literal or string literal"))
    }
}

/// A list of integers and strings in square brackets: `[1, "two", -3]`. A comma may follow the last item.
#[derive(Drop)]
pub struct ItemList<A: Allocator = Global> {
    /// The list's items, in the order of the text.
    pub items: Vec<Item<A>, A>,
}

/// Consumes an item at the start of `input`, and the comma after it. The comma may be missing at the end of the token
/// trees.
fn parse_listed<A: Allocator + Copy>(
    alloc: A,
    input: &mut ParseBuffer<'_, A>,
) -> Result<Item<A>, Error<A>>
    ensures ok { IfOk result (λ x. IsListed (trees_in input.old) x (trees_in input.new)) }
    ensures rejected { IfErr result (RejectsListed (trees_in input.old) (scope_of input.old)) }
    ensures shorter { OnOk result (length (trees_in input.new) < length (trees_in input.old)) }
    ensures scope { scope_of input.new ≡ scope_of input.old }
{
    let item = input.parse::<Item<A>>(alloc)?;
    if input.is_empty() {
        return Ok(item);
    }
    input.take_punct(',')?;
    Ok(item)
}

/// Consumes all token trees of `input` as items with commas between them.
fn parse_items<A: Allocator + Copy>(
    alloc: A,
    input: &mut ParseBuffer<'_, A>,
) -> Result<Vec<Item<A>, A>, Error<A>>
    ensures ok { IfOk result (λ items. Lists (trees_in input.old) items.items []) }
    ensures rejected { IfErr result (RejectsItems (trees_in input.old) (scope_of input.old)) }
{
    let mut items = Vec::new(alloc);
    while !input.is_empty() {
        let place = input.span();
        let item = parse_listed(alloc, input)?;
        if items.push(item).is_err() {
            return Err(Error::out_of_memory(place));
        }
    }
    Ok(items)
}

/// Consumes the group in square brackets at the start of `input`. If another token tree is next, the function returns
/// an error, and the buffer is unchanged.
fn take_brackets<'a, A: Allocator>(input: &mut ParseBuffer<'a, A>) -> Result<&'a Group<A>, Error<A>>
    ensures taken { IfOk result
        (λ g. trees_in input.old
        ≡ GroupTree Bracket (inside_of (stream_view (stream_of g.now))) (group_span g.now)
        ∷ trees_in input.new) }
    ensures none { OnErr result (HasNoList (trees_in input.old)) }
    ensures rejected { IfErr result
        (IsRejection (trees_in input.old) (scope_of input.old) (codes "square brackets")) }
    ensures left { OnErr result (trees_in input.new ≡ trees_in input.old) }
    ensures rest { IsRest (trees_in input.old) (trees_in input.new) }
    ensures scope { scope_of input.new ≡ scope_of input.old }
{
    let mut ahead = input.fork();
    match ahead.group() {
        Some(group) if group.delimiter() == Delimiter::Bracket => {
            *input = ahead;
            Ok(group)
        }
        _ => Err(input.error("square brackets")),
    }
}

/// Consumes a list in square brackets at the start of `input`. On an error, the group in square brackets may have been
/// consumed.
fn parse_list<A: Allocator + Copy>(
    alloc: A,
    input: &mut ParseBuffer<'_, A>,
) -> Result<ItemList<A>, Error<A>>
    ensures ok { IfOk result
        (λ list. IsItemList (trees_in input.old) list.items.items (trees_in input.new)) }
    ensures rejected { IfErr result (RejectsList (trees_in input.old) (scope_of input.old)) }
    ensures rest { IsRest (trees_in input.old) (trees_in input.new) }
    ensures scope { scope_of input.new ≡ scope_of input.old }
{
    let group = take_brackets(input)?;
    let items = parse_items(alloc, &mut group.inside())?;
    Ok(ItemList { items })
}

/// Parses a list at the start of a buffer: a group in square brackets with items and commas between them. The error is
/// at the first part that is missing, and its message names it: the group (`square brackets`), an item
/// (`integer literal or string literal`), or a comma after an item (`` `,` ``). On an error the buffer is unchanged.
impl<A: Allocator + Copy> Parse<A> for ItemList<A> {
    ghost use Rattle.rl_uses.specs.Lists.{RunsList};

    ghost runs = { RunsList };

    fn parse(alloc: A, input: &mut ParseBuffer<'_, A>) -> Result<ItemList<A>, Error<A>> {
        let list = attempt(input, |input| parse_list(alloc, input))?;
        Ok(list)
    }
}
