//! The function that reads the list of attributes of a text. The function lexes the text token by token, and doesn't
//! build token trees unless there is an error.

ghost use Rattle.std.specs.Prelude.{◌≡◌, All, List, length, IfSome, IfOk, IfErr, IsTrue, IsFalse};
ghost use Rattle.std.specs.Str.{chars};
ghost use Rattle.rl_tokens.specs.Whole.{place_at};
ghost use Rattle.rust_literals.specs.Literals.{IsReadFrom};
ghost use Rattle.rl_attributes.specs.Attributes.{Attribute, AreAttributesOf, RejectsAttributeText};
ghost use Rattle.rl_attributes.specs.Entries.{attributes_of, IsReadEntry};
ghost use Rattle.rl_attributes.specs.AttributeParsing.{entries_of, attrs_end, IsListOrMemory};
ghost use Rattle.rl_attributes.specs.Names.{has_name};
ghost use Rattle.rl_attributes.specs.AttributeSteps.{AddsName};
ghost use Rattle.rl_attributes.specs.NextEntries.{value_token, IsEntryOf};

use super::name::Name;
use super::{Attrs, Entry};
use rl_cursors::{NextLiteral, NextSetting, SettingStep, first_error, next_setting};
use rl_tokens::{Error, Literal, Span, Tokens, parse_all};
use rust_literals::Lit;
use std::alloc::{AllocError, Allocator};
use std::collections::BTreeSet;

/// Returns the literal `next`, which was lexed from a text, as a parsed literal with a span in the file `file`.
fn literal_of<A: Allocator + Copy>(
    alloc: A,
    next: NextLiteral<'_>,
    file: u32,
) -> Result<Lit<A>, AllocError>
    ensures { IfOk result (IsReadFrom (value_token file next.entry)) }
{
    let token = next.token;
    let made = match next.minus_at {
        Some(lo) => Literal::negative(alloc, token.text, Span::new(file, lo, token.hi)),
        None => Literal::from_text(alloc, token.text, Span::new(file, token.lo, token.hi)),
    };
    let Ok(made) = made else {
        return Err(AllocError);
    };
    match Lit::new(alloc, made) {
        Ok(literal) => Ok(literal),
        Err(_) => Err(AllocError),
    }
}

/// Returns the setting `next`, which was lexed from a text, as an attribute with spans in the file `file`.
fn entry_of<A: Allocator + Copy>(
    alloc: A,
    next: NextSetting<'_>,
    file: u32,
) -> Result<Entry<A>, AllocError>
    ensures { IfOk result (IsEntryOf file next.entry) }
{
    let name = String::from_str(alloc, next.name.text)?;
    let value = literal_of(alloc, next.value, file)?;
    Ok(Entry {
        name,
        span: Span::new(file, next.name.lo, next.name.hi),
        value,
    })
}

/// Adds `name` to the set `names`, and returns `true`. The result is `false` if the set contains the name already, or
/// if an allocation fails.
fn add_name<'a, A: Allocator + Copy>(names: &mut BTreeSet<Name<'a>, A>, name: &'a str) -> bool
    ensures anew { IsTrue result → IsFalse (has_name names.old name.now) }
    ensures adds { IsTrue result → AddsName names.old names.new name.now }
{
    match names.insert(Name::new(name)) {
        Ok(true) => true,
        _ => false,
    }
}

/// Returns the attributes of `text`, or `None` if the text isn't a list of attributes or an allocation fails.
fn read_flat<A: Allocator + Copy>(alloc: A, text: &str, file: u32) -> Option<Attrs<A>>
    ensures attributes { IfSome result
        (λ attrs. AreAttributesOf (chars text.now) file (attributes_of (entries_of attrs))) }
    ensures end { IfSome result (λ attrs. attrs_end attrs ≡ place_at file (length text.now)) }
    ensures values { IfSome result (λ attrs. All IsReadEntry (entries_of attrs)) }
{
    let mut tokens = Tokens::new(text);
    let mut names = BTreeSet::new(alloc);
    let mut entries = Vec::new(alloc);
    while !tokens.rest().is_empty() {
        let SettingStep::Setting(next) = next_setting(&mut tokens, text.len()) else {
            return None;
        };
        if !add_name(&mut names, next.name.text) {
            return None;
        }
        let Ok(entry) = entry_of(alloc, next, file) else {
            return None;
        };
        if let Err(failed) = entries.push(entry) {
            // The attribute is dropped by a function call, because dropping it in place would double the number of
            // steps to prove.
            drop(failed);
            return None;
        }
    }
    Some(Attrs {
        entries,
        end: Span::new(file, text.len(), text.len()),
    })
}

/// Parses the attributes of `text` from its token trees, and returns them or the error. An error of the lexer is
/// reported before token trees are built.
fn read_trees<A: Allocator + Copy>(alloc: A, text: &str, file: u32) -> Result<Attrs<A>, Error<A>>
    ensures attributes { IfOk result
        (λ attrs. AreAttributesOf (chars text.now) file (attributes_of (entries_of attrs))) }
    ensures end { IfOk result (λ attrs. attrs_end attrs ≡ place_at file (length text.now)) }
    ensures values { IfOk result (λ attrs. All IsReadEntry (entries_of attrs)) }
    ensures rejected { IfErr result (RejectsAttributeText (chars text.now) file (length text.now)) }
{
    match first_error(text) {
        Some(error) => {
            let at = Span::new(file, error.at, error.at);
            Err(Error::of_lexer(error.kind, at))
        }
        None => parse_all::<Attrs<A>, A>(alloc, text, file),
    }
}

/// Parses `text` as a list of attributes `name = literal` with commas between them. Spans are `file` and byte ranges of
/// the text.
///
/// See the example of [`Attrs::get`].
///
/// # Errors
///
/// Returns the lexer's error as `Lex`, with an empty span at the error's byte offset. Returns `Memory` with an empty
/// span if an allocation fails while the text is lexed. Otherwise returns the error of the parser of [`Attrs`], which
/// runs with the empty span at the text's end as scope.
pub fn read<A: Allocator + Copy>(alloc: A, text: &str, file: u32) -> Result<Attrs<A>, Error<A>>
    // The whole text is lexed into the token trees of the returned attributes.
    ensures attributes { IfOk result
        (λ attrs. AreAttributesOf (chars text.now) file (attributes_of (entries_of attrs))) }
    // The span for missing names, `Attrs::end_span`, is the empty span at the text's end.
    ensures end { IfOk result (λ attrs. attrs_end attrs ≡ place_at file (length text.now)) }
    // Each attribute's value is parsed from the text of its literal.
    ensures values { IfOk result (λ attrs. All IsReadEntry (entries_of attrs)) }
    // The returned error is the text's first lexing error, the error for the first missing part or repeated name, or an
    // allocation failure.
    ensures rejected { IfErr result (RejectsAttributeText (chars text.now) file (length text.now)) }
    // If the text is a list of attributes, the result is that list, or an allocation failed.
    ensures exactly { (list : List Attribute) → AreAttributesOf (chars text.now) file list
        → IsListOrMemory list result }
{
    match read_flat(alloc, text, file) {
        Some(attrs) => Ok(attrs),
        None => read_trees(alloc, text, file),
    }
}
