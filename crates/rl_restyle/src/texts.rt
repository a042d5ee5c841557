//! Creates the new text of a literal in a style.

ghost use Rattle.std.specs.Prelude.{◌≡◌, ◌≢◌, ◌≤◌, ◌+◌, ◌*◌, ℕ, List, length, string_bytes, IfNone, IfOk, IfSome, MatchBool};
ghost use Rattle.std.specs.Str.{chars};
ghost use Rattle.rl_syntax.specs.Reading.{IsReadAs};
ghost use Rattle.rl_style.specs.Rewriting.{room_for};
ghost use Rattle.rl_restyle.specs.Places.{IsTextBetween};
ghost use Rattle.rl_restyle.specs.Edits.{IsChosenLiteral, IsOfKinds, IsRewritten, IsTextOf, is_rewritable as rewritable, text_in};

use crate::edit::{Choice, Macros};
use crate::slices::between;
use rl_lenient::parse_literal;
use rl_style::{Restylable, Style, growth, rewrite_within};
use rl_syntax::Kind;
use std::alloc::{AllocError, Allocator};

/// The size in bytes of the buffer for the new text of a short literal.
pub(crate) const SHORT: usize = 256;

/// Returns the size in bytes of the buffer that [`rewrite_within`] needs for a literal with the text `text`.
#[tactic(auto, unfolding(rl_style::specs::Rewriting::room_for))]
pub(crate) fn buffer_len(style: Style, text: &str) -> Result<usize, AllocError>
    ensures { IfOk result (λ n. n ≡ room_for style text.now) }
{
    let Some(most) = text.len().checked_mul(growth(style, text)) else {
        return Err(AllocError);
    };
    match most.checked_add(1) {
        Some(room) => Ok(room),
        None => Err(AllocError),
    }
}

/// Returns a copy of `new` if it differs from `old`, and `None` otherwise.
fn other_text<A: Allocator>(alloc: A, old: &str, new: &str) -> Result<Option<String<A>>, AllocError>
    ensures same { IfOk result (λ made. IfNone made (chars new.now ≡ chars old.now)) }
    ensures other { IfOk result (λ made. IfSome made (λ s. chars (string_bytes s) ≡ chars new.now)) }
    ensures differs { IfOk result (λ made. IfSome made (λ s. chars new.now ≢ chars old.now)) }
{
    if new == old {
        return Ok(None);
    }
    let mut made = String::new(alloc);
    made.push_str(new)?;
    Ok(Some(made))
}

/// Returns the rewritten text of the literal `text` if it differs, and `None` otherwise. `front` is the text before the
/// literal, and `out` a buffer.
fn new_text_in<A: Allocator>(
    alloc: A,
    style: Style,
    front: &str,
    text: &str,
    out: &mut [u8],
) -> Result<Option<String<A>>, AllocError>
    requires { room_for style text.now ≤ length out.old }
    ensures { IfOk result (λ new. IsRewritten style (chars front.now) (chars text.now) (text_in new)) }
{
    let Ok(len) = rewrite_within(front, text, style, out) else {
        return Ok(None);
    };
    match std::str::from_utf8(&out[..len]) {
        Ok(new) => other_text(alloc, text, new),
        Err(_) => unreachable!(),
    }
}

/// Returns the rewritten text of the literal `text` if it differs, and `None` otherwise. `front` is the text before the
/// literal, and `bytes` a buffer. The result has the memory of the buffer.
fn long_text<A: Allocator>(
    style: Style,
    front: &str,
    text: &str,
    mut bytes: Vec<u8, A>,
) -> Option<String<A>>
    requires { room_for style text.now ≤ length bytes.items }
    ensures { IsRewritten style (chars front.now) (chars text.now) (text_in result) }
{
    let Ok(len) = rewrite_within(front, text, style, bytes.as_mut_slice()) else {
        return None;
    };
    bytes.truncate(len);
    // SAFETY: it is proved that the bytes are UTF-8.
    let new = unsafe { String::from_utf8_unchecked(bytes) };
    if new.as_str() == text {
        None
    } else {
        Some(new)
    }
}

/// Returns the rewritten text of the literal `text` if it differs, and `None` otherwise. `front` is the text before the
/// literal. Only the buffer of a long literal is allocated.
pub(crate) fn new_text<A: Allocator + Copy>(
    alloc: A,
    style: Style,
    front: &str,
    text: &str,
) -> Result<Option<String<A>>, AllocError>
    ensures { IfOk result (λ new. IsRewritten style (chars front.now) (chars text.now) (text_in new)) }
{
    let room = buffer_len(style, text)?;
    if room <= SHORT {
        return new_text_in(alloc, style, front, text, &mut [0; SHORT]);
    }
    Ok(long_text(style, front, text, vec![in alloc; 0; room]?))
}

/// Whether the position of `literal` allows rewriting: `literal` can't be a field, and isn't in a macro call that `macros`
/// excludes.
fn is_rewritable(macros: Macros, literal: Restylable<'_>) -> bool
    ensures { result ≡ rewritable macros literal.entry.is_field literal.entry.in_macro }
{
    match macros {
        Macros::Skip => !literal.is_field && !literal.in_macro,
        Macros::All => !literal.is_field,
    }
}

/// Returns the kind of the literal `text` by `syn`'s grammar, or `None` if this grammar doesn't accept `text`.
fn kind_of(text: &str) -> Option<Kind>
    ensures { IsReadAs result (chars text.now) }
{
    match parse_literal(text) {
        Some(found) => Some(found.kind),
        None => None,
    }
}

/// Whether the literal `text` is of one of the kinds. If `kinds` is `None`, the result is `true`.
fn is_of_kinds(kinds: Option<&[Option<Kind>]>, text: &str) -> bool
    ensures { MatchBool result (IsOfKinds kinds.entry (chars text.now)) (IsOfKinds kinds.entry (chars text.now) → ⊥) }
{
    match kinds {
        Some(kinds) => kinds.contains(&kind_of(text)),
        None => true,
    }
}

/// Whether `choice` selects the literal, by its position and its kind.
fn is_chosen(choice: Choice<'_>, literal: Restylable<'_>) -> bool
    ensures { MatchBool result (IsChosenLiteral choice.entry literal.entry)
        (IsChosenLiteral choice.entry literal.entry → ⊥) }
{
    is_rewritable(choice.macros, literal) && is_of_kinds(choice.kinds, literal.token.text)
}

/// Returns the new text of a literal of the source, or `None` if the literal is unchanged.
pub(crate) fn text_of<A: Allocator + Copy>(
    alloc: A,
    style: Style,
    choice: Choice<'_>,
    source: &str,
    literal: Restylable<'_>,
) -> Result<Option<String<A>>, AllocError>
    requires { (front : List ℕ) × IsTextBetween (chars source.now) 0 literal.token.lo front }
    ensures { IfOk result (λ new. IsTextOf style choice.entry (chars source.now) literal.entry (text_in new)) }
{
    if !is_chosen(choice, literal) {
        return Ok(None);
    }
    new_text(
        alloc,
        style,
        between(source, 0, literal.token.lo),
        literal.token.text,
    )
}
