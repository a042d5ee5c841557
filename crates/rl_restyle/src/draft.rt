//! The new text of a source while it is being written.

ghost use Rattle.std.specs.Prelude.{◌≡◌, ◌++◌, ℕ, List, string_bytes, OnOk};
ghost use Rattle.std.specs.Str.{chars};
ghost use Rattle.rl_style.specs.Restylable.{GivesLiteral, RestylableState};
ghost use Rattle.rl_restyle.specs.Places.{IsTextBetween};
ghost use Rattle.rl_restyle.specs.Mirrors.{IsDraft, IsNextIn};

use crate::clean::clean_after;
use crate::edit::Choice;
use crate::slices::between;
use crate::texts::text_of;
use rl_style::{Restylable, Style};
use std::alloc::{AllocError, Allocator};

/// A partly rewritten source: the new text up to a literal, the byte offset `at` after that literal in the old text, and whether the
/// literals so far have no errors.
#[derive(Drop)]
pub(crate) struct Draft<A: Allocator> {
    pub(crate) text: String<A>,
    pub(crate) at: usize,
    pub(crate) is_clean: bool,
}

/// Appends to the draft the old text before a literal, and then the literal's new text `new`.
fn put<A: Allocator>(
    draft: &mut Draft<A>,
    source: &str,
    literal: Restylable<'_>,
    new: &str,
) -> Result<(), AllocError>
    requires { (middle : List ℕ) × IsTextBetween (chars source.now) draft.old.at literal.token.lo middle }
    ensures text { OnOk result ((middle : List ℕ)
        → IsTextBetween (chars source.now) draft.old.at literal.entry.token.lo middle
        → chars (string_bytes draft.new.text)
        ≡ chars (string_bytes draft.old.text) ++ (middle ++ chars new.now)) }
    ensures at { OnOk result (draft.new.at ≡ literal.entry.token.hi) }
    ensures clean { OnOk result (draft.new.is_clean ≡ draft.old.is_clean) }
{
    draft
        .text
        .push_str(between(source, draft.at, literal.token.lo))?;
    draft.text.push_str(new)?;
    draft.at = literal.token.hi;
    Ok(())
}

/// Rewrites `literal`, the next literal of the source, if the style changes it. Tests whether it has an error.
pub(crate) fn put_literal<A: Allocator + Copy>(
    alloc: A,
    style: Style,
    choice: Choice<'_>,
    source: &str,
    literal: Restylable<'_>,
    draft: &mut Draft<A>,
) -> Result<(), AllocError>
    requires { IsNextIn style choice (chars source.now) literal draft.old.at
        (chars (string_bytes draft.old.text)) draft.old.is_clean }
    ensures { OnOk result ((old new : RestylableState)
        → IsDraft style choice.entry (chars source.now) old draft.old.at
        (chars (string_bytes draft.old.text)) draft.old.is_clean
        → GivesLiteral old literal.entry new
        → IsDraft style choice.entry (chars source.now) new draft.new.at
        (chars (string_bytes draft.new.text)) draft.new.is_clean) }
{
    draft.is_clean = clean_after(draft.is_clean, source, literal);
    let new = text_of(alloc, style, choice, source, literal)?;
    match new {
        Some(new) => put(draft, source, literal, new.as_str()),
        None => Ok(()),
    }
}
