//! Rewrites all literals of a source by a style.

ghost use Rattle.std.specs.Prelude.{◌≡◌, ◌↔◌, ◌++◌, ◌&&◌, not, List, ℕ, length, string_bytes, IfErr, IfOk, IsTrue};
ghost use Rattle.std.specs.Str.{chars};
ghost use Rattle.rl_restyle.specs.Clean.{HasCleanTokens};
ghost use Rattle.rl_restyle.specs.Edits.{IsRestyleError, Restyles};
ghost use Rattle.rl_restyle.specs.Places.{IsTextBetween};
ghost use Rattle.rl_restyle.specs.declared.edit.RestyleError.TheVariants.{Memory};

use crate::draft::{Draft, put_literal};
use crate::edit::{Choice, RestyleError, Restyled};
use crate::slices::between;
use rl_style::{Restylables, Style, is_safe_to_restyle};
use std::alloc::{AllocError, Allocator};

/// Returns the complete new text: the draft, with the rest of the source appended. `has_stray` tells whether the source has a stray
/// character.
fn finished<A: Allocator>(
    source: &str,
    draft: Draft<A>,
    has_stray: bool,
) -> Result<Restyled<A>, RestyleError>
    requires { (rest : List ℕ) × IsTextBetween (chars source.now) draft.at (length source.now) rest }
    ensures text { IfOk result (λ r. (rest : List ℕ)
        → IsTextBetween (chars source.now) draft.at (length source.now) rest
        → chars (string_bytes r.text) ≡ chars (string_bytes draft.text) ++ rest) }
    ensures clean { IfOk result (λ r. r.is_clean ≡ (draft.is_clean && not has_stray)) }
    ensures error { IfErr result (λ e. e ≡ Memory) }
{
    let mut text = draft.text;
    match text.push_str(between(source, draft.at, source.len())) {
        Ok(()) => Ok(Restyled {
            text,
            is_clean: draft.is_clean && !has_stray,
        }),
        Err(_) => Err(RestyleError::Memory),
    }
}

/// Rewrites the literals of a source by a style, and returns the new text.
///
/// Some literals aren't rewritten: invalid literal tokens, numbers that may be fields of a tuple (`t.0`, `S { 0: x }`), and the
/// literals that `choice` excludes. The tokens of the new text are those of `text`, but each rewritten literal has its new text.
///
/// # Errors
///
/// Returns `Script` if the source begins as an interpreter's line does, `Source` if a quote or a comment isn't closed, and
/// `Memory` if an allocation fails. In these cases no text is returned.
pub fn rewrite_source<A: Allocator + Copy>(
    alloc: A,
    style: Style,
    choice: Choice<'_>,
    text: &str,
) -> Result<Restyled<A>, RestyleError>
    ensures restyled { IfOk result (λ r. Restyles style choice.entry (chars text.now) (chars (string_bytes r.text))) }
    ensures clean { IfOk result (λ r. IsTrue r.is_clean ↔ HasCleanTokens (chars text.now)) }
    ensures error { IfErr result (IsRestyleError (chars text.now)) }
{
    if !is_safe_to_restyle(text) {
        return Err(RestyleError::Script);
    }
    let Ok(new) = String::with_capacity(alloc, text.len()) else {
        return Err(RestyleError::Memory);
    };
    let mut literals = Restylables::new(text);
    let mut draft = Draft {
        text: new,
        at: 0,
        is_clean: true,
    };
    while let Some(literal) = literals.next() {
        match put_literal(alloc, style, choice, text, literal, &mut draft) {
            Ok(()) => {}
            Err(_) => return Err(RestyleError::Memory),
        }
    }
    match literals.error() {
        Some(error) => Err(RestyleError::Source(error)),
        None => finished(text, draft, literals.has_stray()),
    }
}
