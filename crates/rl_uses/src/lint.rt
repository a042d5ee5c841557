//! A linter that finds string literals whose decoded value contains a control character.

ghost use Rattle.std.specs.Prelude.{◌≡◌, List, IfOk, IfErr};
ghost use Rattle.std.specs.Char.{is_control};
ghost use Rattle.std.specs.List.{list_any};
ghost use Rattle.std.specs.Str.{chars};
ghost use Rattle.rl_tokens.specs.Errors.{memory_at};
ghost use Rattle.rust_literals.specs.declared.lit.Lit.{Lit};
ghost use Rattle.rust_literals.specs.Parsing.{AreRead};
ghost use Rattle.rust_literals.specs.LitParts.{lit_span};
ghost use Rattle.rl_uses.specs.Shortage.{IsShortOf, RejectsTextOrMemory};
ghost use Rattle.rl_uses.specs.Lints.{ReportsControl, ReportsLintError, AreErrors};

use rl_tokens::{Error, Span};
use rust_literals::{Lit, LitStr, read_all};
use std::alloc::Allocator;

/// Whether `text` contains a control character.
fn holds_control(text: &str) -> bool
    ensures { result ≡ list_any is_control (chars text.now) }
{
    text.chars().any(|c| c.is_control())
}

/// Whether the decoded value of the string literal `string` contains a control character.
fn contains_control<A: Allocator + Copy>(alloc: A, string: &LitStr<A>) -> Result<bool, Error<A>>
    ensures tells { IfOk result (ReportsControl string.now) }
    ensures memory { IfErr result (λ e. e ≡ memory_at string.now.span) }
{
    if let Some(value) = string.value_ref() {
        return Ok(holds_control(value));
    }
    let value = string.value(alloc)?;
    Ok(holds_control(value.as_str()))
}

/// Whether `literal` is a string literal whose decoded value contains a control character.
fn is_bad<A: Allocator + Copy>(alloc: A, literal: &Lit<A>) -> Result<bool, Error<A>>
    ensures tells { IfOk result (ReportsLintError literal.now) }
    ensures memory { IfErr result (λ e. e ≡ memory_at (lit_span literal.now)) }
{
    match literal {
        Lit::Str(string) => contains_control(alloc, string),
        _ => Ok(false),
    }
}

/// Returns the spans of the string literals among `literals` whose decoded value contains a control character.
fn bad_spans<A: Allocator + Copy>(alloc: A, literals: &[Lit<A>]) -> Result<Vec<Span, A>, Error<A>>
    ensures found { IfOk result (λ spans. AreErrors literals.now spans.items) }
    ensures memory { IfErr result (IsShortOf literals.now) }
{
    let mut spans = Vec::new(alloc);
    for literal in literals {
        if is_bad(alloc, literal)? {
            if spans.push(literal.span()).is_err() {
                return Err(Error::out_of_memory(literal.span()));
            }
        }
    }
    Ok(spans)
}

/// Returns the spans of the string literals of `text` whose decoded value contains a control character (below U+0020,
/// or from U+007F to U+009F), in the order of the text. A span is `file` and the literal's byte range. The text may
/// contain only literals, white space and plain comments.
///
/// # Errors
///
/// Returns the error of [`read_all`] for the text. If an allocation fails afterwards, returns `Memory` at the literal
/// for which memory was needed.
pub fn strings_with_control_characters<A: Allocator + Copy>(
    alloc: A,
    text: &str,
    file: u32,
) -> Result<Vec<Span, A>, Error<A>>
    // On success the text consists of literals, and the spans are the spans of those string literals of the text whose
    // decoded value contains a control character.
    ensures found { IfOk result (λ spans. (list : List (Lit A))
        × AreRead (chars text.now) file list × AreErrors list spans.items) }
    // The returned error is the error of `read_all` for the text, or an allocation failure at one of the literals.
    ensures rejected { IfErr result (RejectsTextOrMemory text.now file) }
{
    let literals = read_all(alloc, text, file)?;
    bad_spans(alloc, literals.as_slice())
}
