//! Functions that read the literals of a text token by token, without building token trees. A text of literals contains no
//! groups.

ghost use Rattle.std.specs.Prelude.{
  ◌≡◌,
  ◌<◌,
  [],
  ◌∷◌,
  ◌++◌,
  length,
  IsTrue,
  IsFalse,
  OnSome,
  IfSome,
  IfNone,
  IfOk,
  IfErr,
  MatchResult,
};
ghost use Rattle.std.specs.Str.{chars};
ghost use Rattle.rl_syntax.specs.Reading.{HasReading, HasNoReading};
ghost use Rattle.rust_literals.specs.Literals.{IsReadFrom};
ghost use Rattle.rust_literals.specs.Parsing.{AreRead};
ghost use Rattle.rl_cursors.specs.NextLiterals.{HasNoNextLiteral};
ghost use Rattle.rust_literals.specs.Flat.{ReadsNext, AddsNext, AreBegun};

use crate::lit::Lit;
use crate::lit_bool::LitBool;
use rl_lenient::{bool_of, parse_with_added_minus};
use rl_tokens::{Form, Literal, Span, Tokens};
use std::alloc::{AllocError, Allocator, Global};

/// Parses `text` as a literal with the span `span`. The result is `Lit::Verbatim` if the text isn't a valid literal or
/// is an integer above 128 bits.
fn literal_of<A: Allocator + Copy>(alloc: A, text: &str, span: Span) -> Result<Lit<A>, AllocError>
    ensures { IfOk result (IsReadFrom (record { text = text.now; span = span })) }
{
    let Ok(token) = Literal::from_text(alloc, text, span) else {
        return Err(AllocError);
    };
    match Lit::new(alloc, token) {
        Ok(literal) => Ok(literal),
        Err(_) => Err(AllocError),
    }
}

/// Parses a minus and `text` as one literal with the span `span`. The result is `None` if they aren't a valid literal
/// together.
fn negative_of<A: Allocator + Copy>(
    alloc: A,
    text: &str,
    span: Span,
) -> Result<Option<Lit<A>>, AllocError>
    ensures read { IfOk result
        (λ lit. IfSome lit (IsReadFrom (record { text = 45 ∷ text.now; span = span }))) }
    ensures together { IfOk result (λ lit. OnSome lit (HasReading (45 ∷ chars text.now))) }
    ensures none { IfOk result (λ lit. IfNone lit (HasNoReading (45 ∷ chars text.now))) }
{
    let Some(found) = parse_with_added_minus(text) else {
        return Ok(None);
    };
    let Ok(token) = Literal::negative(alloc, text, span) else {
        return Err(AllocError);
    };
    match Lit::of_found(alloc, token, Some(found)) {
        Ok(literal) => Ok(Some(literal)),
        Err(_) => Err(AllocError),
    }
}

/// Consumes the literal at the start of `tokens` and returns it, or `None` if the next token doesn't begin a literal.
/// If the result is `None` or an allocation fails, tokens may be consumed nevertheless.
#[inline(always)]
pub(crate) fn take_next<A: Allocator + Copy>(
    alloc: A,
    tokens: &mut Tokens<'_>,
    file: u32,
) -> Result<Option<Lit<A>>, AllocError>
    ensures next { IfOk result
        (λ lit. IfSome lit (λ lit. ReadsNext file tokens.old lit tokens.new)) }
    ensures shorter { IfOk result
        (λ lit. OnSome lit (length tokens.new.rest < length tokens.old.rest)) }
    ensures none { IfOk result (λ lit. IfNone lit (HasNoNextLiteral tokens.old)) }
{
    let Some(token) = tokens.next() else {
        return Ok(None);
    };
    let span = Span::new(file, token.lo, token.hi);
    match token.form {
        Form::Literal => Ok(Some(literal_of(alloc, token.text, span)?)),
        Form::Identifier => match bool_of(token.text) {
            Some(value) => Ok(Some(Lit::Bool(LitBool::new(value, span)))),
            None => Ok(None),
        },
        Form::Mark('-') => {
            let Some(number) = tokens.next() else {
                return Ok(None);
            };
            let Form::Literal = number.form else {
                return Ok(None);
            };
            let Some(joined) = span.join(Span::new(file, number.lo, number.hi)) else {
                return Ok(None);
            };
            let Some(literal) = negative_of(alloc, number.text, joined)? else {
                return Ok(None);
            };
            Ok(Some(literal))
        }
        _ => Ok(None),
    }
}
/// Consumes the literal at the start of `tokens` and appends it to `list`. Returns `true` if `tokens` begins with a
/// literal, and otherwise `false`, with `tokens` and `list` unchanged. A caller that drops each literal before it reads
/// the next one needs memory for one literal only.
///
/// # Errors
///
/// Returns an error if an allocation fails for the literal or for `list`. `tokens` and `list` are unchanged then.
/// [`Literals`] reports such a failure with its position.
///
/// # Example
///
/// ```
/// use rl_tokens::Tokens;
/// use rust_literals::{Lit, push_leading_literal};
/// use std::alloc::Global;
///
/// pub fn text_after_literal(alloc: Global, text: &str) -> Option<&str> {
///     let mut tokens = Tokens::new(text);
///     let mut list: Vec<Lit> = Vec::new(alloc);
///     let is_read = push_leading_literal(alloc, &mut tokens, 0, &mut list).ok()?;
///     is_read.then_some(tokens.rest())
/// }
/// // text_after_literal(alloc, "1.5, 2") == Some(", 2")
/// ```
///
/// [`Literals`]: crate::Literals
pub fn push_leading_literal<A: Allocator + Copy>(
    alloc: A,
    tokens: &mut Tokens<'_>,
    file: u32,
    list: &mut Vec<Lit<A>, A>,
) -> Result<bool, AllocError>
    ensures next { IfOk result (λ read. IsTrue read
        → AddsNext file tokens.old list.old.items tokens.new list.new.items) }
    ensures shorter { IfOk result (λ read. IsTrue read
        → length tokens.new.rest < length tokens.old.rest) }
    ensures none { IfOk result (λ read. IsFalse read → HasNoNextLiteral tokens.old) }
    ensures stays { MatchResult result
        (λ read. IsFalse read → (list.new.items ≡ list.old.items) × (tokens.new ≡ tokens.old))
        (λ _. (list.new.items ≡ list.old.items) × (tokens.new ≡ tokens.old)) }
{
    let mut ahead = tokens.fork();
    let Some(literal) = take_next(alloc, &mut ahead, file)? else {
        return Ok(false);
    };
    if let Err(failed) = list.push(literal) {
        // The literal is dropped by a function call, because dropping it in place would double the number of steps to
        // prove.
        drop(failed);
        return Err(AllocError);
    }
    *tokens = ahead;
    Ok(true)
}

/// Returns the literals of `text`, which may contain only literals, white space and plain comments. If the text
/// contains anything else, or if an allocation fails, the result is an error with the literals that were read before.
pub(crate) fn read_flat<A: Allocator + Copy>(
    alloc: A,
    text: &str,
    file: u32,
) -> Result<Vec<Lit<A>, A>, Vec<Lit<A>, A>>
    ensures whole { IfOk result (λ list. AreRead (chars text.now) file list.items) }
    ensures begun { IfErr result (λ list. AreBegun (chars text.now) file list.items) }
{
    let mut list = Vec::new(alloc);
    let mut tokens = Tokens::new(text);
    while !tokens.rest().is_empty() {
        let Ok(true) = push_leading_literal(alloc, &mut tokens, file, &mut list) else {
            return Err(list);
        };
    }
    Ok(list)
}
