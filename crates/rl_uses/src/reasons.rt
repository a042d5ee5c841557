//! A linter that explains why literals have no value in Rust.

ghost use Rattle.std.specs.Prelude.{List, IfOk, IfErr, IfSome, IfNone};
ghost use Rattle.std.specs.Str.{chars};
ghost use Rattle.rl_strict.specs.Limits.{ExplainsValue};
ghost use Rattle.rust_literals.specs.Literals.{token_of};
ghost use Rattle.rust_literals.specs.declared.lit.Lit.{Lit};
ghost use Rattle.rust_literals.specs.Parsing.{AreRead};
ghost use Rattle.rl_uses.specs.Shortage.{IsShortOf, RejectsTextOrMemory};
ghost use Rattle.rl_uses.specs.Reasons.{HasValue, IsReasonOf, AreReasons};

use rl_grammar::{Flaw, FlawKind, LineEnds, explain_missing_value};
use rl_tokens::{Error, Span};
use rust_literals::{Lit, read_all};
use std::alloc::Allocator;

/// The reason why a literal of a text has no value in Rust.
#[derive(Clone, Copy)]
pub struct Reason {
    /// The span of the invalid part of the literal: a file, and a range of bytes in that file.
    pub span: Span,
    /// The kind of the literal's flaw.
    pub kind: FlawKind,
}

/// Returns the flaw in the literal's text, or `None` if the literal has a value in Rust.
fn flaw_of<A: Allocator>(literal: &Lit<A>) -> Option<Flaw>
    ensures none { IfNone result (HasValue literal.now) }
    ensures some { IfSome result (ExplainsValue (chars (token_of literal.now).text)) }
{
    explain_missing_value(literal.text(), LineEnds::Text, true)
}

/// Returns the reason why `literal` has no value in Rust, or `None` if it has one.
fn reason_of<A: Allocator>(literal: &Lit<A>) -> Option<Reason>
    ensures none { IfNone result (HasValue literal.now) }
    ensures some { IfSome result (IsReasonOf literal.now) }
{
    let flaw = flaw_of(literal)?;
    Some(Reason {
        span: flaw.in_span(literal.span()),
        kind: flaw.kind,
    })
}

/// Returns the reason for each of `literals` that has no value in Rust.
fn reasons_of<A: Allocator>(alloc: A, literals: &[Lit<A>]) -> Result<Vec<Reason, A>, Error<A>>
    ensures found { IfOk result (λ reasons. AreReasons literals.now reasons.items) }
    ensures memory { IfErr result (IsShortOf literals.now) }
{
    let mut reasons = Vec::new(alloc);
    for literal in literals {
        if let Some(reason) = reason_of(literal) {
            if reasons.push(reason).is_err() {
                return Err(Error::out_of_memory(literal.span()));
            }
        }
    }
    Ok(reasons)
}

/// Returns the reason for each literal of `text` that has no value in Rust, in the order of the text. A reason's span
/// is `file` and the byte range of the literal's invalid part. The text may contain only literals, white space and
/// plain comments.
///
/// # Errors
///
/// Returns the error of [`read_all`] for the text. If an allocation fails afterwards, returns `Memory` at the literal
/// for which memory was needed.
pub fn bad_literals<A: Allocator + Copy>(
    alloc: A,
    text: &str,
    file: u32,
) -> Result<Vec<Reason, A>, Error<A>>
    // On success the text consists of literals, and the reasons are the reasons for those literals of the text that
    // have no value in Rust.
    ensures found { IfOk result (λ reasons. (list : List (Lit A))
        × AreRead (chars text.now) file list × AreReasons list reasons.items) }
    // The returned error is the error of `read_all` for the text, or an allocation failure at one of the literals.
    ensures rejected { IfErr result (RejectsTextOrMemory text.now file) }
{
    let literals = read_all(alloc, text, file)?;
    reasons_of(alloc, literals.as_slice())
}
