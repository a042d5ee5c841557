//! Writes the output line of a `Lit`.

ghost use Rattle.std.specs.Prelude.{IfOk, IsTrue, OnOk, string_bytes};
ghost use Rattle.std.specs.Str.{chars};
ghost use Rattle.rl_program.specs.Lines.{IsLineOfKind, Appends};
ghost use Rattle.rl_lenient.specs.Founds.{is_quoted};
ghost use Rattle.rl_program.specs.LitLines.{IsLineOfLit};

use crate::found_line::{bool_word, push_found_line};
use crate::line::{push_line_of_kind, push_verbatim_line};
use rl_quoted::{Quoted, QuotedKind};
use rl_tokens::Kind;
use rust_literals::Lit;
use std::alloc::{AllocError, Allocator};

/// Appends the output line of a quoted literal, from the parse result that it stores.
fn push_quoted_literal<K: QuotedKind, A: Allocator + Copy>(
    alloc: A,
    out: &mut String<A>,
    literal: &Quoted<K, A>,
) -> Result<(), AllocError>
    requires { IsTrue (is_quoted K.KIND) }
    ensures { OnOk result (Appends (IsLineOfKind K.KIND (chars literal.now.text))
        (chars (string_bytes out.old)) (chars (string_bytes out.new))) }
{
    push_found_line(alloc, out, literal.text(), Some(literal.found()))
}

/// Appends the output line of a literal.
///
/// # Errors
///
/// Returns an error if an allocation fails. The error is the standard library's. A part of the line may have been appended then.
pub fn push_literal_line<A: Allocator + Copy>(
    alloc: A,
    out: &mut String<A>,
    literal: &Lit<A>,
) -> Result<(), AllocError>
    ensures { OnOk result (Appends (IsLineOfLit literal.now)
        (chars (string_bytes out.old)) (chars (string_bytes out.new))) }
{
    match literal {
        Lit::Str(literal) => push_quoted_literal(alloc, out, literal),
        Lit::ByteStr(literal) => push_quoted_literal(alloc, out, literal),
        Lit::CStr(literal) => push_quoted_literal(alloc, out, literal),
        Lit::Byte(literal) => push_quoted_literal(alloc, out, literal),
        Lit::Char(literal) => push_quoted_literal(alloc, out, literal),
        Lit::Int(number) => push_line_of_kind(
            out,
            Kind::Int,
            number.base10_digits(),
            number.suffix(),
        ),
        Lit::Float(number) => push_line_of_kind(
            out,
            Kind::Float,
            number.base10_digits(),
            number.suffix(),
        ),
        Lit::Bool(truth) => push_line_of_kind(out, Kind::Bool, bool_word(truth.value()), ""),
        Lit::Verbatim(token) => push_verbatim_line(out, token.text()),
    }
}

/// Returns the output line of a literal: its kind, its value as a newly written literal, and its suffix, with an LF at the end.
///
/// # Errors
///
/// Returns an error if an allocation fails. The error is the standard library's and has no position.
pub fn output_line<A: Allocator + Copy>(alloc: A, literal: &Lit<A>) -> Result<String<A>, AllocError>
    ensures { IfOk result (λ line. IsLineOfLit literal.now (chars (string_bytes line))) }
{
    let mut line = String::new(alloc);
    push_literal_line(alloc, &mut line, literal)?;
    Ok(line)
}
