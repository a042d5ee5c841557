//! A formatter that rewrites quoted literals from their values.

ghost use Rattle.std.specs.Prelude.{◌≡◌, ◌++◌, List, OnOk, IfOk, IfErr, codes, string_bytes};
ghost use Rattle.std.specs.Str.{chars};
ghost use Rattle.rl_syntax.specs.declared.kind.Kind.TheVariants.{Str as StrKind, ByteStr as ByteStrKind, CStr as CStrKind, Byte as ByteKind, Char as CharKind};
ghost use Rattle.rl_tokens.specs.Errors.{memory_at};
ghost use Rattle.rust_literals.specs.declared.lit.Lit.{Lit};
ghost use Rattle.rust_literals.specs.Parsing.{AreRead};
ghost use Rattle.rust_literals.specs.LitParts.{lit_span};
ghost use Rattle.rl_uses.specs.Shortage.{IsShortOf, RejectsTextOrMemory};
ghost use Rattle.rl_uses.specs.Rewrites.{IsQuotedRewrite, IsRewrite, PrintsLine, AreLines};

use rl_tokens::{Error, Span};
use rust_literals::{Lit, LitByte, LitByteStr, LitCStr, LitChar, LitStr, read_all};
use std::alloc::Allocator;

/// Returns the string literal rewritten from its decoded value, or a copy if it has a suffix.
fn string_rewritten<A: Allocator + Copy>(
    alloc: A,
    literal: &LitStr<A>,
) -> Result<LitStr<A>, Error<A>>
    ensures rewritten { IfOk result (IsQuotedRewrite StrKind literal.now) }
    ensures memory { IfErr result (λ e. e ≡ memory_at literal.now.span) }
{
    if literal.has_suffix() {
        return literal.clone(alloc);
    }
    let value = literal.value(alloc)?;
    LitStr::new(alloc, value.as_str(), literal.span())
}

/// Returns the byte string literal rewritten from its decoded value, or a copy if it has a suffix.
fn byte_string_rewritten<A: Allocator + Copy>(
    alloc: A,
    literal: &LitByteStr<A>,
) -> Result<LitByteStr<A>, Error<A>>
    ensures rewritten { IfOk result (IsQuotedRewrite ByteStrKind literal.now) }
    ensures memory { IfErr result (λ e. e ≡ memory_at literal.now.span) }
{
    if literal.has_suffix() {
        return literal.clone(alloc);
    }
    let value = literal.value(alloc)?;
    LitByteStr::new(alloc, value.as_slice(), literal.span())
}

/// Returns the C string literal rewritten from its decoded value, or a copy if it has a suffix.
fn c_string_rewritten<A: Allocator + Copy>(
    alloc: A,
    literal: &LitCStr<A>,
) -> Result<LitCStr<A>, Error<A>>
    ensures rewritten { IfOk result (IsQuotedRewrite CStrKind literal.now) }
    ensures memory { IfErr result (λ e. e ≡ memory_at literal.now.span) }
{
    if literal.has_suffix() {
        return literal.clone(alloc);
    }
    let value = literal.value(alloc)?;
    LitCStr::new(alloc, &value, literal.span())
}

/// Returns the byte literal rewritten from its decoded value, or a copy if it has a suffix.
fn byte_rewritten<A: Allocator + Copy>(
    alloc: A,
    literal: &LitByte<A>,
) -> Result<LitByte<A>, Error<A>>
    ensures rewritten { IfOk result (IsQuotedRewrite ByteKind literal.now) }
    ensures memory { IfErr result (λ e. e ≡ memory_at literal.now.span) }
{
    if literal.has_suffix() {
        return literal.clone(alloc);
    }
    LitByte::new(alloc, literal.value(), literal.span())
}

/// Returns the character literal rewritten from its decoded value, or a copy if it has a suffix.
fn character_rewritten<A: Allocator + Copy>(
    alloc: A,
    literal: &LitChar<A>,
) -> Result<LitChar<A>, Error<A>>
    ensures rewritten { IfOk result (IsQuotedRewrite CharKind literal.now) }
    ensures memory { IfErr result (λ e. e ≡ memory_at literal.now.span) }
{
    if literal.has_suffix() {
        return literal.clone(alloc);
    }
    LitChar::new(alloc, literal.value(), literal.span())
}

/// Returns the literal rewritten from its decoded value if it is a string, byte string, C string, byte or character
/// without suffix. The new text is as the type's `new` writes it, and is valid in Rust's grammar. For any other literal
/// the result is a copy. The new literal's span is that of `literal`.
///
/// # Errors
///
/// Returns `Memory` at the literal's span if an allocation fails.
pub fn rewritten<A: Allocator + Copy>(alloc: A, literal: &Lit<A>) -> Result<Lit<A>, Error<A>>
    ensures rewritten { IfOk result (IsRewrite literal.now) }
    ensures memory { IfErr result (λ e. e ≡ memory_at (lit_span literal.now)) }
{
    match literal {
        Lit::Str(literal) => Ok(Lit::Str(string_rewritten(alloc, literal)?)),
        Lit::ByteStr(literal) => Ok(Lit::ByteStr(byte_string_rewritten(alloc, literal)?)),
        Lit::CStr(literal) => Ok(Lit::CStr(c_string_rewritten(alloc, literal)?)),
        Lit::Byte(literal) => Ok(Lit::Byte(byte_rewritten(alloc, literal)?)),
        Lit::Char(literal) => Ok(Lit::Char(character_rewritten(alloc, literal)?)),
        Lit::Int(_) => literal.clone(alloc),
        Lit::Float(_) => literal.clone(alloc),
        Lit::Bool(_) => literal.clone(alloc),
        Lit::Verbatim(_) => literal.clone(alloc),
    }
}

/// Appends `text` and LF to `out`. An allocation failure is reported at `span`.
fn push_text<A: Allocator>(out: &mut String<A>, text: &str, span: Span) -> Result<(), Error<A>>
    ensures line { OnOk result
        (string_bytes out.new ≡ string_bytes out.old ++ (text.now ++ codes "\n")) }
    ensures memory { IfErr result (λ e. e ≡ memory_at span) }
{
    if out.push_str(text).is_err() || out.push('\n').is_err() {
        return Err(Error::out_of_memory(span));
    }
    Ok(())
}

/// Appends the text of the rewritten `literal` and LF to `out`.
fn push_line<A: Allocator + Copy>(
    alloc: A,
    out: &mut String<A>,
    literal: &Lit<A>,
) -> Result<(), Error<A>>
    ensures line { OnOk result
        (PrintsLine literal.now (string_bytes out.old) (string_bytes out.new)) }
    ensures memory { IfErr result (λ e. e ≡ memory_at (lit_span literal.now)) }
{
    let anew = rewritten(alloc, literal)?;
    let pushed = push_text(out, anew.text(), literal.span());
    drop(anew);
    pushed
}

/// Returns the texts of the rewritten `literals`, each with LF after it.
fn lines<A: Allocator + Copy>(alloc: A, literals: &[Lit<A>]) -> Result<String<A>, Error<A>>
    ensures lines { IfOk result (λ printed. AreLines literals.now (string_bytes printed)) }
    ensures memory { IfErr result (IsShortOf literals.now) }
{
    let mut out = String::new(alloc);
    for literal in literals {
        push_line(alloc, &mut out, literal)?;
    }
    Ok(out)
}

/// Formats `text`: returns the text of each of its literals, rewritten by [`rewritten`], one on each line. The text may
/// contain only literals, white space and plain comments.
///
/// # Errors
///
/// Returns the error of [`read_all`] for the text. If an allocation fails afterwards, returns `Memory` at the literal
/// for which memory was needed.
pub fn format<A: Allocator + Copy>(alloc: A, text: &str, file: u32) -> Result<String<A>, Error<A>>
    // On success the text consists of literals, and the result is the rewritten literals, each with LF after it.
    ensures printed { IfOk result (λ printed. (list : List (Lit A))
        × AreRead (chars text.now) file list × AreLines list (string_bytes printed)) }
    // The returned error is the error of `read_all` for the text, or an allocation failure at one of the literals.
    ensures rejected { IfErr result (RejectsTextOrMemory text.now file) }
{
    let literals = read_all(alloc, text, file)?;
    lines(alloc, literals.as_slice())
}
