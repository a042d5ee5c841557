//! The theorem of the libraries, as contracts of small functions that call them. The contracts use the rules of both
//! grammars, and the definitions of `specs/`.
//!
//! - [`parsed`], [`value_of`], [`suffix_of`]: a token is parsed as its one parse result, which the accessors return.
//! - [`written_string`] and the like: the literal written for a value is strict, and is parsed as the value.
//! - [`read_back`]: a printed list of literals is read as the list's items.
//! - [`literal_at`]: the loop over a list, which takes no memory, returns the same items.
//! - [`both_ways`]: of a printed list, both return the same literals.
//! - [`read_again`]: the texts of literals that were read are read again as the same literals.
//! - [`rules`]: the grammars are rules in a notation like that of the Rust Reference.
#![tactic(auto)]

pub mod rules;

ghost use Rattle.std.specs.Prelude.{◌≡◌, ◌∷◌, [], ℕ, List, None, IfOk, IfErr};
ghost use Rattle.std.specs.Str.{chars};
ghost use Rattle.rl_syntax.specs.declared.kind.Kind.TheVariants.{Str, ByteStr, CStr, Byte, Char};
ghost use Rattle.rl_syntax.specs.Readings.{Reading};
ghost use Rattle.rl_tokens.specs.declared.error.ErrorKind.TheVariants.{Memory};
ghost use Rattle.rust_literals.specs.Literals.{token_of};
ghost use Rattle.rl_theorem.specs.Headline.{HoldsItsReading, HoldsReading, HoldsNoReading, GivesValue, Writes};
ghost use Rattle.rl_theorem.specs.Printed.{ListItem, PrintedList, HoldItems};
ghost use Rattle.rust_literals.specs.ReadBack.{HoldsOrMemory};
ghost use Rattle.rust_literals.specs.Reprints.{Spaced, lits_of, IsReprint, SameButSpans};
ghost use Rattle.rl_theorem.specs.Lists.{IsStepAt, IsAlsoAt};

use rl_cursors::{ListLiterals, ListStep};
use rl_quoted::{LitByte, LitByteStr, LitCStr, LitChar, LitStr};
use rl_tokens::{CString, Error, Kept, Literal, Span};
use rust_literals::{Lit, read_all};
use std::alloc::Allocator;

/// Parses a token with `Lit::new`.
pub fn parsed<A: Allocator>(alloc: A, token: Literal<A>) -> Result<Lit<A>, Kept<Literal<A>, A>>
    // The literal is what the token's text is parsed as, or the literal is `Verbatim` and the text has no parse result.
    ensures parsed { IfOk result HoldsItsReading }
    ensures same { IfOk result (λ lit. token_of lit ≡ token) }
    ensures kept { IfErr result (λ kept. kept.value ≡ token) }
    ensures memory { IfErr result (λ kept. kept.error.kind ≡ Memory) }
{
    Lit::new(alloc, token)
}

/// A value that a literal's accessor returns: `value()` of a quoted or `bool` literal, `base10_digits()` of a number.
#[derive(Drop)]
pub enum Value<'a, A: Allocator> {
    /// The value of a string.
    Text(String<A>),
    /// The value of a byte string.
    Bytes(Vec<u8, A>),
    /// The value of a C string.
    CBytes(CString<A>),
    /// The value of a byte literal.
    Byte(u8),
    /// The value of a character literal.
    Character(char),
    /// The digits of a number.
    Digits(&'a str),
    /// The value of a `bool` literal.
    Truth(bool),
}

/// Returns the value of a literal, by its accessor, or `None` if the literal is `Verbatim`.
pub fn value_of<'a, A: Allocator, B: Allocator>(
    alloc: B,
    literal: &'a Lit<A>,
) -> Result<Option<Value<'a, B>>, Error<B>>
    // If the literal holds a parse result, the value is that of the parse result.
    ensures value { (r : Reading) → HoldsReading literal.now r → IfOk result (λ value. GivesValue value r.kind r.contents) }
    ensures none { HoldsNoReading literal.now → IfOk result (λ value. value ≡ None) }
    ensures memory { IfErr result (λ e. e.kind ≡ Memory) }
{
    match literal {
        Lit::Str(string) => match string.value(alloc) {
            Ok(value) => Ok(Some(Value::Text(value))),
            Err(error) => Err(error),
        },
        Lit::ByteStr(string) => match string.value(alloc) {
            Ok(value) => Ok(Some(Value::Bytes(value))),
            Err(error) => Err(error),
        },
        Lit::CStr(string) => match string.value(alloc) {
            Ok(value) => Ok(Some(Value::CBytes(value))),
            Err(error) => Err(error),
        },
        Lit::Byte(byte) => Ok(Some(Value::Byte(byte.value()))),
        Lit::Char(character) => Ok(Some(Value::Character(character.value()))),
        Lit::Int(number) => Ok(Some(Value::Digits(number.base10_digits()))),
        Lit::Float(number) => Ok(Some(Value::Digits(number.base10_digits()))),
        Lit::Bool(truth) => Ok(Some(Value::Truth(truth.value()))),
        Lit::Verbatim(_) => Ok(None),
    }
}

/// Returns the suffix of a literal, by its accessor.
pub fn suffix_of<A: Allocator>(literal: &Lit<A>) -> &str
    // If the literal holds a parse result, the suffix is that of the parse result.
    ensures { (r : Reading) → HoldsReading literal.now r → chars result.now ≡ r.suffix }
{
    literal.suffix()
}

/// Writes a string as a literal.
pub fn written_string<A: Allocator>(
    alloc: A,
    value: &str,
    span: Span,
) -> Result<LitStr<A>, Error<A>>
    ensures written { IfOk result (λ l. Writes Str (chars value.now) (chars l.text)) }
    ensures span { IfOk result (λ l. l.span ≡ span) }
    ensures memory { IfErr result (λ e. e.kind ≡ Memory) }
{
    LitStr::new(alloc, value, span)
}

/// Writes bytes as a literal.
pub fn written_bytes<A: Allocator>(
    alloc: A,
    value: &[u8],
    span: Span,
) -> Result<LitByteStr<A>, Error<A>>
    ensures written { IfOk result (λ l. Writes ByteStr value.now (chars l.text)) }
    ensures span { IfOk result (λ l. l.span ≡ span) }
    ensures memory { IfErr result (λ e. e.kind ≡ Memory) }
{
    LitByteStr::new(alloc, value, span)
}

/// Writes a C string as a literal.
pub fn written_c_string<A: Allocator, C: Allocator>(
    alloc: A,
    value: &CString<C>,
    span: Span,
) -> Result<LitCStr<A>, Error<A>>
    ensures written { IfOk result (λ l. Writes CStr value.now (chars l.text)) }
    ensures span { IfOk result (λ l. l.span ≡ span) }
    ensures memory { IfErr result (λ e. e.kind ≡ Memory) }
{
    LitCStr::new(alloc, value, span)
}

/// Writes a byte as a literal.
pub fn written_byte<A: Allocator>(alloc: A, value: u8, span: Span) -> Result<LitByte<A>, Error<A>>
    ensures written { IfOk result (λ l. Writes Byte (value ∷ []) (chars l.text)) }
    ensures span { IfOk result (λ l. l.span ≡ span) }
    ensures memory { IfErr result (λ e. e.kind ≡ Memory) }
{
    LitByte::new(alloc, value, span)
}

/// Writes a character as a literal.
pub fn written_character<A: Allocator>(
    alloc: A,
    value: char,
    span: Span,
) -> Result<LitChar<A>, Error<A>>
    ensures written { IfOk result (λ l. Writes Char (value ∷ []) (chars l.text)) }
    ensures span { IfOk result (λ l. l.span ≡ span) }
    ensures memory { IfErr result (λ e. e.kind ≡ Memory) }
{
    LitChar::new(alloc, value, span)
}

/// Reads all literals of a text with `read_all`.
pub fn read_back<A: Allocator + Copy>(
    alloc: A,
    text: &str,
    file: u32,
) -> Result<Vec<Lit<A>, A>, Error<A>>
    // If the text is a printed list of literals, these are the literals that are returned, or an allocation failed.
    ensures { (items : List ListItem) (last : List ℕ) → PrintedList (chars text.now) items last
        → HoldsOrMemory (HoldItems file 0 items) result }
{
    read_all(alloc, text, file)
}

/// Returns the step number `n` of the loop over a list, counted from 0.
pub fn literal_at(text: &str, n: usize) -> ListStep<'_>
    // If the text is a printed list of literals, the step is the item number `n`, or the end if there are at most `n` items.
    ensures { (items : List ListItem) (last : List ℕ) → PrintedList (chars text.now) items last
        → IsStepAt 0 items n result }
{
    let mut list = ListLiterals::new(text);
    for _ in 0..n {
        let _ = list.next();
    }
    list.next()
}

/// Reads all literals of a text with `read_all`, and returns them with the step number `n` of the loop over the list.
pub fn both_ways<'t, A: Allocator + Copy>(
    alloc: A,
    text: &'t str,
    file: u32,
    n: usize,
) -> Result<(Vec<Lit<A>, A>, ListStep<'t>), Error<A>>
    // If the text is a printed list of literals, both ways return the same item of the list.
    ensures same { (items : List ListItem) (last : List ℕ) → PrintedList (chars text.now) items last
        → IfOk result (λ both. IsAlsoAt file both.0.items n both.1) }
    ensures memory { (items : List ListItem) (last : List ℕ) → PrintedList (chars text.now) items last
        → IfErr result (λ e. e.kind ≡ Memory) }
{
    match read_back(alloc, text, file) {
        Ok(literals) => Ok((literals, literal_at(text, n))),
        Err(error) => Err(error),
    }
}

/// Reads all literals of the text `source`, and then all literals of `text`.
pub fn read_again<A: Allocator + Copy>(
    alloc: A,
    source: &str,
    text: &str,
    file: u32,
) -> Result<(Vec<Lit<A>, A>, Result<Vec<Lit<A>, A>, Error<A>>), Error<A>>
    // If `text` consists of the texts of the literals of `source`, strict or not, with other separators, the literals
    // are the same, except for their spans, or an allocation failed.
    ensures again { IfOk result (λ both. (spaced : List (Spaced A)) (last : List ℕ) → lits_of spaced ≡ both.0.items
        → IsReprint (chars text.now) spaced last → HoldsOrMemory (SameButSpans both.0.items) both.1) }
    // If `source` is a printed list of literals, the only error is an allocation failure.
    ensures memory { (items : List ListItem) (last : List ℕ) → PrintedList (chars source.now) items last
        → IfErr result (λ e. e.kind ≡ Memory) }
{
    match read_all(alloc, source, 0) {
        Ok(literals) => Ok((literals, read_all(alloc, text, file))),
        Err(error) => Err(error),
    }
}
